// The answer of a function that gives ranges.
ghost use Rattle.std.specs.Prelude.{◌≡◌};
ghost use Rattle.reads.specs.Reference.{before};
ghost use Rattle.ranges.specs.Written.{room_for};
ghost use Rattle.reads.specs.Answer.{answered};

use reads::answer::Question;

// That many ranges, of three words each; 24 where `out` has no room for them.
#[tactic(auto, using(crate::proofs::WrittenLaws::room_some, crate::proofs::WrittenLaws::room_none))]
pub fn room_for(count: u64, out: &[u64]) -> Result<u64, Question>
    ensures { answered result ≡ room_for count (before out) }
{
    let room = (out.len() / 3) as u64;
    if room < count {
        return Err(Question::RangeRoom);
    }
    Ok(count)
}
