// The binds that an opcode makes.
ghost use Rattle.std.specs.Prelude.{◌≡◌};
ghost use Rattle.fixups.specs.Tables.{Kept, named_row, put_row};
ghost use Rattle.opcodes.specs.Binding.{further, bound_by, run};
ghost use Rattle.opcodes.specs.Tables.{Runs, part_in};
ghost use Rattle.reads.specs.Answer.{answered};

use fixups::name::{Bound, Name};
use fixups::table::put_bind;
use reads::answer::Question;
use reads::place::lies_in;

// A segment, by its command's vmaddr, fileoff and filesize.
#[derive(Clone, Copy)]
pub struct Place {
    pub vmaddr: u64,
    pub fileoff: u64,
    pub filesize: u64,
}

// What the opcodes have set: a segment, the slot's offset in it, and a symbol's name; by default neither a segment nor a symbol.
#[derive(Clone, Copy, Default)]
pub struct State {
    pub place: Option<Place>,
    pub offset: u64,
    pub name: Option<Name>,
}

// The bind table, and how many binds are counted: each is put where there is room for it.
#[derive(Drop)]
pub(crate) struct Binds<'a> {
    pub(crate) table: &'a mut [u64],
    pub(crate) count: u64,
}

impl Binds<'_> {
    // Puts a bind. `Kept` is said in each function for the reason at fixups' `Lists::put`.
    fn put(&mut self, x: Bound)
        ensures kept { Kept self.old.table self.new.table }
        ensures put { part_in self.new ≡ put_row (named_row x) (part_in self.old) }
    {
        self.count = put_bind(self.table, self.count, x);
    }
}

// The slot n bytes further.
pub(crate) fn further(n: u64, s: State) -> State
    ensures { result ≡ further n s }
{
    State {
        offset: s.offset.wrapping_add(n),
        ..s
    }
}

// The bind of the slot, in a file of `end` bytes.
#[tactic(auto, unfolding(crate::specs::Binding::bound_by, reads::specs::Outcome::choose), using(std::proofs::lemmas::Bool::Decides::nat_tests))]
fn bound_by(end: u64, s: State) -> Result<Bound, Question>
    ensures { answered result ≡ bound_by end s }
{
    let place = s.place.ok_or(Question::FixupData)?;
    let name = s.name.ok_or(Question::FixupData)?;
    if !lies_in(place.filesize, 0, s.offset, 8) {
        return Err(Question::FixupSlot);
    }
    if !lies_in(end, place.fileoff, s.offset, 8) {
        return Err(Question::FixupSlot);
    }
    Ok(Bound {
        slot: place.vmaddr.wrapping_add(s.offset),
        name,
    })
}

// Puts `count` binds, each `stride` bytes after the one before: the state after them.
pub(crate) fn run(
    end: u64,
    count: u64,
    stride: u64,
    s: State,
    binds: &mut Binds,
) -> Result<State, Question>
    ensures { Runs (run end count stride s) result binds.old binds.new }
{
    let mut here = s;
    for _ in 0..count {
        let x = bound_by(end, here)?;
        binds.put(x);
        here = further(stride, here);
    }
    Ok(here)
}
