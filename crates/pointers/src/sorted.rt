// The lookup of a slot in a rebase table whose slots ascend, by halves: for a call that opened the tables itself, and so knows that no
// chain is broken.
ghost use Rattle.std.specs.Prelude.{◌≡◌};
ghost use Rattle.reads.specs.Reference.{before};
ghost use Rattle.pointers.specs.Chain.{row_of};
ghost use Rattle.pointers.specs.Sorted.{ascending, at_most, climb, halvings, sorted_at, sorted_record};
ghost use Rattle.reads.specs.Answer.{outcome};

use crate::table::{Rebase, every};
use reads::answer::{Missing, Reason};

// Is each slot below the next?
#[tactic(auto, unfolding(crate::specs::Sorted::ascending, crate::specs::Sorted::rises))]
pub fn ascends(rebases: &[u64]) -> bool
    ensures { result ≡ ascending (before rebases) }
{
    let count = rebases.len() / Rebase::WORDS;
    every(count.saturating_sub(1), |i| {
        rebases[i * Rebase::WORDS] < rebases[(i + 1) * Rebase::WORDS]
    })
}

// Record i is there, and its slot is at most the slot.
#[tactic(auto, unfolding(crate::specs::Sorted::at_most))]
fn at_most(rebases: &[u64], slot: u64, i: usize) -> bool
    ensures { result ≡ at_most (before rebases) slot i }
{
    i < rebases.len() / Rebase::WORDS && rebases[i * Rebase::WORDS] <= slot
}

// How often the steps are halved: question 5 allows fewer than 2^24 records.
const HALVINGS: u32 = 24;

// The last record whose slot is at most the slot, where slots ascend; record 0 where there is none, no Option: `sorted_at` compares the slot of
// record b in any case.
// Not `binary_search_by_key`: that promises nothing where slots do not ascend, and every table has its answer here.
#[tactic(auto, using(crate::proofs::SortedLookups::climb_taken, crate::proofs::SortedLookups::climb_left, crate::proofs::SortedLookups::climb_end, crate::proofs::SortedLookups::at_most_below))]
fn climb(rebases: &[u64], slot: u64) -> usize
    ensures { result ≡ climb (before rebases) slot halvings 0 }
{
    let mut b = 0;
    for k in (0..HALVINGS).rev() {
        let step = 1 << k;
        if at_most(rebases, slot, b + step) {
            b += step;
        }
    }
    b
}

// The row of the slot's record, where record b has the slot.
#[tactic(auto, unfolding(crate::specs::Sorted::sorted_at, reads::specs::Outcome::choose))]
fn sorted_at(rebases: &[u64], slot: u64, b: usize) -> Result<usize, Missing>
    ensures { outcome result ≡ row_of (sorted_at (before rebases) slot b) }
{
    if b < rebases.len() / Rebase::WORDS && rebases[b * Rebase::WORDS] == slot {
        return Ok(b);
    }
    Err(Missing::Absent(Reason::NoRecord))
}

// The row of the slot's record.
pub(crate) fn find_sorted(rebases: &[u64], slot: u64) -> Result<usize, Missing>
    ensures { outcome result ≡ row_of (sorted_record (before rebases) slot) }
{
    sorted_at(rebases, slot, climb(rebases, slot))
}
