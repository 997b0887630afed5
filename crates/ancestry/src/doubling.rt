// The rows of the result buffer, three words each, as room while the chains of all classes are followed together: each round doubles how far every
// chain is followed.
ghost use Rattle.std.specs.Prelude.{◌≡◌, List, ℕ, ◌+◌, ◌*◌, ◌/◌, ◌<◌, ◌≤◌, ◌^◌, length};
ghost use Rattle.reads.specs.Reference.{before};
ghost use Rattle.ancestry.specs.Doubling.{state_at, count_of, parts_of, told_by, put_at, joined_of, jumped_at, jumped_to, finished_at, finished_to, Ground, Following};

use crate::class_chain::{Ancestry, put_row};

// What is known of a class while chains are followed: its chain ended `count` classes up, the last of them at the address `last` (0 if
// there is none); it loops; or it was followed `count` classes up, to the class in row `row`. The first two are what is told in the end; a
// case that holds an `Ancestry` in their place would be one more level in each match on what is known.
#[derive(Clone, Copy)]
pub enum State {
    Ended { count: u64, last: u64 },
    Looping,
    Followed { count: u64, row: u64 },
}

// A number of classes that no chain which ends has above a class, with room in a word for a count below it and a mark.
#[derive(Clone, Copy)]
pub(crate) struct Limit {
    pub(crate) classes: u64,
    ghost small: { classes ≤ 2 ^ 40 },
}

// What is known of the class in row i. Rows go by their number in the words that are lent, as in the definitions: a jump knows the row that
// it comes to by its number alone, and reads it while it writes another, which chunks handed out one by one do not allow. For `finish_all`
// tried: `for row in out.chunks_exact_mut(3)`, with `finish` of a row alone; the proof did not close, for the check does not tell a loop's
// invariant what the chunks before hold now, nor afterwards what is in `out`, but for its length.
pub(crate) fn state_at(out: &[u64], i: usize) -> State
    requires { i * 3 + 2 < length out.now }
    ensures { result ≡ state_at (before out) i }
{
    let first = out[i * 3];
    let count = first / 4;
    let place = out[i * 3 + 1];
    match first % 4 {
        0 => State::Ended { count, last: place },
        2 => State::Followed { count, row: place },
        _ => State::Looping,
    }
}

// The count, the place and the mark that stand in a row.
fn parts_of(s: State) -> [u64; 3]
    ensures { result ≡ parts_of s }
{
    match s {
        State::Ended { count, last } => [count, last, 0],
        State::Looping => [0, 0, 1],
        State::Followed { count, row } => [count, row, 2],
    }
}

pub(crate) fn put_state(out: &mut [u64], i: usize, s: State)
    requires { (i * 3 + 2 < length out.old) × (count_of s < 2 ^ 60) }
    ensures { out.new ≡ put_at out.old i s }
{
    let [count, place, mark] = parts_of(s);
    out[i * 3] = count * 4 + mark;
    out[i * 3 + 1] = place;
}

// A class that was followed `count` classes up, to the one at `address`, goes on from what is known of that one.
#[tactic(auto, using(std::proofs::lemmas::Bool::Decides::nat_tests), unfolding(crate::specs::Doubling::joined_of, reads::specs::Outcome::choose))]
fn joined(limit: u64, count: u64, address: u64, next: State) -> State
    requires { (count < 2 ^ 62) × (count_of next < 2 ^ 62) }
    ensures { result ≡ joined_of limit count address next }
{
    match next {
        State::Looping => State::Looping,
        State::Ended { count: more, last } => {
            if limit <= count + more {
                return State::Looping;
            }
            if more == 0 {
                return State::Ended {
                    count,
                    last: address,
                };
            }
            State::Ended {
                count: count + more,
                last,
            }
        }
        State::Followed { count: more, row } => {
            if limit <= count + more {
                return State::Looping;
            }
            if more == 0 {
                return State::Ended {
                    count,
                    last: address,
                };
            }
            State::Followed {
                count: count + more,
                row,
            }
        }
    }
}

// The chain of the class in row i is followed on from where the class that it has come to was followed to.
#[tactic(auto, using(crate::proofs::Rounds::jump_stays, crate::proofs::Rounds::jump_past, crate::proofs::Rounds::jump_puts, crate::proofs::Rounds::joined_small, crate::proofs::Rounds::state_small))]
fn jump(limit: Limit, out: &mut [u64], i: usize)
    requires { i < length out.old / 3 }
    ensures { out.new ≡ jumped_at (length out.old / 3) limit.classes out.old i }
{
    let State::Followed { count, row } = state_at(out, i) else {
        return;
    };
    let row = row as usize;
    if out.len() / 3 <= row {
        return;
    }
    let next = state_at(out, row);
    let t = joined(limit.classes, count, out[row * 3 + 2], next);
    put_state(out, i, t);
}

// One round: every chain is followed at least twice as far.
#[tactic(auto, using(crate::proofs::Rounds::jumped_more, crate::proofs::Rounds::jumped_none))]
fn jump_all(limit: Limit, out: &mut [u64])
    ensures { let listed = length out.old / 3 in
        out.new ≡ jumped_to listed limit.classes out.old listed }
{
    for i in 0..out.len() / 3 {
        jump(limit, out, i);
    }
}

// Follows every chain, of which one step is known, as far as can be.
pub(crate) fn follow(limit: Limit, out: &mut [u64])
    ensures size { length out.new ≡ length out.old }
    ensures followed { (g : Ground) (out₀ : List ℕ) → g.limit ≡ limit.classes → g.listed ≡ length out.old / 3 → Following g 1 out₀ out.old
        → Following g limit.classes out₀ out.new }
{
    // Not a `for`: a round doubles how far the chains are followed.
    let mut reach = 1;
    while reach < limit.classes {
        jump_all(limit, out);
        reach *= 2;
    }
}

// What a class is told of which this is known: one that was followed to no end loops.
fn told_by(s: State) -> Ancestry
    ensures { result ≡ told_by s }
{
    match s {
        State::Ended { count, last } => Ancestry::Ended { count, last },
        State::Looping | State::Followed { .. } => Ancestry::Looping,
    }
}

// The record of the class in row i, once its chain is followed.
#[tactic(auto, unfolding(crate::specs::Doubling::finished_at))]
fn finish(out: &mut [u64], i: usize)
    requires { i * 3 + 2 < length out.old }
    ensures { out.new ≡ finished_at out.old i }
{
    let told = told_by(state_at(out, i));
    put_row(out, i * 3, told.row());
}

#[tactic(auto, using(crate::proofs::Rounds::finished_more, crate::proofs::Rounds::finished_none))]
pub(crate) fn finish_all(out: &mut [u64])
    ensures { out.new ≡ finished_to out.old (length out.old / 3) }
{
    for i in 0..out.len() / 3 {
        finish(out, i);
    }
}
