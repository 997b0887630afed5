// The chain of classes above a class (note 9).
ghost use Rattle.std.specs.Prelude.{◌≡◌, ◌+◌, ◌≤◌, false, length};
ghost use Rattle.reads.specs.Outcome.{value};
ghost use Rattle.reads.specs.Answer.{outcome, answered};
ghost use Rattle.pointers.specs.Question.{guarded};
ghost use Rattle.records.specs.Class.{class_at};
ghost use Rattle.ancestry.specs.Chain.{last_at, climb};
ghost use Rattle.ancestry.specs.Filling.{put};
ghost use Rattle.ancestry.specs.Ancestry.{super_at, up_in, limit, ancestry_of, row_of};

use crate::asked::Asked;
use pointers::question::ask;
use pointers::tables::Tables;
use reads::answer::{Missing, Question, nonzero, optional};
use reads::files::longest;
use reads::segment::Segment;
use records::class::{ObjcClass, class_at};

// What is told of a class: its chain ends, `count` decoded classes above it, the last of them at the address `last`, 0 if there is none; or
// it loops. No Option for `last`: it is none exactly where `count` is 0, so an Option would say that a second time, and `row` would turn it back
// into the 0.
#[derive(Clone, Copy)]
pub enum Ancestry {
    Ended { count: u64, last: u64 },
    Looping,
}

// Three words of the result buffer: a record, or what stands there before it. No `[u64; 3]`: an array is a list in the definitions, of
// which each of them, and each proof, would have to say that it has three words.
#[derive(Clone, Copy)]
pub(crate) struct Row {
    pub(crate) first: u64,
    pub(crate) second: u64,
    pub(crate) third: u64,
}

impl Ancestry {
    // Its record: the count, the address of the last, 1 if it loops.
    pub(crate) fn row(self) -> Row
        ensures { result ≡ row_of self }
    {
        match self {
            Ancestry::Ended { count, last } => Row {
                first: count,
                second: last,
                third: 0,
            },
            Ancestry::Looping => Row {
                first: 0,
                second: 0,
                third: 1,
            },
        }
    }
}

// Puts the three words of a row.
#[tactic(auto, using(crate::proofs::Fillings::put_words))]
pub(crate) fn put_row(res: &mut [u64], at: usize, row: Row)
    requires { at + 3 ≤ length res.old }
    ensures { res.new ≡ put res.old at row }
{
    res[at..at + 3].copy_from_slice(&[row.first, row.second, row.third]);
}

// The superclass, if its address is not 0 and it decodes; no question is asked.
#[tactic(auto, using(reads::proofs::Outcomes::missed_then), unfolding(crate::specs::Ancestry::super_at))]
pub(crate) fn superclass_at(tables: &Tables, class: ObjcClass) -> Result<ObjcClass, Missing>
    ensures { let t = tables.now in
        outcome result ≡ super_at t class }
{
    let va = nonzero(class.superclass_address)?;
    class_at(tables, va, class.is_meta)
}

// The superclass of a class: one step of the chain on its page.
pub fn superclass_of(tables: &Tables, class: ObjcClass) -> Result<ObjcClass, Missing>
    ensures { let t = tables.now in
        outcome result ≡ guarded t (super_at t class) }
{
    ask(tables)?;
    superclass_at(tables, class)
}

// No chain that ends is as long as this.
#[tactic(auto, unfolding(crate::specs::Ancestry::limit_of))]
pub(crate) fn limit_of(asked: &Asked) -> u64
    ensures { let t = asked.now.tables.now in
        result ≡ limit t }
{
    let tables = asked.tables;
    (tables.segments().len() / Segment::WORDS) as u64 * longest(tables.files())
}

// The address of the last of `count` classes above, the one at `top`; 0 if there is none.
pub(crate) fn last_at(count: u64, top: u64) -> u64
    ensures { result ≡ last_at count 0 top }
{
    if count == 0 { 0 } else { top }
}

// The chain above a class, the class alone. A class on the way is held, first after one step, then after two, four and so on; where it
// comes back the chain loops, so a climb takes at most three times as many steps as there are classes on its way.
fn climb_from(asked: &Asked, class: ObjcClass) -> Result<Ancestry, Question>
    requires { let t = asked.now.tables.now in
        class_at t class.address false ≡ value class }
    ensures { let t = asked.now.tables.now in
        answered result ≡ climb (up_in t) (limit t) class.address 0 0 }
{
    let tables = asked.tables;
    let most = limit_of(asked);
    let mut at = class;
    let mut held = class.address;
    let mut hold = 1;
    for count in 0..most {
        let Some(up) = optional(superclass_at(tables, at))? else {
            return Ok(Ancestry::Ended {
                count,
                last: last_at(count, at.address),
            });
        };
        at = up;
        if up.address == held {
            return Ok(Ancestry::Looping);
        }
        if count + 1 == hold {
            held = up.address;
            hold *= 2;
        }
    }
    Ok(Ancestry::Looping)
}

// The ancestry of the class at an address.
#[tactic(auto, using(reads::proofs::Outcomes::missed_then), unfolding(crate::specs::Ancestry::ancestry_of))]
pub(crate) fn ancestry_at(asked: &Asked, va: u64) -> Result<Ancestry, Missing>
    ensures { let t = asked.now.tables.now in
        outcome result ≡ ancestry_of t va }
{
    let class = class_at(asked.tables, va, false)?;
    Ok(climb_from(asked, class)?)
}

// The ancestry of the class at an address, absent if it does not decode.
pub fn ancestry_of(tables: &Tables, va: u64) -> Result<Ancestry, Missing>
    ensures { let t = tables.now in
        outcome result ≡ guarded t (ancestry_of t va) }
{
    ancestry_at(&Asked::ask(tables)?, va)
}
