// The ancestry of all classes of a list of addresses (note 9).
ghost use Rattle.std.specs.Prelude.{◌≡◌};
ghost use Rattle.reads.specs.Reference.{before};
ghost use Rattle.ancestry.specs.Ancestry.{ancestries, written, written_by, ancestries_left};
ghost use Rattle.ancestry.specs.Filling.{through, unfollowed_of, told_of, found, tally, rows_left, Fits, Counted};
ghost use Rattle.reads.specs.Answer.{outcome, answered};

use crate::asked::{Asked, Falling};
use crate::class_chain::{Row, ancestry_at, put_row};
use crate::following::follow_all;
use crate::rebases::chains_fall;
use pointers::tables::Tables;
use reads::answer::{Missing, Question, optional};
use records::class::class_at;

// Classes at addresses under asked tables: their chains are followed together, or each alone. The choice is a bool, as in the definitions
// (`told_of`): an enum would be no plainer, for one more match would make it from what `chains_fall` answers.
#[derive(Clone, Copy)]
struct Classes<'a> {
    asked: &'a Asked<'a>,
    together: bool,
    list: &'a [u64],
}

// A class that decodes, as a row before its chain is followed.
#[tactic(auto, using(reads::proofs::Outcomes::missed_then), unfolding(crate::specs::Filling::unfollowed_of))]
fn unfollowed_at(tables: &Tables, va: u64) -> Result<Row, Missing>
    ensures { let t = tables.now in
        outcome result ≡ unfollowed_of t va }
{
    class_at(tables, va, false)?;
    Ok(Row {
        first: 0,
        second: 0,
        third: va,
    })
}

// What is written first of a class: a row to follow, or its record.
#[tactic(auto, using(reads::proofs::Outcomes::missed_then), unfolding(crate::specs::Filling::told_of, reads::specs::Outcome::choose))]
fn told_at(classes: &Classes, va: u64) -> Result<Row, Missing>
    ensures { let t = classes.now.asked.now.tables.now in
        outcome result ≡ told_of t classes.now.together va }
{
    if classes.together {
        return unfollowed_at(classes.asked.tables, va);
    }
    Ok(ancestry_at(classes.asked, va)?.row())
}

// How many of the classes have a record. All are told, so that a lookup that is refused is met before anything is written.
fn count_all(classes: &Classes) -> Result<u64, Question>
    ensures { let t = classes.now.asked.now.tables.now in
        answered result ≡ tally (told_of t classes.now.together) 0 classes.now.list.now }
{
    let mut count = 0;
    for va in classes.list {
        if optional(told_at(classes, *va))?.is_some() {
            count += 1;
        }
    }
    Ok(count)
}

// What is told of a class, if it is told anything.
#[tactic(auto, using(crate::proofs::Fillings::outcome_found))]
fn found_at(classes: &Classes, va: u64) -> Option<Row>
    ensures { let t = classes.now.asked.now.tables.now in
        result ≡ found (told_of t classes.now.together va) }
{
    told_at(classes, va).ok()
}

// What the classes are told, in their order.
fn write_all(classes: &Classes, res: &mut [u64])
    requires { let t = classes.now.asked.now.tables.now in
        Fits (told_of t classes.now.together) classes.now.list.now res.old }
    ensures { let t = classes.now.asked.now.tables.now in
        res.new ≡ rows_left (through (told_of t classes.now.together) classes.now.list.now) res.old }
{
    let rows = classes.list.iter().filter_map(|va| found_at(classes, *va));
    for (k, row) in rows.enumerate() {
        put_row(res, k * 3, row);
    }
}

// The records: rows that are followed together, or each class alone.
fn fill(classes: &Classes, count: u64, res: &mut [u64])
    requires { let t = classes.now.asked.now.tables.now in
        Counted t classes.now.together count classes.now.list.now res.old }
    ensures { let t = classes.now.asked.now.tables.now in
        res.new ≡ (written_by (ancestries t classes.now.list.now) res.old).result }
{
    write_all(classes, res);
    if !classes.together {
        return;
    }
    let falling = Falling {
        asked: classes.asked,
    };
    follow_all(&falling, &mut res[..count as usize * 3]);
}

// The same after 1 to 6 and 8: all are counted before 21 is asked, and 21 before the first write. Where no lookup can be refused, the
// result buffer is the room in which all chains are followed together.
fn write_asked(asked: &Asked, classes: &[u64], res: &mut [u64]) -> Result<u64, Question>
    ensures { let t = asked.now.tables.now in
        written (answered result) res.new ≡ ancestries_left t (before classes) res.old }
{
    let together = chains_fall(asked.tables);
    let of = Classes {
        asked,
        together,
        list: classes,
    };
    let count = count_all(&of)?;
    if ((res.len() / 3) as u64) < count {
        return Err(Question::AncestryRoom);
    }
    fill(&of, count, res);
    Ok(count)
}

// The ancestry of the classes at the addresses `classes`, three words each in their order, into `result`; an address at which no class
// decodes has no record. Answers how many there are. For all classes of C lines lend the words in use of the ledger of a finished class
// walk.
pub fn ancestries(tables: &Tables, classes: &[u64], res: &mut [u64]) -> Result<u64, Question>
    ensures { let t = tables.now in
        written (answered result) res.new ≡ ancestries_left t (before classes) res.old }
{
    write_asked(&Asked::ask(tables)?, classes, res)
}
