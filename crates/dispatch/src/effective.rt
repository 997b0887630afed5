// The effective methods of a class, four words for each selector.
ghost use Rattle.std.specs.Prelude.{◌≡◌, ◌*◌, ◌≤◌, length};
ghost use Rattle.reads.specs.Outcome.{and_then};
ghost use Rattle.walks.specs.PlainSections.{plain_categories};
ghost use Rattle.dispatch.specs.Appearances.{appearances};
ghost use Rattle.dispatch.specs.SlotSources.{slot_appearances};
ghost use Rattle.dispatch.specs.Dispatch.{has_earlier, firsts, effective_among, effective, leaves, left};
ghost use Rattle.dispatch.specs.RowsLeft.{rows_ahead, files_in, reached_left};
ghost use Rattle.dispatch.specs.Table.{Origins};
ghost use Rattle.dispatch.specs.Written.{few_firsts, Surveyed, CountedAll, RoomFor, WroteAll};
ghost use Rattle.reads.specs.Answer.{outcome, answered};

use crate::asks::ask_categories;
use crate::rows::{Appearance, Reachable, RowsOf, enter};
use crate::selectors::{comes_before, same_selector};
use crate::sources::{MethodsOf, Side, own_source};
use crate::table::Selectors;
use pointers::question::ask;
use pointers::tables::Tables;
use reads::answer::{Missing, Question};
use records::class::{ObjcClass, class_at};

// How many selectors there are, or that there are at least so many. A `Result` is no plainer: neither case is a failure, and an `Err`
// with a number would not say that it is a bound.
#[derive(Clone, Copy)]
pub enum Counted {
    All(usize),
    AtLeast(usize),
}

// The rows that can be reached.
fn reachable<'a>(rows: &RowsOf<'a>) -> Reachable<'a>
    ensures { reached_left result ≡ (rows_ahead rows.now).rows }
{
    Reachable { rows: *rows }
}

// The rows and the room travel as two here and in three functions below. A struct of the two is no plainer: `effective_from` alone would make
// it, to write the rows alone once it has asked; `reach_end` and `selectors_fit` would take it apart, `count_fits` too before it hands it on, and
// only `has_room` would hand it on as it is.

// Goes over all rows to the end, and says whether they are at most so many.
fn reach_end(rows: &RowsOf, room: usize) -> Result<bool, Question>
    ensures { let rs = rows_ahead rows.now in
        Surveyed rs room result }
{
    let mut left = Some(room);
    for row in *rows {
        row?;
        left = left.and_then(|n| n.checked_sub(1));
    }
    Ok(left.is_some())
}

// Whether some row before a has its selector.
fn has_earlier(rows: &RowsOf, a: Appearance) -> bool
    ensures { let rs = rows_ahead rows.now in
        result ≡ has_earlier (files_in rows.now) a rs.rows }
{
    let files = rows.of.tables.files();
    // Rows come in order: none after the first that does not stand before a does.
    reachable(rows)
        .take_while(|b| comes_before(*b, a))
        .any(|b| same_selector(files, a.selector, b.selector))
}

// 22: are there at most so many selectors?
fn selectors_fit(rows: &RowsOf, room: usize) -> bool
    ensures { let rs = rows_ahead rows.now in
        result ≡ few_firsts (files_in rows.now) rs.rows rs.rows room }
{
    reachable(rows)
        .filter(|a| !has_earlier(rows, *a))
        .nth(room)
        .is_none()
}

// Counts the selectors, with a table of them in words that are lent for it: four words each.
fn count_selectors(rows: &RowsOf, scratch: &mut [u64]) -> Counted
    ensures { let rs = rows_ahead rows.now in
        CountedAll (files_in rows.now) rs.rows result }
{
    let files = rows.of.tables.files();
    let mut table = Selectors {
        words: scratch,
        count: 0,
    };
    for b in reachable(rows) {
        if table.words.len() / 4 <= table.count {
            return Counted::AtLeast(table.count);
        }
        table.note(files, b);
    }
    Counted::All(table.count)
}

// The same with words of its own, for 8,192 selectors.
fn count_few(rows: &RowsOf) -> Counted
    ensures { let rs = rows_ahead rows.now in
        CountedAll (files_in rows.now) rs.rows result }
{
    let mut scratch = [0u64; 32768];
    count_selectors(rows, &mut scratch)
}

// Writes four words for each selector. Not one with `count_selectors`, which stops where its words are used up: here each selector has room.
fn write_selectors(rows: &RowsOf, own: u64, res: &mut [u64]) -> u64
    requires { let rs = rows_ahead rows.now in
        Origins own rows.now.of.tables.now rs.rows × (4 * length (firsts (files_in rows.now) rs.rows rs.rows) ≤ length res.old) }
    ensures { let rs = rows_ahead rows.now in
        WroteAll (files_in rows.now) rs.rows res.old result res.new }
{
    let files = rows.of.tables.files();
    let mut table = Selectors {
        words: res,
        count: 0,
    };
    for b in reachable(rows) {
        table.note(files, b);
    }
    table.name(rows.of.tables, own);
    table.count as u64
}

// 22, of rows that are more than the room: up to 8,192 selectors are counted in one pass, and only where there may be more is each row
// compared with all before it.
fn count_fits(rows: &RowsOf, room: usize) -> bool
    ensures { let rs = rows_ahead rows.now in
        result ≡ few_firsts (files_in rows.now) rs.rows rs.rows room }
{
    match count_few(rows) {
        Counted::All(n) => n <= room,
        Counted::AtLeast(n) => {
            if room < n {
                return false;
            }
            selectors_fit(rows, room)
        }
    }
}

// 22, once every row is reached: has each selector room? Rows that all have room need no look at their selectors.
#[tactic(auto, using(crate::proofs::Answers::room_fits, crate::proofs::Answers::room_counted, crate::proofs::Answers::room_refused))]
fn has_room(rows: &RowsOf, room: usize) -> Result<bool, Question>
    ensures { let rs = rows_ahead rows.now in
        RoomFor (files_in rows.now) rs room result }
{
    if reach_end(rows, room)? {
        return Ok(true);
    }
    Ok(count_fits(rows, room))
}

// The effective methods among the rows from the first on.
fn effective_from(rows: &RowsOf, own: u64, res: &mut [u64]) -> Result<u64, Question>
    requires { Origins own rows.now.of.tables.now (rows_ahead rows.now).rows }
    ensures { let rs = rows_ahead rows.now in
        leaves (answered result) res.new ≡ left (effective_among (files_in rows.now) rs) res.old }
{
    let room = res.len() / 4;
    if !has_room(rows, room)? {
        return Err(Question::SelectorRoom);
    }
    Ok(write_selectors(rows, own, res))
}

// The effective methods of a class, its categories taken by their slots. `MethodsOf` is made here and not above: it has the class's
// address alone, and up to here the decoded class is needed too; lent beside it, it would say the address twice.
#[tactic(auto, using(crate::proofs::Answers::of_start, crate::proofs::Answers::of_refused))]
fn effective_by_slots(
    tables: &Tables,
    side: Side,
    class: ObjcClass,
    res: &mut [u64],
) -> Result<u64, Question>
    ensures { let t = tables.now in
        leaves (answered result) res.new ≡ left (effective_among t.files (slot_appearances t side class)) res.old }
{
    let own = own_source(tables, side, class);
    let start = enter(tables, 0, own)?;
    let of = MethodsOf {
        tables,
        side,
        class: class.address,
    };
    let rows = RowsOf {
        of,
        at: Some(start),
    };
    effective_from(&rows, start.origin, res)
}

// The effective methods of a class.
fn effective_of(
    tables: &Tables,
    side: Side,
    class: ObjcClass,
    res: &mut [u64],
) -> Result<u64, Question>
    ensures { let t = tables.now in
        leaves (answered result) res.new ≡ left (and_then (plain_categories t) (λ categories. effective_among t.files (appearances t side categories class))) res.old }
{
    ask_categories(tables)?;
    effective_by_slots(tables, side, class, res)
}

// The effective methods of the class at an address, on one side: four words for each selector, by first appearance. Absent or
// refused, the result buffer is as it was.
pub fn effective_methods(
    tables: &Tables,
    class: u64,
    side: Side,
    res: &mut [u64],
) -> Result<u64, Missing>
    ensures { let t = tables.now in
        leaves (outcome result) res.new ≡ left (effective t side class) res.old }
{
    ask(tables)?;
    let c = class_at(tables, class, false)?;
    Ok(effective_of(tables, side, c, res)?)
}
