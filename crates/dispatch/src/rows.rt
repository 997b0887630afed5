// The rows of the lists that take part, one by one, in the order in which they appear.
ghost use Rattle.std.specs.Prelude.{◌≡◌, ◌<◌, ◌^◌, None, Some};
ghost use Rattle.std.specs.Iterator.{YieldsFirst, item_count};
ghost use Rattle.reads.specs.Outcome.{value};
ghost use Rattle.pointers.specs.Tables.{image_in};
ghost use Rattle.records.specs.Search.{first_readable};
ghost use Rattle.records.specs.List.{entry_address};
ghost use Rattle.dispatch.specs.Appearances.{appearance};
ghost use Rattle.dispatch.specs.Position.{EnteredAt, EnteredPart, SteppedFrom, NextFrom, moved_to, nowhere};
ghost use Rattle.dispatch.specs.RowsLeft.{GivesNext, count_ahead, reached_left};
ghost use Rattle.reads.specs.Answer.{outcome};

use crate::sources::{MethodsOf, Source};
use pointers::tables::Tables;
use reads::answer::{Missing, Question, Reason, optional};
use reads::text::Text;
use records::list::{Layout, ListKind, RowKind, first_readable, list_at};
use records::row::{Row, row_at};
use walks::slots::{Lists, slot_count};

// A row as it appears: its selector, the numbers of its source and of its entry, and the address of the record that its list
// came from. An Option of a slot would be no plainer a source: the next slot is the one of this number, and the table of selectors
// keeps it in a word and compares it there; both would turn the Option back into it.
#[derive(Clone, Copy)]
pub struct Appearance {
    pub selector: Text,
    pub source: u64,
    pub entry: u64,
    pub origin: u64,
}

// The source that it stands in (0: the class's own, k + 1: that of the category in slot k), with its list, and the entry to go on from.
#[derive(Clone, Copy)]
pub struct Position {
    pub source: u64,
    pub origin: u64,
    pub list: Layout,
    pub entry: u32,
}

// A step: the row that it gives, if it gives one, and the position after it.
#[derive(Clone, Copy)]
pub struct Step {
    pub row: Option<Appearance>,
    pub next: Position,
}

// The rows from a position on, in order; a question that refuses comes last. Once they have ended there is no position.
#[derive(Clone, Copy)]
pub(crate) struct RowsOf<'a> {
    pub of: MethodsOf<'a>,
    pub at: Option<Position>,
}

// Those that can be reached: where a question refuses they end.
#[derive(Clone, Copy)]
pub(crate) struct Reachable<'a> {
    pub rows: RowsOf<'a>,
}

impl Position {
    // The same position at another entry.
    fn at(self, entry: u32) -> Position
        ensures { result ≡ moved_to self entry }
    {
        Position { entry, ..self }
    }
}

// A source without rows: its list has no entries, so that no row comes of the zeros. An Option of the list is no plainer: each step
// would ask for it first, and for `None` do what it does at the end of a list.
fn no_rows(source: u64) -> Position
    ensures { result ≡ nowhere source }
{
    Position {
        source,
        origin: 0,
        list: Layout {
            base: 0,
            size: 0,
            count: 0,
            kind: RowKind::Legacy,
        },
        entry: 0,
    }
}

// The first entry of a list.
fn enter_list(tables: &Tables, number: u64, source: Source) -> Result<Position, Question>
    ensures { let t = tables.now in
        EnteredAt t number (value source) result }
{
    match optional(list_at(tables, ListKind::Methods, source.list))? {
        Some(list) => Ok(Position {
            source: number,
            origin: source.origin,
            list,
            entry: 0,
        }),
        None => Ok(no_rows(number)),
    }
}

// The first entry of the source of this number; one that is absent has no rows.
pub(crate) fn enter(
    tables: &Tables,
    number: u64,
    source: Result<Source, Missing>,
) -> Result<Position, Question>
    ensures { let t = tables.now in
        EnteredAt t number (outcome source) result }
{
    match optional(source)? {
        Some(source) => enter_list(tables, number, source),
        None => Ok(no_rows(number)),
    }
}

// The first entry of the source of this number, if it takes part; one that does not, or that is absent, has no rows.
fn enter_part(
    tables: &Tables,
    number: u64,
    source: Result<Option<Source>, Missing>,
) -> Result<Position, Question>
    ensures { let t = tables.now in
        EnteredPart t number (outcome source) result }
{
    match source {
        Ok(Some(source)) => enter_list(tables, number, source),
        Ok(None) => Ok(no_rows(number)),
        Err(Missing::Absent(_)) => Ok(no_rows(number)),
        Err(Missing::Refused(k)) => Err(k),
    }
}

// The row of entry j; a method list has no other rows. The arm for them stands because a layout says its kind as a value, whatever list it is of:
// without it records would have a second layout and search, of method lists alone.
#[tactic(auto, using(reads::proofs::Outcomes::missed_then), unfolding(crate::specs::Appearances::appearance))]
fn appearance_at(tables: &Tables, p: Position, j: u64) -> Result<Appearance, Missing>
    requires { entry_address p.list j < 2 ^ 64 }
    ensures { let t = tables.now in
        outcome result ≡ appearance t p.source p.origin p.list j }
{
    match row_at(tables, p.list.kind, p.list.entry_address(j))? {
        Row::Method(m) => Ok(Appearance {
            selector: m.selector,
            source: p.source,
            entry: j,
            origin: p.origin,
        }),
        Row::Ivar(_) | Row::Property(_) => Err(Missing::Absent(Reason::NoRecord)),
    }
}

impl MethodsOf<'_> {
    // Settles entry j, the next that can be read.
    fn settle(&self, p: Position, j: u64) -> Result<Option<Step>, Question>
        requires { first_readable (image_in self.now.tables.now) p.list p.entry ≡ Some j }
        ensures { let t = self.now.tables.now in
            SteppedFrom t self.now.side self.now.class p result }
    {
        let row = optional(appearance_at(self.tables, p, j))?;
        let next = p.at(j as u32 + 1);
        Ok(Some(Step { row, next }))
    }

    // Goes on to the next slot.
    #[tactic(auto, using(crate::proofs::Walks::next_end, crate::proofs::Walks::next_refused))]
    fn next_source(&self, p: Position) -> Result<Option<Step>, Question>
        requires { first_readable (image_in self.now.tables.now) p.list p.entry ≡ None }
        ensures { let t = self.now.tables.now in
            SteppedFrom t self.now.side self.now.class p result }
    {
        let k = p.source;
        if slot_count(self.tables.sections(), Lists::Categories) <= k {
            return Ok(None);
        }
        let source = self.slot_source(k);
        let next = enter_part(self.tables, k + 1, source)?;
        Ok(Some(Step { row: None, next }))
    }

    // A step to the next entry that can be read, or to the next slot, if there is one.
    fn step_from(&self, p: Position) -> Result<Option<Step>, Question>
        ensures { let t = self.now.tables.now in
            SteppedFrom t self.now.side self.now.class p result }
    {
        match first_readable(self.tables.image(), p.list, p.entry) {
            Some(j) => self.settle(p, j),
            None => self.next_source(p),
        }
    }

    // The next row, `None` at the end; p stands after it then.
    fn next_row(&self, p: &mut Position) -> Result<Option<Appearance>, Question>
        ensures { let t = self.now.tables.now in
            NextFrom t self.now.side self.now.class p.old p.new result }
    {
        // Not a `for`: a step that gives no row goes on from where it came to, until there is none.
        while let Some(step) = self.step_from(*p)? {
            *p = step.next;
            if let Some(row) = step.row {
                return Ok(Some(row));
            }
        }
        Ok(None)
    }
}

impl<'a> Iterator for RowsOf<'a> {
    type Item = Result<Appearance, Question>;

    ghost next_gives = { GivesNext };

    ghost remaining = { count_ahead };

    fn next(&mut self) -> Option<Result<Appearance, Question>> {
        let mut p = self.at.take()?;
        let row = self.of.next_row(&mut p);
        if let Ok(Some(_)) = row {
            self.at = Some(p);
        }
        row.transpose()
    }
}

impl<'a> Iterator for Reachable<'a> {
    type Item = Appearance;

    ghost next_gives = { YieldsFirst reached_left };

    ghost remaining = { item_count reached_left };

    fn next(&mut self) -> Option<Appearance> {
        self.rows.next()?.ok()
    }
}
