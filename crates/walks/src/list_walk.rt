// Walks over method, ivar and property lists: each step settles the next entry that can be read.
ghost use Rattle.std.specs.Prelude.{◌≡◌, ◌+◌, ◌<◌, ◌^◌};
ghost use Rattle.pointers.specs.Tables.{under, reading_new, reading_under};
ghost use Rattle.reads.specs.Outcome.{value};
ghost use Rattle.walks.specs.Handed.{hands};
ghost use Rattle.walks.specs.Walk.{walk_of, moved, settles, over_rows, next_of, row_step, row_left};
ghost use Rattle.records.specs.List.{list_at};
ghost use Rattle.records.specs.Row.{row_at};

use crate::stepped::Stepped;
use pointers::asked::Asked;
use pointers::setting::Setting;
use pointers::tables::Tables;
use reads::answer::{Missing, Question, Reason};
use reads::text::Reading;
use records::list::ListKind;
use records::open_list::OpenList;
use records::row::{Entry, Row};

// A walk: list address, kind and cursor, and the setting that it began with.
#[derive(Clone, Copy)]
pub struct ListWalk {
    pub list: u64,
    pub kind: ListKind,
    pub setting: Setting,
    pub cursor: u32,
}

// What a step reaches: a row, or an entry whose row is skipped, its index and why, or the end. The end is a case here: with an Option
// of a step each match would have two levels, `Ok(Some(ListStep::Row(row)))` and `Ok(None)`.
#[derive(Clone, Copy)]
pub enum ListStep {
    Row(Row),
    Skipped(u32, Reason),
    Finished,
}

// What a step says, with the walk to go on with.
pub type ListStepped = Stepped<ListStep, ListWalk>;

// `new`, `under` and `starting` stand on six types, each over what else it begins with (nothing, a list, frames, an answer): a trait would have
// that and the definition of the start as members, with their laws, for bodies of one line, and `starting` fills in each type's own fields.
impl ListWalk {
    // The walk over a list from its first entry on, under the new reading.
    pub fn new(list: u64, kind: ListKind) -> ListWalk
        ensures { result ≡ walk_of reading_new list kind 0 }
    {
        ListWalk::starting(Setting::new(), list, kind)
    }

    // The same under either reading.
    pub fn under(reading: Reading, list: u64, kind: ListKind) -> ListWalk
        ensures { result ≡ walk_of (reading_under reading) list kind 0 }
    {
        ListWalk::starting(Setting::under(reading), list, kind)
    }

    // The same under any setting.
    pub fn starting(setting: Setting, list: u64, kind: ListKind) -> ListWalk
        ensures { result ≡ walk_of setting list kind 0 }
    {
        ListWalk {
            list,
            kind,
            setting,
            cursor: 0,
        }
    }

    // A step, with the walk at another cursor.
    fn at(self, step: ListStep, cursor: u32) -> ListStepped
        ensures { row_left result ≡ hands (value (row_step step)) (moved self cursor) }
    {
        Stepped {
            walked: Ok(step),
            walk: ListWalk { cursor, ..self },
        }
    }

    // Settles an entry.
    fn settle(self, entry: &Entry) -> ListStepped
        requires { entry.now.index + 1 < 2 ^ 32 }
        ensures { let e = entry.now in
            row_left result ≡ settles self e.index (row_at e.near.tables.now e.kind e.near.va) }
    {
        let j = entry.index();
        match entry.row() {
            Ok(row) => self.at(ListStep::Row(row), j as u32 + 1),
            Err(Missing::Absent(why)) => { self.at(ListStep::Skipped(j as u32, why), j as u32 + 1) }
            Err(m) => Stepped::missing(self, m),
        }
    }

    // A step over a list: 10, then the next entry that can be read.
    #[tactic(auto, unfolding(crate::specs::Walk::over_rows), using(crate::proofs::Steps::list_past, crate::proofs::Steps::list_on))]
    fn over_list(self, list: &OpenList) -> ListStepped
        ensures { let t = list.now.header.tables.now in
            row_left result ≡ over_rows t self (value list.now.layout) }
    {
        let h = list.layout();
        if h.count < self.cursor {
            return Stepped::refused(self, Question::WalkState);
        }
        let cursor = self.cursor;
        match Entry::first(list, cursor) {
            Some(entry) => self.settle(&entry),
            None => self.at(ListStep::Finished, h.count),
        }
    }

    // A step over tables that no question refuses, for a caller that has asked: 10 past the first entry of a list that is missing.
    #[tactic(auto, using(crate::proofs::Steps::missing_past, crate::proofs::Steps::missing_on), unfolding(crate::specs::Walk::over_rows))]
    pub fn walked_list(self, tables: &Tables) -> ListStepped
        ensures { let t = under self.setting tables.now in
            row_left result ≡ over_rows t self (list_at t self.kind self.list) }
    {
        let tables = &tables.under(self.setting);
        let kind = self.kind;
        let list = self.list;
        match OpenList::at(tables, kind, list) {
            Ok(list) => self.over_list(&list),
            Err(m) => {
                if 0 < self.cursor {
                    return Stepped::refused(self, Question::WalkState);
                }
                Stepped::missing(self, m)
            }
        }
    }

    // The next step: by what 1 to 6 and 8 answered, then 10; then the next entry that can be read is settled.
    #[tactic(auto, unfolding(crate::specs::Walk::next_under))]
    pub fn next_over(self, asked: &Asked) -> ListStepped
        ensures { let t = asked.now.tables in
            row_left result ≡ next_of t self }
    {
        match asked.ask() {
            Ok(()) => self.walked_list(asked.tables()),
            Err(k) => Stepped::refused(self, k),
        }
    }

    // The same over tables that are asked for this step.
    pub fn next(self, tables: &Tables) -> ListStepped
        ensures { let t = tables.now in
            row_left result ≡ next_of t self }
    {
        self.next_over(&Asked::of(tables))
    }
}
