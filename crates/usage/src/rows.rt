// The rows of a list, noted on a sheet: its header, and every entry that can be read.
ghost use Rattle.std.specs.Iterator.{YieldsFirst, item_count};
ghost use Rattle.std.specs.Prelude.{◌≡◌, map};
ghost use Rattle.pointers.specs.Tables.{image_in};
ghost use Rattle.records.specs.Search.{readables};
ghost use Rattle.usage.specs.Entries.{entries_left};
ghost use Rattle.reads.specs.Answer.{answered};
ghost use Rattle.records.specs.List.{entry_address};
ghost use Rattle.records.specs.Row.{decode_row};
ghost use Rattle.usage.specs.Noting.{traced, trace};
ghost use Rattle.usage.specs.Pass.{only, each_row, pass_rows};

use crate::noting::Noting;
use reads::answer::{Question, optional};
use reads::place::Image;
use records::list::{Layout, ListKind, RowKind, first_readable};

// The entries of a list from one on that can be read, as where each stands.
#[derive(Clone, Copy)]
struct Entries<'a> {
    image: &'a Image<'a>,
    h: Layout,
    from: u32,
}

impl Iterator for Entries<'_> {
    type Item = u64;

    ghost next_gives = { YieldsFirst entries_left };

    ghost remaining = { item_count entries_left };

    fn next(&mut self) -> Option<u64> {
        let h = self.h;
        let j = first_readable(self.image, h, self.from)?;
        prove!(j < h.count as u64);
        self.from = j as u32 + 1;
        Some(h.entry_address(j))
    }
}

impl Noting<'_> {
    // A row, whether or not it is there.
    #[tactic(auto, using(crate::proofs::NotedBy::notes))]
    fn pass_row(&mut self, kind: RowKind, va: u64) -> Result<(), Question>
        ensures { traced (answered result) self.new ≡ trace (only (decode_row kind va)) self.old }
    {
        optional(self.note_row(kind, va))?;
        Ok(())
    }

    // Every entry that can be read.
    #[tactic(auto, using(crate::proofs::NotedBy::notes), unfolding(crate::specs::Pass::each))]
    fn note_entries(&mut self, h: Layout) -> Result<(), Question>
        ensures { let t = self.old.tables.now in
            traced (answered result) self.new ≡ trace (each_row h.kind (map (entry_address h) (readables (image_in t) h))) self.old }
    {
        let entries = Entries {
            image: self.tables.image(),
            h,
            from: 0,
        };
        for va in entries {
            self.pass_row(h.kind, va)?;
        }
        Ok(())
    }

    // The list at an address.
    #[tactic(auto, using(crate::proofs::NotedBy::notes), unfolding(crate::specs::Pass::pass_rows))]
    pub fn note_rows(&mut self, kind: ListKind, va: u64) -> Result<(), Question>
        ensures { traced (answered result) self.new ≡ trace (pass_rows kind va) self.old }
    {
        match optional(self.note_list(kind, va))? {
            Some(h) => self.note_entries(h),
            None => Ok(()),
        }
    }
}
