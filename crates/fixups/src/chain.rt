// The chain of a page (fixup-chains.h, dyld_chained_ptr_64_rebase and dyld_chained_ptr_64_bind).
ghost use Rattle.std.specs.Prelude.{◌≡◌, ◌+◌};
ghost use Rattle.reads.specs.Outcome.{value, and_then};
ghost use Rattle.fixups.specs.Chain.{number_of, starts_in, target_of, entry_of, visit_in, chain_in};
ghost use Rattle.fixups.specs.Starts.{Reads};
ghost use Rattle.fixups.specs.Tables.{BothKept, Walks, state_in, put, stepped, stepped_of};
ghost use Rattle.reads.specs.Answer.{answered};

use crate::fixup_chains::{DYLD_CHAINED_PTR_64, DYLD_CHAINED_PTR_64_OFFSET};
use crate::name::Bound;
use crate::table::{Lists, put_bind, put_rebase};
use macho::command::Commands;
use pointers::table::Rebase;
use reads::answer::Question;
use reads::place::{lies_in, u64_from};

// The pointer formats that are read (DYLD_CHAINED_PTR_64, DYLD_CHAINED_PTR_64_OFFSET).
#[derive(Clone, Copy)]
pub enum PointerFormat {
    Ptr64,
    Ptr64Offset,
}

impl TryFrom<u16> for PointerFormat {
    type Error = Question;

    ghost try_from_gives = { Reads };

    #[tactic(auto, unfolding(crate::specs::Starts::known), using(std::proofs::lemmas::Bool::Decides::nat_tests))]
    fn try_from(format: u16) -> Result<Self, Question> {
        match format {
            DYLD_CHAINED_PTR_64 => Ok(PointerFormat::Ptr64),
            DYLD_CHAINED_PTR_64_OFFSET => Ok(PointerFormat::Ptr64Offset),
            _ => Err(Question::FixupData),
        }
    }
}

// What the header of the fixup data says (starts_offset, imports_offset, symbols_offset, imports_count), where the fixup data stands
// in the file, and the image base.
#[derive(Clone, Copy)]
pub struct Fixups {
    pub at: u32,
    pub starts: u32,
    pub imports: u32,
    pub symbols: u32,
    pub count: u32,
    pub base: u64,
}

// The fixup data of a file: the file, its load commands, the fixup data's bytes, and what their header says.
#[derive(Clone, Copy)]
pub(crate) struct Data<'a> {
    pub(crate) file: &'a [u8],
    pub(crate) cmds: Commands<'a>,
    pub(crate) body: &'a [u8],
    pub(crate) fixups: Fixups,
}

// A segment with starts: its command's vmaddr and fileoff, its seg_info_offset, its starts' pointer_format and page_size.
#[derive(Clone, Copy)]
pub struct Starts {
    pub vmaddr: u64,
    pub fileoff: u64,
    pub info: u32,
    pub format: PointerFormat,
    pub size: u16,
}

// A record.
#[derive(Clone, Copy)]
pub enum Fixup {
    Rebase(Rebase),
    Bind(Bound),
}

// The address that a rebase word holds: target 36 bits, then high8.
#[tactic(auto, unfolding(crate::specs::Chain::target_of, crate::specs::Chain::origin_of, reads::specs::Outcome::choose), using(std::proofs::lemmas::Bool::Decides::nat_tests))]
fn rebased(format: PointerFormat, base: u64, word: u64) -> u64
    ensures { result ≡ target_of (number_of format) base word }
{
    let own = word % 0x10_0000_0000 + word / 0x10_0000_0000 % 0x100 * 0x100_0000_0000_0000;
    match format {
        PointerFormat::Ptr64 => own,
        PointerFormat::Ptr64Offset => own.wrapping_add(base),
    }
}

impl Lists<'_> {
    // Puts a record into its table. `BothKept` is said in each function, here and below (of `Walks` it is a part), because it tells of the
    // tables before and after, where an invariant tells of one value.
    fn put(&mut self, x: Fixup)
        ensures kept { BothKept self.old self.new }
        ensures put { state_in self.new ≡ put x (state_in self.old) }
    {
        match x {
            Fixup::Rebase(x) => self.rebased = put_rebase(self.rebases, self.rebased, x),
            Fixup::Bind(x) => self.bound = put_bind(self.binds, self.bound, x),
        }
    }
}

impl Data<'_> {
    // The record of a slot that stands at bytes into its segment.
    #[tactic(auto, unfolding(crate::specs::Chain::entry_of, crate::specs::Chain::slot_of, reads::specs::Outcome::choose), using(std::proofs::lemmas::Bool::Decides::nat_tests))]
    fn entry_at(self, s: Starts, at: u64, word: u64) -> Result<Fixup, Question>
        ensures { answered result ≡ entry_of self.entry.body.now self.entry.fixups (starts_in s) at word }
    {
        let slot = s.vmaddr.wrapping_add(at);
        if word < 0x8000_0000_0000_0000 {
            let target = rebased(s.format, self.fixups.base, word);
            return Ok(Fixup::Rebase(Rebase { slot, target }));
        }
        let name = self.import_at((word % 0x100_0000) as u32)?;
        Ok(Fixup::Bind(Bound { slot, name }))
    }

    // One slot of a chain, o bytes into a page: the bytes to the next.
    fn visit_slot(self, s: Starts, page: u32, o: u32, lists: &mut Lists) -> Result<u32, Question>
        ensures kept { BothKept lists.old lists.new }
        ensures told { stepped_of result (state_in lists.new) ≡ and_then (visit_in self.entry s (page + o))
            (λ m. value (stepped m.step (put m.fixup (state_in lists.old)))) }
    {
        let at = u64::from(page) + u64::from(o);
        if !lies_in(self.file.len() as u64, s.fileoff, at, 8) {
            return Err(Question::FixupSlot);
        }
        let word = u64_from(self.file, s.fileoff, at);
        let x = self.entry_at(s, at, word)?;
        lists.put(x);
        Ok((word / 0x8_0000_0000_0000 % 0x1000 * 4) as u32)
    }

    // The chain that starts at bytes into a page.
    pub(crate) fn chain(
        self,
        s: Starts,
        page: u32,
        start: u16,
        lists: &mut Lists,
    ) -> Result<(), Question>
        ensures { Walks (chain_in self.entry s page start) result lists.old lists.new }
    {
        let size = u32::from(s.size);
        let mut o = u32::from(start);
        // Not a `for`: the offset moves by the step that each slot holds.
        while o < size {
            let step = self.visit_slot(s, page, o, lists)?;
            if step == 0 {
                return Ok(());
            }
            o += step;
        }
        Err(Question::FixupSlot)
    }
}
