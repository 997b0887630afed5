// Reads that are noted on a sheet: each notes the bytes that the question of the same name uses (used/specs/Used.antt), and some answer it.
ghost use Rattle.std.specs.Prelude.{◌≡◌};
ghost use Rattle.reads.specs.Answer.{outcome};
ghost use Rattle.records.specs.Decode as asks;
ghost use Rattle.used.specs.Used.{uses_field};
ghost use Rattle.usage.specs.Noting.{noted_on, noting, traced, trace};

use crate::noting::Noting;
use pointers::slot::{bind_at, rebase_at, resolve_pointer};
use pointers::symbol::strip_objc_symbol_prefix;
use reads::answer::{Missing, checked_add, or_zero};
use reads::files::file_len;
use reads::place::{Place, lies_in, readable};
use reads::text::{Text, read_cstr_at, text_place};

impl Noting<'_> {
    // The word of 8 bytes at an address.
    #[tactic(auto, using(crate::proofs::NotedBy::notes), unfolding(used::specs::Used::uses_word))]
    pub(crate) fn note_word(&mut self, va: u64)
        ensures { self.new ≡ noting (asks.u64_at va) self.old }
    {
        if let Ok(p) = readable(self.tables.image(), va, 8) {
            self.sheet.note(p.file, p.offset, 8);
        }
    }

    // k bytes at i bytes from a place, where they lie in its file.
    #[tactic(auto, using(crate::proofs::Leaves::field_outside, crate::proofs::Leaves::field_inside))]
    pub(crate) fn note_field(&mut self, p: Place, i: u64, k: u64)
        ensures { self.new ≡ noted_on (uses_field self.old.tables.now.files k p i) self.old }
    {
        let n = file_len(self.tables.files(), p.file);
        if lies_in(n, p.offset, i, k) {
            self.sheet.note(p.file, p.offset + i, k);
        }
    }

    // The word in a slot that has no rebase.
    #[tactic(auto, using(crate::proofs::NotedBy::notes), unfolding(used::specs::Used::uses_slot_in))]
    pub(crate) fn note_stored(&mut self, slot: u64)
        ensures { self.new ≡ noting (asks.slot slot) self.old }
    {
        if let Err(Missing::Absent(_)) = rebase_at(self.tables, slot) {
            self.note_word(slot);
        }
    }

    // A pointer slot, and the address in it.
    #[tactic(auto, using(crate::proofs::NotedBy::notes))]
    pub(crate) fn note_slot(&mut self, slot: u64) -> Result<u64, Missing>
        ensures { traced (outcome result) self.new ≡ trace (asks.slot slot) self.old }
    {
        self.note_stored(slot);
        resolve_pointer(self.tables, slot)
    }

    // The same, an absent slot counting as 0.
    #[tactic(auto, using(crate::proofs::NotedBy::notes))]
    pub(crate) fn note_slot_or_0(&mut self, slot: u64) -> Result<u64, Missing>
        ensures { traced (outcome result) self.new ≡ trace (asks.or0 (asks.slot slot)) self.old }
    {
        or_zero(self.note_slot(slot))
    }

    // The pointer in the field at va + k, and the address in it.
    #[tactic(auto, using(crate::proofs::NotedBy::notes), unfolding(pointers::specs::Slot::pointer_at, used::specs::Used::uses_pointer_in))]
    pub(crate) fn note_pointer(&mut self, va: u64, k: u64) -> Result<u64, Missing>
        ensures { traced (outcome result) self.new ≡ trace (asks.pointer va k) self.old }
    {
        let slot = checked_add(va, k)?;
        self.note_slot(slot)
    }

    // The same, an absent slot counting as 0.
    #[tactic(auto, using(crate::proofs::NotedBy::notes), unfolding(pointers::specs::Slot::pointer_or0_at, used::specs::Used::uses_pointer_in))]
    pub(crate) fn note_pointer_or_0(&mut self, va: u64, k: u64) -> Result<u64, Missing>
        ensures { traced (outcome result) self.new ≡ trace (asks.pointer_or0 va k) self.old }
    {
        let slot = checked_add(va, k)?;
        self.note_slot_or_0(slot)
    }

    // The text at an address, with the zero byte that ends it, and what it is under the setting's reading.
    #[tactic(auto, using(crate::proofs::NotedBy::notes))]
    pub(crate) fn note_string(&mut self, va: u64) -> Result<Text, Missing>
        ensures { traced (outcome result) self.new ≡ trace (asks.string va) self.old }
    {
        let p = text_place(self.tables.image(), va)?;
        let reading = self.tables.setting().reading;
        let r = read_cstr_at(self.tables.files(), reading, p);
        self.sheet.note(p.file, p.offset, r.read);
        r.text
    }

    // The name of a slot's bind, and the same less its prefix.
    #[tactic(auto, using(crate::proofs::NotedBy::notes), unfolding(used::specs::Used::uses_symbol_in, pointers::specs::Slot::symbol_of))]
    pub(crate) fn note_symbol(&mut self, slot: u64) -> Result<Text, Missing>
        ensures { traced (outcome result) self.new ≡ trace (asks.symbol slot) self.old }
    {
        let name = bind_at(self.tables, slot)?;
        self.sheet.note(name.file, name.offset, name.len);
        Ok(strip_objc_symbol_prefix(self.tables.files(), name))
    }
}
