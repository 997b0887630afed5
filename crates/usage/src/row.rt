// Rows, noted on a sheet. Made by tools/usage/tracing.py of crates/records/src/{method,ivar,property,row}.rt.
ghost use Rattle.std.specs.Prelude.{◌≡◌};
ghost use Rattle.reads.specs.Answer.{outcome};
ghost use Rattle.records.specs.Row.{decode_ivar, decode_legacy_method, decode_offset, decode_offset_there, decode_property, decode_row, decode_small_method, decode_small_texts, selector_from};
ghost use Rattle.usage.specs.Noting.{traced, trace};
ghost use Rattle.usage.specs.Pass.{reads};

use crate::noting::Noting;
use reads::answer::{Missing, checked_add, nonzero, optional, or_zero};
use reads::place::readable;
use reads::relative::{i32_in, relative_pointer};
use reads::text::or_empty;
use records::ivar::Ivar;
use records::list::RowKind;
use records::method::{Method, Selectors};
use records::property::Property;

impl Noting<'_> {
    // method_t::big.
    #[tactic(auto, using(crate::proofs::NotedBy::notes), unfolding(records::specs::Row::decode_legacy_method))]
    fn note_legacy_method(&mut self, va: u64) -> Result<(), Missing>
        ensures { traced (outcome result) self.new ≡ trace (reads (decode_legacy_method va)) self.old }
    {
        readable(self.tables.image(), va, Method::SIZE)?;
        let name_va = self.note_slot(va)?;
        let types_va = self.note_pointer(va, Method::TYPES)?;
        self.note_pointer_or_0(va, Method::IMP)?;
        self.note_string(name_va)?;
        or_empty(self.note_string(types_va))?;
        Ok(())
    }

    // The address of a small method's selector: its offset's target itself, or indirect, through one slot.
    #[tactic(auto, using(crate::proofs::NotedBy::notes))]
    fn note_selector_from(&mut self, selectors: Selectors, target: u64) -> Result<u64, Missing>
        ensures { traced (outcome result) self.new ≡ trace (selector_from selectors target) self.old }
    {
        match selectors {
            Selectors::Indirect => self.note_slot(target),
            Selectors::Direct => Ok(target),
        }
    }

    // A small method's texts: the selector's, and the types' at their offset's target.
    #[tactic(auto, using(crate::proofs::NotedBy::notes), unfolding(records::specs::Row::decode_small_texts))]
    fn note_small_texts(
        &mut self,
        selectors: Selectors,
        target: u64,
        types_va: u64,
    ) -> Result<(), Missing>
        ensures { traced (outcome result) self.new ≡ trace (reads (decode_small_texts selectors target types_va)) self.old }
    {
        let name_va = self.note_selector_from(selectors, target)?;
        self.note_string(name_va)?;
        or_empty(self.note_string(types_va))?;
        Ok(())
    }

    // method_t::small: the three offsets, each counted from its own field; both field addresses are tested before the first lookup.
    #[tactic(auto, using(crate::proofs::NotedBy::notes), unfolding(records::specs::Row::decode_small_method))]
    fn note_small_method(&mut self, va: u64, selectors: Selectors) -> Result<(), Missing>
        ensures { traced (outcome result) self.new ≡ trace (reads (decode_small_method va selectors)) self.old }
    {
        let p = readable(self.tables.image(), va, Method::SMALL_SIZE)?;
        self.note_field(p, Method::SMALL_NAME, 4);
        let name_offset = i32_in(self.tables.files(), p, Method::SMALL_NAME);
        self.note_field(p, Method::SMALL_TYPES, 4);
        let types_offset = i32_in(self.tables.files(), p, Method::SMALL_TYPES);
        self.note_field(p, Method::SMALL_IMP, 4);
        let types_field = checked_add(va, Method::SMALL_TYPES)?;
        checked_add(va, Method::SMALL_IMP)?;
        let target = relative_pointer(va, name_offset);
        let types_va = relative_pointer(types_field, types_offset);
        self.note_small_texts(selectors, target, types_va)?;
        Ok(())
    }

    // The four bytes at the pointed place.
    #[tactic(auto, using(crate::proofs::NotedBy::notes))]
    fn note_offset_there(&mut self, place: u64) -> Result<(), Missing>
        ensures { traced (outcome result) self.new ≡ trace (reads (decode_offset_there place)) self.old }
    {
        let va = nonzero(place)?;
        let p = readable(self.tables.image(), va, 4)?;
        self.note_field(p, 0, 4);
        Ok(())
    }

    // The offset in the four bytes at the pointed place, none if the pointer is 0 or they cannot be read.
    #[tactic(auto, using(crate::proofs::NotedBy::notes), unfolding(records::specs::Row::decode_offset))]
    fn note_offset(&mut self, place: u64) -> Result<(), Missing>
        ensures { traced (outcome result) self.new ≡ trace (reads (decode_offset place)) self.old }
    {
        optional(self.note_offset_there(place))?;
        Ok(())
    }

    // ivar_t; the offset's place is read last.
    #[tactic(auto, using(crate::proofs::NotedBy::notes), unfolding(records::specs::Row::decode_ivar))]
    fn note_ivar(&mut self, va: u64) -> Result<(), Missing>
        ensures { traced (outcome result) self.new ≡ trace (reads (decode_ivar va)) self.old }
    {
        let p = readable(self.tables.image(), va, Ivar::SIZE)?;
        let offset_va = or_zero(self.note_slot(va))?;
        let name_va = self.note_pointer(va, Ivar::NAME)?;
        let type_va = self.note_pointer_or_0(va, Ivar::TYPE)?;
        self.note_field(p, Ivar::ALIGNMENT_RAW, 4);
        self.note_field(p, Ivar::OWN_SIZE, 4);
        self.note_string(name_va)?;
        or_empty(self.note_string(type_va))?;
        self.note_offset(offset_va)?;
        Ok(())
    }

    // property_t, 16 bytes.
    #[tactic(auto, using(crate::proofs::NotedBy::notes), unfolding(records::specs::Row::decode_property))]
    fn note_property(&mut self, va: u64) -> Result<(), Missing>
        ensures { traced (outcome result) self.new ≡ trace (reads (decode_property va)) self.old }
    {
        readable(self.tables.image(), va, Property::SIZE)?;
        let name_va = self.note_slot(va)?;
        let attributes_va = self.note_pointer_or_0(va, Property::ATTRIBUTES)?;
        self.note_string(name_va)?;
        or_empty(self.note_string(attributes_va))?;
        Ok(())
    }

    // The row of bytes that can be read, by what the entries are.
    #[tactic(auto, using(crate::proofs::NotedBy::notes), unfolding(records::specs::Row::decode_row))]
    pub fn note_row(&mut self, kind: RowKind, va: u64) -> Result<(), Missing>
        ensures { traced (outcome result) self.new ≡ trace (reads (decode_row kind va)) self.old }
    {
        match kind {
            RowKind::Legacy => self.note_legacy_method(va),
            RowKind::SmallIndirect => self.note_small_method(va, Selectors::Indirect),
            RowKind::SmallDirect => self.note_small_method(va, Selectors::Direct),
            RowKind::Ivar => self.note_ivar(va),
            RowKind::Property => self.note_property(va),
        }
    }
}
