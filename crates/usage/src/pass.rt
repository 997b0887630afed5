// One pass over all that a listing reads, noted on a sheet (specs/Pass.antt): the slots of the section lists, the record in each, and its lists.
ghost use Rattle.std.specs.Prelude.{true, ◌≡◌};
ghost use Rattle.reads.specs.Answer.{outcome, answered};
ghost use Rattle.records.specs.Class.{decode_class, decode_class_name_of};
ghost use Rattle.records.specs.Decode.{then, nonzero as asks_nonzero};
ghost use Rattle.listing.specs.declared.at.Record.TheVariants as a_record;
ghost use Rattle.walks.specs.Sections.{meta_of};
ghost use Rattle.walks.specs.Slots.{decode_address};
ghost use Rattle.usage.specs.Noting.{traced, trace};
ghost use Rattle.usage.specs.Pass.{only, if_there, pass_lines, pass_with_meta, pass_class, pass_protocol, pass_category, pass_record, pass_slots, decode_pass};

use crate::noting::Noting;
use listing::at::{category_lists, class_lists, protocol_lists};
use reads::answer::{Missing, Question, nonzero, optional};
use records::category::ObjcCategory;
use records::class::ObjcClass;
use walks::section_slots::meta_of;
use walks::slots::{Lists, slot_at, slot_count};

impl Noting<'_> {
    // The name of the class in a record's slot at +8, whether or not it is there.
    #[tactic(auto, using(crate::proofs::NotedBy::notes))]
    fn pass_class_name(&mut self, address: u64, class_va: u64) -> Result<(), Question>
        ensures { traced (answered result) self.new ≡ trace (only (decode_class_name_of address class_va)) self.old }
    {
        optional(self.note_class_name_of(address, class_va))?;
        Ok(())
    }

    // A class, not its metaclass: the name of its superclass, and its lists.
    #[tactic(auto, using(crate::proofs::NotedBy::notes), unfolding(crate::specs::Pass::pass_lines))]
    fn note_class_lines(&mut self, class: ObjcClass) -> Result<(), Question>
        ensures { traced (answered result) self.new ≡ trace (pass_lines (a_record.Class class)) self.old }
    {
        self.pass_class_name(class.address, class.superclass_address)?;
        match optional(self.note_ro_of(class))? {
            Some(ro) => self.note_lists(&class_lists(ro)),
            None => Ok(()),
        }
    }

    // The metaclass of a class.
    #[tactic(auto, using(crate::proofs::NotedBy::notes))]
    fn note_meta(&mut self, class: ObjcClass) -> Result<ObjcClass, Missing>
        ensures { traced (outcome result) self.new ≡ trace (then (asks_nonzero (meta_of class)) (λ a. decode_class a true)) self.old }
    {
        let va = nonzero(meta_of(class))?;
        self.note_class(va, true)
    }

    // A class, and its metaclass.
    #[tactic(auto, using(crate::proofs::NotedBy::notes), unfolding(crate::specs::Pass::pass_with_meta))]
    fn note_with_meta(&mut self, class: ObjcClass) -> Result<(), Question>
        ensures { traced (answered result) self.new ≡ trace (pass_with_meta class) self.old }
    {
        self.note_class_lines(class)?;
        match optional(self.note_meta(class))? {
            Some(meta) => self.note_class_lines(meta),
            None => Ok(()),
        }
    }

    // The class at an address.
    #[tactic(auto, using(crate::proofs::NotedBy::notes), unfolding(crate::specs::Pass::pass_class))]
    fn pass_class(&mut self, va: u64) -> Result<(), Question>
        ensures { traced (answered result) self.new ≡ trace (pass_class va) self.old }
    {
        match optional(self.note_class(va, false))? {
            Some(class) => self.note_with_meta(class),
            None => Ok(()),
        }
    }

    // The protocol at an address.
    #[tactic(auto, using(crate::proofs::NotedBy::notes), unfolding(crate::specs::Pass::pass_protocol, crate::specs::Pass::pass_lines))]
    fn pass_protocol(&mut self, va: u64) -> Result<(), Question>
        ensures { traced (answered result) self.new ≡ trace (pass_protocol va) self.old }
    {
        match optional(self.note_protocol(va))? {
            Some(protocol) => self.note_lists(&protocol_lists(protocol)),
            None => Ok(()),
        }
    }

    // The name of a category's host class, and its lists.
    #[tactic(auto, using(crate::proofs::NotedBy::notes), unfolding(crate::specs::Pass::pass_lines))]
    fn note_category_lines(&mut self, category: ObjcCategory) -> Result<(), Question>
        ensures { traced (answered result) self.new ≡ trace (pass_lines (a_record.Category category)) self.old }
    {
        self.pass_class_name(category.address, category.class_address)?;
        self.note_lists(&category_lists(category))
    }

    // The category at an address.
    #[tactic(auto, using(crate::proofs::NotedBy::notes), unfolding(crate::specs::Pass::pass_category))]
    fn pass_category(&mut self, va: u64) -> Result<(), Question>
        ensures { traced (answered result) self.new ≡ trace (pass_category va) self.old }
    {
        match optional(self.note_category(va))? {
            Some(category) => self.note_category_lines(category),
            None => Ok(()),
        }
    }

    // The record of a section list at an address.
    fn pass_record(&mut self, lists: Lists, va: u64) -> Result<(), Question>
        ensures { traced (answered result) self.new ≡ trace (pass_record lists va) self.old }
    {
        match lists {
            Lists::Classes => self.pass_class(va),
            Lists::Categories => self.pass_category(va),
            Lists::Protocols => self.pass_protocol(va),
        }
    }

    // The address in a slot.
    #[tactic(auto, using(crate::proofs::NotedBy::notes), unfolding(walks::specs::Slots::decode_address))]
    fn note_address(&mut self, slot: u64) -> Result<u64, Missing>
        ensures { traced (outcome result) self.new ≡ trace (decode_address slot) self.old }
    {
        let va = self.note_slot_or_0(slot)?;
        nonzero(va)
    }

    // A slot, and the record in it.
    #[tactic(auto, using(crate::proofs::NotedBy::notes))]
    fn pass_slot(&mut self, lists: Lists, slot: u64) -> Result<(), Question>
        ensures { traced (answered result) self.new ≡ trace (if_there (decode_address slot) (pass_record lists)) self.old }
    {
        match optional(self.note_address(slot))? {
            Some(va) => self.pass_record(lists, va),
            None => Ok(()),
        }
    }

    // The slots of a section list.
    #[tactic(auto, using(crate::proofs::NotedBy::notes), unfolding(crate::specs::Pass::each, crate::specs::Pass::pass_slots))]
    fn pass_slots(&mut self, lists: Lists) -> Result<(), Question>
        ensures { traced (answered result) self.new ≡ trace (pass_slots lists self.old.tables.now.sections) self.old }
    {
        let sections = self.tables.sections();
        for k in 0..slot_count(sections, lists) {
            self.pass_slot(lists, slot_at(sections, lists, k))?;
        }
        Ok(())
    }

    // All that a listing reads.
    #[tactic(auto, using(crate::proofs::NotedBy::notes), unfolding(crate::specs::Pass::decode_pass))]
    pub fn pass(&mut self) -> Result<(), Question>
        ensures { traced (answered result) self.new ≡ trace (decode_pass self.old.tables.now.sections) self.old }
    {
        self.pass_slots(Lists::Classes)?;
        self.pass_slots(Lists::Protocols)?;
        self.pass_slots(Lists::Categories)
    }
}
