// Classes, noted on a sheet. Made by tools/usage/tracing.py of crates/records/src/class.rt.
ghost use Rattle.std.specs.Prelude.{◌≡◌};
ghost use Rattle.reads.specs.Answer.{outcome};
ghost use Rattle.records.specs.Class.{decode_class, decode_class_ro, decode_ro_lists, decode_ro_of};
ghost use Rattle.usage.specs.Noting.{noting, traced, trace};
ghost use Rattle.usage.specs.Pass.{reads};

use crate::noting::Noting;
use reads::address::Address;
use reads::answer::{Missing, checked_add};
use reads::place::readable;
use records::class::{ClassRo, ObjcClass, class_at, class_ro_at};

impl Noting<'_> {
    // class_t: both field addresses are tested before the first lookup.
    #[tactic(auto, using(crate::proofs::NotedBy::notes), unfolding(records::specs::Class::decode_class))]
    fn class(&mut self, va: u64, is_meta: bool) -> Result<(), Missing>
        ensures { self.new ≡ noting (decode_class va is_meta) self.old }
    {
        readable(self.tables.image(), va, ObjcClass::SIZE)?;
        let super_slot = checked_add(va, ObjcClass::SUPERCLASS)?;
        let bits_slot = checked_add(va, ObjcClass::BITS)?;
        self.note_slot_or_0(va)?;
        self.note_slot_or_0(super_slot)?;
        self.note_word(bits_slot);
        Ok(())
    }

    // The same, and the record, which the plain decoder makes. Two functions, so that `?` ends the reads and not the answer.
    #[tactic(auto, using(crate::proofs::NotedBy::notes))]
    pub fn note_class(&mut self, va: u64, is_meta: bool) -> Result<ObjcClass, Missing>
        ensures { traced (outcome result) self.new ≡ trace (decode_class va is_meta) self.old }
    {
        let _ = self.class(va, is_meta);
        class_at(self.tables, va, is_meta)
    }

    // What stands behind the name of a class_ro_t: its lists, and the weak ivar layout among them; each or 0.
    #[tactic(auto, using(crate::proofs::NotedBy::notes), unfolding(records::specs::Class::decode_ro_lists))]
    fn note_ro_lists(&mut self, va: u64) -> Result<(), Missing>
        ensures { traced (outcome result) self.new ≡ trace (reads (decode_ro_lists va)) self.old }
    {
        self.note_pointer_or_0(va, ClassRo::BASE_METHODS)?;
        self.note_pointer_or_0(va, ClassRo::BASE_PROTOCOLS)?;
        self.note_pointer_or_0(va, ClassRo::IVARS)?;
        self.note_pointer_or_0(va, ClassRo::WEAK_IVAR_LAYOUT)?;
        self.note_pointer_or_0(va, ClassRo::BASE_PROPERTIES)?;
        Ok(())
    }

    // class_ro_t: flags, start and size, the pointers in the order of class.rs, the name's text last.
    #[tactic(auto, using(crate::proofs::NotedBy::notes), unfolding(records::specs::Class::decode_class_ro))]
    fn class_ro(&mut self, va: u64) -> Result<(), Missing>
        ensures { self.new ≡ noting (decode_class_ro va) self.old }
    {
        let p = readable(self.tables.image(), va, ClassRo::SIZE)?;
        self.note_field(p, ClassRo::FLAGS, 4);
        self.note_field(p, ClassRo::INSTANCE_START, 4);
        self.note_field(p, ClassRo::INSTANCE_SIZE, 4);
        self.note_pointer_or_0(va, ClassRo::IVAR_LAYOUT)?;
        let name_va = self.note_pointer(va, ClassRo::NAME)?;
        self.note_ro_lists(va)?;
        self.note_string(name_va)?;
        Ok(())
    }

    // The same, and the record, which the plain decoder makes. Two functions, so that `?` ends the reads and not the answer.
    #[tactic(auto, using(crate::proofs::NotedBy::notes))]
    fn note_class_ro(&mut self, va: u64) -> Result<ClassRo, Missing>
        ensures { traced (outcome result) self.new ≡ trace (decode_class_ro va) self.old }
    {
        let _ = self.class_ro(va);
        class_ro_at(self.tables, va)
    }

    // The class_ro_t of a class: picked again from its bits.
    #[tactic(auto, using(crate::proofs::NotedBy::notes), unfolding(records::specs::Class::decode_ro_of))]
    pub fn note_ro_of(&mut self, class: ObjcClass) -> Result<ClassRo, Missing>
        ensures { traced (outcome result) self.new ≡ trace (decode_ro_of class) self.old }
    {
        let va = Address::pick(self.tables.segments(), class.bits)?;
        self.note_class_ro(va)
    }
}
