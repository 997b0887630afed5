// Names of classes, noted on a sheet. Made by tools/usage/tracing.py of crates/records/src/class.rt.
ghost use Rattle.std.specs.Prelude.{◌≡◌};
ghost use Rattle.reads.specs.Answer.{outcome};
ghost use Rattle.records.specs.Class.{decode_bound_name, decode_class_name, decode_class_name_of, decode_nonzero_class_name, decode_ro_data};
ghost use Rattle.records.specs.Decode.{picked_at};
ghost use Rattle.usage.specs.Noting.{traced, trace};

use crate::noting::Noting;
use pointers::slot::rebase_at;
use reads::address::Address;
use reads::answer::{Missing, because, checked_add, nonzero};
use reads::place::{read_u64, readable};
use reads::text::Text;
use records::class::{ClassRo, ObjcClass};

impl Noting<'_> {
    // The pick of the word in a slot.
    #[tactic(auto, using(crate::proofs::NotedBy::notes))]
    fn note_picked(&mut self, slot: u64) -> Result<u64, Missing>
        ensures { traced (outcome result) self.new ≡ trace (picked_at slot) self.old }
    {
        self.note_word(slot);
        let raw = read_u64(self.tables.image(), slot)?;
        Address::pick(self.tables.segments(), raw)
    }

    // The class_ro_t of the bits word in a slot: a rebase target is not picked from.
    #[tactic(auto, using(crate::proofs::NotedBy::notes), unfolding(records::specs::Class::decode_ro_data))]
    fn note_ro_data(&mut self, slot: u64) -> Result<u64, Missing>
        ensures { traced (outcome result) self.new ≡ trace (decode_ro_data slot) self.old }
    {
        match rebase_at(self.tables, slot) {
            Err(Missing::Absent(_)) => self.note_picked(slot),
            target => target,
        }
    }

    // The name of the class at an address, by its class_ro_t's name slot alone.
    #[tactic(auto, using(crate::proofs::NotedBy::notes), unfolding(records::specs::Class::decode_class_name))]
    fn note_class_name(&mut self, va: u64) -> Result<Text, Missing>
        ensures { traced (outcome result) self.new ≡ trace (decode_class_name va) self.old }
    {
        readable(self.tables.image(), va, ObjcClass::SIZE)?;
        let bits_slot = checked_add(va, ObjcClass::BITS)?;
        let ro_va = self.note_ro_data(bits_slot)?;
        let name_va = self.note_pointer(ro_va, ClassRo::NAME)?;
        self.note_string(name_va)
    }

    // The decoded name of a class that is not 0.
    #[tactic(auto, using(crate::proofs::NotedBy::notes), unfolding(records::specs::Class::decode_nonzero_class_name))]
    fn note_decoded_name(&mut self, class_va: u64) -> Result<Text, Missing>
        ensures { traced (outcome result) self.new ≡ trace (decode_nonzero_class_name class_va) self.old }
    {
        let va = nonzero(class_va)?;
        self.note_class_name(va)
    }

    // The bind of the slot at +8, where both class_t.superclass and category_t.cls stand, less its prefix.
    #[tactic(auto, using(crate::proofs::NotedBy::notes), unfolding(records::specs::Class::decode_bound_name))]
    fn note_bound_name(&mut self, address: u64) -> Result<Text, Missing>
        ensures { traced (outcome result) self.new ≡ trace (decode_bound_name address) self.old }
    {
        let slot = checked_add(address, ObjcClass::SUPERCLASS)?;
        self.note_symbol(slot)
    }

    // The name of the class in the slot at +8 of a record: a class that decodes goes before the bind, and where both are absent its
    // reason stands.
    #[tactic(auto, using(crate::proofs::NotedBy::notes), unfolding(records::specs::Class::decode_class_name_of))]
    pub fn note_class_name_of(&mut self, address: u64, class_va: u64) -> Result<Text, Missing>
        ensures { traced (outcome result) self.new ≡ trace (decode_class_name_of address class_va) self.old }
    {
        match self.note_decoded_name(class_va) {
            Err(Missing::Absent(why)) => because(self.note_bound_name(address), why),
            name => name,
        }
    }
}
