// Protocols, noted on a sheet. Made by tools/usage/tracing.py of crates/records/src/protocol.rt.
ghost use Rattle.std.specs.Prelude.{◌≡◌};
ghost use Rattle.reads.specs.Answer.{outcome};
ghost use Rattle.records.specs.Protocol.{decode_class_properties, decode_protocol, decode_protocol_lists, decode_trailing};
ghost use Rattle.records.specs.Decode.{done, then};
ghost use Rattle.usage.specs.Noting.{traced, trace};
ghost use Rattle.usage.specs.Pass.{reads};

use crate::noting::Noting;
use reads::answer::{Missing, checked_add};
use reads::place::{Place, readable, u32_in};
use reads::text::Text;
use records::protocol::{ObjcProtocol, protocol_at};

impl Noting<'_> {
    // _classProperties: its 8 bytes must be readable, even where a rebase fills the slot; or 0.
    #[tactic(auto, using(crate::proofs::NotedBy::notes), unfolding(records::specs::Protocol::decode_trailing))]
    fn note_trailing(&mut self, va: u64) -> Result<u64, Missing>
        ensures { traced (outcome result) self.new ≡ trace (decode_trailing va) self.old }
    {
        let slot = checked_add(va, ObjcProtocol::CLASS_PROPERTIES)?;
        readable(self.tables.image(), slot, 8)?;
        self.note_slot_or_0(slot)
    }

    // The class properties, 0 where the protocol is too short to have them.
    #[tactic(auto, using(crate::proofs::NotedBy::notes, std::proofs::lemmas::Bool::Decides::nat_tests), unfolding(records::specs::Protocol::decode_class_properties, reads::specs::Outcome::choose))]
    fn note_class_properties(&mut self, va: u64, p: Place) -> Result<u64, Missing>
        ensures { traced (outcome result) self.new ≡ trace (decode_class_properties va p) self.old }
    {
        self.note_field(p, ObjcProtocol::OWN_SIZE, 4);
        let size = u32_in(self.tables.files(), p, ObjcProtocol::OWN_SIZE);
        if ObjcProtocol::SIZE_WITH_CLASS_PROPERTIES <= size {
            return self.note_trailing(va);
        }
        Ok(0)
    }

    // The lists of a protocol_t but its class properties; each or 0.
    #[tactic(auto, using(crate::proofs::NotedBy::notes), unfolding(records::specs::Protocol::decode_protocol_lists))]
    fn note_protocol_lists(&mut self, va: u64) -> Result<(), Missing>
        ensures { traced (outcome result) self.new ≡ trace (reads (decode_protocol_lists va)) self.old }
    {
        self.note_pointer_or_0(va, ObjcProtocol::PROTOCOLS)?;
        self.note_pointer_or_0(va, ObjcProtocol::INSTANCE_METHODS)?;
        self.note_pointer_or_0(va, ObjcProtocol::CLASS_METHODS)?;
        self.note_pointer_or_0(va, ObjcProtocol::OPTIONAL_INSTANCE_METHODS)?;
        self.note_pointer_or_0(va, ObjcProtocol::OPTIONAL_CLASS_METHODS)?;
        self.note_pointer_or_0(va, ObjcProtocol::INSTANCE_PROPERTIES)?;
        Ok(())
    }

    // protocol_t: the name's text is read before _classProperties.
    #[tactic(auto, using(crate::proofs::NotedBy::notes), unfolding(records::specs::Protocol::decode_protocol))]
    pub(crate) fn protocol(&mut self, va: u64) -> Result<Text, Missing>
        ensures { traced (outcome result) self.new ≡ trace (then (decode_protocol va) (λ p. done p.name)) self.old }
    {
        let p = readable(self.tables.image(), va, ObjcProtocol::SIZE)?;
        let name_va = self.note_pointer(va, ObjcProtocol::MANGLED_NAME)?;
        self.note_protocol_lists(va)?;
        self.note_field(p, ObjcProtocol::OWN_SIZE, 4);
        self.note_field(p, ObjcProtocol::FLAGS, 4);
        let name = self.note_string(name_va)?;
        self.note_class_properties(va, p)?;
        Ok(name)
    }

    // The same, and the record, which the plain decoder makes. Two functions, so that `?` ends the reads and not the answer.
    #[tactic(auto, using(crate::proofs::NotedBy::notes))]
    pub fn note_protocol(&mut self, va: u64) -> Result<ObjcProtocol, Missing>
        ensures { traced (outcome result) self.new ≡ trace (decode_protocol va) self.old }
    {
        let _ = self.protocol(va);
        protocol_at(self.tables, va)
    }
}
