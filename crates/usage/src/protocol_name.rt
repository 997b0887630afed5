// Names of protocols, noted on a sheet. Made by tools/usage/tracing.py of crates/walks/src/protocol_names.rt.
ghost use Rattle.std.specs.Prelude.{◌≡◌};
ghost use Rattle.reads.specs.Answer.{outcome};
ghost use Rattle.walks.specs.ProtocolNames.{decode_name_in, decode_protocol_name, decode_protocol_name_in};
ghost use Rattle.usage.specs.Noting.{traced, trace};

use crate::noting::Noting;
use reads::answer::{Missing, because, nonzero};
use reads::text::Text;

impl Noting<'_> {
    // The name of the protocol at an address that is not 0.
    #[tactic(auto, using(crate::proofs::NotedBy::notes), unfolding(walks::specs::ProtocolNames::decode_protocol_name))]
    fn note_protocol_name(&mut self, va: u64) -> Result<Text, Missing>
        ensures { traced (outcome result) self.new ≡ trace (decode_protocol_name va) self.old }
    {
        let proto_va = nonzero(va)?;
        let p = self.protocol(proto_va)?;
        Ok(p)
    }

    // The name of the protocol whose address a slot holds.
    #[tactic(auto, using(crate::proofs::NotedBy::notes), unfolding(walks::specs::ProtocolNames::decode_protocol_name_in))]
    fn note_protocol_name_in(&mut self, slot: u64) -> Result<Text, Missing>
        ensures { traced (outcome result) self.new ≡ trace (decode_protocol_name_in slot) self.old }
    {
        let va = self.note_slot(slot)?;
        self.note_protocol_name(va)
    }

    // The name of a slot: of the protocol that it holds, else its bind's less the prefix. Where both are absent the reason is the
    // protocol's.
    #[tactic(auto, using(crate::proofs::NotedBy::notes), unfolding(walks::specs::ProtocolNames::decode_name_in))]
    pub fn note_name_in(&mut self, slot: u64) -> Result<Text, Missing>
        ensures { traced (outcome result) self.new ≡ trace (decode_name_in slot) self.old }
    {
        match self.note_protocol_name_in(slot) {
            Err(Missing::Absent(why)) => because(self.note_symbol(slot), why),
            name => name,
        }
    }
}
