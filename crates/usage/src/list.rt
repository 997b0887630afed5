// Headers of lists, noted on a sheet. Made by tools/usage/tracing.py of crates/records/src/list.rt and crates/walks/src/protocol_names.rt.
ghost use Rattle.std.specs.Prelude.{◌≡◌};
ghost use Rattle.reads.specs.Answer.{outcome};
ghost use Rattle.records.specs.List.{decode_list};
ghost use Rattle.walks.specs.ProtocolNames.{decode_protocol_list};
ghost use Rattle.usage.specs.Noting.{noting, traced, trace};

use crate::noting::Noting;
use reads::answer::{Missing, nonzero};
use reads::place::readable;
use records::list::{Layout, ListKind, even_list, list_address, list_at};
use walks::protocol_names::{ProtocolList, protocol_list_at};

impl Noting<'_> {
    // The list at an address: an 8-byte header of entry size and count, then the entries.
    #[tactic(auto, using(crate::proofs::NotedBy::notes), unfolding(records::specs::List::decode_list))]
    fn list(&mut self, kind: ListKind, va: u64) -> Result<(), Missing>
        ensures { self.new ≡ noting (decode_list kind va) self.old }
    {
        nonzero(va)?;
        list_address(kind, va)?;
        let p = readable(self.tables.image(), va, Layout::HEADER_SIZE)?;
        self.note_field(p, Layout::ENTSIZE_AND_FLAGS, 4);
        self.note_field(p, Layout::COUNT, 4);
        Ok(())
    }

    // The same, and the record, which the plain decoder makes. Two functions, so that `?` ends the reads and not the answer.
    #[tactic(auto, using(crate::proofs::NotedBy::notes))]
    pub fn note_list(&mut self, kind: ListKind, va: u64) -> Result<Layout, Missing>
        ensures { traced (outcome result) self.new ≡ trace (decode_list kind va) self.old }
    {
        let _ = self.list(kind, va);
        list_at(self.tables, kind, va)
    }

    // protocol_list_t: a u64 count, then the slots.
    #[tactic(auto, using(crate::proofs::NotedBy::notes), unfolding(walks::specs::ProtocolNames::decode_protocol_list))]
    fn protocol_list(&mut self, va: u64) -> Result<(), Missing>
        ensures { self.new ≡ noting (decode_protocol_list va) self.old }
    {
        nonzero(va)?;
        even_list(va)?;
        let p = readable(self.tables.image(), va, ProtocolList::HEADER_SIZE)?;
        self.note_field(p, ProtocolList::COUNT, 8);
        Ok(())
    }

    // The same, and the record, which the plain decoder makes. Two functions, so that `?` ends the reads and not the answer.
    #[tactic(auto, using(crate::proofs::NotedBy::notes))]
    pub fn note_protocol_list(&mut self, va: u64) -> Result<ProtocolList, Missing>
        ensures { traced (outcome result) self.new ≡ trace (decode_protocol_list va) self.old }
    {
        let _ = self.protocol_list(va);
        protocol_list_at(self.tables, va)
    }
}
