// The names of a protocol list, noted on a sheet: its header, and the name of each slot.
ghost use Rattle.std.specs.Iterator.{YieldsFirst, item_count};
ghost use Rattle.std.specs.Prelude.{◌≡◌};
ghost use Rattle.reads.specs.Answer.{answered};
ghost use Rattle.walks.specs.ProtocolNames.{decode_name_in};
ghost use Rattle.usage.specs.Entries.{slots_left};
ghost use Rattle.usage.specs.Noting.{traced, trace};
ghost use Rattle.usage.specs.Pass.{only, list_slots, each_name, pass_names};

use crate::noting::Noting;
use reads::answer::{Question, optional};
use walks::protocol_names::{ProtocolList, has_slot};

// The slots of a protocol list from one on, as where each stands.
#[derive(Clone, Copy)]
struct Slots {
    list: ProtocolList,
    from: u64,
}

impl Iterator for Slots {
    type Item = u64;

    ghost next_gives = { YieldsFirst slots_left };

    ghost remaining = { item_count slots_left };

    fn next(&mut self) -> Option<u64> {
        let i = self.from;
        if !has_slot(self.list, i) {
            return None;
        }
        self.from = i + 1;
        Some(self.list.base + 8 * i)
    }
}

impl Noting<'_> {
    // The name of a slot, whether or not it is there.
    #[tactic(auto, using(crate::proofs::NotedBy::notes))]
    fn pass_name(&mut self, slot: u64) -> Result<(), Question>
        ensures { traced (answered result) self.new ≡ trace (only (decode_name_in slot)) self.old }
    {
        optional(self.note_name_in(slot))?;
        Ok(())
    }

    // The name of each slot.
    #[tactic(auto, using(crate::proofs::NotedBy::notes), unfolding(crate::specs::Pass::each))]
    fn note_slot_names(&mut self, list: ProtocolList) -> Result<(), Question>
        ensures { traced (answered result) self.new ≡ trace (each_name (list_slots list 0 list.count)) self.old }
    {
        for slot in (Slots { list, from: 0 }) {
            self.pass_name(slot)?;
        }
        Ok(())
    }

    // The protocol list at an address.
    #[tactic(auto, using(crate::proofs::NotedBy::notes), unfolding(crate::specs::Pass::pass_names))]
    pub fn note_names(&mut self, va: u64) -> Result<(), Question>
        ensures { traced (answered result) self.new ≡ trace (pass_names va) self.old }
    {
        match optional(self.note_protocol_list(va))? {
            Some(list) => self.note_slot_names(list),
            None => Ok(()),
        }
    }
}
