// Protocol names: the walk over a protocol_list_t (objc-runtime-new.h; protocol.rs, protocol_name_iter).
ghost use Rattle.std.specs.Prelude.{◌≡◌, ◌+◌, ◌^◌, ◌<◌, min};
ghost use Rattle.reads.specs.Answer.{outcome};
ghost use Rattle.pointers.specs.Tables.{under, reading_new, reading_under};
ghost use Rattle.reads.specs.Outcome.{value};
ghost use Rattle.walks.specs.Handed.{hands};
ghost use Rattle.walks.specs.ProtocolNames.{protocol_list_at, has_slot, protocol_name_at, protocol_name_in, name_in, walk_at, named, step_in, over_names, next_name, name_step, name_left};

use crate::stepped::Stepped;
use pointers::asked::Asked;
use pointers::setting::Setting;
use pointers::slot::{resolve_pointer, symbol_at};
use pointers::tables::Tables;
use reads::answer::{Missing, Question, Reason, because, checked_add, nonzero};
use reads::place::{readable, u64_in};
use reads::text::{Reading, Text};
use records::list::even_list;
use records::protocol::protocol_at;

// A list of protocols: the address of its first slot, and the capped number of slots.
#[derive(Clone, Copy)]
pub struct ProtocolList {
    pub base: u64,
    pub count: u64,
}

impl ProtocolList {
    // protocol_list_t: the size of its header, count.
    pub const HEADER_SIZE: u64 = 8;

    pub const COUNT: u64 = 0;
}

// A walk over the names of a list: its address, the number of slots taken, and the setting that it began with. Not one generic walk with
// `ListWalk`: alike are five bodies of one to six lines (`new`, `under`, `starting`, `at`, `next`) and the two arms of `walked_list`; a trait
// for them would have the cursor (u32 there), list, step and the definitions of each walk as members, with their laws.
#[derive(Clone, Copy)]
pub struct ProtocolNameWalk {
    pub list: u64,
    pub cursor: u64,
    pub setting: Setting,
}

// What a step reaches: a name, a slot that gives none and why, or the end, a case as in `ListStep`.
#[derive(Clone, Copy)]
pub enum NameStep {
    Name(Text),
    Passed(Reason),
    Finished,
}

// What a step says, with the walk to go on with.
pub type ProtocolNameStepped = Stepped<NameStep, ProtocolNameWalk>;

// The most slots of a list (protocol.rs, protocol_name_iter).
const MOST_SLOTS: u64 = 1_048_576;

// The count of a list, capped.
fn capped(count: u64) -> u64
    ensures { result ≡ min count 1048576 }
{
    count.min(MOST_SLOTS)
}

// protocol_list_t: a u64 count, then the slots.
#[tactic(auto, using(reads::proofs::Outcomes::missed_then), unfolding(crate::specs::ProtocolNames::decode_protocol_list))]
pub fn protocol_list_at(tables: &Tables, va: u64) -> Result<ProtocolList, Missing>
    ensures { let t = tables.now in
        outcome result ≡ protocol_list_at t va }
{
    nonzero(va)?;
    even_list(va)?;
    let p = readable(tables.image(), va, ProtocolList::HEADER_SIZE)?;
    let count = u64_in(tables.files(), p, ProtocolList::COUNT);
    let base = checked_add(va, ProtocolList::HEADER_SIZE)?;
    Ok(ProtocolList {
        base,
        count: capped(count),
    })
}

// Whether slot i is below the count, and its address within 64 bits.
#[tactic(auto, using(crate::proofs::ProtocolLists::no_slot_from_count, crate::proofs::ProtocolLists::has_slot_by_division))]
pub fn has_slot(list: ProtocolList, i: u64) -> bool
    ensures { result ≡ has_slot list i }
{
    if list.count <= i {
        return false;
    }
    i <= (0xFFFF_FFFF_FFFF_FFFF - list.base) / 8
}

// The name of the protocol at an address that is not 0.
#[tactic(auto, using(reads::proofs::Outcomes::missed_then), unfolding(crate::specs::ProtocolNames::decode_protocol_name))]
fn protocol_name_at(tables: &Tables, va: u64) -> Result<Text, Missing>
    ensures { let t = tables.now in
        outcome result ≡ protocol_name_at t va }
{
    let proto_va = nonzero(va)?;
    let p = protocol_at(tables, proto_va)?;
    Ok(p.name)
}

// The name of the protocol whose address a slot holds.
#[tactic(auto, using(reads::proofs::Outcomes::missed_then), unfolding(crate::specs::ProtocolNames::decode_protocol_name_in))]
fn protocol_name_in(tables: &Tables, slot: u64) -> Result<Text, Missing>
    ensures { let t = tables.now in
        outcome result ≡ protocol_name_in t slot }
{
    let va = resolve_pointer(tables, slot)?;
    protocol_name_at(tables, va)
}

// The name of a slot: of the protocol that it holds, else its bind's less the prefix. Where both are absent the reason is the
// protocol's.
#[tactic(auto, using(reads::proofs::Outcomes::first_absent, reads::proofs::Outcomes::first_number, reads::proofs::Outcomes::first_value_lem, reads::proofs::Outcomes::because_of), unfolding(crate::specs::ProtocolNames::decode_name_in))]
fn name_in(tables: &Tables, slot: u64) -> Result<Text, Missing>
    ensures { let t = tables.now in
        outcome result ≡ name_in t slot }
{
    match protocol_name_in(tables, slot) {
        Err(Missing::Absent(why)) => because(symbol_at(tables, slot), why),
        name => name,
    }
}

impl ProtocolNameWalk {
    // The walk over the list at an address, before its first slot, under the new reading.
    pub fn new(list: u64) -> ProtocolNameWalk
        ensures { result ≡ walk_at reading_new list 0 }
    {
        ProtocolNameWalk::starting(Setting::new(), list)
    }

    // The same under either reading.
    pub fn under(reading: Reading, list: u64) -> ProtocolNameWalk
        ensures { result ≡ walk_at (reading_under reading) list 0 }
    {
        ProtocolNameWalk::starting(Setting::under(reading), list)
    }

    // The same under any setting.
    pub fn starting(setting: Setting, list: u64) -> ProtocolNameWalk
        ensures { result ≡ walk_at setting list 0 }
    {
        ProtocolNameWalk {
            list,
            cursor: 0,
            setting,
        }
    }

    // The number of the slot that the next step takes.
    pub fn cursor(self) -> u64
        ensures { result ≡ self.cursor }
    {
        self.cursor
    }

    // A step, with the walk at another cursor.
    fn at(self, step: NameStep, cursor: u64) -> ProtocolNameStepped
        ensures { name_left result ≡ hands (value (name_step step)) (walk_at self.setting self.list cursor) }
    {
        Stepped {
            walked: Ok(step),
            walk: ProtocolNameWalk { cursor, ..self },
        }
    }

    // The step of a slot by its name: a slot that gives none is passed.
    fn named(self, name: Result<Text, Missing>) -> ProtocolNameStepped
        requires { self.cursor + 1 < 2 ^ 64 }
        ensures { name_left result ≡ named self (outcome name) }
    {
        match name {
            Ok(text) => self.at(NameStep::Name(text), self.cursor + 1),
            Err(Missing::Absent(why)) => self.at(NameStep::Passed(why), self.cursor + 1),
            Err(m) => Stepped::missing(self, m),
        }
    }

    // The next slot; with none left the cursor becomes the count.
    #[tactic(auto, using(crate::proofs::ProtocolLists::slot_below), unfolding(crate::specs::ProtocolNames::step_in))]
    fn step_in(self, tables: &Tables, list: ProtocolList) -> ProtocolNameStepped
        ensures { let t = tables.now in
            name_left result ≡ step_in t self list }
    {
        if has_slot(list, self.cursor) {
            let slot = list.base + 8 * self.cursor;
            let name = name_in(tables, slot);
            return self.named(name);
        }
        self.at(NameStep::Finished, list.count)
    }

    // A step over tables that no question refuses, for a caller that has asked: 10, by the count of the list, 0 for one that is missing.
    #[tactic(auto, using(crate::proofs::Steps::list_past, crate::proofs::Steps::list_on, crate::proofs::Steps::missing_past, crate::proofs::Steps::missing_on), unfolding(crate::specs::ProtocolNames::over_names))]
    pub fn walked_list(self, tables: &Tables) -> ProtocolNameStepped
        ensures { let t = under self.setting tables.now in
            name_left result ≡ over_names t self (protocol_list_at t self.list) }
    {
        let tables = &tables.under(self.setting);
        let list = self.list;
        match protocol_list_at(tables, list) {
            Ok(list) => {
                if list.count < self.cursor {
                    return Stepped::refused(self, Question::WalkState);
                }
                self.step_in(tables, list)
            }
            Err(m) => {
                if 0 < self.cursor {
                    return Stepped::refused(self, Question::WalkState);
                }
                Stepped::missing(self, m)
            }
        }
    }

    // The name in the next slot, by what 1 to 6 and 8 answered.
    #[tactic(auto, unfolding(crate::specs::ProtocolNames::next_name_under))]
    pub fn next_over(self, asked: &Asked) -> ProtocolNameStepped
        ensures { let t = asked.now.tables in
            name_left result ≡ next_name t self }
    {
        match asked.ask() {
            Ok(()) => self.walked_list(asked.tables()),
            Err(k) => Stepped::refused(self, k),
        }
    }

    // The same over tables that are asked for this step.
    pub fn next(self, tables: &Tables) -> ProtocolNameStepped
        ensures { let t = tables.now in
            name_left result ≡ next_name t self }
    {
        self.next_over(&Asked::of(tables))
    }
}
