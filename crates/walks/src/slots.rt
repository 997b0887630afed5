// The slots of the section lists, taken one by one: what the section walks share.
ghost use Rattle.std.specs.Prelude.{◌≡◌, ◌++◌, ◌+◌, ◌^◌, ◌≤◌, ◌<◌, max, length, get_or, set};
ghost use Rattle.reads.specs.Reference.{before};
ghost use Rattle.walks.specs.Slots.{section_slots, slots_of, address_in, among, slot_fits, ledger_fits, asked_ledger, slot_taken, met_below, first_met, next_slot, next_new, slot_step, slot_outcome, slot_walk, Room};
ghost use Rattle.reads.specs.Answer.{outcome, answered};

use pointers::asked::Asked;
use pointers::section::ObjcSection;
use pointers::slot::slot_or_0;
use pointers::tables::Tables;
use reads::answer::{Missing, Question, nonzero};
use reads::relative::slot_address;

// The lists that are walked: class_list, then nlclslist; cat_list, then nlcat_list; proto_list. They go beside the section table where that alone
// is read, else beside the tables: two structs with their models would save one parameter in each of eight functions.
#[derive(Clone, Copy)]
pub enum Lists {
    Classes,
    Categories,
    Protocols,
}

// What the next slot comes to: the address in it; it is dropped; or no slot is left, a case as in `RecordStep`.
#[derive(Clone, Copy)]
pub(crate) enum SlotStep {
    Address(u64),
    Dropped,
    Finished,
}

// Where a walk that meets each address once stands: the next slot, the words of the ledger in use, and the highest of them. Zeros stand before the
// first slot.
#[derive(Clone, Copy, Default)]
pub struct SlotWalk {
    pub slot: u64,
    pub used: u64,
    pub highest: u64,
}

// The slots of two sections: each has fewer than 2^61.
#[tactic(auto, using(crate::proofs::SlotLaws::pair_length, crate::proofs::SlotLaws::slots_fit))]
fn pair_count(sections: &[u64], first: usize, second: usize) -> u64
    ensures { result ≡ length (section_slots (before sections) first ++ section_slots (before sections) second) }
{
    let a = ObjcSection::at(sections, first);
    let b = ObjcSection::at(sections, second);
    a.slots + b.slots
}

// The address of slot k of them.
#[tactic(auto, using(crate::proofs::SlotLaws::pair_first, crate::proofs::SlotLaws::pair_second))]
fn pair_slot(sections: &[u64], first: usize, second: usize, k: u64) -> u64
    requires { k < length (section_slots sections.now first ++ section_slots sections.now second) }
    ensures { result ≡ get_or (section_slots (before sections) first ++ section_slots (before sections) second) k 0 }
{
    let a = ObjcSection::at(sections, first);
    if k < a.slots {
        return slot_address(a.vmaddr, k);
    }
    let b = ObjcSection::at(sections, second);
    slot_address(b.vmaddr, k - a.slots)
}

// How many slots the lists have.
#[tactic(auto, using(crate::proofs::SlotLaws::section_length))]
pub fn slot_count(sections: &[u64], lists: Lists) -> u64
    ensures { result ≡ length (slots_of lists (before sections)) }
{
    match lists {
        Lists::Classes => pair_count(sections, ObjcSection::CLASS_LIST, ObjcSection::NLCLSLIST),
        Lists::Categories => pair_count(sections, ObjcSection::CAT_LIST, ObjcSection::NLCAT_LIST),
        Lists::Protocols => ObjcSection::at(sections, ObjcSection::PROTO_LIST).slots,
    }
}

// The address of slot k of them, 0 where there is none: no Option, since callers ask for slots that are there.
#[tactic(auto, using(crate::proofs::SlotLaws::section_length, crate::proofs::SlotLaws::section_at_lem))]
pub fn slot_at(sections: &[u64], lists: Lists, k: u64) -> u64
    ensures { result ≡ get_or (slots_of lists (before sections)) k 0 }
{
    if slot_count(sections, lists) <= k {
        return 0;
    }
    match lists {
        Lists::Classes => pair_slot(sections, ObjcSection::CLASS_LIST, ObjcSection::NLCLSLIST, k),
        Lists::Categories => pair_slot(sections, ObjcSection::CAT_LIST, ObjcSection::NLCAT_LIST, k),
        Lists::Protocols => {
            let list = ObjcSection::at(sections, ObjcSection::PROTO_LIST);
            slot_address(list.vmaddr, k)
        }
    }
}

// The address in a slot, absent if it is 0.
#[tactic(auto, unfolding(crate::specs::Slots::decode_address))]
pub fn address_in(tables: &Tables, slot: u64) -> Result<u64, Missing>
    ensures { let t = tables.now in
        outcome result ≡ address_in t slot }
{
    let va = slot_or_0(tables, slot)?;
    nonzero(va)
}

// Is the address among the words? Not `contains`: it stops at the first hit and takes words of 64 bits one by one, where this loop compares
// several at a time. Tried: 10^5 classes whose list is shuffled (that row of docs/PERFORMANCE.md, Large images) were listed in 6.0 to 6.2 s with
// it and in 2.9 with this, in one process (another machine than the row's 1.6 s; the row holds the ratio to the Rust, 2.99 there, which `contains`
// would double).
#[tactic(auto, using(crate::proofs::SlotLaws::among_more), unfolding(crate::specs::Slots::among))]
fn met(words: &[u64], va: u64) -> bool
    ensures { result ≡ among va (before words) }
{
    let mut found = false;
    for word in words {
        found |= *word == va;
    }
    found
}

// The same, by the highest of the words: an address above it is new without a look. Where the words ascend, as over a list that rises, an
// address of a second list is found by halves; where they do not it may be missed there.
fn met_below(words: &[u64], highest: u64, va: u64) -> bool
    ensures { result ≡ met_below highest (before words) va }
{
    if highest < va {
        return false;
    }
    if words.binary_search(&va).is_ok() {
        return true;
    }
    met(words, va)
}

// An address met before is dropped.
#[tactic(auto, using(reads::proofs::Tests::choose_true, reads::proofs::Tests::choose_false))]
fn first_met(step: SlotStep, words: &[u64], highest: u64) -> SlotStep
    ensures { slot_step result ≡ first_met (met_below highest (before words)) (slot_step step) }
{
    match step {
        SlotStep::Address(va) if met_below(words, highest, va) => SlotStep::Dropped,
        step => step,
    }
}

// 10: is the slot at most the slots, and are the words of the ledger in use at most the slot?
#[tactic(auto, using(crate::proofs::SlotLaws::slot_past, crate::proofs::SlotLaws::slot_by))]
fn slot_fits(sections: &[u64], lists: Lists, slot: u64, used: u64) -> bool
    ensures { result ≡ slot_fits (slots_of lists (before sections)) slot used }
{
    if slot_count(sections, lists) < slot {
        return false;
    }
    used <= slot
}

// 11: has the ledger a word for each slot?
#[tactic(auto, unfolding(crate::specs::Slots::ledger_fits))]
fn ledger_fits(sections: &[u64], lists: Lists, words: usize) -> bool
    ensures { result ≡ ledger_fits (slots_of lists (before sections)) words }
{
    slot_count(sections, lists) <= words as u64
}

// Takes slot k, or there is none.
#[tactic(auto, using(crate::proofs::SlotLaws::taken_none, crate::proofs::SlotLaws::taken_by_lem))]
fn slot_taken(tables: &Tables, lists: Lists, k: u64) -> Result<SlotStep, Question>
    requires { k ≤ length (slots_of lists tables.now.sections) }
    ensures { let t = tables.now in
        slot_outcome result ≡ slot_taken t (slots_of lists tables.now.sections) k }
{
    let sections = tables.sections();
    if k == slot_count(sections, lists) {
        return Ok(SlotStep::Finished);
    }
    let at = slot_at(sections, lists, k);
    match address_in(tables, at) {
        Ok(va) => Ok(SlotStep::Address(va)),
        Err(Missing::Absent(_)) => Ok(SlotStep::Dropped),
        Err(Missing::Refused(k)) => Err(k),
    }
}

// The next slot of a walk that takes an address as often as it is listed. `few`, here and in two contracts below, says that the
// number of the slot after it fits 64 bits. Tried without, with `slots_few` in the caller: it holds no section table, whose words bound the
// slots, and the proof did not close.
#[tactic(auto, using(crate::proofs::SlotLaws::slots_few, crate::proofs::SlotLaws::slot_within, crate::proofs::SlotLaws::next_on, crate::proofs::SlotLaws::next_10, crate::proofs::SlotLaws::next_no))]
pub(crate) fn next_slot(asked: &Asked, lists: Lists, slot: u64) -> Result<SlotStep, Question>
    ensures step { let t = asked.now.tables in
        slot_outcome result ≡ next_slot t (slots_of lists asked.now.tables.sections) slot }
    ensures few { length (slots_of lists asked.now.tables.sections) < 2 ^ 62 }
{
    let sections = asked.tables().sections();
    asked.ask()?;
    if !slot_fits(sections, lists, slot, 0) {
        return Err(Question::WalkState);
    }
    slot_taken(asked.tables(), lists, slot)
}

impl SlotWalk {
    // 1 to 6 and 8, then 10 and 11, with a ledger of so many words.
    #[tactic(auto, using(crate::proofs::SlotLaws::slots_few, crate::proofs::SlotLaws::ask_10, crate::proofs::SlotLaws::ask_11, crate::proofs::SlotLaws::ask_yes, crate::proofs::SlotLaws::ask_no))]
    pub(crate) fn ask_ledger(
        self,
        asked: &Asked,
        lists: Lists,
        words: usize,
    ) -> Result<(), Question>
        ensures asked { let t = asked.now.tables in
            answered result ≡ asked_ledger t (slots_of lists asked.now.tables.sections) self.slot self.used words }
        ensures few { length (slots_of lists asked.now.tables.sections) < 2 ^ 62 }
    {
        let sections = asked.tables().sections();
        asked.ask()?;
        if !slot_fits(sections, lists, self.slot, self.used) {
            return Err(Question::WalkState);
        }
        if !ledger_fits(sections, lists, words) {
            return Err(Question::LedgerLength);
        }
        Ok(())
    }

    // The next slot, with the words of the ledger in use as the addresses met before.
    #[tactic(auto, using(crate::proofs::SlotLaws::ledger_room, crate::proofs::SlotLaws::new_on, crate::proofs::SlotLaws::new_no))]
    pub(crate) fn next_new(
        self,
        asked: &Asked,
        lists: Lists,
        ledger: &[u64],
    ) -> Result<SlotStep, Question>
        ensures step { let t = asked.now.tables in
            slot_outcome result ≡ next_new t (slots_of lists asked.now.tables.sections) self.slot self.used self.highest (before ledger) }
        ensures few { length (slots_of lists asked.now.tables.sections) < 2 ^ 62 }
    {
        self.ask_ledger(asked, lists, ledger.len())?;
        let step = slot_taken(asked.tables(), lists, self.slot)?;
        Ok(first_met(step, &ledger[..self.used as usize], self.highest))
    }

    // Past a slot that was dropped.
    pub(crate) fn past(self) -> SlotWalk
        requires { self.slot + 1 < 2 ^ 64 }
        ensures { result ≡ slot_walk (self.slot + 1) self.used self.highest }
    {
        SlotWalk {
            slot: self.slot + 1,
            ..self
        }
    }

    // Past a slot whose address was first met: it becomes the next word of the ledger.
    pub(crate) fn note(self, va: u64, ledger: &mut [u64]) -> SlotWalk
        requires { Room self (length ledger.old) }
        ensures { (result ≡ slot_walk (self.slot + 1) (self.used + 1) (max self.highest va)) × (ledger.new ≡ set ledger.old self.used va) }
    {
        let used = self.used as usize;
        ledger[used] = va;
        SlotWalk {
            slot: self.slot + 1,
            used: self.used + 1,
            highest: self.highest.max(va),
        }
    }
}
