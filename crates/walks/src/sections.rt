// Walks over the section lists, one slot a step. A walk says under which reading it began, and each step takes it from there.
ghost use Rattle.std.specs.Prelude.{◌≡◌, []};
ghost use Rattle.pointers.specs.Tables.{under, reading_new, reading_under};
ghost use Rattle.walks.specs.Sections.{at_start, class_walk, protocol_slots, protocol_step_of, protocol_walk, record_left};

use crate::section_slots::{CategorySlots, ClassSlots, ProtocolSlots, RecordSlots};
use pointers::asked::Asked;
use pointers::setting::Setting;
use pointers::tables::Tables;
use reads::answer::{Question, Reason};
use reads::text::Reading;
use records::protocol::ObjcProtocol;

// A walk: where it stands, and the setting that it began with.
#[derive(Clone, Copy)]
pub struct RecordWalk<S> {
    pub slots: S,
    pub setting: Setting,
}

pub type ClassWalk = RecordWalk<ClassSlots>;

pub type CategoryWalk = RecordWalk<CategorySlots>;

pub type ProtocolWalk = RecordWalk<ProtocolSlots>;

// A step gives a record, or the reason for which it is absent; a slot of 0 or an address met before is dropped, which is no absence; or there was
// nothing left, a case as in `ListStep`: with an Option each match would have two levels.
#[derive(Clone, Copy)]
pub enum RecordStep<R> {
    Record(R),
    Passed(Reason),
    Dropped,
    Finished,
}

// The step, or the question that refuses it, with the walk as it is then; with a question it is as given.
#[derive(Clone, Copy)]
pub struct RecordStepped<R, S> {
    pub step: Result<RecordStep<R>, Question>,
    pub walk: RecordWalk<S>,
}

impl<S: RecordSlots> RecordWalk<S> {
    // The walk before its first slot, under the new reading.
    pub fn new() -> RecordWalk<S>
        ensures { (S.state result.slots ≡ at_start) × (result.setting ≡ reading_new) }
    {
        RecordWalk::starting(Setting::new())
    }

    // The same under either reading.
    pub fn under(reading: Reading) -> RecordWalk<S>
        ensures { (S.state result.slots ≡ at_start) × (result.setting ≡ reading_under reading) }
    {
        RecordWalk::starting(Setting::under(reading))
    }

    // The same under any setting.
    pub fn starting(setting: Setting) -> RecordWalk<S>
        ensures { (S.state result.slots ≡ at_start) × (result.setting ≡ setting) }
    {
        RecordWalk {
            slots: S::start(),
            setting,
        }
    }

    // One step, under the setting that the walk began with, by what 1 to 6 and 8 answered. The walk over protocols looks at no ledger.
    pub fn next_over(self, asked: &Asked, ledger: &mut [u64]) -> RecordStepped<S::Record, S>
        ensures { let t = under self.setting asked.now.tables in
            (record_left S.state result ledger.new ≡ S.step t (S.state self.slots) ledger.old) × (result.walk.setting ≡ self.setting) }
    {
        let setting = self.setting;
        let taken = self.slots.next(&asked.under(setting), ledger);
        RecordStepped {
            step: taken.step,
            walk: RecordWalk {
                slots: taken.slots,
                setting,
            },
        }
    }

    // The same over tables that are asked for this step.
    pub fn next(self, tables: &Tables, ledger: &mut [u64]) -> RecordStepped<S::Record, S>
        ensures { let t = under self.setting tables.now in
            (record_left S.state result ledger.new ≡ S.step t (S.state self.slots) ledger.old) × (result.walk.setting ≡ self.setting) }
    {
        self.next_over(&Asked::of(tables), ledger)
    }
}

impl RecordWalk<ClassSlots> {
    // How many words of the ledger are in use: the addresses met so far.
    pub fn used(self) -> u64
        ensures { result ≡ (class_walk self).used }
    {
        self.slots.slots.used
    }
}

impl RecordWalk<ProtocolSlots> {
    // One step over the protocol list, where no ledger is lent.
    pub fn next_protocol_over(self, asked: &Asked) -> RecordStepped<ObjcProtocol, ProtocolSlots>
        ensures { let t = under self.setting asked.now.tables in
            (record_left protocol_slots result [] ≡ protocol_step_of t (protocol_walk self) []) × (result.walk.setting ≡ self.setting) }
    {
        self.next_over(asked, &mut [])
    }

    // The same over tables that are asked for this step.
    pub fn next_protocol(self, tables: &Tables) -> RecordStepped<ObjcProtocol, ProtocolSlots>
        ensures { let t = under self.setting tables.now in
            (record_left protocol_slots result [] ≡ protocol_step_of t (protocol_walk self) []) × (result.walk.setting ≡ self.setting) }
    {
        self.next_protocol_over(&Asked::of(tables))
    }
}
