// The steps of the section walks, one slot each, under a setting that the walk hands on. Classes and categories meet each address once,
// by a ledger that the caller lends; their step over a slot is one, generic over the record. A protocol listed twice comes twice.
ghost use Rattle.std.specs.Prelude.{◌≡◌, List, ℕ, ◌+◌, ◌^◌, ◌<◌, length};
ghost use Rattle.reads.specs.Answer.{outcome};
ghost use Rattle.reads.specs.Outcome.{refused};
ghost use Rattle.pointers.specs.Tables.{Tables};
ghost use Rattle.walks.specs.Slots.{Room};
ghost use Rattle.walks.specs.Sections.{meta_of, Walk, walk, at_start, Left, Kind, classes, categories, take_waiting, next_waiting, take_new, step_of, take_protocol, protocol_step_of, class_slots, category_slots, protocol_slots, record_taken, record_answer, record_step, decoded_step, waits_after, by_record};

use crate::sections::RecordStep;
use crate::slots::{Lists, SlotStep, SlotWalk, next_slot};
use pointers::asked::Asked;
use pointers::tables::Tables;
use reads::answer::{Missing, Question};
use records::category::{ObjcCategory, category_at};
use records::class::{ObjcClass, class_at};
use records::protocol::{ObjcProtocol, protocol_at};

// Where a walk over classes stands, and what a step over a slot of either ledger's walk leaves: the slots, and the address of the metaclass that
// waits. 0 is none: an isa of 0 never waits, and the walk that C holds has the same word (`WalkWords` of face), so that an Option would be made
// from it and into it at each of C's calls.
#[derive(Clone, Copy)]
pub struct ClassSlots {
    pub slots: SlotWalk,
    pub meta: u64,
}

// Where a walk over categories stands: the slots.
#[derive(Clone, Copy)]
pub struct CategorySlots {
    pub slots: SlotWalk,
}

// Where a walk over protocols stands: the next slot.
#[derive(Clone, Copy)]
pub struct ProtocolSlots {
    pub slot: u64,
}

// The step, or the question that refuses it, and where the walk stands then; with a question where it stood.
#[derive(Clone, Copy)]
pub struct RecordTaken<R, S> {
    pub step: Result<RecordStep<R>, Question>,
    pub slots: S,
}

// Where a walk over a section list stands, and its steps: `state` and `step` say both in document 01's words.
pub trait RecordSlots: Copy {
    type Record: Copy;

    ghost state: { Self → Walk };

    ghost step: { Tables → Walk → List ℕ → Left Self.Record };

    // Before the first slot.
    fn start() -> Self
        ensures { state result ≡ at_start };

    // One step, with the ledger of the addresses met before.
    fn next(self, asked: &Asked, ledger: &mut [u64]) -> RecordTaken<Self::Record, Self>
        ensures { let t = asked.now.tables in
            record_taken state result ledger.new ≡ step t (state self) ledger.old };
}

// A record that is listed, and that a walk meets once.
pub(crate) trait Listed: Copy {
    ghost kind: { Kind Self };

    // The lists that hold it.
    fn lists() -> Lists
        ensures { result ≡ kind.lists };

    // The record at an address.
    fn at(tables: &Tables, va: u64) -> Result<Self, Missing>
        ensures { let t = tables.now in
            outcome result ≡ kind.decoded t va };

    // The address that waits after it, 0 for none as in `ClassSlots`.
    fn after(self) -> u64
        ensures { result ≡ kind.after self };
}

// A record's decoding as a step: it is found, or passed where it is absent.
pub fn decoded_step<R: Copy>(decoded: Result<R, Missing>) -> Result<RecordStep<R>, Question>
    ensures { record_answer result ≡ decoded_step (outcome decoded) }
{
    match decoded {
        Ok(record) => Ok(RecordStep::Record(record)),
        Err(Missing::Absent(why)) => Ok(RecordStep::Passed(why)),
        Err(Missing::Refused(k)) => Err(k),
    }
}

// The address that waits after a step, 0 for none.
fn waits_after<R: Listed>(step: RecordStep<R>) -> u64
    ensures { result ≡ waits_after R.kind.after (record_step step) }
{
    match step {
        RecordStep::Record(record) => record.after(),
        _ => 0,
    }
}

// The address of a class's metaclass, 0 where isa is the class itself: as that of a waiting one in `ClassSlots`.
#[tactic(auto, using(std::proofs::lemmas::Bool::Decides::nat_tests), unfolding(crate::specs::Sections::meta_of, reads::specs::Outcome::choose))]
pub fn meta_of(class: ObjcClass) -> u64
    ensures { result ≡ meta_of class }
{
    if class.isa == class.address {
        return 0;
    }
    class.isa
}

impl Listed for ObjcClass {
    ghost kind = { classes };

    fn lists() -> Lists {
        Lists::Classes
    }

    fn at(tables: &Tables, va: u64) -> Result<ObjcClass, Missing> {
        class_at(tables, va, false)
    }

    // Its metaclass.
    fn after(self) -> u64 {
        meta_of(self)
    }
}

impl Listed for ObjcCategory {
    ghost kind = { categories };

    fn lists() -> Lists {
        Lists::Categories
    }

    fn at(tables: &Tables, va: u64) -> Result<ObjcCategory, Missing> {
        category_at(tables, va)
    }

    // Nothing waits.
    fn after(self) -> u64 {
        0
    }
}

impl SlotWalk {
    // The slots, with no address that waits.
    fn alone(self) -> ClassSlots
        ensures { class_slots result ≡ walk self.slot self.used self.highest 0 }
    {
        ClassSlots {
            slots: self,
            meta: 0,
        }
    }

    // Takes an address first met: the ledger word is the last write, and with a number there is none.
    #[tactic(auto, using(crate::proofs::SectionLaws::record_on), unfolding(crate::specs::Sections::take_new))]
    fn take_new<R: Listed>(
        self,
        tables: &Tables,
        va: u64,
        ledger: &mut [u64],
    ) -> RecordTaken<R, ClassSlots>
        requires { Room self (length ledger.old) }
        ensures { let t = tables.now in
            record_taken class_slots result ledger.new ≡ take_new R.kind t (walk self.slot self.used self.highest 0) ledger.old va }
    {
        match decoded_step(R::at(tables, va)) {
            Ok(step) => RecordTaken {
                step: Ok(step),
                slots: ClassSlots {
                    slots: self.note(va, ledger),
                    meta: waits_after(step),
                },
            },
            Err(k) => RecordTaken::refused(self.alone(), k),
        }
    }

    // Takes the next slot.
    #[tactic(auto, using(crate::proofs::SectionLaws::step_slot, crate::proofs::SlotLaws::new_room))]
    fn take_slot<R: Listed>(self, asked: &Asked, ledger: &mut [u64]) -> RecordTaken<R, ClassSlots>
        ensures { let t = asked.now.tables in
            record_taken class_slots result ledger.new ≡ step_of R.kind t (walk self.slot self.used self.highest 0) ledger.old }
    {
        let lists = R::lists();
        match self.next_new(asked, lists, ledger) {
            Ok(SlotStep::Address(va)) => self.take_new(asked.tables(), va, ledger),
            Ok(SlotStep::Dropped) => RecordTaken {
                step: Ok(RecordStep::Dropped),
                slots: self.past().alone(),
            },
            Ok(SlotStep::Finished) => RecordTaken {
                step: Ok(RecordStep::Finished),
                slots: self.alone(),
            },
            Err(k) => RecordTaken::refused(self.alone(), k),
        }
    }
}

impl<R: Copy, S: Copy> RecordTaken<R, S> {
    // The walk where it stands, with the number of a question.
    fn refused(slots: S, k: Question) -> RecordTaken<R, S>
        ensures { (record_answer result.step ≡ refused k) × (result.slots ≡ slots) }
    {
        RecordTaken {
            step: Err(k),
            slots,
        }
    }

    // The step that a record's decoding is: the walk stands there then, and with a question here. Not for `SlotWalk::take_new`: its ledger
    // is written only if there is no question, and what waits after it is the record's own.
    #[tactic(auto, using(crate::proofs::SectionLaws::record_moved, crate::proofs::SectionLaws::record_stays))]
    fn of(decoded: Result<R, Missing>, there: S, here: S) -> RecordTaken<R, S>
        ensures { (state : S → Walk) → (on : ℕ → Walk) → (l : List ℕ) → on 0 ≡ state there
            → record_taken state result l ≡ by_record (state here) l (λ r. 0) on l (outcome decoded) }
    {
        match decoded_step(decoded) {
            Ok(step) => RecordTaken {
                step: Ok(step),
                slots: there,
            },
            Err(k) => RecordTaken::refused(here, k),
        }
    }
}

impl ClassSlots {
    // Takes the metaclass that waits.
    fn take_meta(self, tables: &Tables) -> RecordTaken<ObjcClass, ClassSlots>
        ensures { let t = tables.now in
            ((l : List ℕ) → record_taken class_slots result l ≡ take_waiting classes t (class_slots self) l) }
    {
        let meta = class_at(tables, self.meta, true);
        RecordTaken::of(meta, self.slots.alone(), self)
    }

    // The waiting metaclass, where no question refuses the step over a ledger of `len` words.
    #[tactic(auto, using(crate::proofs::SectionLaws::waiting_on, crate::proofs::SectionLaws::waiting_no))]
    fn next_meta(self, asked: &Asked, len: usize) -> RecordTaken<ObjcClass, ClassSlots>
        ensures { let t = asked.now.tables in
            ((l : List ℕ) → length l ≡ len → record_taken class_slots result l ≡ next_waiting classes t (class_slots self) l) }
    {
        let lists = Lists::Classes;
        match self.slots.ask_ledger(asked, lists, len) {
            Ok(()) => self.take_meta(asked.tables()),
            Err(k) => RecordTaken::refused(self, k),
        }
    }
}

impl RecordSlots for ClassSlots {
    type Record = ObjcClass;

    ghost state = { class_slots };

    ghost step = { step_of classes };

    fn start() -> ClassSlots {
        SlotWalk::default().alone()
    }

    // The waiting metaclass, or else the next slot.
    fn next(self, asked: &Asked, ledger: &mut [u64]) -> RecordTaken<ObjcClass, ClassSlots> {
        if self.meta != 0 {
            let len = ledger.len();
            return self.next_meta(asked, len);
        }
        self.slots.take_slot(asked, ledger)
    }
}

impl RecordSlots for CategorySlots {
    type Record = ObjcCategory;

    ghost state = { category_slots };

    ghost step = { step_of categories };

    fn start() -> CategorySlots {
        CategorySlots {
            slots: SlotWalk::default(),
        }
    }

    // The next slot; nothing waits after it.
    fn next(self, asked: &Asked, ledger: &mut [u64]) -> RecordTaken<ObjcCategory, CategorySlots> {
        let taken = self.slots.take_slot(asked, ledger);
        RecordTaken {
            step: taken.step,
            slots: CategorySlots {
                slots: taken.slots.slots,
            },
        }
    }
}

impl ProtocolSlots {
    // The walk one slot on. That its number fits is said here, in `take` and in `SlotWalk::past`: a walk that C holds may stand at any slot, so the
    // type does not say it.
    fn past(self) -> ProtocolSlots
        requires { self.slot + 1 < 2 ^ 64 }
        ensures { protocol_slots result ≡ walk (self.slot + 1) 0 0 0 }
    {
        ProtocolSlots {
            slot: self.slot + 1,
        }
    }

    // Takes an address. Not `SlotWalk::take_new`: no ledger says which addresses were met, and a walk's state has no words for it.
    fn take(self, tables: &Tables, va: u64) -> RecordTaken<ObjcProtocol, ProtocolSlots>
        requires { self.slot + 1 < 2 ^ 64 }
        ensures { let t = tables.now in
            ((l : List ℕ) → record_taken protocol_slots result l ≡ take_protocol t (protocol_slots self) l va) }
    {
        let protocol = protocol_at(tables, va);
        RecordTaken::of(protocol, self.past(), self)
    }
}

impl RecordSlots for ProtocolSlots {
    type Record = ObjcProtocol;

    ghost state = { protocol_slots };

    ghost step = { protocol_step_of };

    fn start() -> ProtocolSlots {
        ProtocolSlots { slot: 0 }
    }

    // The next slot; the ledger stays as it is.
    fn next(self, asked: &Asked, _ledger: &mut [u64]) -> RecordTaken<ObjcProtocol, ProtocolSlots> {
        let lists = Lists::Protocols;
        let slot = self.slot;
        match next_slot(asked, lists, slot) {
            Ok(SlotStep::Address(va)) => self.take(asked.tables(), va),
            Ok(SlotStep::Dropped) => RecordTaken {
                step: Ok(RecordStep::Dropped),
                slots: self.past(),
            },
            Ok(SlotStep::Finished) => RecordTaken {
                step: Ok(RecordStep::Finished),
                slots: self,
            },
            Err(k) => RecordTaken::refused(self, k),
        }
    }
}
