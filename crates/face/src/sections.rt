// A step of the walk over classes, over categories and over protocols: the walk's state goes in and comes back as words.
ghost use Rattle.std.specs.Prelude.{◌≡◌, []};
ghost use Rattle.pointers.specs.Tables.{lent, under};
ghost use Rattle.walks.specs.Sections.{walk, classes, categories, step_of, protocol_step_of};
ghost use Rattle.face.specs.Words.{setting_in};
ghost use Rattle.face.specs.Sections.{walk_words, class_state, category_state, protocol_state, class_walked, category_walked, protocol_walked};

use crate::decoding::{CategoryTold, ClassTold, ProtocolTold, lent, told};
use crate::words::{CategoryWords, ClassWords, ProtocolWords, setting_in};
use walks::section_slots::{CategorySlots, ClassSlots, ProtocolSlots};
use walks::sections::{CategoryWalk, ClassWalk, ProtocolWalk};
use walks::slots::SlotWalk;

// Where a walk stands: the next slot; the words of the ledger in use and the highest of them; the address of the metaclass that waits;
// and whether texts are read under the old reading. All 0 before the first slot. No `From` gives them: a walk does not hold the word of its
// reading, which comes back as it went in.
#[repr(C)]
#[derive(Clone, Copy)]
pub struct WalkWords {
    pub slot: u64,
    pub used: u64,
    pub highest: u64,
    pub waiting: u64,
    pub old_reading: u64,
}

#[repr(C)]
#[derive(Clone, Copy)]
pub struct ClassWalked {
    pub told: ClassTold,
    pub walk: WalkWords,
}

#[repr(C)]
#[derive(Clone, Copy)]
pub struct CategoryWalked {
    pub told: CategoryTold,
    pub walk: WalkWords,
}

#[repr(C)]
#[derive(Clone, Copy)]
pub struct ProtocolWalked {
    pub told: ProtocolTold,
    pub walk: WalkWords,
}

impl From<WalkWords> for SlotWalk {
    ghost use Rattle.walks.specs.Slots.{slot_walk};

    ghost from_gives = { λ w s. s ≡ slot_walk w.slot w.used w.highest };

    fn from(w: WalkWords) -> SlotWalk {
        SlotWalk {
            slot: w.slot,
            used: w.used,
            highest: w.highest,
        }
    }
}

impl WalkWords {
    // The words of a walk that stands at these slots, with the address that waits.
    fn at(self, slots: SlotWalk, waiting: u64) -> WalkWords
        ensures { result ≡ walk_words self.old_reading (walk slots.slot slots.used slots.highest waiting) }
    {
        WalkWords {
            slot: slots.slot,
            used: slots.used,
            highest: slots.highest,
            waiting,
            ..self
        }
    }
}

// The next class, or the metaclass that waits.
#[unsafe(no_mangle)]
pub extern "C" fn objclist_next_class(
    files: &[&[u8]],
    segments: &[u64],
    sections: &[u64],
    info: &[u8],
    rebases: &[u64],
    binds: &[u64],
    index: &[u32],
    walk: WalkWords,
    ledger: &mut [u64],
) -> ClassWalked
    ensures answer { let t = under (setting_in walk.old_reading) (lent files segments sections info rebases binds index) in
        result ≡ class_walked walk.old_reading (step_of classes t (class_state walk) ledger.old) }
    ensures contents { let t = under (setting_in walk.old_reading) (lent files segments sections info rebases binds index) in
        ledger.new ≡ (step_of classes t (class_state walk) ledger.old).ledger }
{
    let tables = lent(files, segments, sections, info, rebases, binds, index);
    let setting = setting_in(walk.old_reading);
    let at = ClassWalk {
        slots: ClassSlots {
            slots: SlotWalk::from(walk),
            meta: walk.waiting,
        },
        setting,
    };
    let stepped = at.next(&tables, ledger);
    let step = stepped.step;
    let next = stepped.walk;
    let (status, cls) = told(step, ClassWords::default());
    ClassWalked {
        told: ClassTold { status, cls },
        walk: walk.at(next.slots.slots, next.slots.meta),
    }
}

// The next category.
#[unsafe(no_mangle)]
pub extern "C" fn objclist_next_category(
    files: &[&[u8]],
    segments: &[u64],
    sections: &[u64],
    info: &[u8],
    rebases: &[u64],
    binds: &[u64],
    index: &[u32],
    walk: WalkWords,
    ledger: &mut [u64],
) -> CategoryWalked
    ensures answer { let t = under (setting_in walk.old_reading) (lent files segments sections info rebases binds index) in
        result ≡ category_walked walk.old_reading (step_of categories t (category_state walk) ledger.old) }
    ensures contents { let t = under (setting_in walk.old_reading) (lent files segments sections info rebases binds index) in
        ledger.new ≡ (step_of categories t (category_state walk) ledger.old).ledger }
{
    let tables = lent(files, segments, sections, info, rebases, binds, index);
    let setting = setting_in(walk.old_reading);
    let at = CategoryWalk {
        slots: CategorySlots {
            slots: SlotWalk::from(walk),
        },
        setting,
    };
    let stepped = at.next(&tables, ledger);
    let step = stepped.step;
    let next = stepped.walk;
    let (status, category) = told(step, CategoryWords::default());
    CategoryWalked {
        told: CategoryTold { status, category },
        walk: walk.at(next.slots.slots, 0),
    }
}

// The next protocol: one listed twice comes twice, so there is no ledger.
#[unsafe(no_mangle)]
pub extern "C" fn objclist_next_protocol(
    files: &[&[u8]],
    segments: &[u64],
    sections: &[u64],
    info: &[u8],
    rebases: &[u64],
    binds: &[u64],
    index: &[u32],
    walk: WalkWords,
) -> ProtocolWalked
    ensures { let t = under (setting_in walk.old_reading) (lent files segments sections info rebases binds index) in
        result ≡ protocol_walked walk.old_reading (protocol_step_of t (protocol_state walk) []) }
{
    let tables = lent(files, segments, sections, info, rebases, binds, index);
    let setting = setting_in(walk.old_reading);
    let at = ProtocolWalk {
        slots: ProtocolSlots { slot: walk.slot },
        setting,
    };
    let stepped = at.next_protocol(&tables);
    let step = stepped.step;
    let next = stepped.walk;
    let (status, protocol) = told(step, ProtocolWords::default());
    ProtocolWalked {
        told: ProtocolTold { status, protocol },
        walk: WalkWords {
            slot: next.slots.slot,
            used: 0,
            highest: 0,
            waiting: 0,
            ..walk
        },
    }
}
