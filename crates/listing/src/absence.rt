// What a listing meets that is not there, and why. None of it is printed.
use reads::answer::Reason;

// An entry of the record's list of that number whose row is skipped.
#[derive(Clone, Copy)]
pub struct SkippedEntry {
    pub list: u16,
    pub index: u32,
    pub why: Reason,
}

// A slot of the record's list of protocol names of that number that gives no name.
#[derive(Clone, Copy)]
pub struct UnnamedSlot {
    pub list: u16,
    pub slot: u64,
    pub why: Reason,
}

// A record of a section, a waiting metaclass or a class's class_ro that is absent; a skipped entry; a slot without a name.
#[derive(Clone, Copy)]
pub enum Absence {
    Record(Reason),
    Entry(SkippedEntry),
    Name(UnnamedSlot),
}
