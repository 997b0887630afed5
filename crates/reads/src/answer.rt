// The answers of the reading functions, by cases: what was found, or what stands in its place and why.
ghost use Rattle.std.specs.Prelude.{◌≡◌};
ghost use Rattle.reads.specs.Outcome.{value, because, is_absent, or_else, or_zero, optional, sum64, nonzero};
ghost use Rattle.reads.specs.Answer.{missing_because, outcome, answered};
ghost use Rattle.reads.specs.Question.{number_of};

// Why a value is absent.
#[derive(Clone, Copy)]
pub enum Reason {
    // An address is 0.
    NullAddress,
    // The lookup of a string's address is absent, or that of a file's offset.
    Unmapped,
    // A string's offset lies above its file's length.
    PastEnd,
    // No zero byte ends a string before its file's end.
    Unterminated,
    // A string is not UTF-8: the offset in it of the first byte that no well-formed text can continue, or its length where it
    // ends inside a character.
    NotUtf8(u64),
    // The pick of a class's data word is absent.
    NoData,
    // A name, selector or types slot does not resolve.
    Unresolved,
    // Bytes of a record, row, list header or number cannot be read.
    Unreadable,
    // A field address is over 64 bits.
    FieldOverflow,
    // No rebase or bind names the slot.
    NoRecord,
    // A list at an odd address.
    OddList,
    // A list's entry size is below the least.
    ShortEntry,
    // A LEB128 number of more than 64 bits, or a text outside the grammar of type encodings.
    Malformed,
}

// What a call asks of what it is lent; each question has its number (docs/QUESTIONS.md).
#[derive(Clone, Copy, Debug, PartialEq, Eq)]
pub enum Question {
    FileLength = 1,
    SegmentTable = 2,
    SectionTable = 3,
    ImageInfoLength = 4,
    RebaseTable = 5,
    BindTable = 6,
    NameInside = 7,
    IndexLength = 8,
    ChainOrder = 9,
    WalkState = 10,
    LedgerLength = 11,
    ItemRoom = 12,
    BundleLength = 13,
    NameUtf8 = 14,
    Header = 15,
    LoadCommands = 16,
    Depth = 17,
    FileLent = 18,
    FixupData = 19,
    FixupSlot = 20,
    AncestryRoom = 21,
    SelectorRoom = 22,
    RangeOrder = 23,
    RangeRoom = 24,
    FileKind = 25,
}

impl Question {
    // Its number, which programs print and callers in C get.
    pub fn number(self) -> u8
        ensures { result ≡ number_of self }
    {
        self as u8
    }
}

// What stands in place of a value: absent for a reason, or the number of the question that refuses.
#[derive(Clone, Copy)]
pub enum Missing {
    Absent(Reason),
    Refused(Question),
}

// A question that says no is handed on by `?`.
impl From<Question> for Missing {
    ghost use Rattle.reads.specs.declared.answer.Missing.TheVariants.{Refused};

    ghost from_gives = { λ k m. m ≡ Refused k };

    fn from(question: Question) -> Missing {
        Missing::Refused(question)
    }
}

impl Missing {
    // An absence gets this reason.
    pub fn because(self, why: Reason) -> Missing
        ensures { result ≡ missing_because why self }
    {
        match self {
            Missing::Absent(_) => Missing::Absent(why),
            Missing::Refused(k) => Missing::Refused(k),
        }
    }
}

// Neither a number nor refused. Nothing here calls it: it was public, and stays so for callers who match no Result.
pub fn is_absent(w: Result<u64, Missing>) -> bool
    ensures { result ≡ is_absent (outcome w) }
{
    matches!(w, Err(Missing::Absent(_)))
}

// What is absent gets this reason.
pub fn because<T>(w: Result<T, Missing>, why: Reason) -> Result<T, Missing>
    ensures { outcome result ≡ because why (outcome w) }
{
    w.map_err(|m| m.because(why))
}

// What is absent counts as `other`. Not over a closure for what is read then (`pick_either`, pointers' `rebased_or_stored`, records' `data_at` and
// `ro_data_at`; `class_name_of` there and walks' `name_in`, where the first's reason stands): it would be public, for crates above this one, and
// needs `requires { F.pre other }`, which no public function here has; private to each crate it would stand for one or two matches of four lines.
pub fn or_value<T: Drop>(w: Result<T, Missing>, other: T) -> Result<T, Missing>
    ensures { outcome result ≡ or_else (outcome w) (value other) }
{
    match w {
        Err(Missing::Absent(_)) => Ok(other),
        w => w,
    }
}

// "or 0": an absent number counts as 0.
pub fn or_zero(w: Result<u64, Missing>) -> Result<u64, Missing>
    ensures { outcome result ≡ or_zero (outcome w) }
{
    or_value(w, 0)
}

// What is there, nothing where it is absent.
pub fn optional<T>(w: Result<T, Missing>) -> Result<Option<T>, Question>
    ensures { answered result ≡ optional (outcome w) }
{
    match w {
        Ok(a) => Ok(Some(a)),
        Err(Missing::Absent(_)) => Ok(None),
        Err(Missing::Refused(k)) => Err(k),
    }
}

// The address of a field, absent over 64 bits: checked_add.
#[tactic(auto, using(std::proofs::lemmas::Bool::Decides::nat_tests), unfolding(crate::specs::Outcome::sum64, crate::specs::Outcome::choose))]
pub fn checked_add(a: u64, b: u64) -> Result<u64, Missing>
    ensures { outcome result ≡ sum64 a b }
{
    a.checked_add(b)
        .ok_or(Missing::Absent(Reason::FieldOverflow))
}

// An address that is not 0.
#[tactic(auto, using(std::proofs::lemmas::Bool::Decides::nat_tests), unfolding(crate::specs::Outcome::nonzero, crate::specs::Outcome::choose))]
pub fn nonzero(x: u64) -> Result<u64, Missing>
    ensures { outcome result ≡ nonzero x }
{
    if x == 0 {
        return Err(Missing::Absent(Reason::NullAddress));
    }
    Ok(x)
}
