// What an answer of the C face says first: which kind it is, with the reason or the number.
ghost use Rattle.std.specs.Prelude.{◌≡◌};
ghost use Rattle.face.specs.Status.{status, says_found, says_absent, says_refused, says_missing};

use reads::answer::{Missing, Question, Reason};

// The kind; the code of a reason or the number of a question; and of a text that is not UTF-8 the offset in it.
#[repr(C)]
#[derive(Clone, Copy)]
pub struct Status {
    pub kind: u64,
    pub code: u64,
    pub at: u64,
}

impl Status {
    // A record, a row or a text.
    pub const FOUND: u64 = 0;
    // A question refuses: the code is its number.
    pub const REFUSED: u64 = 1;
    // Absent: the code is the reason's.
    pub const ABSENT: u64 = 2;
    // A slot of 0, or an address met before. (3, a write that failed, is none of these answers'.)
    pub const DROPPED: u64 = 4;
    // Nothing was left.
    pub const FINISHED: u64 = 5;
    // The lent words are full.
    pub const MORE: u64 = 6;

    pub(crate) fn of(kind: u64) -> Status
        ensures { result ≡ status kind 0 0 }
    {
        Status {
            kind,
            code: 0,
            at: 0,
        }
    }

    pub(crate) fn found() -> Status
        ensures { result ≡ says_found }
    {
        Status::of(Status::FOUND)
    }

    fn reason(code: u64) -> Status
        ensures { result ≡ status 2 code 0 }
    {
        Status {
            kind: Status::ABSENT,
            code,
            at: 0,
        }
    }

    pub(crate) fn refused(k: Question) -> Status
        ensures { result ≡ says_refused k }
    {
        Status {
            kind: Status::REFUSED,
            code: k.number() as u64,
            at: 0,
        }
    }
}

impl From<Reason> for Status {
    ghost from_gives = { λ x s. s ≡ says_absent x };

    fn from(why: Reason) -> Status {
        match why {
            Reason::NullAddress => Status::reason(1),
            Reason::Unmapped => Status::reason(2),
            Reason::PastEnd => Status::reason(3),
            Reason::Unterminated => Status::reason(4),
            Reason::NotUtf8(at) => Status {
                kind: Status::ABSENT,
                code: 5,
                at,
            },
            Reason::NoData => Status::reason(6),
            Reason::Unresolved => Status::reason(7),
            Reason::Unreadable => Status::reason(8),
            Reason::FieldOverflow => Status::reason(9),
            Reason::NoRecord => Status::reason(10),
            Reason::OddList => Status::reason(11),
            Reason::ShortEntry => Status::reason(12),
            Reason::Malformed => Status::reason(13),
        }
    }
}

impl From<Missing> for Status {
    ghost from_gives = { λ x s. s ≡ says_missing x };

    fn from(m: Missing) -> Status {
        match m {
            Missing::Absent(why) => Status::from(why),
            Missing::Refused(k) => Status::refused(k),
        }
    }
}
