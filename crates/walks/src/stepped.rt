// What a step over a list says, with the walk to go on with.
ghost use Rattle.std.specs.Prelude.{◌≡◌};
ghost use Rattle.walks.specs.Handed.{kept};
ghost use Rattle.reads.specs.declared.answer.Missing.TheVariants.{Refused};

use reads::answer::{Missing, Question};

// The answer, with the walk to go on with. A list that is absent has no steps, only the reason for which it is. Section walks, listing and
// marking have five structs of an answer and a state (`RecordTaken`, `RecordStepped`, `SectionStepped`, `Listed`, `MarkedListed`), and no
// function of one body with those here: their steps are refused by a `Question` and never absent, and what they leave has the ledger beside
// it (`record_left`), so that a generic struct for all would share two fields, under one name for each.
#[derive(Clone, Copy)]
pub struct Stepped<A, W> {
    pub walked: Result<A, Missing>,
    pub walk: W,
}

impl<A: Copy, W: Copy> Stepped<A, W> {
    // The walk as given, where the list is missing or a question refuses.
    pub(crate) fn missing(walk: W, m: Missing) -> Stepped<A, W>
        ensures { result ≡ kept walk m }
    {
        Stepped {
            walked: Err(m),
            walk,
        }
    }

    // The walk as given, with the number of a question.
    pub(crate) fn refused(walk: W, k: Question) -> Stepped<A, W>
        ensures { result ≡ kept walk (Refused k) }
    {
        Stepped::missing(walk, Missing::Refused(k))
    }
}
