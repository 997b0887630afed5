// Tables of which every question before a lookup has been asked.
ghost use Rattle.std.specs.Prelude.{◌≡◌, true, MatchResult};
ghost use Rattle.reads.specs.Outcome.{refused};
ghost use Rattle.pointers.specs.Question.{asked};
ghost use Rattle.ancestry.specs.Asked.{passes};
ghost use Rattle.ancestry.specs.Rebases.{chains_fall};

use pointers::question::ask;
use pointers::tables::Tables;
use reads::answer::Question;

// The tables, once 1 to 6 and 8 have been asked and none says no.
#[derive(Clone, Copy)]
pub(crate) struct Asked<'a> {
    pub(crate) tables: &'a Tables<'a>,
    ghost passes: { passes (asked tables.now) ≡ true },
}

// Asked tables of which no lookup of a rebase can be refused.
#[derive(Clone, Copy)]
pub(crate) struct Falling<'a> {
    pub(crate) asked: &'a Asked<'a>,
    ghost falls: { let t = asked.now.tables.now in
        chains_fall t.rebases t.index ≡ true },
}

impl<'a> Asked<'a> {
    pub(crate) fn ask(tables: &'a Tables<'a>) -> Result<Asked<'a>, Question>
        ensures { MatchResult result (λ a. a.tables.now ≡ tables.now) (λ k. asked tables.now ≡ refused k) }
    {
        ask(tables)?;
        Ok(Asked { tables })
    }
}
