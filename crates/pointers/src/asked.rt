// Tables, with what 1 to 6 and 8 answer of them: asked once, for all steps over them.
ghost use Rattle.std.specs.Prelude.{◌≡◌};
ghost use Rattle.pointers.specs.Question.{asked};
ghost use Rattle.pointers.specs.Tables.{under};
ghost use Rattle.reads.specs.Answer.{answered};

use crate::question::ask;
use crate::setting::Setting;
use crate::tables::Tables;
use reads::answer::Question;

// The tables, and the answer.
#[derive(Drop)]
pub struct Asked<'a> {
    tables: Tables<'a>,
    answer: Result<(), Question>,
    ghost asked: { answered answer ≡ asked tables },
}

impl<'a> Asked<'a> {
    // Asks.
    pub fn of(tables: &Tables<'a>) -> Asked<'a>
        ensures { result.tables ≡ tables.now }
    {
        let answer = ask(tables);
        let setting = tables.setting();
        Asked {
            tables: tables.under(setting),
            answer,
        }
    }

    // The same tables under another setting, of which the same was answered.
    #[tactic(auto, using(crate::proofs::Questions::asked_set))]
    pub fn under(&self, setting: Setting) -> Asked<'a>
        ensures { result.tables ≡ under setting self.now.tables }
    {
        Asked {
            tables: self.tables.under(setting),
            answer: self.answer,
        }
    }

    pub fn tables(&self) -> &Tables<'a>
        ensures { result.now ≡ self.now.tables }
    {
        &self.tables
    }

    // What `ask` answers of the tables.
    pub fn ask(&self) -> Result<(), Question>
        ensures { answered result ≡ asked self.now.tables }
    {
        self.answer
    }
}
