// The imports of chained fixups (fixup-chains.h, dyld_chained_import) and their names.
ghost use Rattle.std.specs.Prelude.{◌≡◌, ◌+◌, ◌==◌, position};
ghost use Rattle.reads.specs.Reference.{before};
ghost use Rattle.fixups.specs.Imports.{text_at, import_at};
ghost use Rattle.reads.specs.Answer.{answered};

use crate::chain::Data;
use reads::answer::Question;
use reads::place::u32_from;

// A name, by its offset in the file and length.
#[derive(Clone, Copy)]
pub struct Name {
    pub at: u64,
    pub len: u64,
}

// A bind: its slot and its symbol's name. Not pointers' `Bind`, whose name says its file too, where each here lies in the file that is
// read (the row says 0 for it, `put_bind`).
#[derive(Clone, Copy)]
pub struct Bound {
    pub slot: u64,
    pub name: Name,
}

// Where the first zero byte stands.
pub fn first_zero(bytes: &[u8]) -> Option<usize>
    ensures { result ≡ position (λ x. x == 0) (before bytes) }
{
    bytes.iter().position(|b| *b == 0)
}

impl Data<'_> {
    // The text from an offset of the symbols to its zero.
    fn text_at(self, offset: u32) -> Result<Name, Question>
        ensures { answered result ≡ text_at self.entry.body.now self.entry.fixups.at (self.entry.fixups.symbols + offset) }
    {
        let start = u64::from(self.fixups.symbols) + u64::from(offset);
        if (self.body.len() as u64) < start {
            return Err(Question::FixupData);
        }
        let n = first_zero(&self.body[start as usize..]).ok_or(Question::FixupData)?;
        Ok(Name {
            at: u64::from(self.fixups.at) + start,
            len: n as u64,
        })
    }

    // The name of an import: name_offset is the upper 23 bits of its word.
    #[tactic(auto, unfolding(crate::specs::Imports::import_at, reads::specs::Outcome::choose), using(std::proofs::lemmas::Bool::Decides::nat_tests))]
    pub(crate) fn import_at(self, ordinal: u32) -> Result<Name, Question>
        ensures { answered result ≡ import_at self.entry.body.now self.entry.fixups ordinal }
    {
        if ordinal >= self.fixups.count {
            return Err(Question::FixupSlot);
        }
        let imports = u64::from(self.fixups.imports);
        let i = 4 * u64::from(ordinal);
        if (self.body.len() as u64) < imports + i + 4 {
            return Err(Question::FixupData);
        }
        let word = u32_from(self.body, imports, i);
        self.text_at(word / 0x200)
    }
}
