// Opening: asks the questions 1 to 7, 18, 14 and 8, then writes the index.
ghost use Rattle.std.specs.Prelude.{◌≡◌};
ghost use Rattle.pointers.specs.Tables.{with_index};
ghost use Rattle.pointers.specs.Open.{asked_opening, opening, opening_unless, left_by, opened_index};
ghost use Rattle.reads.specs.Answer.{outcome, answered};

use crate::imageinfo::ImageInfo;
use crate::index::fill_index;
use crate::question::{ask_index, ask_tables, bind_files, names_inside, names_utf8};
use crate::tables::Tables;
use reads::answer::{Missing, Question};

// The questions 1 to 6, 18 of every segment among them, then 18 of every bind, 7 of every bind, 14 of every bind, and 8.
#[tactic(auto, unfolding(crate::specs::Open::asked_opening, crate::specs::Question::asked_index), using(crate::proofs::Questions::in_order))]
fn ask_opening(tables: &Tables) -> Result<(), Question>
    ensures { answered result ≡ asked_opening tables.now }
{
    ask_tables(tables)?;
    if !bind_files(tables.files(), tables.binds()) {
        return Err(Question::FileLent);
    }
    if !names_inside(tables.files(), tables.binds()) {
        return Err(Question::NameInside);
    }
    if !names_utf8(tables.files(), tables.binds()) {
        return Err(Question::NameUtf8);
    }
    ask_index(tables)
}

// The image info, with the index written; or the number of the first question that says no, with the index as it was. The index
// that stands in the tables is not read. A `Missing`, here and in what opens a file, a bundle or for frames, though question 4 leaves no image info
// absent: by the definition it may be, and what is lent such an answer (printing's `Progress`, filelist's `Opened`) would with a `Question` ask more of
// its callers.
#[tactic(auto, unfolding(crate::specs::Open::opening))]
pub fn open(tables: &Tables, index: &mut [u32]) -> Result<ImageInfo, Missing>
    ensures outcome { let t = with_index tables.now index.old in
        outcome result ≡ opening t }
    ensures contents { let t = with_index tables.now index.old in
        index.new ≡ opened_index t }
{
    open_unless(tables, index, Ok(()))
}

// The same for a caller that asks a question of its own, which is then the last to be asked before the index is written: `last` is what it says.
pub fn open_unless(
    tables: &Tables,
    index: &mut [u32],
    last: Result<(), Question>,
) -> Result<ImageInfo, Missing>
    ensures outcome { let t = with_index tables.now index.old in
        outcome result ≡ opening_unless (answered last) t }
    ensures contents { let t = with_index tables.now index.old in
        index.new ≡ left_by (answered last) (opened_index t) t.index }
{
    ask_opening(&tables.with_index(index))?;
    last?;
    fill_index(tables, index);
    ImageInfo::parse(tables.info())
}
