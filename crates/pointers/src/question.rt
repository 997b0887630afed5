// The questions of document 01 that are asked of tables, each a function of its own; `ask` puts 1 to 6, with 18 of the segments after 2, and 8 in order.
ghost use Rattle.std.specs.Prelude.{◌≡◌, ◌≤◌};
ghost use Rattle.reads.specs.Reference.{before};
ghost use Rattle.reads.specs.Files.{files_of};
ghost use Rattle.reads.specs.Segment.{segment_words};
ghost use Rattle.pointers.specs.Tables.{rebase_words, bind_words};
ghost use Rattle.pointers.specs.Question.{image_fits, whole_rows, section_fits, section_table, info_whole, segment_files, name_inside, name_utf8, index_fits, asked_tables, asked_index, asked, bind_files, names_inside, names_utf8};
ghost use Rattle.reads.specs.Answer.{answered};

use crate::index::HEADS;
use crate::name::name_bytes;
use crate::section::ObjcSection;
use crate::table::{Bind, Rebase, every};
use crate::tables::Tables;
use reads::answer::Question;
use reads::files::{file_len, is_lent, longest};
use reads::place::{Image, lies_in};
use reads::segment::Segment;
use reads::text::{Text, utf8};

// 1: is a file of the image at most 4,294,967,295 bytes long?
#[tactic(auto, unfolding(crate::specs::Question::image_fits))]
pub fn image_fits(n: u64) -> bool
    ensures { result ≡ image_fits n }
{
    n <= 0xFFFF_FFFF
}

// 2, 5 and 6: do n words make whole rows of `width` words (at least one), and at most `most` of them?
// Not a trait with the width and the most as constants: its three `impl`s would be longer than the three calls.
#[tactic(auto, unfolding(crate::specs::Question::whole_rows))]
fn whole_rows(n: usize, width: usize, most: usize) -> bool
    requires { 1 ≤ width }
    ensures { result ≡ whole_rows width most n }
{
    n % width == 0 && n / width <= most
}

// 2: is the segment table whole, with at most 64 segments?
pub fn segments_whole(n: usize) -> bool
    ensures { result ≡ whole_rows segment_words 64 n }
{
    whole_rows(n, Segment::WORDS, 64)
}

// 3, of a row: is the presence word 0 or 1, and a present length at most n?
#[tactic(auto, unfolding(crate::specs::Question::section_fits))]
pub fn section_fits(n: u64, present: u64, len: u64) -> bool
    ensures { result ≡ section_fits n present len }
{
    present == 0 || (present == 1 && len <= n)
}

// 3: is the section table 15 words long, and does each row fit?
#[tactic(auto, unfolding(crate::specs::Question::section_table))]
pub fn section_table(sections: &[u64], n: u64) -> bool
    ensures { result ≡ section_table n (before sections) }
{
    sections.len() == ObjcSection::TABLE_WORDS
        && every(sections.len() / ObjcSection::WORDS, |i| {
            let first = i * ObjcSection::WORDS;
            section_fits(n, sections[first], sections[first + 2])
        })
}

// 4: is the image info at least 8 bytes long?
#[tactic(auto, unfolding(crate::specs::Question::info_whole))]
pub fn info_whole(n: usize) -> bool
    ensures { result ≡ info_whole n }
{
    8 <= n
}

// 5: is the rebase table whole, with at most 16,777,215 records?
pub fn rebases_whole(n: usize) -> bool
    ensures { result ≡ whole_rows rebase_words 16777215 n }
{
    whole_rows(n, Rebase::WORDS, 16_777_215)
}

// 6: is the bind table whole, with at most 16,777,215 records?
pub fn binds_whole(n: usize) -> bool
    ensures { result ≡ whole_rows bind_words 16777215 n }
{
    whole_rows(n, Bind::WORDS, 16_777_215)
}

// 18: has the file number of every segment a lent slice?
#[tactic(auto, unfolding(crate::specs::Question::segment_files))]
pub fn segment_files(image: &Image) -> bool
    ensures { result ≡ segment_files image.now.files image.now.words }
{
    let segments = image.segments;
    every(segments.len() / Segment::WORDS, |i| {
        is_lent(image.files, segments[i * Segment::WORDS + Segment::FILE])
    })
}

// 7, of a record: is the name inside its file? Files and name are two parameters, here and in what else takes these two: the contracts speak of
// any name, not of a record's alone.
#[tactic(auto, unfolding(crate::specs::Question::name_inside))]
pub fn name_inside(files: &[&[u8]], name: Text) -> bool
    ensures { result ≡ name_inside (files_of files) name }
{
    lies_in(file_len(files, name.file), name.offset, 0, name.len)
}

// 14, of a record: is the name UTF-8? Of one outside its file, the bytes that are there; a file that is not lent has none.
#[tactic(auto, unfolding(crate::specs::Question::name_utf8))]
pub fn name_utf8(files: &[&[u8]], name: Text) -> bool
    ensures { result ≡ name_utf8 (files_of files) name }
{
    utf8(name_bytes(files, name))
}

// This and the next two take what they read, the files and the binds, as their contracts say: for all tables a caller who has these two would have
// to make up the other six.
// 18: has the file number of every bind record's name a lent slice?
#[tactic(auto, unfolding(crate::specs::Question::bind_files))]
pub fn bind_files(files: &[&[u8]], binds: &[u64]) -> bool
    ensures { result ≡ bind_files (files_of files) (before binds) }
{
    every(binds.len() / Bind::WORDS, |i| {
        is_lent(files, Bind::at(binds, i).name.file)
    })
}

// 7: is the name of every bind record inside its file?
#[tactic(auto, unfolding(crate::specs::Question::names_inside))]
pub fn names_inside(files: &[&[u8]], binds: &[u64]) -> bool
    ensures { result ≡ names_inside (files_of files) (before binds) }
{
    every(binds.len() / Bind::WORDS, |i| {
        name_inside(files, Bind::at(binds, i).name)
    })
}

// 14: is the name of every bind record UTF-8?
#[tactic(auto, unfolding(crate::specs::Question::names_utf8))]
pub fn names_utf8(files: &[&[u8]], binds: &[u64]) -> bool
    ensures { result ≡ names_utf8 (files_of files) (before binds) }
{
    every(binds.len() / Bind::WORDS, |i| {
        name_utf8(files, Bind::at(binds, i).name)
    })
}

// 8: has the index a word for each head and each record? Not `lies_in`: these are words of the index and no bytes, and each of the four would be made a
// u64.
#[tactic(auto, unfolding(crate::specs::Question::index_fits))]
pub fn index_fits(rebases: usize, binds: usize, words: usize) -> bool
    ensures { result ≡ index_fits rebases binds words }
{
    HEADS <= words && rebases <= words - HEADS && binds <= words - HEADS - rebases
}

// 1 to 6, in order; 18 of every segment after 2.
#[tactic(auto, unfolding(crate::specs::Question::asked_tables), using(crate::proofs::Questions::in_order))]
pub fn ask_tables(tables: &Tables) -> Result<(), Question>
    ensures { answered result ≡ asked_tables tables.now }
{
    let n = longest(tables.files());
    if !image_fits(n) {
        return Err(Question::FileLength);
    }
    if !segments_whole(tables.segments().len()) {
        return Err(Question::SegmentTable);
    }
    if !segment_files(tables.image()) {
        return Err(Question::FileLent);
    }
    if !section_table(tables.sections(), n) {
        return Err(Question::SectionTable);
    }
    if !info_whole(tables.info().len()) {
        return Err(Question::ImageInfoLength);
    }
    if !rebases_whole(tables.rebases().len()) {
        return Err(Question::RebaseTable);
    }
    if !binds_whole(tables.binds().len()) {
        return Err(Question::BindTable);
    }
    Ok(())
}

// 8, of the tables.
#[tactic(auto, unfolding(crate::specs::Question::asked_index, crate::specs::Question::question, reads::specs::Outcome::choose))]
pub(crate) fn ask_index(tables: &Tables) -> Result<(), Question>
    ensures { answered result ≡ asked_index tables.now }
{
    let rebase_count = tables.rebases().len() / Rebase::WORDS;
    let bind_count = tables.binds().len() / Bind::WORDS;
    if index_fits(rebase_count, bind_count, tables.index().len()) {
        return Ok(());
    }
    Err(Question::IndexLength)
}

// 1 to 6, 18 of every segment among them, and 8, in order: what every call after opening asks.
#[tactic(auto, using(crate::proofs::Questions::in_order, std::proofs::lemmas::Result::err_from_is_err_and, crate::proofs::Questions::asked_set), unfolding(crate::specs::Question::asked_lent))]
pub fn ask(tables: &Tables) -> Result<(), Question>
    ensures { answered result ≡ asked tables.now }
{
    ask_tables(tables)?;
    ask_index(tables)
}
