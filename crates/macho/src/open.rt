// Opening a file (document 02, note 3): asks 15, 16 and the questions of the tables that loader.h defines for it; then fills these
// tables and writes the index.
ghost use Rattle.std.specs.Prelude.{◌≡◌, ◌≤◌, length};
ghost use Rattle.reads.specs.Reference.{before};
ghost use Rattle.reads.specs.Outcome.{value};
ghost use Rattle.pointers.specs.Open.{opening_unless, left_by, opened_index};
ghost use Rattle.macho.specs.Commands.{segments_of};
ghost use Rattle.macho.specs.OpenFile.{Kept, asked_lent, asked_file, opening_lent, opening_lent_unless, tables_over, buffers, indexed_by, buffers_left, buffers_unless};
ghost use Rattle.reads.specs.Answer.{outcome, answered};

use crate::command::{Commands, ask_commands};
use crate::section::{info_section, write_sections};
use crate::segment::{segment_count, write_segments};
use pointers::imageinfo::ImageInfo;
use pointers::open::open_unless;
use pointers::question::image_fits;
use pointers::section::ObjcSection;
use pointers::setting::Setting;
use pointers::tables::Tables;
use reads::answer::{Missing, Question};
use reads::place::{Image, part};
use reads::segment::Segment;

// The most segments that question 2 takes, and the words that are lent for them.
const MOST_SEGMENTS: u64 = 64;

pub const SEGMENT_TABLE_WORDS: usize = 64 * Segment::WORDS;

// An opened file: how many segments it has, its image info, and where the bytes of that lie in the file. Later calls are lent the rows
// of these segments, the section table, and those bytes.
#[derive(Clone, Copy)]
pub struct OpenedFile {
    pub segments: u64,
    pub info: ImageInfo,
    pub info_at: u64,
    pub info_len: u64,
}

// What a caller lends for a file: the first three are written.
#[derive(Drop)]
pub struct Lent<'a, 'b> {
    pub segments: &'a mut [u64],
    pub sections: &'a mut [u64],
    pub index: &'a mut [u32],
    pub rebases: &'b [u64],
    pub binds: &'b [u64],
}

// 1, and what 2 and 3 ask of the buffers lent for the tables.
#[tactic(auto, unfolding(crate::specs::OpenFile::asked_lent), using(pointers::proofs::Questions::in_order, std::proofs::lemmas::Bool::Decides::nat_tests))]
fn ask_lent(file: &[u8], segments: usize, sections: usize) -> Result<(), Question>
    ensures { answered result ≡ asked_lent (before file) segments sections }
{
    if !image_fits(file.len() as u64) {
        return Err(Question::FileLength);
    }
    if segments != SEGMENT_TABLE_WORDS {
        return Err(Question::SegmentTable);
    }
    if segment_count(Commands::of(file)) > MOST_SEGMENTS {
        return Err(Question::SegmentTable);
    }
    if sections != ObjcSection::TABLE_WORDS {
        return Err(Question::SectionTable);
    }
    Ok(())
}

// 15 and 16, then these.
#[tactic(auto, unfolding(crate::specs::OpenFile::asked_file), using(pointers::proofs::Questions::in_order))]
fn ask_file(file: &[u8], segments: usize, sections: usize) -> Result<(), Question>
    ensures { answered result ≡ asked_file (before file) segments sections }
{
    ask_commands(file)?;
    ask_lent(file, segments, sections)
}

// Opens over the tables that would be filled: they are made here, so that nothing lent but the index is written. `Kept` is said in each
// function, here and below, because it tells of `lent` before and after, where an invariant tells of one value.
fn open_tables(
    file: &[u8],
    cmds: Commands,
    info: &[u8],
    lent: &mut Lent,
    last: Result<(), Question>,
) -> Result<ImageInfo, Missing>
    requires { length (segments_of cmds.bytes.now cmds.count) ≤ 64 }
    ensures kept { Kept lent.old lent.new }
    ensures outcome { let t = tables_over (before file) cmds.entry.bytes.now cmds.entry.count (before info) lent.old in
        outcome result ≡ opening_unless (answered last) t }
    ensures left { let t = tables_over (before file) cmds.entry.bytes.now cmds.entry.count (before info) lent.old in
        buffers lent.new ≡ indexed_by lent.old (left_by (answered last) (opened_index t) t.index) }
{
    let mut segments = [0u64; SEGMENT_TABLE_WORDS];
    write_segments(cmds, &mut segments);
    let words = Segment::WORDS * segment_count(cmds) as usize;
    let mut sections = [0u64; ObjcSection::TABLE_WORDS];
    write_sections(cmds, &mut sections);
    let files = [file];
    let tables = Tables {
        image: Image {
            files: &files,
            segments: &segments[0..words],
        },
        sections: &sections,
        info,
        rebases: lent.rebases,
        binds: lent.binds,
        index: &[],
        setting: Setting::new(),
    };
    open_unless(&tables, lent.index, last)
}

// Opens over the tables for the file; then fills them into what is lent.
fn fill_file(
    file: &[u8],
    lent: &mut Lent,
    last: Result<(), Question>,
) -> Result<OpenedFile, Missing>
    requires { asked_file file.now (length lent.old.segments.now) (length lent.old.sections.now) ≡ value tt }
    ensures kept { Kept lent.old lent.new }
    ensures outcome { outcome result ≡ opening_lent_unless (answered last) (before file) lent.old }
    ensures left { buffers lent.new ≡ buffers_unless (answered last) (before file) lent.old }
{
    let cmds = Commands::of(file);
    let section = info_section(cmds);
    let info = part(file, section.offset, section.size);
    let i = open_tables(file, cmds, info, lent, last)?;
    write_segments(cmds, lent.segments);
    write_sections(cmds, lent.sections);
    Ok(OpenedFile {
        segments: segment_count(cmds),
        info: i,
        info_at: section.offset,
        info_len: info.len() as u64,
    })
}

// The file's tables filled, with the index written; or the number of the first question that says no, with nothing written.
#[tactic(auto, unfolding(crate::specs::OpenFile::opening_file, pointers::specs::Open::opening))]
pub fn open_file(file: &[u8], lent: &mut Lent) -> Result<OpenedFile, Missing>
    ensures kept { Kept lent.old lent.new }
    ensures outcome { outcome result ≡ opening_lent (before file) lent.old }
    ensures left { buffers lent.new ≡ buffers_left (before file) lent.old }
{
    open_file_unless(file, lent, Ok(()))
}

// The same for a caller that asks a question of its own, which is then the last to be asked before anything is written: `last` is what it says.
pub fn open_file_unless(
    file: &[u8],
    lent: &mut Lent,
    last: Result<(), Question>,
) -> Result<OpenedFile, Missing>
    ensures kept { Kept lent.old lent.new }
    ensures outcome { outcome result ≡ opening_lent_unless (answered last) (before file) lent.old }
    ensures left { buffers lent.new ≡ buffers_unless (answered last) (before file) lent.old }
{
    ask_file(file, lent.segments.len(), lent.sections.len())?;
    fill_file(file, lent, last)
}
