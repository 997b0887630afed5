// The listing of a Mach-O file: it is opened over what is lent, and its text handed out piece by piece. Rebases and binds are lent. Of the
// index as many words are used as question 8 asks. With a number, 23 of the ranges last, nothing lent is written, and the text is `refused` and
// that number.
ghost use Rattle.std.specs.Prelude.{◌*◌, ◌≤◌, min, ◌≡◌, None, length, drop};
ghost use Rattle.reads.specs.Answer.{answered, outcome};
ghost use Rattle.reads.specs.Reference.{before};
ghost use Rattle.reads.specs.Segment.{segment_words};
ghost use Rattle.reads.specs.declared.text.Reading.TheVariants.{New};
ghost use Rattle.pointers.specs.Index.{index_length};
ghost use Rattle.pointers.specs.Open.{left_by};
ghost use Rattle.macho.specs.OpenFile.{Kept, opening_file_unless, segments_left, sections_left, index_left, buffers};
ghost use Rattle.marking.specs.Framed.{with_frames};
ghost use Rattle.printing.specs.Pieces.{standing_of, begun, listable, to_come, handed_of, piece_of};
ghost use Rattle.filelist.specs.FileText.{file_setting, info_in, opened_by};
ghost use Rattle.filelist.specs.FileLent.{framed_lent, opening_first, buffers_first, buffers_after, tables_over, tables_opened};

use frames::frames::{Frames, Ranges};
use macho::open::{Lent, OpenedFile, open_file_unless};
use marking::framed::with_frames;
use pointers::imageinfo::ImageInfo;
use pointers::index::HEADS;
use pointers::setting::{Lookup, Setting};
use pointers::sorted::ascends;
use pointers::table::{Bind, Rebase};
use pointers::tables::Tables;
use printing::pieces::{Piece, Progress};
use reads::answer::{Missing, Question};
use reads::place::{Image, part};
use reads::segment::Segment;
use reads::text::Reading;

// A listing that is begun: what opening the file answered, and where the printing stands.
#[derive(Clone, Copy)]
pub struct FileListing {
    pub answer: Result<OpenedFile, Missing>,
    pub progress: Progress,
}

// What the pieces of a listing are read from: the file, what opening it answered, and what was lent for it. The slices are fields, and no `Lent` with
// its `&mut`: pieces only read them, and a caller that holds them to be read alone could then call `next_piece` no more.
#[derive(Drop)]
pub struct Opened<'a> {
    pub answer: Result<OpenedFile, Missing>,
    pub file: &'a [u8],
    pub segments: &'a [u64],
    pub sections: &'a [u64],
    pub rebases: &'a [u64],
    pub binds: &'a [u64],
    pub index: &'a [u32],
}

// The words of the index that question 8 asks, or all that are lent.
fn index_words(rebases: &[u64], binds: &[u64], lent: usize) -> usize
    ensures { result ≡ min (index_length (before rebases) (before binds)) lent }
{
    let asked = HEADS + rebases.len() / Rebase::WORDS + binds.len() / Bind::WORDS;
    asked.min(lent)
}

// The words of so many segments, or all that are lent.
fn segment_words(count: u64, lent: usize) -> usize
    ensures { result ≡ min (segment_words * count) lent }
{
    (Segment::WORDS as u64)
        .saturating_mul(count)
        .min(lent as u64) as usize
}

// The image info of an opened file.
fn info_of(answer: Result<OpenedFile, Missing>) -> Result<ImageInfo, Missing>
    ensures { outcome result ≡ info_in (outcome answer) }
{
    let opened = answer?;
    let info = opened.info;
    Ok(info)
}

// Opens the file over slices; `last`, here and below, is what 23 says of the ranges, which is asked last.
// Not a `Lent`: one made from the fields of another has no proof.
fn open_over(
    file: &[u8],
    segments: &mut [u64],
    sections: &mut [u64],
    index: &mut [u32],
    rebases: &[u64],
    binds: &[u64],
    last: Result<(), Question>,
) -> Result<OpenedFile, Missing>
    ensures outcome { outcome result ≡ opening_file_unless (answered last) (before file) segments.old sections.old (before rebases) (before binds) index.old }
    ensures segments { segments.new ≡ left_by (answered last) (segments_left (before file) segments.old sections.old (before rebases) (before binds) index.old) segments.old }
    ensures sections { sections.new ≡ left_by (answered last) (sections_left (before file) segments.old sections.old (before rebases) (before binds) index.old) sections.old }
    ensures index { index.new ≡ left_by (answered last) (index_left (before file) segments.old sections.old (before rebases) (before binds) index.old) index.old }
{
    let mut lent = Lent {
        segments,
        sections,
        index,
        rebases,
        binds,
    };
    open_file_unless(file, &mut lent, last)
}

// Opens the file over the first words of the index.
// `lent` and `words` are no struct: it would lend `lent` on, and each promise would say that the same is lent still. `Kept` is said in each function
// because it tells of `lent` before and after, where an invariant tells of one value. `words ≤ length lent.old.index.now`, here and below, is of the two
// together, so that only that struct could hold it. `file` comes beside `lent`, here and below, as in `open_file` of macho: of a `&[u8]`
// the type says that it stays, of a field of the `&mut Lent` `Kept` would have to; and header, load commands and image info are read of it alone
// (macho::open), beside nothing lent.
fn open_first(
    file: &[u8],
    lent: &mut Lent,
    words: usize,
    last: Result<(), Question>,
) -> Result<OpenedFile, Missing>
    requires { words ≤ length lent.old.index.now }
    ensures kept { Kept lent.old lent.new }
    ensures outcome { outcome result ≡ opening_first (answered last) words (before file) lent.old }
    ensures left { buffers lent.new ≡ buffers_first (answered last) words (before file) lent.old }
{
    let rebases = lent.rebases;
    let binds = lent.binds;
    let segments = &mut *lent.segments;
    let sections = &mut *lent.sections;
    let index = &mut *lent.index;
    open_over(
        file,
        segments,
        sections,
        &mut index[0..words],
        rebases,
        binds,
        last,
    )
}

// Opens the file over the first words of the index, and begins its listing for these frames.
fn begin(
    setting: Setting,
    frames: Option<Frames>,
    last: Result<(), Question>,
    file: &[u8],
    lent: &mut Lent,
    words: usize,
) -> FileListing
    requires { words ≤ length lent.old.index.now }
    ensures kept { Kept lent.old lent.new }
    ensures answer { outcome result.answer ≡ opening_first (answered last) words (before file) lent.old }
    ensures progress { standing_of result.progress ≡ begun setting (with_frames frames (info_in (outcome result.answer))) }
    ensures left { buffers lent.new ≡ buffers_first (answered last) words (before file) lent.old }
{
    let answer = open_first(file, lent, words, last);
    FileListing {
        answer,
        progress: Progress::starting(setting, with_frames(info_of(answer), frames)),
    }
}

// The setting of a file's listing: rebases by halves where their slots ascend, else by their chains. The text is the same.
fn file_setting(reading: Reading, rebases: &[u64]) -> Setting
    ensures { result ≡ file_setting reading (before rebases) }
{
    if ascends(rebases) {
        return Setting {
            reading,
            lookup: Lookup::Sorted,
        };
    }
    Setting::under(reading)
}

// The listing of a file under a setting, its methods marked for frames and slides in these ranges, if any are given; begun.
fn list_by(setting: Setting, ranges: Option<Ranges>, file: &[u8], lent: &mut Lent) -> FileListing
    ensures kept { Kept lent.old lent.new }
    ensures answer { outcome result.answer ≡ opened_by (before file) (framed_lent ranges (before file) lent.old) }
    ensures progress { standing_of result.progress ≡ begun setting (framed_lent ranges (before file) lent.old) }
    ensures left { buffers lent.new ≡ buffers_after ranges (before file) lent.old }
{
    let words = index_words(lent.rebases, lent.binds, lent.index.len());
    // With a number of 23 nothing is opened, so that the listing begins without frames.
    match Frames::new(ranges) {
        Ok(frames) => begin(setting, frames, Ok(()), file, lent, words),
        Err(k) => begin(setting, None, Err(k), file, lent, words),
    }
}

// The listing of a file under the new reading and without ranges, so that nothing is marked; begun.
pub fn list_file(file: &[u8], lent: &mut Lent) -> FileListing
    ensures kept { Kept lent.old lent.new }
    ensures answer { outcome result.answer ≡ opened_by (before file) (framed_lent None (before file) lent.old) }
    ensures progress { standing_of result.progress ≡ begun (file_setting New lent.old.rebases.now) (framed_lent None (before file) lent.old) }
    ensures left { buffers lent.new ≡ buffers_after None (before file) lent.old }
{
    list_file_under(Reading::New, None, file, lent)
}

// The same under either reading, its methods marked for frames and slides in these ranges, if any are given.
pub fn list_file_under(
    reading: Reading,
    ranges: Option<Ranges>,
    file: &[u8],
    lent: &mut Lent,
) -> FileListing
    ensures kept { Kept lent.old lent.new }
    ensures answer { outcome result.answer ≡ opened_by (before file) (framed_lent ranges (before file) lent.old) }
    ensures progress { standing_of result.progress ≡ begun (file_setting reading lent.old.rebases.now) (framed_lent ranges (before file) lent.old) }
    ensures left { buffers lent.new ≡ buffers_after ranges (before file) lent.old }
{
    list_by(file_setting(reading, lent.rebases), ranges, file, lent)
}

// The next piece over the rows of so many segments and the bytes of an image info.
// `progress`, `opened`, `ledger` and `out` one by one: as at `whole_piece` of filewrite.
fn piece_over<'a>(
    progress: Progress,
    count: u64,
    info: &'a [u8],
    opened: &Opened<'a>,
    ledger: &mut [u64],
    out: &mut [u8],
) -> Piece
    ensures piece { let t = listable (tables_over count (before info) opened.now) in
        handed_of result ledger.new out.new ≡ piece_of t (standing_of progress ledger.old) (length out.old) out.old }
    ensures rest { let t = listable (tables_over count (before info) opened.now) in
        to_come t (standing_of result.progress ledger.new) ≡ drop (length out.old) (to_come t (standing_of progress ledger.old)) }
{
    let words = segment_words(count, opened.segments.len());
    let entries = index_words(opened.rebases, opened.binds, opened.index.len());
    let files = [opened.file];
    let tables = Tables {
        image: Image {
            files: &files,
            segments: &opened.segments[0..words],
        },
        sections: opened.sections,
        info,
        rebases: opened.rebases,
        binds: opened.binds,
        index: &opened.index[0..entries],
        setting: Setting::new(),
    };
    progress.next_piece(&tables, ledger, out)
}

// The next piece of the text: its length, 0 where nothing is still to come, and where the printing stands after it.
pub fn next_piece(progress: Progress, opened: &Opened, ledger: &mut [u64], out: &mut [u8]) -> Piece
    ensures piece { let t = tables_opened opened.now in
        handed_of result ledger.new out.new ≡ piece_of t (standing_of progress ledger.old) (length out.old) out.old }
    ensures rest { let t = tables_opened opened.now in
        to_come t (standing_of result.progress ledger.new) ≡ drop (length out.old) (to_come t (standing_of progress ledger.old)) }
{
    let file = opened.file;
    match opened.answer {
        Ok(o) => {
            let info = part(file, o.info_at, o.info_len);
            piece_over(progress, o.segments, info, opened, ledger, out)
        }
        Err(_) => piece_over(progress, 0, &file[0..0], opened, ledger, out),
    }
}
