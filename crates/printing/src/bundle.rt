// The listing of a bundle: its tables are decoded, opened, and its text handed out piece by piece. Each call writes nothing with its own
// number. The buffers' sizes are those of the longest bundle, 32,768 bytes.
// The buffers come one by one where a call fills some and only reads others: what it reads is `&` and what it fills is `&mut`, so its type says what stays.
// Were they one struct, each such call would promise of all its other buffers that they stay. A whole listing fills all: it is lent `Buffers`.
ghost use Rattle.std.specs.Prelude.{◌≡◌, [], ◌∷◌, length, drop, MatchResult};
ghost use Rattle.reads.specs.Reference.{before};
ghost use Rattle.reads.specs.Files.{files_lent, files_of};
ghost use Rattle.listing.specs.Bundle.{Accepted, bundle_counts, bundled_files};
ghost use Rattle.printing.specs.BundleText.{index_words};
ghost use Rattle.printing.specs.BundleLent.{cleared, piece_size, table_words, words_after, tables_over, opening_in, index_after, tables_lent};
ghost use Rattle.printing.specs.Pieces.{standing_of, to_come, handed_of, piece_of};
ghost use Rattle.reads.specs.Answer.{answered, outcome};
ghost use Rattle.reads.specs.Outcome.{refused, value};
ghost use Rattle.pointers.specs.Tables.{tables_of, with_index};

use crate::pieces::{Piece, Progress};
use listing::bundle::{Counts, measure, ranges_of, words_at};
use marking::framed::{Framed, open_framed};
use pointers::index::HEADS;
use pointers::section::ObjcSection;
use pointers::setting::Setting;
use pointers::tables::Tables;
use reads::answer::{Missing, Question};
use reads::place::Image;

// The words of the tables: at most 4,084.
pub const WORDS: usize = 4096;

// The words of the index: at most 8,192 + 2,034.
pub const INDEX: usize = 10240;

// The words of the ledger: the two lists of a section walk have at most 8,138 slots.
pub const LEDGER: usize = 8192;

// The bytes of a piece of the text.
pub const PIECE: usize = 4096;

// What a whole listing fills: the words of the tables, the index, the ledger, and the text on its way out. The input is no field: a part of it is lent
// to be read while these are filled.
#[derive(Drop)]
pub struct Buffers {
    pub words: [u64; WORDS],
    pub index: [u32; INDEX],
    pub ledger: [u64; LEDGER],
    pub out: [u8; PIECE],
}

impl Buffers {
    // All zeros.
    pub fn new() -> Buffers
        ensures { result ≡ cleared }
    {
        Buffers {
            words: [0; WORDS],
            index: [0; INDEX],
            ledger: [0; LEDGER],
            out: [0; PIECE],
        }
    }
}

// A bundle that question 13 accepts: its bytes, and the counts that they give.
#[derive(Drop)]
struct Bundle<'a> {
    bytes: &'a [u8],
    counts: Counts,
    ghost accepted: { Accepted bytes.now counts },
}

impl<'a> Bundle<'a> {
    // Question 13.
    fn of(bytes: &'a [u8]) -> Result<Bundle<'a>, Question>
        ensures { MatchResult result (λ b. (b.bytes.now ≡ before bytes) × (bundle_counts (before bytes) ≡ value b.counts)) (λ k. bundle_counts (before bytes) ≡ refused k) }
    {
        let counts = measure(bytes)?;
        Ok(Bundle { bytes, counts })
    }

    // The words of its four tables.
    fn table_words(&self) -> usize
        ensures { result ≡ table_words self.now.counts }
    {
        let counts = self.counts;
        counts.segment_words()
            + ObjcSection::TABLE_WORDS
            + counts.rebase_words()
            + counts.bind_words()
    }

    // The words of the index that question 8 asks.
    fn index_words(&self) -> usize
        ensures { result ≡ index_words self.now.counts }
    {
        HEADS + self.counts.rebases as usize + self.counts.binds as usize
    }

    // Its four files.
    fn files(&self) -> [&'a [u8]; 4]
        ensures { files_lent result ≡ bundled_files self.now.bytes.now self.now.counts }
    {
        let counts = self.counts;
        let at1 = counts.image1_at();
        let at2 = counts.image2_at();
        let at3 = counts.image3_at();
        [
            &self.bytes[counts.image0_at()..at1],
            &self.bytes[at1..at2],
            &self.bytes[at2..at3],
            &self.bytes[at3..],
        ]
    }

    // Its tables over files, each its part of the words, with an index.
    fn tables<'b>(
        &self,
        files: &'b [&'b [u8]],
        words: &'b [u64; WORDS],
        index: &'b [u32],
    ) -> Tables<'b>
    where
        'a: 'b,
        ensures { result ≡ with_index (tables_over (files_of files) self.now.bytes.now self.now.counts (before words) []) (before index) }
    {
        let counts = self.counts;
        let first = counts.segment_words();
        let second = first + ObjcSection::TABLE_WORDS;
        let third = second + counts.rebase_words();
        let end = third + counts.bind_words();
        Tables {
            image: Image {
                files,
                segments: &words[0..first],
            },
            sections: &words[first..second],
            info: &self.bytes[Counts::INFO_AT..Counts::SEGMENTS_AT],
            rebases: &words[second..third],
            binds: &words[third..end],
            index,
            setting: Setting::new(),
        }
    }
}

// Question 13; then the words of the bundle's tables.
pub fn decode(input: &[u8], words: &mut [u64; WORDS]) -> Result<Counts, Question>
    ensures outcome { answered result ≡ bundle_counts (before input) }
    ensures contents { words.new ≡ words_after (before input) words.old }
{
    let bundle = Bundle::of(input)?;
    let end = bundle.table_words();
    words_at(bundle.bytes, Counts::SEGMENTS_AT, &mut words[0..end]);
    Ok(bundle.counts)
}

// Question 13; then opening, of the tables that the words hold; then 23.
pub fn open(input: &[u8], words: &[u64; WORDS], index: &mut [u32; INDEX]) -> Result<Framed, Missing>
    ensures outcome { outcome result ≡ opening_in (before input) (before words) index.old }
    ensures contents { index.new ≡ index_after (before input) (before words) index.old }
{
    let bundle = Bundle::of(input)?;
    let files = bundle.files();
    let tables = bundle.tables(&files, words, &[]);
    let end = bundle.index_words();
    open_framed(Some(ranges_of(bundle.bytes)), &tables, &mut index[0..end])
}

// The next piece where there are no tables, and an empty file.
fn piece_of_none(progress: Progress, ledger: &mut [u64], out: &mut [u8]) -> Piece
    ensures piece { let t = tables_of ([] ∷ []) [] [] [] [] [] [] in
        handed_of result ledger.new out.new ≡ piece_of t (standing_of progress ledger.old) (length out.old) out.old }
    ensures rest { let t = tables_of ([] ∷ []) [] [] [] [] [] [] in
        to_come t (standing_of result.progress ledger.new) ≡ drop (length out.old) (to_come t (standing_of progress ledger.old)) }
{
    let files: [&[u8]; 1] = [&[]];
    let tables = Tables {
        image: Image {
            files: &files,
            segments: &[],
        },
        sections: &[],
        info: &[],
        rebases: &[],
        binds: &[],
        index: &[],
        setting: Setting::new(),
    };
    progress.fill(&tables, ledger, out)
}

// The next piece of the text: its length, 0 where nothing is still to come, and where the printing stands after it. A bundle that is not accepted
// has no tables, and an empty file.
pub fn next_piece(
    progress: Progress,
    input: &[u8],
    words: &[u64; WORDS],
    index: &[u32; INDEX],
    ledger: &mut [u64; LEDGER],
    out: &mut [u8; PIECE],
) -> Piece
    ensures piece { let t = tables_lent (before input) (before words) (before index) in
        handed_of result ledger.new out.new ≡ piece_of t (standing_of progress ledger.old) piece_size out.old }
    ensures rest { let t = tables_lent (before input) (before words) (before index) in
        to_come t (standing_of result.progress ledger.new) ≡ drop piece_size (to_come t (standing_of progress ledger.old)) }
{
    match Bundle::of(input) {
        Ok(bundle) => {
            let files = bundle.files();
            let end = bundle.index_words();
            let tables = bundle.tables(&files, words, &index[0..end]);
            progress.fill(&tables, ledger, out)
        }
        Err(_) => piece_of_none(progress, ledger, out),
    }
}
