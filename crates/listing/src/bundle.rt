// The bundle that the program reads: its counts, the ends of its ranges, where its parts stand, and its little-endian words.
ghost use Rattle.std.specs.Prelude.{◌≡◌, ◌*◌, ◌<◌, true, length};
ghost use Rattle.reads.specs.Reference.{before};
ghost use Rattle.listing.specs.Bundle.{word_from, words_from, ranges_of, segment_table_words, rebase_table_words, bind_table_words, sections_at, rebases_at, binds_at, image0_at, image1_at, image2_at, image3_at, said_length, counts_of, counts_fit, bundle_counts};
ghost use Rattle.reads.specs.Answer.{answered};

use frames::frames::Ranges;
use pointers::section::ObjcSection;
use pointers::table::{Bind, Rebase};
use reads::answer::Question;
use reads::place::u64_from;
use reads::segment::Segment;

// Question 13: the longest bundle. A count above it makes the bundle longer.
const LONGEST: u64 = 32768;

// The counts in front of a bundle.
const COUNTS: u64 = 7;

// Where the four ends stand, after the counts.
const FIRST_FRAME_AT: u64 = 8 * COUNTS;

const LAST_FRAME_AT: u64 = FIRST_FRAME_AT + 8;

const FIRST_SLIDE_AT: u64 = LAST_FRAME_AT + 8;

const LAST_SLIDE_AT: u64 = FIRST_SLIDE_AT + 8;

// How many segments, rebases and binds a bundle has, and how many bytes each of the image's four files. Counts of an
// accepted bundle fit 32 bits, and no sum below passes 64 bits then. Four fields and not `[u32; 4]` with one `image_at(k)`: that would be a sum
// by a loop, with k below 4 in its contract, and what follows from the four places would need it taken apart again.
#[derive(Clone, Copy)]
pub struct Counts {
    pub segments: u32,
    pub rebases: u32,
    pub binds: u32,
    pub image0: u32,
    pub image1: u32,
    pub image2: u32,
    pub image3: u32,
}

impl Counts {
    // Where the image info stands, after the counts and the four ends, and after it the segment table.
    pub const INFO_AT: usize = 88;

    pub const SEGMENTS_AT: usize = 96;

    // The words of the segment table.
    pub fn segment_words(self) -> usize
        ensures { result ≡ segment_table_words self }
    {
        Segment::WORDS * (self.segments as usize)
    }

    // The words of the rebase table.
    pub fn rebase_words(self) -> usize
        ensures { result ≡ rebase_table_words self }
    {
        Rebase::WORDS * (self.rebases as usize)
    }

    // The words of the bind table.
    pub fn bind_words(self) -> usize
        ensures { result ≡ bind_table_words self }
    {
        Bind::WORDS * (self.binds as usize)
    }

    // Where the section table stands.
    pub fn sections_at(self) -> usize
        ensures { result ≡ sections_at self }
    {
        Counts::SEGMENTS_AT + 8 * self.segment_words()
    }

    // Where the rebase table stands.
    pub fn rebases_at(self) -> usize
        ensures { result ≡ rebases_at self }
    {
        self.sections_at() + 8 * ObjcSection::TABLE_WORDS
    }

    // Where the bind table stands.
    pub fn binds_at(self) -> usize
        ensures { result ≡ binds_at self }
    {
        self.rebases_at() + 8 * self.rebase_words()
    }

    // Where file 0 stands.
    pub fn image0_at(self) -> usize
        ensures { result ≡ image0_at self }
    {
        self.binds_at() + 8 * self.bind_words()
    }

    // Where file 1 stands.
    pub fn image1_at(self) -> usize
        ensures { result ≡ image1_at self }
    {
        self.image0_at() + (self.image0 as usize)
    }

    // Where file 2 stands.
    pub fn image2_at(self) -> usize
        ensures { result ≡ image2_at self }
    {
        self.image1_at() + (self.image1 as usize)
    }

    // Where file 3 stands.
    pub fn image3_at(self) -> usize
        ensures { result ≡ image3_at self }
    {
        self.image2_at() + (self.image2 as usize)
    }

    // How long the counts say that the bundle is.
    pub fn said_length(self) -> usize
        ensures { result ≡ said_length self }
    {
        self.image3_at() + (self.image3 as usize)
    }
}

// The word at an offset; 0 where its eight bytes do not lie in the bundle, and no Option: the definition's `word_from` gives a word everywhere. Question
// 13 reads the counts of a shorter bundle so, and refuses it, for the counts and the ends alone are longer; in a bundle that it accepts all eleven lie.
pub fn word_at(bundle: &[u8], offset: u64) -> u64
    ensures { result ≡ word_from (before bundle) offset }
{
    u64_from(bundle, offset, 0)
}

// The four ends after the counts: the first and the last frame, the first and the last slide.
pub fn ranges_of(bundle: &[u8]) -> Ranges
    ensures { result ≡ ranges_of (before bundle) }
{
    Ranges {
        first_frame: word_at(bundle, FIRST_FRAME_AT),
        last_frame: word_at(bundle, LAST_FRAME_AT),
        first_slide: word_at(bundle, FIRST_SLIDE_AT),
        last_slide: word_at(bundle, LAST_SLIDE_AT),
    }
}

// As many words as `to` has, from an offset on.
pub fn words_at(bundle: &[u8], offset: usize, to: &mut [u64])
    ensures { to.new ≡ words_from (before bundle) offset (length to.old) }
{
    let from = offset as u64;
    for (i, word) in to.iter_mut().enumerate() {
        *word = u64_from(bundle, from, (8 * i) as u64);
    }
}

// Whether each of the seven counts is at most 32,768.
fn counts_fit(bundle: &[u8]) -> bool
    ensures { result ≡ counts_fit (before bundle) }
{
    (0..COUNTS).all(|k| word_at(bundle, 8 * k) <= LONGEST)
}

// Count k of seven that fit.
fn count_at(bundle: &[u8], k: u64) -> u32
    requires k_bound { k < 7 }
    requires bundle_value { counts_fit bundle.now ≡ true }
    ensures { result ≡ word_from (before bundle) (8 * k) }
{
    word_at(bundle, 8 * k) as u32
}

// Seven counts that fit.
fn counts_of(bundle: &[u8]) -> Counts
    requires { counts_fit bundle.now ≡ true }
    ensures { result ≡ counts_of (before bundle) }
{
    Counts {
        segments: count_at(bundle, 0),
        rebases: count_at(bundle, 1),
        binds: count_at(bundle, 2),
        image0: count_at(bundle, 3),
        image1: count_at(bundle, 4),
        image2: count_at(bundle, 5),
        image3: count_at(bundle, 6),
    }
}

// 13: is the bundle at most 32,768 bytes long, and exactly as long as its counts say? Then these are its counts. Each
// is small enough before they are summed.
pub fn measure(bundle: &[u8]) -> Result<Counts, Question>
    ensures { answered result ≡ bundle_counts (before bundle) }
{
    let n = bundle.len() as u64;
    if n > LONGEST {
        return Err(Question::BundleLength);
    }
    if !counts_fit(bundle) {
        return Err(Question::BundleLength);
    }
    let counts = counts_of(bundle);
    let said = counts.said_length();
    if said != bundle.len() {
        return Err(Question::BundleLength);
    }
    Ok(counts)
}
