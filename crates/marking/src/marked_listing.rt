// A listing with marks (note 11), one step at a time: it is gone over twice, first to meet the starts, of which nothing is said, and then to say
// its lines, each m row with its mark. Without a possible pair nothing is marked, and once is enough.
ghost use Rattle.std.specs.Prelude.{ℕ, ◌≡◌, List, true};
ghost use Rattle.pointers.specs.Tables.{reading_new, reading_under};
ghost use Rattle.listing.specs.ListingAnswer.{said_of, left_in};
ghost use Rattle.marking.specs.MarkedListing.{marked_start, marking_of, marked_left_in, marked_left_of, finds, marked_answer, marked_step};

use crate::marks::{mark, meet};
use frames::frames::Frames;
use listing::listing::{Listing, Said};
use pointers::asked::Asked;
use pointers::setting::Setting;
use pointers::tables::Tables;
use reads::answer::Question;
use reads::text::Reading;

// Whether the starts are still being found; the frames with the starts met so far; and the listing that is gone over. A bool, not an enum of
// the passes whose first has frames for certain: `meet_line`, which is public, takes and gives an Option, as the definition's `met_line`, so that the first
// pass would at each line take its frames out of an answer that is never None. The definition's state has these fields too, one by one.
#[derive(Clone, Copy)]
pub struct MarkedListing {
    finding: bool,
    frames: Option<Frames>,
    listing: Listing,
}

// What a step says, or the question that refuses it, and the listing to go on with; with a question it is as given.
#[derive(Clone, Copy)]
pub struct MarkedListed {
    pub said: Result<Said, Question>,
    pub listing: MarkedListing,
}

// What a step of the second pass says: a line gets its mark.
fn mark_said(frames: Option<Frames>, said: &mut Result<Said, Question>)
    ensures { said_of said.new ≡ marked_answer frames (said_of said.old) }
{
    if let Ok(Said::Line(line)) = said {
        mark(frames, line);
    }
}

impl MarkedListing {
    // The start under the new reading, for frames that have met no start.
    pub fn new(frames: Option<Frames>) -> MarkedListing
        ensures { marking_of result ≡ marked_start reading_new frames }
    {
        MarkedListing::under(Reading::New, frames)
    }

    // The same under either reading.
    pub fn under(reading: Reading, frames: Option<Frames>) -> MarkedListing
        ensures { marking_of result ≡ marked_start (reading_under reading) frames }
    {
        MarkedListing::starting(Setting::under(reading), frames)
    }

    // The same under any setting.
    pub fn starting(setting: Setting, frames: Option<Frames>) -> MarkedListing
        ensures { marking_of result ≡ marked_start setting frames }
    {
        MarkedListing {
            finding: frames.is_some(),
            frames,
            listing: Listing::starting(setting),
        }
    }

    // What the first pass says after a step of the listing: a line's start is met, and after the last line the listing begins anew.
    fn finds(&mut self, said: &Result<Said, Question>) -> Result<Said, Question>
        ensures { self.old.finding ≡ true → (l : List ℕ) → marked_left_in self.new result l ≡ finds self.old.frames (left_in self.old.listing said.now l) }
    {
        match said {
            Ok(Said::Line(line)) => self.frames = meet(self.frames, line),
            Ok(Said::Ended) => {
                self.finding = false;
                self.listing = self.listing.again();
            }
            Ok(_) => {}
            Err(k) => return Err(*k),
        }
        Ok(Said::Nothing)
    }

    // The next step, in place; inlined as the listing's is.
    #[inline(always)]
    pub fn step(&mut self, asked: &Asked, ledger: &mut [u64]) -> Result<Said, Question>
        ensures { let t = asked.now.tables in
            marked_left_in self.new result ledger.new ≡ marked_step t (marking_of self.old) ledger.old }
    {
        let mut said = self.listing.step(asked, ledger);
        if self.finding {
            return self.finds(&said);
        }
        mark_said(self.frames, &mut said);
        said
    }

    // The next step by value, over tables that are asked for it.
    #[inline(always)]
    pub fn next(self, tables: &Tables, ledger: &mut [u64]) -> MarkedListed
        ensures { let t = tables.now in
            marked_left_of result ledger.new ≡ marked_step t (marking_of self) ledger.old }
    {
        let mut listing = self;
        let said = listing.step(&Asked::of(tables), ledger);
        MarkedListed { said, listing }
    }
}
