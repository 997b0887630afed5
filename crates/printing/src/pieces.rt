// The text of a listing, handed out piece by piece into a buffer that the caller lends; a line may be cut between pieces.
ghost use Rattle.std.specs.Prelude.{◌<◌, ◌^◌, ◌≡◌, length, drop};
ghost use Rattle.std.proofs.Math.Seq.{paste};
ghost use Rattle.reads.specs.Answer.{missed, outcome};
ghost use Rattle.reads.specs.Files.{files_of, longest};
ghost use Rattle.pointers.specs.Tables.{reading_new, reading_under};
ghost use Rattle.listing.specs.ListingAnswer.{said_of};
ghost use Rattle.listing.proofs.Remaining.{goes_on};
ghost use Rattle.printing.specs.Buffer.{Puts};
ghost use Rattle.printing.specs.Pieces.{said_text, standing_of, stepped, begun, refusing, to_come, handed_of, piece, piece_of, fits, further, listable};

use crate::buffer::Out;
use listing::listing::Said;
use marking::framed::Framed;
use marking::marked_listing::MarkedListing;
use pointers::asked::Asked;
use pointers::question::image_fits;
use pointers::setting::Setting;
use pointers::tables::Tables;
use reads::answer::{Missing, Question};
use reads::files::longest;
use reads::text::Reading;

// Where the printing of a listing stands: what the last step said, or the question that refused it, how many bytes of its text are out, and the
// listing after it.
#[derive(Clone, Copy)]
pub struct Progress {
    pub said: Result<Said, Question>,
    pub out: usize,
    pub listing: MarkedListing,
}

// The length of a piece, and where the printing stands after it. The length is 0 exactly where nothing is still to come or the buffer lent has no room,
// and no Option: callers take so many bytes of the buffer, and test for 0 as after `read`; None and Some(0) would be two answers of one meaning.
#[derive(Clone, Copy)]
pub struct Piece {
    pub len: usize,
    pub progress: Progress,
}

// The text of what a step said.
#[tactic(auto, using(crate::proofs::Puts::puts_nothing))]
fn said_text(files: &[&[u8]], said: Result<Said, Question>, out: &mut Out)
    ensures { Puts out.old (said_text (files_of files) (said_of said)) out.new }
{
    match said {
        Ok(Said::Line(line)) => out.line(files, line),
        Ok(Said::Absent(_) | Said::Nothing | Said::Ended) => {}
        Err(k) => out.refused(k),
    }
}

// Whether the listing goes on after what was said.
fn goes_on(said: Result<Said, Question>) -> bool
    ensures { result ≡ goes_on (said_of said) }
{
    match said {
        Ok(Said::Ended) => false,
        Ok(_) => true,
        Err(_) => false,
    }
}

impl Progress {
    // The start under the new reading, by what opening answered.
    pub fn new(answer: Result<Framed, Missing>) -> Progress
        ensures { standing_of result ≡ begun reading_new (outcome answer) }
    {
        Progress::under(Reading::New, answer)
    }

    // The same under either reading.
    pub fn under(reading: Reading, answer: Result<Framed, Missing>) -> Progress
        ensures { standing_of result ≡ begun (reading_under reading) (outcome answer) }
    {
        Progress::starting(Setting::under(reading), answer)
    }

    // The same under any setting.
    pub fn starting(setting: Setting, answer: Result<Framed, Missing>) -> Progress
        ensures { standing_of result ≡ begun setting (outcome answer) }
    {
        match answer {
            Ok(framed) => {
                let frames = framed.frames;
                Progress {
                    said: Ok(Said::Nothing),
                    out: 0,
                    listing: MarkedListing::starting(setting, frames),
                }
            }
            Err(m) => Progress::over(setting, m),
        }
    }

    // With nothing to come but the number that refused, if one did.
    fn over(setting: Setting, m: Missing) -> Progress
        ensures { standing_of result ≡ begun setting (missed m) }
    {
        let listing = MarkedListing::starting(setting, None);
        let said = match m {
            Missing::Absent(_) => Ok(Said::Ended),
            Missing::Refused(k) => Err(k),
        };
        Progress {
            said,
            out: 0,
            listing,
        }
    }

    // Whether the last step, or opening, was refused by a question.
    pub fn refused(self) -> bool
        ensures { result ≡ refusing (said_of self.said) }
    {
        self.said.is_err()
    }

    // The next step of the listing; inlined as that is.
    #[inline(always)]
    fn step(&mut self, asked: &Asked, ledger: &mut [u64])
        ensures { let t = asked.now.tables in
            standing_of self.new ledger.new ≡ stepped t (standing_of self.old ledger.old) }
    {
        self.said = self.listing.step(asked, ledger);
        self.out = 0;
    }

    // What waits, as far as the buffer has room after its first `at` bytes; how many of its bytes are taken then.
    fn hand_out(&mut self, tables: &Tables, out: &mut [u8], at: usize) -> usize
        requires { longest tables.now.files < 2 ^ 32 }
        ensures piece { piece result self.new ≡ further self.old at (fits tables.now.files self.old out.old at) }
        ensures bytes { out.new ≡ paste out.old at (drop self.old.out (said_text tables.now.files (said_of self.old.said))) (fits tables.now.files self.old out.old at) }
    {
        let mut taker = Out {
            to: out,
            skip: self.out,
            at,
        };
        said_text(tables.files(), self.said, &mut taker);
        let len = taker.at;
        self.out += len - at;
        len
    }

    // What waits and then what the next steps say, until the buffer is full or the listing is over.
    pub(crate) fn fill(self, tables: &Tables, ledger: &mut [u64], out: &mut [u8]) -> Piece
        requires { longest tables.now.files < 2 ^ 32 }
        ensures piece { let t = tables.now in
            handed_of result ledger.new out.new ≡ piece_of t (standing_of self ledger.old) (length out.old) out.old }
        ensures rest { let t = tables.now in
            to_come t (standing_of result.progress ledger.new) ≡ drop (length out.old) (to_come t (standing_of self ledger.old)) }
    {
        let asked = Asked::of(tables);
        let mut progress = self;
        let mut len = 0;
        // Not a `for`: what a step said tells whether another comes.
        loop {
            len = progress.hand_out(tables, out, len);
            if out.len() <= len {
                return Piece { len, progress };
            }
            if !goes_on(progress.said) {
                return Piece { len, progress };
            }
            progress.step(&asked, ledger);
        }
    }

    // The next piece of a listing over these tables: its length, 0 where nothing is still to come, and where the printing stands after it.
    // Over files that question 1 refuses no listing is begun; they count as one empty file.
    pub fn next_piece(self, tables: &Tables, ledger: &mut [u64], out: &mut [u8]) -> Piece
        ensures piece { let t = listable tables.now in
            handed_of result ledger.new out.new ≡ piece_of t (standing_of self ledger.old) (length out.old) out.old }
        ensures rest { let t = listable tables.now in
            to_come t (standing_of result.progress ledger.new) ≡ drop (length out.old) (to_come t (standing_of self ledger.old)) }
    {
        let files = tables.files();
        if !image_fits(longest(files)) {
            let empty = &tables.info()[0..0];
            let none = [empty];
            return self.fill(&tables.over(&none), ledger, out);
        }
        self.fill(tables, ledger, out)
    }
}
