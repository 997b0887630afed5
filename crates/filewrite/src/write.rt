// Writes the text of a file's listing piece by piece. What reaches the reader of a file descriptor is the operating system's.
ghost use Rattle.std.specs.Prelude.{◌≡◌, ◌≢◌, true, [], drop};
ghost use Rattle.std.specs.Io.KnownBytes.{Appends};
ghost use Rattle.reads.specs.Reference.{before};
ghost use Rattle.reads.specs.declared.text.Reading.TheVariants.{New};
ghost use Rattle.listing.specs.ListingAnswer.{said_of};
ghost use Rattle.printing.specs.Pieces.{standing_of, to_come, begun, handed_of, piece_of};
ghost use Rattle.macho.specs.OpenFile.{Kept, buffers};
ghost use Rattle.filelist.specs.FileText.{file_setting};
ghost use Rattle.filelist.specs.FileLent.{framed_lent, buffers_after, tables_opened};
ghost use Rattle.printing.specs.Written.{HandedOver};
ghost use Rattle.filewrite.specs.Written.{piece_bytes, end_of, Written, tables_given, tables_left};
ghost use Rattle.reads.specs.Answer.{outcome};

use filelist::file::{FileListing, Opened, list_file_under, next_piece};
use frames::frames::Ranges;
use listing::listing::Said;
use macho::open::Lent;
use printing::descriptor::Descriptor;
use printing::pieces::{Piece, Progress};
use printing::write;
use reads::answer::Question;
use reads::text::Reading;
use std::io::Write;

// How the writing of a listing ended: status 0, the whole listing was written; 1, the file was refused, by the number; 3, a write failed.
// Numbers, and no enum or Result, also inside: `objclist_write` of face hands this struct to C as it is.
#[repr(C)]
#[derive(Clone, Copy)]
pub struct Wrote {
    pub status: u64,
    pub number: u64,
}

impl Wrote {
    pub const LISTED: u64 = 0;

    pub const REFUSED: u64 = 1;

    pub const FAILED: u64 = 3;
}

// The next piece, into a buffer of this length: here the number takes the place of `length out` once, and not at each step of the loop. Printing's
// `next_piece` does the same for its own array, over a bundle.
// `progress`, `opened`, `ledger` and `out` come one by one: `opened` is only read and `progress` is the last piece's; a struct of them would be lent
// to be written whole, and promise that `opened` stays.
fn whole_piece(
    progress: Progress,
    opened: &Opened,
    ledger: &mut [u64],
    out: &mut [u8; 65536],
) -> Piece
    ensures piece { let t = tables_opened opened.now in
        handed_of result ledger.new out.new ≡ piece_of t (standing_of progress ledger.old) piece_bytes out.old }
    ensures rest { let t = tables_opened opened.now in
        to_come t (standing_of result.progress ledger.new) ≡ drop piece_bytes (to_come t (standing_of progress ledger.old)) }
{
    next_piece(progress, opened, ledger, out)
}

// Hands all pieces that are still to come to the writer; after a write that failed nothing more.
// Not one function with printing's over a closure that gives the next piece: two crates would call it, so that it would be public, and the loop ends only
// where the closure's pieces are a text's, which it would have to ask (`requires`); no public function asks anything of its callers. A trait that has
// that as its law would take two impls with their ghosts, longer than the loop.
fn write_pieces<W: Write>(
    to: &mut W,
    start: Progress,
    opened: &Opened,
    ledger: &mut [u64],
    out: &mut [u8; 65536],
) -> write::Written
    ensures handed { let t = tables_opened opened.now in
        HandedOver piece_bytes t (standing_of start ledger.old) out.old (standing_of result.progress ledger.new) out.new }
    ensures written { let t = tables_opened opened.now in
        (result.whole ≡ true → Appends (W.contents to.old) (W.contents to.new) (to_come t (standing_of start ledger.old))) }
    ensures whole { let t = tables_opened opened.now in
        (result.whole ≡ true → to_come t (standing_of result.progress ledger.new) ≡ []) }
{
    let mut progress = start;
    // Not a `for`: each piece comes from where the last one left the printing; an empty one or a failed write ends it.
    loop {
        let piece = whole_piece(progress, opened, ledger, out);
        let len = piece.len;
        progress = piece.progress;
        if len == 0 {
            return write::Written {
                whole: true,
                progress,
            };
        }
        if to.write_all(&out[0..len]).is_err() {
            return write::Written {
                whole: false,
                progress,
            };
        }
    }
}

// Hands all pieces of a listing that is begun to the writer.
fn write_opened<'a, W: Write>(
    to: &mut W,
    listing: FileListing,
    file: &'a [u8],
    lent: &'a Lent<'a, 'a>,
    ledger: &mut [u64],
    out: &mut [u8; 65536],
) -> write::Written
    ensures handed { let t = tables_given (outcome listing.answer) (before file) lent.now in
        HandedOver piece_bytes t (standing_of listing.progress ledger.old) out.old (standing_of result.progress ledger.new) out.new }
    ensures written { let t = tables_given (outcome listing.answer) (before file) lent.now in
        (result.whole ≡ true → Appends (W.contents to.old) (W.contents to.new) (to_come t (standing_of listing.progress ledger.old))) }
    ensures whole { let t = tables_given (outcome listing.answer) (before file) lent.now in
        (result.whole ≡ true → to_come t (standing_of result.progress ledger.new) ≡ []) }
{
    let opened = Opened {
        answer: listing.answer,
        file,
        segments: lent.segments,
        sections: lent.sections,
        rebases: lent.rebases,
        binds: lent.binds,
        index: lent.index,
    };
    write_pieces(to, listing.progress, &opened, ledger, out)
}

// How a listing ended whose text was handed over to its end, by what its last step said.
fn ended(said: Result<Said, Question>) -> Wrote
    ensures { result ≡ end_of (said_of said) }
{
    match said {
        Ok(_) => Wrote {
            status: Wrote::LISTED,
            number: 0,
        },
        Err(k) => Wrote {
            status: Wrote::REFUSED,
            number: k.number() as u64,
        },
    }
}

// Hands the listing of a file, under the new reading and with its methods marked for these ranges, if any are given, to the writer; of a refused
// file `refused` and the number.
fn write_file_to<W: Write>(
    to: &mut W,
    ranges: Option<Ranges>,
    file: &[u8],
    lent: &mut Lent,
    ledger: &mut [u64],
    out: &mut [u8; 65536],
) -> Wrote
    ensures kept { Kept lent.old lent.new }
    ensures written { let start = begun (file_setting New lent.old.rebases.now) (framed_lent ranges (before file) lent.old) in
        Written (tables_left ranges (before file) lent.old) (start ledger.old) out.old result ledger.new out.new }
    ensures held { let start = begun (file_setting New lent.old.rebases.now) (framed_lent ranges (before file) lent.old) in
        (result.status ≢ 3 → Appends (W.contents to.old) (W.contents to.new) (to_come (tables_left ranges (before file) lent.old) (start ledger.old))) }
    ensures left { buffers lent.new ≡ buffers_after ranges (before file) lent.old }
{
    let listing = list_file_under(Reading::New, ranges, file, lent);
    let pieces = write_opened(to, listing, file, lent, ledger, out);
    if !pieces.whole {
        return Wrote {
            status: Wrote::FAILED,
            number: 0,
        };
    }
    let progress = pieces.progress;
    let said = progress.said;
    ended(said)
}

// The same to a file descriptor.
pub fn write_file(
    fd: i32,
    ranges: Option<Ranges>,
    file: &[u8],
    lent: &mut Lent,
    ledger: &mut [u64],
    out: &mut [u8; 65536],
) -> Wrote
    ensures kept { Kept lent.old lent.new }
    ensures written { let start = begun (file_setting New lent.old.rebases.now) (framed_lent ranges (before file) lent.old) in
        Written (tables_left ranges (before file) lent.old) (start ledger.old) out.old result ledger.new out.new }
    ensures left { buffers lent.new ≡ buffers_after ranges (before file) lent.old }
{
    write_file_to(
        &mut Descriptor { fd, ended: false },
        ranges,
        file,
        lent,
        ledger,
        out,
    )
}
