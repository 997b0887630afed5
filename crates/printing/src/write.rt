// Writes the text of a listing piece by piece. What reaches the reader is the writer's.
ghost use Rattle.std.specs.Prelude.{◌≡◌, true, []};
ghost use Rattle.std.specs.Io.KnownBytes.{Appends};
ghost use Rattle.reads.specs.Reference.{before};
ghost use Rattle.pointers.specs.Tables.{reading_under};
ghost use Rattle.printing.specs.BundleLent.{piece_size, tables_lent};
ghost use Rattle.printing.specs.BundleText.{bundle_text};
ghost use Rattle.printing.specs.Pieces.{standing_of, to_come};
ghost use Rattle.printing.specs.Written.{HandedOver};

use crate::bundle::{Buffers, INDEX, LEDGER, PIECE, WORDS, decode, next_piece, open};
use crate::pieces::Progress;
use reads::text::Reading;
use std::io::Write;

// Whether every write went well, and where the printing stands.
// Not a `Result`: where it stands counts in both cases.
#[derive(Clone, Copy)]
pub struct Written {
    pub whole: bool,
    pub progress: Progress,
}

// Writes all pieces that are still to come; after a write that failed nothing more is written.
pub fn write_pieces<W: Write>(
    to: &mut W,
    start: Progress,
    input: &[u8],
    words: &[u64; WORDS],
    index: &[u32; INDEX],
    ledger: &mut [u64; LEDGER],
    out: &mut [u8; PIECE],
) -> Written
    ensures handed { let t = tables_lent (before input) (before words) (before index) in
        HandedOver piece_size t (standing_of start ledger.old) out.old (standing_of result.progress ledger.new) out.new }
    ensures written { let t = tables_lent (before input) (before words) (before index) in
        (result.whole ≡ true → Appends (W.contents to.old) (W.contents to.new) (to_come t (standing_of start ledger.old))) }
    ensures whole { let t = tables_lent (before input) (before words) (before index) in
        (result.whole ≡ true → to_come t (standing_of result.progress ledger.new) ≡ []) }
{
    let mut progress = start;
    // Not a `for`: each piece begins where the last one left the listing, until one is empty or a write fails.
    loop {
        let piece = next_piece(progress, input, words, index, ledger, out);
        let len = piece.len;
        progress = piece.progress;
        if len == 0 {
            return Written {
                whole: true,
                progress,
            };
        }
        if to.write_all(&out[0..len]).is_err() {
            return Written {
                whole: false,
                progress,
            };
        }
    }
}

// Decodes and opens a bundle, and writes its listing under a reading.
pub fn write_under<W: Write>(
    to: &mut W,
    reading: Reading,
    input: &[u8],
    buffers: &mut Buffers,
) -> Written
    ensures written { (result.whole ≡ true → Appends (W.contents to.old) (W.contents to.new) (bundle_text (reading_under reading) (before input))) }
    ensures whole { let t = tables_lent (before input) buffers.new.words buffers.new.index in
        (result.whole ≡ true → to_come t (standing_of result.progress buffers.new.ledger) ≡ []) }
{
    let words = &mut buffers.words;
    let index = &mut buffers.index;
    let ledger = &mut buffers.ledger;
    let out = &mut buffers.out;
    let _ = decode(input, words);
    let start = Progress::under(reading, open(input, words, index));
    write_pieces(to, start, input, words, index, ledger, out)
}
