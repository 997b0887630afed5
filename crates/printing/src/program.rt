// The program that lists the bundle on its input (document 01, "The program's listing").
ghost use Rattle.std.specs.Prelude.{◌≡◌, true, [], take};
ghost use Rattle.std.specs.Io.KnownBytes.{Appends};
ghost use Rattle.pointers.specs.Tables.{reading_under};
ghost use Rattle.printing.specs.BundleLent.{tables_lent};
ghost use Rattle.printing.specs.BundleText.{bundle_text};
ghost use Rattle.printing.specs.Pieces.{standing_of, to_come};
ghost use Rattle.printing.specs.Filled.{Fills, Lists};

use crate::bundle::Buffers;
use crate::write::{Written, write_under};
use reads::text::Reading;
use std::io::{Read, Write};

// The bytes of the input: one more than the longest bundle has tells a longer one.
pub const INPUT: usize = 32769;

// The descriptor of standard error, which every program begins with.
const STDERR: i32 = 2;

// How many bytes of a buffer a reader filled, and whether no read failed.
// Not a `Result`: the bytes count in both cases.
#[derive(Clone, Copy)]
pub struct Filled {
    pub len: usize,
    pub whole: bool,
}

// What was read, and how the writing of its listing ended.
#[derive(Clone, Copy)]
pub struct Listed {
    pub input: Filled,
    pub written: Written,
}

// Fills a buffer until it is full, the reader has no more or a read fails.
fn read_full<R: Read>(from: &mut R, to: &mut [u8]) -> Filled
    ensures { Fills (R.remaining from.old) (R.remaining from.new) result to.new }
{
    let mut len = 0;
    // Not a `for`: each read goes on where the last one ended.
    while len < to.len() {
        match from.read(&mut to[len..]) {
            Ok(0) => return Filled { len, whole: true },
            Ok(n) => len += n,
            Err(_) => return Filled { len, whole: false },
        }
    }
    Filled { len, whole: true }
}

// Lists under a reading what the input has, up to the buffer's length. That a write failed, and that the bundle was refused, is said on standard
// error in these words.
pub fn list_input<R: Read, W: Write>(
    from: &mut R,
    to: &mut W,
    reading: Reading,
    unwritten: &[u8],
    refused: &[u8],
    input: &mut [u8; INPUT],
    buffers: &mut Buffers,
) -> Listed
    ensures read { Fills (R.remaining from.old) (R.remaining from.new) result.input input.new }
    ensures written { result.written.whole ≡ true → Appends (W.contents to.old) (W.contents to.new) (bundle_text (reading_under reading) (take result.input.len input.new)) }
    ensures whole { let t = tables_lent (take result.input.len input.new) buffers.new.words buffers.new.index in
        (result.written.whole ≡ true → to_come t (standing_of result.written.progress buffers.new.ledger) ≡ []) }
{
    let filled = read_full(from, input);
    let written = write_under(to, reading, &input[..filled.len], buffers);
    let end = written.progress;
    if !written.whole {
        io::write_all(STDERR, unwritten);
    } else if end.refused() {
        io::write_all(STDERR, refused);
    }
    Listed {
        input: filled,
        written,
    }
}

// The same with buffers of its own: all that a program does with its input.
pub fn list_whole<R: Read, W: Write>(
    from: &mut R,
    to: &mut W,
    reading: Reading,
    unwritten: &[u8],
    refused: &[u8],
) -> Listed
    ensures { Lists (R.remaining from.old) (R.remaining from.new) (W.contents to.old) (W.contents to.new) (reading_under reading) result }
{
    let mut input = [0u8; INPUT];
    let mut buffers = Buffers::new();
    list_input(
        from,
        to,
        reading,
        unwritten,
        refused,
        &mut input,
        &mut buffers,
    )
}
