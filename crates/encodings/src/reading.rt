// A text read to its end, and the words of its outermost types.
ghost use Rattle.reads.specs.Reference.{before};
ghost use Rattle.encodings.specs.Parser.{offset_of, Ordered, RowPut, Read};
ghost use Rattle.reads.specs.Answer.{outcome};

use crate::kept::{Mode, Parser};
use reads::answer::Missing;

// Puts the words of type k, which starts at `start`, has its frame offset where the mode says, and ends at `end`, if they fit.
#[tactic(auto, using(crate::proofs::Rows::row_put))]
fn put_row(mode: Mode, start: usize, k: usize, end: usize, buffer: &mut [u64])
    requires { Ordered start (offset_of mode) end }
    ensures { RowPut k start (offset_of mode) end buffer.old buffer.new }
{
    if buffer.len() / 4 <= k {
        return;
    }
    let offset = mode.offset();
    let mid = offset.unwrap_or(end);
    let row = [
        start as u64,
        (mid - start) as u64,
        offset.unwrap_or(0) as u64,
        (end - mid) as u64,
    ];
    buffer[4 * k..4 * k + 4].copy_from_slice(&row);
}

// How many outermost types a text has; the words of those that fit are put into the buffer. It stops at the byte that decides.
#[tactic(auto, using(crate::proofs::Reached::reached_first, crate::proofs::Reached::reached_on, crate::proofs::Reached::reached_begun))]
pub fn read_types(text: &[u8], buffer: &mut [u64]) -> Result<u64, Missing>
    ensures { Read (before text) buffer.old (outcome result) buffer.new }
{
    let mut p = Parser::first();
    let mut types = 0;
    for (i, byte) in text.iter().enumerate() {
        let (mode, start) = (p.mode, p.start);
        p.step(*byte, i)?;
        // The next type begins at this byte, or the same goes on.
        if p.start == start {
            continue;
        }
        put_row(mode, start, types, i, buffer);
        // Counted by hand: an iterator over types has this loop, its state and `?` in its `next`, and a flag for the last, which the
        // text's end ends.
        types += 1;
    }
    p.finish()?;
    put_row(p.mode, p.start, types, text.len(), buffer);
    Ok((types + 1) as u64)
}
