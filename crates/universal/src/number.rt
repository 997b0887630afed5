// Numbers in bytes, in big-endian order: at an offset, in a word of 64 bits, 0 where they do not lie in the bytes: the definition's number is total,
// and who reads a field of a table asks first whether it lies in the file, so that no reader handles an Option.
ghost use Rattle.std.specs.Prelude.{◌≡◌};
ghost use Rattle.reads.specs.Reference.{before};
ghost use Rattle.universal.specs.Number.{be_in};

use reads::place::{Width, read_be_at};

// The number of the type's bytes.
#[tactic(auto, using(crate::proofs::Numbers::be_or_zero))]
pub(crate) fn be_in<W: Width>(bytes: &[u8], at: u64) -> u64
    ensures { result ≡ be_in (before bytes) W.BYTES at }
{
    read_be_at::<W>(bytes, at).unwrap_or(0)
}
