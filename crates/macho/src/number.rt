// Numbers in bytes, in little-endian order.
ghost use Rattle.std.specs.Prelude.{◌≡◌, ◌+◌, ◌<◌, ◌^◌};
ghost use Rattle.reads.specs.Reference.{before};
ghost use Rattle.macho.specs.Number.{u32_at};

use reads::place::u32_from;

// The number of four bytes at i bytes from an offset, in a word of 64 bits; 0 where they do not lie in the bytes: the definition's number is
// total, and a caller for whom 0 will not do asks first, so that no reader of a command or a header handles an Option.
pub fn field32(bytes: &[u8], at: u64, i: u64) -> u64
    ensures { (result ≡ u32_at (before bytes) (at + i)) × (result < 2 ^ 32) }
{
    u64::from(u32_from(bytes, at, i))
}
