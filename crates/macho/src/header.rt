// The header of a 64-bit little-endian Mach-O file (loader.h, mach_header_64).
ghost use Rattle.std.specs.Prelude.{◌≡◌};
ghost use Rattle.reads.specs.Reference.{before};
ghost use Rattle.macho.specs.Commands.{headed};

use crate::loader::{MAGIC, MH_MAGIC_64, SIZEOF_MACH_HEADER_64};
use crate::number::field32;

// 15: is there a header, with the magic of a 64-bit little-endian file?
#[tactic(auto, unfolding(crate::specs::Commands::headed, reads::specs::Outcome::choose), using(std::proofs::lemmas::Bool::Decides::nat_tests))]
pub(crate) fn headed(file: &[u8]) -> bool
    ensures { result ≡ headed (before file) }
{
    if (file.len() as u64) < SIZEOF_MACH_HEADER_64 {
        return false;
    }
    field32(file, 0, MAGIC) == MH_MAGIC_64
}
