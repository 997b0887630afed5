// Signed 32-bit offsets, the addresses that they are relative to, and the addresses of slots.
ghost use Rattle.std.specs.Prelude.{◌≡◌};
ghost use Rattle.reads.specs.Reference.{before};
ghost use Rattle.reads.specs.Files.{files_of};
ghost use Rattle.reads.specs.Relative.{signed32, signed_in, signed_at, relative, slot_address};
ghost use Rattle.reads.specs.Answer.{outcome};

use crate::answer::Missing;
use crate::place::{Place, le, readable_at, u32_in};

// The signed number of 32 bits.
#[tactic(auto, using(crate::proofs::TwosLaws::cast_signed32))]
pub fn signed(x: u32) -> i32
    ensures { result ≡ signed32 x }
{
    x.cast_signed()
}

// The signed number of four bytes at an offset of one slice.
#[tactic(auto, using(crate::proofs::Outcomes::outcomes), unfolding(crate::specs::Relative::signed_at))]
pub fn read_i32_le_at(bytes: &[u8], offset: u64) -> Result<i32, Missing>
    ensures { outcome result ≡ signed_at (before bytes) offset }
{
    let p = readable_at(bytes.len() as u64, Place { file: 0, offset }, 4)?;
    Ok(signed(le::<u32>(bytes, p.offset as usize) as u32))
}

// The signed number of four bytes at i bytes from a place; 0 where they do not lie in its file.
#[tactic(auto, unfolding(crate::specs::Relative::signed_in))]
pub fn i32_in(files: &[&[u8]], p: Place, i: u64) -> i32
    ensures { result ≡ signed_in (files_of files) p i }
{
    signed(u32_in(files, p, i))
}

// The address that a signed offset at base_va refers to.
#[tactic(auto, using(crate::proofs::Modulo::extended, crate::proofs::Modulo::modulo64_of_sum), unfolding(crate::specs::Relative::relative))]
pub fn relative_pointer(base_va: u64, offset: i32) -> u64
    ensures { result ≡ relative base_va offset }
{
    base_va.wrapping_add_signed(offset as i64)
}

// The address of slot k of a section at vmaddr: 8 * k wraps too.
#[tactic(auto, using(crate::proofs::Modulo::slot_modulo))]
pub fn slot_address(vmaddr: u64, k: u64) -> u64
    ensures { result ≡ slot_address vmaddr k }
{
    vmaddr.wrapping_add(k.wrapping_mul(8))
}
