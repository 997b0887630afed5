// Numbers in the files of an image, at a place and at an address.
ghost use Rattle.std.specs.Prelude.{◌≡◌, ◌+◌, ◌^◌, ◌<◌, ◌≤◌, length, nat_le};
ghost use Rattle.reads.specs.Reference.{before};
ghost use Rattle.reads.specs.Files.{files_of};
ghost use Rattle.reads.specs.Place.{le, be, part, readable_at, readable, le_at, be_at, word, word_in, le_in};
ghost use Rattle.reads.specs.Answer.{outcome};

use crate::answer::{Missing, Reason, because};
use crate::files::{bytes_of, file_len};
use crate::segment::vm_to_file_offset_in;
use std::marker::Model;

// An image, as the reads are lent it: its files, at most four of them, and the words of its segment table.
#[derive(Drop)]
pub struct Image<'a> {
    pub files: &'a [&'a [u8]],
    pub segments: &'a [u64],
}

impl<'a> Model for Image<'a> {
    ghost use Rattle.reads.specs.Files.{files_lent};
    ghost use Rattle.reads.specs.Place.{Image as SpecImage, image_of};

    ghost Value = { SpecImage };

    ghost view = { λ a. image_of (files_lent a.files.now) a.segments.now };
}

// A place in the image: a file, and the offset of a byte in it.
#[derive(Clone, Copy)]
pub struct Place {
    pub file: u64,
    pub offset: u64,
}

// The `len` bytes from an offset on, as many as are there.
#[tactic(auto, using(crate::proofs::Parts::part_by))]
pub fn part(bytes: &[u8], offset: u64, len: u64) -> &[u8]
    ensures bytes { result.now ≡ part (before bytes) offset len }
    ensures fits { offset + length result.now < 2 ^ 64 }
{
    let n = bytes.len() as u64;
    let from = offset.min(n);
    let to = from + len.min(n - from);
    &bytes[from as usize..to as usize]
}

// A place, if k bytes from it lie in its file of n bytes.
#[tactic(auto, unfolding(crate::specs::Place::readable_at, crate::specs::Outcome::choose))]
pub fn readable_at(n: u64, p: Place, k: u64) -> Result<Place, Missing>
    ensures { outcome result ≡ readable_at n p k }
{
    if lies_in(n, p.offset, 0, k) {
        return Ok(p);
    }
    Err(Missing::Absent(Reason::Unreadable))
}

// The place of an address, if k bytes can be read there: only the first byte is looked up.
#[tactic(auto, using(crate::proofs::Outcomes::outcomes), unfolding(crate::specs::Place::readable))]
pub fn readable(image: &Image, va: u64, k: u64) -> Result<Place, Missing>
    ensures { outcome result ≡ readable image.now va k }
{
    let p = because(vm_to_file_offset_in(image.segments, va), Reason::Unreadable)?;
    readable_at(file_len(image.files, p.file), p, k)
}

// A type whose numbers files hold: how many bytes one takes.
pub trait Width {
    ghost use Rattle.std.specs.Prelude.{ℕ};

    ghost BYTES: { ℕ };

    const BYTES: usize;

    ghost fits: { (1 ≤ BYTES) × (BYTES ≤ 8) };
}

impl Width for u16 {
    ghost use Rattle.std.proofs.Common.{refl, leb-true};

    ghost BYTES = { 2 };

    const BYTES: usize = 2;

    ghost fits = { (leb-true 1 2 refl, leb-true 2 8 refl) };
}

impl Width for u32 {
    ghost use Rattle.std.proofs.Common.{refl, leb-true};

    ghost BYTES = { 4 };

    const BYTES: usize = 4;

    ghost fits = { (leb-true 1 4 refl, leb-true 4 8 refl) };
}

impl Width for u64 {
    ghost use Rattle.std.proofs.Common.{refl, leb-true};

    ghost BYTES = { 8 };

    const BYTES: usize = 8;

    ghost fits = { (leb-true 1 8 refl, leb-true 8 8 refl) };
}

// The number of the type's bytes that lie in the slice, in little-endian order. A u64 with its bound, here and in `le_from` and `le_in`, not a W: the
// contract could say the number of a W by a law of the trait alone, so that a conversion and its law in three impls would stand for four `as`.
pub(crate) fn le<W: Width>(bytes: &[u8], at: usize) -> u64
    requires { at + W.BYTES ≤ length bytes.now }
    ensures { (result ≡ le (part (before bytes) at W.BYTES)) × (result < 256 ^ W.BYTES) }
{
    let mut word = [0; 8];
    word[..W::BYTES].copy_from_slice(&bytes[at..at + W::BYTES]);
    u64::from_le_bytes(word)
}

// The number of the type's bytes that lie in the slice, in big-endian order. Not one with `le` over the order: they share the zeros alone.
#[tactic(auto, using(crate::proofs::Numbers::be_copied))]
fn be<W: Width>(bytes: &[u8], at: usize) -> u64
    requires { at + W.BYTES ≤ length bytes.now }
    ensures { result ≡ be (part (before bytes) at W.BYTES) }
{
    let mut word = [0; 8];
    word[8 - W::BYTES..].copy_from_slice(&bytes[at..at + W::BYTES]);
    u64::from_be_bytes(word)
}

// The number of the type's bytes at an offset of one slice.
#[tactic(auto, using(crate::proofs::Outcomes::outcomes), unfolding(crate::specs::Place::le_at))]
pub(crate) fn read_le_at<W: Width>(bytes: &[u8], offset: u64) -> Result<u64, Missing>
    ensures { outcome result ≡ le_at (before bytes) W.BYTES offset }
{
    let p = readable_at(
        bytes.len() as u64,
        Place { file: 0, offset },
        W::BYTES as u64,
    )?;
    Ok(le::<W>(bytes, p.offset as usize))
}

// The same in big-endian order. Not one with read_le_at over the order: they share their first step, and a match on the order, in the body and
// in the contract, would be longer than the second.
#[tactic(auto, using(crate::proofs::Outcomes::outcomes), unfolding(crate::specs::Place::be_at))]
pub fn read_be_at<W: Width>(bytes: &[u8], offset: u64) -> Result<u64, Missing>
    ensures { outcome result ≡ be_at (before bytes) W.BYTES offset }
{
    let p = readable_at(
        bytes.len() as u64,
        Place { file: 0, offset },
        W::BYTES as u64,
    )?;
    Ok(be::<W>(bytes, p.offset as usize))
}

// The number of the type's bytes at an address.
#[tactic(auto, using(crate::proofs::Outcomes::outcomes), unfolding(crate::specs::Place::word))]
pub(crate) fn read<W: Width>(image: &Image, va: u64) -> Result<u64, Missing>
    ensures { outcome result ≡ word image.now W.BYTES va }
{
    let files = image.files;
    let p = readable(image, va, W::BYTES as u64)?;
    let f = p.file as usize;
    let bytes = files[f];
    Ok(le::<W>(bytes, p.offset as usize))
}

// By size, here and below: the five of one slice are the Rust's by name (util.rs, which document 01 names; DECISIONS 9 and its table of names),
// those of an address are its `read_u32` and `read_u64` (mod.rs) and `read_u16` beside them, public before (DECISIONS 9), and a field's reader gives
// the type of its size. `read_be_at` alone is public and generic: universal is generic over the width.

// The number of two bytes at an offset of one slice.
pub fn read_u16_le_at(bytes: &[u8], offset: u64) -> Result<u64, Missing>
    ensures { outcome result ≡ le_at (before bytes) 2 offset }
{
    read_le_at::<u16>(bytes, offset)
}

// The number of four bytes at an offset of one slice.
pub fn read_u32_le_at(bytes: &[u8], offset: u64) -> Result<u64, Missing>
    ensures { outcome result ≡ le_at (before bytes) 4 offset }
{
    read_le_at::<u32>(bytes, offset)
}

// The number of eight bytes at an offset of one slice.
pub fn read_u64_le_at(bytes: &[u8], offset: u64) -> Result<u64, Missing>
    ensures { outcome result ≡ le_at (before bytes) 8 offset }
{
    read_le_at::<u64>(bytes, offset)
}

// The number of four bytes at an offset of one slice, in big-endian order.
pub fn read_u32_be_at(bytes: &[u8], offset: u64) -> Result<u64, Missing>
    ensures { outcome result ≡ be_at (before bytes) 4 offset }
{
    read_be_at::<u32>(bytes, offset)
}

// The number of eight bytes at an offset of one slice, in big-endian order.
pub fn read_u64_be_at(bytes: &[u8], offset: u64) -> Result<u64, Missing>
    ensures { outcome result ≡ be_at (before bytes) 8 offset }
{
    read_be_at::<u64>(bytes, offset)
}

// The number of two bytes at an address.
pub fn read_u16(image: &Image, va: u64) -> Result<u64, Missing>
    ensures { outcome result ≡ word image.now 2 va }
{
    read::<u16>(image, va)
}

// The number of four bytes at an address.
pub fn read_u32(image: &Image, va: u64) -> Result<u64, Missing>
    ensures { outcome result ≡ word image.now 4 va }
{
    read::<u32>(image, va)
}

// The number of eight bytes at an address.
pub fn read_u64(image: &Image, va: u64) -> Result<u64, Missing>
    ensures { outcome result ≡ word image.now 8 va }
{
    read::<u64>(image, va)
}

// Whether k bytes at i bytes from an offset lie in n bytes.
pub fn lies_in(n: u64, from: u64, i: u64, k: u64) -> bool
    ensures { result ≡ nat_le (from + i + k) n }
{
    if n < from {
        return false;
    }
    if n - from < i {
        return false;
    }
    k <= n - from - i
}

// The number of the type's bytes at i bytes from an offset of one slice; 0 where they do not lie in it: the
// definition's number is total, and a caller for whom 0 will not do asks first, so that no reader of a record handles an Option.
#[tactic(auto, using(std::proofs::lemmas::Bool::Decides::nat_tests, crate::proofs::Numbers::positive_power), unfolding(crate::specs::Place::le_in, crate::specs::Outcome::choose))]
pub(crate) fn le_from<W: Width>(bytes: &[u8], offset: u64, i: u64) -> u64
    ensures { (result ≡ le_in (before bytes) W.BYTES (offset + i)) × (result < 256 ^ W.BYTES) }
{
    if lies_in(bytes.len() as u64, offset, i, W::BYTES as u64) {
        return le::<W>(bytes, (offset + i) as usize);
    }
    0
}

// The number of two bytes.
pub fn u16_from(bytes: &[u8], offset: u64, i: u64) -> u16
    ensures { result ≡ le_in (before bytes) 2 (offset + i) }
{
    le_from::<u16>(bytes, offset, i) as u16
}

// The number of four.
pub fn u32_from(bytes: &[u8], offset: u64, i: u64) -> u32
    ensures { result ≡ le_in (before bytes) 4 (offset + i) }
{
    le_from::<u32>(bytes, offset, i) as u32
}

// The number of eight.
pub fn u64_from(bytes: &[u8], offset: u64, i: u64) -> u64
    ensures { result ≡ le_in (before bytes) 8 (offset + i) }
{
    le_from::<u64>(bytes, offset, i)
}

// The number of the type's bytes at i bytes from a place; 0 where they do not lie in its file.
#[tactic(auto, unfolding(crate::specs::Place::word_in))]
pub(crate) fn le_in<W: Width>(files: &[&[u8]], p: Place, i: u64) -> u64
    ensures { (result ≡ word_in (files_of files) W.BYTES p i) × (result < 256 ^ W.BYTES) }
{
    le_from::<W>(bytes_of(files, p.file), p.offset, i)
}

// The number of four bytes.
pub fn u32_in(files: &[&[u8]], p: Place, i: u64) -> u32
    ensures { result ≡ word_in (files_of files) 4 p i }
{
    le_in::<u32>(files, p, i) as u32
}

// The number of eight.
pub fn u64_in(files: &[&[u8]], p: Place, i: u64) -> u64
    ensures { result ≡ word_in (files_of files) 8 p i }
{
    le_in::<u64>(files, p, i)
}
