// Rows of ivar lists (objc-runtime-new.h, ivar_t).
ghost use Rattle.std.specs.Prelude.{◌≡◌, Some};
ghost use Rattle.reads.specs.Outcome.{value, and_then};
ghost use Rattle.reads.specs.Answer.{outcome};
ghost use Rattle.records.specs.Row.{alignment_of, aligned_of, decode_offset_there, offset_at, ivar_at};
ghost use Rattle.records.specs.Decode.{run};
ghost use Rattle.records.specs.Near.{OfSize};
ghost use Rattle.records.specs.Header.{ivar_size};

use crate::near::Near;
use crate::text::string_pair;
use pointers::tables::Tables;
use reads::answer::{Missing, nonzero, optional, or_zero};
use reads::place::{readable, u32_in};
use reads::text::Text;

// A row of an ivar list.
#[derive(Clone, Copy)]
pub struct Ivar {
    pub name: Text,
    pub type_encoding: Text,
    pub offset: Option<u32>,
    pub size: u32,
    pub log2_alignment: Option<u8>,
    pub aligned: Option<bool>,
}

impl Ivar {
    // ivar_t: its size, and its fields (the offset's pointer is at 0).
    pub const SIZE: u64 = 32;

    pub const NAME: u64 = 8;

    pub const TYPE: u64 = 16;

    pub const ALIGNMENT_RAW: u64 = 24;

    pub const OWN_SIZE: u64 = 28;
}

// The alignment: 0xFFFFFFFF gives WORD_SHIFT, 0 to 63 stand, anything else is none.
fn alignment_of(raw: u32) -> Option<u8>
    ensures { result ≡ alignment_of raw }
{
    if raw == 0xFFFF_FFFF {
        return Some(3);
    }
    if raw > 63 {
        return None;
    }
    Some(raw as u8)
}

// Whether the offset has at least as many trailing zero bits as the alignment. Offset 0 has a test of its own: it always does, but its count
// is 32, and alignments go to 63.
#[tactic(auto, using(std::proofs::lemmas::Bool::Decides::nat_tests), unfolding(crate::specs::Row::aligned_of))]
fn aligned_of(offset: Option<u32>, alignment: Option<u8>) -> Option<bool>
    ensures { result ≡ aligned_of offset alignment }
{
    let n = offset?;
    let log2 = alignment?;
    Some(n == 0 || log2 as u32 <= u32::trailing_zeros(n))
}

// The four bytes at the pointed place.
#[tactic(auto, using(reads::proofs::Outcomes::missed_then))]
fn offset_there(tables: &Tables, place: u64) -> Result<u32, Missing>
    ensures { let t = tables.now in
        and_then (outcome result) (λ n. value (Some n)) ≡ run t (decode_offset_there place) }
{
    let va = nonzero(place)?;
    let p = readable(tables.image(), va, 4)?;
    Ok(u32_in(tables.files(), p, 0))
}

// The offset in the four bytes at the pointed place, none if the pointer is 0 or they cannot be read.
#[tactic(auto, unfolding(crate::specs::Row::decode_offset))]
fn offset_at(tables: &Tables, place: u64) -> Result<Option<u32>, Missing>
    ensures { let t = tables.now in
        outcome result ≡ offset_at t place }
{
    Ok(optional(offset_there(tables, place))?)
}

// ivar_t; the offset's place is read last.
#[tactic(auto, using(reads::proofs::Outcomes::missed_then), unfolding(crate::specs::Row::decode_ivar))]
pub(crate) fn ivar_near(row: &Near) -> Result<Ivar, Missing>
    requires { OfSize row.now ivar_size }
    ensures { outcome result ≡ ivar_at row.now.tables.now row.now.va }
{
    let tables = row.tables();
    let offset_va = or_zero(row.first_slot())?;
    let name_va = row.field(Ivar::NAME)?;
    let type_va = row.field_or_0(Ivar::TYPE)?;
    let raw_alignment = row.u32(Ivar::ALIGNMENT_RAW);
    let size = row.u32(Ivar::OWN_SIZE);
    let texts = string_pair(tables, name_va, type_va);
    let name = texts.first?;
    let type_encoding = texts.second?;
    let offset = offset_at(tables, offset_va)?;
    let log2_alignment = alignment_of(raw_alignment);
    Ok(Ivar {
        name,
        type_encoding,
        offset,
        size,
        log2_alignment,
        aligned: aligned_of(offset, log2_alignment),
    })
}
