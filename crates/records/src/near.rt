// A record or row whose bytes can be read: they are held, and its fields are read from them.
ghost use Rattle.std.specs.Prelude.{◌≡◌, ◌<◌, ◌≤◌, ◌+◌, length};
ghost use Rattle.reads.specs.Reference.{before};
ghost use Rattle.reads.specs.Outcome.{value, or_zero};
ghost use Rattle.reads.specs.Files.{file_of};
ghost use Rattle.reads.specs.Place.{part};
ghost use Rattle.reads.specs.Spot.{readable_spot};
ghost use Rattle.pointers.specs.Tables.{image_in};

use pointers::slot::{is_near, resolve_pointer};
use pointers::tables::Tables;
use reads::address::Address;
use reads::answer::{Missing, checked_add, or_zero};
use reads::place::{Place, read_u64, u32_from, u64_from};
use reads::relative::signed;
use reads::spot::{Spot, readable_spot};

// The tables, the address of the record or row, the spot of its bytes, and these.
#[derive(Clone, Copy)]
pub(crate) struct Near<'a> {
    tables: &'a Tables<'a>,
    va: u64,
    spot: Spot,
    bytes: &'a [u8],
    ghost found: { readable_spot (image_in tables.now) va (length bytes.now) ≡ value spot },
    ghost there: { bytes.now ≡ part (file_of tables.now.files spot.place.file) spot.place.offset (length bytes.now) },
}

// The n bytes from an offset on, all of which are there: not `part`, which tests what is known here. A number is read from its bytes when they are cut
// out, so that no test of their length is left.
fn cut(bytes: &[u8], offset: u64, n: u64) -> &[u8]
    requires { offset + n ≤ length bytes.now }
    ensures { result.now ≡ part (before bytes) offset n }
{
    let from = offset as usize;
    &bytes[from..from + n as usize]
}

impl<'a> Near<'a> {
    ghost use Rattle.std.specs.Prelude.{IfOk};
    ghost use Rattle.reads.specs.Place.{readable, word, word_in};
    ghost use Rattle.reads.specs.Answer.{outcome};
    ghost use Rattle.reads.specs.Relative.{signed_in};
    ghost use Rattle.pointers.specs.Slot.{slot, pointer, pointer_or0};
    ghost use Rattle.records.specs.Near.{place_of};

    // The record or row at an address, if so many bytes can be read there.
    #[inline(always)]
    #[tactic(auto, using(crate::proofs::NearFields::place_unreadable))]
    pub(crate) fn at(tables: &'a Tables<'a>, va: u64, size: u64) -> Result<Near<'a>, Missing>
        requires { 0 < size }
        ensures place { place_of result ≡ readable (image_in tables.now) va size }
        ensures record { IfOk result (λ n. (n.tables.now ≡ tables.now) × (n.va ≡ va) × (length n.bytes.now ≡ size)) }
    {
        let spot = readable_spot(tables.image(), va, size)?;
        Ok(Near::of(tables, va, size, spot))
    }

    // The record or row at an address whose spot is known: its file is lent, for bytes of it can be read.
    #[inline(always)]
    #[tactic(auto, using(crate::proofs::NearFields::near_readable))]
    pub(crate) fn of(tables: &'a Tables<'a>, va: u64, size: u64, spot: Spot) -> Near<'a>
        requires found { readable_spot (image_in tables.now) va size ≡ value spot }
        requires some { 0 < size }
        ensures place { value result.spot.place ≡ readable (image_in tables.now) va size }
        ensures record { (result.tables.now ≡ tables.now) × (result.va ≡ va) × (length result.bytes.now ≡ size) }
    {
        let files = tables.files();
        let place = spot.place;
        let f = place.file as usize;
        Near {
            tables,
            va,
            spot,
            bytes: cut(files[f], place.offset, size),
        }
    }

    // The tables, and its address.
    pub(crate) fn tables(&self) -> &'a Tables<'a>
        ensures { result.now ≡ self.now.tables.now }
    {
        self.tables
    }

    pub(crate) fn va(&self) -> u64
        ensures { result ≡ self.now.va }
    {
        self.va
    }

    // The spot of its address.
    pub(crate) fn spot(&self) -> Spot
        ensures { result ≡ self.now.spot }
    {
        self.spot
    }

    // Where its bytes stand.
    pub(crate) fn place(&self) -> Place
        ensures { result ≡ self.now.spot.place }
    {
        self.spot.place
    }

    // The number of four bytes in the field k bytes behind its address. That the field ends within the record is said here, and in what calls it and its
    // like: it is a fact of the k of a call, not of the record, so no ghost field can hold it.
    #[tactic(auto, using(crate::proofs::NearFields::near_number))]
    pub(crate) fn u32(&self, k: u64) -> u32
        requires { k + 4 ≤ length self.now.bytes.now }
        ensures { result ≡ word_in self.now.tables.now.files 4 self.now.spot.place k }
    {
        u32_from(cut(self.bytes, k, 4), 0, 0)
    }

    // The same, signed.
    #[tactic(auto, unfolding(reads::specs::Relative::signed_in))]
    pub(crate) fn i32(&self, k: u64) -> i32
        requires { k + 4 ≤ length self.now.bytes.now }
        ensures { result ≡ signed_in self.now.tables.now.files self.now.spot.place k }
    {
        signed(self.u32(k))
    }

    // The number of eight.
    #[tactic(auto, using(crate::proofs::NearFields::near_number))]
    fn u64(&self, k: u64) -> u64
        requires { k + 8 ≤ length self.now.bytes.now }
        ensures { result ≡ word_in self.now.tables.now.files 8 self.now.spot.place k }
    {
        u64_from(cut(self.bytes, k, 8), 0, 0)
    }

    // The pointer in the slot k bytes behind its address.
    #[tactic(auto, using(crate::proofs::NearFields::near_slot))]
    #[inline]
    fn slot(&self, k: u64, va: u64) -> Result<u64, Missing>
        requires at { va ≡ self.now.va + k }
        requires inside { k + 8 ≤ length self.now.bytes.now }
        ensures { outcome result ≡ slot self.now.tables.now va }
    {
        if is_near(self.tables, self.spot, k, va) {
            return Ok(Address::strip(self.u64(k)));
        }
        resolve_pointer(self.tables, va)
    }

    // The same, an absent slot counting as 0.
    #[tactic(auto, using(reads::proofs::Outcomes::or_zero_of))]
    #[inline]
    pub(crate) fn slot_or_0(&self, k: u64, va: u64) -> Result<u64, Missing>
        requires at { va ≡ self.now.va + k }
        requires inside { k + 8 ≤ length self.now.bytes.now }
        ensures { outcome result ≡ or_zero (slot self.now.tables.now va) }
    {
        or_zero(self.slot(k, va))
    }

    // The word there.
    #[tactic(auto, using(std::proofs::lemmas::Bool::Decides::nat_tests, crate::proofs::NearFields::near_word))]
    pub(crate) fn word(&self, k: u64, va: u64) -> Result<u64, Missing>
        requires at { va ≡ self.now.va + k }
        requires inside { k + 8 ≤ length self.now.bytes.now }
        ensures { outcome result ≡ word (image_in self.now.tables.now) 8 va }
    {
        if k < self.spot.room {
            return Ok(self.u64(k));
        }
        read_u64(self.tables.image(), va)
    }

    // The pointer in the first field.
    pub(crate) fn first_slot(&self) -> Result<u64, Missing>
        requires { 8 ≤ length self.now.bytes.now }
        ensures { outcome result ≡ slot self.now.tables.now self.now.va }
    {
        self.slot(0, self.va)
    }

    // The pointer in the field at va + k.
    #[tactic(auto, using(reads::proofs::Outcomes::missed_then, crate::proofs::NearFields::sum_is), unfolding(pointers::specs::Slot::pointer_at))]
    pub(crate) fn field(&self, k: u64) -> Result<u64, Missing>
        requires { k + 8 ≤ length self.now.bytes.now }
        ensures { outcome result ≡ pointer self.now.tables.now self.now.va k }
    {
        let slot = checked_add(self.va, k)?;
        self.slot(k, slot)
    }

    // The same, an absent slot counting as 0.
    #[tactic(auto, using(reads::proofs::Outcomes::missed_then, crate::proofs::NearFields::sum_is, reads::proofs::Outcomes::or_zero_of), unfolding(pointers::specs::Slot::pointer_or0_at))]
    #[inline]
    pub(crate) fn field_or_0(&self, k: u64) -> Result<u64, Missing>
        requires { k + 8 ≤ length self.now.bytes.now }
        ensures { outcome result ≡ pointer_or0 self.now.tables.now self.now.va k }
    {
        let slot = checked_add(self.va, k)?;
        self.slot_or_0(k, slot)
    }
}
