// Headers of method, ivar and property lists, and the search for the next entry that can be read.
ghost use Rattle.std.specs.Prelude.{◌≡◌, ◌<◌, ◌%◌, ◌^◌};
ghost use Rattle.reads.specs.Reference.{before};
ghost use Rattle.reads.specs.Outcome.{value, choose};
ghost use Rattle.records.specs.Ask.{even_list, entry_size};
ghost use Rattle.records.specs.List.{least, method_rows, rows_of, size_of, must_be_even, layout_at, list_at, entry_address};
ghost use Rattle.records.specs.Header.{list_size};
ghost use Rattle.records.specs.Near.{OfSize};
ghost use Rattle.records.specs.Search.{first_readable, search_budget};
ghost use Rattle.records.specs.Tries.{Finds, ahead, Leads};
ghost use Rattle.reads.specs.Answer.{outcome};

use crate::ivar::Ivar;
use crate::method::Method;
use crate::near::Near;
use crate::property::Property;
use pointers::tables::Tables;
use reads::answer::{Missing, Reason, checked_add, nonzero};
use reads::breaks::next_break;
use reads::place::Image;
use reads::segment::Segment;
use reads::spot::{Spot, readable_spot};
use std::ops::ControlFlow;

// Bits of a method list's first word that are not its entry size (objc-runtime-new.h, entsize_list_tt<method_t, ..>).
const METHOD_LIST_FLAG_MASK: u32 = 0xFFFF_0003;
// Its entries are three relative offsets (method_list_t, smallMethodListFlag).
const SMALL_METHOD_LIST_FLAG: u32 = 0x8000_0000;
// The first of them leads to the selector itself (relativeMethodSelectorsAreDirectFlag).
const RELATIVE_METHOD_SELECTORS_ARE_DIRECT_FLAG: u32 = 0x4000_0000;

// Which list a walk goes over.
#[derive(Clone, Copy)]
pub enum ListKind {
    Methods,
    Ivars,
    Properties,
}

// What the entries of a list are. MethodKind and Selectors have fewer cases: with this enum for them, each match on a method's kind or on where its
// offset leads would have arms that cannot come. Nor `Method(MethodKind)` for the first three: `least`, `row_at` and usage's `row` would have the
// same five arms, three of them two levels deep, and no match would lose one, since nothing matches what `method_rows` alone gives.
#[derive(Clone, Copy)]
pub enum RowKind {
    Legacy,
    SmallIndirect,
    SmallDirect,
    Ivar,
    Property,
}

// Where a list's entries stand: the address of the first, their size, how many the header claims, and what they are.
#[derive(Clone, Copy)]
pub struct Layout {
    pub base: u64,
    pub size: u32,
    pub count: u32,
    pub kind: RowKind,
}

impl Layout {
    // entsize_list_tt: its size, entsizeAndFlags, count.
    pub const HEADER_SIZE: u64 = 8;

    pub const ENTSIZE_AND_FLAGS: u64 = 0;

    pub const COUNT: u64 = 4;

    // The address of entry j. An address over 64 bits wraps: callers ask for entries that can be read, whose addresses do not.
    pub fn entry_address(self, j: u64) -> u64
        ensures wraps { result ≡ entry_address self j % 2 ^ 64 }
        ensures fits { entry_address self j < 2 ^ 64 → result ≡ entry_address self j }
    {
        self.base.wrapping_add(j.wrapping_mul(self.size as u64))
    }
}

// The rows of a method list, by its first word.
pub(crate) fn method_rows(w: u32) -> RowKind
    ensures { result ≡ method_rows w }
{
    if w & SMALL_METHOD_LIST_FLAG == 0 {
        return RowKind::Legacy;
    }
    if w & RELATIVE_METHOD_SELECTORS_ARE_DIRECT_FLAG == 0 {
        return RowKind::SmallIndirect;
    }
    RowKind::SmallDirect
}

// The rows of a list.
fn rows_of(kind: ListKind, w: u32) -> RowKind
    ensures { result ≡ rows_of kind w }
{
    match kind {
        ListKind::Methods => method_rows(w),
        ListKind::Ivars => RowKind::Ivar,
        ListKind::Properties => RowKind::Property,
    }
}

// The size of an entry: of ivars and properties the word has no flags.
fn size_of(kind: ListKind, w: u32) -> u32
    ensures { result ≡ size_of kind w }
{
    match kind {
        ListKind::Methods => w & !METHOD_LIST_FLAG_MASK,
        ListKind::Ivars => w,
        ListKind::Properties => w,
    }
}

// The bytes of a row that must be readable.
pub(crate) fn least(kind: RowKind) -> u64
    ensures { result ≡ least kind }
{
    match kind {
        RowKind::Legacy => Method::SIZE,
        RowKind::SmallIndirect => Method::SMALL_SIZE,
        RowKind::SmallDirect => Method::SMALL_SIZE,
        RowKind::Ivar => Ivar::SIZE,
        RowKind::Property => Property::SIZE,
    }
}

// An entry size that is at least the least size.
fn entry_size(least: u64, size: u32) -> Result<u64, Missing>
    ensures { outcome result ≡ entry_size least size }
{
    if (size as u64) < least {
        return Err(Missing::Absent(Reason::ShortEntry));
    }
    Ok(size as u64)
}

// The address of a list that must not be odd.
pub fn even_list(va: u64) -> Result<u64, Missing>
    ensures { outcome result ≡ even_list va }
{
    if va % 2 == 0 {
        return Ok(va);
    }
    Err(Missing::Absent(Reason::OddList))
}

// The address of a list, even as its kind asks.
pub fn list_address(kind: ListKind, va: u64) -> Result<u64, Missing>
    ensures { outcome result ≡ choose (must_be_even kind) (even_list va) (value va) }
{
    match kind {
        ListKind::Methods => even_list(va),
        ListKind::Ivars => Ok(va),
        ListKind::Properties => even_list(va),
    }
}

// What a header says: the entry size, the count, and the entries behind.
#[tactic(auto, using(reads::proofs::Outcomes::missed_then))]
pub(crate) fn layout_near(header: &Near, kind: ListKind) -> Result<Layout, Missing>
    requires { OfSize header.now list_size }
    ensures { outcome result ≡ layout_at header.now.tables.now kind header.now.va }
{
    let va = header.va();
    let w = header.u32(Layout::ENTSIZE_AND_FLAGS);
    let count = header.u32(Layout::COUNT);
    let rows = rows_of(kind, w);
    let size = size_of(kind, w);
    entry_size(least(rows), size)?;
    let base = checked_add(va, Layout::HEADER_SIZE)?;
    Ok(Layout {
        base,
        size,
        count,
        kind: rows,
    })
}

// The list at an address: an 8-byte header of entry size and count, then the entries.
#[tactic(auto, using(reads::proofs::Outcomes::missed_then), unfolding(crate::specs::List::decode_list))]
pub fn list_at(tables: &Tables, kind: ListKind, va: u64) -> Result<Layout, Missing>
    ensures { let t = tables.now in
        outcome result ≡ list_at t kind va }
{
    nonzero(va)?;
    list_address(kind, va)?;
    let header = Near::at(tables, va, Layout::HEADER_SIZE)?;
    layout_near(&header, kind)
}

// An entry that can be read: its index, its address, and the spot of its bytes.
#[derive(Clone, Copy)]
pub(crate) struct Found {
    pub(crate) index: u64,
    pub(crate) va: u64,
    pub(crate) spot: Spot,
}

// Tries index i: the entry there is the answer, or none from there on is, or the search goes on at the first entry whose
// address reaches the next breakpoint.
fn try_at(image: &Image, h: Layout, i: u64) -> ControlFlow<Option<Found>, u64>
    ensures { Leads image.now h i result }
{
    let count = h.count as u64;
    if count <= i {
        return ControlFlow::Break(None);
    }
    let size = h.size as u64;
    // Entries from the first whose address passes 64 bits are not readable.
    let way = i * size;
    let Some(va) = h.base.checked_add(way) else {
        return ControlFlow::Break(None);
    };
    let rows = h.kind;
    let k = least(rows);
    if let Ok(spot) = readable_spot(image, va, k) {
        return ControlFlow::Break(Some(Found { index: i, va, spot }));
    }
    let Some(b) = next_break(image, k, va) else {
        return ControlFlow::Break(None);
    };
    // Entries of size 0 all have one address.
    if size == 0 {
        return ControlFlow::Break(None);
    }
    // As many entries after i start below the breakpoint.
    let gap = (b - va - 1) / size;
    if count - i - 1 <= gap {
        return ControlFlow::Break(None);
    }
    ControlFlow::Continue(i + gap + 1)
}

// Tries at most `budget` indices. Each try leaves fewer breakpoints ahead, so one of them has the answer.
#[tactic(auto, using(crate::proofs::Jumps::stopped, crate::proofs::Jumps::went))]
fn search(image: &Image, h: Layout, from: u64, budget: u64) -> Option<Found>
    requires { ahead image.now h from < budget }
    ensures { Finds image.now h from result }
{
    // Not `try_fold` over the range: its end would be a last index still to go on from, so the arm that cannot come would stay.
    let mut i = from;
    for _ in 0..budget {
        match try_at(image, h, i) {
            ControlFlow::Break(entry) => return entry,
            ControlFlow::Continue(j) => i = j,
        }
    }
    unreachable!()
}

// How many indices a step may try: three for each segment, and one.
fn search_budget(segments: &[u64]) -> u64
    ensures { result ≡ search_budget (before segments) }
{
    (3 * (segments.len() / Segment::WORDS) + 1) as u64
}

// The first entry from an index on, below the count, that can be read.
pub(crate) fn first_found(image: &Image, h: Layout, from: u32) -> Option<Found>
    ensures { Finds image.now h from result }
{
    let budget = search_budget(image.segments);
    search(image, h, from as u64, budget)
}

// The index of the first entry from an index on, below the count, that can be read.
pub fn first_readable(image: &Image, h: Layout, from: u32) -> Option<u64>
    ensures { result ≡ first_readable image.now h from }
{
    let found = first_found(image, h, from)?;
    Some(found.index)
}
