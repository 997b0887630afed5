// The segment table, lent as words, and the translation between addresses and places.
ghost use Rattle.std.specs.Prelude.{◌≡◌, ◌<◌, ◌≤◌};
ghost use Rattle.std.specs.Iterator.{YieldsFirst, item_count};
ghost use Rattle.reads.specs.Reference.{before};
ghost use Rattle.reads.specs.Table.{records};
ghost use Rattle.reads.specs.Segment.{segment_words, segment_at, rows, rows_left, ends, holds, placed, lookup, ends_in_file, mapped_size, carries, address_of};
ghost use Rattle.reads.specs.Spot.{distance};
ghost use Rattle.reads.specs.Answer.{outcome};

use crate::answer::{Missing, Reason, because, checked_add};
use crate::place::Place;

// A row of the segment table.
#[derive(Clone, Copy)]
pub struct Segment {
    pub vmaddr: u64,
    pub vmsize: u64,
    pub fileoff: u64,
    pub filesize: u64,
    pub file: u64,
}

impl Segment {
    // The greatest number of 64 bits.
    pub const MAX: u64 = 0xFFFF_FFFF_FFFF_FFFF;

    // The words of a row.
    pub const WORDS: usize = 5;

    // The word of a row that is the number of its file.
    pub const FILE: usize = 4;

    // Row i of the table.
    fn at(segments: &[u64], i: usize) -> Segment
        requires { i < records segment_words segments.now }
        ensures { result ≡ segment_at (before segments) i }
    {
        let first = i * Segment::WORDS;
        Segment {
            vmaddr: segments[first],
            vmsize: segments[first + 1],
            fileoff: segments[first + 2],
            filesize: segments[first + 3],
            file: segments[first + 4],
        }
    }

    // vmaddr + vmsize exceeds 64 bits, which ends every lookup.
    #[tactic(auto, using(std::proofs::lemmas::Bool::Decides::nat_tests), unfolding(crate::specs::Segment::ends))]
    pub fn ends(self) -> bool
        ensures { result ≡ ends self }
    {
        Segment::MAX - self.vmaddr < self.vmsize
    }

    // The segment has bytes in the file, and the address is in it.
    #[tactic(auto, using(std::proofs::lemmas::Bool::Decides::nat_tests), unfolding(crate::specs::Segment::holds))]
    pub fn holds(self, va: u64) -> bool
        ensures { result ≡ holds self va }
    {
        if self.filesize == 0 {
            return false;
        }
        if va < self.vmaddr {
            return false;
        }
        va - self.vmaddr < self.vmsize
    }

    // How far an address lies past the segment's first one, modulo 2^64. Where the segment does not end a lookup, that is below vmsize just for
    // the addresses in it: one compare for both of its ends.
    #[tactic(auto, using(std::proofs::lemmas::Bool::Decides::nat_tests), unfolding(crate::specs::Spot::distance, crate::specs::Outcome::choose))]
    pub(crate) fn distance(self, va: u64) -> u64
        ensures { result ≡ distance self va }
    {
        va.wrapping_sub(self.vmaddr)
    }

    // The place of an address that the segment holds.
    #[tactic(auto, using(std::proofs::lemmas::Bool::Decides::nat_tests), unfolding(crate::specs::Segment::placed, crate::specs::Outcome::sum64, crate::specs::Outcome::choose))]
    pub(crate) fn place(self, va: u64) -> Result<Place, Missing>
        requires { self.vmaddr ≤ va }
        ensures { outcome result ≡ placed self va }
    {
        let distance = va - self.vmaddr;
        if self.filesize <= distance {
            return Err(Missing::Absent(Reason::Unmapped));
        }
        let offset = because(checked_add(self.fileoff, distance), Reason::Unmapped)?;
        Ok(Place {
            file: self.file,
            offset,
        })
    }
}

// The rows of a table from one on, in order.
#[derive(Clone, Copy)]
pub(crate) struct Rows<'a> {
    segments: &'a [u64],
    from: usize,
}

impl Segment {
    // All of a table.
    #[tactic(auto, using(crate::proofs::SegmentRows::rows_all))]
    pub(crate) fn rows(segments: &[u64]) -> Rows<'_>
        ensures { rows_left result ≡ rows (before segments) }
    {
        Rows { segments, from: 0 }
    }
}

impl Iterator for Rows<'_> {
    type Item = Segment;

    ghost next_gives = { YieldsFirst rows_left };

    ghost remaining = { item_count rows_left };

    fn next(&mut self) -> Option<Segment> {
        let i = self.from;
        if i < self.segments.len() / Segment::WORDS {
            self.from = i + 1;
            return Some(Segment::at(self.segments, i));
        }
        None
    }
}

// The place of an address. Segments count in order: one that exceeds 64 bits ends the lookup, the first that holds the
// address decides. What is absent is Unmapped, whatever ends the lookup.
#[tactic(auto, using(crate::proofs::Spots::reached, crate::proofs::Spots::unreached, crate::proofs::Spots::placed_far, crate::proofs::Lookups::holds_is, crate::proofs::Lookups::holds_none, crate::proofs::Lookups::lookup_ends, crate::proofs::Lookups::lookup_holds, crate::proofs::Lookups::lookup_on, crate::proofs::Lookups::lookup_out))]
pub fn vm_to_file_offset_in(segments: &[u64], va: u64) -> Result<Place, Missing>
    ensures { outcome result ≡ lookup (rows (before segments)) va }
{
    for s in Segment::rows(segments) {
        if s.ends() {
            return Err(Missing::Absent(Reason::Unmapped));
        }
        let d = s.distance(va);
        if d < s.vmsize {
            if d < s.filesize {
                return s.place(va);
            }
            if 0 < s.filesize {
                return Err(Missing::Absent(Reason::Unmapped));
            }
        }
    }
    Err(Missing::Absent(Reason::Unmapped))
}

impl Segment {
    // fileoff and the bytes mapped from the file exceed 64 bits, which ends the way back too.
    #[tactic(auto, using(std::proofs::lemmas::Bool::Decides::nat_tests), unfolding(crate::specs::Segment::ends_in_file))]
    pub fn ends_in_file(self) -> bool
        ensures { result ≡ ends_in_file self }
    {
        Segment::MAX - self.fileoff < self.mapped_size()
    }

    // How many bytes of the file are mapped: a segment's file bytes stand at the start of its addresses.
    #[tactic(auto, unfolding(crate::specs::Segment::mapped_size))]
    pub fn mapped_size(self) -> u64
        ensures { result ≡ mapped_size self }
    {
        self.filesize.min(self.vmsize)
    }

    // The file is the segment's, and the offset is among the bytes mapped from it.
    #[tactic(auto, using(std::proofs::lemmas::Bool::Decides::nat_tests), unfolding(crate::specs::Segment::carries))]
    pub fn carries(self, file: u64, offset: u64) -> bool
        ensures { result ≡ carries self file offset }
    {
        if self.file != file {
            return false;
        }
        if offset < self.fileoff {
            return false;
        }
        offset - self.fileoff < self.mapped_size()
    }
}

// The address of an offset of a file: the inverse of `vm_to_file_offset_in`. The first segment that maps the offset decides. Not one search with it
// over closures: what ends it, what it stops at and what it gives there would be three parameters, each with its relation in the contract, for
// four lines.
#[tactic(auto, using(crate::proofs::Outcomes::because_of, crate::proofs::Lookups::carries_is, crate::proofs::Lookups::address_ends, crate::proofs::Lookups::address_carries, crate::proofs::Lookups::address_on, crate::proofs::Lookups::address_out))]
pub fn file_offset_to_vm_in(segments: &[u64], file: u64, offset: u64) -> Result<u64, Missing>
    ensures { outcome result ≡ address_of (rows (before segments)) file offset }
{
    for s in Segment::rows(segments) {
        if s.ends_in_file() {
            return Err(Missing::Absent(Reason::Unmapped));
        }
        if s.carries(file, offset) {
            return because(checked_add(s.vmaddr, offset - s.fileoff), Reason::Unmapped);
        }
    }
    Err(Missing::Absent(Reason::Unmapped))
}
