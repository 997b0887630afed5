// The breakpoints of an image: between two of them it does not change whether bytes can be read.
ghost use Rattle.std.specs.Prelude.{◌≡◌};
ghost use Rattle.reads.specs.Breaks.{readable_part, breaks_of, lower, next_break};

use crate::files::file_len;
use crate::place::Image;
use crate::segment::Segment;

// How many addresses of the segment, from its first on, lie in its file part and have `least` bytes from there on in a
// file of n bytes.
#[tactic(auto, using(crate::proofs::BreakSteps::mapped_by), unfolding(crate::specs::Segment::mapped_size))]
fn readable_part(s: Segment, n: u64, least: u64) -> u64
    ensures { result ≡ readable_part n least s }
{
    if n < least {
        return 0;
    }
    // The last offset at which `least` bytes lie in the file.
    let last = n - least;
    if last < s.fileoff {
        return 0;
    }
    let size = s.mapped_size();
    if last - s.fileoff < size {
        return last - s.fileoff + 1;
    }
    size
}

// The lesser of the breakpoint found so far and b, if b lies above va.
#[tactic(auto, using(std::proofs::lemmas::Bool::Decides::nat_tests), unfolding(crate::specs::Breaks::lower, crate::specs::Outcome::choose))]
fn lower(va: u64, best: Option<u64>, b: u64) -> Option<u64>
    ensures { result ≡ lower va best b }
{
    if b <= va {
        return best;
    }
    match best {
        None => Some(b),
        Some(a) => Some(b.min(a)),
    }
}

// The least breakpoint above an address: until there, `least` bytes can be read everywhere or nowhere. The segments may
// overlap, and may stand in any order.
pub fn next_break(image: &Image, least: u64, va: u64) -> Option<u64>
    ensures { result ≡ next_break (breaks_of image.now least) va }
{
    let mut best = None;
    for s in Segment::rows(image.segments) {
        if s.ends() {
            return best;
        }
        let n = file_len(image.files, s.file);
        let size = readable_part(s, n, least);
        best = lower(va, best, s.vmaddr);
        best = lower(va, best, s.vmaddr + size);
        best = lower(va, best, s.vmaddr + s.vmsize);
    }
    best
}
