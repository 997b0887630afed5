// Spots: the place of an address together with its room, so that what lies near it is read without another lookup.
ghost use Rattle.std.specs.Prelude.{◌≡◌, true};
ghost use Rattle.reads.specs.Reference.{before};
ghost use Rattle.reads.specs.Segment.{holds};
ghost use Rattle.reads.specs.Spot.{distance, spot_at, spot_in, readable_spot, spot_behind};
ghost use Rattle.reads.specs.Answer.{outcome};

use crate::answer::{Missing, Reason};
use crate::files::file_len;
use crate::place::{Image, Place, lies_in, readable_at};
use crate::segment::Segment;

// Where an address looks up, and its room: for how many bytes from it on the place moves with the address.
#[derive(Clone, Copy)]
pub struct Spot {
    pub place: Place,
    pub room: u64,
}

// The spot of an address that the segment holds, at this distance; the segments before it lie at most `far` behind the address.
#[tactic(auto, using(crate::proofs::Spots::held_inside, crate::proofs::Spots::spot_past, crate::proofs::Spots::spot_over, crate::proofs::Spots::spot_there), unfolding(crate::specs::Segment::mapped_size))]
fn spot_at(s: Segment, far: u64, va: u64, d: u64) -> Option<Spot>
    requires va_value { holds s va ≡ true }
    requires d_value { d ≡ distance s va }
    ensures { result ≡ spot_at s far va }
{
    if s.filesize <= d {
        return None;
    }
    let offset = s.fileoff.checked_add(d)?;
    let last = s.mapped_size() - d - 1;
    let place = Place {
        file: s.file,
        offset,
    };
    Some(Spot {
        place,
        room: last.min(Segment::MAX - far.max(offset)) + 1,
    })
}

// The spot of an address. Segments count in order: one that exceeds 64 bits ends the lookup, the first that holds the address decides.
#[tactic(auto, using(crate::proofs::Spots::reached, crate::proofs::Spots::unreached, crate::proofs::Lookups::holds_none, crate::proofs::Spots::spot_past, crate::proofs::Spots::spot_ends, crate::proofs::Spots::spot_holds, crate::proofs::Spots::spot_on, crate::proofs::Spots::spot_out))]
fn spot_in(segments: &[u64], va: u64) -> Option<Spot>
    ensures { result ≡ spot_in (before segments) va }
{
    let mut far = 0;
    for s in Segment::rows(segments) {
        if s.ends() {
            return None;
        }
        let d = s.distance(va);
        if d < s.vmsize {
            if d < s.filesize {
                return spot_at(s, far, va, d);
            }
            if 0 < s.filesize {
                return None;
            }
        }
        far = far.max(d);
    }
    None
}

// The spot of an address, if k bytes can be read there.
#[tactic(auto, using(crate::proofs::Outcomes::outcomes), unfolding(crate::specs::Spot::readable_spot))]
pub fn readable_spot(image: &Image, va: u64, k: u64) -> Result<Spot, Missing>
    ensures { outcome result ≡ readable_spot image.now va k }
{
    let Some(s) = spot_in(image.segments, va) else {
        return Err(Missing::Absent(Reason::Unreadable));
    };
    readable_at(file_len(image.files, s.place.file), s.place, k)?;
    Ok(s)
}

// The spot d bytes behind one, if it lies in its room and k bytes can be read there: it is that of the address d bytes on, without another lookup.
#[tactic(auto, using(std::proofs::lemmas::Bool::Decides::nat_tests), unfolding(crate::specs::Spot::spot_behind, crate::specs::Outcome::choose))]
pub fn spot_behind(image: &Image, s: Spot, d: u64, k: u64) -> Option<Spot>
    ensures { result ≡ spot_behind image.now s d k }
{
    if s.room <= d {
        return None;
    }
    let place = s.place;
    if !lies_in(file_len(image.files, place.file), place.offset, d, k) {
        return None;
    }
    Some(Spot {
        place: Place {
            file: place.file,
            offset: place.offset + d,
        },
        room: s.room - d,
    })
}
