// Opening an image whose methods are to be marked (note 11): opening's questions, then 23 of the ranges; then the index is written.
ghost use Rattle.std.specs.Prelude.{◌≡◌};
ghost use Rattle.pointers.specs.Tables.{with_index};
ghost use Rattle.marking.specs.Framed.{with_frames, framed_opening, framed_index};
ghost use Rattle.reads.specs.Answer.{outcome};

use frames::frames::{Frames, Ranges};
use pointers::imageinfo::ImageInfo;
use pointers::open::{open, open_unless};
use pointers::tables::Tables;
use reads::answer::Missing;

// An opened image: its image info, and the frames, which have met no start.
#[derive(Clone, Copy)]
pub struct Framed {
    pub info: ImageInfo,
    pub frames: Option<Frames>,
}

// What opening answered, with the frames.
#[tactic(auto, using(reads::proofs::Outcomes::missed_then))]
pub fn with_frames(
    answer: Result<ImageInfo, Missing>,
    frames: Option<Frames>,
) -> Result<Framed, Missing>
    ensures { outcome result ≡ with_frames frames (outcome answer) }
{
    let info = answer?;
    Ok(Framed { info, frames })
}

// The image info and the frames, with the index written; or the number of the first question that says no, 23 last, with the index as it was.
// The index that stands in the tables is not read.
pub fn open_framed(
    ranges: Option<Ranges>,
    tables: &Tables,
    index: &mut [u32],
) -> Result<Framed, Missing>
    ensures outcome { let t = with_index tables.now index.old in
        outcome result ≡ framed_opening ranges t }
    ensures contents { let t = with_index tables.now index.old in
        index.new ≡ framed_index ranges t }
{
    // With a number of 23 nothing is opened, so that no frames are handed out.
    match Frames::new(ranges) {
        Ok(frames) => with_frames(open(tables, index), frames),
        Err(k) => with_frames(open_unless(tables, index, Err(k)), None),
    }
}
