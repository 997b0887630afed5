// Crash frames known within a range (note 11): the possible unslid addresses, the starts met, and the mark of a start.
ghost use Rattle.std.specs.Prelude.{◌≡◌};
ghost use Rattle.frames.specs.Marks.{frames_of, raised, met_in, mark_in};
ghost use Rattle.reads.specs.Answer.{answered};

use reads::answer::Question;

// A range of frames and a range of slides, both ends included.
#[derive(Clone, Copy)]
pub struct Ranges {
    pub first_frame: u64,
    pub last_frame: u64,
    pub first_slide: u64,
    pub last_slide: u64,
}

// The possible unslid addresses, all from low to high; and of the starts met the floor of each of the two, the greatest at or before it.
#[derive(Clone, Copy)]
pub struct Frames {
    pub low: u64,
    pub high: u64,
    pub low_floor: Option<u64>,
    pub high_floor: Option<u64>,
}

// What a start gets: no frame lies in it, one can, or one must.
#[derive(Clone, Copy)]
pub enum Mark {
    Unmarked,
    Marked,
    Certain,
}

// A floor with one more start, which counts if it is at or before the limit.
#[tactic(auto, using(crate::proofs::MarkSteps::raised_past, crate::proofs::MarkSteps::raised_max))]
fn raised(floor: Option<u64>, limit: u64, start: u64) -> Option<u64>
    ensures { result ≡ raised limit floor start }
{
    if start > limit {
        return floor;
    }
    floor.max(Some(start))
}

impl Frames {
    // The possible unslid addresses of ranges, no start met; none where no ranges are given or each of their pairs is below zero; or 23, where a
    // range's first end exceeds its second.
    #[tactic(auto, using(std::proofs::lemmas::Bool::Decides::nat_tests), unfolding(crate::specs::Marks::frames_of, crate::specs::Marks::in_order, crate::specs::Marks::addresses, reads::specs::Outcome::choose))]
    pub fn new(ranges: Option<Ranges>) -> Result<Option<Frames>, Question>
        ensures { answered result ≡ frames_of ranges }
    {
        let Some(ranges) = ranges else {
            return Ok(None);
        };
        if ranges.first_frame > ranges.last_frame {
            return Err(Question::RangeOrder);
        }
        if ranges.first_slide > ranges.last_slide {
            return Err(Question::RangeOrder);
        }
        if ranges.first_slide > ranges.last_frame {
            return Ok(None);
        }
        Ok(Some(Frames {
            low: ranges.first_frame.saturating_sub(ranges.last_slide),
            high: ranges.last_frame - ranges.first_slide,
            low_floor: None,
            high_floor: None,
        }))
    }

    // One more start is met.
    #[tactic(auto, unfolding(crate::specs::Marks::met_in))]
    pub fn meet(self, start: u64) -> Frames
        ensures { result ≡ met_in self start }
    {
        Frames {
            low_floor: raised(self.low_floor, self.low, start),
            high_floor: raised(self.high_floor, self.high, start),
            ..self
        }
    }

    // The mark of a start, once all starts are met.
    #[tactic(auto, using(crate::proofs::MarkSteps::eq_at, std::proofs::lemmas::Bool::Decides::nat_tests), unfolding(crate::specs::Marks::mark_in, reads::specs::Outcome::choose))]
    pub fn mark(self, start: u64) -> Mark
        ensures { result ≡ mark_in self start }
    {
        if start > self.high {
            return Mark::Unmarked;
        }
        if start > self.low {
            return Mark::Marked;
        }
        if self.high_floor == Some(start) {
            return Mark::Certain;
        }
        if self.low_floor == Some(start) {
            return Mark::Marked;
        }
        Mark::Unmarked
    }
}
