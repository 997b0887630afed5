// A sheet: which bytes of a window of a file are used. The caller lends it: fixed memory, no heap.
ghost use Rattle.std.specs.Prelude.{◌≡◌, ◌-◌, ◌<◌, ◌≤◌, ℕ, List, ◌∷◌, slice_index, drop};
ghost use Rattle.ranges.specs.Range.{range};
ghost use Rattle.ranges.specs.Sheet.{window, marked_at, with_bit, with_bits, lowered_to, noted_from, noted};

use std::marker::Model;

// The words of a sheet's bits, and the bytes of its window: 64 for each of them.
pub const WORDS: usize = 32768;

pub const WINDOW: u64 = 2097152;

#[derive(Clone, Copy)]
pub struct Sheet {
    // the file, the window's first byte, and how far from there the least byte past the window is that is known to be used
    pub file: u64,
    pub from: u64,
    pub next: u64,
    // a bit for each byte of the window
    pub bits: [u64; WORDS],
}

// A sheet is its words.
impl Model for Sheet {
    ghost Value = { List ℕ };

    ghost view = { λ s. s.file ∷ s.from ∷ s.next ∷ s.bits };

    ghost inverse = { λ ws. record { file = slice_index ws 0; from = slice_index ws 1; next = slice_index ws 2; bits = drop 3 ws } };
}

impl Sheet {
    // Byte k of the window is marked.
    #[tactic(auto, using(crate::proofs::BitLaws::bit_tested), unfolding(crate::specs::Sheet::marked_at))]
    pub(crate) fn marked(&self, k: u64) -> bool
        requires { k < window }
        ensures { result ≡ marked_at self.now k }
    {
        let i = (k / 64) as usize;
        self.bits[i] >> (k % 64) & 1 != 0
    }

    #[tactic(auto, using(crate::proofs::BitLaws::bit_alone), unfolding(crate::specs::Sheet::with_bit))]
    fn set_bit(&mut self, k: u64)
        requires { k < window }
        ensures { self.new ≡ with_bit self.old k }
    {
        let i = (k / 64) as usize;
        self.bits[i] |= 1 << (k % 64);
    }

    #[tactic(auto, unfolding(crate::specs::Sheet::with_bits))]
    fn set_bits(&mut self, k: u64, n: u64)
        requires { n ≤ window - k }
        ensures { self.new ≡ with_bits self.old k n }
    {
        for i in 0..n {
            self.set_bit(k + i);
        }
    }

    // The least byte past the window is at most x.
    #[tactic(auto, unfolding(crate::specs::Sheet::lowered_to))]
    fn lower(&mut self, x: u64)
        ensures { self.new ≡ lowered_to self.old x }
    {
        self.next = x.min(self.next);
    }

    // `left` bytes are used, from `first` bytes after the window's first on.
    #[tactic(auto, using(crate::proofs::SheetLaws::from_inside, crate::proofs::SheetLaws::from_beyond))]
    fn note_from(&mut self, first: u64, left: u64)
        ensures { self.new ≡ noted_from first left self.old }
    {
        let room = WINDOW.saturating_sub(first);
        if left <= room {
            self.set_bits(first, left);
            return;
        }
        self.set_bits(first, room);
        self.lower(first.max(WINDOW));
    }

    // Notes that `len` bytes of a file are used, from `offset` on.
    #[tactic(auto, using(crate::proofs::SheetLaws::note_other, crate::proofs::SheetLaws::note_here))]
    pub fn note(&mut self, file: u64, offset: u64, len: u64)
        ensures { self.new ≡ noted (range file offset len) self.old }
    {
        if file != self.file {
            return;
        }
        let from = self.from;
        let before = from.saturating_sub(offset);
        self.note_from(offset.saturating_sub(from), len.saturating_sub(before));
    }
}
