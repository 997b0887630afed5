// A sweep over the bytes of the files in order, window by window: each run of used bytes is counted, and put out where there is room.
ghost use Rattle.std.specs.Prelude.{◌≡◌, ◌+◌, ◌-◌, ◌≤◌, ◌<◌, ◌^◌};
ghost use Rattle.ranges.specs.Range.{range};
ghost use Rattle.ranges.specs.Sheet.{window, shown, headed};
ghost use Rattle.ranges.specs.Sweep.{output, progress, put_at, closed_at, passed, swept, leapt, first_byte, reached, over_window, over_end};

use crate::sheet::{Sheet, WINDOW};

// All bytes from `start` on are used, and belong to a run that is not yet put out; `count` runs are.
#[derive(Clone, Copy)]
pub struct Open {
    pub start: u64,
    pub count: u64,
}

// The sweep has come to byte `at` of a file. The file's size is an argument of each step and no field: `new` and `over_end` come to files
// that the caller alone knows the sizes of, so a field would hold no size, or the last file's, until the caller writes it.
#[derive(Clone, Copy)]
pub struct Sweep {
    pub file: u64,
    pub at: u64,
    pub run: Open,
}

// Puts a range out as number i, three words, if there is room.
#[tactic(auto, using(crate::proofs::SweepLaws::put_room, crate::proofs::SweepLaws::put_full))]
fn put(out: &mut [u64], i: u64, file: u64, offset: u64, len: u64)
    ensures { out.new ≡ put_at out.old i (range file offset len) }
{
    let room = (out.len() / 3) as u64;
    if i < room {
        let k = i as usize * 3;
        out[k..k + 3].copy_from_slice(&[file, offset, len]);
    }
}

impl Sweep {
    // At the first byte of the first file.
    pub fn new() -> Sweep
        ensures { result ≡ first_byte }
    {
        let run = Open { start: 0, count: 0 };
        Sweep {
            file: 0,
            at: 0,
            run,
        }
    }

    // The run that ends before byte b is put out, if it has a byte; how many are.
    #[tactic(auto, using(crate::proofs::SweepLaws::closed_run, crate::proofs::SweepLaws::closed_none))]
    fn close(self, b: u64, out: &mut [u64]) -> u64
        ensures { output result out.new ≡ closed_at self.file b (progress self.run out.old) }
    {
        let run = self.run;
        if run.start < b {
            put(out, run.count, self.file, run.start, b - run.start);
            return run.count.saturating_add(1);
        }
        run.count
    }

    // Byte b is passed.
    #[tactic(auto, unfolding(crate::specs::Sweep::passed, crate::specs::Sweep::closed_at, crate::specs::Sweep::tell, crate::specs::Runs::begun, crate::specs::Runs::ended))]
    fn pass(self, b: u64, used: bool, out: &mut [u64]) -> Open
        requires { b + 1 < 2 ^ 64 }
        ensures { progress result out.new ≡ passed self.file used b (progress self.run out.old) }
    {
        if used {
            return self.run;
        }
        let count = self.close(b, out);
        Open {
            start: b + 1,
            count,
        }
    }

    // The first n bytes of the window that comes next are passed.
    #[tactic(auto, using(crate::proofs::SweepLaws::swept_more, crate::proofs::SweepLaws::shown_at), unfolding(crate::specs::Sweep::swept))]
    fn scan(self, sheet: &Sheet, n: u64, out: &mut [u64]) -> Open
        requires { (n ≤ window) × (self.at + n < 2 ^ 64) }
        ensures { progress result out.new ≡ swept self.file (shown self.at sheet.now) n self.at (progress self.run out.old) }
    {
        let mut run = self.run;
        for k in 0..n {
            run = Sweep { run, ..self }.pass(self.at + k, sheet.marked(k), out);
        }
        run
    }

    // From n to `next` bytes on, where none is used.
    #[tactic(auto, using(std::proofs::lemmas::Bool::Decides::nat_tests), unfolding(crate::specs::Sweep::leapt, reads::specs::Outcome::choose))]
    fn leap(self, n: u64, next: u64, out: &mut [u64]) -> Open
        requires { self.at + next < 2 ^ 64 }
        ensures { progress result out.new ≡ leapt self.file self.at n next (progress self.run out.old) }
    {
        if next <= n {
            return self.run;
        }
        let count = self.close(self.at + n, out);
        Open {
            start: self.at + next,
            count,
        }
    }

    // Begins the sheet of the window that comes next, of a file of `size` bytes.
    #[tactic(auto, unfolding(crate::specs::Sheet::headed))]
    pub fn begin(self, size: u64, sheet: &mut Sheet)
        ensures { sheet.new ≡ headed self.file self.at (size - self.at) sheet.old }
    {
        sheet.file = self.file;
        sheet.from = self.at;
        sheet.next = size.saturating_sub(self.at);
    }

    // Passes that window, and the bytes past it to the next that the sheet knows to be used.
    #[tactic(auto, unfolding(crate::specs::Sweep::over_window))]
    pub fn over_window(self, size: u64, sheet: &Sheet, out: &mut [u64]) -> Sweep
        ensures { reached result out.new ≡ over_window size sheet.now (reached self out.old) }
    {
        let left = size.saturating_sub(self.at);
        let n = WINDOW.min(left);
        let next = sheet.next.min(left);
        let run = self.scan(sheet, n, out);
        let run = Sweep { run, ..self }.leap(n, next, out);
        let at = self.at + n.max(next);
        Sweep { at, run, ..self }
    }

    // Passes the end of a file of `size` bytes: a run ends with its file.
    #[tactic(auto, unfolding(crate::specs::Sweep::over_end, crate::specs::Sweep::more))]
    pub fn over_end(self, size: u64, out: &mut [u64]) -> Sweep
        ensures { reached result out.new ≡ over_end size (reached self out.old) }
    {
        let count = self.close(size, out);
        let run = Open { start: 0, count };
        let file = self.file.saturating_add(1);
        Sweep { file, at: 0, run }
    }
}
