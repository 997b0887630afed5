// The ranges of the bytes that a listing uses (document 02, note 13): a sweep over the files, window by window. For each window every read is
// gone over, and those in the window are noted on its sheet, so a file of many windows takes as many passes. The first round counts, the second
// writes; before them a pass finds whether a question refuses.
ghost use Rattle.std.specs.Prelude.{◌≡◌, replicate};
ghost use Rattle.reads.specs.Answer.{answered};
ghost use Rattle.records.specs.Decode.{run};
ghost use Rattle.ranges.specs.Runs.{merged};
ghost use Rattle.ranges.specs.Sheet.{sheet_words, noted_all};
ghost use Rattle.ranges.specs.Sweep.{output, tell, reached, stepped};
ghost use Rattle.ranges.specs.Written.{result_of};
ghost use Rattle.used.specs.Used.{file_lengths};
ghost use Rattle.usage.specs.Pass.{decode_pass};
ghost use Rattle.usage.specs.UsedRanges.{pass_uses, used_into};

use crate::noting::Noting;
use pointers::question::ask;
use pointers::tables::Tables;
use ranges::answer::room_for;
use ranges::sheet::{Sheet, WORDS};
use ranges::sweep::Sweep;
use reads::answer::Question;
use reads::files::{file_len, is_lent};

// A sheet on which nothing is noted.
fn blank_sheet() -> Sheet
    ensures { result ≡ replicate sheet_words 0 }
{
    Sheet {
        file: 0,
        from: 0,
        next: 0,
        bits: [0; WORDS],
    }
}

// The same of a sheet that was in use: one stands on the stack, whatever the number of windows.
fn clear(sheet: &mut Sheet)
    ensures { sheet.new ≡ replicate sheet_words 0 }
{
    sheet.file = 0;
    sheet.from = 0;
    sheet.next = 0;
    sheet.bits = [0; WORDS];
}

// One pass over the tables, noted on a sheet.
#[tactic(auto, unfolding(crate::specs::Noting::noting))]
fn note_pass(tables: &Tables, sheet: &mut Sheet) -> Result<(), Question>
    ensures asked { let t = tables.now in
        answered result ≡ run t (decode_pass t.sections) }
    ensures noted { sheet.new ≡ noted_all (pass_uses tables.now) sheet.old }
{
    Noting { tables, sheet }.pass()
}

// The next window, or the end of a file.
fn step(tables: &Tables, sweep: Sweep, sheet: &mut Sheet, out: &mut [u64]) -> Sweep
    ensures { let t = tables.now in
        reached result out.new ≡ stepped (file_lengths t.files) (pass_uses t) (reached sweep out.old) }
{
    let size = file_len(tables.files(), sweep.file);
    if size <= sweep.at {
        return sweep.over_end(size, out);
    }
    clear(sheet);
    sweep.begin(size, sheet);
    let _ = note_pass(tables, sheet);
    sweep.over_window(size, sheet, out)
}

// Over all files: how many ranges there are; those for which there is room are put out.
fn sweep(tables: &Tables, sheet: &mut Sheet, out: &mut [u64]) -> u64
    ensures { let t = tables.now in
        output result out.new ≡ tell (merged (file_lengths t.files) (pass_uses t)) (output 0 out.old) }
{
    let mut sweep = Sweep::new();
    while is_lent(tables.files(), sweep.file) {
        sweep = step(tables, sweep, sheet, out);
    }
    sweep.run.count
}

// The ranges, three words each, in `out`: file, offset, length. 24 where it has no room for all; then nothing is written.
pub fn used_ranges(tables: &Tables, out: &mut [u64]) -> Result<u64, Question>
    ensures { result_of result out.new ≡ used_into tables.now out.old }
{
    ask(tables)?;
    let mut sheet = blank_sheet();
    note_pass(tables, &mut sheet)?;
    let count = sweep(tables, &mut sheet, &mut []);
    let count = room_for(count, out)?;
    sweep(tables, &mut sheet, out);
    Ok(count)
}
