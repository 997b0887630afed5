// The start and the mark of a line (note 11): of m rows, whose imp is a start if it is there.
ghost use Rattle.std.specs.Prelude.{◌≡◌};
ghost use Rattle.marking.specs.Marked.{row_imp, line_imp, met_line, imp_mark, marked};

use frames::frames::{Frames, Mark};
use listing::line::Line;
use records::row::Row;

// The imp of a method row.
fn row_imp(row: &Row) -> Option<u64>
    ensures { result ≡ row_imp row.now }
{
    match row {
        Row::Method(method) => method.implementation,
        _ => None,
    }
}

// The imp of an m row.
fn line_imp(line: &Line) -> Option<u64>
    ensures { result ≡ line_imp line.now }
{
    match line {
        Line::Row(r) => row_imp(&r.row),
        _ => None,
    }
}

// The start of a line, if it has one, is met.
pub(crate) fn meet(frames: Option<Frames>, line: &Line) -> Option<Frames>
    ensures { result ≡ met_line frames line.now }
{
    let Some(start) = line_imp(line) else {
        return frames;
    };
    Some(frames?.meet(start))
}

// The same of a line by value.
pub fn meet_line(frames: Option<Frames>, line: Line) -> Option<Frames>
    ensures { result ≡ met_line frames line }
{
    meet(frames, &line)
}

// The mark of an imp: a method without one is never marked, and none is where no address is possible.
fn imp_mark(frames: Option<Frames>, imp: Option<u64>) -> Mark
    ensures { result ≡ imp_mark frames imp }
{
    let Some(start) = imp else {
        return Mark::Unmarked;
    };
    let Some(frames) = frames else {
        return Mark::Unmarked;
    };
    frames.mark(start)
}

// A line gets its mark, once all starts are met.
#[tactic(auto, unfolding(crate::specs::Marked::marked))]
pub(crate) fn mark(frames: Option<Frames>, line: &mut Line)
    ensures { line.new ≡ marked frames line.old }
{
    if let Line::Row(r) = line {
        r.mark = imp_mark(frames, row_imp(&r.row));
    }
}

// The same of a line by value.
pub fn marked(frames: Option<Frames>, line: Line) -> Line
    ensures { result ≡ marked frames line }
{
    let mut line = line;
    mark(frames, &mut line);
    line
}
