//! Finding the end of a gap: consecutive lines that are left out inside folded labels.

ghost use Rattle.std.specs.Prelude.{◌≡◌, ◌+◌, ◌<◌, ◌^◌};
ghost use Rattle.std.specs.List.{list_any};
ghost use Rattle.miette_lines.specs.views.Walking.{line_of_text};
ghost use Rattle.miette_snippet_folds.specs.views.Gaps.{further, nearer_stop, nearest_stop, goes_on, gap_end};
ghost use Rattle.miette_snippet_folds.specs.views.Gaps.{next_line_start};

use crate::fold_index::{FoldIndex, nearest};
use crate::folds::{Fold, LineStart, is_around};
use miette_lines::lines::LineOfText;

// Returns the later of two line starts.
fn further(a: LineStart, b: LineStart) -> LineStart
    ensures { result ≡ further a b }
{
    LineStart {
        offset: a.offset.max(b.offset),
        place: a.place.max(b.place),
    }
}

// Returns the first of two places where a gap must stop: `end`, or where this label is shown again.
fn nearer_stop(line: &LineOfText, end: Option<LineStart>, fold: &Fold) -> Option<LineStart>
    ensures { result ≡ nearer_stop (line_of_text line.now) end fold.now }
{
    if line.end <= fold.label.from {
        Some(nearest(end, fold.begun))
    } else if line.start < fold.label.until {
        Some(nearest(end, fold.resumed))
    } else {
        end
    }
}

// Returns the first place where a gap must stop because of one of the labels, or `stop` if that comes first.
fn nearest_stop(line: &LineOfText, stop: Option<LineStart>, folds: &[Fold]) -> Option<LineStart>
    ensures { result ≡ nearest_stop (line_of_text line.now) stop folds.now }
{
    let mut end = stop;
    for fold in folds {
        end = nearer_stop(line, end, fold);
    }
    end
}

// Returns whether the label's context has a byte of the line and reaches up to `end`.
fn goes_on(line: &LineOfText, end: LineStart, fold: &Fold) -> bool
    ensures { result ≡ goes_on (line_of_text line.now) end fold.now }
{
    is_around(line, fold) && end.offset <= fold.label.until
}

// Returns whether one label's context does.
fn some_goes_on(line: &LineOfText, end: LineStart, folds: &[Fold]) -> bool
    ensures { result ≡ list_any (goes_on (line_of_text line.now) end) folds.now }
{
    for fold in folds {
        if goes_on(line, end, fold) {
            return true;
        }
    }
    false
}

// Returns where a gap ends that begins with `line`. `next` is the start of the next line. All lines up to the end are
// left out: a label that hides the first hides them too, and no context begins among them.
fn gap_end(line: &LineOfText, next: LineStart, folds: &FoldIndex) -> LineStart
    ensures { result ≡ gap_end (line_of_text line.now) next folds.now }
{
    let near = folds.around_line(line);
    let Some(end) = nearest_stop(line, near.stop, near.folds) else {
        return next;
    };
    if some_goes_on(line, end, near.folds) {
        further(next, end)
    } else {
        next
    }
}

/// Returns the start of the next line to visit after `line`, which has `place` lines before it. If `jumps` and the line
/// is left out, that is the end of its gap, else the next line.
pub fn next_line_start(folds: &FoldIndex, place: usize, line: &LineOfText, jumps: bool) -> LineStart
    requires { place + 1 < 2 ^ 64 }
    ensures { result ≡ next_line_start folds.now place (line_of_text line.now) jumps }
{
    let next = LineStart {
        offset: line.end,
        place: place + 1,
    };
    if jumps {
        gap_end(line, next, folds)
    } else {
        next
    }
}
