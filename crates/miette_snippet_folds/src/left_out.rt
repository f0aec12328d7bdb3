//! Which lines of a snippet are left out inside folded labels.

ghost use Rattle.std.specs.Prelude.{◌≡◌, ◌+◌, ◌<◌, ◌≤◌, ◌^◌, ℕ, List, Some, true, map, length};
ghost use Rattle.std.specs.List.{list_any};
ghost use Rattle.miette_lines.specs.rules.Lines.{lines_from};
ghost use Rattle.miette_lines.specs.views.Walking.{line_of_text};
ghost use Rattle.miette_snippet_rules.specs.rules.FoldedLabels.{hides, is_beside_hidden, is_hidden, leaves_out};
ghost use Rattle.miette_snippet_rules.specs.rules.FoldedLabels.{line_at};
ghost use Rattle.miette_snippet_folds.specs.views.ExtentIndex.{extent_view};
ghost use Rattle.miette_snippet_folds.specs.views.Folding.{fold_in, is_around_fold};
ghost use Rattle.miette_snippet_folds.specs.views.LeftOut.{AreAmong, IsPlaced, IsThere, lines_of_bytes, was_left_out};
ghost use Rattle.miette_snippet_folds.specs.steps.Nearness.{is_near_fold};

use crate::fold_index::FoldIndex;
use crate::folds::{Fold, LabelExtent, is_around};
use miette_labels::line_sweep::line_at;
use miette_lines::lines::LineOfText;

/// The lines of a snippet, and the labels that may be folded among them.
#[derive(Clone, Copy)]
pub struct FoldedLines<'a> {
    /// The bytes of the snippet.
    pub bytes: &'a [u8],
    /// The offset of the first byte in the source.
    pub start: usize,
    /// The labels that may be folded.
    pub folds: &'a FoldIndex,
}

// Returns whether a label that is folded to `limit` lines hides the line.
fn hides_line(limit: usize, place: usize, fold: &Fold) -> bool
    ensures { result ≡ hides limit fold.now.first fold.now.last fold.now.label.around place }
{
    let around = fold.label.around;
    let is_inside = around < place.saturating_sub(fold.first)
        && around < fold.last.saturating_sub(place);
    limit <= fold.last.saturating_sub(fold.first) && is_inside
}

// Returns whether a line is in the context of a label that is folded to `limit` lines.
fn is_in_fold(limit: usize, place: usize, line: &LineOfText, fold: &Fold) -> bool
    ensures { result ≡ is_near_fold limit place (line_of_text line.now) fold.now }
{
    is_around(line, fold) && !hides_line(limit, place, fold)
}

// Returns whether a line is in the context of some label.
fn some_around(folds: &[Fold], line: &LineOfText) -> bool
    ensures { result ≡ list_any (is_around_fold (line_of_text line.now)) folds.now }
{
    for fold in folds {
        if is_around(line, fold) {
            return true;
        }
    }
    false
}

// Returns whether a line is in the context of some label that is folded to `limit` lines.
fn some_near(limit: usize, folds: &[Fold], place: usize, line: &LineOfText) -> bool
    ensures { result ≡ list_any (is_near_fold limit place (line_of_text line.now)) folds.now }
{
    for fold in folds {
        if is_in_fold(limit, place, line, fold) {
            return true;
        }
    }
    false
}

// Returns whether a line is hidden: it is in the context of some label, but not once labels are folded to `limit`
// lines.
fn is_hidden(limit: usize, folds: &FoldIndex, place: usize, line: &LineOfText) -> bool
    ensures { (start : ℕ) (bytes : List ℕ) (labels : List LabelExtent) →
        folds.now ≡ map (fold_in start bytes) labels →
        result ≡ is_hidden limit (lines_from start bytes) (map extent_view labels) place (line_of_text line.now) }
{
    let near = folds.around_line(line);
    if some_near(limit, near.folds, place, line) {
        return false;
    }
    some_around(near.folds, line)
}

// Returns whether the line after line `place` is hidden.
fn is_next_hidden(limit: usize, lines: &FoldedLines<'_>, place: usize, line: &LineOfText) -> bool
    requires { IsPlaced lines.now place line.now }
    ensures { (labels : List LabelExtent) → AreAmong lines.now labels →
        result ≡ is_hidden limit (lines_of_bytes lines.now) (map extent_view labels) (place + 1)
        (line_at (lines_of_bytes lines.now) (place + 1)) }
{
    let after = line.end - lines.start;
    if after < lines.bytes.len() {
        let next = line_at(lines.bytes, lines.start, after);
        return is_hidden(limit, lines.folds, place + 1, &next);
    }
    false
}

// Returns whether the previous or the next line is hidden. `gap` says whether the previous line is left out, and so
// hidden.
fn is_beside_hidden(
    limit: usize,
    lines: &FoldedLines<'_>,
    place: usize,
    line: &LineOfText,
    gap: bool,
) -> bool
    requires { IsPlaced lines.now place line.now }
    ensures { (labels : List LabelExtent) → AreAmong lines.now labels →
        gap ≡ was_left_out (Some limit) lines.now place (map extent_view labels) →
        is_hidden limit (lines_of_bytes lines.now) (map extent_view labels) place (line_of_text line.now) ≡ true →
        result ≡ is_beside_hidden limit (lines_of_bytes lines.now) (map extent_view labels) place }
{
    if gap {
        return true;
    }
    is_next_hidden(limit, lines, place, line)
}

// Returns whether a line is left out if labels are folded to `limit` lines.
fn is_left_out(
    limit: usize,
    lines: &FoldedLines<'_>,
    place: usize,
    line: &LineOfText,
    gap: bool,
) -> bool
    requires { IsPlaced lines.now place line.now }
    ensures { (labels : List LabelExtent) → AreAmong lines.now labels →
        gap ≡ was_left_out (Some limit) lines.now place (map extent_view labels) →
        result ≡ leaves_out (Some limit) (lines_of_bytes lines.now) (map extent_view labels) place
        (line_of_text line.now) }
{
    if is_hidden(limit, lines.folds, place, line) {
        return is_beside_hidden(limit, lines, place, line, gap);
    }
    false
}

/// Returns whether a line is left out: it is hidden by folding to `limit` lines, and so is the line before or after it.
/// `place` lines come before it in the snippet. `gap` says whether the previous line is left out.
pub fn leaves_out(
    limit: Option<usize>,
    lines: &FoldedLines<'_>,
    place: usize,
    line: &LineOfText,
    gap: bool,
) -> bool
    requires small { lines.now.start + length lines.now.bytes.now < 2 ^ 64 }
    requires place { place + 1 < 2 ^ 64 }
    requires low { lines.now.start ≤ line.now.end }
    requires there { IsThere lines.now place line.now }
    ensures { (labels : List LabelExtent) → AreAmong lines.now labels →
        gap ≡ was_left_out limit lines.now place (map extent_view labels) →
        result ≡ leaves_out limit (lines_of_bytes lines.now) (map extent_view labels) place (line_of_text line.now) }
{
    match limit {
        Some(limit) => is_left_out(limit, lines, place, line, gap),
        None => false,
    }
}
