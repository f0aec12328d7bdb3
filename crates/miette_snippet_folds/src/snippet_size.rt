//! Counting the lines of a snippet, and the most multi-line labels on one of them.

ghost use Rattle.std.specs.Prelude.{◌≡◌, ◌+◌, ◌-◌, ◌<◌, ◌≤◌, ◌^◌, ℕ, true, false, drop, length, IfOk};
ghost use Rattle.miette_labels.specs.views.Sweeping.{IsAt, AreSorted};
ghost use Rattle.miette_lines.specs.rules.Lines.{lines_from};
ghost use Rattle.miette_snippet_folds.specs.steps.Counting.{begins_before, next_counted, some_go_on};
ghost use Rattle.miette_lines.specs.views.Walking.{line_of_text};
ghost use Rattle.miette_labels.specs.views.LabelCounts.{most_multi};
ghost use Rattle.miette_snippet_folds.specs.views.Folding.{AreFoldsIn};

use crate::fold_index::FoldIndex;
use crate::folds::LineStart;
use crate::gaps::next_line_start;
use miette_labels::line_sweep::{line_at, skip_lines};
use miette_labels::placed::PlacedLabel;
use miette_labels::sweep::Sweep;
use miette_lines::find::FindLines;
use miette_lines::lines::LineOfText;
use miette_lines::scan::ScanLines;
use std::alloc::AllocError;

// Up to this many bytes, lines are visited one by one; that is cheaper than a separate count.
const FEW: usize = 512;

/// The size of a snippet.
#[derive(Clone, Copy, Debug, PartialEq, Eq, Drop)]
pub struct SnippetSize {
    /// The number of lines.
    pub lines: usize,
    /// The most multi-line labels on one line.
    pub most: usize,
}

// Returns whether one of the labels from `first` on begins before an offset.
fn begins_before(labels: &[PlacedLabel<'_>], first: usize, offset: usize) -> bool
    ensures { result ≡ begins_before labels.now first offset }
{
    first < labels.len() && labels[first].start < offset
}

// Returns the start of the next line to visit after `line`. `place` lines come before `line`. No label begins on the
// skipped lines, so none has more labels than `line`.
fn next_counted(
    labels: &[PlacedLabel<'_>],
    sweep: &Sweep<'_>,
    folds: &FoldIndex,
    place: usize,
    line: &LineOfText,
) -> LineStart
    requires { place + 1 < 2 ^ 64 }
    ensures { result ≡ next_counted labels.now sweep.now.next (some_go_on sweep.now.running.items) folds.now place
        (line_of_text line.now) }
{
    if sweep.running.is_empty() || folds.is_empty() {
        return next_line_start(folds, place, line, false);
    }
    let far = next_line_start(folds, place, line, true);
    if begins_before(labels, sweep.next, far.offset) {
        return next_line_start(folds, place, line, false);
    }
    far
}

// Counts lines: one more than the terminators that end before the last byte.
#[tactic(auto, using(crate::proofs::LineCounts::counting))]
fn count_lines(bytes: &[u8]) -> usize
    ensures lines { (at : ℕ) → result ≡ length (lines_from at bytes.now) }
    ensures few { result ≤ length bytes.now }
{
    if bytes.is_empty() {
        return 0;
    }
    ScanLines(bytes).line_from(0, 0, bytes.len() - 1) + 1
}

// Returns whether the remaining lines can be counted without visiting them. No folded label may go on after `line`, no
// label may begin before the end, and enough bytes must remain.
fn counts_rest(
    labels: &[PlacedLabel<'_>],
    sweep: &Sweep<'_>,
    folds: &FoldIndex,
    end: usize,
    line: &LineOfText,
) -> bool
    ensures { result ≡ true → begins_before labels.now sweep.now.next end ≡ false }
{
    let jumps = !sweep.running.is_empty() && !folds.is_empty();
    !jumps && end.saturating_sub(line.end) > FEW && !begins_before(labels, sweep.next, end)
}

// Returns where the bytes end, after counting the lines after `line`. `place` lines come before `line`.
fn counted_end(bytes: &[u8], start: usize, place: usize, line: &LineOfText) -> LineStart
    requires order { start ≤ line.now.end }
    requires inside { line.now.end ≤ start + length bytes.now }
    requires place { place < line.now.end - start }
    requires small { start + length bytes.now < 2 ^ 64 }
    ensures offset { result.offset ≡ start + length bytes.now }
    ensures place { result.place ≡ place + 1
        + length (lines_from line.now.end (drop (line.now.end - start) bytes.now)) }
{
    LineStart {
        offset: start + bytes.len(),
        place: place + 1 + count_lines(&bytes[line.end - start..]),
    }
}

/// Measures a snippet. `bytes` are its bytes, `start` their offset in the source, where the sweep must be. Lines that
/// are left out inside folded labels are skipped. Lines after the start of the last label are counted at once. The
/// sweep moves to the end of the bytes. `AllocError` if allocation fails.
pub fn size_of_snippet<'a>(
    bytes: &[u8],
    start: usize,
    folds: &FoldIndex,
    labels: &[PlacedLabel<'a>],
    sweep: &mut Sweep<'a>,
) -> Result<SnippetSize, AllocError>
    requires sorted { AreSorted labels.now }
    requires at { IsAt labels.now start sweep.old.next sweep.old.running.items }
    requires small { start + length bytes.now < 2 ^ 64 }
    requires folds { AreFoldsIn start bytes.now folds.now }
    ensures lines { IfOk result (λ extent. extent.lines ≡ length (lines_from start bytes.now)) }
    ensures most { IfOk result (λ extent. extent.most ≡ most_multi labels.now (lines_from start bytes.now)) }
{
    let end = start + bytes.len();
    let mut at: usize = 0;
    let mut place: usize = 0;
    let mut most: usize = 0;
    while at < bytes.len() {
        let line = line_at(bytes, start, at);
        sweep.enter(labels, &line)?;
        most = sweep.running.len().max(most);
        sweep.leave(line.end);
        let next = if counts_rest(labels, sweep, folds, end, &line) {
            counted_end(bytes, start, place, &line)
        } else {
            next_counted(labels, sweep, folds, place, &line)
        };
        skip_lines(labels, line.end, next.offset, sweep)?;
        place = next.place;
        at = next.offset - start;
    }
    Ok(SnippetSize { lines: place, most })
}
