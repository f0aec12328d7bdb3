//! Labels that may be folded, among the lines of a snippet.

ghost use Rattle.std.specs.Prelude.{◌≡◌, ◌+◌, ◌-◌, ◌<◌, ◌^◌, map, length, IfOk};
ghost use Rattle.miette_lines.specs.rules.Lines.{lines_from};
ghost use Rattle.miette_lines.specs.views.Walking.{line_of_text};
ghost use Rattle.miette_snippet_rules.specs.rules.FoldedLabels.{line_index_of};
ghost use Rattle.miette_snippet_folds.specs.views.ExtentIndex.{place_in, IsNumbered, AreNumbered};
ghost use Rattle.miette_snippet_folds.specs.views.Folding.{start_in, fold_in, is_around_fold};

use miette_lines::lines::LineOfText;
use miette_lines::scan::start_before;
use miette_protocol::source::MietteSpanContents;
use std::alloc::{AllocError, Global};

/// The extent of a label that may be folded, and of its context.
#[derive(Clone, Copy, Drop)]
pub struct LabelExtent {
    /// The offset of its first byte in the source.
    pub first: usize,
    /// The offset of the last byte it is drawn over. For an empty label, that of its first byte.
    pub last: usize,
    /// The offset at which its context begins.
    pub from: usize,
    /// The offset after its context, which counts as at least one byte.
    pub until: usize,
    /// The number of lines shown around its first and last line.
    pub around: usize,
    /// The number of the line of its first byte, zero-based.
    pub first_line: usize,
    /// The number of the line of its last byte, zero-based.
    pub last_line: usize,
    /// The number of the line at which its context begins, zero-based.
    pub from_line: usize,
}

/// The start of a line of a snippet, or the end of the last line.
#[derive(Clone, Copy, Drop)]
pub struct LineStart {
    /// The offset in the source.
    pub offset: usize,
    /// How many lines of the snippet come before it.
    pub place: usize,
}

/// A label among the lines of a snippet.
#[derive(Clone, Copy, Drop)]
pub struct Fold {
    /// The label.
    pub label: LabelExtent,
    /// The line of its first byte, counted from 0 in the snippet.
    pub first: usize,
    /// The line of its last byte, counted from 0 in the snippet.
    pub last: usize,
    /// The start of the line at which its context begins.
    pub begun: LineStart,
    /// The start of the first line shown above its last line, if it is folded.
    pub resumed: LineStart,
}

// Returns the place of a line with this number among the lines that were read. For a line after them, returns how many
// have a terminator.
fn place_in(contents: &MietteSpanContents<'_>, line: usize) -> usize
    ensures { result ≡ place_in contents.now line }
{
    line.saturating_sub(contents.line())
        .min(contents.line_count())
}

// Returns the start of the line that is `lines` lines above the line of an offset, which is line `place`.
fn start_above(bytes: &[u8], start: usize, offset: usize, place: usize, lines: usize) -> LineStart
    requires small { start + length bytes.now < 2 ^ 64 }
    requires place { place ≡ line_index_of (lines_from start bytes.now) offset }
    ensures { result ≡ start_in start bytes.now (place - lines) }
{
    let at = bytes.len().min(offset.saturating_sub(start));
    LineStart {
        offset: start + start_before(bytes, at, lines).0,
        place: place.saturating_sub(lines),
    }
}

// Locates a label among the lines that were read.
fn fold_in(contents: &MietteSpanContents<'_>, label: &LabelExtent) -> Fold
    requires small { contents.now.span.offset + length contents.now.bytes < 2 ^ 64 }
    requires numbered { IsNumbered contents.now label.now }
    ensures { result ≡ fold_in contents.now.span.offset contents.now.bytes label.now }
{
    let bytes = contents.data();
    let start = contents.span().offset();
    let last = place_in(contents, label.last_line);
    let from = place_in(contents, label.from_line);
    Fold {
        label: *label,
        first: place_in(contents, label.first_line),
        last,
        begun: start_above(bytes, start, label.from, from, 0),
        resumed: start_above(bytes, start, label.last, last, label.around),
    }
}

/// Locates labels among the lines that were read, in order. `AllocError` if allocation fails.
pub fn fold_list(
    alloc: Global,
    contents: &MietteSpanContents<'_>,
    labels: &[LabelExtent],
) -> Result<Vec<Fold>, AllocError>
    requires small { contents.now.span.offset + length contents.now.bytes < 2 ^ 64 }
    requires numbered { AreNumbered contents.now labels.now }
    ensures { IfOk result (λ folds. folds.items
        ≡ map (fold_in contents.now.span.offset contents.now.bytes) labels.now) }
{
    let mut folds = Vec::with_capacity(alloc, labels.len())?;
    for label in labels {
        folds.push(fold_in(contents, label))?;
    }
    Ok(folds)
}

/// Returns whether a line has a byte of the label's context.
pub fn is_around(line: &LineOfText, fold: &Fold) -> bool
    ensures { result ≡ is_around_fold (line_of_text line.now) fold.now }
{
    line.start < fold.label.until && fold.label.from < line.end
}
