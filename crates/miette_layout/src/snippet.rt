//! The rows of one snippet.
//!
//!        ╭─[src/a.rs:1:1]       the frame's top row, with the position it points to
//!      1 │ ╭─▶ source           a number row: number, gutter, text of the line
//!      2 │ │     text           the gutter continues until the multi-line label ends
//!        · │     ──┬─           an underline for each one-line label; `┬` is its pointer
//!        · │       ╰── here     a connector `╰──` leads from the pointer to the label text
//!      3 │ ├─▶     here         the gutter of a multi-line label where it ends
//!        · ╰──── whole          and its label text
//!        ╰────                  the frame's bottom row
//!
//! The steps, in order:
//!
//! 1. `push_snippet` moves the sweep over the labels to the first line of the snippet and restarts the highlighter.
//! 2. `push_framed` measures the snippet (`miette_snippet_folds::snippet_size`) and prints its frame
//!    (`miette_snippet_frames::frame`).
//! 3. `push_lines` visits the lines. For each it takes the labels from the sweep and the highlighter's pieces, and
//!    decides whether the line is left out (`miette_snippet_folds::left_out`). Without a highlighter it skips the
//!    rest of a gap at once (`miette_snippet_folds::gaps`).
//! 4. `push_line_or_break` (`line.rt`) prints the rows of a line: the number row after its gutter, the underlines, the
//!    label texts with their connectors, and the label texts of multi-line labels (`miette_snippet_frames`).
//!    `miette_snippet_cuts` cuts a line that is too long and moves its underlines.

ghost use Rattle.std.specs.Prelude.{◌≡◌, ◌∷◌, ◌+◌, ◌<◌, ◌^◌, List, map, length, false, IfOk, OnOk};
ghost use Rattle.miette_highlight.specs.rules.HighlighterCalls.{restarted};
ghost use Rattle.miette_snippet_folds.specs.views.Folding.{fold_in};
ghost use Rattle.miette_snippet_folds.specs.views.ExtentIndex.{extent_view, AreNumbered};
ghost use Rattle.miette_snippet_rules.specs.views.SnippetSettings.{settings_of};
ghost use Rattle.miette_snippet_rules.specs.rules.SnippetLayout.{left_out, rows_of_lines, snippet_context};
ghost use Rattle.miette_labels.specs.views.Sweeping.{IsAt, AreSorted};
ghost use Rattle.miette_snippet_frames.specs.views.Widths.{width_of_count, gutter_of};
ghost use Rattle.miette_snippet_frames.specs.views.ContentsRows.{PutsRows, cells_in, texts_in};
ghost use Rattle.miette_layout.specs.views.SnippetRows.{PutsSnippet};
ghost use Rattle.miette_lines.specs.rules.Lines.{lines_from};
ghost use Rattle.miette_labels.specs.views.ProgramLabels.{drawn_of};
ghost use Rattle.miette_snippet_rules.specs.rules.Highlighting.{AreCallsOn, leaves_plain};

use crate::highlighting::{may_pass, pieces_of, restart};
use crate::line::{PushResult, push_line_or_break};
use miette_highlight::highlight::Highlighter;
use miette_labels::line_sweep::{line_at, skip_lines};
use miette_labels::placed::PlacedLabel;
use miette_labels::sweep::Sweep;
use miette_lines::sums::sum;
use miette_protocol::source::MietteSpanContents;
use miette_snippet_folds::extent_index::ExtentIndex;
use miette_snippet_folds::fold_index::{FoldIndex, index_folds};
use miette_snippet_folds::folds::LabelExtent;
use miette_snippet_folds::gaps::next_line_start;
use miette_snippet_folds::left_out::{FoldedLines, leaves_out};
use miette_snippet_folds::snippet_size::size_of_snippet;
use miette_snippet_frames::frame::{
    Frame, SnippetHeader, digits, push_frame_bottom, push_frame_top,
};
use miette_snippet_frames::line_context::LineContext;
use miette_snippet_rules::options::SnippetSettings;
use miette_style::canvas::Canvas;
use miette_style::page::RowPrinter;
use std::alloc::{AllocError, Global};

/// What the snippets of a diagnostic are drawn with.
#[derive(Clone, Copy)]
pub struct SnippetDrawing<'a> {
    /// The settings.
    pub settings: SnippetSettings<'a>,
    /// The labels, sorted by offset.
    pub placed: &'a [PlacedLabel<'a>],
    /// The extents of labels that may be folded; none if labels aren't folded.
    pub label_extents: &'a ExtentIndex,
}

/// A snippet: the contents of its read, and the position its frame points to.
#[derive(Clone, Copy)]
pub struct Snippet<'a> {
    /// The contents of its read.
    pub contents: &'a MietteSpanContents<'a>,
    /// The zero-based line and column, or `None` if the frame points nowhere.
    pub place: Option<(usize, usize)>,
}

/// A sweep over labels, and its offset.
#[derive(Drop)]
pub struct SweepPosition<'a> {
    /// The state of the sweep.
    pub sweep: Sweep<'a>,
    /// The offset.
    pub at: usize,
}

// What the lines of a snippet are drawn with. `before` lines of the source come before them, and `start` is the offset
// of their bytes.
#[derive(Clone, Copy)]
struct Body<'a> {
    frame: Frame<'a>,
    gutter: usize,
    before: usize,
    start: usize,
    bytes: &'a [u8],
    label_extents: &'a [LabelExtent],
    folds: &'a FoldIndex,
}

// Returns the one-based number of the line at `place` in the snippet. `before` lines come before the snippet.
fn number_of(before: usize, place: usize) -> Result<usize, AllocError>
    ensures { IfOk result (λ number. number ≡ before + place + 1) }
{
    sum(sum(before, place)?, 1)
}

// Returns the width of the last line's number, or 1 without lines. `before` lines come before the snippet's `lines`
// lines.
fn number_width(before: usize, lines: usize) -> Result<usize, AllocError>
    ensures { IfOk result (λ w. w ≡ width_of_count before lines) }
{
    if lines == 0 {
        return Ok(1);
    }
    Ok(digits(sum(before, lines)?))
}

// Returns the width of a gutter for at most `most` labels on a line.
fn gutter_width(most: usize) -> Result<usize, AllocError>
    ensures { IfOk result (λ columns. columns ≡ gutter_of most) }
{
    if most == 0 {
        return Ok(0);
    }
    sum(most, 3)
}

// Moves the sweep to an offset.
fn seek<'a>(
    alloc: Global,
    labels: &[PlacedLabel<'a>],
    place: usize,
    position: &mut SweepPosition<'a>,
) -> PushResult
    requires sorted { AreSorted labels.now }
    requires at { IsAt labels.now position.old.at position.old.sweep.next position.old.sweep.running.items }
    ensures { OnOk result (IsAt labels.now place position.new.sweep.next position.new.sweep.running.items) }
{
    let mut from = position.at;
    if place < from {
        position.sweep = Sweep::new(alloc);
        from = 0;
    }
    skip_lines(labels, from, place, &mut position.sweep)
}

// Prints the lines of a snippet. The highlighter also gets the lines that are left out. Without a highlighter, a gap is
// skipped at once.
fn push_lines<'a, H: Highlighter, O: Canvas>(
    page: &mut RowPrinter<O>,
    labels: &[PlacedLabel<'a>],
    body: &Body<'_>,
    highlighter: &mut Option<H>,
    sweep: &mut Sweep<'a>,
) -> PushResult
    requires sorted { AreSorted labels.now }
    requires at { IsAt labels.now body.now.start sweep.old.next sweep.old.running.items }
    requires small { body.now.start + length body.now.bytes.now < 2 ^ 64 }
    requires folds { body.now.folds.now ≡ map (fold_in body.now.start body.now.bytes.now) body.now.label_extents.now }
    ensures rows { OnOk result (PutsRows (leaves_plain H.is_blank highlighter.old)
        (AreCallsOn H.may_follow highlighter.old highlighter.new)
        (texts_in body.now.start body.now.bytes.now (lines_from body.now.start body.now.bytes.now))
        (λ pieces. rows_of_lines (left_out (settings_of body.now.frame.settings) body.now.before
        (lines_from body.now.start body.now.bytes.now) (map extent_view body.now.label_extents.now)) false
        (snippet_context (settings_of body.now.frame.settings) body.now.frame.number_width body.now.gutter
        (map drawn_of labels.now)
        (cells_in (settings_of body.now.frame.settings) body.now.start body.now.bytes.now)) (body.now.before + 1) pieces
        (lines_from body.now.start body.now.bytes.now))
        page.old page.new) }
    ensures stays { leaves_plain H.is_blank highlighter.new ≡ leaves_plain H.is_blank highlighter.old }
    ensures at { OnOk result (IsAt labels.now (body.now.start + length body.now.bytes.now) sweep.new.next
        sweep.new.running.items) }
{
    let settings = body.frame.settings;
    let lines = FoldedLines {
        bytes: body.bytes,
        start: body.start,
        folds: body.folds,
    };
    let (mut place, mut at, mut gap): (usize, usize, bool) = (0, 0, false);
    while at < body.bytes.len() {
        let number = number_of(body.before, place)?;
        let line = line_at(body.bytes, body.start, at);
        sweep.enter(labels, &line)?;
        let text = &body.bytes[line.start - body.start..line.text_end - body.start];
        let pieces = pieces_of(settings.alloc, highlighter, text)?;
        let left_out = leaves_out(settings.layout.label_lines, &lines, place, &line, gap);
        let context = LineContext {
            frame: body.frame,
            gutter: body.gutter,
            number,
            line,
            text,
            multi: &sweep.running,
            one: &sweep.alone,
            pieces: &pieces,
        };
        push_line_or_break(page, &context, left_out, gap)?;
        sweep.leave(line.end);
        let next = next_line_start(body.folds, place, &line, may_pass(highlighter, left_out));
        skip_lines(labels, line.end, next.offset, sweep)?;
        gap = left_out;
        place = next.place;
        at = next.offset - body.start;
    }
    Ok(())
}

// Prints a snippet. The sweep must be at its first line.
fn push_framed<'a, H: Highlighter, O: Canvas>(
    page: &mut RowPrinter<O>,
    drawing: &SnippetDrawing<'a>,
    highlighter: &mut Option<H>,
    sweep: &mut Sweep<'a>,
    snippet: &Snippet<'_>,
) -> PushResult
    requires sorted { AreSorted drawing.now.placed.now }
    requires at { IsAt drawing.now.placed.now snippet.now.contents.now.span.offset sweep.old.next
        sweep.old.running.items }
    requires small { snippet.now.contents.now.span.offset + length snippet.now.contents.now.bytes < 2 ^ 64 }
    requires numbered { AreNumbered snippet.now.contents.now drawing.now.label_extents.now }
    ensures rows { OnOk result (PutsSnippet (leaves_plain H.is_blank highlighter.old)
        (AreCallsOn H.may_follow highlighter.old highlighter.new)
        drawing.now snippet.now page.old page.new) }
    ensures stays { leaves_plain H.is_blank highlighter.new ≡ leaves_plain H.is_blank highlighter.old }
    ensures at { OnOk result (IsAt drawing.now.placed.now
        (snippet.now.contents.now.span.offset + length snippet.now.contents.now.bytes) sweep.new.next
        sweep.new.running.items) }
{
    let contents = snippet.contents;
    let start = contents.span().offset();
    let bytes = contents.data();
    let before = contents.line();
    let end = start + bytes.len();
    let label_extents = drawing.label_extents.around(start, end);
    let folds = index_folds(drawing.settings.alloc, contents, label_extents)?;
    let begun = sweep.copy(drawing.settings.alloc)?;
    let extent = size_of_snippet(bytes, start, &folds, drawing.placed, sweep)?;
    sweep.return_to(begun);
    let frame = Frame {
        settings: drawing.settings,
        number_width: number_width(before, extent.lines)?,
    };
    let body = Body {
        frame,
        gutter: gutter_width(extent.most)?,
        before,
        start,
        bytes,
        label_extents,
        folds: &folds,
    };
    let heading = SnippetHeader {
        name: contents.name(),
        several: extent.lines > 1,
        place: snippet.place,
    };
    push_frame_top(page, &frame, &heading)?;
    push_lines(page, drawing.placed, &body, highlighter, sweep)?;
    push_frame_bottom(page, &frame)
}

/// Prints a snippet with its frame. Restarts the highlighter and moves the sweep to the end of the snippet.
/// `AllocError` if allocation fails, also in the highlighter, or if an offset, a line number or a column exceeds
/// `usize::MAX`.
pub fn push_snippet<'a, H: Highlighter, O: Canvas>(
    page: &mut RowPrinter<O>,
    drawing: &SnippetDrawing<'a>,
    highlighter: &mut Option<H>,
    position: &mut SweepPosition<'a>,
    snippet: &Snippet<'_>,
) -> PushResult
    requires sorted { AreSorted drawing.now.placed.now }
    requires at { IsAt drawing.now.placed.now position.old.at position.old.sweep.next position.old.sweep.running.items }
    requires numbered { AreNumbered snippet.now.contents.now drawing.now.label_extents.now }
    ensures rows { OnOk result (PutsSnippet (leaves_plain H.is_blank highlighter.old)
        (λ calls. AreCallsOn H.may_follow highlighter.old highlighter.new (restarted snippet.now.contents.now ∷ calls))
        drawing.now snippet.now page.old page.new) }
    ensures stays { leaves_plain H.is_blank highlighter.new ≡ leaves_plain H.is_blank highlighter.old }
    ensures at { OnOk result (IsAt drawing.now.placed.now position.new.at position.new.sweep.next
        position.new.sweep.running.items) }
{
    let start = snippet.contents.span().offset();
    let end = sum(start, snippet.contents.data().len())?;
    seek(drawing.settings.alloc, drawing.placed, start, position)?;
    restart(highlighter, snippet.contents);
    push_framed(page, drawing, highlighter, &mut position.sweep, snippet)?;
    position.at = end;
    Ok(())
}
