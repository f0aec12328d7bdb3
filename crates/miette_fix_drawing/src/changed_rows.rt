//! The rows of a removed or an added line.

ghost use Rattle.std.specs.Prelude.{◌≡◌, ◌+◌, ◌∷◌, [], ◌<◌, ◌≤◌, ◌^◌, length, IfOk, IfSome, OnOk, option_copied};
ghost use Rattle.std.specs.Option.{option_map};
ghost use Rattle.miette_style.specs.views.Printouts.{◌⊕◌};
ghost use Rattle.miette_style.specs.views.Tokens.{row_tokens, rows_tokens};
ghost use Rattle.miette_snippet_rules.specs.views.SnippetSettings.{settings_of};
ghost use Rattle.miette_snippet_rules.specs.views.LineTexts.{text_cells};
ghost use Rattle.miette_fix_rows.specs.rules.DiffRows.{changed_rows, line_reach, edit_underline_row, pair_reach};
ghost use Rattle.miette_fix_rows.specs.rules.DiffRows.{sign_start};
ghost use Rattle.miette_fix_rows.specs.rules.DiffRows.{changed_text_row};
ghost use Rattle.miette_fix_rows.specs.rules.DiffTexts.{line_cells};
ghost use Rattle.miette_fix_drawing.specs.steps.Ends.{changed_line_cut};
ghost use Rattle.miette_fix_drawing.specs.steps.Spans.{AreApart};
ghost use Rattle.miette_fix_drawing.specs.views.ChangedLines.{AreBothNear, IsNear, IsReadable, changed_line_of};

use crate::ascii_lines::{changed_pieces, push_changed_text};
use crate::changed_line::ChangedLine;
use crate::edit_underline_row::{edit_underlines, push_edit_underlines};
use crate::line_ends::line_ends;
use crate::line_starts::{PushResult, push_digits};
use crate::spans::spans_not_ending_before;
use crate::texts::strip_terminator;
use crate::visible_text::look_alike;
use miette_snippet_cuts::cutting::{
    CutSettings, cut_line_with, exceeds_limit, largest_reach, underlines_in_row,
};
use miette_snippet_frames::frame::Frame;
use miette_snippet_rules::dots::dots_width;
use miette_snippet_rules::line_bytes::LineText;
use miette_snippet_rules::line_part::LineCut;
use miette_snippet_rules::options::SnippetSettings;
use miette_style::canvas::Canvas;
use miette_style::page::RowPrinter;
use std::alloc::AllocError;

// Returns the text of a changed line, without its terminator.
fn text_in<'a>(settings: &SnippetSettings<'_>, line: &ChangedLine<'a>) -> LineText<'a>
    ensures text { text_cells result ≡ line_cells (settings_of settings.now) line.now.start line.now.text.now }
    ensures within { result.start + length result.bytes.now ≤ line.now.start + length line.now.text.now }
{
    LineText {
        start: line.start,
        bytes: strip_terminator(line.text),
        tab: settings.layout.tab_width,
    }
}

// Returns how many columns around the edits in a line fit into the limit.
fn reach_of(
    settings: &SnippetSettings<'_>,
    line: &ChangedLine,
    limit: usize,
) -> Result<usize, AllocError>
    requires within { line.now.start + length line.now.text.now < 2 ^ 64 }
    requires apart { AreApart line.now.spans.now }
    ensures { IfOk result (λ reach. reach ≡ line_reach (settings_of settings.now) limit (changed_line_of line.now)) }
{
    let text = text_in(settings, line);
    let ends = line_ends(settings, line)?;
    largest_reach(
        settings.alloc,
        &text,
        &ends,
        limit,
        dots_width(settings.theme),
    )
}

// Returns the smaller of the reaches of a line and its counterpart.
fn reach_of_pair(
    settings: &SnippetSettings<'_>,
    line: &ChangedLine,
    other: &Option<ChangedLine>,
    limit: usize,
) -> Result<usize, AllocError>
    requires within { line.now.start + length line.now.text.now < 2 ^ 64 }
    requires apart { AreApart line.now.spans.now }
    requires other { IfSome other.now IsReadable }
    ensures { IfOk result (λ reach. reach ≡ pair_reach (settings_of settings.now) limit (changed_line_of line.now)
        (option_map changed_line_of other.now)) }
{
    let own = reach_of(settings, line, limit)?;
    match other {
        Some(other) => Ok(own.min(reach_of(settings, other, limit)?)),
        None => Ok(own),
    }
}

// Cuts a line around the edits in it, by the same reach as its counterpart.
fn cut_of(
    settings: &SnippetSettings<'_>,
    line: &ChangedLine,
    other: &Option<ChangedLine>,
) -> Result<LineCut, AllocError>
    requires within { line.now.start + length line.now.text.now < 2 ^ 64 }
    requires apart { AreApart line.now.spans.now }
    requires other { IfSome other.now IsReadable }
    ensures { IfOk result (λ cut. option_map (λ made. made.items) cut ≡ changed_line_cut (settings_of settings.now)
        (changed_line_of line.now) (option_map changed_line_of other.now)) }
{
    let Some(limit) = settings.layout.line_columns else {
        return Ok(None);
    };
    let text = text_in(settings, line);
    let wide = exceeds_limit(&text, limit)?;
    if !wide {
        return Ok(None);
    }
    let reach = reach_of_pair(settings, line, other, limit)?;
    let ends = line_ends(settings, line)?;
    let room = CutSettings {
        limit,
        dots: dots_width(settings.theme),
        reach,
    };
    cut_line_with(settings.alloc, &text, &ends, &room)
}

// Prints what comes before the text of a changed line: ` 12 - `.
fn push_sign_start<O: Canvas>(
    page: &mut RowPrinter<O>,
    frame: &Frame,
    line: &ChangedLine,
) -> PushResult
    ensures { OnOk result (page.new ≡ page.old ⊕ row_tokens (sign_start (settings_of frame.now.settings)
        frame.now.number_width (changed_line_of line.now))) }
{
    push_digits(page, frame, line.number)?;
    page.push_blank(1)?;
    page.begin(line.style)?;
    page.push(line.sign)?;
    page.push_blank(1)
}

// Prints the row of a changed line: ` 12 - text`.
fn push_text_row<O: Canvas>(
    page: &mut RowPrinter<O>,
    frame: &Frame,
    line: &ChangedLine,
    other: &Option<ChangedLine>,
    cut: &LineCut,
) -> PushResult
    requires within { line.now.start + length line.now.text.now < 2 ^ 64 }
    requires apart { AreApart line.now.spans.now }
    requires cut { option_map (λ made. made.items) cut.now ≡ changed_line_cut (settings_of frame.now.settings)
        (changed_line_of line.now) (option_map changed_line_of other.now) }
    ensures { OnOk result (page.new ≡ page.old ⊕ rows_tokens (changed_text_row (settings_of frame.now.settings)
        frame.now.number_width (changed_line_of line.now) (option_map changed_line_of other.now) ∷ [])) }
{
    let text = text_in(&frame.settings, line);
    let pieces = changed_pieces(frame.settings.alloc, line.style, line.spans, &text)?;
    push_sign_start(page, frame, line)?;
    push_changed_text(page, &text, &pieces, cut, frame.settings.theme)?;
    page.end_row()
}

// Prints the underline row of a changed line.
fn push_line_underlines<O: Canvas>(
    page: &mut RowPrinter<O>,
    frame: &Frame,
    line: &ChangedLine,
    other: &Option<ChangedLine>,
    cut: &LineCut,
) -> PushResult
    requires within { line.now.start + length line.now.text.now < 2 ^ 64 }
    requires apart { AreApart line.now.spans.now }
    requires cut { option_map (λ made. made.items) cut.now ≡ changed_line_cut (settings_of frame.now.settings)
        (changed_line_of line.now) (option_map changed_line_of other.now) }
    ensures { OnOk result (page.new ≡ page.old ⊕ rows_tokens (edit_underline_row (settings_of frame.now.settings)
        frame.now.number_width (changed_line_of line.now) (option_map changed_line_of other.now))) }
{
    let marks = edit_underlines(&frame.settings, line)?;
    let dots = dots_width(frame.settings.theme);
    let shown = underlines_in_row(frame.settings.alloc, cut, marks, dots)?;
    push_edit_underlines(page, frame, line.sign, &shown)
}

// Returns the bytes of the counterpart.
fn bytes_beside<'a>(other: &Option<ChangedLine<'a>>) -> Option<&'a [u8]>
    ensures { option_copied result ≡ option_map (λ it. it.text) (option_map changed_line_of other.now) }
{
    match other {
        Some(other) => Some(other.text),
        None => None,
    }
}

// Prints the rows of a changed line. The spans of the line and of its counterpart are only those that may touch them.
fn push_near_rows<O: Canvas>(
    page: &mut RowPrinter<O>,
    frame: &Frame,
    line: &ChangedLine,
    other: &Option<ChangedLine>,
) -> PushResult
    requires within { line.now.start + length line.now.text.now < 2 ^ 64 }
    requires apart { AreApart line.now.spans.now }
    requires other { IfSome other.now IsReadable }
    ensures { OnOk result (page.new ≡ page.old ⊕ rows_tokens (changed_rows (settings_of frame.now.settings)
        frame.now.number_width (changed_line_of line.now) (option_map changed_line_of other.now))) }
{
    let cut = cut_of(&frame.settings, line, other)?;
    push_text_row(page, frame, line, other, &cut)?;
    let alike = look_alike(&frame.settings, line.text, bytes_beside(other))?;
    if alike {
        return push_line_underlines(page, frame, line, other, &cut);
    }
    Ok(())
}

// Returns the line with only the spans that may touch it.
fn near_line<'a>(line: &ChangedLine<'a>) -> ChangedLine<'a>
    requires { AreApart line.now.spans.now }
    ensures { IsNear line.now result }
{
    ChangedLine {
        spans: spans_not_ending_before(line.spans, line.start),
        ..*line
    }
}

// Returns the counterpart with only the spans that may touch it.
fn near_other<'a>(other: &Option<ChangedLine<'a>>) -> Option<ChangedLine<'a>>
    requires { IfSome other.now (λ it. AreApart it.spans.now) }
    ensures { AreBothNear other.now result }
{
    match other {
        Some(other) => Some(near_line(other)),
        None => None,
    }
}

/// Prints the rows of a changed line. `other` is its counterpart. `AllocError` if allocation fails, or if a number or a
/// column exceeds `usize::MAX`.
pub(crate) fn push_changed_rows<O: Canvas>(
    page: &mut RowPrinter<O>,
    frame: &Frame,
    line: &ChangedLine,
    other: Option<ChangedLine>,
) -> PushResult
    requires apart { AreApart line.now.spans.now }
    requires within { line.now.start + length line.now.text.now < 2 ^ 64 }
    requires other { IfSome other IsReadable }
    ensures { OnOk result (page.new ≡ page.old ⊕ rows_tokens (changed_rows (settings_of frame.now.settings)
        frame.now.number_width (changed_line_of line.now) (option_map changed_line_of other.entry))) }
{
    let near = near_line(line);
    let beside = near_other(&other);
    push_near_rows(page, frame, &near, &beside)
}
