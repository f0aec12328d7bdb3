//! The underline row of a changed line that looks like its counterpart.

ghost use Rattle.std.specs.Prelude.{◌≡◌, ◌+◌, ◌∷◌, [], ◌++◌, ◌<◌, ◌^◌, length, map, if◌then◌else◌, IfOk, OnOk};
ghost use Rattle.miette_style.specs.views.Printouts.{◌⊕◌};
ghost use Rattle.miette_style.specs.views.Tokens.{row_tokens, rows_tokens};
ghost use Rattle.miette_labels.specs.views.ProgramLabels.{drawn_of};
ghost use Rattle.miette_snippet_rules.specs.rules.Frames.{other_start};
ghost use Rattle.miette_snippet_rules.specs.rules.SnippetSettings.{SnippetSettings as RuledSettings};
ghost use Rattle.miette_snippet_rules.specs.views.MadeUnderlines.{underline_of};
ghost use Rattle.miette_snippet_rules.specs.views.SnippetSettings.{settings_of};
ghost use Rattle.miette_fix_rows.specs.rules.DiffRows.{before_some, row_if_some};
ghost use Rattle.miette_fix_rows.specs.rules.DiffTexts.{edit_underlines, has_bytes, part_in, parts_in, sign_runs};
ghost use Rattle.miette_fix_drawing.specs.steps.Spans.{AreApart};

use crate::changed_line::ChangedLine;
use crate::line_starts::{PushResult, push_other_start};
use crate::texts::strip_terminator;
use miette_labels::placed::PlacedLabel;
use miette_lines::lines::LineOfText;
use miette_protocol::protocol::SourceSpan;
use miette_snippet_frames::frame::Frame;
use miette_snippet_rules::line_underlines::underlines_on;
use miette_snippet_rules::options::SnippetSettings;
use miette_snippet_rules::underlines::Underline;
use miette_style::canvas::Canvas;
use miette_style::page::RowPrinter;
use std::alloc::{AllocError, Global};

/// Returns the part of a span that is in a changed line.
pub(crate) fn part_in<'a>(line: &ChangedLine, span: &SourceSpan) -> PlacedLabel<'a>
    requires { line.now.start + length line.now.text.now < 2 ^ 64 }
    ensures { drawn_of result ≡ part_in line.now.start (length line.now.text.now) line.now.style span.now }
{
    let end = line.start + line.text.len();
    PlacedLabel {
        start: line.start.max(span.offset()),
        after: end.min(span.offset().saturating_add(span.len())),
        style: line.style,
        text: None,
        after_text: false,
    }
}

// Appends a part of a span unless it is empty.
fn push_part<'a>(parts: &mut Vec<PlacedLabel<'a>>, part: PlacedLabel<'a>) -> PushResult
    ensures { OnOk result (parts.new.items ≡ parts.old.items
        ++ (if has_bytes (drawn_of part.entry) then part.entry ∷ [] else [])) }
{
    if part.start < part.after {
        parts.push(part)?;
        return Ok(());
    }
    Ok(())
}

// Returns the nonempty parts of the spans in a changed line.
fn parts_in<'a>(alloc: Global, line: &ChangedLine) -> Result<Vec<PlacedLabel<'a>>, AllocError>
    requires within { line.now.start + length line.now.text.now < 2 ^ 64 }
    requires apart { AreApart line.now.spans.now }
    ensures { IfOk result (λ parts. map drawn_of parts.items
        ≡ parts_in line.now.start (length line.now.text.now) line.now.style line.now.spans.now) }
{
    let mut parts = Vec::new(alloc);
    let end = line.start + line.text.len();
    for span in line.spans {
        if end < span.offset() {
            return Ok(parts);
        }
        push_part(&mut parts, part_in(line, span))?;
    }
    Ok(parts)
}

/// Returns the underlines of what edits delete or insert in a changed line. `AllocError` if allocation fails or a
/// column exceeds `usize::MAX`.
pub(crate) fn edit_underlines<'a>(
    settings: &SnippetSettings<'_>,
    line: &ChangedLine,
) -> Result<Vec<Underline<'a>>, AllocError>
    requires within { line.now.start + length line.now.text.now < 2 ^ 64 }
    requires apart { AreApart line.now.spans.now }
    ensures { IfOk result (λ made. map underline_of made.items ≡ edit_underlines (settings_of settings.now)
        line.now.start
        line.now.text.now line.now.style line.now.spans.now) }
{
    let text = strip_terminator(line.text);
    let bounds = LineOfText {
        start: line.start,
        text_end: line.start + text.len(),
        end: line.start + line.text.len(),
    };
    let parts = parts_in(settings.alloc, line)?;
    underlines_on(
        settings.alloc,
        &bounds,
        text,
        settings.layout.tab_width,
        &parts,
    )
}

// Prints the underlines, each after the spaces before it: `  ---  --`.
fn push_sign_runs<O: Canvas>(
    page: &mut RowPrinter<O>,
    sign: char,
    marks: &[Underline],
) -> PushResult
    ensures { OnOk result ((s : RuledSettings) →
        page.new ≡ page.old ⊕ row_tokens (sign_runs s sign 0 (map underline_of marks.now))) }
{
    let mut reached: usize = 0;
    for mark in marks {
        page.push_blank(mark.from.saturating_sub(reached))?;
        page.begin(mark.label.style)?;
        page.push_copies(sign, mark.until.saturating_sub(mark.from))?;
        reached = mark.until;
    }
    Ok(())
}

/// Prints the underline row below a line, or nothing if it has no underline. `AllocError` if allocation fails or a
/// number exceeds `usize::MAX`.
pub(crate) fn push_edit_underlines<O: Canvas>(
    page: &mut RowPrinter<O>,
    frame: &Frame,
    sign: char,
    marks: &[Underline],
) -> PushResult
    ensures { OnOk result (page.new ≡ page.old ⊕ rows_tokens (before_some
        (other_start (settings_of frame.now.settings) frame.now.number_width)
        (row_if_some (sign_runs (settings_of frame.now.settings) sign 0 (map underline_of marks.now))))) }
{
    if marks.is_empty() {
        return Ok(());
    }
    push_other_start(page, frame)?;
    push_sign_runs(page, sign, marks)?;
    page.end_row()
}
