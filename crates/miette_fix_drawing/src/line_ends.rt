//! The columns of a changed line around which it is cut.

ghost use Rattle.std.specs.Prelude.{◌≡◌, ◌+◌, [], ◌++◌, ◌<◌, ◌^◌, length, if◌then◌else◌, IfOk, OnOk};
ghost use Rattle.std.specs.List.{filter};
ghost use Rattle.miette_snippet_rules.specs.views.SnippetSettings.{settings_of};
ghost use Rattle.miette_fix_rows.specs.rules.DiffTexts.{is_on, line_ends, without_terminator};
ghost use Rattle.miette_fix_drawing.specs.steps.Ends.{all_ends, span_ends};
ghost use Rattle.miette_fix_drawing.specs.steps.Spans.{AreApart};

use crate::changed_line::ChangedLine;
use crate::edit_underline_row::part_in;
use crate::line_starts::PushResult;
use crate::texts::strip_terminator;
use miette_lines::lines::LineOfText;
use miette_protocol::protocol::SourceSpan;
use miette_snippet_rules::line_underlines::ColumnMap;
use miette_snippet_rules::options::SnippetSettings;
use std::alloc::{AllocError, Global};

// Returns whether an edit belongs to a line: it touches the line and doesn't begin after its terminator.
fn is_on(line: &ChangedLine, text: &[u8], span: &SourceSpan) -> bool
    requires within { line.now.start + length line.now.text.now < 2 ^ 64 }
    requires text { text.now ≡ without_terminator line.now.text.now }
    ensures { result ≡ is_on line.now.start line.now.text.now span.now }
{
    let end = line.start + line.text.len();
    line.start <= span.offset().saturating_add(span.len())
        && (span.offset() < end || (span.offset() == end && text.len() == line.text.len()))
}

// Appends the first and last column of a span in the line.
fn push_ends(
    ends: &mut Vec<usize>,
    columns: &ColumnMap,
    line: &ChangedLine,
    span: &SourceSpan,
) -> PushResult
    requires { line.now.start + length line.now.text.now < 2 ^ 64 }
    ensures { OnOk result (ends.new.items ≡ ends.old.items
        ++ span_ends columns.now line.now.start (length line.now.text.now) span.now) }
{
    let part = part_in(line, span);
    let first = columns.first_column(part.start)?;
    ends.push(first)?;
    if part.start < part.after {
        let after = columns.last_column(part.after)?;
        ends.push(after.saturating_sub(1).max(first))?;
    }
    Ok(())
}

// Appends these columns if the span's edit belongs to the line.
fn push_ends_on(
    ends: &mut Vec<usize>,
    columns: &ColumnMap,
    line: &ChangedLine,
    text: &[u8],
    span: &SourceSpan,
) -> PushResult
    requires within { line.now.start + length line.now.text.now < 2 ^ 64 }
    requires text { text.now ≡ without_terminator line.now.text.now }
    ensures { OnOk result (ends.new.items ≡ ends.old.items ++ (if is_on line.now.start line.now.text.now span.now
        then span_ends columns.now line.now.start (length line.now.text.now) span.now else [])) }
{
    if is_on(line, text, span) {
        return push_ends(ends, columns, line, span);
    }
    Ok(())
}

// Returns the columns around which a line is cut. `text` are the bytes of its text.
fn ends_in(
    alloc: Global,
    columns: &ColumnMap,
    line: &ChangedLine,
    text: &[u8],
) -> Result<Vec<usize>, AllocError>
    requires within { line.now.start + length line.now.text.now < 2 ^ 64 }
    requires apart { AreApart line.now.spans.now }
    requires text { text.now ≡ without_terminator line.now.text.now }
    ensures { IfOk result (λ ends. ends.items ≡ all_ends columns.now line.now.start (length line.now.text.now)
        (filter (is_on line.now.start line.now.text.now) line.now.spans.now)) }
{
    let mut ends = Vec::new(alloc);
    let end = line.start + line.text.len();
    for span in line.spans {
        if end < span.offset() {
            return Ok(ends);
        }
        push_ends_on(&mut ends, columns, line, text, span)?;
    }
    Ok(ends)
}

/// Returns the columns around which a changed line is cut. `AllocError` if allocation fails or a column exceeds
/// `usize::MAX`.
pub(crate) fn line_ends(
    settings: &SnippetSettings<'_>,
    line: &ChangedLine,
) -> Result<Vec<usize>, AllocError>
    requires within { line.now.start + length line.now.text.now < 2 ^ 64 }
    requires apart { AreApart line.now.spans.now }
    ensures { IfOk result (λ ends. ends.items ≡ line_ends (settings_of settings.now) line.now.start line.now.text.now
        line.now.spans.now) }
{
    let text = strip_terminator(line.text);
    let bounds = LineOfText {
        start: line.start,
        text_end: line.start + text.len(),
        end: line.start + line.text.len(),
    };
    let columns = ColumnMap::new(settings.alloc, &bounds, text, settings.layout.tab_width)?;
    ends_in(settings.alloc, &columns, line, text)
}
