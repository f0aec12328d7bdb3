//! Positions of edits in a source, by line and column.

ghost use Rattle.std.specs.Prelude.{◌≡◌, ◌≤◌, ◌++◌, length, IfOk, OnOk, string_bytes};
ghost use Rattle.miette_narrated.specs.rules.Fixes.{edit_place_at, near_text, point_text, far_text, span_text};
ghost use Rattle.miette_narrated.specs.steps.EditPlaces.{IsCachedLine, place_view, line_text_at};

use crate::label_rows::push_columns;
use crate::rows::{AppendResult, push_number};
use miette_columns::text_columns::TextColumns;
use miette_lines::find::FindLines;
use miette_lines::indexed::IndexedSource;
use miette_lines::lines::first_line;
use miette_lines::sums::sum;
use std::alloc::{AllocError, Global};

/// Position of an offset: its line number, from 1, and the number of columns before it on that line.
#[derive(Clone, Copy)]
pub(crate) struct EditPlace {
    line: usize,
    before: usize,
}

/// Cache of the line that was used last: where it begins, and the columns of its text.
#[derive(Drop)]
pub(crate) struct CachedLine<'a> {
    start: usize,
    columns: TextColumns<'a>,
}

/// Returns the text of the line that begins at `start`, or nothing at or after the end of the bytes.
fn line_text_at(bytes: &[u8], start: usize) -> &[u8]
    ensures { result.now ≡ line_text_at bytes.now start }
{
    if bytes.len() <= start {
        return &[];
    }
    let line = first_line(&bytes[start..], start);
    &bytes[line.start..line.text_end]
}

/// Returns the first line. Any number of its columns may be looked up.
pub(crate) fn cached_first_line(alloc: Global, bytes: &[u8]) -> Result<CachedLine<'_>, AllocError>
    ensures { IfOk result (IsCachedLine bytes.now) }
{
    cached_line(alloc, bytes, 0)
}

/// Returns the line that begins at `start`.
fn cached_line(alloc: Global, bytes: &[u8], start: usize) -> Result<CachedLine<'_>, AllocError>
    ensures start { IfOk result (λ kept. kept.start ≡ start) }
    ensures kept { IfOk result (IsCachedLine bytes.now) }
{
    let columns = TextColumns::new(alloc, line_text_at(bytes, start), usize::MAX)?;
    Ok(CachedLine { start, columns })
}

/// Loads the line that begins at `start`, unless it is cached already.
fn cache_line<'a>(
    alloc: Global,
    bytes: &'a [u8],
    start: usize,
    kept: &mut CachedLine<'a>,
) -> Result<(), AllocError>
    requires { IsCachedLine bytes.now kept.old }
    ensures start { OnOk result (kept.new.start ≡ start) }
    ensures kept { OnOk result (IsCachedLine bytes.now kept.new) }
{
    if kept.start != start {
        *kept = cached_line(alloc, bytes, start)?;
    }
    Ok(())
}

/// Returns the position of an offset in a source.
pub(crate) fn edit_place_at<'a>(
    alloc: Global,
    source: &'a IndexedSource,
    at: usize,
    kept: &mut CachedLine<'a>,
) -> Result<EditPlace, AllocError>
    requires within { at ≤ length source.now }
    requires kept { IsCachedLine source.now kept.old }
    ensures place { IfOk result (λ place. place_view place ≡ edit_place_at source.now at) }
    ensures kept { OnOk result (IsCachedLine source.now kept.new) }
{
    let (start, number) = source.start_before(at, 0);
    cache_line(alloc, source.bytes(), start, kept)?;
    let before = kept.columns.column(alloc, at.saturating_sub(start))?;
    let line = sum(number, 1)?;
    Ok(EditPlace { line, before })
}

/// `line 2, columns 5 to 6`
fn push_near(out: &mut String, from: EditPlace, to: EditPlace) -> AppendResult
    ensures { OnOk result (string_bytes out.new
        ≡ string_bytes out.old ++ near_text (place_view from) (place_view to)) }
{
    let first = sum(from.before, 1)?;
    push_number(out, "line ", from.line)?;
    push_columns(out, first, first.max(to.before))
}

/// `line 2, column 5`
fn push_point(out: &mut String, at: EditPlace) -> AppendResult
    ensures { OnOk result (string_bytes out.new ≡ string_bytes out.old ++ point_text (place_view at)) }
{
    push_number(out, "line ", at.line)?;
    push_number(out, ", column ", sum(at.before, 1)?)
}

/// `from line 2, column 5 to line 3, column 1`
fn push_far(out: &mut String, from: EditPlace, to: EditPlace) -> AppendResult
    ensures { OnOk result (string_bytes out.new
        ≡ string_bytes out.old ++ far_text (place_view from) (place_view to)) }
{
    out.push_str("from ")?;
    push_point(out, from)?;
    out.push_str(" to ")?;
    push_point(out, to)
}

/// Appends the range between two positions: one position if both are on one line, else both.
pub(crate) fn push_span(out: &mut String, from: EditPlace, to: EditPlace) -> AppendResult
    ensures { OnOk result (string_bytes out.new
        ≡ string_bytes out.old ++ span_text (place_view from) (place_view to)) }
{
    if from.line == to.line {
        return push_near(out, from, to);
    }
    push_far(out, from, to)
}
