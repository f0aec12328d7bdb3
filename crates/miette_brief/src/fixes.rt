//! The fixes of a report, edit by edit.

ghost use Rattle.std.specs.Prelude.{◌≡◌, ◌++◌, ◌∷◌, ◌≤◌, [], false, length, map, IfOk, OnOk, string_bytes};
ghost use Rattle.std.specs.Prelude.{option_copied};
ghost use Rattle.std.specs.List.{list_any};
ghost use Rattle.miette_fixes.specs.rules.Edits.{ends_after};
ghost use Rattle.miette_fixes.specs.views.Ordered.{edits_of};
ghost use Rattle.miette_tree.specs.views.Owned.{opt_ref_source};
ghost use Rattle.miette_brief.specs.rules.Fixes.{line_column_at as position_in, byte_line_column_at as byte_in};
ghost use Rattle.miette_brief.specs.rules.Fixes.{fix_it_row, fix_row};
ghost use Rattle.miette_brief.specs.rules.Fixes.{failed_rows, rows_in, applied_fix_rows, brief_fix_rows};
ghost use Rattle.miette_brief.specs.rules.Fixes.{brief_fixes_rows, read};
ghost use Rattle.miette_brief.specs.rules.Rows.{brief_rows_text};
ghost use Rattle.miette_brief.specs.steps.AppendedParts.{AppendsBriefFixes};
ghost use Rattle.miette_brief.specs.steps.Conversions.{brief_location_of, brief_origin_of};

use crate::fix_its::{FixIt, LineColumn, push_fix_it};
use crate::rows::{BriefLocation, RowKind, push_row};
use miette_fixes::apply::check_edits;
use miette_fixes::fix::{Edit, Fix, FixError};
use miette_lines::find::{FindLines, column_from};
use miette_lines::sums::sum;
use miette_protocol::protocol::{SourceOffset, SourceSpan};
use miette_protocol::source::{IndexedSource, SourceCode};
use miette_tree::report::SourceRef;
use std::alloc::AllocError;

/// A source that was read for fixes: its name, and an index of its lines.
#[derive(Clone, Copy)]
pub(crate) struct FixText<'a> {
    pub(crate) name: Option<&'a str>,
    pub(crate) lines: &'a IndexedSource,
}

/// The source that fixes apply to: none, one that could not be read, or one that was read.
#[derive(Clone, Copy)]
pub(crate) enum BriefFixSource<'a> {
    Nowhere,
    Unread,
    Read(FixText<'a>),
}

/// Position of an offset. Its column counts bytes of text.
fn line_column_at(source: &IndexedSource, at: usize) -> Result<LineColumn, AllocError>
    requires { at ≤ length source.now }
    ensures { IfOk result (λ position. position ≡ position_in source.now at) }
{
    let (start, number) = source.start_before(at, 0);
    let line = sum(number, 1)?;
    let column = sum(column_from(source.bytes(), start, at), 1)?;
    Ok(LineColumn { line, column })
}

/// Position of an offset. Its column counts bytes of text and of the terminator.
fn byte_line_column_at(source: &IndexedSource, at: usize) -> Result<LineColumn, AllocError>
    requires { at ≤ length source.now }
    ensures { IfOk result (λ position. position ≡ byte_in source.now at) }
{
    let (start, number) = source.start_before(at, 0);
    let line = sum(number, 1)?;
    let column = sum(at.saturating_sub(start), 1)?;
    Ok(LineColumn { line, column })
}

/// Appends the line of an edit. The edit may not end after the source's end.
fn push_edit(out: &mut String, text: FixText<'_>, edit: &Edit) -> Result<(), AllocError>
    requires { ends_after (length text.lines.now) edit.now ≡ false }
    ensures { OnOk result (string_bytes out.new ≡ string_bytes out.old
        ++ brief_rows_text (fix_it_row (option_copied text.entry.name) text.entry.lines.now edit.now ∷ [])) }
{
    let end = sum(edit.offset(), edit.len())?;
    let row = FixIt {
        name: text.name,
        start: byte_line_column_at(text.lines, edit.offset())?,
        end: byte_line_column_at(text.lines, end)?,
        text: edit.text(),
    };
    push_fix_it(out, row)?;
    out.push_str("\n")
}

/// Appends a line for each edit, in order. No edit may end after the source's end.
fn push_edits(out: &mut String, text: FixText<'_>, edits: &[&Edit]) -> Result<(), AllocError>
    requires { list_any (ends_after (length text.lines.now)) (edits_of edits.now) ≡ false }
    ensures { OnOk result (string_bytes out.new ≡ string_bytes out.old
        ++ brief_rows_text (map (fix_it_row (option_copied text.entry.name) text.entry.lines.now) (edits_of edits.now))) }
{
    for edit in edits {
        push_edit(out, text, edit)?;
    }
    Ok(())
}

/// `bad_file.rs:2:3: fix: a colon is missing`
fn push_message(out: &mut String, at: BriefLocation<'_>, message: &str) -> Result<(), AllocError>
    ensures { OnOk result (string_bytes out.new
        ≡ string_bytes out.old ++ brief_rows_text (fix_row (brief_location_of at.entry) message.now ∷ [])) }
{
    push_row(out, at, RowKind::Fix, message)
}

/// Appends a fix that can't be applied, and the reason.
fn push_failed(
    out: &mut String,
    at: BriefLocation<'_>,
    message: &str,
    reason: &str,
) -> Result<(), AllocError>
    ensures { OnOk result (string_bytes out.new
        ≡ string_bytes out.old ++ brief_rows_text (failed_rows (brief_location_of at.entry) message.now reason.now)) }
{
    push_message(out, at, message)?;
    push_row(out, at, RowKind::Failure, reason)
}

/// Appends a fix with its edits, in order, at the position of the first edit. No edit may end after the source's end.
fn push_applied(
    out: &mut String,
    at: BriefLocation<'_>,
    text: FixText<'_>,
    message: &str,
    edits: &[&Edit],
) -> Result<(), AllocError>
    requires { list_any (ends_after (length text.lines.now)) (edits_of edits.now) ≡ false }
    ensures { OnOk result (string_bytes out.new ≡ string_bytes out.old
        ++ brief_rows_text (applied_fix_rows (brief_location_of at.entry) (option_copied text.entry.name)
        text.entry.lines.now
        message.now (edits_of edits.now))) }
{
    let Some(first) = edits.first() else {
        return push_message(out, at, message);
    };
    let place = BriefLocation {
        name: text.name,
        position: Some(line_column_at(text.lines, first.offset())?),
    };
    push_message(out, place, message)?;
    push_edits(out, text, edits)
}

/// Appends a fix of a source that was read. It may turn out that the edits can't be applied.
fn push_read(
    out: &mut String,
    at: BriefLocation<'_>,
    text: FixText<'_>,
    fix: &Fix,
) -> Result<(), AllocError>
    ensures { OnOk result (string_bytes out.new ≡ string_bytes out.old
        ++ brief_rows_text (rows_in (brief_location_of at.entry) (option_copied text.entry.name) text.entry.lines.now
        fix.now)) }
{
    match check_edits(*out.allocator(), text.lines.bytes().len(), fix.edits()) {
        Ok(list) => push_applied(out, at, text, fix.message(), &list),
        Err(FixError::OutOfBounds { .. }) => push_failed(out, at, fix.message(), "OutOfBounds"),
        Err(FixError::Overlap { .. }) => push_failed(out, at, fix.message(), "Overlap"),
        Err(FixError::Memory) => Err(AllocError),
    }
}

/// Appends a fix of a diagnostic at this location.
fn push_fix(
    out: &mut String,
    at: BriefLocation<'_>,
    over: BriefFixSource<'_>,
    fix: &Fix,
) -> Result<(), AllocError>
    ensures { OnOk result (string_bytes out.new
        ≡ string_bytes out.old ++ brief_rows_text (brief_fix_rows (brief_location_of at.entry)
        (brief_origin_of over.entry) fix.now)) }
{
    if fix.edits().is_empty() {
        return push_message(out, at, fix.message());
    }
    match over {
        BriefFixSource::Nowhere => push_message(out, at, fix.message()),
        BriefFixSource::Unread => push_failed(out, at, fix.message(), "IoError"),
        BriefFixSource::Read(text) => push_read(out, at, text, fix),
    }
}

/// Appends the fixes of a diagnostic at this location, in the given order.
fn push_each(
    out: &mut String,
    at: BriefLocation<'_>,
    over: BriefFixSource<'_>,
    fixes: &[Fix],
) -> Result<(), AllocError>
    ensures { OnOk result (string_bytes out.new
        ≡ string_bytes out.old ++ brief_rows_text (brief_fixes_rows (brief_location_of at.entry)
        (brief_origin_of over.entry) fixes.now)) }
{
    for fix in fixes {
        push_fix(out, at, over, fix)?;
    }
    Ok(())
}

/// Appends the fixes of a source with this name and these bytes.
fn push_over(
    out: &mut String,
    at: BriefLocation<'_>,
    name: Option<&str>,
    bytes: &[u8],
    fixes: &[Fix],
) -> Result<(), AllocError>
    ensures { OnOk result (string_bytes out.new ≡ string_bytes out.old
        ++ brief_rows_text (brief_fixes_rows (brief_location_of at.entry) (read (option_copied name.entry) bytes.now)
        fixes.now)) }
{
    let alloc = *out.allocator();
    let lines = IndexedSource::new(alloc, bytes.to_vec(alloc)?)?;
    let text = FixText {
        name,
        lines: &lines,
    };
    push_each(out, at, BriefFixSource::Read(text), fixes)
}

/// Appends the fixes of a diagnostic at this location. The source is read once, as a whole.
pub(crate) fn push_fixes<S: SourceCode>(
    out: &mut String,
    at: BriefLocation<'_>,
    fixes: &[Fix],
    source: Option<SourceRef<'_, S>>,
) -> Result<(), AllocError>
    ensures { OnOk result (AppendsBriefFixes (brief_location_of at.entry) (opt_ref_source S.source source.entry)
        fixes.now (string_bytes out.old) (string_bytes out.new)) }
{
    if fixes.is_empty() {
        return Ok(());
    }
    let Some(source) = source else {
        return push_each(out, at, BriefFixSource::Nowhere, fixes);
    };
    let begin = SourceSpan::new(SourceOffset::from(0), 0);
    match source.read_span(&begin, 1, usize::MAX) {
        Ok(contents) => push_over(out, at, contents.name(), contents.data(), fixes),
        Err(_) => push_each(out, at, BriefFixSource::Unread, fixes),
    }
}
