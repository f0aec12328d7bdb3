//! The fixes of a report, edit by edit.

ghost use Rattle.std.specs.Prelude.{◌≡◌, ◌++◌, false, length, IfOk, OnOk, string_bytes};
ghost use Rattle.std.specs.List.{list_any};
ghost use Rattle.std.specs.Option.{option_map};
ghost use Rattle.json.specs.Print.{quoted};
ghost use Rattle.miette_fixes.specs.rules.Edits.{ends_after};
ghost use Rattle.miette_fixes.specs.views.Ordered.{edits_of};
ghost use Rattle.miette_tree.specs.views.Owned.{ref_source};
ghost use Rattle.miette_narrated.specs.rules.Fixes.{verb_text, edit_text_part, edit_row, edit_rows, failure_row};
ghost use Rattle.miette_narrated.specs.rules.Fixes.{applied_rows, narrated_fix_rows, narrated_fixes_rows, read};
ghost use Rattle.miette_narrated.specs.steps.AppendedParts.{AppendsNarratedFixes};
ghost use Rattle.miette_narrated.specs.steps.EditPlaces.{IsCachedLine};
ghost use Rattle.miette_narrated.specs.steps.FixSources.{narrated_origin_of};

use crate::characters::push_decoded;
use crate::edit_places::{CachedLine, cached_first_line, edit_place_at, push_span};
use crate::rows::{AppendResult, push_row};
use json::Writer;
use miette_fixes::apply::check_edits;
use miette_fixes::fix::{Edit, Fix, FixError};
use miette_lines::sums::sum;
use miette_protocol::protocol::{SourceOffset, SourceSpan};
use miette_protocol::source::{IndexedSource, SourceCode};
use miette_tree::report::SourceRef;
use std::alloc::{AllocError, Global};

/// The source that fixes apply to: none, one that could not be read, or one with an index of its lines.
#[derive(Clone, Copy)]
pub(crate) enum NarratedFixSource<'a> {
    Nowhere,
    Unread,
    Lines(&'a IndexedSource),
}

/// `"a\n"`
fn push_quoted(out: &mut String, text: &str) -> AppendResult
    ensures { OnOk result (string_bytes out.new ≡ string_bytes out.old ++ quoted text.now) }
{
    let mut writer = Writer::new(Vec::new(*out.allocator()));
    writer.string(text)?;
    let written = writer.into_inner();
    push_decoded(out, written.as_slice())
}

/// The verb that describes an edit.
fn verb(edit: &Edit) -> &'static str
    ensures { result.now ≡ verb_text edit.now }
{
    if edit.len() == 0 {
        "    insert at "
    } else if edit.text().is_empty() {
        "    delete "
    } else {
        "    replace "
    }
}

/// Appends the text of an edit. A deletion has none.
fn push_text(out: &mut String, edit: &Edit) -> AppendResult
    ensures { OnOk result (string_bytes out.new ≡ string_bytes out.old ++ edit_text_part edit.now) }
{
    if edit.len() == 0 {
        out.push_str(": ")?;
        return push_quoted(out, edit.text());
    }
    if edit.text().is_empty() {
        return Ok(());
    }
    out.push_str(" with: ")?;
    push_quoted(out, edit.text())
}

/// `    replace line 2, column 5 with: "a\n"`
fn push_edit<'a>(
    out: &mut String,
    alloc: Global,
    source: &'a IndexedSource,
    edit: &Edit,
    kept: &mut CachedLine<'a>,
) -> AppendResult
    requires within { ends_after (length source.now) edit.now ≡ false }
    requires kept { IsCachedLine source.now kept.old }
    ensures row { OnOk result (string_bytes out.new ≡ string_bytes out.old ++ edit_row source.now edit.now) }
    ensures kept { OnOk result (IsCachedLine source.now kept.new) }
{
    let from = edit_place_at(alloc, source, edit.offset(), kept)?;
    let to = edit_place_at(alloc, source, sum(edit.offset(), edit.len())?, kept)?;
    out.push_str(verb(edit))?;
    push_span(out, from, to)?;
    push_text(out, edit)?;
    out.push_str("\n")
}

/// Appends a line for each edit, in order. No edit may end after the source's end.
fn push_edits(
    out: &mut String,
    alloc: Global,
    source: &IndexedSource,
    edits: &[&Edit],
) -> AppendResult
    requires { list_any (ends_after (length source.now)) (edits_of edits.now) ≡ false }
    ensures { OnOk result (string_bytes out.new
        ≡ string_bytes out.old ++ edit_rows source.now (edits_of edits.now)) }
{
    let mut kept = cached_first_line(alloc, source.bytes())?;
    for edit in edits {
        push_edit(out, alloc, source, edit, &mut kept)?;
    }
    Ok(())
}

/// `    failed to apply: OutOfBounds`
fn push_failure(out: &mut String, reason: &str) -> AppendResult
    ensures { OnOk result (string_bytes out.new ≡ string_bytes out.old ++ failure_row reason.now) }
{
    push_row(out, "    failed to apply: ", reason)
}

/// Appends a line for each edit, by offset, or the reason why they can't be applied.
fn push_applied(
    out: &mut String,
    alloc: Global,
    source: &IndexedSource,
    edits: &[Edit],
) -> AppendResult
    ensures { OnOk result (string_bytes out.new ≡ string_bytes out.old ++ applied_rows source.now edits.now) }
{
    match check_edits(alloc, source.bytes().len(), edits) {
        Ok(list) => push_edits(out, alloc, source, &list),
        Err(FixError::OutOfBounds { .. }) => push_failure(out, "OutOfBounds"),
        Err(FixError::Overlap { .. }) => push_failure(out, "Overlap"),
        Err(FixError::Memory) => Err(AllocError),
    }
}

/// Appends a fix: its message, and its edits if it has any.
fn push_fix(
    out: &mut String,
    alloc: Global,
    over: &NarratedFixSource<'_>,
    fix: &Fix,
) -> AppendResult
    ensures { OnOk result (string_bytes out.new ≡ string_bytes out.old
        ++ narrated_fix_rows (narrated_origin_of over.now) fix.now) }
{
    push_row(out, "diagnostic fix: ", fix.message())?;
    if fix.edits().is_empty() {
        return Ok(());
    }
    match over {
        NarratedFixSource::Nowhere => Ok(()),
        NarratedFixSource::Unread => push_failure(out, "IoError"),
        NarratedFixSource::Lines(source) => push_applied(out, alloc, source, fix.edits()),
    }
}

/// Appends the fixes in the given order.
fn push_each(
    out: &mut String,
    alloc: Global,
    over: &NarratedFixSource<'_>,
    fixes: &[Fix],
) -> AppendResult
    ensures { OnOk result (string_bytes out.new ≡ string_bytes out.old
        ++ narrated_fixes_rows (narrated_origin_of over.now) fixes.now) }
{
    for fix in fixes {
        push_fix(out, alloc, over, fix)?;
    }
    Ok(())
}

/// Appends the fixes of a source with these bytes.
fn push_over(out: &mut String, alloc: Global, bytes: &[u8], fixes: &[Fix]) -> AppendResult
    ensures { OnOk result (string_bytes out.new ≡ string_bytes out.old
        ++ narrated_fixes_rows (read bytes.now) fixes.now) }
{
    let source = IndexedSource::new(alloc, bytes.to_vec(alloc)?)?;
    push_each(out, alloc, &NarratedFixSource::Lines(&source), fixes)
}

/// Appends the fixes of a source. The source is read once, as a whole.
pub(crate) fn push_fixes<S: SourceCode>(
    out: &mut String,
    alloc: Global,
    fixes: &[Fix],
    source: Option<SourceRef<'_, S>>,
) -> AppendResult
    ensures { OnOk result (AppendsNarratedFixes (option_map (ref_source S.source) source.entry) fixes.now
        (string_bytes out.old) (string_bytes out.new)) }
{
    if fixes.is_empty() {
        return Ok(());
    }
    let Some(source) = source else {
        return push_each(out, alloc, &NarratedFixSource::Nowhere, fixes);
    };
    let begin = SourceSpan::new(SourceOffset::from(0), 0);
    match source.read_span(&begin, 1, usize::MAX) {
        Ok(contents) => push_over(out, alloc, contents.data(), fixes),
        Err(_) => push_each(out, alloc, &NarratedFixSource::Unread, fixes),
    }
}
