//! The machine-applicable suggestions of rustc, which `show --fix` applies.

ghost use Rattle.std.specs.Prelude.{◌≡◌, ◌++◌, Err, IfOk, None, OnErr, OnOk, Some, option_map};
ghost use Rattle.serde_json.specs.View.{view};
ghost use Rattle.miette_read.specs.views.Values.{values_behind};
ghost use Rattle.miette_show_rows.specs.rules.ApplicableFixes.{has_no_alternatives, child_fixes, children_fixes};
ghost use Rattle.miette_show_rows.specs.rules.ApplicableFixes.{diagnostic_in, diagnostic_of};
ghost use Rattle.miette_show_rows.specs.rules.ApplicableFixes.{fixes_over, is_error_message, has_one_fix};
ghost use Rattle.miette_show_rows.specs.rules.ApplicableFixes.{has_one_fix_per_file, merged_suggestion, message_fixes};
ghost use Rattle.miette_show_rows.specs.rules.ApplicableFixes.{suggestion_fixes, package_id_of, applicable_edits};
ghost use Rattle.miette_show_rows.specs.rules.ApplicableFixes.{applicable_suggestion, machine_applicable_fixes};

use crate::current_spans::are_spans_current;
use crate::outdated_files::outdated_names;
use crate::row_fixes::{FileFixes, RowFixes};
use miette_fixes::fix::Applicability;
use miette_read::advice::first_edits_of_others;
use miette_read::files::Files;
use miette_read::lists::push_item;
use miette_read::members::{member_objects, member_text};
use miette_read::rustc::{ReadError, is_other_cargo_line, is_other_rustc_line, rustc_message_in};
use miette_read::rustc_suggestions::child_suggestion;
use miette_read::spans::edits_in_child;
use miette_read::suggestions::{FileEdit, Suggestion};
use serde_json::Value;
use std::alloc::{AllocError, Global};

/// Returns the suggestion of a note or help, if it is machine-applicable and its files haven't changed.
fn applicable_suggestion<'f, 'v, F: Files>(
    alloc: Global,
    files: &'f F,
    child: &'v Value,
) -> Result<Option<Suggestion<'f, 'v>>, AllocError>
    ensures { IfOk result (λ o. o ≡ applicable_suggestion (F.found files.now) (view child.now)) }
{
    let spans = edits_in_child(alloc, child)?;
    if !are_spans_current(alloc, files, spans.as_slice())? {
        return Ok(None);
    }
    match child_suggestion(alloc, files, child)? {
        Some(offer) if offer.applicability.is_machine_applicable() => Ok(Some(offer)),
        Some(_) | None => Ok(None),
    }
}

/// Returns the message of rustc, if it is a diagnostic.
fn diagnostic_of(message: &Value) -> Result<Option<&Value>, ReadError>
    ensures ok { IfOk result (λ o. diagnostic_of (view message.now) ≡ Some (option_map (λ v. view v.now) o)) }
    ensures none { OnErr result (diagnostic_of (view message.now) ≡ None) }
    ensures message { OnErr result (result ≡ Err ReadError.NoMessage) }
{
    if is_other_rustc_line(message) {
        return Ok(None);
    }
    match member_text(message, "message") {
        Some(_) => Ok(Some(message)),
        None => Err(ReadError::NoMessage),
    }
}

/// Returns the diagnostic of a line of rustc or cargo. Returns `None` for other lines.
fn diagnostic_in(value: &Value) -> Result<Option<&Value>, ReadError>
    ensures ok { IfOk result (λ o. diagnostic_in (view value.now) ≡ Some (option_map (λ v. view v.now) o)) }
    ensures none { OnErr result (diagnostic_in (view value.now) ≡ None) }
    ensures message { OnErr result (result ≡ Err ReadError.NoMessage) }
{
    if is_other_cargo_line(value) {
        return Ok(None);
    }
    match rustc_message_in(value) {
        Some(message) => diagnostic_of(message),
        None => Err(ReadError::NoMessage),
    }
}

/// Returns the fixes of a suggestion over the file of one of its edits.
fn fixes_over(
    alloc: Global,
    offer: &Suggestion<'_, '_>,
    edit: &FileEdit<'_, '_>,
) -> Result<FileFixes, AllocError>
    ensures { IfOk result (λ it. it ≡ fixes_over offer.now edit.now) }
{
    let mut fixes = Vec::new(alloc);
    offer.push_fixes(&mut fixes, alloc, edit.name, offer.message.as_str())?;
    let name = String::from_str(alloc, edit.name)?;
    Ok(FileFixes { name, fixes })
}

/// Appends the fixes of a suggestion by file.
fn push_suggestion(
    list: &mut Vec<FileFixes>,
    alloc: Global,
    offer: &Suggestion<'_, '_>,
) -> Result<(), AllocError>
    ensures { OnOk result (list.new.items ≡ list.old.items ++ suggestion_fixes offer.now) }
{
    let edits = first_edits_of_others(alloc, offer.edits.as_slice(), None)?;
    for edit in edits.as_slice() {
        let edit = *edit;
        push_item(list, fixes_over(alloc, offer, edit)?)?;
    }
    Ok(())
}

/// Appends the fixes of a note's or help's suggestion, if it is machine-applicable.
fn push_child<F: Files>(
    list: &mut Vec<FileFixes>,
    alloc: Global,
    files: &F,
    child: &Value,
) -> Result<(), AllocError>
    ensures { OnOk result (list.new.items ≡ list.old.items ++ child_fixes (F.found files.now) (view child.now)) }
{
    match applicable_suggestion(alloc, files, child)? {
        Some(offer) => push_suggestion(list, alloc, &offer),
        None => Ok(()),
    }
}

/// Appends the edits of a note's or help's suggestion, if it is machine-applicable.
fn push_applicable<'f, 'v, F: Files>(
    list: &mut Vec<FileEdit<'f, 'v>>,
    alloc: Global,
    files: &'f F,
    child: &'v Value,
) -> Result<(), AllocError>
    ensures { OnOk result (list.new.items ≡ list.old.items ++ applicable_edits (F.found files.now) (view child.now)) }
{
    if let Some(offer) = applicable_suggestion(alloc, files, child)? {
        let mut edits = offer.edits;
        list.append(&mut edits)?;
    }
    Ok(())
}

/// Returns the machine-applicable edits of all notes and helps, as one suggestion.
fn merged_suggestion<'f, 'v, F: Files>(
    alloc: Global,
    files: &'f F,
    children: &[&'v Value],
) -> Result<Suggestion<'f, 'v>, AllocError>
    ensures { IfOk result (λ offer. offer ≡ merged_suggestion (F.found files.now) (values_behind children.now)) }
{
    let mut edits = Vec::new(alloc);
    for note_unread_row in children {
        let note_unread_row = *note_unread_row;
        push_applicable(&mut edits, alloc, files, note_unread_row)?;
    }
    Ok(Suggestion {
        message: String::new(alloc),
        applicability: Applicability::MachineApplicable,
        edits,
    })
}

/// Returns whether the suggestion's edits of this file are one fix: no two of them conflict.
fn has_one_fix(
    alloc: Global,
    offer: &Suggestion<'_, '_>,
    edit: &FileEdit<'_, '_>,
) -> Result<bool, AllocError>
    ensures { IfOk result (λ b. b ≡ has_one_fix offer.now edit.now) }
{
    let mut fixes = Vec::new(alloc);
    offer.push_fixes(&mut fixes, alloc, edit.name, offer.message.as_str())?;
    Ok(fixes.len() == 1)
}

/// Returns whether the suggestion's edits are one fix in each file.
fn has_one_fix_per_file(alloc: Global, offer: &Suggestion<'_, '_>) -> Result<bool, AllocError>
    ensures { IfOk result (λ b. b ≡ has_one_fix_per_file offer.now) }
{
    let first_edits = first_edits_of_others(alloc, offer.edits.as_slice(), None)?;
    for edit in first_edits.as_slice() {
        let edit = *edit;
        if !has_one_fix(alloc, offer, edit)? {
            return Ok(false);
        }
    }
    Ok(true)
}

/// Returns whether no machine-applicable edits of these notes and helps conflict. Conflicting edits are alternatives.
fn has_no_alternatives<F: Files>(
    alloc: Global,
    files: &F,
    children: &[&Value],
) -> Result<bool, AllocError>
    ensures { IfOk result (λ b. b ≡ has_no_alternatives (F.found files.now) (values_behind children.now)) }
{
    let offer = merged_suggestion(alloc, files, children)?;
    has_one_fix_per_file(alloc, &offer)
}

/// Returns the machine-applicable fixes of these notes and helps, unless there are alternatives.
fn children_fixes<F: Files>(
    alloc: Global,
    files: &F,
    children: &[&Value],
) -> Result<Vec<FileFixes>, AllocError>
    ensures { IfOk result (λ list. list.items ≡ children_fixes (F.found files.now) (values_behind children.now)) }
{
    let mut list = Vec::new(alloc);
    if !has_no_alternatives(alloc, files, children)? {
        return Ok(list);
    }
    for child in children {
        let child = *child;
        push_child(&mut list, alloc, files, child)?;
    }
    Ok(list)
}

/// Returns the package of a line, or an empty text.
fn package_id_of(row: &Value) -> &str
    ensures { result.now ≡ package_id_of (view row.now) }
{
    member_text(row, "package_id").unwrap_or("")
}

/// Returns whether a message is an error.
fn is_error_message(message: &Value) -> bool
    ensures { result ≡ is_error_message (view message.now) }
{
    let level = member_text(message, "level").unwrap_or("");
    level == "error" || level == "error: internal compiler error"
}

/// Returns the fixes of a line with this diagnostic.
fn message_fixes<F: Files>(
    alloc: Global,
    files: &F,
    row: &Value,
    message: &Value,
) -> Result<RowFixes, AllocError>
    ensures { IfOk result (λ it. it ≡ message_fixes (F.found files.now) (view row.now) (view message.now)) }
{
    let children = member_objects(alloc, message, "children")?;
    Ok(RowFixes {
        package_id: String::from_str(alloc, package_id_of(row))?,
        grave: is_error_message(message),
        fixes: children_fixes(alloc, files, children.as_slice())?,
        stale: outdated_names(alloc, files, children.as_slice())?,
    })
}

/// Returns the machine-applicable fixes of a line of rustc or cargo, if it has a diagnostic. Alternatives are left out,
/// and so are fixes of files that changed since they were compiled.
///
/// # Errors
/// `NoMessage` if the line has no message. `Memory` if allocation fails.
pub fn machine_applicable_fixes<F: Files>(
    alloc: Global,
    files: &F,
    row: &Value,
) -> Result<Option<RowFixes>, ReadError>
    ensures ok { IfOk result (λ o. machine_applicable_fixes (F.found files.now) (view row.now) ≡ Some o) }
    ensures message { (result ≡ Err ReadError.NoMessage)
        → machine_applicable_fixes (F.found files.now) (view row.now) ≡ None }
{
    match diagnostic_in(row)? {
        Some(message) => Ok(Some(message_fixes(alloc, files, row, message)?)),
        None => Ok(None),
    }
}
