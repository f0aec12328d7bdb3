//! Suggestions, and the fixes that they become.

ghost use Rattle.std.specs.Prelude.{◌≡◌, ◌++◌, IfOk, OnOk, option_map};
ghost use Rattle.std.specs.List.{list_any};
ghost use Rattle.miette_fixes.specs.rules.ApplyingAll.{conflict};
ghost use Rattle.miette_read.specs.rules.SuggestedFixes.{edit_found, fix_by, fixes_in, with_edit};
ghost use Rattle.miette_read.specs.rules.AnnotationLabels.{file_range};

use crate::files::{BorrowedFile, Files};
use crate::label_lists::file_range;
use crate::lists::push_item;
use crate::location::{ByteRange, ToolLocation};
use miette_fixes::fix::{Applicability, Edit, Fix};
use std::alloc::{AllocError, Global};
use std::marker::Model;

/// An edit in bounds of its file.
#[derive(Drop)]
pub struct FileEdit<'f, 'v> {
    /// The file's name.
    pub name: &'v str,
    pub(crate) file: BorrowedFile<'f>,
    stretch: ByteRange,
    text: &'v str,
}

/// A suggestion whose locations are all found.
#[derive(Drop)]
pub struct Suggestion<'f, 'v> {
    /// The message of its fixes.
    pub message: String,
    /// How confident the tool is.
    pub applicability: Applicability,
    /// The edits, in any number of files.
    pub edits: Vec<FileEdit<'f, 'v>>,
}

impl<'f, 'v> Model for FileEdit<'f, 'v> {
    ghost use Rattle.std.specs.Prelude.{◌-◌};
    ghost use Rattle.miette_read.specs.rules.SuggestedFixes as proposing;

    ghost Value = { proposing.FileEdit };

    ghost view = { λ it. record {
      name = it.name.now;
      source = it.file;
      edit = record {
        span = record { offset = it.stretch.start; len = it.stretch.end - it.stretch.start };
        text = it.text.now;
      };
    } };
}

impl<'f, 'v> Model for Suggestion<'f, 'v> {
    ghost use Rattle.std.specs.Prelude.{string_bytes};
    ghost use Rattle.miette_read.specs.rules.SuggestedFixes as proposing;

    ghost Value = { proposing.Suggestion };

    ghost view = { λ it. record {
      message = string_bytes it.message;
      applicability = it.applicability;
      edits = it.edits.items;
    } };
}

/// Returns whether two edits overlap or start at one offset.
fn conflicts(edit: &Edit, other: &Edit) -> bool
    ensures { result ≡ conflict edit.now other.now }
{
    let (offset, start) = (edit.offset(), other.offset());
    if offset == start {
        true
    } else if start < offset {
        offset - start < other.len()
    } else {
        start - offset < edit.len()
    }
}

/// Returns whether an edit conflicts with one of these.
fn conflicts_with_any(edit: &Edit, first_edits_of_others: &[Edit]) -> bool
    ensures { result ≡ list_any (conflict edit.now) first_edits_of_others.now }
{
    first_edits_of_others
        .iter()
        .any(|other| conflicts(edit, other))
}

impl<'f, 'v> FileEdit<'f, 'v> {
    /// Returns the edit that replaces the text at a location. Returns `None` if the location isn't found in its file.
    pub fn found<F: Files>(
        files: &'f F,
        place: &ToolLocation<'v>,
        text: &'v str,
    ) -> Option<FileEdit<'f, 'v>>
        ensures { result ≡ option_map (edit_found place.now.name text.now) (file_range (F.found files.now) place.now) }
    {
        let found = file_range(files, place)?;
        Some(FileEdit {
            name: place.name,
            file: found.file,
            stretch: found.stretch,
            text,
        })
    }

    /// Returns the edit without its file.
    fn edit(&self, alloc: Global) -> Result<Edit, AllocError>
        ensures { IfOk result (λ edit. edit ≡ self.now.edit) }
    {
        let ByteRange { start, end } = self.stretch;
        let text = String::from_str(alloc, self.text)?;
        Ok(Edit::replace((start, end.saturating_sub(start)), text))
    }
}

/// Appends a fix, unless it has no edits.
fn push_fix(list: &mut Vec<Fix>, fix: Fix) -> Result<(), AllocError>
    ensures { OnOk result (list.new.items ≡ list.old.items ++ fix_by fix fix.edits) }
{
    if fix.edits().is_empty() {
        Ok(())
    } else {
        push_item(list, fix)
    }
}

/// Adds an edit to the fix that is being built. If it conflicts with an edit there, appends that fix and starts
/// another.
fn with_edit(list: &mut Vec<Fix>, alloc: Global, fix: Fix, edit: Edit) -> Result<Fix, AllocError>
    ensures { IfOk result (λ it. with_edit (record { done = list.old.items; fix = fix }) edit
        ≡ record { done = list.new.items; fix = it }) }
{
    if !conflicts_with_any(&edit, fix.edits()) {
        return fix.with_edit(edit);
    }
    let next = Fix::new(alloc, fix.message())?.with_applicability(fix.applicability());
    push_item(list, fix)?;
    next.with_edit(edit)
}

impl<'f, 'v> Suggestion<'f, 'v> {
    /// Appends fixes of the suggestion's edits over one file. Edits that conflict go to separate fixes.
    pub fn push_fixes(
        &self,
        list: &mut Vec<Fix>,
        alloc: Global,
        name: &str,
        message: &str,
    ) -> Result<(), AllocError>
        ensures { OnOk result (list.new.items ≡ list.old.items ++ fixes_in name.now message.now self.now) }
    {
        let mut fix = Fix::new(alloc, message)?.with_applicability(self.applicability);
        for item in self.edits.as_slice() {
            if item.name == name {
                let edit = item.edit(alloc)?;
                fix = with_edit(list, alloc, fix, edit)?;
            }
        }
        push_fix(list, fix)
    }
}
