//! Adds the suggestions of a message to its report: fixes over the main file, and related advice for other files.

ghost use Rattle.std.specs.Prelude.{◌≡◌, ◌++◌, IfOk, OnOk, codes, map, string_bytes};
ghost use Rattle.std.specs.List.{flat_map, list_any};
ghost use Rattle.std.specs.Option.{option_copied};
ghost use Rattle.miette_tree.specs.views.Report.{tree_of};
ghost use Rattle.miette_read.specs.rules.SuggestedFixes.{fixes_in, is_in};
ghost use Rattle.miette_read.specs.rules.Reports.{advice, advice_of, is_main, main_fixes, with_suggestions};
ghost use Rattle.miette_read.specs.rules.Reports.{first_edits_of_others};
ghost use Rattle.miette_read.specs.views.Edits.{edits_behind};

use crate::files::BorrowedFile;
use crate::lists::push_item;
use crate::suggestions::{FileEdit, Suggestion};
use miette_fixes::fix::Fix;
use miette_protocol::diagnostic::MietteDiagnostic;
use miette_protocol::protocol::{Diagnostic, Severity};
use miette_protocol::source::SourceCode;
use miette_tree::report::Report;
use std::alloc::{AllocError, Global};

/// Appends the suggestion's fixes over the main file.
fn push_main_fixes(
    list: &mut Vec<Fix>,
    alloc: Global,
    offer: &Suggestion<'_, '_>,
    main: Option<&str>,
) -> Result<(), AllocError>
    ensures { OnOk result (list.new.items ≡ list.old.items ++ main_fixes (option_copied main.entry) offer.now) }
{
    match main {
        Some(name) => offer.push_fixes(list, alloc, name, offer.message.as_str()),
        None => Ok(()),
    }
}

/// Returns the fixes over the main file.
fn fixes_of(
    alloc: Global,
    offers: &[Suggestion<'_, '_>],
    main: Option<&str>,
) -> Result<Vec<Fix>, AllocError>
    ensures { IfOk result (λ list. list.items ≡ flat_map (main_fixes (option_copied main.entry)) offers.now) }
{
    let mut list = Vec::new(alloc);
    for offer in offers {
        push_main_fixes(&mut list, alloc, offer, main)?;
    }
    Ok(list)
}

/// Returns the message of fixes over another file, like `in src/b.rs`.
fn words_in(alloc: Global, name: &str) -> Result<String, AllocError>
    ensures { IfOk result (λ text. string_bytes text ≡ codes "in " ++ name.now) }
{
    let mut text = String::from_str(alloc, "in ")?;
    text.push_str(name)?;
    Ok(text)
}

/// Returns the suggestion's fixes over another file than the main one.
fn fixes_of_other(
    alloc: Global,
    offer: &Suggestion<'_, '_>,
    name: &str,
) -> Result<Vec<Fix>, AllocError>
    ensures { IfOk result (λ list. list.items ≡ fixes_in name.now (codes "in " ++ name.now) offer.now) }
{
    let words = words_in(alloc, name)?;
    let mut list = Vec::new(alloc);
    offer.push_fixes(&mut list, alloc, name, words.as_str())?;
    Ok(list)
}

/// Returns the related report that advises editing the edit's file.
fn advice<'f, D: Diagnostic>(
    alloc: Global,
    offer: &Suggestion<'f, '_>,
    edit: &FileEdit<'f, '_>,
) -> Result<Report<D, BorrowedFile<'f>>, AllocError>
    ensures { IfOk result (λ r. tree_of D.meaning ⟦<BorrowedFile<'f> as SourceCode>⟧.source r
        ≡ advice offer.now edit.now) }
{
    let fixes = fixes_of_other(alloc, offer, edit.name)?;
    let diagnostic = MietteDiagnostic::new(alloc, offer.message.as_str())?.with_severity(
        Severity::Advice,
    );
    let report = Report::built(diagnostic).with_source_code(edit.file.again());
    report.with_fixes(alloc, fixes)
}

impl<'f, 'v> FileEdit<'f, 'v> {
    /// Returns whether the edit is over the main file.
    fn is_main(&self, main: Option<&str>) -> bool
        ensures { result ≡ is_main (option_copied main.entry) self.now }
    {
        match main {
            Some(main) => main == self.name,
            None => false,
        }
    }
}

/// Returns whether an edit is over the file with this name.
fn is_in(edit: &FileEdit<'_, '_>, name: &str) -> bool
    ensures { result ≡ is_in name.now edit.now }
{
    edit.name == name
}

/// Returns whether one of the edits is over the file with this name.
fn any_in(edits: &[&FileEdit<'_, '_>], name: &str) -> bool
    ensures { result ≡ list_any (is_in name.now) (edits_behind edits.now) }
{
    edits.iter().any(|edit| is_in(edit, name))
}

/// Returns the first edit of each file other than the main one.
pub fn first_edits_of_others<'o, 'f, 'v>(
    alloc: Global,
    edits: &'o [FileEdit<'f, 'v>],
    main: Option<&str>,
) -> Result<Vec<&'o FileEdit<'f, 'v>>, AllocError>
    ensures { IfOk result (λ list. edits_behind list.items ≡ first_edits_of_others (option_copied main.entry) edits.now) }
{
    let mut list = Vec::new(alloc);
    for edit in edits {
        if !edit.is_main(main) && !any_in(list.as_slice(), edit.name) {
            push_item(&mut list, edit)?;
        }
    }
    Ok(list)
}

/// Appends the suggestion's advice for other files than the main one, in order.
fn push_advice<'f, D: Diagnostic>(
    list: &mut Vec<Report<D, BorrowedFile<'f>>>,
    alloc: Global,
    offer: &Suggestion<'f, '_>,
    main: Option<&str>,
) -> Result<(), AllocError>
    ensures { OnOk result (map (tree_of D.meaning ⟦<BorrowedFile<'f> as SourceCode>⟧.source) list.new.items
        ≡ map (tree_of D.meaning ⟦<BorrowedFile<'f> as SourceCode>⟧.source) list.old.items
        ++ advice_of (option_copied main.entry) offer.now) }
{
    let edits = first_edits_of_others(alloc, offer.edits.as_slice(), main)?;
    for edit in edits.as_slice() {
        let edit = *edit;
        let report = advice(alloc, offer, edit)?;
        push_item(list, report)?;
    }
    Ok(())
}

/// Returns the advice for other files than the main one.
fn related_of<'f, D: Diagnostic>(
    alloc: Global,
    offers: &[Suggestion<'f, '_>],
    main: Option<&str>,
) -> Result<Vec<Report<D, BorrowedFile<'f>>>, AllocError>
    ensures { IfOk result (λ list. map (tree_of D.meaning ⟦<BorrowedFile<'f> as SourceCode>⟧.source) list.items
        ≡ flat_map (advice_of (option_copied main.entry)) offers.now) }
{
    let mut list = Vec::new(alloc);
    for offer in offers {
        push_advice(&mut list, alloc, offer, main)?;
    }
    Ok(list)
}

/// Adds fixes over the main file, and related advice for other files.
pub(crate) fn add_suggestions<'f, D: Diagnostic>(
    alloc: Global,
    report: Report<D, BorrowedFile<'f>>,
    offers: &[Suggestion<'f, '_>],
    main: Option<&str>,
) -> Result<Report<D, BorrowedFile<'f>>, AllocError>
    ensures { IfOk result (λ r. tree_of D.meaning ⟦<BorrowedFile<'f> as SourceCode>⟧.source r
        ≡ with_suggestions (option_copied main.entry) offers.now
        (tree_of D.meaning ⟦<BorrowedFile<'f> as SourceCode>⟧.source report.entry)) }
{
    let fixes = fixes_of(alloc, offers, main)?;
    let report = report.with_fixes(alloc, fixes)?;
    let related = related_of(alloc, offers, main)?;
    Ok(report.with_related(related))
}
