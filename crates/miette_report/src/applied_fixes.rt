//! Collects the fixes of a report and of the reports below it, and applies them to its source.

ghost use Rattle.std.specs.Prelude.{◌≡◌, ◌++◌, [], Some, true, IfOk, length, map, not};
ghost use Rattle.std.specs.List.{filter, list_any};
ghost use Rattle.std.specs.Option.{option_map};
ghost use Rattle.miette_lines.specs.rules.Lists.{is_nil};
ghost use Rattle.miette_fixes.specs.rules.ApplyingAll.{all_applied, edit_lists, taken};
ghost use Rattle.miette_report.specs.rules.AppliedFixes.{asked_edits, asked_fixes, job_fixed_text, fixes_of_causes};
ghost use Rattle.miette_report.specs.rules.AppliedFixes.{fixes_of_related, fixes_over, inheriting, some_left};
ghost use Rattle.miette_report.specs.rules.AppliedFixes.{whole_text};
ghost use Rattle.miette_fixes.specs.rules.Edits.{is_machine_applicable};
ghost use Rattle.miette_report.specs.steps.FixLists.{fixes_in};
ghost use Rattle.miette_tree.specs.rules.Reads.{AlwaysReads};
ghost use Rattle.miette_tree.specs.rules.Tree.{cause_of, head, related_of, source_of, trees};
ghost use Rattle.miette_tree.specs.views.Owned.{ref_source};
ghost use Rattle.miette_tree.specs.views.Report.{tree_of};

use miette_fixes::fix::{Edit, Fix, apply_all};
use miette_protocol::protocol::{Diagnostic, SourceSpan};
use miette_protocol::source::SourceCode;
use miette_tree::report::{Cause, Report, SourceRef};
use std::alloc::{AllocError, Global};

/// The text of a source with fixes applied.
#[derive(Drop)]
pub(crate) struct FixedText {
    pub(crate) text: Vec<u8>,
    /// Whether a fix was left out.
    pub(crate) some_left: bool,
}

// Appends these fixes.
fn with_fixes<'a>(mut list: Vec<&'a Fix>, fixes: &'a [Fix]) -> Result<Vec<&'a Fix>, AllocError>
    ensures { IfOk result (λ it. fixes_in it.items ≡ fixes_in list.entry.items ++ fixes.now) }
{
    for fix in fixes {
        list.push(fix)?;
    }
    Ok(list)
}

// Appends the fixes of a report and of all reports below it that use its source.
#[cycle(fixes)]
fn with_all<'a, D: Diagnostic, S: SourceCode>(
    list: Vec<&'a Fix>,
    report: &'a Report<D, S>,
) -> Result<Vec<&'a Fix>, AllocError>
    ensures { IfOk result (λ it. fixes_in it.items
        ≡ fixes_in list.entry.items ++ fixes_over (tree_of D.meaning S.source report.now)) }
{
    let own = with_fixes(list, report.fixes())?;
    let caused = with_causes(own, report)?;
    with_related(caused, report.related())
}

// Appends the fixes of its causes.
#[cycle(fixes)]
fn with_causes<'a, D: Diagnostic, S: SourceCode>(
    mut list: Vec<&'a Fix>,
    report: &'a Report<D, S>,
) -> Result<Vec<&'a Fix>, AllocError>
    ensures { IfOk result (λ it. fixes_in it.items
        ≡ fixes_in list.entry.items ++ fixes_of_causes (cause_of (tree_of D.meaning S.source report.now))) }
{
    let mut at = report;
    while let Cause::Diagnostic(next) = at.cause() {
        list = with_cause(list, next)?;
        at = next;
    }
    Ok(list)
}

// Appends the fixes of a cause, if it inherits the source.
#[cycle(fixes)]
fn with_cause<'a, D: Diagnostic, S: SourceCode>(
    list: Vec<&'a Fix>,
    report: &'a Report<D, S>,
) -> Result<Vec<&'a Fix>, AllocError>
    ensures { IfOk result (λ it.
        let t = tree_of D.meaning S.source report.now in
        fixes_in it.items ≡ fixes_in list.entry.items
        ++ inheriting (source_of t) ((head t).fixes ++ fixes_of_related (related_of t))) }
{
    match report.source_code() {
        Some(_) => Ok(list),
        None => with_related(with_fixes(list, report.fixes())?, report.related()),
    }
}

// Appends the fixes of related reports.
#[cycle(fixes)]
fn with_related<'a, D: Diagnostic, S: SourceCode>(
    mut list: Vec<&'a Fix>,
    reports: &'a [Report<D, S>],
) -> Result<Vec<&'a Fix>, AllocError>
    ensures { IfOk result (λ it. fixes_in it.items
        ≡ fixes_in list.entry.items ++ fixes_of_related (trees (map (tree_of D.meaning S.source) reports.now))) }
{
    for report in reports {
        list = with_inheriting(list, report)?;
    }
    Ok(list)
}

// Appends the fixes of a related report, if it inherits the source.
#[cycle(fixes)]
fn with_inheriting<'a, D: Diagnostic, S: SourceCode>(
    list: Vec<&'a Fix>,
    report: &'a Report<D, S>,
) -> Result<Vec<&'a Fix>, AllocError>
    ensures { IfOk result (λ it.
        let t = tree_of D.meaning S.source report.now in
        fixes_in it.items ≡ fixes_in list.entry.items ++ inheriting (source_of t) (fixes_over t)) }
{
    match report.source_code() {
        Some(_) => Ok(list),
        None => with_all(list, report),
    }
}

// Returns the machine-applicable fixes.
fn sure_ones<'a>(alloc: Global, fixes: &[&'a Fix]) -> Result<Vec<&'a Fix>, AllocError>
    ensures { IfOk result (λ it. fixes_in it.items ≡ filter (λ fix. is_machine_applicable fix.applicability)
        (fixes_in fixes.now)) }
{
    let mut found = Vec::new(alloc);
    for fix in fixes {
        if fix.applicability().is_machine_applicable() {
            found.push(*fix)?;
        }
    }
    Ok(found)
}

// Returns all fixes, or only the machine-applicable ones.
fn select_fixes<'a>(
    alloc: Global,
    list: Vec<&'a Fix>,
    all: bool,
) -> Result<Vec<&'a Fix>, AllocError>
    ensures { IfOk result (λ it. fixes_in it.items ≡ asked_fixes all (fixes_in list.entry.items)) }
{
    if all {
        return Ok(list);
    }
    sure_ones(alloc, &list)
}

// Whether one of these is false.
fn some_not(list: &[bool]) -> bool
    ensures { result ≡ list_any not list.now }
{
    for it in list {
        if !*it {
            return true;
        }
    }
    false
}

// Whether there is an edit.
fn has_edits(edits: &[Edit]) -> bool
    ensures { result ≡ not (is_nil edits.now) }
{
    match edits {
        [] => false,
        _ => true,
    }
}

// Whether a fix has edits.
fn some_edits(fixes: &[&Fix]) -> bool
    ensures { result ≡ list_any (λ edits. not (is_nil edits)) (edit_lists fixes.now) }
{
    for fix in fixes {
        if has_edits(fix.edits()) {
            return true;
        }
    }
    false
}

// The bytes of a source that always reads.
fn text_in<'a, S: SourceCode>(source: SourceRef<'a, S>) -> &'a [u8]
    requires { (ref_source S.source source).always_reads ≡ true }
    ensures { result.now ≡ whole_text (ref_source S.source source.entry) }
{
    match source.read_span(&SourceSpan::from(0), 0, usize::MAX) {
        Ok(contents) => contents.data(),
        Err(_) => unreachable!(),
    }
}

// The text of a source with fixes applied.
fn fixed_over<S: SourceCode>(
    alloc: Global,
    source: SourceRef<'_, S>,
    fixes: &[&Fix],
) -> Result<FixedText, AllocError>
    requires { (ref_source S.source source).always_reads ≡ true }
    ensures text { IfOk result (λ it. it.text.items
        ≡ all_applied (whole_text (ref_source S.source source.entry)) (edit_lists fixes.now)) }
    ensures left { IfOk result (λ it. it.some_left
        ≡ list_any not (taken (length (whole_text (ref_source S.source source.entry))) [] (edit_lists fixes.now))) }
{
    let applied = apply_all(alloc, text_in(source), fixes)?;
    Ok(FixedText {
        some_left: some_not(&applied.taken),
        text: applied.text,
    })
}

/// Applies the fixes of a report and of the reports below it to its source: all fixes, or only the machine-applicable
/// ones.
///
/// # Errors
/// `AllocError` if allocation fails.
pub(crate) fn fixed<D: Diagnostic, S: SourceCode>(
    alloc: Global,
    report: &Report<D, S>,
    all: bool,
) -> Result<FixedText, AllocError>
    requires { AlwaysReads (tree_of D.meaning S.source report.now) }
    ensures text { IfOk result (λ it.
        let t = tree_of D.meaning S.source report.now in
        it.text.items ≡ job_fixed_text (source_of t) (asked_edits all t)) }
    ensures left { IfOk result (λ it.
        let t = tree_of D.meaning S.source report.now in
        it.some_left ≡ some_left (source_of t) (asked_edits all t)) }
{
    let found = with_all(Vec::new(alloc), report)?;
    let list = select_fixes(alloc, found, all)?;
    match report.source_code() {
        Some(source) => fixed_over(alloc, source, &list),
        None => Ok(FixedText {
            text: Vec::new(alloc),
            some_left: some_edits(&list),
        }),
    }
}
