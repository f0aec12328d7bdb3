//! Reports from SARIF 2.1.0 logs.

ghost use Rattle.std.specs.Prelude.{◌≡◌, ◌++◌, Err, None, Some, IfOk, OnOk, codes, is_some, map, option_and_then};
ghost use Rattle.std.specs.List.{flat_map};
ghost use Rattle.serde_json.specs.Find.{as_array, get};
ghost use Rattle.serde_json.specs.View.{view};
ghost use Rattle.miette_read.specs.rules.Members.{member_objects};
ghost use Rattle.miette_read.specs.views.Values.{values_behind};
ghost use Rattle.miette_tree.specs.views.Report.{tree_of};
ghost use Rattle.miette_read_sarif.specs.rules.Logs.{has_sarif_runs, is_of_version, notification_tree, result_in};
ghost use Rattle.miette_read_sarif.specs.rules.Logs.{result_tree};
ghost use Rattle.miette_read_sarif.specs.rules.Logs.{run_trees, sarif_trees};
ghost use Rattle.miette_read_sarif.specs.rules.Wholes.{file_annotations_tree};
ghost use Rattle.miette_read_sarif.specs.views.RunContexts.{run_context};

use crate::context::{RunContext, run_lists};
use crate::counted_results::results_of;
use crate::drafts::SuggestionDraft;
use crate::file_annotations::{FileAnnotations, all_annotations, found_whole_file};
use crate::laws;
use crate::notifications::{notification_parts, tool_notifications};
use crate::proposals::{drafts_help, found_suggestions};
use crate::whole_file_suggestions::{fixes_over, other_suggestions, own_suggestions};
use miette_protocol::protocol::Diagnostic;
use miette_protocol::source::SourceCode;
use miette_read::files::{BorrowedFile, Files};
use miette_read::format::MessageFormat;
use miette_read::lists::push_item;
use miette_read::members::{member_objects, member_text, member_value};
use miette_read::reports::{MessageParts, tool_report};
use miette_read::rustc::ReadError;
use miette_tree::report::Report;
use serde_json::Value;
use std::alloc::{AllocError, Global};

/// A SARIF 2.1.0 log.
pub struct Sarif;

/// The version of the logs that are read. Another number follows it.
const VERSION: &str = "2.1";

/// Returns whether a log has this version, or none.
fn is_of_version(value: &Value) -> bool
    ensures { result ≡ is_of_version (view value.now) }
{
    let version = member_text(value, "version").unwrap_or(VERSION);
    version.as_bytes().starts_with(VERSION.as_bytes())
}

/// Returns whether a value has a list of runs.
fn lists_runs(value: &Value) -> bool
    ensures { result ≡ is_some (option_and_then as_array (get (codes "runs") (view value.now))) }
{
    match member_value(value, "runs") {
        Some(runs) => runs.as_array().is_some(),
        None => false,
    }
}

/// Returns whether a value is a log of SARIF 2.1: it has a list `runs`, and no other version.
pub fn has_sarif_runs(value: &Value) -> bool
    ensures { result ≡ has_sarif_runs (view value.now) }
{
    is_of_version(value) && lists_runs(value)
}

/// Returns the report of own parts, annotations and suggestions.
fn file_annotations_report<'f, D: Diagnostic, F: Files>(
    alloc: Global,
    files: &'f F,
    said: MessageParts,
    telling: &FileAnnotations,
    drafts: &[SuggestionDraft<'_>],
) -> Result<Report<D, BorrowedFile<'f>>, AllocError>
    ensures { IfOk result (λ r. tree_of D.meaning ⟦<BorrowedFile<'f> as SourceCode>⟧.source r
        ≡ file_annotations_tree (F.found files.now) said telling.now drafts.now) }
{
    let told = all_annotations(alloc, files, telling)?;
    let Some((name, file)) = found_whole_file(files, telling) else {
        let offers = found_suggestions(alloc, files, drafts)?;
        return tool_report(alloc, files, said, told.as_slice(), offers.as_slice());
    };
    let others = other_suggestions(alloc, files, name, drafts)?;
    let report = tool_report(alloc, files, said, told.as_slice(), others.as_slice())?;
    let own = own_suggestions(alloc, files, name, drafts)?;
    let fixes = fixes_over(alloc, name, own.as_slice())?;
    report.with_source_code(file).with_fixes(alloc, fixes)
}

/// Returns the report of a result.
fn result_report<'f, D: Diagnostic, F: Files>(
    alloc: Global,
    context: &RunContext<'f, '_, '_, F>,
    finding: &Value,
) -> Result<Report<D, BorrowedFile<'f>>, AllocError>
    ensures { IfOk result (λ r. tree_of D.meaning ⟦<BorrowedFile<'f> as SourceCode>⟧.source r
        ≡ result_in (run_context F.found context.now) (view finding.now)) }
{
    let telling = context.result_file_annotations(alloc, finding)?;
    let drafts = context.suggestion_drafts(alloc, finding)?;
    let help = drafts_help(alloc, context.files, drafts.as_slice())?;
    let said = context.result_parts(alloc, help, finding)?;
    file_annotations_report(alloc, context.files, said, &telling, drafts.as_slice())
}

/// Returns the report of a notification.
fn notification_report<'f, D: Diagnostic, F: Files>(
    alloc: Global,
    context: &RunContext<'f, '_, '_, F>,
    notice: &Value,
) -> Result<Report<D, BorrowedFile<'f>>, AllocError>
    ensures { IfOk result (λ r. tree_of D.meaning ⟦<BorrowedFile<'f> as SourceCode>⟧.source r
        ≡ notification_tree (run_context F.found context.now) (view notice.now)) }
{
    let telling = context.notification_file_annotations(alloc, notice)?;
    let said = notification_parts(alloc, notice)?;
    file_annotations_report(alloc, context.files, said, &telling, &[])
}

/// Appends the reports of notifications.
fn push_notices<'f, D: Diagnostic, F: Files>(
    list: &mut Vec<Report<D, BorrowedFile<'f>>>,
    alloc: Global,
    context: &RunContext<'f, '_, '_, F>,
    notices: &[&Value],
) -> Result<(), AllocError>
    ensures { OnOk result (map (tree_of D.meaning ⟦<BorrowedFile<'f> as SourceCode>⟧.source) list.new.items
        ≡ map (tree_of D.meaning ⟦<BorrowedFile<'f> as SourceCode>⟧.source) list.old.items
        ++ map (notification_tree (run_context F.found context.now)) (values_behind notices.now)) }
{
    for notice in notices {
        let report = notification_report(alloc, context, *notice)?;
        push_item(list, report)?;
    }
    Ok(())
}

/// Appends the reports of results.
fn push_reports<'f, D: Diagnostic, F: Files>(
    list: &mut Vec<Report<D, BorrowedFile<'f>>>,
    alloc: Global,
    context: &RunContext<'f, '_, '_, F>,
    findings: &[&Value],
) -> Result<(), AllocError>
    ensures { OnOk result (map (tree_of D.meaning ⟦<BorrowedFile<'f> as SourceCode>⟧.source) list.new.items
        ≡ map (tree_of D.meaning ⟦<BorrowedFile<'f> as SourceCode>⟧.source) list.old.items
        ++ map (result_tree (run_context F.found context.now)) (values_behind findings.now)) }
{
    for finding in findings {
        let report = result_report(alloc, &context.result_context(*finding), *finding)?;
        push_item(list, report)?;
    }
    Ok(())
}

/// Appends the reports of a run.
fn push_run<'f, D: Diagnostic, F: Files>(
    list: &mut Vec<Report<D, BorrowedFile<'f>>>,
    alloc: Global,
    files: &'f F,
    run: &Value,
) -> Result<(), AllocError>
    ensures { OnOk result (map (tree_of D.meaning ⟦<BorrowedFile<'f> as SourceCode>⟧.source) list.new.items
        ≡ map (tree_of D.meaning ⟦<BorrowedFile<'f> as SourceCode>⟧.source) list.old.items
        ++ run_trees (F.found files.now) (view run.now)) }
{
    let lists = run_lists(alloc, files, run)?;
    let context = RunContext::of(files, &lists, run);
    let notices = tool_notifications(alloc, run)?;
    let findings = results_of(alloc, run)?;
    push_notices(list, alloc, &context, notices.as_slice())?;
    push_reports(list, alloc, &context, findings.as_slice())
}

/// Returns the reports of all runs.
fn runs_reports<'f, D: Diagnostic, F: Files>(
    alloc: Global,
    files: &'f F,
    value: &Value,
) -> Result<Vec<Report<D, BorrowedFile<'f>>>, AllocError>
    ensures { IfOk result (λ list. map (tree_of D.meaning ⟦<BorrowedFile<'f> as SourceCode>⟧.source) list.items
        ≡ flat_map (run_trees (F.found files.now)) (member_objects (codes "runs") (view value.now))) }
{
    let runs = member_objects(alloc, value, "runs")?;
    let mut list = Vec::new(alloc);
    for run in runs.as_slice() {
        push_run(&mut list, alloc, files, *run)?;
    }
    Ok(list)
}

/// Returns the reports of a SARIF 2.1.0 log. Each run in order gives one report for each error notification of its
/// tool, then one for each counted result. Files are looked up by the names in the log.
///
/// # Errors
/// `NoMessage` if the value has no list of runs, or has another version. `Memory` if allocation fails.
pub fn sarif_reports<'f, D: Diagnostic, F: Files>(
    alloc: Global,
    files: &'f F,
    value: &Value,
) -> Result<Vec<Report<D, BorrowedFile<'f>>>, ReadError>
    ensures ok { IfOk result (λ list. sarif_trees (F.found files.now) (view value.now)
        ≡ Some (map (tree_of D.meaning ⟦<BorrowedFile<'f> as SourceCode>⟧.source) list.items)) }
    ensures message { (result ≡ Err ReadError.NoMessage) → sarif_trees (F.found files.now) (view value.now) ≡ None }
{
    if !has_sarif_runs(value) {
        return Err(ReadError::NoMessage);
    }
    let list = runs_reports(alloc, files, value)?;
    Ok(list)
}

impl MessageFormat for Sarif {
    ghost looks = { has_sarif_runs };

    ghost trees = { sarif_trees };

    fn looks_like(value: &Value) -> bool {
        has_sarif_runs(value)
    }

    fn reports<'f, D: Diagnostic, F: Files>(
        alloc: Global,
        files: &'f F,
        value: &Value,
    ) -> Result<Vec<Report<D, BorrowedFile<'f>>>, ReadError> {
        sarif_reports(alloc, files, value)
    }

    fn reports_always_read() {
        laws::reports_always_read();
    }

    fn labels_are_accepted() {
        laws::labels_are_accepted();
    }
}
