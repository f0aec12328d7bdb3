//! Reports over boxes as users write them, and what a context keeps.

ghost use Rattle.std.specs.Prelude.{◌≡◌, ◌⊎◌, IfOk, IfErr, codes};
ghost use Rattle.miette_tree.specs.rules.Diagnosis.{plain_diagnosis};
ghost use Rattle.miette_tree.specs.rules.Tree.{head, single_report, with_fix, with_snippets, wrapped_tree};
ghost use Rattle.miette_tree.specs.views.Owned.{owned_source};
ghost use Rattle.miette_tree.specs.views.Report.{tree_of, out_of_memory_alone};

use miette_fixes::fix::Fix;
use miette_protocol::protocol::{Diagnostic, LabeledSpan};
use miette_protocol::source::SourceCode;
use miette_tree::report::{OwnedSource, Report, Result, WrapErr};
use std::alloc::{AllocError, Global};

/// Adds a context: the report keeps its labels, and has the text as its message.
pub fn under(alloc: Global, report: Report, text: &str) -> Result<Report, Report>
    ensures labels { IfOk result (λ r.
        let tree = tree_of ⟦<Box<dyn Diagnostic> as Diagnostic>⟧.meaning
        ⟦<Box<dyn SourceCode> as SourceCode>⟧.source in
        (head (tree r)).labels ≡ (head (tree report)).labels) }
    ensures message { IfOk result (λ r.
        let tree = tree_of ⟦<Box<dyn Diagnostic> as Diagnostic>⟧.meaning
        ⟦<Box<dyn SourceCode> as SourceCode>⟧.source in
        (head (tree r)).message ≡ text.now) }
{
    report.wrap_err(alloc, text)
}

/// Returns a step's value, or its report with a context.
pub fn step(alloc: Global, outcome: Result<u32>) -> Result<u32>
    ensures ok { IfOk outcome (λ value. result ≡ Ok value) }
    ensures err { IfErr outcome (λ report. IfErr result (λ r.
        let tree = tree_of ⟦<Box<dyn Diagnostic> as Diagnostic>⟧.meaning
        ⟦<Box<dyn SourceCode> as SourceCode>⟧.source in
        (tree r ≡ wrapped_tree (codes "the step failed") (tree report))
        ⊎ (tree r ≡ single_report (plain_diagnosis out_of_memory_alone)))) }
{
    outcome.wrap_err(alloc, "the step failed")
}

/// Returns a report with labels over a second source, and a fix of its own source.
pub fn over_both(
    alloc: Global,
    report: Report,
    other: OwnedSource,
    labels: Vec<LabeledSpan>,
    fix: Fix,
) -> Result<Report, AllocError>
    ensures { IfOk result (λ r.
        let tree = tree_of ⟦<Box<dyn Diagnostic> as Diagnostic>⟧.meaning
        ⟦<Box<dyn SourceCode> as SourceCode>⟧.source in
        tree r ≡ with_fix fix (with_snippets
        (record { source = owned_source other; labels = labels.items }) (tree report))) }
{
    report
        .with_owned_snippets(alloc, other, labels)?
        .with_fix(alloc, fix)
}
