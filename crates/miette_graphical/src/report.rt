//! The causes of a report, its body, and its related reports.

ghost use Rattle.std.specs.Prelude.{◌≡◌, [], IfOk, OnOk, false, map};
ghost use Rattle.miette_graphical.specs.views.PartTexts.{AreCauses, AreRelated, IsBodyAndRelated, IsInner};
ghost use Rattle.miette_graphical.specs.views.PartTexts.{IsNested, IsOneCause, IsOneRelated, IsSibling, narrowed};
ghost use Rattle.miette_graphical.specs.views.Painting.{KeepsPainter, Paints, printing_of, settings_of, opt_ref_source};
ghost use Rattle.miette_graphical_rules.specs.rules.PrintedDiagnostics.{labels_read, printed_causes};
ghost use Rattle.miette_graphical_rules.specs.steps.PrintedParts.{printed_inner, printed_one, printed_sibling};
ghost use Rattle.miette_graphical_rules.specs.rules.PrintedDiagnostics.{printed_related};
ghost use Rattle.miette_tree.specs.views.Owned.{ref_source};
ghost use Rattle.miette_graphical_rules.specs.rules.Text as texts;
ghost use Rattle.miette_tree.specs.views.Report.{tree_of};
ghost use Rattle.miette_tree.specs.rules.Tree.{cause_of, effective, head, source_of, trees};
ghost use Rattle.miette_runs.specs.rules.Cutting.{trim_leading_feeds};
ghost use Rattle.miette_runs.specs.rules.Sequences.{spell};

use crate::body::push_body;
use crate::diagnostic::{is_nil, push_cause_texts, push_header_and_message, push_sibling_header};
use crate::indents::{Branch, push_under_arrow, width_under};
use crate::painter::Painter;
use miette_highlight::highlight::Highlighter;
use miette_protocol::error::RenderError;
use miette_protocol::protocol::{Diagnostic, Severity};
use miette_protocol::source::SourceCode;
use miette_runs::runs::Runs;
use miette_runs::runs::output::Output;
use miette_runs::runs::trimming::{trim_leading_feeds, trim_trailing_feeds};
use miette_tree::parts::{cause_texts, effective_source};
use miette_tree::report::{Cause, Report, SourceRef};
use std::alloc::{AllocError, Global};
use std::mem;

fn ends_there<D: Diagnostic, S: SourceCode>(report: &Report<D, S>) -> bool
    ensures { result ≡ texts.ends_there (cause_of (tree_of D.meaning S.source report.now)) }
{
    match report.cause() {
        Cause::None => true,
        Cause::Diagnostic(_) => false,
        Cause::Texts(list) => is_nil(list),
    }
}

fn are_last<D: Diagnostic, S: SourceCode>(reports: &[Report<D, S>]) -> bool
    ensures { result ≡ texts.are_last (trees (map (tree_of D.meaning S.source) reports.now)) }
{
    match reports {
        [] => true,
        [_, ..] => false,
    }
}

/// Prints the causes of a report under arrows, in the style of the outer severity.
#[cycle(report)]
pub fn push_causes<D: Diagnostic, S: SourceCode, H: Highlighter>(
    painter: &mut Painter<'_, H>,
    outer: Option<Severity>,
    inherited: Option<SourceRef<'_, S>>,
    report: &Report<D, S>,
) -> Result<(), RenderError>
    ensures ok { OnOk result (Paints H.is_blank H.may_follow (AreCauses outer (opt_ref_source S.source inherited.entry)
        (cause_of (tree_of D.meaning S.source report.now))) painter.old painter.new) }
    ensures refused { (result ≡ Err RenderError.Refused) →
        labels_read (printed_causes (settings_of painter.old).related_as_nested
        (opt_ref_source S.source inherited.entry)
        (cause_of (tree_of D.meaning S.source report.now))) ≡ false }
    ensures keeps { KeepsPainter H.is_blank painter.old painter.new }
{
    let mut at = report;
    while let Cause::Diagnostic(next) = at.cause() {
        push_one_cause(painter, outer, inherited, next)?;
        at = next;
    }
    push_cause_texts(painter, outer, cause_texts(at))?;
    Ok(())
}

/// Prints a cause that is a diagnostic, under its arrow.
#[cycle(report)]
fn push_one_cause<D: Diagnostic, S: SourceCode, H: Highlighter>(
    painter: &mut Painter<'_, H>,
    outer: Option<Severity>,
    inherited: Option<SourceRef<'_, S>>,
    cause: &Report<D, S>,
) -> Result<(), RenderError>
    ensures ok { OnOk result (Paints H.is_blank H.may_follow (IsOneCause outer (opt_ref_source S.source inherited.entry)
        (tree_of D.meaning S.source cause.now)) painter.old painter.new) }
    ensures refused { (result ≡ Err RenderError.Refused) →
        labels_read (printed_inner (settings_of painter.old).related_as_nested
        (effective (source_of (tree_of D.meaning S.source cause.now)) (opt_ref_source S.source inherited.entry))
        (tree_of D.meaning S.source cause.now)) ≡ false }
    ensures keeps { KeepsPainter H.is_blank painter.old painter.new }
{
    let branch = Branch {
        outer,
        is_last: ends_there(cause),
    };
    let inner = inner_text(painter, branch, effective_source(cause, inherited), cause)?;
    push_under_arrow(painter, branch, &inner)?;
    Ok(())
}

/// Returns a report that is printed under an arrow, over its effective source.
#[cycle(report)]
fn inner_text<D: Diagnostic, S: SourceCode, H: Highlighter>(
    painter: &mut Painter<'_, H>,
    branch: Branch,
    source: Option<SourceRef<'_, S>>,
    report: &Report<D, S>,
) -> Result<Runs, RenderError>
    ensures ok { IfOk result (λ r. IsInner (opt_ref_source S.source source.entry)
        (tree_of D.meaning S.source report.now)
        (narrowed branch.outer branch.is_last (printing_of H.is_blank H.may_follow painter.old painter.new))
        (spell r)) }
    ensures out { painter.new.out ≡ painter.old.out }
    ensures refused { (result ≡ Err RenderError.Refused) →
        labels_read (printed_inner (settings_of painter.old).related_as_nested (opt_ref_source S.source source.entry)
        (tree_of D.meaning S.source report.now)) ≡ false }
    ensures keeps { KeepsPainter H.is_blank painter.old painter.new }
{
    let width = width_under(painter, branch)?;
    let outer_width = painter.width;
    painter.width = width;
    let out = mem::replace(&mut painter.out, Output::for_runs(painter.alloc));
    let text = inner_runs(painter, source, report);
    painter.width = outer_width;
    painter.out = out;
    text
}

/// Returns a report that is printed inside another one, over its effective source. The painter must be empty.
#[cycle(report)]
fn inner_runs<D: Diagnostic, S: SourceCode, H: Highlighter>(
    painter: &mut Painter<'_, H>,
    source: Option<SourceRef<'_, S>>,
    report: &Report<D, S>,
) -> Result<Runs, RenderError>
    ensures ok { IfOk result (λ r. painter.old.out ≡ [] → IsInner (opt_ref_source S.source source.entry)
        (tree_of D.meaning S.source report.now) (printing_of H.is_blank H.may_follow painter.old painter.new)
        (spell r)) }
    ensures refused { (result ≡ Err RenderError.Refused) →
        labels_read (printed_inner (settings_of painter.old).related_as_nested (opt_ref_source S.source source.entry)
        (tree_of D.meaning S.source report.now)) ≡ false }
    ensures keeps { KeepsPainter H.is_blank painter.old painter.new }
{
    push_header_and_message(painter, report)?;
    push_body_and_related(painter, source, report)?;
    let text = mem::replace(&mut painter.out, Output::for_runs(painter.alloc));
    Ok(runs_without_leading(painter.alloc, text)?)
}

// Returns the runs of a text without line feeds at its beginning.
fn runs_without_leading(alloc: Global, text: Output) -> Result<Runs, AllocError>
    ensures { IfOk result (λ r. spell r ≡ trim_leading_feeds text) }
{
    trim_leading_feeds(alloc, text.into_runs(alloc)?)
}

/// Prints what follows a report's causes: its snippets, help and fixes over its effective source, and its related
/// reports.
#[cycle(report)]
pub fn push_body_and_related<D: Diagnostic, S: SourceCode, H: Highlighter>(
    painter: &mut Painter<'_, H>,
    source: Option<SourceRef<'_, S>>,
    report: &Report<D, S>,
) -> Result<(), RenderError>
    ensures ok { OnOk result (Paints H.is_blank H.may_follow (IsBodyAndRelated (opt_ref_source S.source source.entry)
        (tree_of D.meaning S.source report.now)) painter.old painter.new) }
    ensures refused { (result ≡ Err RenderError.Refused) →
        labels_read (printed_inner (settings_of painter.old).related_as_nested (opt_ref_source S.source source.entry)
        (tree_of D.meaning S.source report.now)) ≡ false }
    ensures keeps { KeepsPainter H.is_blank painter.old painter.new }
{
    push_body(painter, source, report)?;
    push_related(painter, report.severity(), source, report.related())
}

/// Prints a related report as a sibling, over its effective source.
#[cycle(report)]
fn push_sibling<D: Diagnostic, S: SourceCode, H: Highlighter>(
    painter: &mut Painter<'_, H>,
    source: Option<SourceRef<'_, S>>,
    report: &Report<D, S>,
) -> Result<(), RenderError>
    ensures ok { OnOk result (Paints H.is_blank H.may_follow (IsSibling (opt_ref_source S.source source.entry)
        (tree_of D.meaning S.source report.now)) painter.old painter.new) }
    ensures refused { (result ≡ Err RenderError.Refused) →
        labels_read (printed_sibling (settings_of painter.old).related_as_nested (opt_ref_source S.source source.entry)
        (tree_of D.meaning S.source report.now)) ≡ false }
    ensures keeps { KeepsPainter H.is_blank painter.old painter.new }
{
    push_sibling_header(painter, report)?;
    push_causes(painter, report.severity(), source, report)?;
    push_body_and_related(painter, source, report)
}

/// Prints a related report under its arrow, over its effective source.
#[cycle(report)]
fn push_nested<D: Diagnostic, S: SourceCode, H: Highlighter>(
    painter: &mut Painter<'_, H>,
    branch: Branch,
    source: Option<SourceRef<'_, S>>,
    report: &Report<D, S>,
) -> Result<(), RenderError>
    ensures ok { OnOk result (Paints H.is_blank H.may_follow (IsNested branch.outer branch.is_last
        (opt_ref_source S.source source.entry) (tree_of D.meaning S.source report.now)) painter.old painter.new) }
    ensures refused { (result ≡ Err RenderError.Refused) →
        labels_read (printed_inner (settings_of painter.old).related_as_nested (opt_ref_source S.source source.entry)
        (tree_of D.meaning S.source report.now)) ≡ false }
    ensures keeps { KeepsPainter H.is_blank painter.old painter.new }
{
    let inner = inner_text(painter, branch, source, report)?;
    let cut = trim_trailing_feeds(painter.alloc, inner)?;
    push_under_arrow(painter, branch, &cut)?;
    Ok(())
}

/// Prints one of several related reports, nested or as a sibling, over its effective source.
#[cycle(report)]
fn push_one_related<D: Diagnostic, S: SourceCode, H: Highlighter>(
    painter: &mut Painter<'_, H>,
    branch: Branch,
    source: Option<SourceRef<'_, S>>,
    report: &Report<D, S>,
) -> Result<(), RenderError>
    ensures ok { OnOk result (Paints H.is_blank H.may_follow (IsOneRelated branch.outer branch.is_last
        (opt_ref_source S.source source.entry) (tree_of D.meaning S.source report.now)) painter.old painter.new) }
    ensures refused { (result ≡ Err RenderError.Refused) →
        labels_read (printed_one (settings_of painter.old).related_as_nested (opt_ref_source S.source source.entry)
        (tree_of D.meaning S.source report.now)) ≡ false }
    ensures keeps { KeepsPainter H.is_blank painter.old painter.new }
{
    if painter.settings.related_as_nested {
        push_nested(painter, branch, source, report)
    } else {
        push_sibling(painter, source, report)
    }
}

/// Prints related reports, nested or as siblings.
#[cycle(report)]
fn push_related<D: Diagnostic, S: SourceCode, H: Highlighter>(
    painter: &mut Painter<'_, H>,
    outer: Option<Severity>,
    inherited: Option<SourceRef<'_, S>>,
    reports: &[Report<D, S>],
) -> Result<(), RenderError>
    ensures ok { OnOk result (Paints H.is_blank H.may_follow (AreRelated outer (opt_ref_source S.source inherited.entry)
        (trees (map (tree_of D.meaning S.source) reports.now))) painter.old painter.new) }
    ensures refused { (result ≡ Err RenderError.Refused) →
        labels_read (printed_related (settings_of painter.old).related_as_nested
        (opt_ref_source S.source inherited.entry)
        (trees (map (tree_of D.meaning S.source) reports.now))) ≡ false }
    ensures keeps { KeepsPainter H.is_blank painter.old painter.new }
{
    let mut rest = reports;
    while let [report, more @ ..] = rest {
        let branch = Branch {
            outer,
            is_last: are_last(more),
        };
        let source = effective_source(report, inherited);
        push_one_related(painter, branch, source, report)?;
        rest = more;
    }
    Ok(())
}
