//! The brief text of a report, part by part.

ghost use Rattle.std.specs.Prelude.{◌≡◌, ◌++◌, ◌∷◌, ◌<◌, [], false, OnOk, IfOk, string_bytes, map, length};
ghost use Rattle.std.specs.Prelude.{option_copied, true, Some};
ghost use Rattle.std.specs.List.{All};
ghost use Rattle.miette_tree.specs.views.Report.{tree_of};
ghost use Rattle.miette_tree.specs.views.Attachments.{section_of};
ghost use Rattle.miette_tree.specs.views.Owned.{ref_source, opt_ref_source};
ghost use Rattle.miette_tree.specs.rules.Tree.{head, cause_of};
ghost use Rattle.miette_tree.specs.rules.DiagnosticParts.{given_labels};
ghost use Rattle.miette_tree.specs.rules.Reads.{accepts, further_pass};
ghost use Rattle.miette_brief.specs.declared.form.BriefForm.TheVariants.{Gcc};
ghost use Rattle.miette_brief.specs.rules.Locations.{label_location as place_of_label};
ghost use Rattle.miette_brief.specs.rules.PossibleAnswers.{HasAccepted, FurtherAccepted};
ghost use Rattle.miette_brief.specs.rules.Report.{diagnostic_row, note_rows_of, note_rows, further_notes, cause_row};
ghost use Rattle.miette_brief.specs.rules.Report.{help_rows};
ghost use Rattle.miette_brief.specs.rules.Rows.{brief_rows_text};
ghost use Rattle.miette_brief.specs.steps.AppendedParts.{AppendsBriefAdvice, AppendsCauses, AppendsLabelled};
ghost use Rattle.miette_brief.specs.steps.AppendedParts.{AppendsBriefDiagnostic};
ghost use Rattle.miette_brief.specs.steps.Conversions.{brief_location_of};
ghost use Rattle.miette_brief.specs.steps.Reads.{AreKnown, IsRefusedRead, IsReadAt, brief_labels_accepted};
ghost use Rattle.miette_labels.specs.rules.Groups.{in_order};
ghost use Rattle.miette_labels.specs.views.Turns.{ordered_labels};

use crate::fixes::push_fixes;
use crate::locations::{cause_location, diagnostic_location, label_location};
use crate::primary::label_of;
use crate::rows::{BriefLocation, RowKind, push_row};
use miette_labels::order::{OrderedLabel, order_by_offset};
use miette_protocol::error::RenderError;
use miette_protocol::protocol::{Diagnostic, LabeledSpan};
use miette_protocol::source::{KnownLines, START, SourceCode};
use miette_tree::parts::{cause_texts, effective_source, labels_of};
use miette_tree::report::{Cause, Report, Snippets, SourceRef};
use std::alloc::{AllocError, Global};

/// Appends the line of a diagnostic.
fn push_head<D: Diagnostic, S: SourceCode>(
    out: &mut String,
    report: &Report<D, S>,
    at: BriefLocation<'_>,
) -> Result<(), AllocError>
    ensures { OnOk result (string_bytes out.new ≡ string_bytes out.old
        ++ brief_rows_text (diagnostic_row (brief_location_of at.entry) (head (tree_of D.meaning S.source report.now))
        ∷ [])) }
{
    let kind = RowKind::Finding(report.severity(), report.code());
    push_row(out, at, kind, report.message())
}

/// Appends the line of a label that has a text. Returns `Refused` if its read is refused.
fn push_note<S: SourceCode>(
    out: &mut String,
    source: Option<SourceRef<'_, S>>,
    label: &LabeledSpan,
    known: &mut KnownLines,
) -> Result<(), RenderError>
    requires { AreKnown (opt_ref_source S.source source) known.old }
    ensures known { AreKnown (opt_ref_source S.source source.entry) known.new }
    ensures text { OnOk result (string_bytes out.new ≡ string_bytes out.old ++ brief_rows_text (note_rows_of
        (place_of_label (opt_ref_source S.source source.entry) label.now.span) label.now.text)) }
    ensures accepted { OnOk result (IsReadAt (opt_ref_source S.source source.entry) label.now.span) }
    ensures refused { (result ≡ Err RenderError.Refused) →
        IsRefusedRead (opt_ref_source S.source source.entry) label.now.span }
{
    let at = label_location(source, label.inner(), known)?;
    let Some(text) = label.label() else {
        return Ok(());
    };
    push_row(out, at, RowKind::Note, text)?;
    Ok(())
}

/// Appends the lines of labels in this order. Returns `Refused` if one can't be read. Each is read near the one before.
fn push_notes<S: SourceCode>(
    out: &mut String,
    source: Option<SourceRef<'_, S>>,
    labels: &[LabeledSpan],
    order: &[OrderedLabel],
) -> Result<(), RenderError>
    requires inside { All (λ turn. turn.index < length labels.now) order.now }
    ensures text { OnOk result (string_bytes out.new ≡ string_bytes out.old
        ++ brief_rows_text (note_rows (opt_ref_source S.source source.entry) (ordered_labels labels.now order.now))) }
    ensures accepted { OnOk result (HasAccepted (opt_ref_source S.source source.entry)
        (ordered_labels labels.now order.now)) }
    ensures refused { (result ≡ Err RenderError.Refused) →
        accepts (opt_ref_source S.source source.entry) (ordered_labels labels.now order.now) ≡ false }
{
    let mut known = START;
    for turn in order {
        let label = label_of(labels, *turn);
        push_note(out, source, label, &mut known)?;
    }
    Ok(())
}

/// Appends the lines of a source's labels, by offset. Returns `Refused` if one can't be read.
fn push_sorted_notes<S: SourceCode>(
    out: &mut String,
    source: SourceRef<'_, S>,
    labels: &[LabeledSpan],
) -> Result<(), RenderError>
    ensures text { OnOk result (string_bytes out.new ≡ string_bytes out.old
        ++ brief_rows_text (note_rows (Some (ref_source S.source source.entry)) (in_order labels.now))) }
    ensures accepted { OnOk result (HasAccepted (Some (ref_source S.source source.entry)) (in_order labels.now)) }
    ensures refused { (result ≡ Err RenderError.Refused) →
        accepts (Some (ref_source S.source source.entry)) (in_order labels.now) ≡ false }
{
    let order = order_by_offset(*out.allocator(), labels)?;
    push_notes(out, Some(source), labels, &order)
}

/// Appends the lines of labels over further sources. Returns `Refused` if one can't be read.
fn push_further_notes<S: SourceCode>(
    out: &mut String,
    further: &[Snippets<S>],
) -> Result<(), RenderError>
    ensures text { OnOk result (string_bytes out.new ≡ string_bytes out.old
        ++ brief_rows_text (further_notes (map (section_of S.source) further.now))) }
    ensures accepted { OnOk result (FurtherAccepted (map (section_of S.source) further.now)) }
    ensures refused { (result ≡ Err RenderError.Refused) →
        further_pass accepts (map (section_of S.source) further.now) ≡ false }
{
    for section in further {
        push_sorted_notes(out, section.source(), section.labels())?;
    }
    Ok(())
}

/// Appends the lines of causes that are texts.
fn push_cause_texts(
    out: &mut String,
    at: BriefLocation<'_>,
    texts: &[String],
) -> Result<(), AllocError>
    ensures { OnOk result (string_bytes out.new ≡ string_bytes out.old
        ++ brief_rows_text (map (cause_row (brief_location_of at.entry)) (map string_bytes texts.now))) }
{
    for text in texts {
        push_row(out, at, RowKind::Cause, text.as_str())?;
    }
    Ok(())
}

/// Appends the lines of a report's causes. `at` is the report's location, `source` its source.
fn push_causes<'a, D: Diagnostic, S: SourceCode>(
    out: &mut String,
    alloc: Global,
    report: &'a Report<D, S>,
    at: BriefLocation<'a>,
    source: Option<SourceRef<'a, S>>,
) -> Result<(), AllocError>
    ensures { OnOk result (AppendsCauses true (brief_location_of at.entry) (opt_ref_source S.source source.entry)
        (cause_of (tree_of D.meaning S.source report.now)) (string_bytes out.old) (string_bytes out.new)) }
{
    let mut above = report;
    while let Cause::Diagnostic(next) = above.cause() {
        let own = effective_source(next, source);
        let place = cause_location(alloc, own, labels_of(next), next.further_snippets(), at)?;
        push_row(out, place, RowKind::Cause, next.message())?;
        above = next;
    }
    push_cause_texts(out, at, cause_texts(above))
}

/// Appends the line of help, if there is any.
fn push_help(out: &mut String, at: BriefLocation<'_>, help: Option<&str>) -> Result<(), AllocError>
    ensures { OnOk result (string_bytes out.new ≡ string_bytes out.old
        ++ brief_rows_text (help_rows (brief_location_of at.entry) (option_copied help.entry))) }
{
    let Some(help) = help else {
        return Ok(());
    };
    push_row(out, at, RowKind::Help, help)
}

/// Appends help and fixes of a report at this location.
fn push_advice<D: Diagnostic, S: SourceCode>(
    out: &mut String,
    report: &Report<D, S>,
    at: BriefLocation<'_>,
    source: Option<SourceRef<'_, S>>,
) -> Result<(), AllocError>
    ensures { OnOk result (AppendsBriefAdvice (brief_location_of at.entry) (opt_ref_source S.source source.entry)
        (head (tree_of D.meaning S.source report.now)) (string_bytes out.old) (string_bytes out.new)) }
{
    push_help(out, at, report.help())?;
    push_fixes(out, at, report.fixes(), source)
}

/// Appends the lines of a report and of its labels. Returns the report's location.
fn push_labelled<'a, D: Diagnostic, S: SourceCode>(
    out: &mut String,
    report: &'a Report<D, S>,
    source: Option<SourceRef<'a, S>>,
    order: &[OrderedLabel],
) -> Result<BriefLocation<'a>, RenderError>
    requires inside { All (λ turn. turn.index
        < length (given_labels (head (tree_of D.meaning S.source report.now)).labels)) order.now }
    requires ordered { ordered_labels (given_labels (head (tree_of D.meaning S.source report.now)).labels) order.now
        ≡ in_order (given_labels (head (tree_of D.meaning S.source report.now)).labels) }
    ensures text { IfOk result (λ at. AppendsLabelled (opt_ref_source S.source source.entry)
        (head (tree_of D.meaning S.source report.now)) (brief_location_of at) (string_bytes out.old)
        (string_bytes out.new)) }
    ensures refused { (result ≡ Err RenderError.Refused) →
        brief_labels_accepted (opt_ref_source S.source source.entry) (head (tree_of D.meaning S.source report.now))
        ≡ false }
{
    let labels = labels_of(report);
    let further = report.further_snippets();
    let at = diagnostic_location(*out.allocator(), source, labels, order, further)?;
    push_head(out, report, at)?;
    push_notes(out, source, labels, order)?;
    push_further_notes(out, further)?;
    Ok(at)
}

/// Appends the lines of a report, without those of related reports.
pub(crate) fn push_diagnostic<'a, D: Diagnostic, S: SourceCode>(
    out: &mut String,
    chain: bool,
    report: &'a Report<D, S>,
    source: Option<SourceRef<'a, S>>,
) -> Result<(), RenderError>
    ensures text { OnOk result (AppendsBriefDiagnostic (record { cause_chain = chain; form = Gcc })
        (opt_ref_source S.source source.entry) (head (tree_of D.meaning S.source report.now))
        (cause_of (tree_of D.meaning S.source report.now)) (string_bytes out.old) (string_bytes out.new)) }
    ensures refused { (result ≡ Err RenderError.Refused) →
        brief_labels_accepted (opt_ref_source S.source source.entry) (head (tree_of D.meaning S.source report.now))
        ≡ false }
{
    let alloc = *out.allocator();
    let order = order_by_offset(alloc, labels_of(report))?;
    let at = push_labelled(out, report, source, &order)?;
    if chain {
        push_causes(out, alloc, report, at, source)?;
    }
    push_advice(out, report, at, source)?;
    Ok(())
}
