//! Reports as GitHub workflow commands.

ghost use Rattle.std.specs.Prelude.{◌≡◌, ◌++◌, ◌∷◌, ◌<◌, [], false, codes, OnOk, IfOk, string_bytes, map, length};
ghost use Rattle.std.specs.Prelude.{◌+◌, Some, drop, option_copied, slice_range, take, IfSome};
ghost use Rattle.miette_tree.specs.views.Report.{tree_of};
ghost use Rattle.miette_tree.specs.views.Owned.{opt_ref_source};
ghost use Rattle.miette_tree.specs.rules.Tree.{head, cause_of, causes_of};
ghost use Rattle.miette_brief.specs.declared.form.BriefForm.TheVariants.{Github};
ghost use Rattle.miette_brief.specs.rules.Commands.{escaped, message_rows_text};
ghost use Rattle.miette_brief.specs.rules.Github.{advice_message_rows, cause_message_rows, fix_message_row, nonempty};
ghost use Rattle.miette_brief.specs.rules.Github.{note_message_row};
ghost use Rattle.miette_brief.specs.rules.Github.{note_message_rows, message_row, message_row_if};
ghost use Rattle.miette_brief.specs.rules.LocatedLabels.{with_first};
ghost use Rattle.miette_brief.specs.steps.AppendedParts.{AppendsBriefDiagnostic};
ghost use Rattle.miette_brief.specs.steps.CommandParts.{located_label_of};
ghost use Rattle.miette_brief.specs.steps.Reads.{brief_labels_accepted};
ghost use Rattle.miette_brief.specs.steps.WholeSources.{IsWholeSource};

use crate::commands::{FileLocation, push_head, push_message_row};
use crate::escapes::{CommandPart, push_escaped};
use crate::file_locations::primary_file_location;
use crate::located_labels::{LocatedLabel, located_labels_of, primary_at};
use crate::whole_source::WholeSource;
use miette_fixes::fix::Fix;
use miette_protocol::error::RenderError;
use miette_protocol::protocol::{Diagnostic, LabeledSpan};
use miette_protocol::source::SourceCode;
use miette_tree::parts::{cause_texts, labels_of};
use miette_tree::report::{Cause, Report, SourceRef};
use std::alloc::AllocError;

/// Returns a text unless it is empty.
fn nonempty(text: Option<&str>) -> Option<&str>
    ensures { option_copied result ≡ nonempty (option_copied text.entry) }
{
    match text {
        Some(text) if !text.is_empty() => Some(text),
        _ => None,
    }
}

/// Appends a message row if there is a text.
fn push_message_row_if(out: &mut String, title: &str, text: Option<&str>) -> Result<(), AllocError>
    ensures { OnOk result (string_bytes out.new
        ≡ string_bytes out.old ++ message_rows_text (message_row_if title.now (option_copied text.entry))) }
{
    match text {
        Some(text) => push_message_row(out, title, text),
        None => Ok(()),
    }
}

/// Appends the text of a label.
fn push_note(out: &mut String, label: &LabeledSpan) -> Result<(), AllocError>
    ensures { OnOk result (string_bytes out.new
        ≡ string_bytes out.old ++ message_rows_text (message_row_if (codes "note: ") label.now.text)) }
{
    push_message_row_if(out, "note: ", label.label())
}

/// Appends the texts of labels, in order.
fn push_notes<S: SourceCode>(
    out: &mut String,
    marks: &[LocatedLabel<'_, S>],
) -> Result<(), AllocError>
    ensures { OnOk result (string_bytes out.new
        ≡ string_bytes out.old ++ message_rows_text (note_message_rows (map (located_label_of S.source) marks.now))) }
{
    for mark in marks {
        push_note(out, mark.label)?;
    }
    Ok(())
}

/// Splits labels into the one at an index, those before it, and those after it.
fn parted<'m, 'a, S: SourceCode>(
    marks: &'m [LocatedLabel<'a, S>],
    at: usize,
) -> (
    &'m [LocatedLabel<'a, S>],
    &'m [LocatedLabel<'a, S>],
    &'m [LocatedLabel<'a, S>],
)
    requires { at < length marks.now }
    ensures first { result.0.now ≡ slice_range marks.now at (at + 1) }
    ensures before { result.1.now ≡ take at marks.now }
    ensures behind { result.2.now ≡ drop (at + 1) marks.now }
{
    (&marks[at..at + 1], &marks[..at], &marks[at + 1..])
}

/// Appends the text of the label at an index first, then the texts of all others.
fn push_notes_from<S: SourceCode>(
    out: &mut String,
    marks: &[LocatedLabel<'_, S>],
    at: usize,
) -> Result<(), AllocError>
    requires { at < length marks.now }
    ensures { OnOk result (string_bytes out.new ≡ string_bytes out.old
        ++ message_rows_text (note_message_rows (with_first (Some at) (map (located_label_of S.source) marks.now)))) }
{
    let (first, before, after) = parted(marks, at);
    push_notes(out, first)?;
    push_notes(out, before)?;
    push_notes(out, after)
}

/// Appends the texts of labels. The label at `first` comes first, if there is one.
fn push_first_notes<S: SourceCode>(
    out: &mut String,
    marks: &[LocatedLabel<'_, S>],
    first: Option<usize>,
) -> Result<(), AllocError>
    requires { IfSome first (λ at. at < length marks.now) }
    ensures { OnOk result (string_bytes out.new
        ≡ string_bytes out.old ++ message_rows_text (note_message_rows (with_first first
        (map (located_label_of S.source) marks.now)))) }
{
    match first {
        Some(at) => push_notes_from(out, marks, at),
        None => push_notes(out, marks),
    }
}

/// Appends causes that are texts.
fn push_cause_texts(out: &mut String, texts: &[String]) -> Result<(), AllocError>
    ensures { OnOk result (string_bytes out.new ≡ string_bytes out.old
        ++ message_rows_text (map (message_row (codes "caused by: ")) (map string_bytes texts.now))) }
{
    for text in texts {
        push_message_row(out, "caused by: ", text.as_str())?;
    }
    Ok(())
}

/// Appends the causes of a report.
fn push_causes<D: Diagnostic, S: SourceCode>(
    out: &mut String,
    report: &Report<D, S>,
) -> Result<(), AllocError>
    ensures { OnOk result (string_bytes out.new ≡ string_bytes out.old
        ++ message_rows_text (map (message_row (codes "caused by: "))
        (causes_of (cause_of (tree_of D.meaning S.source report.now))))) }
{
    let mut above = report;
    while let Cause::Diagnostic(next) = above.cause() {
        push_message_row(out, "caused by: ", next.message())?;
        above = next;
    }
    push_cause_texts(out, cause_texts(above))
}

/// Appends the causes of a report if `chain` is set.
fn push_causes_if<D: Diagnostic, S: SourceCode>(
    out: &mut String,
    chain: bool,
    report: &Report<D, S>,
) -> Result<(), AllocError>
    ensures { OnOk result (string_bytes out.new ≡ string_bytes out.old
        ++ message_rows_text (cause_message_rows chain (causes_of (cause_of (tree_of D.meaning S.source report.now))))) }
{
    if chain {
        return push_causes(out, report);
    }
    Ok(())
}

/// Appends the messages of fixes, without edits.
fn push_fixes(out: &mut String, fixes: &[Fix]) -> Result<(), AllocError>
    ensures { OnOk result (string_bytes out.new
        ≡ string_bytes out.old ++ message_rows_text (map fix_message_row fixes.now)) }
{
    for fix in fixes {
        push_message_row(out, "fix: ", fix.message())?;
    }
    Ok(())
}

/// Appends help, fixes and the url.
fn push_advice<D: Diagnostic, S: SourceCode>(
    out: &mut String,
    report: &Report<D, S>,
) -> Result<(), AllocError>
    ensures { OnOk result (string_bytes out.new ≡ string_bytes out.old
        ++ message_rows_text (advice_message_rows (head (tree_of D.meaning S.source report.now)))) }
{
    push_message_row_if(out, "help: ", report.help())?;
    push_fixes(out, report.fixes())?;
    push_message_row_if(out, "see: ", report.url())
}

/// Appends the message of a report and a line feed. The label at `first` comes first.
fn push_message<D: Diagnostic, S: SourceCode>(
    out: &mut String,
    chain: bool,
    report: &Report<D, S>,
    marks: &[LocatedLabel<'_, S>],
    first: Option<usize>,
) -> Result<(), AllocError>
    requires { IfSome first (λ at. at < length marks.now) }
    ensures { OnOk result (string_bytes out.new ≡ string_bytes out.old
        ++ ((escaped CommandPart.Message (head (tree_of D.meaning S.source report.now)).message
        ++ message_rows_text (note_message_rows (with_first first (map (located_label_of S.source) marks.now))
        ++ (cause_message_rows chain (causes_of (cause_of (tree_of D.meaning S.source report.now)))
        ++ advice_message_rows (head (tree_of D.meaning S.source report.now))))) ++ codes "\n")) }
{
    push_escaped(out, CommandPart::Message, report.message())?;
    push_first_notes(out, marks, first)?;
    push_causes_if(out, chain, report)?;
    push_advice(out, report)?;
    out.push_str("\n")
}

/// Appends the command of a report, without those of related reports. `whole` is the report's source.
pub(crate) fn push_command<'a, D: Diagnostic, S: SourceCode>(
    out: &mut String,
    chain: bool,
    report: &'a Report<D, S>,
    source: Option<SourceRef<'a, S>>,
    whole: &WholeSource<'a>,
) -> Result<(), RenderError>
    requires { IsWholeSource (opt_ref_source S.source source) whole.now }
    ensures text { OnOk result (AppendsBriefDiagnostic (record { cause_chain = chain; form = Github })
        (opt_ref_source S.source source.entry) (head (tree_of D.meaning S.source report.now))
        (cause_of (tree_of D.meaning S.source report.now)) (string_bytes out.old) (string_bytes out.new)) }
    ensures refused { (result ≡ Err RenderError.Refused) →
        brief_labels_accepted (opt_ref_source S.source source.entry) (head (tree_of D.meaning S.source report.now))
        ≡ false }
{
    let marks = located_labels_of(*out.allocator(), report, source)?;
    let first = primary_at(&marks);
    let site = primary_file_location(source, whole, labels_of(report).len(), &marks, first)?;
    push_head(out, report.severity(), site, nonempty(report.code()))?;
    push_message(out, chain, report, &marks, first)?;
    Ok(())
}
