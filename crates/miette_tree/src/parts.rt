//! Parts of a report that handlers use.

ghost use Rattle.std.specs.Prelude.{◌≡◌};
ghost use Rattle.std.specs.Option.{option_map};
ghost use Rattle.miette_tree.specs.views.Owned.{ref_source};
ghost use Rattle.miette_tree.specs.rules.DiagnosticParts.{given_labels, severity_text, severity_title};
ghost use Rattle.miette_tree.specs.views.Report.{tree_of};
ghost use Rattle.miette_tree.specs.rules.Tree.{effective, head, source_of};

pub use crate::chain::cause_texts;
use crate::report::{Report, SourceRef};
use miette_protocol::protocol::{Diagnostic, LabeledSpan, Severity};
use miette_protocol::source::SourceCode;

/// Returns the report's own source, or else the inherited one.
pub fn effective_source<'a, D: Diagnostic, S: SourceCode>(
    report: &'a Report<D, S>,
    inherited: Option<SourceRef<'a, S>>,
) -> Option<SourceRef<'a, S>>
    ensures { option_map (ref_source S.source) result
        ≡ effective (source_of (tree_of D.meaning S.source report.now))
        (option_map (ref_source S.source) inherited.entry) }
{
    match report.source_code() {
        Some(own) => Some(own),
        None => inherited,
    }
}

/// Returns the labels of a report, or an empty list if it has none.
pub fn labels_of<D: Diagnostic, S: SourceCode>(report: &Report<D, S>) -> &[LabeledSpan]
    ensures { result.now ≡ given_labels (head (tree_of D.meaning S.source report.now)).labels }
{
    report.labels().unwrap_or(&[])
}

/// Returns the name of a severity, and its title before a message.
fn name_and_title(severity: Option<Severity>) -> (&'static str, &'static str)
    ensures name { result.0.now ≡ severity_text severity }
    ensures title { result.1.now ≡ severity_title severity }
{
    match severity {
        Some(Severity::Advice) => ("advice", "Advice: "),
        Some(Severity::Warning) => ("warning", "Warning: "),
        _ => ("error", "Error: "),
    }
}

/// Returns the name of a severity: `advice`, `warning` or `error`. `None` counts as an error.
pub fn severity_name(severity: Option<Severity>) -> &'static str
    ensures { result.now ≡ severity_text severity }
{
    name_and_title(severity).0
}

/// Returns the title that precedes a message, for example `Warning: `. `None` counts as an error.
pub fn severity_title(severity: Option<Severity>) -> &'static str
    ensures { result.now ≡ severity_title severity }
{
    name_and_title(severity).1
}
