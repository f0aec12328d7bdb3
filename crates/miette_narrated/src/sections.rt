//! The snippets of a report: those of its first source, then those of further ones.

ghost use Rattle.std.specs.Prelude.{◌≡◌, false, OnOk, string_bytes, map};
ghost use Rattle.std.specs.Option.{option_map};
ghost use Rattle.miette_tree.specs.rules.Reads.{accepts, further_pass};
ghost use Rattle.miette_tree.specs.rules.Tree.{head};
ghost use Rattle.miette_tree.specs.views.Attachments.{section_of};
ghost use Rattle.miette_tree.specs.views.Owned.{ref_source};
ghost use Rattle.miette_tree.specs.views.Report.{tree_of};
ghost use Rattle.miette_narrated.specs.steps.AppendedParts.{AppendsNarratedSnippets, AppendsFurther, AppendsAll};
ghost use Rattle.miette_narrated.specs.steps.AppendedParts.{labels_accepted};

use crate::snippets::push_snippets;
use miette_protocol::error::RenderError;
use miette_protocol::protocol::{Diagnostic, LabeledSpan};
use miette_protocol::source::SourceCode;
use miette_tree::parts::labels_of;
use miette_tree::report::{Report, Snippets, SourceRef};
use std::alloc::Global;

/// Appends the snippets of a source, or nothing without one.
fn push_snippets_of<S: SourceCode>(
    out: &mut String,
    alloc: Global,
    context: usize,
    labels: &[LabeledSpan],
    source: Option<SourceRef<'_, S>>,
) -> Result<(), RenderError>
    ensures text { OnOk result (AppendsNarratedSnippets context (option_map (ref_source S.source) source.entry)
        labels.now
        (string_bytes out.old) (string_bytes out.new)) }
    ensures refused { (result ≡ Err RenderError.Refused) →
        accepts (option_map (ref_source S.source) source.entry) labels.now ≡ false }
{
    match source {
        Some(source) => push_snippets(out, alloc, context, &source, labels),
        None => Ok(()),
    }
}

/// Appends the snippets of further sources, in order.
fn push_further<S: SourceCode>(
    out: &mut String,
    alloc: Global,
    context: usize,
    sections: &[Snippets<S>],
) -> Result<(), RenderError>
    ensures text { OnOk result (AppendsFurther context (map (section_of S.source) sections.now)
        (string_bytes out.old) (string_bytes out.new)) }
    ensures refused { (result ≡ Err RenderError.Refused) →
        further_pass accepts (map (section_of S.source) sections.now) ≡ false }
{
    for section in sections {
        push_snippets(out, alloc, context, &section.source(), section.labels())?;
    }
    Ok(())
}

/// Appends the snippets of the first source, then those of each further one.
pub(crate) fn push_all_snippets<D: Diagnostic, S: SourceCode>(
    out: &mut String,
    alloc: Global,
    context: usize,
    report: &Report<D, S>,
    source: Option<SourceRef<'_, S>>,
) -> Result<(), RenderError>
    ensures text { OnOk result (AppendsAll context (option_map (ref_source S.source) source.entry)
        (head (tree_of D.meaning S.source report.now)) (string_bytes out.old) (string_bytes out.new)) }
    ensures refused { (result ≡ Err RenderError.Refused) →
        labels_accepted (option_map (ref_source S.source) source.entry)
        (head (tree_of D.meaning S.source report.now)) ≡ false }
{
    push_snippets_of(out, alloc, context, labels_of(report), source)?;
    push_further(out, alloc, context, report.further_snippets())
}
