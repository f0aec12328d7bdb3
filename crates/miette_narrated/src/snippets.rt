//! Snippets: source lines with the labels below them.

ghost use Rattle.std.specs.Prelude.{◌≡◌, ◌++◌, ◌+◌, false, Some, map, decimal, OnOk};
ghost use Rattle.std.specs.Prelude.{string_bytes, option_copied};
ghost use Rattle.std.specs.List.{All};
ghost use Rattle.miette_labels.specs.rules.Groups.{in_order};
ghost use Rattle.miette_labels.specs.views.ProgramLabels.{label_at};
ghost use Rattle.miette_labels.specs.views.Reads.{IsRead};
ghost use Rattle.miette_narrated.specs.steps.Conversions.{ranges_of};
ghost use Rattle.miette_tree.specs.rules.Reads.{accepts};
ghost use Rattle.miette_narrated.specs.rules.Snippets.{for_name_text, begin_rows, snippet};
ghost use Rattle.miette_narrated.specs.steps.Ends.{IsOrder};
ghost use Rattle.miette_narrated.specs.steps.LabelSweep.{IsUnderWay};
ghost use Rattle.miette_narrated.specs.steps.AppendedParts.{AppendsNarratedSnippets};

use crate::label_order::{LabelOrder, by_end};
use crate::label_sweep::{LabelWalk, ReachSweep};
use crate::lines::push_lines;
use crate::rows::{AppendResult, push_number};
use miette_labels::drawn_labels::place_labels;
use miette_labels::groups::groups;
use miette_labels::order::order_by_offset;
use miette_labels::reading::{ReadLabel, ReadLabels, read_labels};
use miette_lines::sums::sum;
use miette_protocol::error::RenderError;
use miette_protocol::laws::data_reach_the_span;
use miette_protocol::protocol::LabeledSpan;
use miette_protocol::source::{MietteSpanContents, SourceCode};
use std::alloc::{AllocError, Global};

/// ` for bad_file.rs`
fn push_name(out: &mut String, name: Option<&str>) -> AppendResult
    ensures { OnOk result (string_bytes out.new ≡ string_bytes out.old ++ for_name_text (option_copied name.entry)) }
{
    if let Some(name) = name {
        out.push_str(" for ")?;
        out.push_str(name)?;
    }
    Ok(())
}

/// ` starting at line 1, column 1`; `before` is counted from 0
fn push_place(out: &mut String, words: &str, before: usize) -> AppendResult
    ensures { OnOk result (string_bytes out.new ≡ string_bytes out.old ++ (words.now ++ decimal (before + 1))) }
{
    push_number(out, words, sum(before, 1)?)
}

/// `Begin snippet for bad_file.rs starting at line 1, column 1`, and a blank line
fn push_begin(out: &mut String, contents: &MietteSpanContents<'_>) -> AppendResult
    ensures { OnOk result (string_bytes out.new ≡ string_bytes out.old ++ begin_rows contents.now) }
{
    out.push_str("Begin snippet")?;
    push_name(out, contents.name())?;
    push_place(out, " starting at line ", contents.line())?;
    push_place(out, ", column ", contents.column())?;
    out.push_str("\n\n")
}

/// Appends a snippet from the contents of a read.
fn push_snippet(
    out: &mut String,
    contents: &MietteSpanContents<'_>,
    walk: &mut LabelWalk<'_>,
) -> AppendResult
    requires order { IsOrder walk.old.order }
    requires at { IsUnderWay walk.old }
    ensures rows { OnOk result (string_bytes out.new
        ≡ string_bytes out.old ++ snippet (ranges_of walk.old.order.placed.now) contents.now) }
    ensures order { walk.new.order ≡ walk.old.order }
    ensures at { OnOk result (IsUnderWay walk.new) }
{
    sum(contents.span().offset(), contents.data().len())?;
    push_begin(out, contents)?;
    push_lines(out, contents, walk)
}

/// Appends the snippets of labels that were read. Returns `Refused` if a group of labels can't be read, and `Memory` if
/// allocation fails.
fn push_read<'a, S: SourceCode>(
    out: &mut String,
    context: usize,
    source: &'a S,
    labels: &[LabeledSpan],
    reads: &[ReadLabel<'a>],
) -> Result<(), RenderError>
    requires order { map (λ read. label_at labels.now read.index) reads.now ≡ in_order labels.now }
    requires each { All (IsRead context (S.source source.now) labels.now) reads.now }
    ensures text { OnOk result (AppendsNarratedSnippets context (Some (S.source source.now)) labels.now
        (string_bytes out.old)
        (string_bytes out.new)) }
    ensures refused { (result ≡ Err RenderError.Refused) → accepts (Some (S.source source.now)) labels.now ≡ false }
{
    data_reach_the_span();
    let alloc = *out.allocator();
    let placed = place_labels(alloc, &[], None, labels, reads)?;
    let Some(groups) = groups(alloc, source, context, labels, reads)? else {
        return Err(RenderError::Refused);
    };
    let ends = by_end(alloc, &placed)?;
    let order = LabelOrder {
        placed: &placed,
        ends: &ends,
    };
    let sweep = ReachSweep {
        at: 0,
        next: 0,
        running: Vec::new(alloc),
    };
    let mut walk = LabelWalk { order, sweep };
    for group in &groups {
        push_snippet(out, &group.contents, &mut walk)?;
    }
    Ok(())
}

/// Appends the snippets of the labels over a source. Returns `Refused` if a label is out of bounds or if a read is
/// refused, and `Memory` if allocation fails.
pub(crate) fn push_snippets<S: SourceCode>(
    out: &mut String,
    alloc: Global,
    context: usize,
    source: &S,
    labels: &[LabeledSpan],
) -> Result<(), RenderError>
    ensures text { OnOk result (AppendsNarratedSnippets context (Some (S.source source.now)) labels.now
        (string_bytes out.old)
        (string_bytes out.new)) }
    ensures refused { (result ≡ Err RenderError.Refused) → accepts (Some (S.source source.now)) labels.now ≡ false }
{
    let order = order_by_offset(alloc, labels)?;
    match read_labels(alloc, source, context, labels, &order)? {
        ReadLabels::All(reads) => push_read(out, context, source, labels, &reads),
        ReadLabels::Refused(_, _) => Err(RenderError::Refused),
    }
}
