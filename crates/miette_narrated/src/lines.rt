//! The source lines of a snippet.

ghost use Rattle.std.specs.Prelude.{◌≡◌, false, ◌++◌, ◌+◌, ◌<◌, ◌≤◌, ◌^◌, length, OnOk, string_bytes};
ghost use Rattle.miette_labels.specs.rules.Contexts.{lines_of_contents};
ghost use Rattle.miette_lines.specs.views.Walking.{line_of_text};
ghost use Rattle.miette_narrated.specs.steps.Conversions.{ranges_of, narrated_line};
ghost use Rattle.miette_narrated.specs.rules.Lines.{snippet_line, line_row, narrated_line_rows, narrated_lines_rows};
ghost use Rattle.miette_narrated.specs.steps.Ends.{IsOrder};
ghost use Rattle.miette_narrated.specs.rules.Labels.{label_rows};
ghost use Rattle.miette_narrated.specs.steps.LabelSweep.{IsUnderWay, last_start};

use crate::characters::push_decoded;
use crate::label_order::{LabelOrder, begun_on, ended_on};
use crate::label_rows::LabelledLine;
use crate::label_sweep::{LabelWalk, advance_to};
use crate::narrated_line::NarratedLine;
use crate::rows::{AppendResult, push_number};
use miette_lines::lines::{LineOfText, Lines};
use miette_lines::sums::sum;
use miette_protocol::source::MietteSpanContents;
use std::alloc::Global;

/// `snippet line 2:   text`
fn push_line(out: &mut String, it: &NarratedLine<'_>) -> AppendResult
    ensures { OnOk result (string_bytes out.new ≡ string_bytes out.old ++ line_row (narrated_line it.now)) }
{
    push_number(out, "snippet line ", it.number)?;
    out.push_str(": ")?;
    push_decoded(out, it.text)?;
    out.push_str("\n")
}

/// The last offset at which a label described below this line may begin.
fn last_start(it: &NarratedLine<'_>) -> usize
    ensures { result ≡ last_start (narrated_line it.now) }
{
    if it.is_last {
        it.data_end.max(it.line.text_end)
    } else {
        it.line.text_end
    }
}

/// Appends a source line, and the lines that describe its labels.
fn push_shown(out: &mut String, it: &NarratedLine<'_>, walk: &mut LabelWalk<'_>) -> AppendResult
    requires order { IsOrder walk.old.order }
    requires at { IsUnderWay walk.old }
    ensures rows { OnOk result (string_bytes out.new
        ≡ string_bytes out.old
        ++ narrated_line_rows (ranges_of walk.old.order.placed.now) (narrated_line it.now)) }
    ensures order { walk.new.order ≡ walk.old.order }
    ensures at { OnOk result (IsUnderWay walk.new) }
{
    let alloc = *out.allocator();
    let order = walk.order;
    push_line(out, it)?;
    if !it.is_last {
        return push_inner(out, alloc, it, &order);
    }
    advance_to(
        alloc,
        order.placed,
        it.line.start,
        last_start(it),
        &mut walk.sweep,
    )?;
    let row = LabelledLine::new(alloc, it, walk.sweep.running.len())?;
    row.push_labels(out, &walk.sweep.running)
}

/// Appends the labels of a source line that isn't the snippet's last. Only labels that begin or end on the line are
/// visited.
fn push_inner(
    out: &mut String,
    alloc: Global,
    it: &NarratedLine<'_>,
    order: &LabelOrder<'_>,
) -> AppendResult
    requires order { IsOrder order.now }
    requires inner { it.now.is_last ≡ false }
    ensures { OnOk result (string_bytes out.new
        ≡ string_bytes out.old
        ++ label_rows (narrated_line it.now) (ranges_of order.now.placed.now)) }
{
    let ended = ended_on(alloc, order, &it.line)?;
    let begun = begun_on(order.placed, &it.line);
    let shown = ended.len().saturating_add(begun.len());
    let row = LabelledLine::new(alloc, it, shown)?;
    row.push_ends(out, &ended)?;
    row.push_labels(out, begun)
}

/// Creates the line of a snippet from the contents of a read.
fn narrated_line<'a>(
    contents: &'a MietteSpanContents<'_>,
    line: LineOfText,
    number: usize,
    is_last: bool,
) -> NarratedLine<'a>
    requires from { contents.now.span.offset ≤ line.start }
    requires text { line.start ≤ line.text_end }
    requires to { line.text_end ≤ contents.now.span.offset + length contents.now.bytes }
    requires small { contents.now.span.offset + length contents.now.bytes < 2 ^ 64 }
    ensures { narrated_line result ≡ snippet_line contents.now number is_last (line_of_text line) }
{
    let start = contents.span().offset();
    let data = contents.data();
    NarratedLine {
        line,
        number,
        is_last,
        data_end: start + data.len(),
        text: &data[line.start - start..line.text_end - start],
    }
}

/// Appends all source lines of a snippet, from the contents of a read.
pub(crate) fn push_lines(
    out: &mut String,
    contents: &MietteSpanContents<'_>,
    walk: &mut LabelWalk<'_>,
) -> AppendResult
    requires small { contents.now.span.offset + length contents.now.bytes < 2 ^ 64 }
    requires order { IsOrder walk.old.order }
    requires at { IsUnderWay walk.old }
    ensures rows { OnOk result (string_bytes out.new
        ≡ string_bytes out.old ++ narrated_lines_rows (ranges_of walk.old.order.placed.now) contents.now
        (contents.now.line + 1) (lines_of_contents contents.now)) }
    ensures order { walk.new.order ≡ walk.old.order }
    ensures at { OnOk result (IsUnderWay walk.new) }
{
    let start = contents.span().offset();
    let end = start + contents.data().len();
    let mut before = contents.line();
    for line in Lines::new(contents.data(), start) {
        let number = sum(before, 1)?;
        let it = narrated_line(contents, line, number, line.end == end);
        push_shown(out, &it, walk)?;
        before = number;
    }
    Ok(())
}
