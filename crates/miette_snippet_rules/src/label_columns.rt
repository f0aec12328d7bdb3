//! The columns of a line at which labels begin, end or have a pointer. A long line is cut around these columns.

ghost use Rattle.std.specs.Prelude.{◌≡◌, ◌+◌, ◌++◌, ◌<◌, ◌^◌, map, length, IfOk, OnOk};
ghost use Rattle.std.specs.List.{list_any};
ghost use Rattle.miette_lines.specs.views.Walking.{line_of_text};
ghost use Rattle.miette_labels.specs.rules.Labels.{starts_on, ends_on};
ghost use Rattle.miette_labels.specs.views.ProgramLabels.{drawn_of};
ghost use Rattle.miette_snippet_rules.specs.rules.LabelColumns.{pointer_ends, underline_ends, multi_line_ends};
ghost use Rattle.miette_snippet_rules.specs.rules.SnippetLayout.{text_of_cells};
ghost use Rattle.miette_snippet_rules.specs.views.MadeUnderlines.{underline_of};
ghost use Rattle.miette_snippet_rules.specs.views.LineTexts.{text_cells};
ghost use Rattle.miette_snippet_rules.specs.steps.LabelColumnSteps.{has_end, multi_line_end};

use crate::line_bytes::LineText;
use crate::line_underlines::ColumnMap;
use crate::underlines::Underline;
use miette_labels::placed::PlacedLabel;
use miette_lines::lines::LineOfText;
use std::alloc::{AllocError, Global};

// Appends the pointer's column if the label has a text.
fn push_pointer(ends: &mut Vec<usize>, mark: &Underline<'_>) -> Result<(), AllocError>
    ensures { OnOk result (ends.new.items
        ≡ ends.old.items ++ pointer_ends (underline_of mark.now).label.parts mark.now.pointer) }
{
    let Some(_text) = mark.label.text else {
        return Ok(());
    };
    ends.push(mark.pointer)?;
    Ok(())
}

// Appends three columns of each underline: the first one, the pointer if the label has a text, and the last one.
fn push_underline_ends(ends: &mut Vec<usize>, marks: &[Underline<'_>]) -> Result<(), AllocError>
    ensures { OnOk result (ends.new.items ≡ ends.old.items ++ underline_ends (map underline_of marks.now)) }
{
    for mark in marks {
        ends.push(mark.from)?;
        push_pointer(ends, mark)?;
        ends.push(mark.until.saturating_sub(1))?;
    }
    Ok(())
}

// Returns whether the label begins on this line.
fn begins(line: &LineOfText, label: &PlacedLabel<'_>) -> bool
    ensures { result ≡ starts_on (line_of_text line.now) (drawn_of label.now) }
{
    line.start <= label.start && label.start < line.end
}

// Returns whether the label ends on this line.
fn stops(line: &LineOfText, label: &PlacedLabel<'_>) -> bool
    ensures { result ≡ ends_on (line_of_text line.now) (drawn_of label.now) }
{
    if label.start == label.after {
        line.start <= label.start && label.start < line.end
    } else {
        line.start < label.after && label.after <= line.end
    }
}

// Returns whether the label begins or ends on this line.
fn touches(line: &LineOfText, label: &PlacedLabel<'_>) -> bool
    ensures { result ≡ has_end (line_of_text line.now) label.now }
{
    begins(line, label) || stops(line, label)
}

// Returns whether one of the labels begins or ends on this line.
fn some_touches(line: &LineOfText, labels: &[PlacedLabel<'_>]) -> bool
    ensures { result ≡ list_any (has_end (line_of_text line.now)) labels.now }
{
    for label in labels {
        if touches(line, label) {
            return true;
        }
    }
    false
}

// Appends the end of a multi-line label: its first column if it begins on this line, its last column if it ends here.
fn push_multi_line_end(
    ends: &mut Vec<usize>,
    columns: &ColumnMap<'_>,
    line: &LineOfText,
    label: &PlacedLabel<'_>,
) -> Result<(), AllocError>
    ensures { OnOk result (ends.new.items
        ≡ ends.old.items ++ multi_line_end (line_of_text line.now) columns.now (drawn_of label.now)) }
{
    if begins(line, label) {
        let first = columns.first_column(label.start)?;
        ends.push(first)?;
        return Ok(());
    }
    if stops(line, label) {
        let after = columns.last_column(label.after)?;
        ends.push(after.saturating_sub(1))?;
        return Ok(());
    }
    Ok(())
}

// Appends the ends of multi-line labels that begin or end on this line.
fn push_multi_line_ends(
    ends: &mut Vec<usize>,
    columns: &ColumnMap<'_>,
    line: &LineOfText,
    labels: &[PlacedLabel<'_>],
) -> Result<(), AllocError>
    ensures { OnOk result (ends.new.items
        ≡ ends.old.items ++ multi_line_ends (line_of_text line.now) columns.now (map drawn_of labels.now)) }
{
    for label in labels {
        push_multi_line_end(ends, columns, line, label)?;
    }
    Ok(())
}

/// Returns the columns around which the line is cut. Each underline gives its first and last column, and its pointer if
/// the label has a text. Each multi-line label gives the column at which it begins or ends on this line. `AllocError`
/// if allocation fails or a column exceeds `usize::MAX`.
pub fn label_columns_of(
    alloc: Global,
    line: &LineOfText,
    text: &LineText,
    marks: &[Underline<'_>],
    multi_line: &[PlacedLabel<'_>],
) -> Result<Vec<usize>, AllocError>
    requires start { text.now.start ≡ line.now.start }
    requires fits { text.now.start + length text.now.bytes.now < 2 ^ 64 }
    ensures { IfOk result (λ ends. ends.items ≡ underline_ends (map underline_of marks.now)
        ++ multi_line_ends (line_of_text line.now)
        (text_of_cells (text_cells text.now) line.now.text_end) (map drawn_of multi_line.now)) }
{
    let mut ends = Vec::new(alloc);
    push_underline_ends(&mut ends, marks)?;
    if some_touches(line, multi_line) {
        let columns = ColumnMap::new(alloc, line, text.bytes, text.tab)?;
        push_multi_line_ends(&mut ends, &columns, line, multi_line)?;
        return Ok(ends);
    }
    Ok(ends)
}
