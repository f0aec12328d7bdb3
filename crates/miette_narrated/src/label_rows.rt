//! The lines that describe labels, below a source line.

ghost use Rattle.std.specs.Prelude.{◌≡◌, ◌++◌, IfOk, OnOk, string_bytes, option_copied};
ghost use Rattle.miette_narrated.specs.rules.Labels.{row, begins_before_text_end, reaches_line, ends_before};
ghost use Rattle.miette_narrated.specs.rules.Labels.{first_number, last_number, columns_text, text_after, whole_row};
ghost use Rattle.miette_narrated.specs.rules.Labels.{column_row, begun_row, reaching_row, label_row};
ghost use Rattle.miette_narrated.specs.rules.Labels.{label_rows};
ghost use Rattle.miette_narrated.specs.steps.Ends.{without_ranks};
ghost use Rattle.miette_narrated.specs.steps.Conversions.{range_of, ranges_of, narrated_line};

use crate::label_order::RankedLabel;
use crate::narrated_line::NarratedLine;
use crate::rows::push_number;
use miette_columns::text_columns::TextColumns;
use miette_labels::placed::PlacedLabel;
use miette_lines::sums::sum;
use std::alloc::{AllocError, Global};

/// Whether a label begins on the line or after it.
fn begins(it: &NarratedLine<'_>, label: &PlacedLabel<'_>) -> bool
    ensures { result ≡ reaches_line (narrated_line it.now) label.now.start }
{
    it.line.start <= label.start
}

/// Whether a label begins at or before the end of the line's text.
fn begins_before_text_end(it: &NarratedLine<'_>, label: &PlacedLabel<'_>) -> bool
    ensures { result ≡ begins_before_text_end (narrated_line it.now) label.now.start }
{
    label.start <= it.line.text_end
}

/// Whether a label ends on the line or after it.
fn reaches(it: &NarratedLine<'_>, label: &PlacedLabel<'_>) -> bool
    ensures { result ≡ reaches_line (narrated_line it.now) label.now.after }
{
    it.line.start <= label.after
}

/// Whether a label ends at or before the end of the line's text. On the last line of a snippet, a label that begins in
/// the snippet's data counts as ending there.
fn ends_before(it: &NarratedLine<'_>, label: &PlacedLabel<'_>) -> bool
    ensures { result ≡ ends_before (narrated_line it.now) label.now.start label.now.after }
{
    label.after <= it.line.text_end || it.is_last && label.start <= it.data_end
}

/// Appends a colon and the label's text, if there is one, then a line feed.
fn push_end(out: &mut String, text: Option<&str>) -> Result<(), AllocError>
    ensures { OnOk result (string_bytes out.new
        ≡ string_bytes out.old ++ row (text_after (option_copied text.entry))) }
{
    if let Some(text) = text {
        out.push_str(": ")?;
        out.push_str(text)?;
    }
    out.push_str("\n")
}

/// `, columns 2 to 3`
pub(crate) fn push_columns(out: &mut String, first: usize, last: usize) -> Result<(), AllocError>
    ensures { OnOk result (string_bytes out.new ≡ string_bytes out.old ++ columns_text first last) }
{
    if first == last {
        return push_number(out, ", column ", first);
    }
    push_number(out, ", columns ", first)?;
    push_number(out, " to ", last)
}

/// A line of a snippet, and the columns of its text.
#[derive(Drop)]
pub(crate) struct LabelledLine<'r, 'a> {
    alloc: Global,
    line: &'r NarratedLine<'a>,
    columns: TextColumns<'a>,
    ghost same: { columns ≡ line.now.text.now },
}

impl<'r, 'a> LabelledLine<'r, 'a> {
    /// Creates the columns of a line. `shown` is the number of labels that may be described below it.
    pub(crate) fn new(
        alloc: Global,
        line: &'r NarratedLine<'a>,
        shown: usize,
    ) -> Result<Self, AllocError>
        ensures { IfOk result (λ row. row.line.now ≡ line.now) }
    {
        // Two lookups per label are enough: its first and its last column.
        let columns = TextColumns::new(alloc, line.text, shown.saturating_mul(2))?;
        Ok(LabelledLine {
            alloc,
            line,
            columns,
        })
    }

    /// Number of a label's first column, from 1.
    fn first_number(&self, label: &PlacedLabel<'_>) -> Result<usize, AllocError>
        ensures { IfOk result (λ n. n ≡ first_number (narrated_line self.now.line.now) label.now.start) }
    {
        let start = label.start.saturating_sub(self.line.line.start);
        let before = self.columns.column(self.alloc, start)?;
        sum(before, 1)
    }

    /// Number of a label's last column, from 1. An empty label has one column.
    fn last_number(&self, label: &PlacedLabel<'_>) -> Result<usize, AllocError>
        ensures { IfOk result (λ n. n ≡ last_number (narrated_line self.now.line.now) label.now.start label.now.after) }
    {
        if label.start == label.after {
            return self.first_number(label);
        }
        let after = label.after.saturating_sub(self.line.line.start);
        self.columns.column(self.alloc, after)
    }

    /// `    label at line 2, columns 3 to 6: This bit here`
    fn push_whole(&self, out: &mut String, label: &PlacedLabel<'_>) -> Result<(), AllocError>
        ensures { OnOk result (string_bytes out.new ≡ string_bytes out.old
            ++ whole_row (narrated_line self.now.line.now) (range_of label.now)) }
    {
        let first = self.first_number(label)?;
        let last = self.last_number(label)?;
        push_number(out, "    label at line ", self.line.number)?;
        push_columns(out, first, last)?;
        push_end(out, label.text)
    }

    /// Appends a line that names one column: `    label starting at line 1, column 1`. `words` is its beginning.
    fn push_column(
        &self,
        out: &mut String,
        words: &str,
        column: usize,
        label: &PlacedLabel<'_>,
    ) -> Result<(), AllocError>
        ensures { OnOk result (string_bytes out.new ≡ string_bytes out.old
            ++ column_row words.now (narrated_line self.now.line.now) column (range_of label.now)) }
    {
        push_number(out, words, self.line.number)?;
        push_number(out, ", column ", column)?;
        push_end(out, label.text)
    }

    /// Appends the line of a label that begins on the source line: `    label starting at line 1, column 1`. If the
    /// label also ends there, the line names both columns.
    fn push_begun(&self, out: &mut String, label: &PlacedLabel<'_>) -> Result<(), AllocError>
        ensures { OnOk result (string_bytes out.new ≡ string_bytes out.old
            ++ begun_row (narrated_line self.now.line.now) (range_of label.now)) }
    {
        if ends_before(self.line, label) {
            return self.push_whole(out, label);
        }
        if !begins_before_text_end(self.line, label) {
            return Ok(());
        }
        let first = self.first_number(label)?;
        self.push_column(out, "    label starting at line ", first, label)
    }

    /// Appends the line of a label that began before the source line, if it ends there:
    /// `    label ending at line 2, column 0`
    fn push_reaching(&self, out: &mut String, label: &PlacedLabel<'_>) -> Result<(), AllocError>
        ensures { OnOk result (string_bytes out.new ≡ string_bytes out.old
            ++ reaching_row (narrated_line self.now.line.now) (range_of label.now)) }
    {
        if ends_before(self.line, label) {
            let last = self.last_number(label)?;
            self.push_column(out, "    label ending at line ", last, label)
        } else {
            Ok(())
        }
    }

    /// Appends the line that describes a label below the source line, if there is one.
    fn push_label(&self, out: &mut String, label: &PlacedLabel<'_>) -> Result<(), AllocError>
        ensures { OnOk result (string_bytes out.new ≡ string_bytes out.old
            ++ label_row (narrated_line self.now.line.now) (range_of label.now)) }
    {
        if begins(self.line, label) {
            self.push_begun(out, label)
        } else if reaches(self.line, label) {
            self.push_reaching(out, label)
        } else {
            Ok(())
        }
    }

    /// Appends the lines that describe labels below the source line, in order.
    pub(crate) fn push_labels(
        &self,
        out: &mut String,
        placed: &[PlacedLabel<'_>],
    ) -> Result<(), AllocError>
        ensures { OnOk result (string_bytes out.new ≡ string_bytes out.old
            ++ label_rows (narrated_line self.now.line.now) (ranges_of placed.now)) }
    {
        for label in placed {
            self.push_label(out, label)?;
        }
        Ok(())
    }

    /// Appends the lines that describe labels ending on the source line, in order.
    pub(crate) fn push_ends(&self, out: &mut String, ends: &[RankedLabel]) -> Result<(), AllocError>
        ensures { OnOk result (string_bytes out.new ≡ string_bytes out.old
            ++ label_rows (narrated_line self.now.line.now) (ranges_of (without_ranks ends.now))) }
    {
        for end in ends {
            self.push_label(out, &end.label)?;
        }
        Ok(())
    }
}
