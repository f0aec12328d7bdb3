//! Findings of `lint` in the lines of a source.

ghost use Rattle.std.specs.Prelude.{◌≡◌, ◌+◌, ◌++◌, ◌<◌, ◌≤◌, ◌^◌, ◌∷◌, [], nat_lt, length, find, IfOk, OnOk};
ghost use Rattle.std.specs.Prelude.{None as Nothing, string_bytes};
ghost use Rattle.std.specs.List.{last_or};
ghost use Rattle.std.specs.Option.{option_map};
ghost use Rattle.miette_lines.specs.views.Walking.{line_of_text};
ghost use Rattle.miette_columns.specs.views.Walking.{cell_of};
ghost use Rattle.miette_labels.specs.rules.Groups.{AreInBounds};
ghost use Rattle.miette_lint.specs.rules.Findings.{lint_cells_of, finding, findings_of, line_findings, misplaced_tab};
ghost use Rattle.miette_lint.specs.rules.Findings.{missing_terminator, overlong, too_wide, trailing_space};

use crate::blanks::{beginning_blanks, ending_blanks, tab_after_space};
use itoa::Buffer;
use miette_columns::cells::{Cell, CellWalk};
use miette_lines::lines::{LineOfText, Lines};
use miette_protocol::protocol::LabeledSpan;
use std::alloc::{AllocError, Global};
use std::ops::Range;

// Distance of tab stops in columns.
const TAB: usize = 4;

/// The first character of a text that ends after column `width`.
pub(crate) fn first_past(
    text: &[u8],
    start: usize,
    width: usize,
) -> Result<Option<Cell>, AllocError>
    requires { start + length text.now < 2 ^ 64 }
    ensures { IfOk result (λ cell. option_map cell_of cell
        ≡ find (λ c. nat_lt width c.until) (lint_cells_of start text.now)) }
{
    let mut walk = CellWalk::new(text, start, TAB);
    while let Some(cell) = walk.next()? {
        if cell.until > width {
            return Ok(Some(cell));
        }
    }
    Ok(None)
}

// The last character of a text.
fn last_cell(text: &[u8], start: usize) -> Result<Option<Cell>, AllocError>
    requires { start + length text.now < 2 ^ 64 }
    ensures { IfOk result (λ cell. option_map cell_of cell ≡ last_or Nothing (lint_cells_of start text.now)) }
{
    let mut walk = CellWalk::new(text, start, TAB);
    let mut last = None;
    while let Some(cell) = walk.next()? {
        last = Some(cell);
    }
    Ok(last)
}

// Appends a label with this text over these bytes.
fn push_finding(
    found: &mut Vec<LabeledSpan>,
    text: String,
    at: Range<usize>,
) -> Result<(), AllocError>
    ensures { OnOk result (found.new.items ≡ found.old.items ++ finding (string_bytes text) at.start at.end ∷ []) }
{
    found.push(LabeledSpan::new_with_span(Some(text), at))?;
    Ok(())
}

// The same, with a copy of the text.
fn push_words(
    found: &mut Vec<LabeledSpan>,
    alloc: Global,
    text: &str,
    at: Range<usize>,
) -> Result<(), AllocError>
    ensures { OnOk result (found.new.items ≡ found.old.items ++ finding text.now at.start at.end ∷ []) }
{
    let text = String::from_str(alloc, text)?;
    push_finding(found, text, at)
}

/// `trailing blanks`, if the text ends with blanks; `end` is the offset of its end
pub(crate) fn push_trailing(
    found: &mut Vec<LabeledSpan>,
    alloc: Global,
    text: &[u8],
    end: usize,
) -> Result<(), AllocError>
    requires within { length text.now ≤ end }
    ensures { OnOk result (found.new.items ≡ found.old.items ++ trailing_space end text.now) }
{
    let blanks = ending_blanks(text);
    if blanks == 0 {
        return Ok(());
    }
    push_words(found, alloc, "trailing blanks", end - blanks..end)
}

/// `tab after space`, if the leading blanks have one
pub(crate) fn push_tab(
    found: &mut Vec<LabeledSpan>,
    alloc: Global,
    text: &[u8],
    start: usize,
) -> Result<(), AllocError>
    requires within { start + length text.now < 2 ^ 64 }
    ensures { OnOk result (found.new.items ≡ found.old.items ++ misplaced_tab start text.now) }
{
    match tab_after_space(beginning_blanks(text)) {
        Some(at) => push_words(found, alloc, "tab after space", start + at..start + at + 1),
        None => Ok(()),
    }
}

// The label text for lines that are too wide.
fn wide_text(alloc: Global, width: usize) -> Result<String, AllocError>
    ensures { IfOk result (λ text. string_bytes text ≡ too_wide width) }
{
    let mut text = String::from_str(alloc, "wider than ")?;
    text.push_str(Buffer::new().format(width))?;
    text.push_str(" columns")?;
    Ok(text)
}

/// `wider than 80 columns`, from the first character beyond the limit to the end of the text
pub(crate) fn push_overlong(
    found: &mut Vec<LabeledSpan>,
    alloc: Global,
    text: &[u8],
    line: LineOfText,
    width: usize,
) -> Result<(), AllocError>
    requires within { line.start + length text.now < 2 ^ 64 }
    ensures { OnOk result (found.new.items ≡ found.old.items
        ++ overlong width line.text_end (lint_cells_of line.start text.now)) }
{
    match first_past(text, line.start, width)? {
        Some(cell) => {
            let words = wide_text(alloc, width)?;
            push_finding(found, words, cell.start..line.text_end)
        }
        None => Ok(()),
    }
}

/// `no final terminator`, on the last character of a line without one
pub(crate) fn push_unended(
    found: &mut Vec<LabeledSpan>,
    alloc: Global,
    text: &[u8],
    line: LineOfText,
) -> Result<(), AllocError>
    requires within { line.start + length text.now < 2 ^ 64 }
    ensures { OnOk result (found.new.items ≡ found.old.items
        ++ missing_terminator (line_of_text line) (lint_cells_of line.start text.now)) }
{
    if line.text_end < line.end {
        return Ok(());
    }
    match last_cell(text, line.start)? {
        Some(cell) => push_words(found, alloc, "no final terminator", cell.start..cell.after),
        None => Ok(()),
    }
}

// Appends all findings of a line.
fn push_line(
    found: &mut Vec<LabeledSpan>,
    alloc: Global,
    source: &[u8],
    line: LineOfText,
    width: usize,
) -> Result<(), AllocError>
    requires text { line.start ≤ line.text_end }
    requires within { line.text_end ≤ length source.now }
    ensures { OnOk result (found.new.items ≡ found.old.items ++ line_findings source.now width (line_of_text line)) }
{
    let text = &source[line.start..line.text_end];
    push_trailing(found, alloc, text, line.text_end)?;
    push_tab(found, alloc, text, line.start)?;
    push_overlong(found, alloc, text, line, width)?;
    push_unended(found, alloc, text, line)
}

/// Returns a label for each finding in a source, in order.
///
/// # Errors
/// `AllocError` if allocation fails.
pub fn findings(alloc: Global, source: &[u8], width: usize) -> Result<Vec<LabeledSpan>, AllocError>
    ensures found { IfOk result (λ found. found.items ≡ findings_of source.now width) }
    // Each label is in bounds of the source, so no handler refuses it.
    ensures accepted { IfOk result (λ found. AreInBounds source.now found.items) }
{
    let mut found = Vec::new(alloc);
    for line in Lines::new(source, 0) {
        push_line(&mut found, alloc, source, line, width)?;
    }
    Ok(found)
}
