//! Counts the findings that remain after all proposed fixes.

ghost use Rattle.std.specs.Prelude.{◌≡◌, ◌≤◌, length, IfOk};
ghost use Rattle.miette_lines.specs.views.Walking.{line_of_text};
ghost use Rattle.miette_lint.specs.rules.Findings.{findings_of};
ghost use Rattle.miette_lint.specs.rules.Fixes.{fixed_text, wide_line, wide_lines};

use crate::findings::first_past;
use crate::fixed::fixed;
use miette_lines::lines::{LineOfText, Lines};
use std::alloc::{AllocError, Global};

// Number of `wide-line` findings in a line: 0 or 1.
fn wide_count_in(source: &[u8], line: LineOfText, width: usize) -> Result<usize, AllocError>
    requires text { line.start ≤ line.text_end }
    requires within { line.text_end ≤ length source.now }
    ensures count { IfOk result (λ count. count ≡ length (wide_line source.now width (line_of_text line))) }
    ensures one { IfOk result (λ count. count ≤ 1) }
{
    match first_past(&source[line.start..line.text_end], line.start, width)? {
        Some(_) => Ok(1),
        None => Ok(0),
    }
}

// Number of lines that are too wide.
fn wide_count(source: &[u8], width: usize) -> Result<usize, AllocError>
    ensures { IfOk result (λ count. count ≡ length (wide_lines source.now width)) }
{
    let mut count = 0;
    for line in Lines::new(source, 0) {
        count += wide_count_in(source, line, width)?;
    }
    Ok(count)
}

/// Number of findings in the fixed text of a source: its lines that are too wide. It is at most the number of findings
/// in the source.
pub(crate) fn remaining_count(
    alloc: Global,
    source: &[u8],
    width: usize,
) -> Result<usize, AllocError>
    ensures count { IfOk result (λ left. left ≡ length (findings_of (fixed_text source.now) width)) }
    ensures within { IfOk result (λ left. left ≤ length (findings_of source.now width)) }
{
    let text = fixed(alloc, source)?;
    wide_count(text.as_slice(), width)
}
