//! Findings of `lint` with their codes and proposed fixes.

ghost use Rattle.std.specs.Prelude.{◌≡◌, ◌+◌, ◌++◌, ◌<◌, ◌≤◌, ◌^◌, length, map, IfOk, OnOk};
ghost use Rattle.miette_lines.specs.views.Walking.{line_of_text};
ghost use Rattle.miette_lint.specs.rules.FindingWithFixes.{coded, coded_ending, coded_findings, coded_overlong};
ghost use Rattle.miette_lint.specs.rules.FindingWithFixes.{coded_tab};
ghost use Rattle.miette_lint.specs.rules.FindingWithFixes.{coded_trailing, line_coded};
ghost use Rattle.miette_lint.specs.rules.Findings.{lint_cells_of};
ghost use Rattle.miette_lint.specs.views.Found.{coded_of};

use crate::blanks::beginning_blanks;
use crate::endings::ending_of;
use crate::fixed::trimmed;
use crate::{findings, proposals};
use miette_fixes::fix::Fix;
use miette_lines::lines::{LineOfText, Lines};
use miette_protocol::protocol::LabeledSpan;
use std::alloc::{AllocError, Global};

/// A finding.
#[derive(Drop)]
pub struct CodedFinding {
    /// The kind of the finding: `trailing-blanks`, `tab-after-space`, `wide-line` or `final-terminator`.
    pub code: &'static str,
    /// The label, whose text describes the finding.
    pub label: LabeledSpan,
    /// The proposed fix, if there is one.
    pub fixes: Vec<Fix>,
}

// The rules for lines: at most `width` columns, and this terminator.
#[derive(Clone, Copy)]
struct LineRules {
    width: usize,
    ending: &'static str,
}

// Appends a finding if there is a label.
fn push_coded(
    found: &mut Vec<CodedFinding>,
    code: &'static str,
    labels: Vec<LabeledSpan>,
    fixes: Vec<Fix>,
) -> Result<(), AllocError>
    ensures { OnOk result (map coded_of found.new.items
        ≡ map coded_of found.old.items ++ coded code.now fixes.items labels.items) }
{
    let mut labels = labels.into_iter();
    if let Some(label) = labels.next() {
        found.push(CodedFinding { code, label, fixes })?;
    }
    Ok(())
}

// `trailing-blanks`, if the text ends with blanks; `end` is the offset of its end
fn push_trailing(
    found: &mut Vec<CodedFinding>,
    alloc: Global,
    text: &[u8],
    end: usize,
) -> Result<(), AllocError>
    requires within { length text.now ≤ end }
    ensures { OnOk result (map coded_of found.new.items
        ≡ map coded_of found.old.items ++ coded_trailing end text.now) }
{
    let mut labels = Vec::new(alloc);
    findings::push_trailing(&mut labels, alloc, text, end)?;
    let mut fixes = Vec::new(alloc);
    proposals::push_trailing(&mut fixes, alloc, text, end)?;
    push_coded(found, "trailing-blanks", labels, fixes)
}

// `tab-after-space`, if the leading blanks have one
fn push_tab(
    found: &mut Vec<CodedFinding>,
    alloc: Global,
    text: &[u8],
    start: usize,
) -> Result<(), AllocError>
    requires within { start + length text.now < 2 ^ 64 }
    ensures { OnOk result (map coded_of found.new.items
        ≡ map coded_of found.old.items ++ coded_tab start text.now) }
{
    let mut labels = Vec::new(alloc);
    findings::push_tab(&mut labels, alloc, text, start)?;
    let mut fixes = Vec::new(alloc);
    proposals::push_blanks(&mut fixes, alloc, beginning_blanks(trimmed(text)), start)?;
    push_coded(found, "tab-after-space", labels, fixes)
}

// `wide-line`, if the text has more columns than the limit
fn push_overlong(
    found: &mut Vec<CodedFinding>,
    alloc: Global,
    text: &[u8],
    line: LineOfText,
    width: usize,
) -> Result<(), AllocError>
    requires within { line.start + length text.now < 2 ^ 64 }
    ensures { OnOk result (map coded_of found.new.items ≡ map coded_of found.old.items
        ++ coded_overlong width line.text_end (lint_cells_of line.start text.now)) }
{
    let mut labels = Vec::new(alloc);
    findings::push_overlong(&mut labels, alloc, text, line, width)?;
    push_coded(found, "wide-line", labels, Vec::new(alloc))
}

// `final-terminator`, if the line has no terminator
fn push_unended(
    found: &mut Vec<CodedFinding>,
    alloc: Global,
    text: &[u8],
    line: LineOfText,
    ending: &str,
) -> Result<(), AllocError>
    requires within { line.start + length text.now < 2 ^ 64 }
    ensures { OnOk result (map coded_of found.new.items ≡ map coded_of found.old.items
        ++ coded_ending ending.now (line_of_text line) (lint_cells_of line.start text.now)) }
{
    let mut labels = Vec::new(alloc);
    findings::push_unended(&mut labels, alloc, text, line)?;
    let mut fixes = Vec::new(alloc);
    proposals::push_ending(&mut fixes, alloc, line, ending)?;
    push_coded(found, "final-terminator", labels, fixes)
}

// Appends all findings of a line.
fn push_line(
    found: &mut Vec<CodedFinding>,
    alloc: Global,
    source: &[u8],
    line: LineOfText,
    rules: LineRules,
) -> Result<(), AllocError>
    requires text { line.start ≤ line.text_end }
    requires within { line.text_end ≤ length source.now }
    ensures { OnOk result (map coded_of found.new.items ≡ map coded_of found.old.items
        ++ line_coded source.now rules.width rules.ending.now (line_of_text line)) }
{
    let text = &source[line.start..line.text_end];
    push_trailing(found, alloc, text, line.text_end)?;
    push_tab(found, alloc, text, line.start)?;
    push_overlong(found, alloc, text, line, rules.width)?;
    push_unended(found, alloc, text, line, rules.ending)
}

/// Returns all findings in a source, in the order of `findings`, with their codes and proposed fixes.
///
/// # Errors
/// `AllocError` if allocation fails.
pub fn coded_findings(
    alloc: Global,
    source: &[u8],
    width: usize,
) -> Result<Vec<CodedFinding>, AllocError>
    ensures { IfOk result (λ found. map coded_of found.items ≡ coded_findings source.now width) }
{
    let rules = LineRules {
        width,
        ending: ending_of(source),
    };
    let mut found = Vec::new(alloc);
    for line in Lines::new(source, 0) {
        push_line(&mut found, alloc, source, line, rules)?;
    }
    Ok(found)
}
