//! Proposed fixes of `lint`.

ghost use Rattle.std.specs.Prelude.{◌≡◌, ◌≤◌, ◌<◌, ◌+◌, ◌-◌, ◌++◌, ◌∷◌, ◌^◌, [], length, string_bytes, IfOk, OnOk};
ghost use Rattle.miette_lines.specs.views.Walking.{line_of_text};
ghost use Rattle.miette_lint.specs.rules.Fixes.{blanks_fix, ending_fix, line_fixes, proposal, proposals_of};
ghost use Rattle.miette_lint.specs.rules.Fixes.{trailing_fix};

use crate::blanks::{beginning_blanks, ending_blanks, tab_after_space};
use crate::endings::ending_of;
use crate::fixed::trimmed;
use crate::spaces::spaces_for;
use miette_fixes::fix::{Applicability, Edit, Fix};
use miette_lines::lines::{LineOfText, Lines};
use std::alloc::{AllocError, Global};
use std::ops::Range;

// Appends a fix that replaces a range with a text.
fn push_fix(
    fixes: &mut Vec<Fix>,
    alloc: Global,
    message: &str,
    at: Range<usize>,
    text: String,
) -> Result<(), AllocError>
    requires { at.start ≤ at.end }
    ensures { OnOk result (fixes.new.items ≡ fixes.old.items
        ++ proposal message.now at.start (at.end - at.start) (string_bytes text) ∷ []) }
{
    let fix = Fix::new(alloc, message)?
        .with_edit(Edit::replace((at.start, at.end - at.start), text))?
        .with_applicability(Applicability::MachineApplicable);
    fixes.push(fix)?;
    Ok(())
}

/// Evens the leading blanks, if a tab follows a space.
pub(crate) fn push_blanks(
    fixes: &mut Vec<Fix>,
    alloc: Global,
    blanks: &[u8],
    start: usize,
) -> Result<(), AllocError>
    requires { start + length blanks.now < 2 ^ 64 }
    ensures { OnOk result (fixes.new.items ≡ fixes.old.items ++ blanks_fix start blanks.now) }
{
    match tab_after_space(blanks) {
        Some(_) => {
            let spaces = spaces_for(alloc, blanks)?;
            push_fix(
                fixes,
                alloc,
                "indent by spaces",
                start..start + blanks.len(),
                spaces,
            )
        }
        None => Ok(()),
    }
}

/// Deletes the trailing blanks; `end` is the offset of the text's end.
pub(crate) fn push_trailing(
    fixes: &mut Vec<Fix>,
    alloc: Global,
    text: &[u8],
    end: usize,
) -> Result<(), AllocError>
    requires within { length text.now ≤ end }
    ensures { OnOk result (fixes.new.items ≡ fixes.old.items ++ trailing_fix end text.now) }
{
    let blanks = ending_blanks(text);
    if blanks == 0 {
        return Ok(());
    }
    push_fix(
        fixes,
        alloc,
        "delete trailing blanks",
        end - blanks..end,
        String::new(alloc),
    )
}

/// Adds a terminator, if the line has none.
pub(crate) fn push_ending(
    fixes: &mut Vec<Fix>,
    alloc: Global,
    line: LineOfText,
    ending: &str,
) -> Result<(), AllocError>
    ensures { OnOk result (fixes.new.items ≡ fixes.old.items ++ ending_fix ending.now (line_of_text line)) }
{
    if line.text_end < line.end {
        return Ok(());
    }
    let text = String::from_str(alloc, ending)?;
    push_fix(fixes, alloc, "end the last line", line.end..line.end, text)
}

// Appends all fixes for a line.
fn push_line(
    fixes: &mut Vec<Fix>,
    alloc: Global,
    source: &[u8],
    line: LineOfText,
    ending: &str,
) -> Result<(), AllocError>
    requires text { line.start ≤ line.text_end }
    requires within { line.text_end ≤ length source.now }
    ensures { OnOk result (fixes.new.items ≡ fixes.old.items
        ++ line_fixes source.now ending.now (line_of_text line)) }
{
    let text = &source[line.start..line.text_end];
    push_blanks(fixes, alloc, beginning_blanks(trimmed(text)), line.start)?;
    push_trailing(fixes, alloc, text, line.text_end)?;
    push_ending(fixes, alloc, line, ending)
}

/// Returns all proposed fixes for a source, by offset. Each has one edit and is machine-applicable. No two fixes
/// conflict, so all can be applied together.
///
/// # Errors
/// `AllocError` if allocation fails.
pub fn proposals(alloc: Global, source: &[u8]) -> Result<Vec<Fix>, AllocError>
    ensures { IfOk result (λ fixes. fixes.items ≡ proposals_of source.now) }
{
    let ending = ending_of(source);
    let mut fixes = Vec::new(alloc);
    for line in Lines::new(source, 0) {
        push_line(&mut fixes, alloc, source, line, ending)?;
    }
    Ok(fixes)
}
