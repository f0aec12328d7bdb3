//! A source with all proposed fixes applied.

ghost use Rattle.std.specs.Prelude.{◌≡◌, ◌≤◌, ◌<◌, ◌++◌, length, map, IfOk, OnOk};
ghost use Rattle.miette_lines.specs.views.Walking.{line_of_text};
ghost use Rattle.miette_fixes.specs.rules.ApplyingAll.{all_applied};
ghost use Rattle.miette_lint.specs.rules.Fixes.{evened, fixed_line, fixed_text, proposals_of, trimmed};

use crate::blanks::{beginning_count, ending_blanks, tab_after_space};
use crate::endings::ending_of;
use crate::spaces::spaces_for;
use miette_lines::lines::{LineOfText, Lines};
use std::alloc::{AllocError, Global};

/// A text without its trailing blanks.
pub(crate) fn trimmed(text: &[u8]) -> &[u8]
    ensures { result.now ≡ trimmed text.now }
{
    &text[..text.len() - ending_blanks(text)]
}

// Appends a text with its leading blanks evened.
fn push_evened(fixed: &mut Vec<u8>, alloc: Global, text: &[u8]) -> Result<(), AllocError>
    ensures { OnOk result (fixed.new.items ≡ fixed.old.items ++ evened text.now) }
{
    let (blanks, rest) = text.split_at(beginning_count(text));
    match tab_after_space(blanks) {
        Some(_) => {
            let spaces = spaces_for(alloc, blanks)?;
            fixed.extend_from_slice(spaces.as_bytes())?;
            fixed.extend_from_slice(rest)?;
        }
        None => fixed.extend_from_slice(text)?,
    }
    Ok(())
}

// Appends a line.
fn push_line(
    fixed: &mut Vec<u8>,
    alloc: Global,
    source: &[u8],
    line: LineOfText,
    ending: &str,
) -> Result<(), AllocError>
    requires text { line.start ≤ line.text_end }
    requires ends { line.text_end ≤ line.end }
    requires within { line.end ≤ length source.now }
    ensures { OnOk result (fixed.new.items ≡ fixed.old.items
        ++ fixed_line source.now ending.now (line_of_text line)) }
{
    push_evened(fixed, alloc, trimmed(&source[line.start..line.text_end]))?;
    if line.text_end < line.end {
        fixed.extend_from_slice(&source[line.text_end..line.end])?;
    } else {
        fixed.extend_from_slice(ending.as_bytes())?;
    }
    Ok(())
}

/// Returns a source with all proposed fixes applied. Its only findings are lines that are too wide. Fixing it again
/// changes nothing: see `lint_fixed_text_laws`.
///
/// # Errors
/// `AllocError` if allocation fails.
pub fn fixed(alloc: Global, source: &[u8]) -> Result<Vec<u8>, AllocError>
    ensures text { IfOk result (λ text. text.items ≡ fixed_text source.now) }
    // This is the result of applying all proposed fixes.
    ensures applied { IfOk result (λ text. text.items
        ≡ all_applied source.now (map (λ fix. fix.edits) (proposals_of source.now))) }
{
    let ending = ending_of(source);
    let mut fixed = Vec::with_capacity(alloc, source.len())?;
    for line in Lines::new(source, 0) {
        push_line(&mut fixed, alloc, source, line, ending)?;
    }
    Ok(fixed)
}
