//! All that `lint` proposes as one fix.

ghost use Rattle.std.specs.Prelude.{◌≡◌, ◌++◌, string_bytes, IfOk};
ghost use Rattle.std.specs.List.{flat_map};
ghost use Rattle.miette_lint.specs.rules.Combined.{combined_proposal, resolved_text};

use crate::findings::findings;
use crate::proposals::proposals;
use crate::remaining::remaining_count;
use itoa::Buffer;
use miette_fixes::fix::{Applicability, Edit, Fix};
use std::alloc::{AllocError, Global};

// `3 of 4 findings`
fn resolved_text(alloc: Global, mended: usize, found: usize) -> Result<String, AllocError>
    ensures { IfOk result (λ text. string_bytes text ≡ resolved_text mended found) }
{
    let mut text = String::from_str(alloc, Buffer::new().format(mended))?;
    text.push_str(" of ")?;
    text.push_str(Buffer::new().format(found))?;
    text.push_str(" findings")?;
    Ok(text)
}

// Appends copies of these edits to a fix.
fn with_edits(fix: Fix, edits: &[Edit]) -> Result<Fix, AllocError>
    ensures { IfOk result (λ it. it ≡ record fix { edits = fix.edits ++ edits.now }) }
{
    let mut joint = fix;
    for edit in edits {
        joint = joint.with_edit(edit.clone()?)?;
    }
    Ok(joint)
}

// Appends copies of the edits of these fixes to a fix.
fn joined(fix: Fix, fixes: &[Fix]) -> Result<Fix, AllocError>
    ensures { IfOk result (λ it. it ≡ record fix { edits = fix.edits ++ flat_map (λ other. other.edits) fixes.now }) }
{
    let mut joint = fix;
    for other in fixes {
        joint = with_edits(joint, other.edits())?;
    }
    Ok(joint)
}

/// All edits that are proposed for a source as one fix, which may be applied without a look. Its message says how many
/// of the findings are gone after it: those of the source at this width less those of the fixed text at the same
/// width. What it gives is the fixed text: `lint_combined_fix_laws`.
///
/// # Errors
/// Where no memory is found.
pub fn combined_proposal(alloc: Global, source: &[u8], width: usize) -> Result<Fix, AllocError>
    ensures { IfOk result (λ fix. fix ≡ combined_proposal source.now width) }
{
    let labels = findings(alloc, source, width)?;
    let found = labels.as_slice().len();
    let fixes = proposals(alloc, source)?;
    let left = remaining_count(alloc, source, width)?;
    let message = resolved_text(alloc, found - left, found)?;
    let fix = Fix::new(alloc, message.as_str())?.with_applicability(
        Applicability::MachineApplicable,
    );
    joined(fix, fixes.as_slice())
}
