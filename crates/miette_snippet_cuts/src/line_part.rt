//! Joining and measuring the parts of a line.

ghost use Rattle.std.specs.Prelude.{◌≡◌, ◌++◌, List, IfOk, OnOk};
ghost use Rattle.miette_snippet_cuts.specs.steps.LineParts.{join_parts, kept_made, made_columns, prepend_made};

use miette_lines::sums::sum;
use miette_snippet_rules::line_part::LinePart;
use std::alloc::AllocError;

// Joins a part and the next one. The result is shown if the first is.
fn join_parts(first: &LinePart, next: &LinePart) -> Result<LinePart, AllocError>
    ensures { IfOk result (λ both. both ≡ join_parts first.now next.now) }
{
    Ok(LinePart {
        shown: first.shown,
        cells: sum(first.cells, next.cells)?,
        columns: sum(first.columns, next.columns)?,
        bytes: sum(first.bytes, next.bytes)?,
    })
}

/// Appends a part. It is joined with the last one if both are shown or both hidden.
pub(crate) fn push_line_part(
    made: &mut Vec<LinePart>,
    reached: &mut LinePart,
    next: LinePart,
) -> Result<(), AllocError>
    ensures put { OnOk result ((rest : List LinePart) → made.new.items ++ prepend_made reached.new rest
        ≡ made.old.items ++ prepend_made reached.old (prepend_made next rest)) }
    ensures shown { OnOk result (reached.new.shown ≡ next.shown) }
{
    let same = next.shown == reached.shown;
    if same {
        *reached = join_parts(reached, &next)?;
        return Ok(());
    }
    made.push(*reached)?;
    *reached = next;
    Ok(())
}

/// Shows a part if it is no wider than the dots.
pub(crate) fn show_if_short(part: &LinePart, dots: usize) -> LinePart
    ensures { result ≡ kept_made dots part.now }
{
    LinePart {
        shown: part.shown || part.columns <= dots,
        cells: part.cells,
        columns: part.columns,
        bytes: part.bytes,
    }
}

/// Returns the width of a part in the row: its own, or that of the dots.
pub(crate) fn shown_columns(part: &LinePart, dots: usize) -> usize
    ensures { result ≡ made_columns dots part.now }
{
    if part.shown { part.columns } else { dots }
}
