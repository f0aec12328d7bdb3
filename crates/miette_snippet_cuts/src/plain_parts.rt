//! Cutting runs of printable ASCII, without a walk over the characters.

ghost use Rattle.std.specs.Prelude.{◌≡◌, ◌<◌, ◌≤◌, ◌+◌, ◌++◌, ℕ, List, true, map, length, OnOk};
ghost use Rattle.std.specs.List.{list_all};
ghost use Rattle.miette_columns.specs.rules.Cells.{Cell};
ghost use Rattle.miette_columns.specs.views.Printable.{is_printable, plain_cells};
ghost use Rattle.miette_snippet_rules.specs.rules.CutLines.{line_parts};
ghost use Rattle.miette_snippet_rules.specs.views.Cuts.{measure};
ghost use Rattle.miette_snippet_cuts.specs.steps.LineParts.{cell_at, even, prepend_made};
ghost use Rattle.miette_snippet_cuts.specs.steps.Nearness.{near_by};

use crate::line_part::push_line_part;
use crate::nearness::Nearness;
use miette_columns::cells::PlainCells;
use miette_lines::sums::sum;
use miette_snippet_rules::line_part::LinePart;
use std::alloc::AllocError;

/// Returns the part that begins at a column: as many cells of one column as are near, or as aren't.
pub(crate) fn even_part(nearness: &mut Nearness<'_>, column: usize, len: usize) -> LinePart
    requires { column < len }
    ensures even { result ≡ even result.shown result.cells }
    ensures some { 0 < result.cells }
    ensures within { column + result.cells ≤ len }
    ensures alike { (x : ℕ) → column ≤ x → x < column + result.cells →
        near_by nearness.old.room nearness.old.ends (cell_at x) ≡ result.shown }
    ensures same { nearness.new ≡ nearness.old }
{
    let (shown, until) = nearness.turn_after(column, len);
    let cells = until - column;
    LinePart {
        shown,
        cells,
        columns: cells,
        bytes: cells,
    }
}

/// Appends the parts of a run of printable ASCII to those so far. `AllocError` if allocation fails, or if a column or a
/// count exceeds `usize::MAX`.
pub(crate) fn push_plain_parts(
    made: &mut Vec<LinePart>,
    reached: &mut LinePart,
    nearness: &mut Nearness<'_>,
    plain: &PlainCells,
) -> Result<(), AllocError>
    ensures put { OnOk result ((bytes : List ℕ) → (rest : List Cell) → list_all is_printable bytes ≡ true →
        length bytes ≡ plain.now.many → made.new.items
        ++ prepend_made reached.new (map measure (line_parts (near_by nearness.old.room nearness.old.ends)
        reached.new.shown rest))
        ≡ made.old.items ++ prepend_made reached.old (map measure (line_parts (near_by nearness.old.room
        nearness.old.ends)
        reached.old.shown (plain_cells plain.now.start plain.now.from bytes ++ rest)))) }
    ensures same { OnOk result (nearness.new ≡ nearness.old) }
{
    let end = sum(plain.from, plain.many)?;
    let mut column = plain.from;
    while column < end {
        let next = even_part(nearness, column, end);
        column += next.cells;
        push_line_part(made, reached, next)?;
    }
    Ok(())
}
