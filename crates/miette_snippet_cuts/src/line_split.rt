//! Splitting a line into near and other parts, by one walk over its cells and label columns.

ghost use Rattle.std.specs.Prelude.{◌≡◌, map, false, IfOk};
ghost use Rattle.std.specs.List.Sorted.{IsNonDecreasing};
ghost use Rattle.miette_columns.specs.views.Walking.{cell_of};
ghost use Rattle.miette_snippet_rules.specs.rules.CutLines.{is_near_after, line_parts};
ghost use Rattle.miette_snippet_rules.specs.views.Cuts.{measure};
ghost use Rattle.miette_snippet_cuts.specs.steps.LineParts.{lone, prepend_made};
ghost use Rattle.miette_snippet_cuts.specs.steps.Nearness.{near_by};

use crate::line_part::push_line_part;
use crate::nearness::{CutSettings, Nearness};
use crate::plain_parts::push_plain_parts;
use miette_columns::cells::{Cell, CellWalk};
use miette_snippet_rules::line_part::LinePart;
use std::alloc::{AllocError, Global};

// A part of one cell. `before` says whether the previous cell is near, which decides for cells without columns.
fn lone_part(nearness: &mut Nearness<'_>, before: bool, cell: &Cell) -> LinePart
    ensures lone { result ≡ lone (is_near_after (near_by nearness.old.room nearness.old.ends) before
        (cell_of cell.now)) (cell_of cell.now) }
    ensures same { nearness.new ≡ nearness.old }
{
    let shown = if cell.from == cell.until {
        before
    } else {
        nearness.is_near(cell)
    };
    LinePart {
        shown,
        cells: 1,
        columns: cell.until.saturating_sub(cell.from),
        bytes: cell.code.len_utf8(),
    }
}

// Returns the part that begins with `first` and all parts after it.
fn split_after(
    alloc: Global,
    walk: CellWalk<'_>,
    nearness: &mut Nearness<'_>,
    first: LinePart,
) -> Result<Vec<LinePart>, AllocError>
    ensures { IfOk result (λ made. made.items ≡ prepend_made first (map measure
        (line_parts (near_by nearness.old.room nearness.old.ends) first.shown walk.entry))) }
{
    let mut walk = walk;
    let mut made = Vec::new(alloc);
    let mut reached = first;
    let plain = walk.pass_plain(usize::MAX)?;
    push_plain_parts(&mut made, &mut reached, nearness, &plain)?;
    while let Some(cell) = walk.next()? {
        let next = lone_part(nearness, reached.shown, &cell);
        push_line_part(&mut made, &mut reached, next)?;
        let plain = walk.pass_plain(usize::MAX)?;
        push_plain_parts(&mut made, &mut reached, nearness, &plain)?;
    }
    made.push(reached)?;
    Ok(made)
}

/// Splits a line into parts that are near its label columns and parts that aren't. `ends` are the label columns,
/// ascending. `AllocError` if allocation fails, or if a column or a count exceeds `usize::MAX`.
pub(crate) fn split_line(
    alloc: Global,
    walk: CellWalk<'_>,
    room: &CutSettings,
    ends: &[usize],
) -> Result<Vec<LinePart>, AllocError>
    requires { IsNonDecreasing ends.now }
    ensures { IfOk result (λ made. made.items
        ≡ map measure (line_parts (near_by room.now ends.now) false walk.entry)) }
{
    let mut walk = walk;
    let mut nearness = Nearness::new(room, ends);
    let Some(cell) = walk.next()? else {
        return Ok(Vec::new(alloc));
    };
    let first = lone_part(&mut nearness, false, &cell);
    split_after(alloc, walk, &mut nearness, first)
}
