//! The part of a line in which its reach is searched: everything within the limit around its label columns.

ghost use Rattle.std.specs.Prelude.{◌≡◌, ◌<◌, length, true, IfOk, OnOk};
ghost use Rattle.std.specs.List.Sorted.{IsNonDecreasing};
ghost use Rattle.miette_snippet_cuts.specs.steps.Windows.{HasSkipped, HoldsNear, StandFrom, StandsTo};

use miette_columns::cells::CellWalk;
use miette_lines::sums::sum;
use std::alloc::AllocError;

/// The cells of a line from some cell on.
#[derive(Drop)]
pub(crate) struct Window<'a> {
    /// The cells.
    pub(crate) walk: CellWalk<'a>,
    /// The column at which they begin. No cell before it can be near.
    pub(crate) column: usize,
    /// The column from which on no cell can be near.
    pub(crate) stop: usize,
}

// Skips printable ASCII up to a column.
fn pass_plain(window: &mut Window<'_>, end: usize) -> Result<(), AllocError>
    requires { StandsTo end window.old }
    ensures { OnOk result (HasSkipped end window.old window.new) }
{
    let plain = window.walk.pass_plain(end - window.column)?;
    window.column = sum(window.column, plain.many)?;
    Ok(())
}

// Skips the next cell if it ends at the column `end` or before. Returns whether it did.
fn pass_cell(window: &mut Window<'_>, end: usize) -> Result<bool, AllocError>
    requires { StandsTo end window.old }
    ensures passed { IfOk result (λ more. HasSkipped end window.old window.new) }
    ensures fewer { IfOk result (λ more. more ≡ true → length window.new.walk < length window.old.walk) }
{
    let mut walk = window.walk.copy();
    let Some(cell) = walk.next()? else {
        return Ok(false);
    };
    if cell.until > end {
        return Ok(false);
    }
    window.walk = walk;
    window.column = cell.until;
    Ok(true)
}

// Skips the cells that end at the column `end` or before.
fn pass_front(window: &mut Window<'_>, end: usize) -> Result<(), AllocError>
    requires { StandsTo end window.old }
    ensures { OnOk result (HasSkipped end window.old window.new) }
{
    pass_plain(window, end)?;
    while pass_cell(window, end)? {
        pass_plain(window, end)?;
    }
    Ok(())
}

/// Returns the part of a line in which its reach, at most `limit`, is searched. `ends` are the label columns,
/// ascending. `AllocError` if a column exceeds `usize::MAX`.
pub(crate) fn window_around<'a>(
    walk: &CellWalk<'a>,
    limit: usize,
    ends: &[usize],
) -> Result<Window<'a>, AllocError>
    requires stands { StandFrom 0 walk.now }
    requires ascending { IsNonDecreasing ends.now }
    requires some { 0 < length ends.now }
    ensures { IfOk result (λ window. HoldsNear limit ends.now walk.now window) }
{
    let after = sum(ends[ends.len() - 1], limit)?;
    let stop = sum(after, 1)?;
    let mut window = Window {
        walk: walk.copy(),
        column: 0,
        stop,
    };
    let first = ends[0];
    if first <= limit {
        return Ok(window);
    }
    pass_front(&mut window, first - limit)?;
    Ok(window)
}
