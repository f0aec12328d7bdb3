//! Fast scanning of a line's text: many cells at a time, and printable ASCII by its byte count.

ghost use Rattle.std.specs.Prelude.{◌≡◌, ◌<◌, ◌≤◌, [], List, length, true, false, IfOk};
ghost use Rattle.miette_columns.specs.rules.Cells.{Cell};
ghost use Rattle.miette_columns.specs.views.Walking.{ComeFirst};
ghost use Rattle.miette_snippet_rules.specs.rules.PrintedCells.{cells_width};
ghost use Rattle.miette_snippet_rules.specs.views.LineScans.{HasScanned};

use miette_columns::cells::{CellWalk, PlainCells};
use miette_lines::sums::sum;
use std::alloc::AllocError;

// The number of cells that `scan_cells` scans in one call.
const AT_A_TIME: usize = 64;

/// A walk over the cells of a line's text that has scanned some of them.
#[derive(Drop)]
pub struct LineScan<'a> {
    /// The remaining cells.
    pub walk: CellWalk<'a>,
    /// The offset after the scanned cells.
    pub reached: usize,
    /// The column after the scanned cells.
    pub width: usize,
}

/// Scans the next `AT_A_TIME` cells. Returns false if fewer than that many remained. `AllocError` if a column exceeds
/// `usize::MAX`.
#[inline(never)]
pub fn scan_cells(passage: &mut LineScan<'_>) -> Result<bool, AllocError>
    ensures passed { IfOk result (λ more. (cells : List Cell) →
        HasScanned cells passage.old → HasScanned cells passage.new) }
    ensures width { IfOk result (λ more. cells_width passage.new.width passage.new.walk
        ≡ cells_width passage.old.width passage.old.walk) }
    ensures end { IfOk result (λ more. more ≡ false → passage.new.walk ≡ []) }
    ensures fewer { IfOk result (λ more. more ≡ true → length passage.new.walk < length passage.old.walk) }
{
    let mut walk = passage.walk.copy();
    let mut reached = passage.reached;
    let mut width = passage.width;
    for _ in 0..AT_A_TIME {
        let Some(cell) = walk.next()? else {
            *passage = LineScan {
                walk,
                reached,
                width,
            };
            return Ok(false);
        };
        reached = cell.after;
        width = cell.until;
    }
    *passage = LineScan {
        walk,
        reached,
        width,
    };
    Ok(true)
}

/// Scans the run of printable ASCII that comes next and returns it. `AllocError` if a column exceeds `usize::MAX`.
pub fn pass_plain(passage: &mut LineScan<'_>) -> Result<PlainCells, AllocError>
    ensures passed { IfOk result (λ plain. (cells : List Cell) →
        HasScanned cells passage.old → HasScanned cells passage.new) }
    ensures width { IfOk result (λ plain. cells_width passage.new.width passage.new.walk
        ≡ cells_width passage.old.width passage.old.walk) }
    ensures first { IfOk result (λ plain. ComeFirst plain passage.old.walk passage.new.walk) }
    ensures left { IfOk result (λ plain. length passage.new.walk ≤ length passage.old.walk) }
{
    let plain = passage.walk.pass_plain(usize::MAX)?;
    if plain.many > 0 {
        passage.reached = sum(plain.start, plain.many)?;
        passage.width = sum(plain.from, plain.many)?;
    }
    Ok(plain)
}
