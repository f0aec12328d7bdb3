//! Checking whether the shown part of a line fits into the limit.

ghost use Rattle.std.specs.Prelude.{◌≡◌, ◌∷◌, ◌++◌, ◌&&◌, ℕ, List, true, length, IfOk, nat_le};
ghost use Rattle.std.specs.List.{list_all};
ghost use Rattle.std.specs.List.Sorted.{IsNonDecreasing};
ghost use Rattle.miette_columns.specs.rules.Cells.{Cell as TextCell};
ghost use Rattle.miette_columns.specs.views.Printable.{is_printable, plain_cells};
ghost use Rattle.miette_columns.specs.views.Walking.{cell_of};
ghost use Rattle.miette_snippet_cuts.specs.steps.Counting.{IsCounted, counted, whole_count};
ghost use Rattle.miette_snippet_cuts.specs.steps.Nearness.{near_by};
ghost use Rattle.miette_snippet_cuts.specs.steps.Windows.{NoneFrom, StandTogether};

use crate::nearness::{CutSettings, Nearness};
use crate::plain_parts::even_part;
use crate::window::Window;
use miette_columns::cells::{Cell, PlainCells};
use miette_lines::sums::sum;
use std::alloc::AllocError;

// The columns counted so far: those of shown cells and dots, and those of the cells after them that aren't near.
#[derive(Clone, Copy, Drop)]
struct Count {
    shown: usize,
    passed: usize,
}

// Counts `columns` more columns, of cells that are near or not. Hidden cells count as at most `dots` columns.
fn counted(count: &Count, near: bool, columns: usize, dots: usize) -> Result<Count, AllocError>
    ensures { IfOk result (λ next. next ≡ counted dots near columns count.now) }
{
    if near {
        let more = sum(count.passed.min(dots), columns)?;
        let shown = sum(count.shown, more)?;
        return Ok(Count { shown, passed: 0 });
    }
    let passed = sum(count.passed, columns)?;
    Ok(Count {
        shown: count.shown,
        passed,
    })
}

// Counts a cell.
fn count_cell(
    count: &Count,
    nearness: &mut Nearness<'_>,
    cell: &Cell,
    dots: usize,
) -> Result<Count, AllocError>
    ensures counted { IfOk result (λ next. (rest : List TextCell) →
        whole_count dots (near_by nearness.old.room nearness.old.ends) next rest
        ≡ whole_count dots (near_by nearness.old.room nearness.old.ends) count.now (cell_of cell.now ∷ rest)) }
    ensures same { nearness.new ≡ nearness.old }
{
    if cell.from == cell.until {
        return Ok(*count);
    }
    let near = nearness.is_near(cell);
    counted(count, near, cell.until.saturating_sub(cell.from), dots)
}

// Counts a run of printable ASCII. Stops once the shown columns exceed the limit.
fn count_plain(
    count: &Count,
    nearness: &mut Nearness<'_>,
    plain: &PlainCells,
    room: &CutSettings,
) -> Result<Count, AllocError>
    ensures counted { IfOk result (λ next. (bytes : List ℕ) → (rest : List TextCell) →
        list_all is_printable bytes ≡ true → length bytes ≡ plain.now.many → IsCounted room.now.limit next
        (whole_count room.now.dots (near_by nearness.old.room nearness.old.ends) next rest)
        (whole_count room.now.dots (near_by nearness.old.room nearness.old.ends) count.now
        (plain_cells plain.now.start plain.now.from bytes ++ rest))) }
    ensures same { IfOk result (λ next. nearness.new ≡ nearness.old) }
{
    let end = sum(plain.from, plain.many)?;
    let mut column = plain.from;
    let mut count = *count;
    while column < end {
        if count.shown > room.limit {
            return Ok(count);
        }
        let next = even_part(nearness, column, end);
        column += next.cells;
        count = counted(&count, next.shown, next.cells, room.dots)?;
    }
    Ok(count)
}

// Returns whether this cell and all later ones are hidden, and a full width of dots is already counted.
fn is_past(window: &Window<'_>, room: &CutSettings, count: &Count, cell: &Cell) -> bool
    ensures { result ≡ (nat_le window.now.stop cell.now.from && nat_le room.now.dots count.now.passed) }
{
    window.stop <= cell.from && room.dots <= count.passed
}

/// Returns whether the shown part of a line fits into the limit. `ends` are the label columns, ascending. The window
/// contains every cell that may be near. `AllocError` if a column or a count exceeds `usize::MAX`.
pub(crate) fn fits(
    window: &Window<'_>,
    room: &CutSettings,
    ends: &[usize],
) -> Result<bool, AllocError>
    requires ascending { IsNonDecreasing ends.now }
    requires stands { StandTogether window.now.walk }
    requires past { NoneFrom window.now.stop (near_by room.now ends.now) }
    ensures { IfOk result (λ fits. fits ≡ nat_le (whole_count room.now.dots (near_by room.now ends.now)
        (record { shown = 0; passed = window.now.column }) window.now.walk) room.now.limit) }
{
    let mut walk = window.walk.copy();
    let mut nearness = Nearness::new(room, ends);
    let none = Count {
        shown: 0,
        passed: window.column,
    };
    let plain = walk.pass_plain(window.stop.saturating_sub(window.column))?;
    let mut count = count_plain(&none, &mut nearness, &plain, room)?;
    while let Some(cell) = walk.next()? {
        if count.shown > room.limit {
            return Ok(false);
        }
        if is_past(window, room, &count, &cell) {
            let all = sum(count.shown, room.dots)?;
            return Ok(all <= room.limit);
        }
        let next = count_cell(&count, &mut nearness, &cell, room.dots)?;
        let plain = walk.pass_plain(window.stop.saturating_sub(cell.until))?;
        count = count_plain(&next, &mut nearness, &plain, room)?;
    }
    let width = sum(count.shown, count.passed.min(room.dots))?;
    Ok(width <= room.limit)
}
