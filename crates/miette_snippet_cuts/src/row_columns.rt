//! Mapping the columns of a whole line to those of its shortened row.

ghost use Rattle.std.specs.Prelude.{◌≡◌, ◌<◌, ◌≤◌, map, if◌then◌else◌, IfOk, OnOk};
ghost use Rattle.miette_snippet_cuts.specs.steps.LineParts.{made_column, made_underline};
ghost use Rattle.miette_snippet_cuts.specs.steps.Moving.{IsRowCursor};

use crate::line_part::shown_columns;
use miette_lines::sums::sum;
use miette_snippet_rules::line_part::LinePart;
use miette_snippet_rules::underlines::Underline;
use std::alloc::{AllocError, Global};

// A position between two parts: how many parts come before it, their columns in the line, and their columns in the row.
#[derive(Clone, Copy, Drop)]
struct RowCursor {
    passed: usize,
    before: usize,
    row: usize,
}

// The position before the first part.
const START: RowCursor = RowCursor {
    passed: 0,
    before: 0,
    row: 0,
};

// Returns where a column of a part is in the row, relative to the part's start.
fn column_within(part: &LinePart, column: usize) -> usize
    ensures { result ≡ (if part.now.shown then column else 0) }
{
    if part.shown { column } else { 0 }
}

// Returns the position from which to look for a column: this one, or the start if the column is before it.
fn place_for(place: &RowCursor, column: usize) -> RowCursor
    ensures anew { column < place.now.before → result ≡ record { passed = 0; before = 0; row = 0 } }
    ensures on { place.now.before ≤ column → result ≡ place.now }
{
    if column < place.before { START } else { *place }
}

// Returns the row column of a line column. Moves the position to the column's part, so ascending columns visit each
// part once. `dots` is the width of the dots.
fn row_column_of(
    cut: &[LinePart],
    place: &mut RowCursor,
    column: usize,
    dots: usize,
) -> Result<usize, AllocError>
    requires { IsRowCursor dots cut.now place.old }
    ensures column { IfOk result (λ found. found ≡ made_column dots cut.now column) }
    ensures place { OnOk result (IsRowCursor dots cut.now place.new) }
{
    *place = place_for(place, column);
    while place.passed < cut.len() {
        let part = &cut[place.passed];
        let columns = part.columns;
        let left = column - place.before;
        if left < columns {
            return sum(place.row, column_within(part, left));
        }
        let row = sum(place.row, shown_columns(part, dots))?;
        place.row = row;
        place.before += columns;
        place.passed += 1;
    }
    sum(place.row, column - place.before)
}

// Moves an underline to the columns of the row.
fn moved_underline<'a>(
    cut: &[LinePart],
    place: &mut RowCursor,
    mark: &Underline<'a>,
    dots: usize,
) -> Result<Underline<'a>, AllocError>
    requires { IsRowCursor dots cut.now place.old }
    ensures mark { IfOk result (λ moved. moved ≡ made_underline dots cut.now mark.now) }
    ensures place { OnOk result (IsRowCursor dots cut.now place.new) }
{
    let from = row_column_of(cut, place, mark.from, dots)?;
    let pointer = row_column_of(cut, place, mark.pointer, dots)?;
    let last = row_column_of(cut, place, mark.until.saturating_sub(1), dots)?;
    let until = sum(last, 1)?;
    Ok(Underline {
        from,
        until,
        pointer,
        label: mark.label,
    })
}

/// Moves underlines to the columns of the row. `dots` is the width of the dots. `AllocError` if allocation fails or a
/// column exceeds `usize::MAX`.
pub(crate) fn move_underlines<'a>(
    alloc: Global,
    cut: &[LinePart],
    marks: &[Underline<'a>],
    dots: usize,
) -> Result<Vec<Underline<'a>>, AllocError>
    ensures { IfOk result (λ moved. moved.items ≡ map (made_underline dots cut.now) marks.now) }
{
    let mut moved = Vec::new(alloc);
    let mut place = START;
    for mark in marks {
        let next = moved_underline(cut, &mut place, mark, dots)?;
        moved.push(next)?;
    }
    Ok(moved)
}
