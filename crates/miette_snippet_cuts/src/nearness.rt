//! Which cells of a line are near a label column, found by one walk over the columns.

ghost use Rattle.std.specs.Prelude.{◌≡◌, ◌<◌, ◌≤◌, ◌+◌, ℕ};
ghost use Rattle.std.specs.List.Sorted.{IsNonDecreasing};
ghost use Rattle.miette_columns.specs.views.Walking.{cell_of};
ghost use Rattle.miette_snippet_rules.specs.rules.CutLines.{has_room, is_within};
ghost use Rattle.miette_snippet_cuts.specs.steps.LineParts.{cell_at};
ghost use Rattle.miette_snippet_cuts.specs.steps.Nearness.{ArePassed, end_ahead, near_by, LineEnds};

use miette_columns::cells::Cell;
use std::marker::Model;

/// By which widths a line is cut.
#[derive(Clone, Copy, Drop)]
pub struct CutSettings {
    /// The most columns that the shown text may have.
    pub limit: usize,
    /// The width of the dots in columns.
    pub dots: usize,
    /// How many columns are shown on each side of a label column.
    pub reach: usize,
}

/// Label columns, ascending, and how far they have been walked. Each is passed once while the columns asked about
/// ascend: the first `passed` ones are too far before `column`.
#[derive(Drop)]
pub(crate) struct Nearness<'a> {
    room: CutSettings,
    ends: &'a [usize],
    passed: usize,
    column: usize,
}

impl<'a> Model for Nearness<'a> {
    ghost use Rattle.miette_snippet_cuts.specs.steps.Nearness.{IsSearched, LineEnds};

    ghost Value = { LineEnds };

    ghost view = { λ n. record { room = n.room; ends = n.ends.now } };

    ghost invariant = { λ n. IsSearched n.room.reach n.ends.now n.passed n.column };
}

// Returns whether one of the cell's columns is at most `reach` columns away from `column`.
fn is_within_of(reach: usize, cell: &Cell, column: usize) -> bool
    ensures { result ≡ is_within reach (cell_of cell.now) column }
{
    cell.from.saturating_sub(column) <= reach
        && (column < cell.until || column - cell.until < reach)
}

// Returns whether the cell and the dots after it fit into the limit.
fn has_room_in(room: &CutSettings, cell: &Cell) -> bool
    ensures { result ≡ has_room room.now.limit room.now.dots (cell_of cell.now) }
{
    cell.until <= room.limit && room.dots <= room.limit - cell.until
}

// For a cell of one column: returns whether it fits with the dots. If it does, also returns the column, at most `len`,
// up to which the following cells do.
fn turn_at(room: &CutSettings, column: usize, len: usize) -> (bool, usize)
    requires { column < len }
    ensures more { column < result.1 }
    ensures within { result.1 ≤ len }
    ensures alike { (x : ℕ) → column ≤ x → x < result.1 →
        has_room room.now.limit room.now.dots (cell_at x) ≡ result.0 }
{
    let first = room.limit.saturating_sub(room.dots);
    if column < first {
        return (true, first.min(len));
    }
    (false, len)
}

// For a cell of one column: returns whether it is near the label column `end`, which isn't too far before it. If it is,
// also returns the column, at most `len`, up to which the following cells are.
fn turn_by(reach: usize, end: usize, column: usize, len: usize) -> (bool, usize)
    requires some { column < len }
    requires ahead { column ≤ end + reach }
    ensures more { column < result.1 }
    ensures within { result.1 ≤ len }
    ensures reached { result.1 ≤ end + reach + 1 }
    ensures alike { (x : ℕ) → column ≤ x → x < result.1 → is_within reach (cell_at x) end ≡ result.0 }
{
    let from = end.saturating_sub(reach);
    if column < from {
        return (false, from.min(len));
    }
    let after = end.saturating_add(reach).saturating_add(1);
    (true, after.min(len))
}

// Returns how many label columns to skip before searching: those passed for an earlier column, or none.
fn start_at(column: usize, reached: usize, passed: usize) -> usize
    ensures anew { column < reached → result ≡ 0 }
    ensures on { reached ≤ column → result ≡ passed }
{
    if column < reached { 0 } else { passed }
}

// Returns how many label columns are too far before `column`, and the first that isn't. The first `start` are known to
// be.
fn passed_at(ends: &[usize], reach: usize, column: usize, start: usize) -> (usize, Option<usize>)
    requires { ArePassed reach ends.now start column }
    ensures passed { ArePassed reach ends.now result.0 column }
    ensures found { result.1 ≡ end_ahead reach column ends.now }
{
    let mut at = start;
    while at < ends.len() {
        let end = ends[at];
        let away = column.saturating_sub(end);
        if away <= reach {
            return (at, Some(end));
        }
        at += 1;
    }
    (at, None)
}

impl<'a> Nearness<'a> {
    /// Starts a walk over the label columns `ends`, which ascend.
    pub(crate) fn new(room: &CutSettings, ends: &'a [usize]) -> Self
        requires { IsNonDecreasing ends.now }
        ensures { result ≡ record { room = room.now; ends = ends.now } }
    {
        Nearness {
            room: *room,
            ends,
            passed: 0,
            column: 0,
        }
    }

    // Returns the first label column that isn't too far before `column`.
    fn end_ahead(&mut self, column: usize) -> Option<usize>
        ensures found { result ≡ end_ahead self.old.room.reach column self.old.ends }
        ensures same { self.new ≡ self.old }
    {
        let start = start_at(column, self.column, self.passed);
        let (passed, found) = passed_at(self.ends, self.room.reach, column, start);
        self.passed = passed;
        self.column = column;
        found
    }

    /// Returns whether a cell is near. The cell must have columns.
    pub(crate) fn is_near(&mut self, cell: &Cell) -> bool
        ensures near { result ≡ near_by self.old.room self.old.ends (cell_of cell.now) }
        ensures same { self.new ≡ self.old }
    {
        if self.ends.is_empty() {
            return has_room_in(&self.room, cell);
        }
        let reach = self.room.reach;
        match self.end_ahead(cell.from) {
            Some(end) => is_within_of(reach, cell, end),
            None => false,
        }
    }

    /// For a cell of one column: returns whether it is near. If it is, also returns the column, at most `len`, up to
    /// which the following cells are.
    pub(crate) fn turn_after(&mut self, column: usize, len: usize) -> (bool, usize)
        requires { column < len }
        ensures more { column < result.1 }
        ensures within { result.1 ≤ len }
        ensures alike { (x : ℕ) → column ≤ x → x < result.1 →
            near_by self.old.room self.old.ends (cell_at x) ≡ result.0 }
        ensures same { self.new ≡ self.old }
    {
        if self.ends.is_empty() {
            return turn_at(&self.room, column, len);
        }
        let reach = self.room.reach;
        match self.end_ahead(column) {
            Some(end) => turn_by(reach, end, column, len),
            None => (false, len),
        }
    }
}
