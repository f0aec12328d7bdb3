//! The underlines of one-line labels: which columns each one covers.

ghost use Rattle.std.specs.Prelude.{◌≡◌, ◌+◌, ◌^◌, ◌<◌, [], ℕ, List, map, length, false, IfOk, MatchOption};
ghost use Rattle.std.specs.List.{All};
ghost use Rattle.miette_protocol.specs.views.Meaning.{Label};
ghost use Rattle.miette_snippet_rules.specs.rules.PrintedCells.{cells_width, first_column as first_of_cells};
ghost use Rattle.miette_snippet_rules.specs.rules.PrintedCells.{last_column as last_of_cells};
ghost use Rattle.miette_columns.specs.rules.Cells.{cells_from, characters};
ghost use Rattle.miette_snippet_rules.specs.rules.Underlines.{label_from, underline_from, underline_until};
ghost use Rattle.miette_snippet_rules.specs.rules.Underlines.{underline_pointer, marks};
ghost use Rattle.miette_snippet_rules.specs.rules.SnippetLayout.{text_of_cells};
ghost use Rattle.miette_labels.specs.views.ProgramLabels.{drawn_of};
ghost use Rattle.miette_columns.specs.rules.Widths.{width_of};
ghost use Rattle.miette_snippet_rules.specs.views.MadeUnderlines.{underline_of, HasOwnPointer};
ghost use Rattle.miette_snippet_rules.specs.steps.ColumnStops.{IsStop, IsStopFor, column_in, stops_at};
ghost use Rattle.miette_snippet_rules.specs.views.LineScans.{ComeFrom};

use crate::line_scan::{LineScan, pass_plain, scan_cells};
use crate::underlines::Underline;
use miette_columns::cells::{Cell, CellWalk, PlainCells};
use miette_columns::plain::plain_len;
use miette_labels::placed::PlacedLabel;
use miette_lines::lines::LineOfText;
use miette_lines::sums::sum;
use std::alloc::{AllocError, Global};
use std::marker::Model;

// The cells of a line's text from an offset on: a run of printable ASCII, then a walk over the rest.
#[derive(Drop)]
struct ColumnStop<'a> {
    offset: usize,
    plain: PlainCells,
    walk: CellWalk<'a>,
}

/// Maps offsets in a line's text to columns. Printable ASCII takes one column a byte, so it needs no walk. `plain` is
/// the ASCII text at the beginning of the line. Each stop holds further ASCII text and the walk after it.
#[derive(Drop)]
pub struct ColumnMap<'a> {
    plain: &'a [u8],
    start: usize,
    whole: CellWalk<'a>,
    stops: Vec<ColumnStop<'a>>,
    text_end: usize,
    width: usize,
}

impl<'a> Model for ColumnMap<'a> {
    ghost use Rattle.std.specs.Prelude.{◌++◌};
    ghost use Rattle.std.specs.List.{All};
    ghost use Rattle.miette_snippet_rules.specs.rules.Underlines.{MeasuredText};
    ghost use Rattle.miette_snippet_rules.specs.steps.ColumnStops.{IsStop};
    ghost use Rattle.miette_columns.specs.views.Printable.{plain_cells};

    ghost Value = { MeasuredText };

    ghost view = { λ c. record {
      cells = plain_cells c.start 0 c.plain.now ++ c.whole;
      text_end = c.text_end;
      width = c.width;
    } };

    ghost invariant = { λ c. All (IsStop c.whole) c.stops.items };
}

// How the column of an offset inside a character is rounded: down to this character's start, or up to the next one's.
#[derive(Clone, Copy)]
enum Rounding {
    Down,
    Up,
}

// Returns whether the cell's first column is the answer, if no earlier cell gives it.
#[inline(always)]
fn stops_at(rounding: Rounding, cell: &Cell, offset: usize) -> bool
    ensures { result ≡ stops_at rounding cell.now offset }
{
    match rounding {
        Rounding::Down => offset < cell.after,
        Rounding::Up => offset <= cell.start,
    }
}

// Returns the column of the offset, if one of these cells gives it.
#[inline(always)]
fn column_among(
    walk: CellWalk<'_>,
    rounding: Rounding,
    offset: usize,
) -> Result<Option<usize>, AllocError>
    ensures { IfOk result (λ found. (text_end width : ℕ) → MatchOption found
        (column_in rounding [] text_end width offset ≡ column_in rounding walk.entry text_end width offset)
        (λ column. column ≡ column_in rounding walk.entry text_end width offset)) }
{
    let mut walk = walk;
    while let Some(cell) = walk.next()? {
        if stops_at(rounding, &cell, offset) {
            return Ok(Some(cell.from));
        }
    }
    Ok(None)
}

// Returns the last stop at or before the offset. If there is none, returns a stop before all cells.
fn stop_to<'a>(whole: &CellWalk<'a>, stops: &[ColumnStop<'a>], offset: usize) -> ColumnStop<'a>
    requires { All (IsStop whole.now) stops.now }
    ensures { IsStopFor whole.now result offset }
{
    let passed = stops.partition_point(|stop| stop.offset <= offset);
    if passed > 0 && passed <= stops.len() {
        let stop = &stops[passed - 1];
        if stop.offset <= offset {
            return ColumnStop {
                offset: stop.offset,
                plain: stop.plain,
                walk: stop.walk.copy(),
            };
        }
    }
    ColumnStop {
        offset,
        plain: PlainCells {
            start: offset,
            from: 0,
            many: 0,
        },
        walk: whole.copy(),
    }
}

// Returns the stops of the text from a column on, and the width of the text.
fn stops_of<'a>(
    alloc: Global,
    walk: CellWalk<'a>,
    column: usize,
) -> Result<(Vec<ColumnStop<'a>>, usize), AllocError>
    requires { ComeFrom 0 walk }
    ensures stops { IfOk result (λ made. All (IsStop walk.entry) made.0.items) }
    ensures width { IfOk result (λ made. made.1 ≡ cells_width column walk.entry) }
{
    let mut stops = Vec::new(alloc);
    let mut passage = LineScan {
        walk,
        reached: 0,
        width: column,
    };
    while scan_cells(&mut passage)? {
        let offset = passage.reached;
        let plain = pass_plain(&mut passage)?;
        stops.push(ColumnStop {
            offset,
            plain,
            walk: passage.walk.copy(),
        })?;
    }
    Ok((stops, passage.width))
}

impl<'a> ColumnMap<'a> {
    /// Maps the offsets of this line's text, with tabs of `tab` columns. `AllocError` if allocation fails or the text
    /// has more columns than `usize::MAX`.
    pub fn new(
        alloc: Global,
        line: &LineOfText,
        text: &'a [u8],
        tab: usize,
    ) -> Result<Self, AllocError>
        requires { line.now.start + length text.now < 2 ^ 64 }
        ensures { IfOk result (λ columns. columns
            ≡ text_of_cells (cells_from width_of tab false line.now.start 0 (characters text.now)) line.now.text_end) }
    {
        let (plain, rest) = text.split_at(plain_len(text));
        let whole = CellWalk::from_column(rest, line.start + plain.len(), plain.len(), tab);
        let (stops, width) = stops_of(alloc, whole.copy(), plain.len())?;
        Ok(ColumnMap {
            plain,
            start: line.start,
            whole,
            stops,
            text_end: line.text_end,
            width,
        })
    }

    // Returns the column of an offset at the text's end or after it.
    fn column_at_end(&self, offset: usize) -> Result<usize, AllocError>
        ensures { IfOk result (λ column. column ≡ first_of_cells [] self.now.text_end self.now.width offset) }
    {
        if offset <= self.text_end {
            return Ok(self.width);
        }
        sum(self.width, 1)
    }

    // Returns the column of an offset, rounded as asked. `AllocError` if it exceeds `usize::MAX`.
    #[inline(always)]
    fn column_of(&self, rounding: Rounding, offset: usize) -> Result<usize, AllocError>
        ensures { IfOk result (λ column. column
            ≡ column_in rounding self.now.cells self.now.text_end self.now.width offset) }
    {
        let at = offset.saturating_sub(self.start);
        if at < self.plain.len() {
            return Ok(at);
        }
        let stop = stop_to(&self.whole, &self.stops, offset);
        let away = offset.saturating_sub(stop.plain.start);
        if away < stop.plain.many {
            return sum(stop.plain.from, away);
        }
        match column_among(stop.walk, rounding, offset)? {
            Some(column) => Ok(column),
            None => self.column_at_end(offset),
        }
    }

    /// Returns the column of an offset, rounded down to the start of a character. `AllocError` if it exceeds
    /// `usize::MAX`.
    pub fn first_column(&self, offset: usize) -> Result<usize, AllocError>
        ensures { IfOk result (λ column. column
            ≡ first_of_cells self.now.cells self.now.text_end self.now.width offset) }
    {
        self.column_of(Rounding::Down, offset)
    }

    /// Returns the column of an offset, rounded up to the start of a character. `AllocError` if it exceeds
    /// `usize::MAX`.
    pub fn last_column(&self, offset: usize) -> Result<usize, AllocError>
        ensures { IfOk result (λ column. column
            ≡ last_of_cells self.now.cells self.now.text_end self.now.width offset) }
    {
        self.column_of(Rounding::Up, offset)
    }

    /// Returns the column at which a label's underline begins, unless the previous underline ends later. That is the
    /// column of the label's first byte, or the column after the text for a label drawn there. `AllocError` as for
    /// `first_column`.
    pub(crate) fn label_column(&self, label: &PlacedLabel<'_>) -> Result<usize, AllocError>
        ensures { IfOk result (λ column. column ≡ label_from self.now (drawn_of label.now)) }
    {
        if label.after_text {
            return Ok(self.width);
        }
        self.first_column(label.start)
    }
}

// Returns the underline of a label, after an underline that ends at column `reached`.
fn next_underline<'a>(
    columns: &ColumnMap<'_>,
    label: &PlacedLabel<'a>,
    reached: usize,
) -> Result<Underline<'a>, AllocError>
    ensures from { IfOk result (λ mark. mark.from ≡ underline_from columns.now reached (drawn_of label.now)) }
    ensures until { IfOk result (λ mark. mark.until ≡ underline_until columns.now reached (drawn_of label.now)) }
    ensures pointer { IfOk result (λ mark. mark.pointer ≡ underline_pointer columns.now reached (drawn_of label.now)) }
    ensures label { IfOk result (λ mark. mark.label ≡ label.now) }
    ensures anchored { IfOk result HasOwnPointer }
{
    let from = columns.label_column(label)?.max(reached);
    let next = sum(from, 1)?;
    let until = if label.start == label.after {
        next
    } else {
        columns.last_column(label.after)?.max(next)
    };
    Ok(Underline {
        from,
        until,
        pointer: from + (until - from) / 2,
        label: *label,
    })
}

// Returns the underlines of labels that are sorted by offset.
fn underlines_in<'a>(
    alloc: Global,
    columns: &ColumnMap<'_>,
    placed: &[PlacedLabel<'a>],
) -> Result<Vec<Underline<'a>>, AllocError>
    ensures is { IfOk result (λ made.
        map underline_of made.items ≡ marks columns.now (map drawn_of placed.now)) }
    ensures anchored { IfOk result (λ made. All HasOwnPointer made.items) }
{
    let mut made = Vec::new(alloc);
    let mut reached = 0;
    for label in placed {
        let mark = next_underline(columns, label, reached)?;
        made.push(mark)?;
        reached = mark.until;
    }
    Ok(made)
}

/// Returns the underlines of the one-line labels on a line, sorted by offset. `text` is the line's text, `tab` the tab
/// width in columns. Each underline has at least one column. It begins at its label's first column, or where the
/// previous underline ends if that is later. `AllocError` if allocation fails or a column exceeds `usize::MAX`.
pub fn underlines_on<'a>(
    alloc: Global,
    line: &LineOfText,
    text: &[u8],
    tab: usize,
    one: &[PlacedLabel<'a>],
) -> Result<Vec<Underline<'a>>, AllocError>
    requires { line.now.start + length text.now < 2 ^ 64 }
    ensures is { IfOk result (λ made. map underline_of made.items
        ≡ marks (text_of_cells (cells_from width_of tab false line.now.start 0 (characters text.now)) line.now.text_end)
        (map drawn_of one.now)) }
    ensures anchored { IfOk result (λ made. All HasOwnPointer made.items) }
{
    let columns = ColumnMap::new(alloc, line, text, tab)?;
    underlines_in(alloc, &columns, one)
}
