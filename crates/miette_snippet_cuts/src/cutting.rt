//! Cutting long lines: into which parts, and where the underlines are in the shortened row.

ghost use Rattle.std.specs.Prelude.{◌≡◌, ◌+◌, ◌^◌, ◌<◌, List, Option, Some, map, length, nat_lt, IfOk};
ghost use Rattle.std.specs.Option.{option_map};
ghost use Rattle.miette_snippet_rules.specs.rules.PrintedCells.{cells_width};
ghost use Rattle.miette_snippet_rules.specs.rules.CutLines.{cut_line, cut_line_by, limit_of, reach_at, row_underlines};
ghost use Rattle.miette_snippet_rules.specs.rules.CutLines.{LinePart as RuledStretch};
ghost use Rattle.miette_snippet_rules.specs.views.Cuts.{measure};
ghost use Rattle.miette_snippet_rules.specs.views.MadeUnderlines.{underline_of};
ghost use Rattle.miette_snippet_rules.specs.views.LineTexts.{text_cells};

pub use crate::nearness::CutSettings;
use crate::reach::{cut_around, cut_in, cut_settings_for};
use crate::row_columns::move_underlines;
use miette_columns::cells::CellWalk;
use miette_snippet_rules::line_bytes::LineText;
use miette_snippet_rules::line_part::LineCut;
use miette_snippet_rules::line_scan::{LineScan, pass_plain, scan_cells};
use miette_snippet_rules::underlines::Underline;
use std::alloc::{AllocError, Global};

// The smallest limit. Smaller ones count as this, because a shorter row shows nothing useful.
const FEWEST: usize = 8;

// Returns the width of a line in columns.
fn columns_of_line(walk: CellWalk<'_>) -> Result<usize, AllocError>
    ensures { IfOk result (λ width. width ≡ cells_width 0 walk.entry) }
{
    let mut passage = LineScan {
        walk,
        reached: 0,
        width: 0,
    };
    let _first = pass_plain(&mut passage)?;
    while scan_cells(&mut passage)? {
        let _next = pass_plain(&mut passage)?;
    }
    Ok(passage.width)
}

// Returns the parts of a line if it exceeds the limit. `ends` are its label columns.
fn cut_within(
    alloc: Global,
    text: &LineText,
    ends: &[usize],
    limit: usize,
    dots: usize,
) -> Result<LineCut, AllocError>
    requires { text.now.start + length text.now.bytes.now < 2 ^ 64 }
    ensures { IfOk result (λ cut. option_map (λ made. made.items) cut
        ≡ option_map (map measure) (cut_line dots (Some limit) ends.now (text_cells text.now))) }
{
    let walk = CellWalk::new(text.bytes, text.start, text.tab);
    let width = columns_of_line(walk.copy())?;
    let most = FEWEST.max(limit);
    if most < width {
        let mut ascending = Vec::from_slice(alloc, ends)?;
        ascending.sort_unstable();
        let made = cut_around(alloc, walk, most, dots, &ascending)?;
        return Ok(Some(made));
    }
    Ok(None)
}

/// Cuts a line around its label columns (`ends`) if it has more than `most` columns. `dots` is the width of the dots in
/// columns. Returns `None` if the line fits or there is no limit. `AllocError` if allocation fails, or if a column or a
/// count exceeds `usize::MAX`.
pub fn cut_long_line(
    alloc: Global,
    text: &LineText,
    ends: &[usize],
    most: Option<usize>,
    dots: usize,
) -> Result<LineCut, AllocError>
    requires { text.now.start + length text.now.bytes.now < 2 ^ 64 }
    ensures { IfOk result (λ cut. option_map (λ made. made.items) cut
        ≡ option_map (map measure) (cut_line dots most ends.now (text_cells text.now))) }
{
    let Some(limit) = most else {
        return Ok(None);
    };
    cut_within(alloc, text, ends, limit, dots)
}

/// Returns whether a line has more columns than the limit. Limits below 8 count as 8. `AllocError` if a column exceeds
/// `usize::MAX`.
pub fn exceeds_limit(text: &LineText, limit: usize) -> Result<bool, AllocError>
    requires { text.now.start + length text.now.bytes.now < 2 ^ 64 }
    ensures { IfOk result (λ wide. wide ≡ nat_lt (limit_of limit) (cells_width 0 (text_cells text.now))) }
{
    let walk = CellWalk::new(text.bytes, text.start, text.tab);
    let width = columns_of_line(walk)?;
    let most = FEWEST.max(limit);
    Ok(most < width)
}

/// Returns how many columns around the label columns (`ends`) are shown: as many as fit into `limit` columns. `dots` is
/// the width of the dots. Limits below 8 count as 8. `AllocError` if allocation fails, or if a column or a count
/// exceeds `usize::MAX`.
pub fn largest_reach(
    alloc: Global,
    text: &LineText,
    ends: &[usize],
    limit: usize,
    dots: usize,
) -> Result<usize, AllocError>
    requires { text.now.start + length text.now.bytes.now < 2 ^ 64 }
    ensures { IfOk result (λ reach. reach ≡ reach_at (limit_of limit) dots ends.now (text_cells text.now)) }
{
    let walk = CellWalk::new(text.bytes, text.start, text.tab);
    let most = FEWEST.max(limit);
    let mut ascending = Vec::from_slice(alloc, ends)?;
    ascending.sort_unstable();
    let room = cut_settings_for(&walk, most, dots, &ascending)?;
    Ok(room.reach)
}

/// Cuts a line around its label columns (`ends`) by the given reach if it exceeds the limit. `AllocError` if allocation
/// fails, or if a column or a count exceeds `usize::MAX`.
pub fn cut_line_with(
    alloc: Global,
    text: &LineText,
    ends: &[usize],
    room: &CutSettings,
) -> Result<LineCut, AllocError>
    requires { text.now.start + length text.now.bytes.now < 2 ^ 64 }
    ensures { IfOk result (λ cut. option_map (λ made. made.items) cut ≡ option_map (map measure)
        (cut_line_by room.now.dots room.now.limit room.now.reach ends.now (text_cells text.now))) }
{
    let walk = CellWalk::new(text.bytes, text.start, text.tab);
    let width = columns_of_line(walk.copy())?;
    let most = FEWEST.max(room.limit);
    if width <= most {
        return Ok(None);
    }
    let mut ascending = Vec::from_slice(alloc, ends)?;
    ascending.sort_unstable();
    let own = CutSettings {
        limit: most,
        dots: room.dots,
        reach: room.reach,
    };
    let made = cut_in(alloc, walk, &own, &ascending)?;
    Ok(Some(made))
}

/// Moves the underlines of a whole line to the columns of its shortened row. `dots` is the width of the dots in
/// columns. `AllocError` if allocation fails or a column exceeds `usize::MAX`.
pub fn underlines_in_row<'a>(
    alloc: Global,
    cut: &LineCut,
    marks: Vec<Underline<'a>>,
    dots: usize,
) -> Result<Vec<Underline<'a>>, AllocError>
    ensures { IfOk result (λ moved. (ruled : Option (List RuledStretch)) →
        option_map (λ made. made.items) cut.now ≡ option_map (map measure) ruled →
        map underline_of moved.items ≡ row_underlines dots ruled (map underline_of marks.entry.items)) }
{
    match cut {
        Some(cut) => move_underlines(alloc, cut, &marks, dots),
        None => Ok(marks),
    }
}
