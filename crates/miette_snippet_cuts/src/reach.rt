//! How far around its label columns a cut line is shown: as far as the row fits into the limit.

ghost use Rattle.std.specs.Prelude.{◌≡◌, ◌-◌, ◌<◌, map, length, true, false, IfOk};
ghost use Rattle.std.specs.List.Sorted.{IsNonDecreasing};
ghost use Rattle.miette_snippet_rules.specs.rules.CutLines.{cut_to, reach_at, reach_of, line_parts, with_short_parts};
ghost use Rattle.miette_snippet_rules.specs.views.Cuts.{measure};
ghost use Rattle.miette_snippet_cuts.specs.steps.LineParts.{made_with_short};
ghost use Rattle.miette_snippet_cuts.specs.steps.Nearness.{near_by};
ghost use Rattle.miette_snippet_cuts.specs.steps.Windows.{StandFrom};

use crate::counting::fits;
use crate::line_part::{push_line_part, show_if_short};
use crate::line_split::split_line;
use crate::nearness::CutSettings;
use crate::window::window_around;
use miette_columns::cells::CellWalk;
use miette_snippet_rules::line_part::LinePart;
use std::alloc::{AllocError, Global};

// Shows each part that is no wider than the dots, and joins adjacent shown parts.
fn join_short(
    alloc: Global,
    line_parts: &[LinePart],
    dots: usize,
) -> Result<Vec<LinePart>, AllocError>
    ensures { IfOk result (λ made. made.items ≡ made_with_short dots line_parts.now) }
{
    let mut made = Vec::new(alloc);
    let Some((first, later)) = line_parts.split_first() else {
        return Ok(made);
    };
    let mut reached = show_if_short(first, dots);
    for part in later {
        let next = show_if_short(part, dots);
        push_line_part(&mut made, &mut reached, next)?;
    }
    made.push(reached)?;
    Ok(made)
}

/// Cuts a line by the given reach. `ends` are its label columns, ascending.
pub(crate) fn cut_in(
    alloc: Global,
    walk: CellWalk<'_>,
    room: &CutSettings,
    ends: &[usize],
) -> Result<Vec<LinePart>, AllocError>
    requires { IsNonDecreasing ends.now }
    ensures { IfOk result (λ made. made.items
        ≡ map measure (with_short_parts room.now.dots (line_parts (near_by room.now ends.now) false walk.entry))) }
{
    let near = split_line(alloc, walk, room, ends)?;
    join_short(alloc, &near, room.dots)
}

// One step of a binary search: halves the bounds, by whether the number between them is enough.
fn narrowed(low: usize, high: usize, reach: usize, enough: bool) -> (usize, usize)
    ensures yes { enough ≡ true → (result.0 ≡ reach) × (result.1 ≡ high) }
    ensures no { enough ≡ false → (result.0 ≡ low) × (result.1 ≡ reach - 1) }
{
    if enough {
        (reach, high)
    } else {
        (low, reach.saturating_sub(1))
    }
}

// Returns the largest reach with which the row fits into the limit. A larger reach shows more, so a binary search finds
// it. `ends` are the label columns, ascending.
fn reach_in(
    walk: &CellWalk<'_>,
    limit: usize,
    dots: usize,
    ends: &[usize],
) -> Result<usize, AllocError>
    requires stands { StandFrom 0 walk.now }
    requires ascending { IsNonDecreasing ends.now }
    requires some { 0 < length ends.now }
    ensures { IfOk result (λ reach. reach ≡ reach_of limit dots ends.now walk.now) }
{
    let window = window_around(walk, limit, ends)?;
    let mut low: usize = 0;
    let mut high = limit;
    while low < high {
        let reach = high - (high - low) / 2;
        let room = CutSettings { limit, dots, reach };
        let enough = fits(&window, &room, ends)?;
        let (from, to) = narrowed(low, high, reach, enough);
        low = from;
        high = to;
    }
    Ok(low)
}

/// Returns the widths by which a line is cut to this limit. `ends` are the label columns, ascending.
pub(crate) fn cut_settings_for(
    walk: &CellWalk<'_>,
    limit: usize,
    dots: usize,
    ends: &[usize],
) -> Result<CutSettings, AllocError>
    requires stands { StandFrom 0 walk.now }
    requires ascending { IsNonDecreasing ends.now }
    ensures limit { IfOk result (λ room. room.limit ≡ limit) }
    ensures dots { IfOk result (λ room. room.dots ≡ dots) }
    ensures reach { IfOk result (λ room. room.reach ≡ reach_at limit dots ends.now walk.now) }
{
    if ends.is_empty() {
        return Ok(CutSettings {
            limit,
            dots,
            reach: limit,
        });
    }
    let reach = reach_in(walk, limit, dots, ends)?;
    Ok(CutSettings { limit, dots, reach })
}

/// Cuts a line that has more columns than the limit. `ends` are its label columns, ascending. `AllocError` if
/// allocation fails, or if a column or a count exceeds `usize::MAX`.
pub(crate) fn cut_around(
    alloc: Global,
    walk: CellWalk<'_>,
    limit: usize,
    dots: usize,
    ends: &[usize],
) -> Result<Vec<LinePart>, AllocError>
    requires stands { StandFrom 0 walk }
    requires ascending { IsNonDecreasing ends.now }
    ensures { IfOk result (λ made. made.items ≡ map measure (cut_to limit dots ends.now walk.entry)) }
{
    let room = cut_settings_for(&walk, limit, dots, ends)?;
    cut_in(alloc, walk, &room, ends)
}
