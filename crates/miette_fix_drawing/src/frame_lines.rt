//! The lines of a frame.

ghost use Rattle.std.specs.Prelude.{◌≡◌, ◌≤◌, ◌++◌, ℕ, List, drop, length, take, true, false, IfOk, OnOk};
ghost use Rattle.miette_fix_rows.specs.rules.Blocks.{bytes_of, line_texts};
ghost use Rattle.miette_fix_rows.specs.rules.DiffFrames.{DiffPosition as RuledStanding};
ghost use Rattle.miette_fix_rows.specs.rules.DiffFrames.{added_from, after_hunk, changed_lines, frames_from};
ghost use Rattle.miette_fix_rows.specs.rules.DiffFrames.{is_near_hunk};
ghost use Rattle.miette_fix_rows.specs.rules.DiffFrames.{kept_lines, past_kept, removed_from};
ghost use Rattle.miette_fix_rows.specs.rules.Hunks.{removed_lines};
ghost use Rattle.miette_fix_rows.specs.rules.DiffRows.{largest_number};
ghost use Rattle.miette_fix_rows.specs.laws.Frames.{past_lines};
ghost use Rattle.miette_fix_drawing.specs.steps.Framing.{IsFar};
ghost use Rattle.miette_fix_drawing.specs.views.Hunks.{hunk_of, hunks_of};
ghost use Rattle.miette_fix_drawing.specs.views.ShownLines.{lines_of_segment, lines_of_segments};
ghost use Rattle.miette_fix_drawing.specs.views.DiffPositions.{diff_position_of};

use crate::counting::{has_at_most_lines, len_of_first_lines};
use crate::diff_position::DiffPosition;
use crate::hunks::Hunk;
use crate::line_starts::PushResult;
use crate::segments::{DiffLineKind, Segment, measure_segment};
use miette_fix_rows::changes::Change;
use miette_lines::sums::sum;
use std::alloc::AllocError;

// Returns a segment of unchanged lines.
fn kept<'a>(lines: &'a [u8]) -> Segment<'a>
    ensures { lines_of_segment result ≡ kept_lines (line_texts lines.now) }
{
    Segment {
        kind: DiffLineKind::Kept,
        lines,
        others: &[],
        away: 0,
    }
}

// Appends the removed lines of changes.
fn push_removed<'a>(list: &mut Vec<Segment<'a>>, changes: &'a [Change<'a>]) -> PushResult
    ensures { OnOk result (lines_of_segments list.new.items ≡ lines_of_segments list.old.items
        ++ removed_from 0 changes.now) }
{
    let mut away = 0;
    for change in changes {
        let others = change.added();
        list.push(Segment {
            kind: DiffLineKind::Removed,
            lines: change.removed(),
            others,
            away,
        })?;
        away = sum(away, others.len())?;
    }
    Ok(())
}

// Returns the number of bytes of the removed lines.
fn removed_bytes(changes: &[Change<'_>]) -> Result<usize, AllocError>
    ensures { IfOk result (λ size. size ≡ bytes_of (removed_lines changes.now)) }
{
    let mut size = 0;
    for change in changes {
        size = sum(size, change.removed().len())?;
    }
    Ok(size)
}

// Appends the added lines of changes.
fn push_added<'a>(list: &mut Vec<Segment<'a>>, changes: &'a [Change<'a>]) -> PushResult
    ensures { OnOk result (lines_of_segments list.new.items ≡ lines_of_segments list.old.items
        ++ added_from (bytes_of (removed_lines changes.now)) changes.now) }
{
    let mut away = removed_bytes(changes)?;
    for change in changes {
        let others = change.removed();
        list.push(Segment {
            kind: DiffLineKind::Added,
            lines: change.added(),
            others,
            away,
        })?;
        away = away.saturating_sub(others.len());
    }
    Ok(())
}

/// Appends a hunk: its unchanged lines, then the removed and the added lines of its changes.
pub(crate) fn push_hunk<'a>(
    list: &mut Vec<Segment<'a>>,
    kept_before: &'a [u8],
    changes: &'a [Change<'a>],
) -> PushResult
    ensures { OnOk result (lines_of_segments list.new.items ≡ lines_of_segments list.old.items
        ++ (kept_lines (line_texts kept_before.now) ++ changed_lines changes.now)) }
{
    list.push(kept(kept_before))?;
    push_removed(list, changes)?;
    push_added(list, changes)
}

/// Returns the position after the segments and the largest line number in them.
#[tactic(auto, using(crate::proofs::Framing::past_of_segments, crate::proofs::Framing::largest_of_segments))]
pub(crate) fn measure_segments(
    at: &DiffPosition,
    list: &[Segment],
) -> Result<(DiffPosition, usize), AllocError>
    ensures behind { IfOk result (λ it.
        diff_position_of it.0 ≡ past_lines (diff_position_of at.now) (lines_of_segments list.now)) }
    ensures most { IfOk result (λ it. it.1 ≡ largest_number (diff_position_of at.now) (lines_of_segments list.now)) }
{
    let mut at = *at;
    let mut most = 0;
    for segment in list {
        let next = measure_segment(&at, segment, most)?;
        at = next.0;
        most = next.1;
    }
    Ok((at, most))
}

// Returns whether all lines between this hunk and the previous one are shown.
fn is_near_hunk(context: usize, hunk: &Hunk) -> bool
    ensures { result ≡ is_near_hunk context (hunk_of hunk.now) }
{
    let _size = hunk.kept.len();
    has_at_most_lines(hunk.kept, context.saturating_add(context))
}

/// Appends the hunks that continue the current frame. Returns how many there are.
#[tactic(auto, using(crate::proofs::Framing::near_lines, crate::proofs::Framing::near_standing))]
pub(crate) fn take_near<'a>(
    list: &mut Vec<Segment<'a>>,
    context: usize,
    hunks: &'a [Hunk<'a>],
) -> Result<usize, AllocError>
    ensures lines { IfOk result (λ taken. (after : List (List ℕ)) →
        lines_of_segments list.new.items ++ after_hunk context after (hunks_of (drop taken hunks.now))
        ≡ lines_of_segments list.old.items ++ after_hunk context after (hunks_of hunks.now)) }
    ensures frames { IfOk result (λ taken. (after : List (List ℕ)) → (at : RuledStanding) →
        frames_from context after true (past_lines at (lines_of_segments list.new.items))
        (hunks_of (drop taken hunks.now))
        ≡ frames_from context after true (past_lines at (lines_of_segments list.old.items)) (hunks_of hunks.now)) }
    ensures far { IfOk result (λ taken. IsFar context (hunks_of (drop taken hunks.now))) }
    ensures within { IfOk result (λ taken. taken ≤ length hunks.now) }
{
    for (i, hunk) in hunks.iter().enumerate() {
        if !is_near_hunk(context, hunk) {
            return Ok(i);
        }
        push_hunk(list, hunk.kept, hunk.changes)?;
    }
    Ok(hunks.len())
}

// Returns the unchanged lines that are shown after a change, at most `context` many.
fn first_kept_lines<'a>(context: usize, lines: &'a [u8]) -> Segment<'a>
    ensures { lines_of_segment result ≡ kept_lines (take context (line_texts lines.now)) }
{
    kept(&lines[..len_of_first_lines(lines, context)])
}

/// Returns the unchanged lines at the end of a frame.
pub(crate) fn lines_after<'a>(context: usize, rest: &[Hunk<'a>], after: &'a [u8]) -> Segment<'a>
    requires { IsFar context (hunks_of rest.now) }
    ensures { lines_of_segment result ≡ after_hunk context (line_texts after.now) (hunks_of rest.now) }
{
    match rest {
        [] => first_kept_lines(context, after),
        [hunk, ..] => first_kept_lines(context, hunk.kept),
    }
}

/// Returns the position after unchanged lines. `lines` and `bytes` are their numbers of lines and bytes.
pub(crate) fn past_kept(
    at: &DiffPosition,
    lines: usize,
    bytes: usize,
) -> Result<DiffPosition, AllocError>
    ensures { IfOk result (λ after. (kept : List (List ℕ)) → lines ≡ length kept → bytes ≡ bytes_of kept →
        diff_position_of after ≡ past_kept (diff_position_of at.now) kept) }
{
    Ok(DiffPosition {
        old_line: sum(at.old_line, lines)?,
        new_line: sum(at.new_line, lines)?,
        old_offset: sum(at.old_offset, bytes)?,
        new_offset: sum(at.new_offset, bytes)?,
    })
}
