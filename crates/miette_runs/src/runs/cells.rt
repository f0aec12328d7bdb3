//! Appends characters and signs to a sink.

ghost use Rattle.std.specs.Prelude.{◌≡◌, ◌≤◌, ◌++◌, IfOk, OnOk, drop, length};
ghost use Rattle.miette_runs.specs.rules.Cells.{piece_text};
ghost use Rattle.miette_runs.specs.rules.Sequences.{spell};
ghost use Rattle.miette_runs.specs.views.Interleaving.{beyond, cells_at, left_at, tags_spelled, upto, interleaving};

use crate::runs::RunsSlice;
use crate::runs::codes::{Characters, Codes};
use crate::runs::sign::Tag;
use crate::runs::sink::Sink;
use crate::runs::tags::count_tags_before;
use std::alloc::AllocError;

/// Appends characters with the signs before them. `at` is the index of the first character. Returns the number of
/// signs.
///
/// # Errors
/// `AllocError` if allocation fails.
pub fn push_cells<S: Sink, C: Codes>(
    out: &mut S,
    at: usize,
    codes: C,
    tags: &[Tag],
) -> Result<usize, AllocError>
    ensures text { OnOk result (S.written out.new
        ≡ S.written out.old ++ piece_text (cells_at at (C.codes codes) tags.now)) }
    ensures left { IfOk result (λ n. drop n tags.now ≡ left_at at (C.codes codes) tags.now) }
    ensures within { IfOk result (λ n. n ≤ length tags.now) }
{
    let many = codes.count();
    if many == 0 {
        return Ok(0);
    }
    let mut place = at;
    let mut start: usize = 0;
    for (n, tag) in tags.iter().enumerate() {
        let gap = tag.at.saturating_sub(place);
        let rest = codes.from(start);
        let left = rest.count();
        if left <= gap {
            rest.push_to(out)?;
            return Ok(n);
        }
        rest.front(gap).push_to(out)?;
        out.push_sign(&tag.sign)?;
        start += gap;
        place += gap;
    }
    codes.from(start).push_to(out)?;
    Ok(tags.len())
}

/// Appends signs.
///
/// # Errors
/// `AllocError` if allocation fails.
pub fn push_tags<S: Sink>(out: &mut S, tags: &[Tag]) -> Result<(), AllocError>
    ensures { OnOk result (S.written out.new ≡ S.written out.old ++ tags_spelled tags.now) }
{
    for tag in tags {
        out.push_sign(&tag.sign)?;
    }
    Ok(())
}

/// Appends the signs before the character at an index. Returns the number of signs.
///
/// # Errors
/// `AllocError` if allocation fails.
pub fn push_signs<S: Sink>(out: &mut S, at: usize, tags: &[Tag]) -> Result<usize, AllocError>
    ensures text { OnOk result (S.written out.new ≡ S.written out.old ++ tags_spelled (upto at tags.now)) }
    ensures left { IfOk result (λ n. drop n tags.now ≡ beyond at tags.now) }
    ensures within { IfOk result (λ n. n ≤ length tags.now) }
{
    let n = count_tags_before(at, tags);
    push_tags(out, &tags[..n])?;
    Ok(n)
}

/// Appends characters and signs.
///
/// # Errors
/// `AllocError` if allocation fails.
pub fn push_runs_slice<S: Sink>(out: &mut S, runs: RunsSlice<'_>) -> Result<(), AllocError>
    ensures { OnOk result (S.written out.new ≡ S.written out.old
        ++ spell (interleaving 0 runs.entry.codes.now runs.entry.tags.now)) }
{
    let characters = Characters { list: runs.codes };
    let n = push_cells(out, 0, characters, runs.tags)?;
    push_tags(out, &runs.tags[n..])
}
