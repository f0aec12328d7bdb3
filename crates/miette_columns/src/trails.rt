//! Runs of characters without width, for example combining marks and selectors, far from the next checkpoint. All
//! columns in such a run are equal, so no walk goes back before it.

ghost use Rattle.std.specs.Prelude.{◌≡◌, ◌<◌, ◌≤◌, ◌+◌, IfOk, IfSome, length, drop};
ghost use Rattle.std.specs.List.{All};
ghost use Rattle.miette_columns.specs.rules.Cells.{characters};
ghost use Rattle.miette_columns.specs.rules.Columns.{column};
ghost use Rattle.miette_columns.specs.steps.Checkpoints.{IsCheckpoint};
ghost use Rattle.miette_columns.specs.steps.ZeroWidthRuns.{is_zero_width, first_size, AreZeroWidth, IsZeroWidthRun};

use crate::cells::{char_width, decode_first_char};
use crate::checkpoints::{APART, Checkpoint, column_after, overlap_text, start};
use miette_lines::sums::sum;
use std::alloc::{AllocError, Global};

/// A range of bytes whose characters have no width: the column after each of them, and the sum of the widths of the
/// characters before it, which is the column inside it.
#[derive(Clone, Copy, Drop)]
pub(crate) struct ZeroWidthRun {
    pub(crate) bytes: usize,
    pub(crate) until: usize,
    pub(crate) column: usize,
    pub(crate) widths: usize,
}

// Runs are searched after this many bytes without a checkpoint.
const FAR: usize = 4 * APART;

// A run is stored if it has at least this share of the bytes since the previous checkpoint.
const PART: usize = 8;

/// Whether a character has no width and isn't a control character.
fn is_zero_width(character: char) -> bool
    ensures { result ≡ is_zero_width character }
{
    character as u32 > 0xa0 && char_width(character) == 0
}

// Returns the end of the characters without width that begin at an offset.
fn zero_width_end(text: &[u8], from: usize) -> usize
    requires { from ≤ length text.now }
    ensures { AreZeroWidth text.now from result }
{
    let mut bytes = from;
    while bytes < text.len() {
        let (code, size) = decode_first_char(&text[bytes..]);
        if !is_zero_width(code) {
            return bytes;
        }
        bytes += size;
    }
    bytes
}

// Returns the run without its first character.
fn after_first(text: &[u8], trail: ZeroWidthRun) -> ZeroWidthRun
    requires trail { IsZeroWidthRun text.now trail }
    requires some { trail.bytes < trail.until }
    ensures trail { IsZeroWidthRun text.now result }
    ensures bytes { result.bytes ≡ trail.bytes + first_size (characters (drop trail.bytes text.now)) }
    ensures less { trail.bytes < result.bytes }
    ensures until { result.until ≡ trail.until }
{
    let (_, size) = decode_first_char(&text[trail.bytes..]);
    ZeroWidthRun {
        bytes: trail.bytes + size,
        ..trail
    }
}

// Appends a run, split into short parts.
fn push_parts(
    trails: &mut Vec<ZeroWidthRun>,
    text: &[u8],
    whole: ZeroWidthRun,
) -> Result<(), AllocError>
    requires trail { IsZeroWidthRun text.now whole }
    requires trails { All (IsZeroWidthRun text.now) trails.old.items }
    ensures { All (IsZeroWidthRun text.now) trails.new.items }
{
    let mut trail = whole;
    let mut next = whole.bytes;
    while trail.bytes < trail.until {
        if trail.bytes >= next {
            trails.push(trail)?;
            next = trail.bytes.saturating_add(APART);
        }
        trail = after_first(text, trail);
    }
    Ok(())
}

// Appends the runs between a checkpoint and `end` that have a sufficient share of the bytes.
fn push_trails(
    trails: &mut Vec<ZeroWidthRun>,
    alloc: Global,
    text: &[u8],
    from: Checkpoint,
    end: usize,
) -> Result<(), AllocError>
    requires from { IsCheckpoint text.now from }
    requires trails { All (IsZeroWidthRun text.now) trails.old.items }
    ensures { All (IsZeroWidthRun text.now) trails.new.items }
{
    let mut over = overlap_text(alloc, from.overlap)?;
    let mut widths = from.widths;
    let mut bytes = from.bytes;
    let mut looked = bytes;
    while bytes < text.len() && bytes < end {
        let (code, size) = decode_first_char(&text[bytes..]);
        over.push(code)?;
        let wider = sum(widths, char_width(code))?;
        widths = wider;
        bytes += size;
        if is_zero_width(code) && looked <= bytes {
            let until = zero_width_end(text, bytes);
            looked = until;
            if until - bytes >= APART && until - bytes >= (bytes - from.bytes) / PART {
                let column = column_after(from, over.as_str())?;
                let trail = ZeroWidthRun {
                    bytes,
                    until,
                    column,
                    widths,
                };
                push_parts(trails, text, trail)?;
            }
        }
    }
    Ok(())
}

/// Returns the runs of a text that are far from checkpoints.
pub(crate) fn trails(
    alloc: Global,
    text: &[u8],
    checkpoints: &[Checkpoint],
) -> Result<Vec<ZeroWidthRun>, AllocError>
    requires { All (IsCheckpoint text.now) checkpoints.now }
    ensures { IfOk result (λ trails. All (IsZeroWidthRun text.now) trails.items) }
{
    let mut trails = Vec::new(alloc);
    let mut from = start(text);
    for place in checkpoints {
        if place.bytes.saturating_sub(from.bytes) >= FAR {
            push_trails(&mut trails, alloc, text, from, place.bytes)?;
        }
        from = *place;
    }
    if text.len().saturating_sub(from.bytes) >= FAR {
        push_trails(&mut trails, alloc, text, from, text.len())?;
    }
    Ok(trails)
}

/// Returns the run in which the first `bytes` bytes end, if there is one, by binary search.
pub(crate) fn zero_width_run_at(
    text: &[u8],
    trails: &[ZeroWidthRun],
    bytes: usize,
) -> Option<ZeroWidthRun>
    requires { All (IsZeroWidthRun text.now) trails.now }
    ensures { IfSome result (λ trail. IsZeroWidthRun text.now trail × ((trail.bytes ≤ bytes) × (bytes ≤ trail.until))) }
{
    let found = trails.partition_point(|trail| trail.bytes <= bytes);
    if found == 0 {
        return None;
    }
    let trail = trails[found - 1];
    if trail.bytes <= bytes && bytes <= trail.until {
        Some(trail)
    } else {
        None
    }
}

/// Returns the column after `bytes` bytes that end in a run.
pub(crate) fn column_in(text: &[u8], whole: ZeroWidthRun, bytes: usize) -> usize
    requires trail { IsZeroWidthRun text.now whole }
    requires before { whole.bytes ≤ bytes }
    requires within { bytes ≤ whole.until }
    ensures { result ≡ column bytes (characters text.now) }
{
    let mut trail = whole;
    while trail.bytes < bytes {
        let next = after_first(text, trail);
        if bytes < next.bytes {
            return trail.widths;
        }
        trail = next;
    }
    trail.column
}
