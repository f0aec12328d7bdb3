//! Checkpoints of a text. A walk over its characters may begin at any of them, so a column far into the text is found
//! quickly.

ghost use Rattle.std.specs.Prelude.{◌≡◌, ◌<◌, ◌≤◌, ◌+◌, ◌-◌, false, chars, string_bytes, IfOk, IfSome};
ghost use Rattle.std.specs.List.{All};
ghost use Rattle.unicode_width.specs.Width.{str_width};
ghost use Rattle.miette_columns.specs.steps.Checkpoints.{IsCheckpoint, overlap_text};

use crate::cells::{char_width, decode_first_char};
use crate::overlap::Overlap;
use crate::split_points::{is_indicator, overlap_between};
use miette_lines::sums::sum;
use std::alloc::{AllocError, Global};
use unicode_width::UnicodeWidthStr;

/// A checkpoint: the number of bytes before it, their width, and the sum of the widths of their characters.
#[derive(Clone, Copy)]
pub(crate) struct Checkpoint {
    pub(crate) bytes: usize,
    pub(crate) column: usize,
    pub(crate) widths: usize,
    /// The characters that a walk begins with, and their width, which is counted twice.
    pub(crate) overlap: Overlap,
    pub(crate) twice: usize,
}

// Where a walk stopped: the number of bytes before, the sum of the widths of their characters, and the overlap.
#[derive(Clone, Copy)]
struct WalkStop {
    bytes: usize,
    widths: usize,
    overlap: Overlap,
}

/// The minimal distance of two checkpoints, in bytes.
pub(crate) const APART: usize = 64;

/// Returns the checkpoint at the start of a text.
pub(crate) fn start(text: &[u8]) -> Checkpoint
    ensures place { IsCheckpoint text.now result }
    ensures first { result.bytes ≡ 0 }
{
    Checkpoint {
        bytes: 0,
        column: 0,
        widths: 0,
        overlap: Overlap::Nothing,
        twice: 0,
    }
}

/// Returns the characters that a walk from a checkpoint begins with.
#[tactic(auto, using(crate::proofs::Columning::none_held_text))]
pub(crate) fn overlap_text(alloc: Global, first: Overlap) -> Result<String, AllocError>
    ensures { IfOk result (λ text. chars (string_bytes text) ≡ overlap_text first) }
{
    let mut text = String::new(alloc);
    match first {
        Overlap::Nothing => {}
        Overlap::One(character) => text.push(character)?,
        Overlap::Selected(emoji) => {
            text.push(emoji)?;
            text.push('\u{fe0f}')?;
        }
    }
    Ok(text)
}

/// Returns the column after a checkpoint and a text that begins with the overlap. Returns `AllocError` if it exceeds
/// `usize::MAX`.
pub(crate) fn column_after(from: Checkpoint, text: &str) -> Result<usize, AllocError>
    ensures { IfOk result (λ column. column ≡ (from.column + str_width false (chars text.now)) - from.twice) }
{
    let both = sum(from.column, text.width())?;
    Ok(both.saturating_sub(from.twice))
}

// Returns the checkpoint where a walk from `from` stopped, having passed the text `over`.
fn checkpoint_at(
    alloc: Global,
    from: Checkpoint,
    over: &str,
    stop: WalkStop,
) -> Result<Checkpoint, AllocError>
    ensures bytes { IfOk result (λ place. place.bytes ≡ stop.bytes) }
    ensures column { IfOk result (λ place. place.column
        ≡ (from.column + str_width false (chars over.now)) - from.twice) }
    ensures widths { IfOk result (λ place. place.widths ≡ stop.widths) }
    ensures overlap { IfOk result (λ place. place.overlap ≡ stop.overlap) }
    ensures twice { IfOk result (λ place. place.twice ≡ str_width false (overlap_text stop.overlap)) }
{
    let column = column_after(from, over)?;
    let text = overlap_text(alloc, stop.overlap)?;
    let twice = text.as_str().width();
    Ok(Checkpoint {
        bytes: stop.bytes,
        column,
        widths: stop.widths,
        overlap: stop.overlap,
        twice,
    })
}

// Returns the next checkpoint, if there is one.
fn next_checkpoint(
    alloc: Global,
    text: &[u8],
    from: Checkpoint,
) -> Result<Option<Checkpoint>, AllocError>
    requires { IsCheckpoint text.now from }
    ensures { IfOk result (λ next. IfSome next (λ place. IsCheckpoint text.now place × (from.bytes < place.bytes))) }
{
    let mut over = overlap_text(alloc, from.overlap)?;
    let mut before = '\0';
    let mut last = '\0';
    let mut is_half = false;
    let mut widths = from.widths;
    let mut bytes = from.bytes;
    while bytes < text.len() {
        let (code, size) = decode_first_char(&text[bytes..]);
        if bytes - from.bytes >= APART {
            if let Some(overlap) = overlap_between(before, last, is_half, code) {
                let stop = WalkStop {
                    bytes,
                    widths,
                    overlap,
                };
                let place = checkpoint_at(alloc, from, over.as_str(), stop)?;
                return Ok(Some(place));
            }
        }
        over.push(code)?;
        let wider = sum(widths, char_width(code))?;
        is_half = is_indicator(code) && !is_half;
        before = last;
        last = code;
        widths = wider;
        bytes += size;
    }
    Ok(None)
}

/// Returns the checkpoints of a text, in order. Each is at the first possible split after a minimal distance.
pub(crate) fn checkpoints(alloc: Global, text: &[u8]) -> Result<Vec<Checkpoint>, AllocError>
    ensures { IfOk result (λ checkpoints. All (IsCheckpoint text.now) checkpoints.items) }
{
    let mut checkpoints = Vec::new(alloc);
    let mut from = start(text);
    while let Some(place) = next_checkpoint(alloc, text, from)? {
        checkpoints.push(place)?;
        from = place;
    }
    Ok(checkpoints)
}

/// Returns the last checkpoint within the first `bytes` bytes, by binary search.
pub(crate) fn checkpoint_before(text: &[u8], checkpoints: &[Checkpoint], bytes: usize) -> Checkpoint
    requires { All (IsCheckpoint text.now) checkpoints.now }
    ensures place { IsCheckpoint text.now result }
    ensures before { result.bytes ≤ bytes }
{
    let mut found = start(text);
    let mut low = 0;
    let mut high = checkpoints.len();
    while low < high {
        let middle = low + (high - low) / 2;
        let place = checkpoints[middle];
        if place.bytes <= bytes {
            found = place;
            low = middle + 1;
        } else {
            high = middle;
        }
    }
    found
}
