//! Sweeps over the labels of a snippet, line by line.

ghost use Rattle.std.specs.Prelude.{◌≡◌, ◌+◌, ◌-◌, ◌<◌, ◌≤◌, ◌∷◌, ◌^◌, drop, length, OnOk};
ghost use Rattle.miette_labels.specs.views.Sweeping.{IsAt, AreSorted};
ghost use Rattle.miette_lines.specs.rules.Lines.{lines_from};
ghost use Rattle.miette_lines.specs.views.Walking.{line_of_text};

use crate::placed::PlacedLabel;
use crate::sweep::Sweep;
use miette_lines::lines::{LineOfText, first_line};
use std::alloc::AllocError;

/// Returns the line that begins `at` bytes into these bytes. The first byte has the offset `start`.
pub fn line_at(bytes: &[u8], start: usize, at: usize) -> LineOfText
    requires inside { at < length bytes.now }
    requires small { start + length bytes.now < 2 ^ 64 }
    ensures parted { lines_from (start + at) (drop at bytes.now)
        ≡ line_of_text result ∷ lines_from result.end (drop (result.end - start) bytes.now) }
    ensures from { result.start ≡ start + at }
    ensures text { result.start ≤ result.text_end }
    ensures ending { result.text_end ≤ result.end }
    ensures some { result.start < result.end }
    ensures to { result.end ≤ start + length bytes.now }
{
    first_line(&bytes[at..], start + at)
}

/// Advances the sweep over lines whose labels aren't needed. Returns `AllocError` if allocation fails; the position of
/// the sweep is then unspecified.
pub fn skip_lines<'a>(
    labels: &[PlacedLabel<'a>],
    from: usize,
    to: usize,
    sweep: &mut Sweep<'a>,
) -> Result<(), AllocError>
    requires sorted { AreSorted labels.now }
    requires order { from ≤ to }
    requires at { IsAt labels.now from sweep.old.next sweep.old.running.items }
    ensures { OnOk result (IsAt labels.now to sweep.new.next sweep.new.running.items) }
{
    if to <= from {
        return Ok(());
    }
    let skipped = LineOfText {
        start: from,
        text_end: to,
        end: to,
    };
    sweep.enter(labels, &skipped)?;
    sweep.leave(to);
    Ok(())
}
