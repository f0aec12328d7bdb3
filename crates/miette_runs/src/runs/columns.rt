//! Widths of characters and runs, in columns.

ghost use Rattle.std.specs.Prelude.{◌≡◌, IfOk};
ghost use Rattle.miette_runs.specs.rules.Cells.{printed_columns, width};
ghost use Rattle.miette_runs.specs.views.Interleaving.{interleaving};

use crate::runs::RunsSlice;
use miette_lines::sums::sum;
use std::alloc::AllocError;
use unicode_width::UnicodeWidthChar;

/// Returns the width of a character in columns.
#[inline]
pub fn char_columns(c: char) -> usize
    ensures { result ≡ width c }
{
    if ' ' <= c && c < '\u{7F}' {
        1
    } else {
        c.width().unwrap_or(0)
    }
}

/// Returns the width of runs in columns.
///
/// # Errors
/// `AllocError` if the width exceeds `usize::MAX`.
pub fn token_columns(runs: RunsSlice<'_>) -> Result<usize, AllocError>
    ensures { IfOk result (λ n. n ≡ printed_columns (interleaving 0 runs.entry.codes.now runs.entry.tags.now)) }
{
    let mut total = 0;
    for code in runs.codes {
        total = sum(total, char_columns(*code))?;
    }
    Ok(total)
}
