//! Finds the columns of a text's bytes quickly, for many queries.

ghost use Rattle.std.specs.Prelude.{◌≡◌, ◌≤◌, IfOk};
ghost use Rattle.miette_columns.specs.rules.Cells.{characters};
ghost use Rattle.miette_columns.specs.rules.Columns.{column};
ghost use Rattle.miette_columns.specs.steps.Checkpoints.{IsCheckpoint};

use crate::cells::{char_width, decode_first_char};
use crate::checkpoints::{Checkpoint, checkpoint_before, checkpoints, column_after, overlap_text};
use crate::plain::all_printable;
use crate::trails::{ZeroWidthRun, column_in, trails, zero_width_run_at};
use miette_lines::sums::sum;
use std::alloc::{AllocError, Global};
use std::marker::Model;

/// A text with what is needed to find columns: whether it is printable ASCII, checkpoints from which a walk can begin,
/// and runs of zero-width characters in which no walk is needed.
#[derive(Drop)]
pub struct TextColumns<'a> {
    text: &'a [u8],
    is_plain: bool,
    checkpoints: Vec<Checkpoint>,
    trails: Vec<ZeroWidthRun>,
}

/// In contracts it is the bytes of the text.
impl<'a> Model for TextColumns<'a> {
    ghost use Rattle.std.specs.Prelude.{ℕ, ◌≡◌, List};
    ghost use Rattle.std.specs.List.{All, list_all};
    ghost use Rattle.miette_columns.specs.views.Printable.{is_printable};
    ghost use Rattle.miette_columns.specs.steps.Checkpoints.{IsCheckpoint};
    ghost use Rattle.miette_columns.specs.steps.ZeroWidthRuns.{IsZeroWidthRun};

    ghost Value = { List ℕ };

    ghost view = { λ it. it.text.now };

    ghost invariant = { λ it. (it.is_plain ≡ list_all is_printable it.text.now)
        × (All (IsCheckpoint it.text.now) it.checkpoints.items × All (IsZeroWidthRun it.text.now) it.trails.items) };
}

// Up to this number of queries, finding checkpoints takes longer than the walks.
const FEW: usize = 2;

impl<'a> TextColumns<'a> {
    /// Prepares a text for about `asked` queries. The number only affects speed: for more than two, checkpoints are
    /// found in one pass, so that each walk is short.
    ///
    /// # Errors
    /// `AllocError` if allocation fails, or if the widths of the characters sum to more than `usize::MAX`.
    pub fn new(alloc: Global, text: &'a [u8], asked: usize) -> Result<Self, AllocError>
        ensures { IfOk result (λ it. it ≡ text.now) }
    {
        let is_plain = all_printable(text);
        if is_plain || asked <= FEW {
            return Ok(TextColumns {
                text,
                is_plain,
                checkpoints: Vec::new(alloc),
                trails: Vec::new(alloc),
            });
        }
        let checkpoints = checkpoints(alloc, text)?;
        let trails = trails(alloc, text, &checkpoints)?;
        Ok(TextColumns {
            text,
            is_plain,
            checkpoints,
            trails,
        })
    }

    /// Returns the zero-based column after the first `bytes` bytes: the width of the text before it. Inside a character
    /// and after the end of the text, it is the sum of the widths of the characters that begin before it.
    ///
    /// In printable ASCII each byte is a column. Otherwise it walks from the last checkpoint before, except in a run of
    /// zero-width characters.
    ///
    /// # Errors
    /// `AllocError` if allocation fails, or if a sum of widths exceeds `usize::MAX`.
    pub fn column(&self, alloc: Global, bytes: usize) -> Result<usize, AllocError>
        ensures { IfOk result (λ c. c ≡ column bytes (characters self.now)) }
    {
        if self.is_plain {
            return Ok(bytes.min(self.text.len()));
        }
        if let Some(trail) = zero_width_run_at(self.text, &self.trails, bytes) {
            return Ok(column_in(self.text, trail, bytes));
        }
        let from = checkpoint_before(self.text, &self.checkpoints, bytes);
        walked_column(alloc, self.text, from, bytes)
    }
}

// Does the same by a walk over the characters from a checkpoint on.
fn walked_column(
    alloc: Global,
    text: &[u8],
    from: Checkpoint,
    bytes: usize,
) -> Result<usize, AllocError>
    requires place { IsCheckpoint text.now from }
    requires before { from.bytes ≤ bytes }
    ensures { IfOk result (λ c. c ≡ column bytes (characters text.now)) }
{
    let mut begun = overlap_text(alloc, from.overlap)?;
    let mut widths = from.widths;
    let mut rest = &text[from.bytes..];
    let mut left = bytes - from.bytes;
    while left > 0 {
        if rest.is_empty() {
            return Ok(widths);
        }
        let (code, size) = decode_first_char(rest);
        begun.push(code)?;
        let wider = sum(widths, char_width(code))?;
        if left < size {
            return Ok(wider);
        }
        widths = wider;
        left -= size;
        rest = &rest[size..];
    }
    column_after(from, begun.as_str())
}
