//! Finds lines by an index of the line ends.

ghost use Rattle.std.specs.Prelude.{◌≡◌, ℕ, ◌+◌, ◌*◌, ◌<◌, ◌≤◌, ◌^◌, length, slice_index, IfOk};
ghost use Rattle.miette_lines.specs.rules.Lines.{line_of};
ghost use Rattle.miette_lines.specs.views.Index.{IsIndex};

use crate::find::FindLines;
use crate::line_ends::LineEnds;
use std::alloc::{AllocError, Global};
use std::marker::Model;

/// Counts the line ends at or before an offset, by binary search. Also returns how many ends it compared.
fn rank(ends: &LineEnds, offset: usize) -> (usize, u32)
    requires { (i j : ℕ) → i ≤ j → j < length ends.now → slice_index ends.now i ≤ slice_index ends.now j }
    ensures within { result.0 ≤ length ends.now }
    ensures below { (k : ℕ) → k < result.0 → slice_index ends.now k ≤ offset }
    ensures above { (k : ℕ) → result.0 ≤ k → k < length ends.now → offset < slice_index ends.now k }
    ensures looks { 2 ^ result.1 ≤ 2 * length ends.now + 1 }
{
    let mut low = 0;
    let mut high = ends.count();
    let mut looks = 0;
    while low < high {
        let middle = low + (high - low) / 2;
        if ends.look(middle, &mut looks) <= offset {
            low = middle + 1;
        } else {
            high = middle;
        }
    }
    (low, looks)
}

/// Returns the end with this index.
fn entry(ends: &LineEnds, at: usize) -> usize
    requires { at < length ends.now }
    ensures { result ≡ slice_index ends.now at }
{
    let mut looks = 0;
    ends.look(at, &mut looks)
}

/// A source with an index of its line ends. Lines are found by binary search.
#[derive(Drop)]
pub struct IndexedSource {
    bytes: Vec<u8>,
    ends: LineEnds,
    ghost index: { IsIndex bytes.items ends },
}

impl Model for IndexedSource {
    ghost use Rattle.std.specs.Prelude.{ℕ, List};

    ghost Value = { List ℕ };

    ghost view = { λ it. it.bytes.items };
}

impl IndexedSource {
    /// Stores the bytes and finds all line ends in one pass.
    ///
    /// # Errors
    /// `AllocError` if allocation fails. The bytes are then dropped.
    pub fn new(alloc: Global, bytes: Vec<u8>) -> Result<Self, AllocError>
        ensures { IfOk result (λ it. it ≡ bytes.items) }
    {
        let ends = LineEnds::new(alloc, bytes.as_slice())?;
        Ok(IndexedSource { bytes, ends })
    }

    /// Returns the bytes.
    pub fn bytes(&self) -> &[u8]
        ensures { result.now ≡ self.now }
    {
        self.bytes.as_slice()
    }

    /// Returns the line number of an offset, and how many line ends it compared. That is at most the number of binary
    /// digits of their number.
    pub fn line_of(&self, offset: usize) -> (usize, u32)
        ensures line { result.0 ≡ line_of self.now offset }
        ensures looks { 2 ^ result.1 ≤ 2 * line_of self.now (length self.now) + 1 }
    {
        rank(&self.ends, offset)
    }
}

impl FindLines for IndexedSource {
    ghost text = { λ it. it };

    fn line_from(&self, _from: usize, _line: usize, offset: usize) -> usize {
        self.line_of(offset).0
    }

    #[tactic(auto, using(crate::proofs::Places::index_reads))]
    fn start_before(&self, offset: usize, lines: usize) -> (usize, usize) {
        let line = self.line_of(offset).0;
        let start = if line <= lines {
            0
        } else {
            entry(&self.ends, line - lines - 1)
        };
        (start, line)
    }

    #[tactic(auto, using(crate::proofs::Places::index_reads))]
    fn end_after(&self, _offset: usize, line: usize, lines: usize) -> (usize, usize) {
        if lines < self.ends.count() - line {
            (entry(&self.ends, line + lines), line + lines + 1)
        } else {
            (self.bytes.len(), self.ends.count())
        }
    }
}
