//! The ends of all line terminators of a source. Accesses are counted.

ghost use Rattle.std.specs.Prelude.{◌≡◌, ℕ, ◌+◌, ◌<◌, length, slice_index, IfOk};
ghost use Rattle.miette_lines.specs.views.Index.{IsIndex};

use crate::scan;
use std::alloc::{AllocError, Global};
use std::marker::Model;

#[derive(Drop)]
pub(crate) struct LineEnds {
    ends: Vec<usize>,
}

impl Model for LineEnds {
    ghost use Rattle.std.specs.Prelude.{ℕ, List};

    ghost Value = { List ℕ };

    ghost view = { λ it. it.ends.items };
}

impl LineEnds {
    /// Finds the ends of all terminators.
    pub(crate) fn new(alloc: Global, bytes: &[u8]) -> Result<Self, AllocError>
        ensures { IfOk result (λ it. IsIndex bytes.now it) }
    {
        let mut ends = Vec::new(alloc);
        let mut from = 0;
        while let Some(at) = scan::next_newline(bytes, from) {
            if scan::ends_line(bytes, at) {
                ends.push(at + 1)?;
            }
            from = at + 1;
        }
        Ok(LineEnds { ends })
    }

    /// Returns their number.
    pub(crate) fn count(&self) -> usize
        ensures { result ≡ length self.now }
    {
        self.ends.len()
    }

    /// Returns one end, and counts the access.
    pub(crate) fn look(&self, at: usize, looks: &mut u32) -> usize
        requires at { at < length self.now }
        requires few { looks.old < 64 }
        ensures end { result ≡ slice_index self.now at }
        ensures counted { looks.new ≡ looks.old + 1 }
    {
        *looks += 1;
        self.ends[at]
    }
}
