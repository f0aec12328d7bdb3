//! Finds lines by scanning from offsets whose lines are known.

ghost use Rattle.std.specs.Prelude.{◌≡◌, ◌≤◌, length};
ghost use Rattle.miette_lines.specs.rules.Lines.{line_of};
ghost use Rattle.miette_lines.specs.views.Known.{IsKnown};

use crate::find::FindLines;
use crate::scan::{end_after, ends_between, line_from, start_before};
use std::marker::Model;

/// An offset of a source, and its zero-based line number.
#[derive(Clone, Copy, Debug, PartialEq, Eq)]
pub struct KnownLine {
    /// The offset, in bytes.
    pub offset: usize,
    /// The zero-based line number.
    pub line: usize,
}

/// Two offsets whose lines are known. A read counts lines from `first` to where it begins, and from `last` to where it
/// ends, forwards or backwards.
#[derive(Clone, Copy, Debug, PartialEq, Eq)]
pub struct KnownLines {
    /// An offset near the start of the read.
    pub first: KnownLine,
    /// An offset near the end of the read.
    pub last: KnownLine,
}

/// The start of a source.
pub const START: KnownLines = KnownLines {
    first: KnownLine { offset: 0, line: 0 },
    last: KnownLine { offset: 0, line: 0 },
};

/// Bytes whose lines are found by scanning from offsets whose lines are known.
#[derive(Drop)]
pub struct NearScan<'a> {
    bytes: &'a [u8],
    known: KnownLines,
    ghost begins: { IsKnown bytes.now known.first },
    ghost ends: { IsKnown bytes.now known.last },
}

impl<'a> Model for NearScan<'a> {
    ghost use Rattle.std.specs.Prelude.{ℕ, List};

    ghost Value = { List ℕ };

    ghost view = { λ it. it.bytes.now };
}

/// Returns the line number of an offset, counted from the known offset, or from the start if that is nearer.
#[tactic(auto, using(crate::proofs::Places::scan_steps))]
fn line_near(bytes: &[u8], known: KnownLine, offset: usize) -> usize
    requires known { IsKnown bytes.now known }
    requires within { offset ≤ length bytes.now }
    ensures { result ≡ line_of bytes.now offset }
{
    if known.offset <= offset {
        return line_from(bytes, known.offset, known.line, offset);
    }
    if offset < known.offset - offset {
        return line_from(bytes, 0, 0, offset);
    }
    known.line - ends_between(bytes, offset, known.offset)
}

/// Returns the line number of an offset, counted from an earlier offset, or from `last` if that is between the two.
#[tactic(auto, using(crate::proofs::Places::scan_steps))]
fn line_after(bytes: &[u8], from: usize, line: usize, last: KnownLine, offset: usize) -> usize
    requires order { from ≤ offset }
    requires within { offset ≤ length bytes.now }
    requires line { line ≡ line_of bytes.now from }
    requires last { IsKnown bytes.now last }
    ensures { result ≡ line_of bytes.now offset }
{
    if from < last.offset && last.offset <= offset {
        return line_from(bytes, last.offset, last.line, offset);
    }
    line_from(bytes, from, line, offset)
}

impl<'a> NearScan<'a> {
    /// Wraps bytes, with two offsets whose lines are known.
    pub fn new(bytes: &'a [u8], known: KnownLines) -> Self
        requires first { IsKnown bytes.now known.first }
        requires last { IsKnown bytes.now known.last }
        ensures { result ≡ bytes.now }
    {
        NearScan { bytes, known }
    }
}

impl FindLines for NearScan<'_> {
    ghost text = { λ it. it };

    fn line_from(&self, from: usize, line: usize, offset: usize) -> usize {
        line_after(self.bytes, from, line, self.known.last, offset)
    }

    #[tactic(auto, using(crate::proofs::Places::scan_steps))]
    fn start_before(&self, offset: usize, lines: usize) -> (usize, usize) {
        let (start, passed) = start_before(self.bytes, offset, lines);
        let line = line_near(self.bytes, self.known.first, start);
        (start, line + passed)
    }

    fn end_after(&self, offset: usize, line: usize, lines: usize) -> (usize, usize) {
        end_after(self.bytes, offset, line, lines)
    }
}
