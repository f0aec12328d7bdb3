//! Pieces of a text with their offsets, for programs that read a text line by line.

ghost use Rattle.std.specs.Prelude.{◌≡◌, ◌+◌, ◌-◌, ◌≤◌, ◌<◌, ◌^◌, length};
ghost use Rattle.std.specs.List.{after_first, before_first};
ghost use Rattle.std.specs.Str.{trim, trim_start};
ghost use Rattle.miette.specs.rules.Pieces.{bytes_after, is_lf};

use miette_protocol::protocol::SourceSpan;
use std::marker::Model;

/// A piece of a text and its offset.
#[derive(Clone, Copy)]
pub struct Piece<'a> {
    /// Offset of its first byte.
    pub start: usize,
    /// Its text.
    pub text: &'a str,
}

impl<'a> Piece<'a> {
    /// Returns the lines of a text, in order, without their LF. A CR before the LF belongs to the line. A final LF
    /// begins no line.
    pub fn lines(text: &'a str) -> PieceLines<'a>
        ensures { result ≡ record { start = 0; text = text.now } }
    {
        PieceLines {
            start: 0,
            rest: text,
        }
    }

    /// Returns the piece without white space at both ends.
    pub fn trim(self) -> Piece<'a>
        ensures text { result.text.now ≡ trim self.entry.text.now }
        ensures start { result.start
            ≡ bytes_after self.entry.start (length self.entry.text.now - length (trim_start self.entry.text.now)) }
    {
        let text = self.text.trim_start();
        let blanks = self.text.len().saturating_sub(text.len());
        Piece {
            start: self.start.saturating_add(blanks),
            text: text.trim_end(),
        }
    }

    /// Offset after its last byte, at most the largest `usize`.
    pub fn end(self) -> usize
        ensures { result ≡ bytes_after self.entry.start (length self.entry.text.now) }
    {
        self.start.saturating_add(self.text.len())
    }
}

/// The span of the piece, for a label.
impl<'a> From<Piece<'a>> for SourceSpan {
    ghost use Rattle.std.specs.Prelude.{◌≡◌, length};

    ghost from_gives = { λ piece it. it ≡ record { offset = piece.start; len = length piece.text.now } };

    fn from(piece: Piece<'a>) -> Self {
        SourceSpan::from((piece.start, piece.text.len()))
    }
}

/// The remaining lines of a text.
#[derive(Drop)]
pub struct PieceLines<'a> {
    start: usize,
    rest: &'a str,
}

impl<'a> Model for PieceLines<'a> {
    ghost use Rattle.std.specs.Prelude.{◌+◌, ◌^◌, ◌<◌, length};
    ghost use Rattle.miette.specs.rules.Pieces.{RemainingText};

    ghost Value = { RemainingText };

    ghost view = { λ it. record { start = it.start; text = it.rest.now } };

    ghost invariant = { λ it. it.start + length it.rest.now < 2 ^ 64 };
}

// Splits a text at its first LF. Without an LF the rest is empty.
fn parted(text: &str) -> (&str, &str)
    ensures line { result.0.now ≡ before_first is_lf text.now }
    ensures rest { result.1.now ≡ after_first is_lf text.now }
    ensures fits { length result.1.now ≤ length text.now }
    ensures shorter { 0 < length text.now → length result.1.now < length text.now }
{
    match text.split_once('\n') {
        Some((line, rest)) => (line, rest),
        None => (text, ""),
    }
}

/// The next line, if there is one.
impl<'a> Iterator for PieceLines<'a> {
    ghost use Rattle.std.specs.Prelude.{length};
    ghost use Rattle.std.specs.Iterator.{at_most};
    ghost use Rattle.miette.specs.rules.Pieces.{GivesPieceLine};

    type Item = Piece<'a>;

    ghost next_gives = { GivesPieceLine };

    ghost remaining = { λ left. at_most (length left.text) };

    fn next(&mut self) -> Option<Piece<'a>> {
        if self.rest.is_empty() {
            return None;
        }
        let (text, rest) = parted(self.rest);
        let start = self.start;
        self.start = start + (self.rest.len() - rest.len());
        self.rest = rest;
        Some(Piece { start, text })
    }
}
