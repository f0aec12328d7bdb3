//! Iterates over the lines of bytes.

ghost use Rattle.std.specs.Prelude.{◌≡◌, ◌+◌, ◌<◌, ◌≤◌, ◌∷◌, ◌^◌, ◌==◌, ◌&&◌, not, ℕ, drop, length, slice_index};
ghost use Rattle.miette_lines.specs.rules.Lines.{lines_from};
ghost use Rattle.miette_lines.specs.views.Walking.{IsFirst, RemainingLines};

use memchr::memchr2;
use std::marker::Model;

/// A line: where it begins, where its text ends, and where it ends with its terminator. Offsets are in bytes of the
/// source.
#[derive(Clone, Copy, Debug, PartialEq, Eq, Drop)]
pub struct LineOfText {
    /// The offset of its first byte.
    pub start: usize,
    /// The offset after its text. The terminator begins there, if there is one.
    pub text_end: usize,
    /// The offset after its terminator.
    pub end: usize,
}

/// An iterator over the lines of bytes that begin at an offset of a source.
#[derive(Drop)]
pub struct Lines<'a> {
    rest: &'a [u8],
    start: usize,
}

impl<'a> Model for Lines<'a> {
    ghost Value = { RemainingLines };

    ghost view = { λ it. record { start = it.start; bytes = it.rest.now } };

    ghost invariant = { λ it. it.start + length it.rest.now < 2 ^ 64 };
}

// The length of a line's text, and of the line with its terminator.
#[derive(Clone, Copy, Drop)]
struct Size {
    text: usize,
    whole: usize,
}

// Whether a line's terminator is CRLF, given that its text ends at an LF or CR.
fn is_pair(bytes: &[u8], end: usize) -> bool
    requires { end < length bytes.now }
    ensures { result ≡ (not (slice_index bytes.now end == 10) && (slice_index bytes.now (end + 1) == 10)) }
{
    bytes[end] != b'\n' && end + 1 < bytes.len() && bytes[end + 1] == b'\n'
}

// Returns the length of the first line.
fn first_size(bytes: &[u8]) -> Size
    requires { 0 < length bytes.now }
    ensures inside { result.text ≤ result.whole }
    ensures some { 0 < result.whole }
    ensures fits { result.whole ≤ length bytes.now }
    ensures parted { (at : ℕ) → lines_from at bytes.now
        ≡ record { start = at; text_end = at + result.text; end = at + result.whole }
        ∷ lines_from (at + result.whole) (drop result.whole bytes.now) }
{
    let Some(text) = memchr2(b'\n', b'\r', bytes) else {
        return Size {
            text: bytes.len(),
            whole: bytes.len(),
        };
    };
    let whole = if is_pair(bytes, text) {
        text + 2
    } else {
        text + 1
    };
    Size { text, whole }
}

/// Returns the first line of bytes that begin at an offset of a source.
pub fn first_line(bytes: &[u8], start: usize) -> LineOfText
    requires some { 0 < length bytes.now }
    requires small { start + length bytes.now < 2 ^ 64 }
    ensures { IsFirst (record { start = start; bytes = bytes.now }) result }
{
    let size = first_size(bytes);
    LineOfText {
        start,
        text_end: start + size.text,
        end: start + size.whole,
    }
}

impl<'a> Lines<'a> {
    /// Creates an iterator over the lines of bytes that begin at an offset of a source.
    pub fn new(bytes: &'a [u8], start: usize) -> Self
        requires { start + length bytes.now < 2 ^ 64 }
        ensures { result ≡ record { start = start; bytes = bytes.now } }
    {
        Lines { rest: bytes, start }
    }
}

/// Returns the next line, if there is one.
impl<'a> Iterator for Lines<'a> {
    ghost use Rattle.std.specs.Iterator.{item_count};
    ghost use Rattle.miette_lines.specs.views.Walking.{GivesLine, lines_left};

    type Item = LineOfText;

    ghost next_gives = { GivesLine };

    ghost remaining = { item_count lines_left };

    fn next(&mut self) -> Option<LineOfText> {
        if self.rest.is_empty() {
            return None;
        }
        let line = first_line(self.rest, self.start);
        self.rest = &self.rest[line.end - self.start..];
        self.start = line.end;
        Some(line)
    }
}
