//! Characters by index, without copying them.

ghost use Rattle.std.specs.Prelude.{◌≡◌, ◌≤◌, ◌<◌, ◌++◌, ℕ, IsAscii, List, MatchOption, OnOk, drop, length};
ghost use Rattle.std.specs.Prelude.{slice_index, take};
ghost use Rattle.std.specs.Str.{IsNotAscii};

use crate::runs::sink::Sink;
use std::alloc::AllocError;

/// A sequence of characters, accessible by index.
pub trait Codes: Copy {
    /// The characters.
    ghost codes: { Self → List ℕ };

    /// Returns their number.
    fn count(self) -> usize
        ensures { result ≡ length (codes self) };

    /// Returns one character.
    fn at(self, i: usize) -> char
        requires { i < length (codes self) }
        ensures { result ≡ slice_index (codes self) i };

    /// Returns the first `n` characters.
    fn front(self, n: usize) -> Self
        requires { n ≤ length (codes self) }
        ensures { codes result ≡ take n (codes self) };

    /// Returns the characters after the first `n`.
    fn from(self, n: usize) -> Self
        requires { n ≤ length (codes self) }
        ensures { codes result ≡ drop n (codes self) };

    /// Appends the characters. Returns `AllocError` if allocation fails.
    fn push_to<S: Sink>(self, out: &mut S) -> Result<(), AllocError>
        ensures { OnOk result (S.written out.new ≡ S.written out.old ++ codes self) };
}

/// A slice of characters.
#[derive(Clone, Copy)]
pub struct Characters<'a> {
    /// The characters.
    pub list: &'a [char],
}

impl<'a> Codes for Characters<'a> {
    ghost codes = { λ it. it.list.now };

    fn count(self) -> usize {
        self.list.len()
    }

    fn at(self, i: usize) -> char {
        self.list[i]
    }

    fn front(self, n: usize) -> Self {
        Characters {
            list: &self.list[..n],
        }
    }

    fn from(self, n: usize) -> Self {
        Characters {
            list: &self.list[n..],
        }
    }

    fn push_to<S: Sink>(self, out: &mut S) -> Result<(), AllocError> {
        out.push_chars(self.list)
    }
}

/// An ASCII text; its characters are its bytes.
#[derive(Clone, Copy)]
pub struct Ascii<'a> {
    /// The text.
    pub text: &'a str,
    ghost ascii: { IsAscii text.now },
}

impl<'a> Ascii<'a> {
    /// Wraps a text if it is ASCII.
    pub fn of(text: &'a str) -> Option<Self>
        ensures { MatchOption result (IsNotAscii text.now) (λ it. it.text.now ≡ text.now) }
    {
        if !text.is_ascii() {
            return None;
        }
        Some(Ascii { text })
    }
}

impl<'a> Codes for Ascii<'a> {
    ghost codes = { λ it. it.text.now };

    fn count(self) -> usize {
        self.text.len()
    }

    fn at(self, i: usize) -> char {
        char::from(self.text.as_bytes()[i])
    }

    fn front(self, n: usize) -> Self {
        Ascii {
            text: &self.text[..n],
        }
    }

    fn from(self, n: usize) -> Self {
        Ascii {
            text: &self.text[n..],
        }
    }

    fn push_to<S: Sink>(self, out: &mut S) -> Result<(), AllocError> {
        out.push_str(self.text)
    }
}
