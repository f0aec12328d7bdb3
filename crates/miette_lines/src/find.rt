//! The trait for finding lines, and columns in them.

ghost use Rattle.std.specs.Prelude.{◌≡◌, ℕ, ◌≤◌, ◌+◌, ◌-◌, List, length};
ghost use Rattle.miette_lines.specs.rules.Lines.{line_of, line_start, line_end, column_of};

/// Finds the lines of bytes.
pub trait FindLines {
    ghost text: { Self → List ℕ };

    /// Returns the line number of `offset`, given that of an earlier offset.
    fn line_from(&self, from: usize, line: usize, offset: usize) -> usize
        requires order { from ≤ offset }
        requires within { offset ≤ length (text self.now) }
        requires line { line ≡ line_of (text self.now) from }
        ensures { result ≡ line_of (text self.now) offset };

    /// Returns the start of the line `lines` above the line of `offset`, and the line number of `offset`.
    fn start_before(&self, offset: usize, lines: usize) -> (usize, usize)
        requires { offset ≤ length (text self.now) }
        ensures start { result.0 ≡ line_start (text self.now) (line_of (text self.now) offset - lines) }
        ensures line { result.1 ≡ line_of (text self.now) offset };

    /// Returns the end of the line `lines` below the line of `offset`, and the line number of that end.
    fn end_after(&self, offset: usize, line: usize, lines: usize) -> (usize, usize)
        requires within { offset ≤ length (text self.now) }
        requires line { line ≡ line_of (text self.now) offset }
        ensures end { result.0 ≡ line_end (text self.now) (line + lines) }
        ensures line { result.1 ≡ line_of (text self.now) result.0 };
}

/// Returns the zero-based column of an offset in bytes, given the start of its line. The CR of a CRLF that the offset
/// splits isn't counted.
#[tactic(auto, using(crate::proofs::Columns::columns))]
pub fn column_from(bytes: &[u8], start: usize, offset: usize) -> usize
    requires start { start ≡ line_start bytes.now (line_of bytes.now offset) }
    requires order { start ≤ offset }
    requires within { offset ≤ length bytes.now }
    ensures { result ≡ column_of bytes.now offset }
{
    if start < offset && bytes[offset - 1] == b'\r' {
        offset - start - 1
    } else {
        offset - start
    }
}
