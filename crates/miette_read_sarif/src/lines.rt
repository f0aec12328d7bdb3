//! The lines of a file.

ghost use Rattle.std.specs.Prelude.{◌≡◌, ◌≤◌, IfSome, length, slice_get};
ghost use Rattle.std.specs.Option.{ForSome};
ghost use Rattle.miette_read.specs.views.Values.{texts};
ghost use Rattle.miette_read_sarif.specs.rules.Newlines.{nth_line_start};
ghost use Rattle.miette_read_sarif.specs.views.Tables.{AreStarts};

use crate::newline_sequences::NewlineSequences;
use crate::newlines::nth_line_start;

/// The bytes of a file, its newline sequences, and its line starts if there is a table of them.
#[derive(Drop)]
pub(crate) struct FileLines<'a, 'v> {
    pub(crate) ends: &'a NewlineSequences<'v>,
    pub(crate) bytes: &'a [u8],
    pub(crate) starts: Option<&'a [usize]>,
    ghost tabled: { ForSome starts (λ it. AreStarts (texts ends.now.newlines.items) bytes.now 0 it.now) },
}

/// Returns the line start at a zero-based line number.
fn start_at(starts: &[usize], line: usize) -> Option<usize>
    ensures { result ≡ slice_get starts.now line }
{
    starts.get(line).copied()
}

impl<'a, 'v> FileLines<'a, 'v> {
    /// Returns the start of the line `lines` lines after the first one. Without a table, it counts lines from the
    /// start.
    pub(crate) fn nth_line_start(&self, lines: usize) -> Option<usize>
        ensures value { result ≡ nth_line_start (texts self.now.ends.now.newlines.items) self.now.bytes.now 0 lines }
        ensures within { IfSome result (λ at. at ≤ length self.now.bytes.now) }
    {
        match self.starts {
            Some(starts) => start_at(starts, lines),
            None => nth_line_start(self.ends, self.bytes, lines),
        }
    }
}
