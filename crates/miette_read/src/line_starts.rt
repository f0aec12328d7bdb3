//! Line starts of a source by line number.

ghost use Rattle.std.specs.Prelude.{◌≡◌, ◌≤◌, IfSome, length};
ghost use Rattle.miette_read.specs.rules.LineStarts.{last_line_number, numbered_line_start};
ghost use Rattle.miette_lines.specs.rules.Lines.{line_start};

use miette_lines::find::FindLines;
use miette_protocol::source::IndexedSource;

/// Returns the offset of a line's start. `line` is zero-based.
fn line_start(source: &IndexedSource, line: usize) -> usize
    requires { line ≤ last_line_number source.now }
    ensures start { result ≡ line_start source.now line }
    ensures within { result ≤ length source.now }
{
    let size = source.bytes().len();
    let last = source.line_of(size).0;
    source.start_before(size, last - line).0
}

/// Returns the offset of a line's start, in bytes. `line` is one-based. Returns `None` if there is no such line.
pub fn numbered_line_start(source: &IndexedSource, line: u64) -> Option<usize>
    ensures start { result ≡ numbered_line_start source.now line }
    ensures within { IfSome result (λ start. start ≤ length source.now) }
{
    if line == 0 {
        return None;
    }
    let line = (line - 1) as usize;
    if source.line_of(source.bytes().len()).0 < line {
        return None;
    }
    Some(line_start(source, line))
}
