//! Lines and columns as GCC counts them.

ghost use Rattle.std.specs.Prelude.{◌≡◌, ◌≤◌, ◌+◌, IfSome, length};
ghost use Rattle.miette_read_gcc.specs.rules.Lines.{begin_of, first_begin, offset_at, text_end_from, within_line};

use miette_lines::lines::first_line;
use miette_protocol::source::IndexedSource;
use miette_read::line_starts::numbered_line_start;

/// Returns the offset of the first line, after a byte order mark.
fn first_begin(bytes: &[u8]) -> usize
    ensures begin { result ≡ first_begin bytes.now }
    ensures within { result ≤ length bytes.now }
{
    if bytes.starts_with(b"\xEF\xBB\xBF") {
        3
    } else {
        0
    }
}

/// Returns the offset of a line's start. `line` is one-based. Returns `None` if there is no such line.
fn begin_of(source: &IndexedSource, line: u64) -> Option<usize>
    ensures begin { result ≡ begin_of source.now line }
    ensures within { IfSome result (λ begin. begin ≤ length source.now) }
{
    if line == 1 {
        return Some(first_begin(source.bytes()));
    }
    numbered_line_start(source, line)
}

/// Returns the end of the text of the line that starts at `start`.
fn text_end_from(bytes: &[u8], start: usize) -> usize
    requires { start ≤ length bytes.now }
    ensures end { result ≡ text_end_from bytes.now start }
    ensures within { result ≤ length bytes.now }
{
    if start == bytes.len() {
        return start;
    }
    first_line(&bytes[start..], start).text_end
}

/// Returns the offset `before + further` bytes after a line's start, or the end of the line's text if that comes first.
fn within_line(bytes: &[u8], start: usize, before: u64, further: u64) -> usize
    requires { start ≤ length bytes.now }
    ensures { result ≡ within_line bytes.now start (before + further) }
{
    let offset = start.saturating_add(before as usize);
    offset
        .saturating_add(further as usize)
        .min(text_end_from(bytes, start))
}

/// Returns the offset `before + further` bytes after a line's start. `line` is one-based.
pub(crate) fn offset_at(
    source: &IndexedSource,
    line: u64,
    before: u64,
    further: u64,
) -> Option<usize>
    ensures { result ≡ offset_at source.now line (before + further) }
{
    let start = begin_of(source, line)?;
    Some(within_line(source.bytes(), start, before, further))
}
