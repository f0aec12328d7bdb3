//! Lines and columns as ShellCheck counts them: one-based, with columns in characters. Only LF ends a line.
//!
//! The line index of a source also counts CR. Every location is found by counting lines from the start.

ghost use Rattle.std.specs.Prelude.{◌≡◌, ◌<◌, ◌≤◌, ◌+◌, IfSome, drop, length};
ghost use Rattle.memchr.specs.Find.{IsFirstByte, is_byte};
ghost use Rattle.miette_read_shellcheck.specs.rules.Columns.{characters_after, nth_line_start, offset_at};

use memchr::memchr;
use miette_columns::cells::decode_first_char;

/// Returns the bytes from an offset on.
fn rest_from(bytes: &[u8], at: usize) -> &[u8]
    requires { at ≤ length bytes.now }
    ensures { result.now ≡ drop at bytes.now }
{
    &bytes[at..]
}

/// Returns the number of bytes before the first LF at or after an offset.
fn text_size(bytes: &[u8], at: usize) -> Option<usize>
    requires { at ≤ length bytes.now }
    ensures first { IsFirstByte (is_byte 10) (drop at bytes.now) result }
    ensures within { IfSome result (λ size. at + size < length bytes.now) }
{
    memchr(b'\n', rest_from(bytes, at))
}

/// Returns the start of the line `lines` lines after the first one.
fn nth_line_start(bytes: &[u8], lines: usize) -> Option<usize>
    ensures value { result ≡ nth_line_start 0 bytes.now lines }
    ensures within { IfSome result (λ at. at ≤ length bytes.now) }
{
    let mut at: usize = 0;
    let mut left = lines;
    while left > 0 {
        match text_size(bytes, at) {
            Some(size) => at += size + 1,
            None => return None,
        }
        left -= 1;
    }
    Some(at)
}

/// Returns the offset `count` characters after a line's start, or the end of the line's text if that comes first.
fn characters_after(bytes: &[u8], start: usize, count: usize) -> usize
    requires { start ≤ length bytes.now }
    ensures { result ≡ characters_after bytes.now start count }
{
    let mut at = start;
    let mut left = count;
    while at < bytes.len() {
        if left == 0 {
            return at;
        }
        let rest = rest_from(bytes, at);
        let (code, size) = decode_first_char(rest);
        if code == '\n' {
            return at;
        }
        left -= 1;
        at += size;
    }
    at
}

/// Returns the offset of a column of a line. Both are one-based.
pub(crate) fn offset_at(bytes: &[u8], line: u64, column: u64) -> Option<usize>
    ensures { result ≡ offset_at bytes.now line column }
{
    if line == 0 || column == 0 {
        return None;
    }
    let start = nth_line_start(bytes, (line - 1) as usize)?;
    Some(characters_after(bytes, start, (column - 1) as usize))
}
