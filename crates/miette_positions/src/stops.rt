//! Steps from one stop of a source to the next.

ghost use Rattle.std.specs.Prelude.{◌≡◌, ◌<◌, ◌≤◌, ◌+◌, ◌*◌, ◌^◌, ◌∷◌, ◌==◌, ◌||◌, ◌&&◌, [], drop, false, length};
ghost use Rattle.std.specs.Prelude.{IsNone, IfSome};
ghost use Rattle.bstr.specs.Utf8.{decoded, or_replacement};
ghost use Rattle.miette_columns.specs.rules.Cells.{Character, characters};
ghost use Rattle.miette_positions.specs.rules.Stops.{begins_with_lf, is_newline, is_until, stop_past, stops_from};
ghost use Rattle.miette_positions.specs.rules.Stops.{units, start};
ghost use Rattle.miette_positions.specs.steps.Samples.{IsWithin};

use crate::position::{Position, PositionEncoding, Stop};
use miette_columns::cells::decode_first_char;

/// Returns the first stop of a source.
pub(crate) fn first_of_all() -> Stop
    ensures { result ≡ start }
{
    Stop {
        offset: 0,
        position: Position { line: 0, column: 0 },
    }
}

// Returns the first character of some bytes, and its length in bytes. Invalid UTF-8 gives U+FFFD. ASCII takes a fast
// path.
#[inline(always)]
fn character(bytes: &[u8]) -> (char, usize)
    requires { 0 < length bytes.now }
    ensures code { result.0 ≡ or_replacement (decoded bytes.now).char }
    ensures size { result.1 ≡ (decoded bytes.now).size }
    ensures some { 0 < result.1 }
    ensures within { result.1 ≤ length bytes.now }
{
    let first = bytes[0];
    if first < 0x80 {
        return (char::from(first), 1);
    }
    decode_first_char(bytes)
}

/// Returns the bytes from an offset on.
pub(crate) fn rest_from(bytes: &[u8], at: usize) -> &[u8]
    requires { at ≤ length bytes.now }
    ensures { result.now ≡ drop at bytes.now }
{
    &bytes[at..]
}

// Whether bytes begin with LF.
fn begins_with_lf(bytes: &[u8]) -> bool
    ensures { result ≡ begins_with_lf (characters bytes.now) }
{
    if bytes.is_empty() {
        return false;
    }
    character(bytes).0 == '\n'
}

// Whether a character is a CR followed by an LF.
fn is_pair(code: char, left: &[u8]) -> bool
    ensures { result ≡ ((code == 13) && begins_with_lf (characters left.now)) }
{
    code == '\r' && begins_with_lf(left)
}

// Counts the code units of a character of `bytes` bytes.
fn units(encoding: PositionEncoding, code: char, bytes: usize) -> usize
    requires { 0 < bytes }
    ensures units { result ≡ units encoding (record { code = code; bytes = bytes }) }
    ensures few { result ≤ 2 * bytes }
{
    match encoding {
        PositionEncoding::Utf8 => bytes,
        PositionEncoding::Utf16 => { if u32::from(code) < 0x10000 { 1 } else { 2 } }
        PositionEncoding::Utf32 => 1,
    }
}

// Whether a character ends a line.
fn is_newline(code: char) -> bool
    ensures { result ≡ ((code == 10) || (code == 13)) }
{
    code == '\n' || code == '\r'
}

// Returns the stop after a character of `bytes` bytes.
fn stop_past(encoding: PositionEncoding, from: Stop, code: char, bytes: usize) -> Stop
    requires some { 0 < bytes }
    requires small { from.offset + bytes < 2 ^ 63 }
    requires line { from.position.line ≤ from.offset }
    requires column { from.position.column ≤ 2 * from.offset }
    ensures { result ≡ stop_past encoding from (record { code = code; bytes = bytes }) }
{
    let offset = from.offset + bytes;
    let position = if is_newline(code) {
        Position {
            line: from.position.line + 1,
            column: 0,
        }
    } else {
        Position {
            line: from.position.line,
            column: from.position.column + units(encoding, code, bytes),
        }
    };
    Stop { offset, position }
}

/// Returns the stop after `from`, if there is one.
pub(crate) fn next_stop(encoding: PositionEncoding, source: &[u8], from: Stop) -> Option<Stop>
    requires { IsWithin source.now from }
    ensures none { IsNone result → stops_from encoding source.now from ≡ [] }
    ensures next { IfSome result (λ s. stops_from encoding source.now from ≡ s ∷ stops_from encoding source.now s) }
    ensures within { IfSome result (λ s. IsWithin source.now s) }
    ensures order { IfSome result (λ s. from.offset < s.offset) }
    ensures rise { IfSome result (λ s. is_until s.position from.position ≡ false) }
{
    let rest = rest_from(source, from.offset);
    if rest.is_empty() {
        return None;
    }
    let (code, bytes) = character(rest);
    let left = rest_from(source, from.offset + bytes);
    if is_pair(code, left) {
        let (newline, more) = character(left);
        let inside = Stop {
            offset: from.offset + bytes,
            position: from.position,
        };
        return Some(stop_past(encoding, inside, newline, more));
    }
    Some(stop_past(encoding, from, code, bytes))
}
