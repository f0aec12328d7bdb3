//! The byte ranges of regions, which are given by lines and columns or by offsets.

ghost use Rattle.std.specs.Prelude.{◌≡◌, ◌≤◌, ◌+◌, IfSome, drop, length, take};
ghost use Rattle.serde_json.specs.View.{view};
ghost use Rattle.miette_positions.specs.rules.Stops.{units};
ghost use Rattle.miette_read.specs.views.Values.{texts};
ghost use Rattle.miette_read_sarif.specs.rules.Newlines.{text_size};
ghost use Rattle.miette_read_sarif.specs.rules.Regions.{byte_range, char_range, column_at, offset_or_zero, encoding_of};
ghost use Rattle.miette_read_sarif.specs.rules.Regions.{end_columns, end_line, has_begin, has_chars, has_line};
ghost use Rattle.miette_read_sarif.specs.rules.Regions.{line_range, offset_at, start_column, start_line};
ghost use Rattle.miette_read_sarif.specs.rules.Regions.{range_by_bytes, range_by_chars, region_range, units_after};

use crate::lines::FileLines;
use crate::newline_sequences::{NewlineSequences, rest_from};
use crate::newlines::text_size;
use miette_columns::cells::decode_first_char;
use miette_positions::position::PositionEncoding;
use miette_read::location::ByteRange;
use miette_read::members::{member_number, member_text};
use serde_json::Value;

/// Returns the unit of a run's columns. The default is characters.
pub(crate) fn encoding_of(run: &Value) -> PositionEncoding
    ensures { result ≡ encoding_of (view run.now) }
{
    if member_text(run, "columnKind").unwrap_or("") == "utf16CodeUnits" {
        PositionEncoding::Utf16
    } else {
        PositionEncoding::Utf32
    }
}

/// Returns the end of the text of the line that starts at `start`.
fn text_end(ends: &NewlineSequences<'_>, bytes: &[u8], start: usize) -> usize
    requires { start ≤ length bytes.now }
    ensures value { result ≡ start + text_size (texts ends.now.newlines.items) (drop start bytes.now) }
    ensures order { start ≤ result }
    ensures within { result ≤ length bytes.now }
{
    start + text_size(ends, rest_from(bytes, start))
}

/// Returns the bytes before an offset.
fn front_to(bytes: &[u8], stop: usize) -> &[u8]
    requires { stop ≤ length bytes.now }
    ensures { result.now ≡ take stop bytes.now }
{
    &bytes[..stop]
}

/// Returns the offset `columns` columns after a line's start: at most the end of the line's text, and inside a
/// character the character's start.
fn column_at(
    encoding: PositionEncoding,
    ends: &NewlineSequences<'_>,
    bytes: &[u8],
    start: usize,
    columns: usize,
) -> usize
    requires { start ≤ length bytes.now }
    ensures { result ≡ column_at encoding (texts ends.now.newlines.items) bytes.now start columns }
{
    let stop = text_end(ends, bytes, start);
    units_after(encoding, front_to(bytes, stop), start, columns).unwrap_or(stop)
}

/// Returns the offset `columns` columns after the start of a line. `line` is one-based.
fn offset_at(
    encoding: PositionEncoding,
    lines: &FileLines<'_, '_>,
    line: u64,
    columns: usize,
) -> Option<usize>
    ensures { result ≡ offset_at encoding (texts lines.now.ends.now.newlines.items) lines.now.bytes.now line columns }
{
    if line == 0 {
        return None;
    }
    let start = lines.nth_line_start((line - 1) as usize)?;
    Some(column_at(encoding, lines.ends, lines.bytes, start, columns))
}

/// Returns the line of the region's start, one-based, or 0 if it has none.
pub(crate) fn start_line(region: &Value) -> u64
    ensures { result ≡ start_line (view region.now) }
{
    member_number(region, "startLine").unwrap_or(0)
}

/// Returns the column of the region's start, one-based. The default is 1.
pub(crate) fn start_column(region: &Value) -> u64
    ensures { result ≡ start_column (view region.now) }
{
    member_number(region, "startColumn").unwrap_or(1)
}

/// Returns the line of the region's end. The default is the line of its start.
fn end_line(region: &Value) -> u64
    ensures { result ≡ end_line (view region.now) }
{
    member_number(region, "endLine").unwrap_or(start_line(region))
}

/// Returns the number of columns before the region's end. The default is the whole last line.
fn end_columns(bytes: &[u8], column: Option<u64>) -> usize
    ensures { result ≡ end_columns bytes.now column }
{
    match column {
        Some(column) => column.saturating_sub(1) as usize,
        None => bytes.len(),
    }
}

/// Returns the range of a region by lines and columns. It ends before its end column.
fn line_range(
    encoding: PositionEncoding,
    lines: &FileLines<'_, '_>,
    region: &Value,
) -> Option<ByteRange>
    ensures { result ≡ line_range encoding (texts lines.now.ends.now.newlines.items) lines.now.bytes.now
        (view region.now) }
{
    let columns = start_column(region).saturating_sub(1) as usize;
    let start = offset_at(encoding, lines, start_line(region), columns)?;
    let columns = end_columns(lines.bytes, member_number(region, "endColumn"));
    let end = offset_at(encoding, lines, end_line(region), columns)?;
    Some(ByteRange { start, end })
}

// ---- by offsets

/// Returns the number of code units of a character with `bytes` bytes.
fn units(encoding: PositionEncoding, code: char, bytes: usize) -> usize
    ensures { result ≡ units encoding (record { code = code; bytes = bytes }) }
{
    match encoding {
        PositionEncoding::Utf8 => bytes,
        PositionEncoding::Utf16 => { if u32::from(code) < 0x10000 { 1 } else { 2 } }
        PositionEncoding::Utf32 => 1,
    }
}

/// Returns the offset `count` code units after `from`. Inside a character it is the character's start. Returns `None`
/// past the end.
fn units_after(encoding: PositionEncoding, bytes: &[u8], from: usize, count: usize) -> Option<usize>
    requires { from ≤ length bytes.now }
    ensures value { result ≡ units_after encoding bytes.now from count }
    ensures within { IfSome result (λ at. at ≤ length bytes.now) }
{
    let mut at = from;
    let mut left = count;
    while at < bytes.len() {
        let rest = rest_from(bytes, at);
        let (code, size) = decode_first_char(rest);
        let wide = units(encoding, code, size);
        if left < wide {
            return Some(at);
        }
        left -= wide;
        at += size;
    }
    if left == 0 { Some(at) } else { None }
}

/// Returns the range of `count` characters starting at a character offset.
fn char_range(
    encoding: PositionEncoding,
    bytes: &[u8],
    from: usize,
    count: usize,
) -> Option<ByteRange>
    ensures { result ≡ char_range encoding bytes.now from count }
{
    let start = units_after(encoding, bytes, 0, from)?;
    let end = units_after(encoding, bytes, start, count)?;
    Some(ByteRange { start, end })
}

/// Returns the range of `count` bytes starting at an offset.
fn byte_range(bytes: &[u8], from: usize, count: usize) -> Option<ByteRange>
    ensures { result ≡ byte_range bytes.now from count }
{
    if from > bytes.len() || count > bytes.len() - from {
        return None;
    }
    Some(ByteRange {
        start: from,
        end: from + count,
    })
}

/// Returns the number at a key, or 0.
fn offset_or_zero(region: &Value, key: &str) -> usize
    ensures { result ≡ offset_or_zero key.now (view region.now) }
{
    member_number(region, key).unwrap_or(0) as usize
}

/// Returns the range of a region by characters.
fn range_by_chars(encoding: PositionEncoding, bytes: &[u8], region: &Value) -> Option<ByteRange>
    ensures { result ≡ range_by_chars encoding bytes.now (view region.now) }
{
    let from = member_number(region, "charOffset")? as usize;
    char_range(encoding, bytes, from, offset_or_zero(region, "charLength"))
}

/// Returns the range of a region by bytes.
fn range_by_bytes(bytes: &[u8], region: &Value) -> Option<ByteRange>
    ensures { result ≡ range_by_bytes bytes.now (view region.now) }
{
    let from = member_number(region, "byteOffset")? as usize;
    byte_range(bytes, from, offset_or_zero(region, "byteLength"))
}

// ---- all of it

/// Returns whether a region has a start line.
pub(crate) fn has_line(region: &Value) -> bool
    ensures { result ≡ has_line (view region.now) }
{
    member_number(region, "startLine").is_some()
}

/// Returns whether a region has a character offset.
fn has_chars(region: &Value) -> bool
    ensures { result ≡ has_chars (view region.now) }
{
    member_number(region, "charOffset").is_some()
}

/// Returns whether a region has a start.
pub(crate) fn has_begin(region: &Value) -> bool
    ensures { result ≡ has_begin (view region.now) }
{
    has_line(region) || (has_chars(region) || member_number(region, "byteOffset").is_some())
}

/// Returns the range of a region: by lines if it has any, else by characters, else by bytes.
pub(crate) fn region_range(
    encoding: PositionEncoding,
    lines: &FileLines<'_, '_>,
    region: &Value,
) -> Option<ByteRange>
    ensures { result ≡ region_range encoding (texts lines.now.ends.now.newlines.items) lines.now.bytes.now
        (view region.now) }
{
    if has_line(region) {
        line_range(encoding, lines, region)
    } else if has_chars(region) {
        range_by_chars(encoding, lines.bytes, region)
    } else {
        range_by_bytes(lines.bytes, region)
    }
}
