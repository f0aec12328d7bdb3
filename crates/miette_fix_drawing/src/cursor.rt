//! Line numbers and columns of offsets in a source.

ghost use Rattle.std.specs.Prelude.{◌≡◌, ◌≤◌, ◌<◌, ◌+◌, ◌-◌, IfSome, List, ℕ, length, take};
ghost use Rattle.miette_lines.specs.rules.Lines.{column_of, line_of};
ghost use Rattle.miette_fix_rows.specs.rules.Blocks.{line_texts};
ghost use Rattle.miette_fix_drawing.specs.steps.Places.{IsCursor, HunkIsIn};

use crate::hunks::Hunk;
use miette_lines::find::{FindLines, column_from};
use miette_lines::scan::{ScanLines, start_before};
use miette_protocol::protocol::SourceSpan;
use miette_protocol::source::SourceCode;

/// A position in a source: an offset and its zero-based line number.
#[derive_where(Clone, Copy)]
pub(crate) struct Cursor<'a, S> {
    pub(crate) asked: &'a S,
    pub(crate) offset: usize,
    pub(crate) line: usize,
}

// Distances in bytes below this are scanned here instead of asking the source.
const FEW: usize = 1024;

// Returns the cursor if it is before the offset, else the start of the source.
fn before<'a, S: SourceCode>(cursor: &Cursor<'a, S>, offset: usize) -> Cursor<'a, S>
    ensures order { result.offset ≤ offset }
    ensures cursor { (source : List ℕ) → IsCursor S.source source cursor.now → IsCursor S.source source result }
{
    if offset < cursor.offset {
        return Cursor {
            asked: cursor.asked,
            offset: 0,
            line: 0,
        };
    }
    *cursor
}

// Asks the source for the line number of an offset. `None` if it can't be read.
fn read_line_number<S: SourceCode>(source: &S, offset: usize) -> Option<usize>
    ensures { IfSome result (λ line. line ≡ line_of (S.source source.now).bytes offset) }
{
    match source.read_span(&SourceSpan::from(offset), 0, 0) {
        Ok(contents) => Some(contents.line()),
        Err(_) => None,
    }
}

// Returns the line number of an offset, from a cursor before it. Asks the source if at least a fifth of the bytes
// before the offset come after the cursor. A source without an index reads all of these bytes to answer. So the total
// work is linear in the size of the source.
fn line_at<S: SourceCode>(source: &[u8], cursor: &Cursor<'_, S>, offset: usize) -> usize
    requires within { offset ≤ length source.now }
    requires cursor { IsCursor S.source source.now cursor.now }
    ensures { result ≡ line_of source.now offset }
{
    let from = before(cursor, offset);
    let ahead = offset - from.offset;
    if ahead > FEW && from.offset / 4 <= ahead {
        if let Some(line) = read_line_number(from.asked, offset) {
            return line;
        }
    }
    ScanLines(source).line_from(from.offset, from.line, offset)
}

/// Returns the zero-based line and column of an offset, from a cursor before it.
pub(crate) fn place_of<S: SourceCode>(
    source: &[u8],
    cursor: &Cursor<'_, S>,
    offset: usize,
) -> (usize, usize)
    requires within { offset ≤ length source.now }
    requires cursor { IsCursor S.source source.now cursor.now }
    ensures line { result.0 ≡ line_of source.now offset }
    ensures column { result.1 ≡ column_of source.now offset }
{
    let line = line_at(source, cursor, offset);
    let start = start_before(source, offset, 0).0;
    (line, column_from(source, start, offset))
}

// Moves the cursor to an offset and returns its line number.
fn move_cursor<S: SourceCode>(source: &[u8], cursor: &mut Cursor<'_, S>, offset: usize) -> usize
    requires within { offset ≤ length source.now }
    requires cursor { IsCursor S.source source.now cursor.old }
    ensures line { result ≡ line_of source.now offset }
    ensures cursor { IsCursor S.source source.now cursor.new }
{
    let line = line_at(source, cursor, offset);
    cursor.offset = offset;
    cursor.line = line;
    line
}

/// Returns how many lines the first `size` bytes of a hunk's unchanged lines have. Moves the cursor to the last of
/// these bytes.
pub(crate) fn count_lines<S: SourceCode>(
    source: &[u8],
    cursor: &mut Cursor<'_, S>,
    hunk: &Hunk,
    size: usize,
) -> usize
    requires stands { HunkIsIn source.now hunk.now }
    requires within { size ≤ length hunk.now.kept.now }
    requires cursor { IsCursor S.source source.now cursor.old }
    ensures count { result ≡ length (line_texts (take size hunk.now.kept.now)) }
    ensures cursor { IsCursor S.source source.now cursor.new }
{
    if size == 0 {
        return 0;
    }
    let first = move_cursor(source, cursor, hunk.at);
    let last = move_cursor(source, cursor, hunk.at + size - 1);
    last - first + 1
}
