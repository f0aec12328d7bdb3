//! Blocks of a fix: which lines of the source its edits touch.

ghost use Rattle.std.specs.Prelude.{◌≡◌, ◌<◌, ◌≤◌, ◌==◌, drop, length, slice_index, nat_le};
ghost use Rattle.miette_lines.specs.rules.Lines.{LF, line_of, line_start, line_end};
ghost use Rattle.miette_fixes.specs.rules.Applying.{text_from};
ghost use Rattle.miette_fixes.specs.views.Ordered.{FitFrom, edits_of};
ghost use Rattle.miette_fix_rows.specs.rules.Blocks.{block_from, touched_from, touched_to};
ghost use Rattle.miette_fix_rows.specs.steps.Sharing.{IsBlock, IsLastBlock};

use miette_fixes::fix::Edit;
use miette_lines::lines::first_line;
use miette_lines::scan::start_before;

/// Returns the start of the line of an offset.
pub(crate) fn start_of_line(source: &[u8], offset: usize) -> usize
    requires { offset ≤ length source.now }
    ensures start { result ≡ line_start source.now (line_of source.now offset) }
    ensures order { result ≤ offset }
{
    start_before(source, offset, 0).0
}

/// Returns the start of the line of an offset. `next` is a later offset, whose line begins at `start`.
fn start_before_next(source: &[u8], start: usize, next: usize, offset: usize) -> usize
    requires known { start ≡ line_start source.now (line_of source.now next) }
    requires order { offset ≤ next }
    requires within { next ≤ length source.now }
    ensures start { result ≡ line_start source.now (line_of source.now offset) }
    ensures before { result ≤ offset }
{
    if start <= offset {
        return start;
    }
    start_of_line(source, offset)
}

/// Returns the end of the line of an offset.
pub(crate) fn end_of_line(source: &[u8], offset: usize) -> usize
    requires { offset ≤ length source.now }
    ensures end { result ≡ line_end source.now (line_of source.now offset) }
    ensures order { offset ≤ result }
    ensures within { result ≤ length source.now }
{
    if offset == source.len() {
        return offset;
    }
    first_line(&source[offset..], offset).end
}

// Returns whether the text from an offset on begins with LF once the edits are applied.
fn begins_with_lf(bytes: &[u8], from: usize, edits: &[&Edit]) -> bool
    requires { FitFrom (length bytes.now) from (edits_of edits.now) }
    ensures { result ≡ (slice_index (text_from bytes.now from (edits_of edits.now)) 0 == LF) }
{
    let mut at = from;
    for edit in edits {
        if at < edit.offset() {
            return bytes[at] == b'\n';
        }
        if let Some(first) = edit.text().as_bytes().first() {
            return *first == b'\n';
        }
        at = edit.offset() + edit.len();
    }
    at < bytes.len() && bytes[at] == b'\n'
}

/// Returns the start of a block. `start` and `to` are the bounds of the lines its edits touch.
pub(crate) fn block_start(source: &[u8], start: usize, to: usize, edits: &[&Edit]) -> usize
    requires { IsBlock source.now start to (edits_of edits.now) }
    ensures start { result ≡ block_from source.now (edits_of edits.now) }
    ensures order { result ≤ start }
{
    if start == 0 || source[start - 1] != b'\r' {
        return start;
    }
    if begins_with_lf(&source[..to], start, edits) {
        return start_before(source, start, 1).0;
    }
    start
}

/// Returns whether an edit that ends at the offset `end` shares a line with the block after it.
pub(crate) fn shares(source: &[u8], start: usize, to: usize, edits: &[&Edit], end: usize) -> bool
    requires { IsBlock source.now start to (edits_of edits.now) }
    ensures { result ≡ nat_le (block_from source.now (edits_of edits.now)) end }
{
    start <= end || block_start(source, start, to, edits) <= end
}

/// The last block of a list of edits.
#[derive(Clone, Copy)]
pub(crate) struct Block {
    /// The index of its first edit.
    pub(crate) low: usize,
    /// The start of the first touched line.
    pub(crate) start: usize,
    /// The end of the last touched line.
    pub(crate) to: usize,
}

/// Returns the last block of the edits. No later edit may belong to it.
pub(crate) fn last_block(source: &[u8], edits: &[&Edit]) -> Block
    requires some { 0 < length edits.now }
    requires fit { FitFrom (length source.now) 0 (edits_of edits.now) }
    ensures order { result.low < length edits.now }
    ensures block { IsBlock source.now result.start result.to (drop result.low (edits_of edits.now)) }
    ensures last { IsLastBlock source.now (edits_of edits.now) result.low }
{
    let last = edits[edits.len() - 1];
    let mut low = edits.len() - 1;
    let mut start = start_of_line(source, last.offset());
    let to = end_of_line(source, last.offset() + last.len());
    while low > 0 {
        let edit = edits[low - 1];
        let end = edit.offset() + edit.len();
        if !shares(source, start, to, &edits[low..], end) {
            return Block { low, start, to };
        }
        start = start_before_next(source, start, edits[low].offset(), edit.offset());
        low -= 1;
    }
    Block { low, start, to }
}
