//! Finds lines by scanning.

ghost use Rattle.std.specs.Prelude.{◌≡◌, ◌+◌, ◌-◌, ◌<◌, ◌≤◌, ◌==◌, IsNone, IfSome, length, slice_index};
ghost use Rattle.std.specs.Prelude.{if◌then◌else◌};
ghost use Rattle.miette_lines.specs.rules.Lines.{ends_line, line_of, line_start, line_end};

use crate::find::FindLines;
use crate::newlines::first_newline;
use memchr::memrchr2;

/// Bytes whose lines are found by scanning from the start.
#[derive(Drop)]
pub struct ScanLines<'a>(pub &'a [u8]);

/// Whether a byte is the last of a terminator, given the next byte.
#[inline(always)]
#[tactic(auto, unfolding(crate::specs::rules::Lines::ends_line))]
fn is_end(byte: u8, next: u8) -> bool
    ensures { result ≡ ends_line byte next }
{
    byte == b'\n' || (byte == b'\r' && next != b'\n')
}

/// Whether the byte at an index is the last of a terminator.
pub(crate) fn ends_line(bytes: &[u8], at: usize) -> bool
    requires { at < length bytes.now }
    ensures { result ≡ ends_line (slice_index bytes.now at) (slice_index bytes.now (at + 1)) }
{
    let next = if at + 1 < bytes.len() {
        bytes[at + 1]
    } else {
        0
    };
    is_end(bytes[at], next)
}

/// The number of bytes in a block. It is below 256, so the count of a block fits a byte, and the compiler can use
/// vector instructions.
const BLOCK: usize = 224;

/// Counts the terminators that end in a block, which isn't the last one.
#[tactic(auto, using(crate::proofs::Places::scan_steps))]
fn ends_in_block(bytes: &[u8], from: usize) -> u8
    requires { from + 224 < length bytes.now }
    ensures count { line_of bytes.now from + result ≡ line_of bytes.now (from + 224) }
    ensures few { result ≤ 224 }
{
    let mut ends = 0u8;
    for at in from..from + BLOCK {
        if is_end(bytes[at], bytes[at + 1]) {
            ends += 1;
        }
    }
    ends
}

/// Returns 1 if a byte is the sought one, else 0.
#[inline(always)]
fn count_if(byte: u8, sought: u8) -> u8
    ensures count { result ≡ (if byte == sought then 1 else 0) }
    ensures few { result ≤ 1 }
{
    if byte == sought { 1 } else { 0 }
}

/// Counts the terminators that end between two offsets of a block, if it has no CR. Without CR no byte depends on the
/// next one, and for a whole block the compiler knows the length.
#[inline(always)]
fn feeds_between(bytes: &[u8], from: usize, to: usize) -> Option<u8>
    requires order { from ≤ to }
    requires within { to ≤ length bytes.now }
    requires block { to - from ≤ 224 }
    ensures count { IfSome result (λ feeds. line_of bytes.now from + feeds ≡ line_of bytes.now to) }
    ensures few { IfSome result (λ feeds. feeds ≤ to - from) }
{
    let mut feeds = 0u8;
    let mut returns = 0u8;
    for i in 0..to - from {
        let feed = count_if(bytes[from + i], b'\n');
        let back = count_if(bytes[from + i], b'\r');
        feeds += feed;
        returns += back;
    }
    if returns > 0 {
        return None;
    }
    Some(feeds)
}

/// Skips blocks without CR. Returns where it stopped, and how many terminators end before that.
#[tactic(auto, using(crate::proofs::Places::scan_steps))]
fn pass_feeds(bytes: &[u8], from: usize, to: usize) -> (usize, usize)
    requires order { from ≤ to }
    requires within { to ≤ length bytes.now }
    ensures behind { from ≤ result.0 }
    ensures before { result.0 ≤ to }
    ensures count { line_of bytes.now from + result.1 ≡ line_of bytes.now result.0 }
    ensures few { result.1 ≤ result.0 - from }
{
    let mut ends = 0;
    let mut at = from;
    while to - at > BLOCK {
        let Some(feeds) = feeds_between(bytes, at, at + BLOCK) else {
            return (at, ends);
        };
        ends += usize::from(feeds);
        at += BLOCK;
    }
    match feeds_between(bytes, at, to) {
        Some(feeds) => (to, ends + usize::from(feeds)),
        None => (at, ends),
    }
}

/// Counts the terminators that end between two offsets. After the first block with a CR, each block is checked for CR.
#[tactic(auto, using(crate::proofs::Places::scan_steps))]
pub(crate) fn ends_between(bytes: &[u8], from: usize, to: usize) -> usize
    requires order { from ≤ to }
    requires within { to ≤ length bytes.now }
    ensures count { line_of bytes.now from + result ≡ line_of bytes.now to }
    ensures few { result ≤ to - from }
{
    let (passed, feeds) = pass_feeds(bytes, from, to);
    let mut ends = feeds;
    let mut at = passed;
    while to - at > BLOCK {
        ends += usize::from(ends_in_block(bytes, at));
        at += BLOCK;
    }
    for i in at..to {
        if ends_line(bytes, i) {
            ends += 1;
        }
    }
    ends
}

/// Returns the line number of an offset, given that of an earlier offset.
#[tactic(auto, using(crate::proofs::Places::scan_steps))]
pub(crate) fn line_from(bytes: &[u8], from: usize, line: usize, offset: usize) -> usize
    requires order { from ≤ offset }
    requires within { offset ≤ length bytes.now }
    requires line { line ≡ line_of bytes.now from }
    ensures { result ≡ line_of bytes.now offset }
{
    line + ends_between(bytes, from, offset)
}

/// Returns the index of the first LF or CR at or after an offset. No terminator ends in between.
pub(crate) fn next_newline(bytes: &[u8], offset: usize) -> Option<usize>
    requires { offset ≤ length bytes.now }
    ensures none { IsNone result → line_of bytes.now offset ≡ line_of bytes.now (length bytes.now) }
    ensures after { IfSome result (λ at. offset ≤ at) }
    ensures within { IfSome result (λ at. at < length bytes.now) }
    ensures same { IfSome result (λ at. line_of bytes.now at ≡ line_of bytes.now offset) }
{
    match first_newline(&bytes[offset..]) {
        Some(away) => Some(offset + away),
        None => None,
    }
}

/// Returns the index of the last LF or CR before an offset. No terminator ends in between.
fn last_newline(bytes: &[u8], offset: usize) -> Option<usize>
    requires { offset ≤ length bytes.now }
    ensures none { IsNone result → line_of bytes.now offset ≡ 0 }
    ensures before { IfSome result (λ at. at < offset) }
    ensures same { IfSome result (λ at. line_of bytes.now (at + 1) ≡ line_of bytes.now offset) }
{
    memrchr2(b'\n', b'\r', &bytes[..offset])
}

/// Returns the start of the line `lines` above the line of an offset, by searching backwards, and how many terminators
/// end between that start and the offset.
#[tactic(auto, using(crate::proofs::Places::scan_steps))]
pub fn start_before(bytes: &[u8], offset: usize, lines: usize) -> (usize, usize)
    requires { offset ≤ length bytes.now }
    ensures start { result.0 ≡ line_start bytes.now (line_of bytes.now offset - lines) }
    ensures passed { line_of bytes.now result.0 + result.1 ≡ line_of bytes.now offset }
    ensures order { result.0 ≤ offset }
{
    let mut passed = 0;
    let mut end = offset;
    while let Some(at) = last_newline(bytes, end) {
        if ends_line(bytes, at) {
            if passed == lines {
                return (at + 1, passed);
            }
            passed += 1;
        }
        end = at;
    }
    (0, passed)
}

/// Returns the end of the line `lines` below the line of an offset, and the line number of that end. If `lines` is at
/// least the number of bytes left, terminators are counted in blocks.
#[tactic(auto, using(crate::proofs::Places::scan_steps))]
pub(crate) fn end_after(bytes: &[u8], offset: usize, line: usize, lines: usize) -> (usize, usize)
    requires within { offset ≤ length bytes.now }
    requires line { line ≡ line_of bytes.now offset }
    ensures end { result.0 ≡ line_end bytes.now (line + lines) }
    ensures line { result.1 ≡ line_of bytes.now result.0 }
{
    if lines >= bytes.len() - offset {
        let ends = ends_between(bytes, offset, bytes.len());
        return (bytes.len(), line + ends);
    }
    let mut line = line;
    let mut left = lines;
    let mut from = offset;
    while let Some(at) = next_newline(bytes, from) {
        if ends_line(bytes, at) {
            line += 1;
            if left == 0 {
                return (at + 1, line);
            }
            left -= 1;
        }
        from = at + 1;
    }
    (bytes.len(), line)
}

impl FindLines for ScanLines<'_> {
    ghost text = { λ it. it.0.now };

    fn line_from(&self, from: usize, line: usize, offset: usize) -> usize {
        line_from(self.0, from, line, offset)
    }

    #[tactic(auto, using(crate::proofs::Places::scan_steps))]
    fn start_before(&self, offset: usize, lines: usize) -> (usize, usize) {
        let (start, passed) = start_before(self.0, offset, lines);
        (start, line_from(self.0, 0, 0, start) + passed)
    }

    fn end_after(&self, offset: usize, line: usize, lines: usize) -> (usize, usize) {
        end_after(self.0, offset, line, lines)
    }
}
