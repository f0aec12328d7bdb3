//! Lists of lines.

ghost use Rattle.std.specs.Prelude.{◌≡◌, ◌<◌, ◌≤◌, ◌^◌, [], get_or, length, IfOk};
ghost use Rattle.std.specs.Str.{bytes_eq};
ghost use Rattle.miette_fix_rows.specs.rules.Blocks.{bytes_of, line_texts};
ghost use Rattle.miette_fix_rows.specs.rules.Hunks.{common};
ghost use Rattle.miette_fix_rows.specs.views.LineLists.{met_from, borrowed_lines};

use miette_lines::lines::first_line;
use std::alloc::{AllocError, Global};

/// Returns the lines of the bytes, each with its terminator. `AllocError` if allocation fails.
pub(crate) fn lines<'a>(alloc: Global, bytes: &'a [u8]) -> Result<Vec<&'a [u8]>, AllocError>
    ensures { IfOk result (λ list. borrowed_lines list.items ≡ line_texts bytes.now) }
{
    let mut list = Vec::new(alloc);
    let mut rest = bytes;
    let mut left = bytes.len();
    while left > 0 {
        let line = first_line(rest, 0);
        list.push(&rest[..line.end])?;
        rest = &rest[line.end..];
        left -= line.end;
    }
    Ok(list)
}

// Returns whether two lines are equal, including their terminators.
fn are_same(line: &[u8], other: &[u8]) -> bool
    ensures { result ≡ bytes_eq line.now other.now }
{
    line == other
}

/// From which end of a list the lines are counted.
#[derive(Clone, Copy)]
pub(crate) enum Side {
    Front,
    Back,
}

// Returns line `i` of a list, counted from this side.
fn line_from<'a>(side: Side, lines: &[&'a [u8]], i: usize) -> &'a [u8]
    requires { i < length lines.now }
    ensures { result.now ≡ get_or (met_from side (borrowed_lines lines.now)) i [] }
{
    match side {
        Side::Front => lines[i],
        Side::Back => lines[lines.len() - 1 - i],
    }
}

/// Returns how many lines two lists have in common, counted from this side.
pub(crate) fn common(side: Side, lines: &[&[u8]], others: &[&[u8]]) -> usize
    ensures common { result ≡ common (met_from side (borrowed_lines lines.now))
        (met_from side (borrowed_lines others.now)) }
    ensures within { result ≤ length lines.now }
    ensures other { result ≤ length others.now }
{
    let most = lines.len().min(others.len());
    for i in 0..most {
        let line = line_from(side, lines, i);
        let other = line_from(side, others, i);
        if !are_same(line, other) {
            return i;
        }
    }
    most
}

/// Returns the number of bytes of the lines.
pub(crate) fn total(lines: &[&[u8]]) -> usize
    requires { bytes_of (borrowed_lines lines.now) < 2 ^ 64 }
    ensures { result ≡ bytes_of (borrowed_lines lines.now) }
{
    let mut bytes = 0;
    for line in lines {
        bytes += line.len();
    }
    bytes
}
