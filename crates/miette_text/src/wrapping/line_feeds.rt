//! Finds the first line feed of bytes, one block at a time.

ghost use Rattle.std.specs.Prelude.{◌≡◌, map};
ghost use Rattle.std.specs.List.{prefix_len};
ghost use Rattle.std.specs.Simd.Lanes.{mask_l};
ghost use Rattle.miette_runs.specs.rules.Sequences.{is_line_feed};
ghost use Rattle.miette_text.specs.steps.WholeText.{is_in_row};

use std::simd::prelude::*;

/// The number of bytes in a block.
const BLOCK: usize = 16;

/// Counts the bytes before the first line feed, or all bytes if there is none.
pub(crate) fn row_len(bytes: &[u8]) -> usize
    ensures { result ≡ prefix_len is_in_row bytes.now }
{
    let mut len = 0;
    while bytes.len() - len >= BLOCK {
        let feeds = feeds_in(u8x16::from_slice(&bytes[len..]));
        if feeds != 0 {
            return len + feeds.trailing_zeros() as usize;
        }
        len += BLOCK;
    }
    while len < bytes.len() && !is_feed(bytes[len]) {
        len += 1;
    }
    len
}

/// Returns a bit for each byte of a block, the lowest for the first byte: whether it is a line feed.
#[inline(always)]
fn feeds_in(block: u8x16) -> u64
    ensures { result ≡ mask_l (map is_line_feed block) }
{
    block.simd_eq(u8x16::splat(b'\n')).to_bitmask()
}

fn is_feed(byte: u8) -> bool
    ensures { result ≡ is_line_feed byte }
{
    byte == b'\n'
}
