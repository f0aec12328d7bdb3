//! Tests for printable ASCII, one block at a time.

ghost use Rattle.std.specs.Prelude.{◌≡◌, map};
ghost use Rattle.std.specs.Simd.Lanes.{mask_l};
ghost use Rattle.miette_text.specs.steps.Fitting.{all_printable, is_other};

use std::simd::prelude::*;

/// The number of bytes in a block.
const BLOCK: usize = 16;

/// Whether all bytes are printable ASCII, from the space to the tilde. Each is then a character of one column.
pub(crate) fn is_printable(bytes: &[u8]) -> bool
    ensures { result ≡ all_printable bytes.now }
{
    let mut len = 0;
    while bytes.len() - len >= BLOCK {
        let others = others_in(u8x16::from_slice(&bytes[len..]));
        if others != 0 {
            return false;
        }
        len += BLOCK;
    }
    while len < bytes.len() {
        if is_other(bytes[len]) {
            return false;
        }
        len += 1;
    }
    true
}

/// Returns a bit for each byte of a block, the lowest for the first byte: whether it isn't printable ASCII.
#[inline(always)]
fn others_in(block: u8x16) -> u64
    ensures { result ≡ mask_l (map is_other block) }
{
    (block.simd_lt(u8x16::splat(b' ')) | u8x16::splat(b'~').simd_lt(block)).to_bitmask()
}

fn is_other(byte: u8) -> bool
    ensures { result ≡ is_other byte }
{
    byte < b' ' || b'~' < byte
}
