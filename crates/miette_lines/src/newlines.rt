//! Finds the first LF or CR of bytes, one block at a time.

ghost use Rattle.std.specs.Prelude.{◌≡◌, map, not};
ghost use Rattle.std.specs.List.{prefix_len};
ghost use Rattle.std.specs.Simd.Lanes.{mask_l};
ghost use Rattle.memchr.specs.Find.{IsFirstByte, is_byte2};

use std::simd::prelude::*;

/// The number of bytes in a block.
const BLOCK: usize = 64;

/// Returns the index of the first LF or CR.
pub(crate) fn first_newline(bytes: &[u8]) -> Option<usize>
    ensures { IsFirstByte (is_byte2 10 13) bytes.now result }
{
    let len = text_len(bytes);
    if len < bytes.len() { Some(len) } else { None }
}

/// Counts the bytes before the first LF or CR, or all bytes if there is none.
fn text_len(bytes: &[u8]) -> usize
    ensures { result ≡ prefix_len (λ b. not (is_byte2 10 13 b)) bytes.now }
{
    let mut len = 0;
    while bytes.len() - len >= BLOCK {
        let found = newlines_in(u8x64::from_slice(&bytes[len..]));
        if found != 0 {
            return len + found.trailing_zeros() as usize;
        }
        len += BLOCK;
    }
    while len < bytes.len() && !is_newline(bytes[len]) {
        len += 1;
    }
    len
}

/// Returns a bit for each byte of a block, the lowest for the first byte: whether it is LF or CR.
#[inline(always)]
fn newlines_in(block: u8x64) -> u64
    ensures { result ≡ mask_l (map (is_byte2 10 13) block) }
{
    (block.simd_eq(u8x64::splat(b'\n')) | block.simd_eq(u8x64::splat(b'\r'))).to_bitmask()
}

fn is_newline(byte: u8) -> bool
    ensures { result ≡ is_byte2 10 13 byte }
{
    byte == b'\n' || byte == b'\r'
}
