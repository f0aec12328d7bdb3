//! Masks control characters.

ghost use Rattle.std.specs.Prelude.{◌≡◌, ℕ, List, IfOk, drop, false, length};
ghost use Rattle.miette_show_rows.specs.rules.Visible.{first_or, has_control, is_control, is_wider, is_widest};
ghost use Rattle.miette_show_rows.specs.rules.Visible.{next_within, sign_at, sign_now, mask_controls};

use std::alloc::{AllocError, Global};

/// Returns whether the next byte is in this range.
fn next_within(low: u8, high: u8, bytes: &[u8]) -> bool
    ensures { result ≡ next_within low high bytes.now }
{
    match bytes.first() {
        Some(first) => low <= *first && *first <= high,
        None => false,
    }
}

/// Returns whether a byte is a control character.
fn is_control(byte: u8) -> bool
    ensures { result ≡ is_control byte }
{
    (byte <= 31 && !matches!(byte, b'\t' | b'\n' | b'\r')) || byte == 127
}

/// Returns whether this byte starts a control character of two bytes.
fn is_wider(byte: u8, after: &[u8]) -> bool
    ensures { result ≡ is_wider byte after.now }
{
    (byte == 0xC2 && next_within(0x80, 0x9F, after))
        || (byte == 0xD8 && next_within(0x9C, 0x9C, after))
}

/// Returns the bytes after the first one.
fn rest_of(bytes: &[u8]) -> &[u8]
    ensures { result.now ≡ drop 1 bytes.now }
{
    match bytes.split_first() {
        Some((_, rest)) => rest,
        None => bytes,
    }
}

/// Returns whether this byte starts a control character of three bytes.
fn is_widest(byte: u8, after: &[u8]) -> bool
    ensures { result ≡ is_widest byte after.now }
{
    let last = rest_of(after);
    byte == 0xE2
        && ((next_within(0x80, 0x80, after)
            && (next_within(0x8E, 0x8F, last) || next_within(0xAA, 0xAE, last)))
            || (next_within(0x81, 0x81, after) && next_within(0xA6, 0xA9, last)))
}

/// Returns the sign for a control character at the start of the bytes. Empty if there is none.
fn sign_at(bytes: &[u8]) -> &'static [u8]
    ensures { result.now ≡ sign_at bytes.now }
{
    match bytes.split_first() {
        Some((first, _)) if is_control(*first) => b"?",
        Some((first, rest)) if is_wider(*first, rest) => b"\xC2\xBF",
        Some((first, rest)) if is_widest(*first, rest) => b"\xEF\xBF\xBD",
        _ => b"",
    }
}

/// Returns the rest of a sign, or else the sign that starts here.
fn sign_now<'s>(left: &'s [u8], bytes: &[u8]) -> &'s [u8]
    ensures { result.now ≡ sign_now left.now bytes.now }
{
    if left.is_empty() {
        sign_at(bytes)
    } else {
        left
    }
}

/// Returns the first byte of a sign, or else this one.
fn first_or(byte: u8, sign: &[u8]) -> u8
    ensures { result ≡ first_or byte sign.now }
{
    match sign.first() {
        Some(first) => *first,
        None => byte,
    }
}

/// Returns a copy with each control character replaced by a sign of the same length: `?`, U+00BF or U+FFFD. Tabs and
/// line ends stay. Characters that reorder text count as control characters.
///
/// # Errors
/// `AllocError` if allocation fails.
pub fn mask_controls(alloc: Global, bytes: &[u8]) -> Result<Vec<u8>, AllocError>
    ensures { IfOk result (λ list. list.items ≡ mask_controls bytes.now) }
{
    let mut list = Vec::new(alloc);
    let mut sign: &[u8] = b"";
    let mut rest = bytes;
    while let Some((first, more)) = rest.split_first() {
        let now = sign_now(sign, rest);
        list.push(first_or(*first, now))?;
        sign = rest_of(now);
        rest = more;
    }
    Ok(list)
}

/// A masked text has the same length and no control characters except tabs and line ends. A text without control
/// characters stays the same.
pub fn visible_laws()
    ensures length { (bytes : List ℕ) → length (mask_controls bytes) ≡ length bytes }
    ensures none { (bytes : List ℕ) → has_control (mask_controls bytes) ≡ false }
    ensures same { (bytes : List ℕ) → has_control bytes ≡ false → mask_controls bytes ≡ bytes }
{}
