//! JSON string literals.

ghost use Rattle.std.specs.Prelude.{◌≡◌, ◌<◌, ◌++◌, ◌/◌, ◌∷◌, [], true, IfOk, OnOk, length, map, position};
ghost use Rattle.std.specs.Prelude.{string_bytes};
ghost use Rattle.std.specs.Char.{digit_char};
ghost use Rattle.std.specs.List.{prefix_len};
ghost use Rattle.std.specs.Simd.Lanes.{mask_l};
ghost use Rattle.miette_json.specs.rules.Json.{escaped_text, quoted_text};
ghost use Rattle.miette_json.specs.steps.EscapedBytes.{begins_escaped, is_escaped, is_unescaped, control_text};
ghost use Rattle.json.specs.Print.{escape_byte};

use std::alloc::AllocError;
use std::simd::prelude::*;

/// Number of bytes that are tested at once.
const BLOCK: usize = 16;

/// Appends a string literal: quotes and escapes included.
pub fn push_json_string(out: &mut String, text: &str) -> Result<(), AllocError>
    ensures { OnOk result (string_bytes out.new ≡ string_bytes out.old ++ quoted_text text.now) }
{
    out.push('"')?;
    push_escaped(out, text)?;
    out.push('"')
}

/// Appends a text with its escapes. Runs of bytes without escapes are copied at once.
fn push_escaped(out: &mut String, text: &str) -> Result<(), AllocError>
    ensures { OnOk result (string_bytes out.new ≡ string_bytes out.old ++ escaped_text text.now) }
{
    let mut rest = text;
    while let Some(at) = first_escape(rest) {
        out.push_str(&rest[..at])?;
        rest = push_escapes(out, &rest[at..])?;
    }
    out.push_str(rest)
}

/// Appends escapes up to the first byte that needs none. Returns the text from that byte on.
fn push_escapes<'a>(out: &mut String, text: &'a str) -> Result<&'a str, AllocError>
    requires { begins_escaped text.now ≡ true }
    ensures text { IfOk result (λ rest. string_bytes out.new ++ escaped_text rest.now
        ≡ string_bytes out.old ++ escaped_text text.now) }
    ensures shorter { IfOk result (λ rest. length rest.now < length text.now) }
{
    let mut rest = text;
    'rest: loop {
        push_escape(out, rest.as_bytes()[0])?;
        rest = &rest[1..];
        if !begins_escaped(rest) {
            return Ok(rest);
        }
    }
}

/// Whether the first byte of a text needs an escape.
fn begins_escaped(text: &str) -> bool
    ensures { result ≡ begins_escaped text.now }
{
    match text.as_bytes() {
        [byte, ..] => needs_escape(*byte),
        [] => false,
    }
}

/// Index of the first byte that needs an escape.
fn first_escape(text: &str) -> Option<usize>
    ensures { result ≡ position is_escaped text.now }
{
    let len = plain_len(text.as_bytes());
    if len < text.len() { Some(len) } else { None }
}

/// Number of leading bytes that need no escape.
fn plain_len(bytes: &[u8]) -> usize
    ensures { result ≡ prefix_len is_unescaped bytes.now }
{
    let mut len = 0;
    while bytes.len() - len >= BLOCK {
        let escapes = escapes_in(u8x16::from_slice(&bytes[len..]));
        if escapes != 0 {
            return len + escapes.trailing_zeros() as usize;
        }
        len += BLOCK;
    }
    while len < bytes.len() && !needs_escape(bytes[len]) {
        len += 1;
    }
    len
}

/// A bit per byte of a block, lowest bit first: whether the byte needs an escape.
#[inline(always)]
fn escapes_in(block: u8x16) -> u64
    ensures { result ≡ mask_l (map is_escaped block) }
{
    (block.simd_lt(u8x16::splat(b' '))
        | block.simd_eq(u8x16::splat(b'"'))
        | block.simd_eq(u8x16::splat(b'\\'))).to_bitmask()
}

/// Whether a byte needs an escape in a string.
fn needs_escape(byte: u8) -> bool
    ensures { result ≡ is_escaped byte }
{
    byte < b' ' || byte == b'"' || byte == b'\\'
}

/// Appends the escape of a byte that needs one.
#[tactic(auto, using(crate::proofs::JsonSpelled::byte_short, crate::proofs::JsonSpelled::byte_control))]
fn push_escape(out: &mut String, byte: u8) -> Result<(), AllocError>
    requires { is_escaped byte ≡ true }
    ensures { OnOk result (string_bytes out.new ≡ string_bytes out.old ++ escape_byte byte) }
{
    match byte {
        b'"' => out.push_str("\\\""),
        b'\\' => out.push_str("\\\\"),
        b'\n' => out.push_str("\\n"),
        b'\r' => out.push_str("\\r"),
        b'\t' => out.push_str("\\t"),
        0x08 => out.push_str("\\b"),
        0x0c => out.push_str("\\f"),
        _ => push_control(out, byte),
    }
}

/// `\u001b`
fn push_control(out: &mut String, byte: u8) -> Result<(), AllocError>
    requires { byte < 32 }
    ensures { OnOk result (string_bytes out.new ≡ string_bytes out.old ++ control_text byte) }
{
    out.push_str(control_front(byte))?;
    out.push(hex_digit(byte % 16))
}

/// All of a control character's escape except the last digit.
#[inline(always)]
#[tactic(auto, using(crate::proofs::JsonSpelled::front_low, crate::proofs::JsonSpelled::front_high))]
fn control_front(byte: u8) -> &'static str
    requires { byte < 32 }
    ensures { result.now ≡ 92 ∷ 117 ∷ 48 ∷ 48 ∷ digit_char (byte / 16) ∷ [] }
{
    if byte < 16 { "\\u000" } else { "\\u001" }
}

/// A hexadecimal digit in lower case.
fn hex_digit(n: u8) -> char
    requires { n < 16 }
    ensures digit { result ≡ digit_char n }
    ensures low { result < 128 }
{
    if n < 10 {
        (b'0' + n) as char
    } else {
        (b'a' + (n - 10)) as char
    }
}
