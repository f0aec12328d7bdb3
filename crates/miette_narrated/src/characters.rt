//! Bytes of source text, decoded to characters.

ghost use Rattle.std.specs.Prelude.{◌≡◌, ◌++◌, OnOk, string_bytes};
ghost use Rattle.miette_columns.specs.rules.Cells.{characters};
ghost use Rattle.miette_narrated.specs.rules.Lines.{characters_text};

use miette_columns::cells::decode_first_char;
use std::alloc::AllocError;

/// Appends bytes as text. Each byte sequence that is not UTF-8 becomes U+FFFD.
#[tactic(auto, using(crate::proofs::DecodedText::decoded_utf8))]
pub(crate) fn push_decoded(out: &mut String, bytes: &[u8]) -> Result<(), AllocError>
    ensures { OnOk result (string_bytes out.new ≡ string_bytes out.old ++ characters_text (characters bytes.now)) }
{
    match str::from_utf8(bytes) {
        Ok(text) => out.push_str(text),
        Err(_) => push_replaced(out, bytes),
    }
}

// Appends bytes character by character, with U+FFFD for invalid sequences.
fn push_replaced(out: &mut String, bytes: &[u8]) -> Result<(), AllocError>
    ensures { OnOk result (string_bytes out.new ≡ string_bytes out.old ++ characters_text (characters bytes.now)) }
{
    let mut rest = bytes;
    while !rest.is_empty() {
        let (code, size) = decode_first_char(rest);
        out.push(code)?;
        rest = &rest[size..];
    }
    Ok(())
}
