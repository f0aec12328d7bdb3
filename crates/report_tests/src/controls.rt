//! The functions of docs/GUIDE.md that mask control characters of untrusted files.

use crate::comparing::gives;
use std::alloc::{AllocError, Global};

/// Masks the control characters of a text. Its length stays the same, and so do labels.
fn visible(alloc: Global, text: &str) -> Result<String, AllocError> {
    let mut shown = String::new(alloc);
    for c in text.chars() {
        shown.push(sign_of(c))?;
    }
    Ok(shown)
}

/// Returns the sign for a control character, of the same length in bytes, or the character
/// itself.
fn sign_of(c: char) -> char {
    match c {
        '\n' | '\r' | '\t' => c,
        '\0'..='\x1F' | '\x7F' => '?',
        '\u{80}'..='\u{9F}' | '\u{61C}' => '¿',
        '\u{200E}' | '\u{200F}' | '\u{202A}'..='\u{202E}' | '\u{2066}'..='\u{2069}' => '\u{FFFD}',
        _ => c,
    }
}

#[test]
fn signs_have_as_many_bytes(rt: HostRuntime) {
    let text = "\ta\r\n\x1B[31m\x7F\u{85}é\u{61C}\u{202E}漢\u{2069}😀";
    let signs = "\ta\r\n?[31m?¿é¿\u{FFFD}漢\u{FFFD}😀";
    gives(&rt, visible(rt.alloc(), text), signs);
}
