//! What styled text is appended to.

ghost use Rattle.std.specs.Prelude.{◌≡◌, ℕ, List, [], ◌∷◌, ◌++◌, chars, encode_utf8_all, string_bytes, OnOk};
ghost use Rattle.miette_style.specs.rules.Codes.{colour_start, colour_stop};

use crate::codes::push_style;
use crate::style::Style;
use std::alloc::AllocError;

// The code that ends a style.
const STYLE_END: &str = "\u{1B}[0m";

/// Receives characters in styles. One implementation prints them to a text, another collects them for wrapping.
///
/// After an error its content is unspecified; drop it.
pub trait Canvas {
    /// The characters that were appended, including the codes that begin and end styles.
    ghost written: { Self → List ℕ };

    /// Reserves room for `many` copies of a character. The content doesn't change.
    ///
    /// # Errors
    /// `AllocError` if allocation fails, or if the copies have more than `usize::MAX` bytes.
    fn reserve(&mut self, c: char, many: usize) -> Result<(), AllocError>
        ensures { OnOk result (written self.new ≡ written self.old) };

    /// Appends a character. Returns `AllocError` if allocation fails.
    fn push(&mut self, c: char) -> Result<(), AllocError>
        ensures { OnOk result (written self.new ≡ written self.old ++ c ∷ []) };

    /// Appends characters. Returns `AllocError` if allocation fails.
    fn push_chars(&mut self, codes: &[char]) -> Result<(), AllocError>
        ensures { OnOk result (written self.new ≡ written self.old ++ codes.now) };

    /// Appends the characters of a text. Returns `AllocError` if allocation fails.
    fn push_str(&mut self, text: &str) -> Result<(), AllocError>
        ensures { OnOk result (written self.new ≡ written self.old ++ chars text.now) };

    /// Begins a style. Returns `AllocError` if allocation fails.
    fn begin(&mut self, style: Style) -> Result<(), AllocError>
        ensures { OnOk result (written self.new ≡ written self.old ++ colour_start style) };

    /// Ends the style. Returns `AllocError` if allocation fails.
    fn end(&mut self) -> Result<(), AllocError>
        ensures { OnOk result (written self.new ≡ written self.old ++ colour_stop) };
}

fn push_codes(text: &mut String, codes: &[char]) -> Result<(), AllocError>
    ensures { OnOk result (string_bytes text.new ≡ string_bytes text.old ++ encode_utf8_all codes.now) }
{
    for code in codes {
        text.push(*code)?;
    }
    Ok(())
}

/// Prints styles as escape sequences.
impl Canvas for String {
    ghost written = { λ text. chars (string_bytes text) };

    fn reserve(&mut self, c: char, many: usize) -> Result<(), AllocError> {
        let Some(room) = many.checked_mul(c.len_utf8()) else {
            return Err(AllocError);
        };
        String::reserve(self, room)
    }

    fn push(&mut self, c: char) -> Result<(), AllocError> {
        String::push(self, c)
    }

    fn push_chars(&mut self, codes: &[char]) -> Result<(), AllocError> {
        push_codes(self, codes)
    }

    fn push_str(&mut self, text: &str) -> Result<(), AllocError> {
        String::push_str(self, text)
    }

    fn begin(&mut self, style: Style) -> Result<(), AllocError> {
        push_style(self, style)
    }

    fn end(&mut self) -> Result<(), AllocError> {
        String::push_str(self, STYLE_END)
    }
}
