//! Highlights a line character by character.

ghost use Rattle.std.specs.Prelude.{IfOk};
ghost use Rattle.std.specs.Str.{chars};
ghost use Rattle.miette_highlight.specs.rules.Characters.{AreCharacters};
ghost use Rattle.miette_highlight.specs.rules.Pieces.{CutsLine};

use miette_style::style::Style;
use std::alloc::{AllocError, Global};

/// Returns a piece for each character of a line, with the style that the function returns for it.
///
/// # Errors
/// `AllocError` if allocation fails.
pub fn style_each_char<F: Fn(char) -> Style>(
    alloc: Global,
    line: &str,
    style_of: F,
) -> Result<Vec<(usize, Style)>, AllocError>
    requires { F.IsAlwaysCallable style_of }
    ensures cuts { IfOk result (λ pieces. CutsLine line.now pieces.items) }
    ensures styles { IfOk result (λ pieces.
        AreCharacters (λ c style. F.post style_of c style) (chars line.now) pieces.items) }
{
    let mut pieces = Vec::new(alloc);
    for c in line.chars() {
        pieces.push((c.len_utf8(), style_of(c)))?;
    }
    Ok(pieces)
}
