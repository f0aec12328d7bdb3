//! A highlighted line.

ghost use Rattle.std.specs.Prelude.{◌≡◌, IfOk, length};
ghost use Rattle.miette_highlight.specs.rules.Pieces.{total_length};

use miette_highlight::highlight::{pieces_law, style_each_char};
use miette_style::style::{Color, Style};
use std::alloc::{AllocError, Global};

/// Returns the pieces of a line with its digits in cyan. Together they are as long as the line.
pub fn digits_in_cyan(alloc: Global, line: &str) -> Result<Vec<(usize, Style)>, AllocError>
    ensures { IfOk result (λ pieces. total_length pieces.items ≡ length line.now) }
{
    pieces_law();
    let cyan = Style::new().color(Color::Cyan);
    style_each_char(alloc, line, |c| {
        if c.is_ascii_digit() {
            cyan
        } else {
            Style::new()
        }
    })
}
