//! Converts blanks to spaces.

ghost use Rattle.std.specs.Prelude.{◌≡◌, IfOk, string_bytes};
ghost use Rattle.miette_lint.specs.rules.Fixes.{spaces_at, spaces_from};

use std::alloc::{AllocError, Global};

// Distance of tab stops in columns.
const TAB: usize = 4;

// A blank at a column, as spaces.
fn spaces_at(column: usize, blank: u8) -> &'static str
    ensures { result.now ≡ spaces_at column blank }
{
    if blank != b'\t' {
        return " ";
    }
    match column % TAB {
        0 => "    ",
        1 => "   ",
        2 => "  ",
        _ => " ",
    }
}

/// Leading blanks as spaces up to the same column.
pub(crate) fn spaces_for(alloc: Global, blanks: &[u8]) -> Result<String, AllocError>
    ensures { IfOk result (λ text. string_bytes text ≡ spaces_from 0 blanks.now) }
{
    let mut text = String::new(alloc);
    for blank in blanks {
        text.push_str(spaces_at(text.len(), *blank))?;
    }
    Ok(text)
}
