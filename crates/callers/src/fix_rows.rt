//! The changed lines of a fix.

ghost use Rattle.std.specs.Prelude.{◌≡◌, IfOk, length, nat_lt};
ghost use Rattle.miette_fix_rows.specs.rules.Hunks.{changes};

use miette_fix_rows::changes::changes;
use miette_fixes::fix::{Fix, FixError};
use std::alloc::Global;

/// Returns whether a fix changes a line of a source.
pub fn changes_a_line(alloc: Global, source: &[u8], fix: &Fix) -> Result<bool, FixError>
    ensures { IfOk result (λ it. it ≡ nat_lt 0 (length (changes source.now fix.now.edits))) }
{
    let made = changes(alloc, source, fix)?;
    Ok(0 < made.len())
}
