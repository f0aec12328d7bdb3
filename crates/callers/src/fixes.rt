//! A fix of one edit.

ghost use Rattle.std.specs.Prelude.{◌≡◌, ◌+◌, ◌++◌, IfOk, drop, slice_range};

use miette_fixes::fix::{Edit, Fix, FixError};
use std::alloc::Global;

/// Returns the source with a span replaced by a name.
pub fn renamed(
    alloc: Global,
    source: &[u8],
    offset: usize,
    len: usize,
    name: &str,
) -> Result<Vec<u8>, FixError>
    ensures { IfOk result (λ text. text.items
        ≡ slice_range source.now 0 offset ++ name.now ++ drop (offset + len) source.now) }
{
    let text = String::from_str(alloc, name)?;
    let fix = Fix::new(alloc, "a name")?.with_edit(Edit::replace((offset, len), text))?;
    fix.apply(alloc, source)
}
