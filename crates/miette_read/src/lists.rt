//! Appending to lists.

ghost use Rattle.std.specs.Prelude.{◌≡◌, ◌++◌, ◌∷◌, [], IfOk, OnOk};

use std::alloc::{AllocError, Global};

/// Appends an item.
///
/// # Errors
/// `AllocError` if allocation fails.
pub fn push_item<T: Drop>(list: &mut Vec<T>, item: T) -> Result<(), AllocError>
    ensures { OnOk result (list.new.items ≡ list.old.items ++ item ∷ []) }
{
    list.push(item)?;
    Ok(())
}

/// Returns a list of one item.
///
/// # Errors
/// `AllocError` if allocation fails.
pub fn list_of_one<T: Drop>(alloc: Global, item: T) -> Result<Vec<T>, AllocError>
    ensures { IfOk result (λ list. list.items ≡ item ∷ []) }
{
    let mut list = Vec::new(alloc);
    push_item(&mut list, item)?;
    Ok(list)
}
