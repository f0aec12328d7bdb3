//! Calls of fixes and edits.

use crate::fixtures::{WrittenFix, fix_of, list_of};
use crate::rows::{CallResult, Rows};
use miette_fixes::fix::{Edit, Fix, apply_all};
use std::alloc::{AllocError, Global};

/// The calls of this module.
#[derive(Clone, Copy)]
pub enum FixCall {
    Delete,
    EditClones,
    New,
    WithEdit,
    WithEditsFrom,
    Apply,
    ApplyAll,
}

/// Makes a call and prints its row.
///
/// # Errors
/// If allocating the call's arguments fails.
pub fn make(alloc: Global, call: FixCall, row: &mut Rows) -> CallResult {
    match call {
        FixCall::Delete => row.value(&Edit::delete(alloc, (0, 1))),
        FixCall::EditClones => return row.clones(colon(alloc)),
        FixCall::New => row.answer(Fix::new(alloc, "m")),
        FixCall::WithEdit => row.answer(colon_fix(alloc)),
        FixCall::WithEditsFrom => row.answer(with_edits(alloc)),
        FixCall::Apply | FixCall::ApplyAll => applied(alloc, call, row, &with_edits(alloc)?),
    }
    Ok(())
}

/// Prints the text after a fix.
fn applied(alloc: Global, call: FixCall, row: &mut Rows, fix: &Fix) {
    match call {
        FixCall::ApplyAll => row.answer(apply_all(alloc, b"if x", &[fix])),
        _ => match fix.apply(alloc, b"if x") {
            Ok(text) => row.value(&text),
            Err(_) => row.refused(),
        },
    }
}

fn colon(alloc: Global) -> Result<Edit, AllocError> {
    Ok(Edit::insert(4, String::from_str(alloc, ":")?))
}

/// The message `m`, and an edit that inserts a colon.
pub const COLON: WrittenFix = ("m", 4, 0, ":");

/// Returns that fix.
///
/// # Errors
/// If allocation fails.
pub fn colon_fix(alloc: Global) -> Result<Fix, AllocError> {
    fix_of(alloc, &COLON)
}

/// Returns a fix with two edits: it inserts a colon and deletes the first byte.
fn with_edits(alloc: Global) -> Result<Fix, AllocError> {
    let edits = list_of(alloc, Ok(Edit::delete(alloc, (0, 1))))?;
    colon_fix(alloc)?.with_edits_from(alloc, edits)
}
