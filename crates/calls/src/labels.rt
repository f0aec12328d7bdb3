//! Calls of labels.

use crate::rows::{CallResult, Rows};
use miette::protocol::LabeledSpan;
use std::alloc::Global;

/// The calls of this module.
#[derive(Clone, Copy)]
pub enum LabelCall {
    At,
    AtOffset,
    Clones,
}

/// Makes a call and prints its row.
///
/// # Errors
/// If allocating the call's arguments fails.
pub fn make(alloc: Global, call: LabelCall, row: &mut Rows) -> CallResult {
    match call {
        LabelCall::At => row.answer(LabeledSpan::at(alloc, (9, 4), "This bit here")),
        LabelCall::AtOffset => row.answer(LabeledSpan::at_offset(alloc, 9, "here")),
        LabelCall::Clones => {
            let label = LabeledSpan::at(alloc, (9, 4), "This bit here")?;
            return row.clones(Ok(label.with_context_lines(2)));
        }
    }
    Ok(())
}
