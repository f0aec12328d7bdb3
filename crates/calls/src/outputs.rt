//! Calls of outputs, which print runs or collect them.

use crate::rows::{CallResult, Rows};
use crate::runs::{XY, red};
use miette_text::runs::output::Output;
use std::alloc::{AllocError, Global};

/// The calls of this module.
#[derive(Clone, Copy)]
pub enum OutputCall {
    ForText,
    ForRuns,
    Reserve,
    Push,
    PushChars,
    PushStr,
    Begin,
    End,
    PushRun,
    PushLink,
    PushLinkEnd,
    IntoText,
    IntoRuns,
}

/// Makes a call of an output that prints and of one that collects.
///
/// # Errors
/// If allocating the call's arguments fails.
pub fn make(alloc: Global, call: OutputCall, row: &mut Rows) -> CallResult {
    match call {
        OutputCall::ForText => row.value(&Output::for_text(alloc)),
        OutputCall::ForRuns => row.value(&Output::for_runs(alloc)),
        _ => {
            put_output(alloc, call, row, Output::for_text(alloc));
            put_output(alloc, call, row, Output::for_runs(alloc));
        }
    }
    Ok(())
}

/// Prints an output after the call, or the result of an output with a red text.
fn put_output(alloc: Global, call: OutputCall, row: &mut Rows, mut output: Output) {
    if push(&mut output, call).is_err() {
        return row.refused();
    }
    match call {
        OutputCall::IntoText => row.answer(output.into_text(alloc)),
        OutputCall::IntoRuns => row.answer(output.into_runs(alloc)),
        _ => row.value(&output),
    }
}

fn push(output: &mut Output, call: OutputCall) -> Result<(), AllocError> {
    match call {
        OutputCall::Reserve => output.reserve('x', 3),
        OutputCall::Push => output.push('x'),
        OutputCall::PushChars => output.push_chars(&XY),
        OutputCall::PushStr => output.push_str("xyz"),
        OutputCall::Begin => output.begin(red()),
        OutputCall::End => output.end(),
        OutputCall::PushRun | OutputCall::IntoText | OutputCall::IntoRuns => output.push_run(
            red(),
            "xyz",
        ),
        OutputCall::PushLink => output.push_link("http://x"),
        _ => output.push_link_end(),
    }
}
