//! Calls of runs.

use crate::rows::{CallResult, Rows};
use miette::style::{Color, Style};
use miette_text::runs::Runs;
use miette_text::runs::reading::parse_text;
use std::alloc::{AllocError, Global};

/// The calls of this module.
#[derive(Clone, Copy)]
pub enum RunsCall {
    New,
    Push,
    PushChars,
    PushStr,
    Begin,
    End,
    PushRun,
    PushRunChars,
    PushLink,
    PushLinkEnd,
    Append,
}

/// The text that is pushed.
pub static XY: [char; 2] = ['x', 'y'];

/// The style that is pushed.
pub fn red() -> Style {
    Style::new().color(Color::Red)
}

/// Makes a call and prints its row.
///
/// # Errors
/// If allocating the call's arguments fails.
pub fn make(alloc: Global, call: RunsCall, row: &mut Rows) -> CallResult {
    let mut runs = Runs::new(alloc);
    row.value(&runs);
    if !matches!(call, RunsCall::New) {
        let answer = push(&mut runs, alloc, call);
        row.after(answer, &runs);
    }
    Ok(())
}

/// Returns the call's result, or an error if allocating its arguments fails.
fn push(runs: &mut Runs, alloc: Global, call: RunsCall) -> Result<(), AllocError> {
    match call {
        RunsCall::Push => runs.push('x'),
        RunsCall::PushChars => runs.push_chars(&XY),
        RunsCall::PushStr => runs.push_str("xyz"),
        RunsCall::Begin => runs.begin(red().bold()),
        RunsCall::End => runs.end(),
        RunsCall::PushRun => runs.push_run(red(), "xyz"),
        RunsCall::PushRunChars => runs.push_run_chars(red().dimmed(), &XY),
        RunsCall::PushLink => runs.push_link("http://x"),
        RunsCall::PushLinkEnd => runs.push_link_end(),
        _ => runs.append(&parse_text(alloc, "\u{1b}[32mb\u{1b}[0mc")?),
    }
}
