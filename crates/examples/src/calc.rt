//! Evaluates sums of products of integers: `calc "2 + 3 * -4"`.

mod sums;

use crate::calc::sums::{Fault, value_of};
use miette::highlight::Highlighter;
use miette::options::RgbColors;
use miette::prelude::{
    Host, IntoDiagnostic, MietteHandlerOpts, OwnedSource, Report, Result, WrapErr,
    print_report_with,
};
use miette::source::MietteSpanContents;
use miette::style::{Color, Style};
use miette_tree::miette;
use std::alloc::{AllocError, Global};
use std::env::Args;
use std::io::Print;
use std::process::ExitCode;

/// Runs the example with its arguments.
pub fn main<R: Host>(rt: &R, words: Args) -> ExitCode {
    match run(rt, words) {
        Ok(()) => ExitCode::SUCCESS,
        Err(report) => {
            let options = MietteHandlerOpts::default().with_syntax_highlighting(Cyan);
            print_report_with(rt, options.rgb_colors(RgbColors::Preferred), &report)
        }
    }
}

fn run<R: Print + AllocGlobal>(rt: &R, words: Args) -> Result<()> {
    let alloc = rt.alloc();
    let value = value_in(alloc, words)?;
    rt.println(value).into_diagnostic(alloc)
}

/// Returns the value of the first argument.
fn value_in(alloc: Global, mut words: Args) -> Result<i64> {
    let text = words.next().wrap_err(alloc, "usage: calc EXPRESSION")?;
    match value_of(text.as_str()) {
        Ok(value) => Ok(value),
        Err(fault) => Err(report_of(alloc, text, fault)?).wrap_err(alloc, "there is no value"),
    }
}

/// Returns a report with the reason as its message, and a label on the part that is wrong.
fn report_of(alloc: Global, text: String, fault: Fault) -> Result<Report, AllocError> {
    let source = source_of(alloc, text)?;
    let label = ((fault.start, fault.length), "here");
    Ok(miette!(in alloc; label = label, "{}", fault.reason).with_owned_source(source))
}

/// Returns the text with a line feed after it. A label at the very end of a source isn't shown.
fn source_of(alloc: Global, mut text: String) -> Result<OwnedSource, AllocError> {
    text.push('\n')?;
    OwnedSource::new(alloc, text.into_bytes())
}

/// Highlights all lines in cyan.
#[derive(Drop)]
struct Cyan;

impl Highlighter for Cyan {
    fn highlight_line(
        &mut self,
        alloc: Global,
        line: &str,
    ) -> Result<Vec<(usize, Style)>, AllocError> {
        let cyan = Style::new().color(Color::Cyan);
        Ok(vec![in alloc; (line.len(), cyan)]?)
    }

    fn restart(&mut self, _contents: &MietteSpanContents<'_>) {}
}
