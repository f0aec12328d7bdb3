//! Calls that wrap, read and print texts.

use crate::rows::{CallResult, Rows};
use miette::error::RenderError;
use miette::wrap::{WordSeparator, WordSplitter, WrapOptions, WrapPlan, fill, wrap};
use miette_text::runs::Runs;
use miette_text::runs::output::Output;
use miette_text::runs::reading::{parse_text, print, printed_columns, read};
use miette_text::wrap::fitting::push_if_fits;
use miette_text::wrap::trimming::{trim_leading_feeds, trim_trailing_feeds};
use miette_tree::report_handler::append_all_or_nothing;
use std::alloc::{AllocError, Global};

/// The calls of this module.
#[derive(Clone, Copy)]
pub enum TextCall {
    Fill,
    Wrap,
    PushFitting,
    WithoutLeading,
    WithoutTrailing,
    Read,
    ReadText,
    Print,
    ColumnsOf,
    AppendWhole,
}

/// A red word, a long word that is broken, and a link.
const TEXT: &str =
    "a \u{1b}[31mred\u{1b}[0m word-and-another, abcdefghijklmnop\n\u{1b}]8;;u\u{1b}\\here\u{1b}]8;;\u{1b}\\ \u{6f22}\n";

/// Makes a call and prints its row.
///
/// # Errors
/// If allocating the call's arguments fails.
pub fn make(alloc: Global, call: TextCall, row: &mut Rows) -> CallResult {
    match call {
        TextCall::Fill | TextCall::AppendWhole => return appended(alloc, call, row),
        TextCall::Wrap | TextCall::PushFitting => wrapped(alloc, call, row),
        TextCall::Read => {
            let codes: Vec<char> = TEXT.chars().collect(alloc)?;
            row.answer(read(alloc, codes));
        }
        TextCall::ReadText => row.answer(parse_text(alloc, TEXT)),
        _ => {
            let runs = parse_text(alloc, "\n\u{1b}[31m\nred\u{1b}[0m\n")?;
            row.value(&runs);
            of_runs(alloc, call, row, runs);
        }
    }
    Ok(())
}

fn of_runs(alloc: Global, call: TextCall, row: &mut Rows, runs: Runs) {
    match call {
        TextCall::WithoutLeading => row.answer(trim_leading_feeds(alloc, runs)),
        TextCall::WithoutTrailing => row.answer(trim_trailing_feeds(alloc, runs)),
        TextCall::Print => row.answer(print(alloc, &runs)),
        _ => row.answer(printed_columns(alloc, &runs)),
    }
}

static OPTIONS: WrapOptions<'static> = WrapOptions {
    width: 12,
    initial_indent: "* ",
    subsequent_indent: "| ",
    break_words: true,
    wrap_lines: true,
    separator: WordSeparator::AsciiSpace,
    splitter: WordSplitter::HyphenSplitter,
};

/// Appends to the text `> `.
fn appended(alloc: Global, call: TextCall, row: &mut Rows) -> CallResult {
    let mut text = String::from_str(alloc, "> ")?;
    row.value(&text);
    let answer = append(&mut text, call);
    row.appended(answer, &text);
    Ok(())
}

/// Returns the call's result.
fn append(text: &mut String, call: TextCall) -> Result<(), RenderError> {
    match call {
        TextCall::AppendWhole => append_all_or_nothing(
            text,
            "a text that is longer than what is there",
        ),
        _ => Ok(fill(TEXT, &OPTIONS, text)?),
    }
}

/// Prints an output before and after the call.
fn wrapped(alloc: Global, call: TextCall, row: &mut Rows) {
    let mut output = Output::for_runs(alloc);
    row.value(&output);
    let answer = push(&mut output, alloc, call);
    row.after(answer, &output);
}

/// Returns the call's result, or an error if allocating its arguments fails.
fn push(output: &mut Output, alloc: Global, call: TextCall) -> Result<(), AllocError> {
    let first = parse_text(alloc, "* ")?;
    if let TextCall::PushFitting = call {
        push_if_fits(output, true, 13, &first, "word-and-\u{6f22}")?;
        return Ok(());
    }
    let further = parse_text(alloc, "| ")?;
    let text = parse_text(alloc, TEXT)?;
    let plan = WrapPlan {
        wrap_lines: true,
        separator: WordSeparator::AsciiSpace,
        split_hyphens: true,
        break_words: true,
        width: 12,
        first: &first,
        further: &further,
    };
    wrap(output, alloc, plan, &text)
}
