//! Output lines made of words and numbers.

ghost use Rattle.std.specs.Prelude.{◌≡◌, ◌++◌, OnOk, decimal, string_bytes, option_copied};
ghost use Rattle.miette_narrated.specs.rules.Labels.{row};
ghost use Rattle.miette_narrated.specs.rules.Report.{row_if};

use miette_lines::numbers;
use std::alloc::AllocError;

/// The result of appending text: `AllocError` if allocation fails.
pub(crate) type AppendResult = Result<(), AllocError>;

/// Appends words and a decimal number.
pub(crate) fn push_number(out: &mut String, words: &str, number: usize) -> AppendResult
    ensures { OnOk result (string_bytes out.new ≡ string_bytes out.old ++ (words.now ++ decimal number)) }
{
    out.push_str(words)?;
    numbers::push_number(out, number)
}

/// Appends a line: words, a text, and a line feed.
pub(crate) fn push_row(out: &mut String, words: &str, text: &str) -> AppendResult
    ensures { OnOk result (string_bytes out.new ≡ string_bytes out.old ++ row (words.now ++ text.now)) }
{
    out.push_str(words)?;
    out.push_str(text)?;
    out.push_str("\n")
}

/// Appends such a line if there is a text.
pub(crate) fn push_row_if(out: &mut String, words: &str, text: Option<&str>) -> AppendResult
    ensures { OnOk result (string_bytes out.new ≡ string_bytes out.old ++ row_if words.now (option_copied text.entry)) }
{
    match text {
        Some(text) => push_row(out, words, text),
        None => Ok(()),
    }
}
