//! A wrapped hint.

ghost use Rattle.std.specs.Prelude.{◌≡◌, ◌++◌, OnErr, OnOk, chars, encode_utf8_all, string_bytes};
ghost use Rattle.miette_text.specs.rules.Wrapping.{wrapped_text};
ghost use Rattle.callers.specs.Rows.{hint_plan};

use miette_text::wrap::{WordSeparator, WordSplitter, WrapOptions, fill};
use std::alloc::AllocError;

/// Appends a wrapped hint: the first line after `hint: `, the others indented below it.
pub fn push_hint(out: &mut String, hint: &str, width: usize) -> Result<(), AllocError>
    ensures ok { OnOk result (string_bytes out.new ≡ string_bytes out.old
        ++ encode_utf8_all (wrapped_text (hint_plan width) (chars hint.now))) }
    ensures err { OnErr result (string_bytes out.new ≡ string_bytes out.old) }
{
    let options = WrapOptions {
        width,
        initial_indent: "hint: ",
        subsequent_indent: "      ",
        break_words: true,
        wrap_lines: true,
        separator: WordSeparator::AsciiSpace,
        splitter: WordSplitter::HyphenSplitter,
    };
    fill(hint, &options, out)
}
