//! Wraps text under indents. The module `wrapping` lists the stages.

ghost use Rattle.std.specs.Prelude.{◌≡◌, ◌++◌, IfOk, OnErr, OnOk, chars, encode_utf8_all, string_bytes};
ghost use Rattle.miette_runs.specs.rules.Sequences.{erase};
ghost use Rattle.miette_text.specs.rules.ColouredTexts.{AppendsErasing, AreColoured, plain_plan};
ghost use Rattle.miette_text.specs.rules.Wrapping.{wrapped_text};
ghost use Rattle.miette_text.specs.views.Plans.{options_plan};

pub use crate::options::{WordSeparator, WordSplitter, WrapOptions, WrapPlan, cuts_hyphens};
pub use crate::wrap_laws;
pub use crate::wrapping::{fitting, push_wrapped, wrap, wrap_text};
use miette_runs::runs::reading::parse_text;
pub use miette_runs::runs::trimming;
use std::alloc::{AllocError, Global};

fn wrapped_text(alloc: Global, options: &WrapOptions<'_>, text: &str) -> Result<String, AllocError>
    ensures { IfOk result (λ s. string_bytes s
        ≡ encode_utf8_all (wrapped_text (options_plan options.now) (chars text.now))) }
{
    let first = parse_text(alloc, options.initial_indent)?;
    let further = parse_text(alloc, options.subsequent_indent)?;
    let split_hyphens = cuts_hyphens(options.splitter);
    let plan = WrapPlan {
        wrap_lines: options.wrap_lines,
        separator: options.separator,
        split_hyphens,
        break_words: options.break_words,
        width: options.width,
        first: &first,
        further: &further,
    };
    let mut out = String::with_capacity(alloc, text.len())?;
    push_wrapped(&mut out, alloc, plan, text)?;
    Ok(out)
}

/// Appends the text, wrapped. The rules differ from those of the original, which uses the crate textwrap.
///
/// # Errors
/// `AllocError` if allocation fails, or if a row has more than `usize::MAX` columns. `out` is then unchanged.
pub fn fill(text: &str, options: &WrapOptions<'_>, out: &mut String) -> Result<(), AllocError>
    ensures ok { OnOk result (string_bytes out.new
        ≡ string_bytes out.old ++ encode_utf8_all (wrapped_text (options_plan options.now) (chars text.now))) }
    ensures colours { OnOk result (AreColoured (options_plan options.now) (chars text.now) →
        AppendsErasing (string_bytes out.old) (string_bytes out.new)
        (encode_utf8_all (wrapped_text (plain_plan (options_plan options.now)) (erase (chars text.now))))) }
    ensures err { OnErr result (string_bytes out.new ≡ string_bytes out.old) }
{
    let wrapped = wrapped_text(*out.allocator(), options, text)?;
    out.push_str(wrapped.as_str())
}
