//! The options of `job` that describe the terminal.

ghost use Rattle.std.specs.Prelude.{◌≡◌, ◌<◌, ◌^◌, ◌++◌, ◌∷◌, [], IfOk, IfSome, OnOk, map, option_map, string_bytes};
ghost use Rattle.miette.specs.declared.terminal.Variables.{Variables};
ghost use Rattle.miette.specs.rules.Detection.{IsDetected, IsToldBy};
ghost use Rattle.miette_style.specs.declared.theme.Terminal.{Terminal};
ghost use Rattle.miette_show.specs.rules.TerminalWords.{yes_or_no, color_name, graphics_words, terminal_words};
ghost use Rattle.miette_show.specs.rules.TerminalWords.{width_words};

use miette::terminal::{Lookup, Stream, Streams, detect_terminal};
use miette::theme::Terminal;
use std::alloc::{AllocError, Global};

/// Returns the name of a terminal's color support.
fn color_name(color: Option<bool>) -> &'static str
    ensures { result.now ≡ color_name color }
{
    match color {
        None => "none",
        Some(false) => "ansi",
        Some(true) => "rgb",
    }
}

/// Returns `yes` or `no`.
fn yes_or_no(is: bool) -> &'static str
    ensures { result.now ≡ yes_or_no is }
{
    if is { "yes" } else { "no" }
}

/// Appends an option.
fn push_word(words: &mut Vec<String>, alloc: Global, word: &str) -> Result<(), AllocError>
    ensures { OnOk result (map string_bytes words.new.items ≡ map string_bytes words.old.items ++ word.now ∷ []) }
{
    let word = String::from_str(alloc, word)?;
    words.push(word)?;
    Ok(())
}

/// Appends an option and its value.
fn push_value(
    words: &mut Vec<String>,
    alloc: Global,
    word: &str,
    value: &str,
) -> Result<(), AllocError>
    ensures { OnOk result (map string_bytes words.new.items
        ≡ map string_bytes words.old.items ++ word.now ∷ (value.now ∷ [])) }
{
    push_word(words, alloc, word)?;
    push_word(words, alloc, value)
}

/// Appends the option for the width, if it is known.
fn push_width(
    words: &mut Vec<String>,
    alloc: Global,
    width: Option<usize>,
) -> Result<(), AllocError>
    ensures words { OnOk result (map string_bytes words.new.items
        ≡ map string_bytes words.old.items ++ width_words width) }
    ensures fits { OnOk result (IfSome width (λ n. n < 2 ^ 64)) }
{
    match width {
        Some(width) => {
            let number = format!(in alloc; "{width}")?;
            push_value(words, alloc, "--term-width", number.as_str())
        }
        None => Ok(()),
    }
}

/// Appends the option for the variable `NO_GRAPHICS`, if it is set.
fn push_graphics(
    words: &mut Vec<String>,
    alloc: Global,
    said: &Option<String>,
) -> Result<(), AllocError>
    ensures { OnOk result (map string_bytes words.new.items
        ≡ map string_bytes words.old.items ++ graphics_words (option_map string_bytes said.now)) }
{
    match said {
        Some(text) => push_value(words, alloc, "--no-graphics", text.as_str()),
        None => Ok(()),
    }
}

/// Returns the options that describe a terminal.
fn terminal_words(alloc: Global, terminal: &Terminal) -> Result<Vec<String>, AllocError>
    ensures words { IfOk result (λ words. map string_bytes words.items ≡ terminal_words terminal.now) }
    ensures fits { OnOk result (IfSome terminal.now.width (λ n. n < 2 ^ 64)) }
{
    let mut words = Vec::new(alloc);
    push_width(&mut words, alloc, terminal.width)?;
    push_value(
        &mut words,
        alloc,
        "--term-color",
        color_name(terminal.color),
    )?;
    push_value(
        &mut words,
        alloc,
        "--term-unicode",
        yes_or_no(terminal.unicode),
    )?;
    push_value(
        &mut words,
        alloc,
        "--term-links",
        yes_or_no(terminal.hyperlinks),
    )?;
    push_graphics(&mut words, alloc, &terminal.no_graphics)?;
    Ok(words)
}

/// Appends copies of options.
fn push_words(words: &mut Vec<String>, alloc: Global, more: &[String]) -> Result<(), AllocError>
    ensures { OnOk result (map string_bytes words.new.items
        ≡ map string_bytes words.old.items ++ map string_bytes more.now) }
{
    for word in more {
        push_word(words, alloc, word.as_str())?;
    }
    Ok(())
}

/// Returns the options that describe the terminal of standard output, followed by the given ones. The last option of a
/// kind counts.
///
/// # Errors
/// `AllocError` if allocation fails.
pub fn options_in_terminal<R: Lookup + AllocGlobal + Streams>(
    rt: &R,
    options: &[String],
) -> Result<Vec<String>, AllocError>
    // The terminal is the one that `print_report` prints on.
    ensures { IfOk result (λ words. (v : Variables) × (t : Terminal)
        × IsToldBy (R.variable_may_be rt.now) (R.terminal_may_be rt.now) v × IsDetected v Stream.Stdout t
        × IfSome t.width (λ n. n < 2 ^ 64)
        × (map string_bytes words.items ≡ terminal_words t ++ map string_bytes options.now)) }
{
    let alloc = rt.alloc();
    let terminal = detect_terminal(rt, Stream::Stdout)?;
    let mut words = terminal_words(alloc, &terminal)?;
    push_words(&mut words, alloc, options)?;
    Ok(words)
}
