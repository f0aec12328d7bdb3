//! Prints the codes of styles.

ghost use Rattle.std.specs.Prelude.{◌≡◌, ◌++◌, ◌∷◌, ◌||◌, [], IfOk, IfSome, OnOk, false, is_some};
ghost use Rattle.std.specs.Prelude.{string_bytes};
ghost use Rattle.miette_style.specs.rules.Codes.{colour_start, flag, foreground, foreground_codes, further_codes};

use crate::style::{Color, Style};
use miette_lines::numbers::push_number;
use std::alloc::AllocError;

fn push_foreground(out: &mut String, color: Color) -> Result<(), AllocError>
    ensures { OnOk result (string_bytes out.new ≡ string_bytes out.old ++ foreground color) }
{
    match color {
        Color::Red => out.push_str("31"),
        Color::Green => out.push_str("32"),
        Color::Yellow => out.push_str("33"),
        Color::Blue => out.push_str("34"),
        Color::Magenta => out.push_str("35"),
        Color::Cyan => out.push_str("36"),
        Color::Rgb(r, g, b) => {
            out.push_str("38;2;")?;
            push_number(out, usize::from(r))?;
            out.push_str(";")?;
            push_number(out, usize::from(g))?;
            out.push_str(";")?;
            push_number(out, usize::from(b))
        }
    }
}

// Appends the code of a colour, if there is one. Returns whether there is.
fn push_color(out: &mut String, color: Option<Color>) -> Result<bool, AllocError>
    ensures text { OnOk result (string_bytes out.new
        ≡ string_bytes out.old ++ further_codes false (foreground_codes color)) }
    ensures some { IfOk result (λ b. b ≡ is_some color) }
{
    match color {
        None => Ok(false),
        Some(color) => {
            push_foreground(out, color)?;
            Ok(true)
        }
    }
}

// Appends a code if `on`, after a `;` if a code precedes it. Returns whether there is a code now.
fn push_flag(out: &mut String, has_code: bool, on: bool, code: &str) -> Result<bool, AllocError>
    ensures text { OnOk result (string_bytes out.new
        ≡ string_bytes out.old ++ further_codes has_code (flag on code.now)) }
    ensures some { IfOk result (λ b. b ≡ (has_code || on)) }
{
    if !on {
        return Ok(has_code);
    }
    if has_code {
        out.push_str(";")?;
    }
    out.push_str(code)?;
    Ok(true)
}

// Appends the codes that begin a style, one by one.
fn push_each_code(out: &mut String, style: Style) -> Result<(), AllocError>
    ensures { OnOk result (string_bytes out.new ≡ string_bytes out.old ++ colour_start style) }
{
    out.push_str("\u{1B}[")?;
    let has_code = push_color(out, style.fg)?;
    let has_code = push_flag(out, has_code, style.bold, "1")?;
    let has_code = push_flag(out, has_code, style.dimmed, "2")?;
    let has_code = push_flag(out, has_code, style.italic, "3")?;
    push_flag(out, has_code, style.underline, "4")?;
    out.push_str("m")
}

// Returns the escape sequence that begins a style, if the style is one of the terminal's colours and nothing else.
fn own_start(style: Style) -> Option<&'static str>
    ensures { IfSome result (λ text. colour_start style ≡ text.now) }
{
    let Style {
        fg: Some(color),
        bold: false,
        dimmed: false,
        italic: false,
        underline: false,
    } = style
    else {
        return None;
    };
    match color {
        Color::Red => Some("\u{1B}[31m"),
        Color::Green => Some("\u{1B}[32m"),
        Color::Yellow => Some("\u{1B}[33m"),
        Color::Blue => Some("\u{1B}[34m"),
        Color::Magenta => Some("\u{1B}[35m"),
        Color::Cyan => Some("\u{1B}[36m"),
        Color::Rgb(..) => None,
    }
}

/// Appends the escape sequence that begins a style. The terminal's own colours are appended in one step.
///
/// # Errors
/// `AllocError` if allocation fails.
pub fn push_style(out: &mut String, style: Style) -> Result<(), AllocError>
    ensures { OnOk result (string_bytes out.new ≡ string_bytes out.old ++ colour_start style) }
{
    match own_start(style) {
        Some(start) => out.push_str(start),
        None => push_each_code(out, style),
    }
}

// Returns the terminal's colour for the digit after the `3` of its code.
fn own_color(digit: char) -> Option<Color>
    ensures { IfSome result (λ color. foreground color ≡ 51 ∷ digit ∷ []) }
{
    match digit {
        '1' => Some(Color::Red),
        '2' => Some(Color::Green),
        '3' => Some(Color::Yellow),
        '4' => Some(Color::Blue),
        '5' => Some(Color::Magenta),
        '6' => Some(Color::Cyan),
        _ => None,
    }
}

/// Returns the style that these codes begin, if it is one of the terminal's colours and nothing else.
pub fn style_of_codes(codes: &[char]) -> Option<Style>
    ensures { IfSome result (λ style. colour_start style ≡ codes.now) }
{
    let [a, b, c, d, e] = codes else {
        return None;
    };
    if *a != '\u{1B}' || *b != '[' || *c != '3' || *e != 'm' {
        return None;
    }
    let color = own_color(*d)?;
    Some(Style {
        fg: Some(color),
        ..Style::new()
    })
}
