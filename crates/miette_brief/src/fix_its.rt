//! Edits as GCC and clang print them for `-fdiagnostics-parseable-fixits`.

ghost use Rattle.std.specs.Prelude.{◌≡◌, ◌+◌, ◌++◌, ◌<◌, [], OnOk, string_bytes, option_copied, unwrap_or};
ghost use Rattle.miette_brief.specs.rules.FixIts.{octal, escaped_byte, escaped, in_quotes, position_text};
ghost use Rattle.miette_brief.specs.rules.FixIts.{range_text, fix_it_text};
ghost use Rattle.miette_brief.specs.steps.Conversions.{fix_it_of};

use miette_lines::numbers::push_number;
use std::alloc::AllocError;

/// A line and a column, both counted from 1. Columns are bytes.
#[derive(Clone, Copy)]
pub(crate) struct LineColumn {
    pub(crate) line: usize,
    pub(crate) column: usize,
}

/// An edit: the name of its source, its range, and its replacement text.
#[derive(Clone, Copy)]
pub(crate) struct FixIt<'a> {
    pub(crate) name: Option<&'a str>,
    pub(crate) start: LineColumn,
    pub(crate) end: LineColumn,
    pub(crate) text: &'a str,
}

/// An octal digit.
fn octal_digit(n: u8) -> char
    requires { n < 8 }
    ensures digit { result ≡ 48 + n }
    ensures low { result < 128 }
{
    (b'0' + n) as char
}

/// `\303`
fn push_octal(out: &mut String, byte: u8) -> Result<(), AllocError>
    ensures { OnOk result (string_bytes out.new ≡ string_bytes out.old ++ octal byte) }
{
    out.push('\\')?;
    out.push(octal_digit(byte / 64 % 8))?;
    out.push(octal_digit(byte / 8 % 8))?;
    out.push(octal_digit(byte % 8))
}

/// Appends a byte: escaped with a backslash, as itself, or as three octal digits.
fn push_byte(out: &mut String, byte: u8) -> Result<(), AllocError>
    ensures { OnOk result (string_bytes out.new ≡ string_bytes out.old ++ escaped_byte byte) }
{
    match byte {
        b'"' => out.push_str("\\\""),
        b'\\' => out.push_str("\\\\"),
        b'\n' => out.push_str("\\n"),
        b'\t' => out.push_str("\\t"),
        b' '..=b'~' => out.push(byte as char),
        _ => push_octal(out, byte),
    }
}

/// Appends a text with its escapes.
fn push_escaped(out: &mut String, text: &str) -> Result<(), AllocError>
    ensures { OnOk result (string_bytes out.new ≡ string_bytes out.old ++ escaped text.now) }
{
    for byte in text.as_bytes() {
        push_byte(out, *byte)?;
    }
    Ok(())
}

/// `"a\n"`
fn push_in_quotes(out: &mut String, text: &str) -> Result<(), AllocError>
    ensures { OnOk result (string_bytes out.new ≡ string_bytes out.old ++ in_quotes text.now) }
{
    out.push_str("\"")?;
    push_escaped(out, text)?;
    out.push_str("\"")
}

/// `2:3`
pub(crate) fn push_position(out: &mut String, at: LineColumn) -> Result<(), AllocError>
    ensures { OnOk result (string_bytes out.new ≡ string_bytes out.old ++ position_text at) }
{
    push_number(out, at.line)?;
    out.push_str(":")?;
    push_number(out, at.column)
}

/// `{2:5-2:5}`
fn push_range(out: &mut String, start: LineColumn, end: LineColumn) -> Result<(), AllocError>
    ensures { OnOk result (string_bytes out.new ≡ string_bytes out.old ++ range_text start end) }
{
    out.push_str("{")?;
    push_position(out, start)?;
    out.push_str("-")?;
    push_position(out, end)?;
    out.push_str("}")
}

/// `"f.py"`, or empty quotes without a name.
fn push_name(out: &mut String, name: Option<&str>) -> Result<(), AllocError>
    ensures { OnOk result (string_bytes out.new
        ≡ string_bytes out.old ++ in_quotes (unwrap_or (option_copied name.entry) [])) }
{
    match name {
        Some(name) => push_in_quotes(out, name),
        None => push_in_quotes(out, ""),
    }
}

/// `fix-it:"f.py":{2:5-2:5}:":"`
pub(crate) fn push_fix_it(out: &mut String, it: FixIt<'_>) -> Result<(), AllocError>
    ensures { OnOk result (string_bytes out.new ≡ string_bytes out.old ++ fix_it_text (fix_it_of it.entry)) }
{
    out.push_str("fix-it:")?;
    push_name(out, it.name)?;
    out.push_str(":")?;
    push_range(out, it.start, it.end)?;
    out.push_str(":")?;
    push_in_quotes(out, it.text)
}
