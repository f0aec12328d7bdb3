//! Texts on one line.

ghost use Rattle.std.specs.Prelude.{◌≡◌, ◌++◌, OnOk, string_bytes, encode_utf8_all};
ghost use Rattle.miette_brief.specs.rules.Rows.{gap, shown_for, one_line_text};

use std::alloc::AllocError;

/// Appends a space for a control character, except after another control character.
fn push_gap(out: &mut String, goes_on: bool) -> Result<(), AllocError>
    ensures { OnOk result (string_bytes out.new ≡ string_bytes out.old ++ encode_utf8_all (gap goes_on)) }
{
    if goes_on {
        return Ok(());
    }
    out.push(' ')
}

/// Appends a character as it is printed. `goes_on` says whether it follows a control character.
fn push_character(out: &mut String, goes_on: bool, c: char) -> Result<(), AllocError>
    ensures { OnOk result (string_bytes out.new ≡ string_bytes out.old ++ encode_utf8_all (shown_for goes_on c)) }
{
    if c.is_control() {
        return push_gap(out, goes_on);
    }
    out.push(c)
}

/// Appends a text on one line: each run of control characters becomes one space.
pub(crate) fn push_one_line(out: &mut String, text: &str) -> Result<(), AllocError>
    ensures { OnOk result (string_bytes out.new ≡ string_bytes out.old ++ one_line_text text.now) }
{
    let mut goes_on = false;
    for c in text.chars() {
        push_character(out, goes_on, c)?;
        goes_on = c.is_control();
    }
    Ok(())
}
