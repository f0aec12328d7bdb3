//! Escapes of workflow commands.

ghost use Rattle.std.specs.Prelude.{◌≡◌, ◌<◌, ◌++◌, OnOk, position, string_bytes};
ghost use Rattle.miette_brief.specs.rules.Commands.{escaped, hex_digit, is_percent_escaped, is_escaped_everywhere};
ghost use Rattle.miette_brief.specs.rules.Commands.{percent};

use std::alloc::AllocError;

/// The part of a command that a text belongs to.
#[derive(Clone, Copy)]
pub(crate) enum CommandPart {
    Message,
    Property,
}

/// Whether a byte is escaped in every part.
fn is_escaped_everywhere(byte: u8) -> bool
    ensures { result ≡ is_escaped_everywhere byte }
{
    byte == b'%' || (byte == b'\r' || byte == b'\n')
}

/// Whether a byte is escaped in this part.
fn is_percent_escaped(part: CommandPart, byte: u8) -> bool
    ensures { result ≡ is_percent_escaped part byte }
{
    match part {
        CommandPart::Message => is_escaped_everywhere(byte),
        CommandPart::Property => is_escaped_everywhere(byte) || (byte == b':' || byte == b','),
    }
}

/// Index of the first byte that is escaped.
fn first_escape(part: CommandPart, text: &str) -> Option<usize>
    ensures { result ≡ position (is_percent_escaped part) text.now }
{
    text.as_bytes()
        .iter()
        .position(|b| is_percent_escaped(part, *b))
}

/// A hexadecimal digit in upper case.
fn hex_digit(n: u8) -> char
    requires { n < 16 }
    ensures digit { result ≡ hex_digit n }
    ensures low { result < 128 }
{
    if n < 10 {
        (b'0' + n) as char
    } else {
        (b'A' + (n - 10)) as char
    }
}

/// `%0A`
fn push_percent(out: &mut String, byte: u8) -> Result<(), AllocError>
    ensures { OnOk result (string_bytes out.new ≡ string_bytes out.old ++ percent byte) }
{
    out.push('%')?;
    out.push(hex_digit(byte / 16))?;
    out.push(hex_digit(byte % 16))
}

/// Appends a text with its escapes. Runs of bytes without escapes are copied at once.
pub(crate) fn push_escaped(
    out: &mut String,
    part: CommandPart,
    text: &str,
) -> Result<(), AllocError>
    ensures { OnOk result (string_bytes out.new ≡ string_bytes out.old ++ escaped part text.now) }
{
    let mut rest = text;
    while let Some(at) = first_escape(part, rest) {
        out.push_str(&rest[..at])?;
        push_percent(out, rest.as_bytes()[at])?;
        rest = &rest[at + 1..];
    }
    out.push_str(rest)
}
