//! Messages. Braces are doubled, since SARIF uses single ones for placeholders.

ghost use Rattle.std.specs.Prelude.{◌≡◌, ◌++◌, true, map, OnOk, string_bytes, position};
ghost use Rattle.std.specs.Option.{option_copied};
ghost use Rattle.miette_json.specs.rules.Writing.{with_value};
ghost use Rattle.miette_sarif.specs.rules.Messages.{is_brace, double_byte, doubled, maybe_row, row, rows};
ghost use Rattle.miette_sarif.specs.rules.Objects.{message_of};
ghost use Rattle.miette_sarif.specs.rules.Results.{result_message_text, see_row};
ghost use Rattle.miette_sarif.specs.views.Findings.{finding_of};
ghost use Rattle.miette_sarif.specs.views.Rules.{rules_view};

use crate::finding::Finding;
use crate::rules::Rules;
use miette_json::writer::JsonWriter;
use std::alloc::{AllocError, Global};

// Whether a byte is a brace.
fn is_brace(byte: u8) -> bool
    ensures { result ≡ is_brace byte }
{
    byte == b'{' || byte == b'}'
}

// Index of the first brace.
fn first_brace(text: &str) -> Option<usize>
    ensures { result ≡ position is_brace text.now }
{
    text.as_bytes().iter().position(|b| is_brace(*b))
}

// Appends a brace twice.
fn push_brace(out: &mut String, byte: u8) -> Result<(), AllocError>
    requires { is_brace byte ≡ true }
    ensures { OnOk result (string_bytes out.new ≡ string_bytes out.old ++ double_byte byte) }
{
    match byte {
        b'{' => out.push_str("{{"),
        b'}' => out.push_str("}}"),
        _ => unreachable!(),
    }
}

/// Appends a text with its braces doubled. Runs of bytes without braces are copied at once.
pub(crate) fn push_doubled(out: &mut String, text: &str) -> Result<(), AllocError>
    ensures { OnOk result (string_bytes out.new ≡ string_bytes out.old ++ doubled text.now) }
{
    let mut rest = text;
    while let Some(at) = first_brace(rest) {
        out.push_str(&rest[..at])?;
        push_brace(out, rest.as_bytes()[at])?;
        rest = &rest[at + 1..];
    }
    out.push_str(rest)
}

/// Appends a line: LF, a title, and a text with its braces doubled.
pub(crate) fn push_row(out: &mut String, title: &str, text: &str) -> Result<(), AllocError>
    ensures { OnOk result (string_bytes out.new ≡ string_bytes out.old ++ row title.now text.now) }
{
    out.push_str("\n")?;
    out.push_str(title)?;
    push_doubled(out, text)
}

/// Appends such a line for each text, all with the same title.
pub(crate) fn push_rows(out: &mut String, title: &str, texts: &[&str]) -> Result<(), AllocError>
    ensures { OnOk result (string_bytes out.new
        ≡ string_bytes out.old ++ rows title.now (map (λ text. text.now) texts.now)) }
{
    for text in texts {
        push_row(out, title, text)?;
    }
    Ok(())
}

/// Appends such a line if there is a text.
pub(crate) fn push_optional_row(
    out: &mut String,
    title: &str,
    text: Option<&str>,
) -> Result<(), AllocError>
    ensures { OnOk result (string_bytes out.new
        ≡ string_bytes out.old ++ maybe_row title.now (option_copied text.entry)) }
{
    match text {
        Some(text) => push_row(out, title, text),
        None => Ok(()),
    }
}

/// Writes a message whose text is used unchanged: `{"text": "1"}`
pub(crate) fn push_plain_message(json: &mut JsonWriter, text: &str) -> Result<(), AllocError>
    ensures { OnOk result (json.new ≡ with_value (message_of text.now) json.old) }
{
    json.begin_object()?;
    json.string_member("text", text)?;
    json.end_object()
}

/// Writes a message, with braces doubled.
pub(crate) fn push_doubled_message(json: &mut JsonWriter, text: &str) -> Result<(), AllocError>
    ensures { OnOk result (json.new ≡ with_value (message_of (doubled text.now)) json.old) }
{
    let mut doubled = String::new(json.allocator());
    push_doubled(&mut doubled, text)?;
    push_plain_message(json, doubled.as_str())
}

// Appends the url, unless it is the rule's help address.
fn push_see<'a>(
    out: &mut String,
    alloc: Global,
    rules: &Rules<'a>,
    finding: &Finding<'a>,
) -> Result<(), AllocError>
    ensures { OnOk result (string_bytes out.new ≡ string_bytes out.old
        ++ see_row ((rules_view rules.now).uri (finding_of finding.now).code) (finding_of finding.now).url) }
{
    let Some(url) = finding.report_texts.url else {
        return Ok(());
    };
    if rules.has_uri(alloc, finding.report_texts.code, url)? {
        return Ok(());
    }
    push_row(out, "see: ", url)
}

// Appends the lines of a message: text, causes, help, fixes that can't be applied, and the url unless the rule has it.
fn push_message<'a>(
    out: &mut String,
    alloc: Global,
    rules: &Rules<'a>,
    finding: &Finding<'a>,
) -> Result<(), AllocError>
    ensures { OnOk result (string_bytes out.new ≡ string_bytes out.old
        ++ result_message_text (rules_view rules.now) (finding_of finding.now)) }
{
    push_doubled(out, finding.report_texts.message)?;
    push_rows(out, "caused by: ", &finding.report_texts.causes)?;
    push_optional_row(out, "help: ", finding.report_texts.help)?;
    push_rows(out, "fix: ", &finding.unapplied)?;
    push_see(out, alloc, rules, finding)
}

/// Writes the message of a result: `{"text": "oops"}`
pub(crate) fn push_result_message<'a>(
    json: &mut JsonWriter,
    rules: &Rules<'a>,
    finding: &Finding<'a>,
) -> Result<(), AllocError>
    ensures { OnOk result (json.new
        ≡ with_value (message_of (result_message_text (rules_view rules.now) (finding_of finding.now))) json.old) }
{
    let alloc = json.allocator();
    let mut text = String::new(alloc);
    push_message(&mut text, alloc, rules, finding)?;
    push_plain_message(json, text.as_str())
}
