//! Messages of diagnostics, line by line.

ghost use Rattle.std.specs.Prelude.{◌≡◌, ◌++◌, map, IfOk, OnOk, string_bytes, codes};
ghost use Rattle.std.specs.Option.{option_copied, option_map};
ghost use Rattle.miette_lsp.specs.rules.Diagnostics.{is_href, maybe_row, diagnostic_message_text, primary_row, row};
ghost use Rattle.miette_lsp.specs.rules.Diagnostics.{rows};
ghost use Rattle.miette_lsp.specs.rules.Diagnostics.{see_row, label_text_row};
ghost use Rattle.miette_sarif.specs.views.Findings.{finding_of, mark_of};

use miette_sarif::finding::{Finding, SarifLocation};
use miette_sarif::uri::is_absolute_uri;
use std::alloc::{AllocError, Global};

// Appends a line: LF, a title and a text.
fn push_row(out: &mut String, title: &str, text: &str) -> Result<(), AllocError>
    ensures { OnOk result (string_bytes out.new ≡ string_bytes out.old ++ row title.now text.now) }
{
    out.push_str("\n")?;
    out.push_str(title)?;
    out.push_str(text)
}

// Appends such a line for each text, all with the same title.
fn push_rows(out: &mut String, title: &str, texts: &[&str]) -> Result<(), AllocError>
    ensures { OnOk result (string_bytes out.new
        ≡ string_bytes out.old ++ rows title.now (map (λ text. text.now) texts.now)) }
{
    for text in texts {
        push_row(out, title, text)?;
    }
    Ok(())
}

// Appends such a line if there is a text.
fn push_optional_row(out: &mut String, title: &str, text: Option<&str>) -> Result<(), AllocError>
    ensures { OnOk result (string_bytes out.new
        ≡ string_bytes out.old ++ maybe_row title.now (option_copied text.entry)) }
{
    match text {
        Some(text) => push_row(out, title, text),
        None => Ok(()),
    }
}

// Appends a label's text on its own line, unless it is empty.
fn push_text(out: &mut String, text: &str) -> Result<(), AllocError>
    ensures { OnOk result (string_bytes out.new ≡ string_bytes out.old ++ label_text_row text.now) }
{
    if text.is_empty() {
        return Ok(());
    }
    push_row(out, "", text)
}

// Appends the primary label's text, if there is one.
fn push_primary(out: &mut String, primary: &Option<SarifLocation<'_>>) -> Result<(), AllocError>
    ensures { OnOk result (string_bytes out.new
        ≡ string_bytes out.old ++ primary_row (option_map mark_of primary.now)) }
{
    match primary {
        Some(mark) => push_text(out, mark.text),
        None => Ok(()),
    }
}

// Whether a url is the address of a code.
fn is_href(code: &str, url: &str) -> bool
    ensures { result ≡ is_href code.now url.now }
{
    if code.is_empty() {
        return false;
    }
    is_absolute_uri(url)
}

// Appends the url, unless it is the address of the code.
fn push_see(out: &mut String, code: &str, url: Option<&str>) -> Result<(), AllocError>
    ensures { OnOk result (string_bytes out.new
        ≡ string_bytes out.old ++ see_row code.now (option_copied url.entry)) }
{
    let Some(url) = url else {
        return Ok(());
    };
    if is_href(code, url) {
        return Ok(());
    }
    push_row(out, "see: ", url)
}

// Appends the lines of a message: text, primary label's text, causes, help, fixes that can't be applied, and url.
fn push_message(out: &mut String, finding: &Finding<'_>) -> Result<(), AllocError>
    ensures { OnOk result (string_bytes out.new ≡ string_bytes out.old
        ++ diagnostic_message_text (finding_of finding.now)) }
{
    out.push_str(finding.report_texts.message)?;
    push_primary(out, &finding.primary)?;
    push_rows(out, "caused by: ", &finding.report_texts.causes)?;
    push_optional_row(out, "help: ", finding.report_texts.help)?;
    push_rows(out, "fix: ", &finding.unapplied)?;
    push_see(out, finding.report_texts.code, finding.report_texts.url)
}

/// Returns the message of a finding.
pub(crate) fn diagnostic_message_text(
    alloc: Global,
    finding: &Finding<'_>,
) -> Result<String, AllocError>
    ensures { IfOk result (λ text. string_bytes text ≡ diagnostic_message_text (finding_of finding.now)) }
{
    let mut text = String::new(alloc);
    push_message(&mut text, finding)?;
    Ok(text)
}
