//! Text input of a program: files and standard input.

ghost use Rattle.std.specs.Prelude.{◌≡◌, IsUtf8, IsOk, IfOk, IfErr, string_bytes};
ghost use Rattle.std.specs.Str.Lossy.{utf8_valid_len};
ghost use Rattle.miette_protocol.specs.views.Diagnostic.{meaning_of};
ghost use Rattle.miette_tree.specs.views.Report.{tree_of};
ghost use Rattle.miette.specs.rules.Inputs.{GivesNoText, IsNoText, IsUnreadInput, no_text, shown_name};
ghost use Rattle.miette.specs.rules.Inputs.{stop_label, stop_meaning};

use miette_protocol::diagnostic::MietteDiagnostic;
use miette_protocol::protocol::{Diagnostic, LabeledSpan};
use miette_protocol::source::SourceCode;
use miette_tree::report::{DefaultBoxes, OwnedSource, Report};
use std::alloc::{AllocError, Global};
use std::fs::Files;
use std::io::{Input, Read};
use std::{fs, io};

/// Returns the name that reports use for an input: `<stdin>` for `-`, else the argument itself.
pub fn input_name(word: &str) -> &str
    ensures { result.now ≡ shown_name word.now }
{
    if word == "-" { "<stdin>" } else { word }
}

/// Reads the text of a file, or of standard input if the argument is `-`.
///
/// # Errors
/// A report with the message `could not read NAME` and the reason as its cause. If the input is not UTF-8, the report
/// of `utf8_text_of`. If allocation fails, the report of that. NAME is that of `input_name`.
pub fn read_text<R: Files + Input + AllocGlobal, D: Diagnostic, S: SourceCode>(
    rt: &R,
    word: &str,
) -> Result<String, Report<D, S>>
where
    Report<D, S>: DefaultBoxes,
    ensures { IfErr result (λ r. GivesNoText (shown_name word.now) (tree_of D.meaning S.source r)) }
{
    let alloc = rt.alloc();
    let name = input_name(word);
    match bytes_of(rt, word) {
        Ok(bytes) => utf8_text_of(alloc, name, bytes),
        Err(fault) => Err(unread(alloc, name, fault)?),
    }
}

/// Converts an input with this name to text. It doesn't allocate if the input is UTF-8.
///
/// # Errors
/// A report over the input, `NAME isn't UTF-8`, with a label on the first byte that is not text; or the report of a
/// failed allocation.
pub fn utf8_text_of<D: Diagnostic, S: SourceCode>(
    alloc: Global,
    name: &str,
    bytes: Vec<u8>,
) -> Result<String, Report<D, S>>
where
    Report<D, S>: DefaultBoxes,
    ensures ok { IfOk result (λ text. string_bytes text ≡ bytes.items) }
    ensures utf8 { IsUtf8 bytes.items → IsOk result }
    ensures err { IfErr result (λ r. IsNoText name.now bytes.items (tree_of D.meaning S.source r)) }
{
    match String::from_utf8(bytes) {
        Ok(text) => Ok(text),
        Err(error) => {
            let stop = error.utf8_error().valid_up_to();
            Err(not_text(alloc, name, stop, error.into_bytes())?)
        }
    }
}

// The label on the first byte that is not text.
fn stop_label(alloc: Global, stop: usize) -> Result<LabeledSpan, AllocError>
    ensures { IfOk result (λ it. it ≡ stop_label stop) }
{
    let text = String::from_str(alloc, "no character begins with this byte")?;
    Ok(LabeledSpan::new(Some(text), stop, 1))
}

// The diagnostic of an input that is not text from there on.
fn stop_diagnostic(alloc: Global, name: &str, stop: usize) -> Result<MietteDiagnostic, AllocError>
    ensures { IfOk result (λ it. meaning_of it ≡ stop_meaning name.now stop) }
{
    let message = format!(in alloc; "{name} isn't UTF-8")?;
    let label = stop_label(alloc, stop)?;
    MietteDiagnostic::new(alloc, message.as_str())?.with_label(alloc, label)
}

// The report of an input that is not text from there on.
fn not_text<D: Diagnostic, S: SourceCode>(
    alloc: Global,
    name: &str,
    stop: usize,
    bytes: Vec<u8>,
) -> Result<Report<D, S>, AllocError>
    requires { stop ≡ utf8_valid_len bytes.items }
    ensures { IfOk result (λ r. tree_of D.meaning S.source r ≡ no_text name.now bytes.items) }
{
    let diagnostic = stop_diagnostic(alloc, name, stop)?;
    let source = OwnedSource::named_unindexed(alloc, name, None, bytes)?;
    Ok(Report::built(diagnostic).with_owned_source(source))
}

// The report of an input that could not be read for this reason.
fn unread<D: Diagnostic, S: SourceCode>(
    alloc: Global,
    name: &str,
    reason: io::Error,
) -> Result<Report<D, S>, AllocError>
where
    Report<D, S>: DefaultBoxes,
    ensures { IfOk result (λ r. IsUnreadInput name.now (tree_of D.meaning S.source r)) }
{
    let reason: Report<D, S> = Report::from_err(alloc, reason)?;
    let message = format!(in alloc; "could not read {name}")?;
    match reason.wrap_err(alloc, message.as_str()) {
        Ok(report) => Ok(report),
        Err(_) => Err(AllocError),
    }
}

// Reads all of an input. No clause can say what a file contains.
fn bytes_of<R: Files + Input + AllocGlobal>(rt: &R, word: &str) -> io::Result<Vec<u8>> {
    if word != "-" {
        return fs::read(rt, word);
    }
    let mut bytes = Vec::new(rt.alloc());
    rt.reader().read_to_end(&mut bytes)?;
    Ok(bytes)
}
