//! From a description to its report: read all input, build the report, render it, write the text.

ghost use Rattle.std.specs.Prelude.{◌≡◌, ◌<◌, ◌↔◌, length, ◌⊎◌, false, string_bytes, IsTrue, IsUtf8, IfOk, OnOk, OnErr};
ghost use Rattle.std.specs.Prelude.{IfSome, Some};
ghost use Rattle.std.specs.Io.KnownBytes.{Appends};
ghost use Rattle.miette_devices.specs.views.Device.{TakesBeginning};
ghost use Rattle.miette_tree.specs.views.Report.{tree_of};
ghost use Rattle.miette_tree.specs.rules.Reads.{AlwaysReads};
ghost use Rattle.miette_description.specs.rules.Description.{tree_of_bytes};
ghost use Rattle.miette_program.specs.rules.JobText.{IsAsked, IsGiven, IsTelling, JobMayRefuse};
ghost use Rattle.miette_report.specs.rules.Job.{IsDescription, IsNoDescription, IsRefused, Writes};

use miette_description::error::BuildError;
use miette_devices::device::Device;
use miette_devices::fault::ProgramError;
use miette_devices::whole::{read_whole, write_whole};
use miette_highlight::highlight::Highlighter;
use miette_program::arguments::Arguments;
use miette_program::job_handler::JobHandler;
use miette_program::language::LanguageHighlighter;
use miette_protocol::protocol::Diagnostic;
use miette_protocol::source::SourceCode;
use miette_tree::report::Report;
use std::alloc::Global;
use std::io::{Read, Write};

/// Builds the report that the input describes.
pub(crate) fn report_from_json(alloc: Global, bytes: &[u8]) -> Result<Report, ProgramError>
    ensures ok { IfOk result (λ r. IsUtf8 bytes.now
        × (tree_of_bytes bytes.now ≡ Some (tree_of ⟦<Box<dyn Diagnostic> as Diagnostic>⟧.meaning
        ⟦<Box<dyn SourceCode> as SourceCode>⟧.source r))) }
    ensures sources { IfOk result (λ r. AlwaysReads
        (tree_of ⟦<Box<dyn Diagnostic> as Diagnostic>⟧.meaning ⟦<Box<dyn SourceCode> as SourceCode>⟧.source r)) }
    ensures description { (result ≡ Err ProgramError.Description) → IsNoDescription bytes.now }
    ensures others { OnErr result ((result ≡ Err ProgramError.Description) ⊎ (result ≡ Err ProgramError.Memory)) }
{
    match miette_description::report::report_from_json(alloc, bytes) {
        Ok(report) => Ok(report),
        Err(BuildError::Memory) => Err(ProgramError::Memory),
        Err(BuildError::Description) => Err(ProgramError::Description),
    }
}

/// Builds the report that the input describes, and the handler that the settings choose.
fn report_and_handler(
    alloc: Global,
    bytes: &[u8],
    settings: Arguments,
) -> Result<(Report, JobHandler<LanguageHighlighter>), ProgramError>
    ensures ok { IfOk result (λ it. IsUtf8 bytes.now
        × (tree_of_bytes bytes.now ≡ Some (tree_of ⟦<Box<dyn Diagnostic> as Diagnostic>⟧.meaning
        ⟦<Box<dyn SourceCode> as SourceCode>⟧.source it.0))) }
    ensures sources { IfOk result (λ it. AlwaysReads
        (tree_of ⟦<Box<dyn Diagnostic> as Diagnostic>⟧.meaning ⟦<Box<dyn SourceCode> as SourceCode>⟧.source it.0)) }
    ensures asked { IfOk result (λ it. IsAsked settings.choice settings.options settings.terminal it.1) }
    ensures description { (result ≡ Err ProgramError.Description) → IsNoDescription bytes.now }
    ensures others { OnErr result ((result ≡ Err ProgramError.Description) ⊎ (result ≡ Err ProgramError.Memory)) }
{
    let report = report_from_json(alloc, bytes)?;
    Ok((report, JobHandler::new(alloc, settings)?))
}

/// Renders the report that the input describes.
fn text_of(alloc: Global, bytes: &[u8], settings: Arguments) -> Result<String, ProgramError>
    ensures ok { IfOk result (λ text. Writes ⟦<LanguageHighlighter as Highlighter>⟧.is_blank settings.choice
        settings.options settings.terminal bytes.now (λ given. string_bytes text ≡ given)) }
    ensures description { (result ≡ Err ProgramError.Description) → IsNoDescription bytes.now }
    ensures refused { (result ≡ Err ProgramError.Refused) →
        IsTelling settings.choice settings.options settings.terminal × IsRefused bytes.now }
    ensures others { OnErr result ((result ≡ Err ProgramError.Description) ⊎ (result ≡ Err ProgramError.Refused)
        ⊎ (result ≡ Err ProgramError.Memory)) }
{
    let (report, mut handler) = report_and_handler(alloc, bytes, settings)?;
    handler.render(alloc, &report)
}

/// Renders a report `times` times, at least once, and returns the last text.
fn render_times<H: Highlighter>(
    handler: &mut JobHandler<H>,
    alloc: Global,
    report: &Report,
    times: usize,
) -> Result<String, ProgramError>
    requires reads { AlwaysReads (tree_of ⟦<Box<dyn Diagnostic> as Diagnostic>⟧.meaning
        ⟦<Box<dyn SourceCode> as SourceCode>⟧.source report.now) }
    ensures ok { IfOk result (λ text. IsGiven H.is_blank H.may_follow handler.old
        (tree_of ⟦<Box<dyn Diagnostic> as Diagnostic>⟧.meaning ⟦<Box<dyn SourceCode> as SourceCode>⟧.source
        report.now) (string_bytes text)) }
    ensures others { OnErr result ((result ≡ Err ProgramError.Refused) ⊎ (result ≡ Err ProgramError.Memory)) }
    ensures refused { (result ≡ Err ProgramError.Refused) →
        JobMayRefuse handler.old (tree_of ⟦<Box<dyn Diagnostic> as Diagnostic>⟧.meaning
        ⟦<Box<dyn SourceCode> as SourceCode>⟧.source report.now) }
{
    for _ in 1..times {
        handler.render(alloc, report)?;
    }
    handler.render(alloc, report)
}

/// Renders the report of a description `times` times, and returns the number of bytes of its text. Returns 0 if `times`
/// is 0.
pub(crate) fn rendered_length(
    alloc: Global,
    bytes: &[u8],
    times: usize,
    settings: Arguments,
) -> Result<usize, ProgramError>
    ensures ok { IfOk result (λ n. 0 < times →
        Writes ⟦<LanguageHighlighter as Highlighter>⟧.is_blank settings.choice settings.options settings.terminal
        bytes.now (λ text. n ≡ length text)) }
    ensures none { IfOk result (λ n. times ≡ 0 → n ≡ 0) }
    ensures described { OnOk result (IsDescription bytes.now) }
    ensures others { OnErr result ((result ≡ Err ProgramError.Description) ⊎ (result ≡ Err ProgramError.Refused)
        ⊎ (result ≡ Err ProgramError.Memory)) }
    ensures description { (result ≡ Err ProgramError.Description) → IsNoDescription bytes.now }
    ensures refused { (result ≡ Err ProgramError.Refused) →
        IsTelling settings.choice settings.options settings.terminal × IsRefused bytes.now }
{
    let (report, mut handler) = report_and_handler(alloc, bytes, settings)?;
    if times == 0 {
        return Ok(0);
    }
    let last = render_times(&mut handler, alloc, &report, times)?;
    Ok(last.len())
}

/// Reads a description and writes its report as the settings say.
///
/// # Errors
/// `Read` exactly if a call of the reader failed. `Write` exactly if a call of the writer failed or took nothing; the
/// writer then has a beginning of the text. `Description` if the input describes no report. `Refused` only for a
/// narrated or brief report with a label out of bounds. `Memory` if allocation fails. Except after `Write`, nothing was
/// written.
pub fn run<R: Read, W: Write>(
    alloc: Global,
    reader: &mut Device<R>,
    writer: &mut Device<W>,
    settings: Arguments,
) -> Result<(), ProgramError>
    requires reader_sound { reader.old.failed ≡ false }
    requires writer_sound { writer.old.failed ≡ false }
    // All remaining input is a description. The writer got its text, and nothing else.
    ensures ok { OnOk result (IfSome (R.remaining reader.old.inner) (λ bytes.
        Writes ⟦<LanguageHighlighter as Highlighter>⟧.is_blank settings.choice settings.options settings.terminal bytes
        (Appends (W.contents writer.old.inner) (W.contents writer.new.inner)))) }
    ensures description { (result ≡ Err ProgramError.Description) →
        IfSome (R.remaining reader.old.inner) IsNoDescription }
    ensures read_failed { IsTrue reader.new.failed ↔ (result ≡ Err ProgramError.Read) }
    ensures write_failed { IsTrue writer.new.failed ↔ (result ≡ Err ProgramError.Write) }
    // Only a narrated or brief report is refused, because of a label out of bounds.
    ensures refused { (result ≡ Err ProgramError.Refused) →
        IsTelling settings.choice settings.options settings.terminal
        × IfSome (R.remaining reader.old.inner) IsRefused }
    // After a write error the writer has a beginning of the text.
    ensures beginning { (result ≡ Err ProgramError.Write) → IfSome (R.remaining reader.old.inner) (λ bytes.
        Writes ⟦<LanguageHighlighter as Highlighter>⟧.is_blank settings.choice settings.options settings.terminal bytes
        (TakesBeginning (W.contents writer.old.inner) (W.contents writer.new.inner))) }
    ensures called { ¬ (result ≡ Err ProgramError.Usage) }
    // After any other error nothing was written.
    ensures untouched { OnErr result ((result ≡ Err ProgramError.Write) ⊎ (writer.new ≡ writer.old)) }
{
    let bytes = read_whole(alloc, reader)?;
    let text = text_of(alloc, bytes.as_slice(), settings)?;
    write_whole(writer, text.as_bytes())
}
