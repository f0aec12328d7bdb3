//! The program `draw`, over any reader and writers.

ghost use Rattle.std.specs.Prelude.{◌≡◌, ◌↔◌, ◌⊎◌, ◌<◌, false, IfOk, IfSome, IsNone, IsTrue, None, OnOk, OnErr, map};
ghost use Rattle.std.specs.Prelude.{string_bytes};
ghost use Rattle.std.specs.Io.KnownBytes.{Appends};
ghost use Rattle.miette_devices.specs.views.Device.{TakesBeginning};
ghost use Rattle.miette_draw.specs.views.DrawReports.{CallPictures, Pictures};
ghost use Rattle.miette_draw.specs.rules.Pictures.{IsPicture};
ghost use Rattle.miette_protocol.specs.views.Diagnostic.{meaning_of};
ghost use Rattle.miette_tree.specs.views.Report.{tree_of};
ghost use Rattle.miette_draw.specs.views.DrawReports.{draw_request, draw_label_of, draw_meaning_of, draw_tree_of};
ghost use Rattle.miette_draw.specs.rules.Words.{AreDrawWords, IsNoDrawCall};

use crate::drawing::draw;
use miette_devices::device::Device;
/// An earlier name of `ProgramError`.
pub use miette_devices::fault::ProgramError as DrawError;
use miette_devices::fault::{Program, ProgramError};
use miette_devices::whole::{read_whole, write_whole};
use miette_devices::words::number;
use miette_protocol::diagnostic::MietteDiagnostic;
use miette_protocol::error::RenderError;
use miette_protocol::protocol::{Diagnostic, LabeledSpan};
use miette_protocol::source::{NamedSource, SourceCode};
use miette_tree::report::Report;
use std::alloc::{AllocError, Global};
use std::io::{Read, Write};

/// The arguments of `draw`: a label on a source.
#[derive(Clone, Copy, Debug, PartialEq, Eq)]
pub struct DrawArguments<'a> {
    /// The source's name.
    pub name: &'a str,
    /// Offset of the label, in bytes.
    pub offset: usize,
    /// Length of the label, in bytes.
    pub length: usize,
    /// The label's text. An empty text means none.
    pub label: &'a str,
    /// The report's message.
    pub message: &'a str,
}

impl<'a> DrawArguments<'a> {
    /// Reads the arguments after the program's name. Returns `None` unless there are five, and the second and the third
    /// are numbers.
    pub fn read(words: &'a [String]) -> Option<Self>
        ensures some { IfSome result (λ it. AreDrawWords (map string_bytes words.now) (draw_request it)) }
        ensures none { IsNone result → IsNoDrawCall (map string_bytes words.now) }
    {
        let [name, offset, length, label, message] = words else {
            return None;
        };
        Some(DrawArguments {
            name: name.as_str(),
            offset: number(offset.as_str())?,
            length: number(length.as_str())?,
            label: label.as_str(),
            message: message.as_str(),
        })
    }
}

// Creates a label. It has no text if `text` is empty.
fn label(alloc: Global, offset: usize, length: usize, text: &str) -> Result<LabeledSpan, AllocError>
    ensures { IfOk result (λ it. it ≡ draw_label_of offset length text.now) }
{
    if text.is_empty() {
        return Ok(LabeledSpan::new(None, offset, length));
    }
    let text = String::from_str(alloc, text)?;
    Ok(LabeledSpan::new(Some(text), offset, length))
}

// Creates the diagnostic with its label.
fn diagnostic(alloc: Global, words: &DrawArguments<'_>) -> Result<MietteDiagnostic, AllocError>
    ensures { IfOk result (λ it. meaning_of it ≡ draw_meaning_of (draw_request words.now)) }
{
    let label = label(alloc, words.offset, words.length, words.label)?;
    MietteDiagnostic::new(alloc, words.message)?.with_label(alloc, label)
}

// A report over a named source without an index of lines.
type DrawReport = Report<MietteDiagnostic, NamedSource<Vec<u8>>>;

// Creates the report. An index would cost more than the few reads for one label, which search for their lines
// themselves.
fn report(
    alloc: Global,
    words: &DrawArguments<'_>,
    input: Vec<u8>,
) -> Result<DrawReport, AllocError>
    ensures { IfOk result (λ it. tree_of ⟦<MietteDiagnostic as Diagnostic>⟧.meaning
        ⟦<NamedSource<Vec<u8>> as SourceCode>⟧.source it ≡ draw_tree_of (draw_request words.now) input.items) }
{
    let source = NamedSource::new(alloc, words.name, input)?;
    let diagnostic = diagnostic(alloc, words)?;
    Ok(Report::built(diagnostic).with_source_code(source))
}

// Renders the report. It fails only if allocation fails.
fn picture(alloc: Global, words: &DrawArguments<'_>, input: Vec<u8>) -> Result<String, RenderError>
    ensures ok { IfOk result (λ text. IsPicture None (draw_tree_of (draw_request words.now) input.items)
        (string_bytes text)) }
    ensures accepted { ¬ (result ≡ Err RenderError.Refused) }
{
    let report = match report(alloc, words, input) {
        Ok(report) => report,
        Err(_) => return Err(RenderError::Memory),
    };
    draw(alloc, &report, None)
}

/// Reads all input and writes the graphical report of the label.
///
/// # Errors
/// `Read` exactly if a call of the reader failed. `Write` exactly if a call of the writer failed or took nothing; the
/// writer then has a beginning of the text. `Memory` if allocation fails. Except after `Write`, nothing was written.
pub fn write_drawing<R: Read, W: Write>(
    alloc: Global,
    words: &DrawArguments<'_>,
    reader: &mut Device<R>,
    writer: &mut Device<W>,
) -> Result<(), ProgramError>
    requires reader_sound { reader.old.failed ≡ false }
    requires writer_sound { writer.old.failed ≡ false }
    // All remaining input is the source. The writer got exactly its graphical report.
    ensures ok { OnOk result (IfSome (R.remaining reader.old.inner) (λ bytes.
        Pictures (draw_request words.now) bytes
        (Appends (W.contents writer.old.inner) (W.contents writer.new.inner)))) }
    ensures read_failed { IsTrue reader.new.failed ↔ (result ≡ Err ProgramError.Read) }
    ensures write_failed { IsTrue writer.new.failed ↔ (result ≡ Err ProgramError.Write) }
    ensures others { OnErr result ((result ≡ Err ProgramError.Memory) ⊎ (result ≡ Err ProgramError.Read)
        ⊎ (result ≡ Err ProgramError.Write)) }
    // After a write error the writer has a beginning of the text.
    ensures beginning { (result ≡ Err ProgramError.Write) → IfSome (R.remaining reader.old.inner) (λ bytes.
        Pictures (draw_request words.now) bytes
        (TakesBeginning (W.contents writer.old.inner) (W.contents writer.new.inner))) }
    // After any other error nothing was written.
    ensures untouched { OnErr result ((result ≡ Err ProgramError.Write) ⊎ (writer.new ≡ writer.old)) }
{
    let input = read_whole(alloc, reader)?;
    let Ok(text) = picture(alloc, words, input) else {
        return Err(ProgramError::Memory);
    };
    write_whole(writer, text.as_bytes())
}

/// Runs `draw` with the arguments after the program's name, and returns the exit code. It checks the arguments first,
/// then reads all input, then renders the report, then writes it.
///
/// The exit code is 0 on success, 1 if allocation, the reader or the writer failed, and 2 for wrong arguments. An
/// error's text and a line feed go to `faults`. Errors of `faults` itself are ignored.
pub fn draw_with<R, W, F>(alloc: Global, words: &[String], reader: R, writer: W, faults: F) -> u8
where
    R: Read + Drop,
    W: Write + Drop,
    F: Write + Drop,
    ensures status { result < 3 }
    ensures usage { (result ≡ 2) ↔ IsNoDrawCall (map string_bytes words.now) }
{
    let mut reader = Device::new(reader);
    let mut writer = Device::new(writer);
    match run_draw(alloc, words, &mut reader, &mut writer) {
        Ok(()) => 0,
        Err(fault) => Program::Draw.end(fault, faults),
    }
}

/// Checks the arguments before anything is read, then writes the graphical report.
///
/// # Errors
/// `Usage` exactly if the arguments are wrong. Otherwise those of `write_drawing`.
pub fn run_draw<R: Read, W: Write>(
    alloc: Global,
    words: &[String],
    reader: &mut Device<R>,
    writer: &mut Device<W>,
) -> Result<(), ProgramError>
    requires reader_sound { reader.old.failed ≡ false }
    requires writer_sound { writer.old.failed ≡ false }
    ensures usage { (result ≡ Err ProgramError.Usage) ↔ IsNoDrawCall (map string_bytes words.now) }
    ensures unread { (result ≡ Err ProgramError.Usage) → (reader.new ≡ reader.old) × (writer.new ≡ writer.old) }
    // All remaining input is the source. The writer got exactly its graphical report.
    ensures ok { OnOk result (IfSome (R.remaining reader.old.inner) (λ bytes.
        CallPictures (map string_bytes words.now) bytes
        (Appends (W.contents writer.old.inner) (W.contents writer.new.inner)))) }
    ensures read_failed { IsTrue reader.new.failed ↔ (result ≡ Err ProgramError.Read) }
    ensures write_failed { IsTrue writer.new.failed ↔ (result ≡ Err ProgramError.Write) }
    ensures others { OnErr result ((result ≡ Err ProgramError.Usage) ⊎ (result ≡ Err ProgramError.Memory)
        ⊎ (result ≡ Err ProgramError.Read)
        ⊎ (result ≡ Err ProgramError.Write)) }
    // After a write error the writer has a beginning of the text.
    ensures beginning { (result ≡ Err ProgramError.Write) → IfSome (R.remaining reader.old.inner) (λ bytes.
        CallPictures (map string_bytes words.now) bytes
        (TakesBeginning (W.contents writer.old.inner) (W.contents writer.new.inner))) }
    // After any other error nothing was written.
    ensures untouched { OnErr result ((result ≡ Err ProgramError.Write) ⊎ (writer.new ≡ writer.old)) }
{
    let Some(words) = DrawArguments::read(words) else {
        return Err(ProgramError::Usage);
    };
    write_drawing(alloc, &words, reader, writer)
}
