//! Prints reports to standard output and standard error, and returns exit codes.

ghost use Rattle.std.specs.Prelude.{◌≡◌, ◌⊎◌, [], IfOk, OnOk, OnErr};
ghost use Rattle.std.specs.Io.KnownBytes.{Appends};
ghost use Rattle.std.specs.Process.{exit_status};
ghost use Rattle.miette_tree.specs.views.Report.{tree_of};
ghost use Rattle.miette.specs.declared.print.PrintError.TheVariants.{Memory};
ghost use Rattle.miette.specs.rules.Detection.{IsToldBy};
ghost use Rattle.miette.specs.rules.Options.{no_options};
ghost use Rattle.miette.specs.rules.Printing.{IsPrinted, MayRefuse, WritesOne, unprinted_row};
ghost use Rattle.miette.specs.views.Handler.{GivesByCalls};

use crate::handlers::ReportHandler;
use crate::options::MietteHandlerOpts;
use crate::terminal::{Lookup, Stream, Streams, detect_terminal};
use miette_highlight::highlight::{BlankHighlighter, Highlighter};
use miette_protocol::error::RenderError;
use miette_protocol::protocol::Diagnostic;
use miette_protocol::source::SourceCode;
use miette_tree::report::Report;
use std::alloc::{AllocError, Global};
use std::io::Write;
use std::process::ExitCode;
use std::{fmt, io};

/// Why a report wasn't printed.
#[derive(Clone, Copy, Debug, PartialEq, Eq)]
pub enum PrintError {
    /// Allocation failed.
    Memory,
    /// A source couldn't be read, and the output has no text for that.
    Refused,
    /// The writer didn't take all bytes.
    Write,
}

/// Prints which of the three errors it is.
impl fmt::Display for PrintError {
    ghost use Rattle.std.specs.Prelude.{Some};
    ghost use Rattle.miette.specs.rules.Printing.{print_text};

    ghost output = { λ it. Some (print_text it) };

    fn fmt<W: fmt::Write>(&self, f: &mut fmt::Formatter<W>) -> fmt::Result {
        f.write_str(self.text())
    }
}

impl PrintError {
    ghost use Rattle.miette.specs.rules.Printing.{print_text};

    /// Returns the text of the error, without allocating.
    pub fn text(&self) -> &'static str
        ensures { result.now ≡ print_text self.now }
    {
        match self {
            PrintError::Memory => "out of memory",
            PrintError::Refused => "a source could not be read",
            PrintError::Write => "write fault",
        }
    }
}

impl From<AllocError> for PrintError {
    ghost from_gives = { λ _ it. it ≡ Memory };

    fn from(_: AllocError) -> Self {
        PrintError::Memory
    }
}

impl From<RenderError> for PrintError {
    ghost use Rattle.miette.specs.rules.Printing.{print_error};

    ghost from_gives = { λ error it. it ≡ print_error error };

    fn from(error: RenderError) -> Self {
        match error {
            RenderError::Memory => PrintError::Memory,
            RenderError::Refused => PrintError::Refused,
        }
    }
}

/// The writer for a report, and the writer for the reason if that fails.
#[derive(Drop)]
pub struct Outputs<W, F> {
    /// Receives the report.
    pub writer: W,
    /// Receives a line with the reason if the report was not printed.
    pub faults: F,
}

impl<W, F> Outputs<W, F> {
    /// Creates the pair.
    pub fn new(writer: W, faults: F) -> Self
        ensures writer { result.writer ≡ writer }
        ensures faults { result.faults ≡ faults }
    {
        Outputs { writer, faults }
    }
}

/// Prints a report to standard error, styled for its terminal, and returns exit code 1 for `main`. If that fails, it
/// prints the reason to standard error like `print_with_outputs`.
pub fn eprint_report<R: Lookup + AllocGlobal + Streams, D: Diagnostic, S: SourceCode>(
    rt: &R,
    report: &Report<D, S>,
) -> ExitCode
    ensures { exit_status result ≡ 1 }
{
    eprint_report_with(rt, plain(), report)
}

/// Like `eprint_report`, but prints to standard output.
pub fn print_report<R: Lookup + AllocGlobal + Streams, D: Diagnostic, S: SourceCode>(
    rt: &R,
    report: &Report<D, S>,
) -> ExitCode
    ensures { exit_status result ≡ 1 }
{
    print_report_with(rt, plain(), report)
}

/// Like `eprint_report`, but returns the given exit code, for example for wrong arguments.
pub fn fail_with<R: Lookup + AllocGlobal + Streams, D: Diagnostic, S: SourceCode>(
    rt: &R,
    status: u8,
    report: &Report<D, S>,
) -> ExitCode
    ensures { exit_status result ≡ status }
{
    let _ = eprint_report(rt, report);
    ExitCode::from(status)
}

/// Like `eprint_report`, with the handler that these options choose.
pub fn eprint_report_with<
    R: Lookup + AllocGlobal + Streams,
    H: Highlighter,
    D: Diagnostic,
    S: SourceCode,
>(rt: &R, options: MietteHandlerOpts<H>, report: &Report<D, S>) -> ExitCode
    ensures { exit_status result ≡ 1 }
{
    let mut outputs = Outputs::new(rt.faults(), rt.faults());
    failed(print_with_outputs(rt, Stream::Stderr, options, report, &mut outputs))
}

/// Like `print_report`, with the handler that these options choose.
pub fn print_report_with<
    R: Lookup + AllocGlobal + Streams,
    H: Highlighter,
    D: Diagnostic,
    S: SourceCode,
>(rt: &R, options: MietteHandlerOpts<H>, report: &Report<D, S>) -> ExitCode
    ensures { exit_status result ≡ 1 }
{
    let mut outputs = Outputs::new(rt.output(), rt.faults());
    failed(print_with_outputs(rt, Stream::Stdout, options, report, &mut outputs))
}

/// Prints a report to a writer, with the handler that the options choose for the stream's terminal, and returns exit
/// code 0. If that fails, it prints the reason to `faults` on one line, such as
/// `a report could not be printed: write fault`, and returns exit code 1.
///
/// # Errors
/// The error of `faults`, if it didn't take that line.
pub fn print_with_outputs<
    R: Lookup + AllocGlobal + Streams,
    H: Highlighter,
    D: Diagnostic,
    S: SourceCode,
    W: Write,
    F: Write,
>(
    rt: &R,
    stream: Stream,
    options: MietteHandlerOpts<H>,
    report: &Report<D, S>,
    outputs: &mut Outputs<W, F>,
) -> io::Result<ExitCode>
    ensures status { IfOk result (λ code. (exit_status code ≡ 0) ⊎ (exit_status code ≡ 1)) }
    ensures printed { IfOk result (λ code. exit_status code ≡ 0 →
        WritesOne (IsPrinted (IsToldBy (R.variable_may_be rt.now) (R.terminal_may_be rt.now))
        (GivesByCalls H.is_blank H.may_follow) options stream (tree_of D.meaning S.source report.now))
        (W.contents outputs.old.writer) (W.contents outputs.new.writer)) }
    ensures silent { IfOk result (λ code. exit_status code ≡ 0 → outputs.new.faults ≡ outputs.old.faults) }
    ensures told { IfOk result (λ code. exit_status code ≡ 1 → (why : PrintError)
        × Appends (F.contents outputs.old.faults) (F.contents outputs.new.faults) (unprinted_row why)
        × ((why ≡ PrintError.Write) ⊎ (outputs.new.writer ≡ outputs.old.writer))
        × (why ≡ PrintError.Refused → MayRefuse (IsToldBy (R.variable_may_be rt.now) (R.terminal_may_be rt.now))
        options stream (tree_of D.meaning S.source report.now))) }
{
    match print_to_writer(rt, stream, options, report, &mut outputs.writer) {
        Ok(()) => Ok(ExitCode::SUCCESS),
        Err(why) => {
            explain_failure(why, &mut outputs.faults)?;
            Ok(ExitCode::FAILURE)
        }
    }
}

/// Writes a report with the handler that the options choose for the stream's terminal.
///
/// # Errors
/// `Memory` if allocation fails, and `Refused` as described for the handler. In both cases nothing was written. `Write`
/// if the writer failed; it may have taken a beginning of the text.
pub fn print_to_writer<
    R: Lookup + AllocGlobal + Streams,
    H: Highlighter,
    D: Diagnostic,
    S: SourceCode,
    W: Write,
>(
    rt: &R,
    stream: Stream,
    options: MietteHandlerOpts<H>,
    report: &Report<D, S>,
    writer: &mut W,
) -> Result<(), PrintError>
    // Exactly one text of a handler that the options choose, with the calls on its highlighter, was written.
    ensures ok { OnOk result (WritesOne (IsPrinted (IsToldBy (R.variable_may_be rt.now) (R.terminal_may_be rt.now))
        (GivesByCalls H.is_blank H.may_follow) options stream (tree_of D.meaning S.source report.now))
        (W.contents writer.old) (W.contents writer.new)) }
    ensures refused { (result ≡ Err PrintError.Refused) → MayRefuse
        (IsToldBy (R.variable_may_be rt.now) (R.terminal_may_be rt.now)) options stream
        (tree_of D.meaning S.source report.now) }
    ensures untouched { OnErr result ((result ≡ Err PrintError.Write) ⊎ (writer.new ≡ writer.old)) }
{
    let terminal = detect_terminal(rt, stream)?;
    let mut handler = options.build(rt.alloc(), &terminal)?;
    write_report(rt.alloc(), &mut handler, report, writer)
}

/// Writes the text that a handler renders for a report. The handler's settings don't change.
///
/// # Errors
/// `Memory` if allocation fails, and `Refused` as described for the handler. In both cases nothing was written. `Write`
/// if the writer failed; it may have taken a beginning of the text.
pub fn write_report<T: ReportHandler, D: Diagnostic, S: SourceCode, W: Write>(
    alloc: Global,
    handler: &mut T,
    report: &Report<D, S>,
    writer: &mut W,
) -> Result<(), PrintError>
    ensures ok { OnOk result (WritesOne (T.gives handler.old (tree_of D.meaning S.source report.now))
        (W.contents writer.old) (W.contents writer.new)) }
    ensures asks { OnOk result (WritesOne (T.asks handler.old handler.new (tree_of D.meaning S.source report.now) [])
        (W.contents writer.old) (W.contents writer.new)) }
    ensures refused { (result ≡ Err PrintError.Refused) →
        T.refuses handler.old (tree_of D.meaning S.source report.now) }
    ensures untouched { OnErr result ((result ≡ Err PrintError.Write) ⊎ (writer.new ≡ writer.old)) }
    ensures settings { T.keeps handler.old handler.new }
{
    let mut text = String::new(alloc);
    handler.debug(report, &mut text)?;
    match writer.write_all(text.as_bytes()) {
        Ok(()) => Ok(()),
        Err(_) => Err(PrintError::Write),
    }
}

// Default options.
fn plain() -> MietteHandlerOpts<BlankHighlighter>
    ensures { result ≡ no_options }
{
    MietteHandlerOpts::default()
}

// Writes a line with the reason why a report was not printed.
pub(crate) fn explain_failure<F: Write>(why: PrintError, faults: &mut F) -> io::Result<()>
    ensures { OnOk result (Appends (F.contents faults.old) (F.contents faults.new) (unprinted_row why)) }
{
    writeln!(faults, "a report could not be printed: {why}")
}

// The exit code of a program that failed, whether or not its report was printed.
fn failed(_printed: io::Result<ExitCode>) -> ExitCode
    ensures { exit_status result ≡ 1 }
{
    ExitCode::FAILURE
}
