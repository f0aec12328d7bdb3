//! The program `lint`, over any reader and writers.

ghost use Rattle.std.specs.Prelude.{◌≡◌, ◌↔◌, ◌⊎◌, ◌<◌, false, true, IfOk, IfSome, IsNone, IsTrue, None, OnErr, OnOk};
ghost use Rattle.std.specs.Prelude.{map, string_bytes};
ghost use Rattle.std.specs.Io.KnownBytes.{Appends};
ghost use Rattle.miette_devices.specs.views.Device.{TakesBeginning};
ghost use Rattle.miette_devices.specs.views.Endings.{IsFailure, IsFound};
ghost use Rattle.miette_lint.specs.rules.Fixes.{fixed_text};
ghost use Rattle.miette_lint_program.specs.rules.Words.{lint_request};
ghost use Rattle.miette_lint_program.specs.views.LintReports.{check_status, is_fix, report_on, request_status, text_of};
ghost use Rattle.miette_lint_program.specs.views.LintReports.{IsVerdict, IsVerdictIn};
ghost use Rattle.miette_lint_program.specs.views.Requests.{check_of, output_of};

use crate::lint_reports::report_on;
pub use crate::lint_request::{LintCheck, LintOutput, LintRequest};
use crate::lint_server::lint_serve_with;
use miette_devices::device::Device;
use miette_devices::fault::{Program, ProgramError, ProgramExit};
use miette_devices::whole::{read_whole, write_whole};
pub use miette_lint::findings::findings;
use miette_lint::fixed::fixed;
use std::alloc::Global;
use std::io::{Read, Write};

/// What `lint` found in a source.
#[derive(Debug, Drop)]
pub enum Verdict {
    /// Nothing.
    Clean,
    /// Findings. Their report was written.
    Found,
    /// Findings in the fixed text that was written, with their report.
    RemainingFindings(String),
}

// The output for an input, and what was found.
#[derive(Drop)]
struct Answer {
    text: Vec<u8>,
    verdict: Verdict,
}

// Checks an input and renders the output for it. With `--fix` the findings are those of the fixed text.
fn check_input(alloc: Global, check: &LintCheck<'_>, input: Vec<u8>) -> Result<Answer, ProgramError>
    ensures text { IfOk result (λ it. it.text.items ≡ text_of (check_of check.now) input.items) }
    ensures verdict { IfOk result (λ it. IsVerdict it.verdict (check_of check.now) input.items) }
    ensures form { IfOk result (λ it. IsVerdictIn (output_of check.now.output) it.verdict) }
    ensures others { OnErr result (result ≡ Err ProgramError.Memory) }
{
    match check.output {
        LintOutput::Fixed => {
            let text = fixed(alloc, input.as_slice())?;
            let copy = text.clone()?;
            let (clean, report) = report_on(alloc, check, copy)?;
            let verdict = if clean {
                Verdict::Clean
            } else {
                Verdict::RemainingFindings(report)
            };
            Ok(Answer { text, verdict })
        }
        _ => {
            let (clean, report) = report_on(alloc, check, input)?;
            let verdict = if clean {
                Verdict::Clean
            } else {
                Verdict::Found
            };
            Ok(Answer {
                text: report.into_bytes(),
                verdict,
            })
        }
    }
}

/// Reads a source, checks it, and writes the output for it. Returns what was found.
///
/// # Errors
/// `Usage` exactly if the arguments were wrong, so that there is no check. `Read` exactly if a call of the reader
/// failed. `Write` exactly if a call of the writer failed or took nothing; the writer then has a beginning of the text.
/// `Memory` if allocation fails. Except after `Write`, nothing was written.
pub fn run_lint<R: Read, W: Write>(
    alloc: Global,
    check: Option<LintCheck<'_>>,
    reader: &mut Device<R>,
    writer: &mut Device<W>,
) -> Result<Verdict, ProgramError>
    requires reader_sound { reader.old.failed ≡ false }
    requires writer_sound { writer.old.failed ≡ false }
    ensures usage { (result ≡ Err ProgramError.Usage) ↔ IsNone check.entry }
    ensures unread { (result ≡ Err ProgramError.Usage) → (reader.new ≡ reader.old) × (writer.new ≡ writer.old) }
    // All remaining input is the source. The writer got the text for it, and nothing else.
    ensures ok { OnOk result (IfSome check.entry (λ it. IfSome (R.remaining reader.old.inner) (λ bytes.
        Appends (W.contents writer.old.inner) (W.contents writer.new.inner) (text_of (check_of it) bytes)))) }
    ensures verdict { IfOk result (λ verdict. IfSome check.entry (λ it. IfSome (R.remaining reader.old.inner) (λ bytes.
        IsVerdict verdict (check_of it) bytes))) }
    ensures form { IfOk result (λ verdict. IfSome check.entry (λ it. IsVerdictIn (output_of it.output) verdict)) }
    ensures read_failed { IsTrue reader.new.failed ↔ (result ≡ Err ProgramError.Read) }
    ensures write_failed { IsTrue writer.new.failed ↔ (result ≡ Err ProgramError.Write) }
    ensures others { OnErr result ((result ≡ Err ProgramError.Usage) ⊎ (result ≡ Err ProgramError.Memory)
        ⊎ (result ≡ Err ProgramError.Read)
        ⊎ (result ≡ Err ProgramError.Write)) }
    // After a write error the writer has a beginning of the text.
    ensures beginning { (result ≡ Err ProgramError.Write) → IfSome check.entry (λ it. IfSome
        (R.remaining reader.old.inner)
        (λ bytes. TakesBeginning (W.contents writer.old.inner) (W.contents writer.new.inner)
        (text_of (check_of it) bytes))) }
    // After any other error nothing was written.
    ensures untouched { OnErr result ((result ≡ Err ProgramError.Write) ⊎ (writer.new ≡ writer.old)) }
{
    let Some(check) = check else {
        return Err(ProgramError::Usage);
    };
    let input = read_whole(alloc, reader)?;
    let answer = check_input(alloc, &check, input)?;
    write_whole(writer, answer.text.as_slice())?;
    Ok(answer.verdict)
}

/// Like `lint_with` for a check, over readers and writers that the caller keeps. Also returns whether `faults` took the
/// report of the remaining findings, or the error message.
pub fn lint_on<R: Read, W: Write, F: Write>(
    alloc: Global,
    check: Option<LintCheck<'_>>,
    reader: &mut Device<R>,
    writer: &mut Device<W>,
    faults: &mut F,
) -> ProgramExit
    requires reader_sound { reader.old.failed ≡ false }
    requires writer_sound { writer.old.failed ≡ false }
    ensures status { result.status < 3 }
    // 0 if nothing was found, 1 if there are findings. The writer got the text, and nothing else.
    ensures done { result.status < 2 → IfSome check.entry (λ it. IfSome (R.remaining reader.old.inner) (λ bytes.
        (result.status ≡ check_status (check_of it) bytes)
        × Appends (W.contents writer.old.inner) (W.contents writer.new.inner) (text_of (check_of it) bytes))) }
    // `faults` gets the report of findings that remain in a fixed text, and nothing in other forms.
    ensures quiet { result.status ≡ 0 → faults.new ≡ faults.old }
    ensures found { result.status ≡ 1 → IfSome check.entry (λ it. is_fix (output_of it.output) ≡ false
        → faults.new ≡ faults.old) }
    ensures left { result.status ≡ 1 → IfSome check.entry (λ it. is_fix (output_of it.output) ≡ true
        → IfSome (R.remaining reader.old.inner) (λ bytes. OnOk result.told (Appends (F.contents faults.old)
        (F.contents faults.new) (report_on (check_of it) (fixed_text bytes))))) }
    // The exit code is 2 only after an error, and `faults` gets its message.
    ensures failed { result.status ≡ 2 → (fault : ProgramError)
        × IsFailure Program.Lint result (F.contents faults.old) (F.contents faults.new) fault
        × IsFound (IsNone check.entry) reader.new.failed writer.new.failed fault }
    ensures usage { IsNone check.entry → result.status ≡ 2 }
{
    match run_lint(alloc, check, reader, writer) {
        Ok(Verdict::Clean) => ProgramExit::done(0),
        Ok(Verdict::Found) => ProgramExit::done(1),
        Ok(Verdict::RemainingFindings(report)) => ProgramExit {
            status: 1,
            told: faults.write_all(report.as_bytes()),
        },
        Err(fault) => Program::Lint.fail(fault, faults),
    }
}

/// Runs `lint` with the arguments after the program's name, and returns the exit code. The arguments are checked first.
/// Then it serves an editor, or it reads all input, checks it, and writes the output.
///
/// The exit code of a check is 0 if nothing was found, and 1 if there are findings. That of a server is 0 if the editor
/// ended it after `shutdown`, and 1 if it ended it before. The exit code is 2 for wrong arguments, and if allocation,
/// the reader or the writer failed. An error's message goes to `faults`. Errors of `faults` itself are ignored.
pub fn lint_with<R, W, F>(alloc: Global, words: &[String], reader: R, writer: W, faults: F) -> u8
where
    R: Read + Drop,
    W: Write + Drop,
    F: Write + Drop,
    ensures status { result < 3 }
    ensures ended { result < 2 → IfSome (lint_request (map string_bytes words.now)) (λ it. IfSome (R.remaining reader)
        (λ bytes. result ≡ request_status it bytes)) }
    ensures usage { lint_request (map string_bytes words.now) ≡ None → result ≡ 2 }
{
    let check = match LintRequest::read(words) {
        Some(LintRequest::Serve(width)) => return lint_serve_with(
            alloc, width, reader, writer, faults,
        ),
        Some(LintRequest::Check(check)) => Some(check),
        None => None,
    };
    let mut reader = Device::new(reader);
    let mut writer = Device::new(writer);
    let mut faults = faults;
    lint_on(alloc, check, &mut reader, &mut writer, &mut faults).status
}
