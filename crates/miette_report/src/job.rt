//! The program `job`, over any reader and writers.

ghost use Rattle.std.specs.Prelude.{◌≡◌, ◌↔◌, ◌⊎◌, false, IfSome, IsTrue, OnErr, OnOk, None, map, string_bytes};
ghost use Rattle.std.specs.Io.KnownBytes.{Appends};
ghost use Rattle.miette_devices.specs.views.Device.{TakesBeginning};
ghost use Rattle.miette_program.specs.rules.OptionWords.{parsed_arguments};
ghost use Rattle.miette_report.specs.rules.JobCalls.{CallWrites, IsJobEnd, IsJobStatus};
ghost use Rattle.miette_report.specs.rules.Requests.{IsProgramStatus};

use crate::fix::write_job_fixes;
use crate::job_log::write_job_log;
pub use crate::pipeline::run;
use crate::request::Request;
use miette_devices::device::Device;
use miette_devices::fault::Program;
pub use miette_devices::fault::{
    ProgramError, ProgramError as JobError, ProgramError as WordsFault,
};
use miette_highlight::highlight::Highlighter;
pub use miette_program::arguments::{Arguments, Arguments as Settings, Choice};
use miette_program::language::LanguageHighlighter;
use std::alloc::Global;
use std::io::{Read, Write};

/// Runs `job` for one report: reads a description and writes its report. Returns the exit code: 0 on success, 1 if
/// allocation, the reader or the writer failed, 2 for wrong arguments, 3 for a bad description, and 4 if the handler
/// refused the report. The arguments are checked before anything is read. An error's message goes to `faults`. Errors
/// of `faults` itself are ignored.
pub fn job_with<R, W, F>(alloc: Global, words: &[String], reader: R, writer: W, faults: F) -> u8
where
    R: Read + Drop,
    W: Write + Drop,
    F: Write + Drop,
    // Only a narrated or brief report is refused, because of a label out of bounds.
    ensures status { IsJobStatus (parsed_arguments (map string_bytes words.now) ≡ None) (map string_bytes words.now)
        (R.remaining reader) result }
{
    let mut reader = Device::new(reader);
    let mut writer = Device::new(writer);
    let work = run_job(alloc, words, &mut reader, &mut writer);
    Program::Job.finish(work, faults)
}

/// Runs `job`: reads a description and writes its report, one log of it, or its source after fixes, as the arguments
/// say. Returns 0 on success, 5 if a fix was left out, and the exit codes of `job_with` for errors. The arguments are
/// checked before anything is read. An error's message goes to `faults`. Errors of `faults` itself are ignored.
pub fn run_program<R, W, F>(alloc: Global, words: &[String], reader: R, writer: W, faults: F) -> u8
where
    R: Read + Drop,
    W: Write + Drop,
    F: Write + Drop,
    // The exit code for a report, a log or fixes, as the arguments say.
    ensures status { IsProgramStatus (map string_bytes words.now) (R.remaining reader) result }
{
    let mut reader = Device::new(reader);
    let mut writer = Device::new(writer);
    match Request::read(alloc, words) {
        Ok(Request::Report(settings)) => {
            Program::Job.finish(run(alloc, &mut reader, &mut writer, settings), faults)
        }
        Ok(Request::Log(log)) => {
            Program::Job.finish(write_job_log(alloc, log, &mut reader, &mut writer), faults)
        }
        Ok(Request::Fix { all }) => match write_job_fixes(alloc, all, &mut reader, &mut writer) {
            Ok(false) => 0,
            Ok(true) => 5,
            Err(fault) => Program::Job.end(fault, faults),
        },
        Err(fault) => Program::Job.end(fault, faults),
    }
}

/// Checks the arguments before anything is read, then runs the job.
///
/// # Errors
/// `Usage` for wrong arguments. Otherwise those of `run`.
pub fn run_job<R: Read, W: Write>(
    alloc: Global,
    words: &[String],
    reader: &mut Device<R>,
    writer: &mut Device<W>,
) -> Result<(), ProgramError>
    requires reader_sound { reader.old.failed ≡ false }
    requires writer_sound { writer.old.failed ≡ false }
    // All remaining input is a description. The writer got the text that the arguments ask for, and nothing else.
    ensures ok { OnOk result (IfSome (R.remaining reader.old.inner) (λ bytes.
        CallWrites ⟦<LanguageHighlighter as Highlighter>⟧.is_blank (map string_bytes words.now) bytes
        (Appends (W.contents writer.old.inner) (W.contents writer.new.inner)))) }
    ensures end { IsJobEnd (parsed_arguments (map string_bytes words.now) ≡ None) (map string_bytes words.now)
        (R.remaining reader.old.inner) result }
    // If the arguments are wrong, nothing is read.
    ensures unread { parsed_arguments (map string_bytes words.now) ≡ None → reader.new ≡ reader.old }
    ensures read_failed { IsTrue reader.new.failed ↔ (result ≡ Err ProgramError.Read) }
    ensures write_failed { IsTrue writer.new.failed ↔ (result ≡ Err ProgramError.Write) }
    // After a write error the writer has a beginning of the text.
    ensures beginning { (result ≡ Err ProgramError.Write) → IfSome (R.remaining reader.old.inner) (λ bytes.
        CallWrites ⟦<LanguageHighlighter as Highlighter>⟧.is_blank (map string_bytes words.now) bytes
        (TakesBeginning (W.contents writer.old.inner) (W.contents writer.new.inner))) }
    // After any other error nothing was written.
    ensures untouched { OnErr result ((result ≡ Err ProgramError.Write) ⊎ (writer.new ≡ writer.old)) }
{
    let settings = Arguments::read(alloc, words)?;
    run(alloc, reader, writer, settings)
}
