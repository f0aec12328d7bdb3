//! One log of all messages, over any reader, writers and files: what `show --sarif` and `show --lsp` write.

ghost use Rattle.std.specs.Prelude.{◌≡◌, ◌↔◌, ◌⊎◌, Err, IfOk, IfSome, IsTrue, OnErr, false, ⊤};
ghost use Rattle.std.specs.Io.KnownBytes.{Appends};
ghost use Rattle.miette_devices.specs.views.Device.{TakesBeginning};
ghost use Rattle.miette_lsp.specs.rules.LogWords.{logged_text};
ghost use Rattle.miette_tree.specs.rules.Tree.{trees};
ghost use Rattle.miette_show.specs.rules.Logging.{Logs, LogsFirst, LogsSome};
ghost use Rattle.miette_show.specs.rules.LogCalls.{needs_places};
ghost use Rattle.miette_show_rows.specs.rules.Looking.{IsFoundBy};
ghost use Rattle.miette_show_rows.specs.rules.Statuses.{status_of};
ghost use Rattle.miette_show_rows.specs.declared.verdict.Verdict.{Verdict};
ghost use Rattle.miette_show_rows.specs.views.Reading.{left_of};

use crate::parts::{InputParts, load_part_files, read_parts, reports_of_parts};
use crate::show::ShowStreams;
use crate::words::Format;
use miette_devices::fault::{Program, ProgramError};
use miette_devices::whole::write_whole;
use miette_lsp::logs::{LogForm, LogOptions};
use miette_show_rows::loader::FileLoader;
use miette_show_rows::verdict::Verdict;
use std::alloc::Global;
use std::io::{Read, Write};

/// Whether each result of a log is to have a place.
fn needs_places(form: LogForm) -> bool
    ensures { result ≡ needs_places form }
{
    match form {
        LogForm::Sarif => true,
        LogForm::Lsp => false,
    }
}

/// Reads all remaining lines, and writes one log of all their messages, in order, after the lines that are passed on. A
/// SARIF log has only the messages with a location; the others are reported beside it.
///
/// # Errors
/// `Read` exactly if a call of the reader failed. `Write` exactly if a call of one of the writers failed. `Memory` if
/// allocation fails.
pub fn log_on<F: FileLoader, R: Read, W: Write, E: Write>(
    alloc: Global,
    from: Format,
    log: LogOptions<'_>,
    files: &mut F,
    streams: &mut ShowStreams<R, W, E>,
) -> Result<Verdict, ProgramError>
    requires rows_sound { streams.old.rows.failed ≡ false }
    requires writer_sound { streams.old.writer.failed ≡ false }
    requires faults_sound { streams.old.faults.failed ≡ false }
    // The writer got the log of all reports in order; a SARIF log has only those with a location. The error stream got
    // each line that has no message, and what is said about the other reports.
    ensures ok { IfOk result (λ verdict. IfSome (left_of R.remaining streams.old.rows) (λ bytes.
        Logs from (needs_places log.entry.form) (IsFoundBy F.found F.knows files.old) bytes (λ ts notes.
        Appends (W.contents streams.old.writer.inner) (W.contents streams.new.writer.inner)
        (logged_text log.entry (trees ts))
        × Appends (E.contents streams.old.faults.inner) (E.contents streams.new.faults.inner) notes) verdict)) }
    // After an error the writer took nothing, or a beginning of the log, after all that is passed on.
    ensures beginning { OnErr result ((streams.new.writer ≡ streams.old.writer)
        ⊎ IfSome (left_of R.remaining streams.old.rows) (λ bytes.
        LogsSome from (needs_places log.entry.form) (IsFoundBy F.found F.knows files.old) bytes (λ ts notes.
        TakesBeginning (W.contents streams.old.writer.inner) (W.contents streams.new.writer.inner)
        (logged_text log.entry (trees ts))
        × Appends (E.contents streams.old.faults.inner) (E.contents streams.new.faults.inner) notes))) }
    ensures untouched { OnErr result ((result ≡ Err ProgramError.Write) ⊎ (streams.new.writer ≡ streams.old.writer)) }
    // The error stream has a beginning of what is passed on.
    ensures noted { OnErr result (IfSome (left_of R.remaining streams.old.rows) (λ bytes.
        LogsFirst from (needs_places log.entry.form) (IsFoundBy F.found F.knows files.old) bytes
        (TakesBeginning (E.contents streams.old.faults.inner) (E.contents streams.new.faults.inner)))) }
    ensures others { OnErr result ((result ≡ Err ProgramError.Memory) ⊎ (result ≡ Err ProgramError.Read)
        ⊎ (result ≡ Err ProgramError.Write)) }
    ensures read_failed { IsTrue streams.new.rows.failed ↔ (result ≡ Err ProgramError.Read) }
    ensures write_failed { (IsTrue streams.new.writer.failed ⊎ IsTrue streams.new.faults.failed)
        ↔ (result ≡ Err ProgramError.Write) }
{
    let parts = read_parts(alloc, &mut streams.rows)?;
    let held = InputParts {
        from,
        placed: needs_places(log.form),
        parts,
    };
    load_part_files(alloc, files, &held)?;
    let (verdict, reports) = reports_of_parts(alloc, files, &mut streams.faults, &held)?;
    let text = log.text(alloc, reports.as_slice())?;
    write_whole(&mut streams.writer, text.as_bytes())?;
    Ok(verdict)
}

/// Writes one log of all messages of a reader, and returns the exit code: that of the verdict, or 2 after an error,
/// whose message goes to `faults`.
pub fn log_with<F, R, W, E>(
    alloc: Global,
    from: Format,
    log: LogOptions<'_>,
    files: &mut F,
    streams: ShowStreams<R, W, E>,
) -> u8
where
    F: FileLoader,
    R: Read + Drop,
    W: Write + Drop,
    E: Write + Drop,
    requires rows_sound { streams.rows.failed ≡ false }
    requires writer_sound { streams.writer.failed ≡ false }
    requires faults_sound { streams.faults.failed ≡ false }
    ensures status { (result ≡ 2) ⊎ IfSome (left_of R.remaining streams.rows) (λ bytes. (verdict : Verdict)
        × (result ≡ status_of verdict)
        × Logs from (needs_places log.entry.form) (IsFoundBy F.found F.knows files.old) bytes (λ ts notes. ⊤) verdict) }
{
    let mut streams = streams;
    match log_on(alloc, from, log, files, &mut streams) {
        Ok(verdict) => verdict.status(),
        Err(fault) => {
            let mut faults = streams.faults.into_inner();
            Program::Show.fail(fault, &mut faults).status
        }
    }
}
