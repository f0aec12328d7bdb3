//! The program `show`, over any reader, writers and files.

ghost use Rattle.std.specs.Prelude.{◌≡◌, ◌↔◌, ◌⊎◌, ◌<◌, ℕ, List, IfOk, IfSome, IsTrue, OnErr, OnOk, false, ⊤};
ghost use Rattle.std.specs.Io.KnownBytes.{Appends};
ghost use Rattle.miette_program.specs.rules.JobText.{IsGiven, IsJobText, IsLed, JobHandlerStays};
ghost use Rattle.miette_devices.specs.views.Device.{TakesBeginning};
ghost use Rattle.miette_show_rows.specs.rules.Looking.{Goes, IsFoundBy};
ghost use Rattle.miette_show.specs.rules.ShownRow.{IsShown, Shows, ShowsFirst};
ghost use Rattle.miette_show_rows.specs.rules.Statuses.{status_of};
ghost use Rattle.miette_show_rows.specs.declared.verdict.Verdict.{Verdict};
ghost use Rattle.miette_show_rows.specs.views.Reading.{left_of};

use crate::message::row_text;
use crate::rows::{InputRow, either, pass_on};
use crate::value_kinds::is_missing;
use crate::words::Format;
use miette_devices::device::Device;
use miette_devices::fault::{Program, ProgramError};
use miette_devices::whole::write_whole;
use miette_highlight::highlight::Highlighter;
use miette_program::arguments::Arguments;
use miette_program::job_handler::JobHandler;
use miette_program::language::LanguageHighlighter;
use miette_show_rows::loader::FileLoader;
pub use miette_show_rows::streams::ShowStreams;
use miette_show_rows::verdict::{RowKind, Verdict};
use std::alloc::Global;
use std::io::{Read, Write};

/// Prints what is shown of a line, and returns what the line is.
fn show_row<H: Highlighter, F: FileLoader, W: Write>(
    alloc: Global,
    handler: &mut JobHandler<H>,
    files: &mut F,
    writer: &mut Device<W>,
    row: InputRow<'_>,
) -> Result<RowKind, ProgramError>
    requires sound { writer.old.failed ≡ false }
    ensures shown { IfOk result (λ kind. (text : List ℕ)
        × IsShown row.entry.from (IsGiven H.is_blank H.may_follow handler.old) (IsFoundBy F.found F.knows files.old)
        (record { row = row.entry.bytes.now; kind = kind; text = text })
        × Appends (W.contents writer.old.inner) (W.contents writer.new.inner) text) }
    // After a write error the writer has a beginning of what is shown, after other errors nothing.
    ensures beginning { (result ≡ Err ProgramError.Write) → (kind : RowKind) × (text : List ℕ)
        × IsShown row.entry.from (IsGiven H.is_blank H.may_follow handler.old) (IsFoundBy F.found F.knows files.old)
        (record { row = row.entry.bytes.now; kind = kind; text = text })
        × TakesBeginning (W.contents writer.old.inner) (W.contents writer.new.inner) text }
    ensures untouched { OnErr result ((result ≡ Err ProgramError.Write) ⊎ (writer.new ≡ writer.old)) }
    ensures failed { IsTrue writer.new.failed ↔ (result ≡ Err ProgramError.Write) }
    ensures others { OnErr result ((result ≡ Err ProgramError.Memory) ⊎ (result ≡ Err ProgramError.Write)) }
    ensures stays { JobHandlerStays H.is_blank handler.old handler.new }
    ensures led { OnOk result (IsLed H.may_follow handler.old handler.new) }
    ensures goes { Goes (F.found files.old) (F.knows files.old) (F.found files.new) (F.knows files.new) }
{
    let (kind, text) = row_text(alloc, handler, files, row)?;
    write_whole(writer, text.as_bytes())?;
    Ok(kind)
}

/// Shows all rows that are left.
fn show_rows<H: Highlighter, F: FileLoader, R: Read, W: Write, E: Write>(
    alloc: Global,
    from: Format,
    handler: &mut JobHandler<H>,
    files: &mut F,
    streams: &mut ShowStreams<R, W, E>,
) -> Result<Verdict, ProgramError>
    requires rows_sound { streams.old.rows.failed ≡ false }
    requires writer_sound { streams.old.writer.failed ≡ false }
    requires faults_sound { streams.old.faults.failed ≡ false }
    ensures ok { IfOk result (λ verdict. IfSome (left_of R.remaining streams.old.rows) (λ bytes.
        Shows from (IsGiven H.is_blank H.may_follow handler.old) (IsFoundBy F.found F.knows files.old) bytes
        (λ text notes. Appends (W.contents streams.old.writer.inner) (W.contents streams.new.writer.inner) text
        × Appends (E.contents streams.old.faults.inner) (E.contents streams.new.faults.inner) notes) verdict)) }
    // After an error the first rows were shown, the last of them perhaps in part.
    ensures beginning { OnErr result (IfSome (left_of R.remaining streams.old.rows) (λ bytes.
        ShowsFirst from (IsGiven H.is_blank H.may_follow handler.old) (IsFoundBy F.found F.knows files.old) bytes
        (λ text notes. TakesBeginning (W.contents streams.old.writer.inner) (W.contents streams.new.writer.inner) text
        × TakesBeginning (E.contents streams.old.faults.inner) (E.contents streams.new.faults.inner) notes))) }
    ensures accepted { ¬ (result ≡ Err ProgramError.Refused) }
    ensures read_failed { IsTrue streams.new.rows.failed ↔ (result ≡ Err ProgramError.Read) }
    ensures write_failed { (IsTrue streams.new.writer.failed ⊎ IsTrue streams.new.faults.failed)
        ↔ (result ≡ Err ProgramError.Write) }
    ensures called { ¬ (result ≡ Err ProgramError.Usage) }
{
    let mut row = Vec::new(alloc);
    let mut part = Vec::new(alloc);
    let mut verdict = Verdict::none();
    let mut seen = false;
    let mut number: u64 = 1;
    for _ in 0..u64::MAX {
        let following = streams.rows.next_part(number, &mut row, &mut part)?;
        if part.is_empty() {
            return Ok(verdict.with_missing(is_missing(from, seen)));
        }
        let read = InputRow {
            from,
            bytes: part.as_slice(),
        };
        let kind = show_row(alloc, handler, files, &mut streams.writer, read)?;
        pass_on(alloc, &mut streams.faults, number, kind, read.bytes)?;
        verdict = verdict.with(kind);
        seen = either(seen, kind.is_read());
        number = following;
    }
    Err(ProgramError::Memory)
}

/// Shows all remaining lines as the settings say.
///
/// # Errors
/// `Read` exactly if a call of the reader failed. `Write` exactly if a call of one of the writers failed. `Memory` if
/// allocation fails. No report is refused.
pub fn show_on<F: FileLoader, R: Read, W: Write, E: Write>(
    alloc: Global,
    from: Format,
    settings: Arguments,
    files: &mut F,
    streams: &mut ShowStreams<R, W, E>,
) -> Result<Verdict, ProgramError>
    requires rows_sound { streams.old.rows.failed ≡ false }
    requires writer_sound { streams.old.writer.failed ≡ false }
    requires faults_sound { streams.old.faults.failed ≡ false }
    // Row by row the writer took the texts of the reports, and the other one each row that has no message.
    ensures ok { IfOk result (λ verdict. IfSome (left_of R.remaining streams.old.rows) (λ bytes.
        Shows from (IsJobText ⟦<LanguageHighlighter as Highlighter>⟧.is_blank settings.choice settings.options
        settings.terminal) (IsFoundBy F.found F.knows files.old) bytes
        (λ text notes. Appends (W.contents streams.old.writer.inner) (W.contents streams.new.writer.inner) text
        × Appends (E.contents streams.old.faults.inner) (E.contents streams.new.faults.inner) notes) verdict)) }
    // After an error nothing was read, or the first rows were shown, the last of them perhaps in part.
    ensures beginning { OnErr result ((streams.new ≡ streams.old) ⊎ IfSome (left_of R.remaining streams.old.rows)
        (λ bytes. ShowsFirst from (IsJobText ⟦<LanguageHighlighter as Highlighter>⟧.is_blank settings.choice
        settings.options settings.terminal) (IsFoundBy F.found F.knows files.old) bytes
        (λ text notes. TakesBeginning (W.contents streams.old.writer.inner) (W.contents streams.new.writer.inner) text
        × TakesBeginning (E.contents streams.old.faults.inner) (E.contents streams.new.faults.inner) notes))) }
    // Labels of messages are within their files.
    ensures accepted { ¬ (result ≡ Err ProgramError.Refused) }
    ensures called { ¬ (result ≡ Err ProgramError.Usage) }
    ensures read_failed { IsTrue streams.new.rows.failed ↔ (result ≡ Err ProgramError.Read) }
    ensures write_failed { (IsTrue streams.new.writer.failed ⊎ IsTrue streams.new.faults.failed)
        ↔ (result ≡ Err ProgramError.Write) }
{
    let mut handler = JobHandler::new(alloc, settings)?;
    show_rows(alloc, from, &mut handler, files, streams)
}

/// Shows all lines of a reader as the settings say, and returns the exit code: that of the verdict, or 2 after an
/// error, whose message goes to `faults`.
pub fn show_with<F, R, W, E>(
    alloc: Global,
    from: Format,
    settings: Arguments,
    files: &mut F,
    streams: ShowStreams<R, W, E>,
) -> u8
where
    F: FileLoader,
    R: Read + Drop,
    W: Write + Drop,
    E: Write + Drop,
    requires rows_sound { streams.rows.failed ≡ false }
    requires writer_sound { streams.writer.failed ≡ false }
    requires faults_sound { streams.faults.failed ≡ false }
    // 2 after an error. Otherwise by all lines. Each is shown as the settings say.
    ensures status { (result ≡ 2) ⊎ IfSome (left_of R.remaining streams.rows) (λ bytes. (verdict : Verdict)
        × (result ≡ status_of verdict)
        × Shows from (IsJobText ⟦<LanguageHighlighter as Highlighter>⟧.is_blank settings.choice settings.options
        settings.terminal) (IsFoundBy F.found F.knows files.old) bytes (λ text notes. ⊤) verdict) }
{
    let mut streams = streams;
    match show_on(alloc, from, settings, files, &mut streams) {
        Ok(verdict) => verdict.status(),
        Err(fault) => {
            let mut faults = streams.faults.into_inner();
            Program::Show.fail(fault, &mut faults).status
        }
    }
}

/// Ends the program if its arguments are wrong or couldn't be read: prints the reason and returns 2.
pub fn refuse_words<E: Write + Drop>(fault: ProgramError, faults: E) -> u8
    ensures { result ≡ 2 }
{
    let mut faults = faults;
    Program::Show.fail(fault, &mut faults).status
}
