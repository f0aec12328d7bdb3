//! `job --sarif` and `job --lsp`, over any reader and writers.

ghost use Rattle.std.specs.Prelude.{◌≡◌, ◌↔◌, ◌⊎◌, false, IsTrue, IfOk, IfSome, OnErr, OnOk, string_bytes};
ghost use Rattle.std.specs.Io.KnownBytes.{Appends};
ghost use Rattle.miette_report.specs.rules.Job.{IsNoDescription};
ghost use Rattle.miette_report.specs.rules.Logs.{Logs};
ghost use Rattle.miette_devices.specs.views.Device.{TakesBeginning};

use crate::pipeline::report_from_json;
use miette_devices::device::Device;
use miette_devices::fault::ProgramError;
use miette_devices::whole::{read_whole, write_whole};
use miette_lsp::logs::LogOptions;
use std::alloc::Global;
use std::io::{Read, Write};
use std::slice;

// Returns the log of the report that the input describes.
fn text_of(alloc: Global, log: LogOptions<'_>, bytes: &[u8]) -> Result<String, ProgramError>
    ensures ok { IfOk result (λ text. Logs log.entry bytes.now (λ given. string_bytes text ≡ given)) }
    ensures description { (result ≡ Err ProgramError.Description) → IsNoDescription bytes.now }
    ensures others { OnErr result ((result ≡ Err ProgramError.Description) ⊎ (result ≡ Err ProgramError.Memory)) }
{
    let report = report_from_json(alloc, bytes)?;
    log.text(alloc, slice::from_ref(&report))
}

/// Reads a description and writes the log of its report.
///
/// # Errors
/// `Read` exactly if a call of the reader failed. `Write` exactly if a call of the writer failed or took nothing; the
/// writer then has a beginning of the log. `Description` if the input describes no report. `Memory` if allocation
/// fails. Except after `Write`, nothing was written.
pub fn write_job_log<R: Read, W: Write>(
    alloc: Global,
    log: LogOptions<'_>,
    reader: &mut Device<R>,
    writer: &mut Device<W>,
) -> Result<(), ProgramError>
    requires reader_sound { reader.old.failed ≡ false }
    requires writer_sound { writer.old.failed ≡ false }
    // All remaining input is a description. The writer got its log, and nothing else.
    ensures ok { OnOk result (IfSome (R.remaining reader.old.inner) (λ bytes.
        Logs log.entry bytes (Appends (W.contents writer.old.inner) (W.contents writer.new.inner)))) }
    ensures description { (result ≡ Err ProgramError.Description) →
        IfSome (R.remaining reader.old.inner) IsNoDescription }
    ensures read_failed { IsTrue reader.new.failed ↔ (result ≡ Err ProgramError.Read) }
    ensures write_failed { IsTrue writer.new.failed ↔ (result ≡ Err ProgramError.Write) }
    // After a write error the writer has a beginning of the log.
    ensures beginning { (result ≡ Err ProgramError.Write) → IfSome (R.remaining reader.old.inner) (λ bytes.
        Logs log.entry bytes (TakesBeginning (W.contents writer.old.inner) (W.contents writer.new.inner))) }
    ensures called { ¬ (result ≡ Err ProgramError.Usage) }
    ensures told { ¬ (result ≡ Err ProgramError.Refused) }
    // After any other error nothing was written.
    ensures untouched { OnErr result ((result ≡ Err ProgramError.Write) ⊎ (writer.new ≡ writer.old)) }
{
    let bytes = read_whole(alloc, reader)?;
    let text = text_of(alloc, log, bytes.as_slice())?;
    write_whole(writer, text.as_bytes())
}
