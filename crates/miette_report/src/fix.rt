//! `job --fix`, over any reader and writers.

ghost use Rattle.std.specs.Prelude.{◌≡◌, ◌↔◌, ◌⊎◌, false, IsTrue, IfOk, IfSome, OnErr};
ghost use Rattle.std.specs.Io.KnownBytes.{Appends};
ghost use Rattle.miette_report.specs.rules.AppliedFixes.{Fixes};
ghost use Rattle.miette_report.specs.rules.Job.{IsNoDescription};
ghost use Rattle.miette_devices.specs.views.Device.{TakesBeginning};

use crate::applied_fixes::{FixedText, fixed};
use crate::pipeline::report_from_json;
use miette_devices::device::Device;
use miette_devices::fault::ProgramError;
use miette_devices::whole::{read_whole, write_whole};
use std::alloc::Global;
use std::io::{Read, Write};

/// Reads a description and writes its source after fixes. Returns whether a fix was left out.
///
/// # Errors
/// `Read` exactly if a call of the reader failed. `Write` exactly if a call of the writer failed or took nothing; the
/// writer then has a beginning of the text. `Description` if the input describes no report. `Memory` if allocation
/// fails. Except after `Write`, nothing was written.
pub fn write_job_fixes<R: Read, W: Write>(
    alloc: Global,
    all: bool,
    reader: &mut Device<R>,
    writer: &mut Device<W>,
) -> Result<bool, ProgramError>
    requires reader_sound { reader.old.failed ≡ false }
    requires writer_sound { writer.old.failed ≡ false }
    // All remaining input is a description. The writer got its fixed text, and nothing else.
    ensures ok { IfOk result (λ some. IfSome (R.remaining reader.old.inner) (λ bytes.
        Fixes all bytes (λ text left. (some ≡ left)
        × Appends (W.contents writer.old.inner) (W.contents writer.new.inner) text))) }
    ensures description { (result ≡ Err ProgramError.Description) →
        IfSome (R.remaining reader.old.inner) IsNoDescription }
    ensures read_failed { IsTrue reader.new.failed ↔ (result ≡ Err ProgramError.Read) }
    ensures write_failed { IsTrue writer.new.failed ↔ (result ≡ Err ProgramError.Write) }
    // After a write error the writer has a beginning of the text.
    ensures beginning { (result ≡ Err ProgramError.Write) → IfSome (R.remaining reader.old.inner) (λ bytes.
        Fixes all bytes (λ text left. TakesBeginning (W.contents writer.old.inner)
        (W.contents writer.new.inner) text)) }
    ensures called { ¬ (result ≡ Err ProgramError.Usage) }
    ensures told { ¬ (result ≡ Err ProgramError.Refused) }
    // After any other error nothing was written.
    ensures untouched { OnErr result ((result ≡ Err ProgramError.Write) ⊎ (writer.new ≡ writer.old)) }
{
    let bytes = read_whole(alloc, reader)?;
    let fixed = fixed_of(alloc, bytes.as_slice(), all)?;
    let some_left = fixed.some_left;
    match write_whole(writer, fixed.text.as_slice()) {
        Ok(()) => Ok(some_left),
        Err(fault) => Err(fault),
    }
}

// Returns the source of the description after fixes.
fn fixed_of(alloc: Global, bytes: &[u8], all: bool) -> Result<FixedText, ProgramError>
    ensures ok { IfOk result (λ it.
        Fixes all bytes.now (λ text left. (it.text.items ≡ text) × (it.some_left ≡ left))) }
    ensures description { (result ≡ Err ProgramError.Description) → IsNoDescription bytes.now }
    ensures others { OnErr result ((result ≡ Err ProgramError.Description) ⊎ (result ≡ Err ProgramError.Memory)) }
{
    let report = report_from_json(alloc, bytes)?;
    Ok(fixed(alloc, &report, all)?)
}
