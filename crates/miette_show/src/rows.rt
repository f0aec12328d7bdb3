//! A row: how it is passed on where it has no messages; whether a message is an error.

ghost use Rattle.std.specs.Prelude.{◌≡◌, ◌↔◌, ◌⊎◌, ◌||◌, IfOk, IsTrue, OnErr, OnOk, false, string_bytes};
ghost use Rattle.miette_show_rows.specs.rules.Notes.{failure_note, failure_words};
ghost use Rattle.miette_show.specs.rules.ShownRow.{is_error_severity, passed_on};
ghost use Rattle.std.specs.Io.KnownBytes.{Appends};
ghost use Rattle.miette_devices.specs.views.Device.{TakesBeginning};

use crate::words::Format;
use miette_devices::device::Device;
use miette_devices::fault::ProgramError;
use miette_devices::whole::write_whole;
use miette_protocol::protocol::Severity;
use miette_show_rows::streams::note_unread_row;
use miette_show_rows::verdict::{Failure, RowKind};
use std::alloc::{AllocError, Global};
use std::io::Write;

/// A row, and the format that it is read in.
#[derive(Clone, Copy)]
pub struct InputRow<'r> {
    /// The format.
    pub from: Format,
    /// The bytes of the row, with its end.
    pub bytes: &'r [u8],
}

/// Whether it is the severity of an error.
pub fn is_error(severity: Option<Severity>) -> bool
    ensures { result ≡ is_error_severity severity }
{
    match severity {
        Some(Severity::Error) => true,
        Some(Severity::Warning | Severity::Advice) | None => false,
    }
}

/// Whether one of the two holds.
pub fn either(one: bool, other: bool) -> bool
    ensures { result ≡ (one || other) }
{
    one || other
}

/// Says what failed.
fn failure_words(what: Failure) -> &'static str
    ensures { result.now ≡ failure_words what }
{
    match what {
        Failure::Build => "the build failed",
        Failure::Tool => "the tool failed",
    }
}

/// What is said about a line that says what failed.
fn failure_note(alloc: Global, number: u64, what: Failure) -> Result<String, AllocError>
    ensures { IfOk result (λ text. string_bytes text ≡ failure_note number what) }
{
    let words = failure_words(what);
    format!(in alloc; "show: row {number}: {words}\n")
}

/// Says what failed, as a row says.
fn say_failure<E: Write>(
    alloc: Global,
    faults: &mut Device<E>,
    number: u64,
    what: Failure,
) -> Result<(), ProgramError>
    requires sound { faults.old.failed ≡ false }
    ensures passed { OnOk result (Appends (E.contents faults.old.inner) (E.contents faults.new.inner)
        (failure_note number what)) }
    ensures beginning { (result ≡ Err ProgramError.Write) → TakesBeginning (E.contents faults.old.inner)
        (E.contents faults.new.inner) (failure_note number what) }
    ensures untouched { OnErr result ((result ≡ Err ProgramError.Write) ⊎ (faults.new ≡ faults.old)) }
    ensures failed { IsTrue faults.new.failed ↔ (result ≡ Err ProgramError.Write) }
    ensures others { OnErr result ((result ≡ Err ProgramError.Memory) ⊎ (result ≡ Err ProgramError.Write)) }
{
    let text = failure_note(alloc, number, what)?;
    write_whole(faults, text.as_bytes())
}

/// Passes on a line that isn't shown, after a note if it can't be read. If the line says what failed, only a note is
/// printed.
pub fn pass_on<E: Write>(
    alloc: Global,
    faults: &mut Device<E>,
    number: u64,
    kind: RowKind,
    row: &[u8],
) -> Result<(), ProgramError>
    requires sound { faults.old.failed ≡ false }
    ensures passed { OnOk result (Appends (E.contents faults.old.inner) (E.contents faults.new.inner)
        (passed_on number kind row.now)) }
    ensures beginning { (result ≡ Err ProgramError.Write) → TakesBeginning (E.contents faults.old.inner)
        (E.contents faults.new.inner) (passed_on number kind row.now) }
    ensures untouched { OnErr result ((result ≡ Err ProgramError.Write) ⊎ (faults.new ≡ faults.old)) }
    ensures failed { IsTrue faults.new.failed ↔ (result ≡ Err ProgramError.Write) }
    ensures others { OnErr result ((result ≡ Err ProgramError.Memory) ⊎ (result ≡ Err ProgramError.Write)) }
{
    match kind {
        RowKind::Passed => write_whole(faults, row),
        RowKind::Unread => {
            note_unread_row(alloc, faults, number, kind)?;
            write_whole(faults, row)
        }
        RowKind::Messages(_) => Ok(()),
        RowKind::Failed(what) => say_failure(alloc, faults, number, what),
    }
}
