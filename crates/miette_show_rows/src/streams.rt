//! The streams of `show`, and the notes on unreadable lines.

ghost use Rattle.std.specs.Prelude.{◌≡◌, ◌↔◌, ◌⊎◌, [], IfOk, IsTrue, OnErr, OnOk, false, string_bytes};
ghost use Rattle.std.specs.Io.KnownBytes.{Appends};
ghost use Rattle.miette_devices.specs.views.Device.{TakesBeginning};
ghost use Rattle.miette_show_rows.specs.rules.Notes.{kind_is_unread, note_of, note_row};

use crate::row_reader::RowReader;
use crate::verdict::RowKind;
use miette_devices::device::Device;
use miette_devices::fault::ProgramError;
use miette_devices::whole::write_whole;
use std::alloc::{AllocError, Global};
use std::io::Write;

/// The input, the output, and the error stream.
#[derive(Drop)]
pub struct ShowStreams<R, W, E> {
    /// The lines of the input.
    pub rows: RowReader<R>,
    /// The output: reports, or lines about files.
    pub writer: Device<W>,
    /// The error stream: other lines, unreadable lines, and errors.
    pub faults: Device<E>,
}

impl<R, W, E> ShowStreams<R, W, E> {
    /// Wraps streams. No call has failed yet.
    pub fn new(alloc: Global, reader: R, writer: W, faults: E) -> ShowStreams<R, W, E>
        ensures rows { result.rows ≡ record { inner = reader; failed = false; pending = [] } }
        ensures writer { result.writer ≡ record { inner = writer; failed = false } }
        ensures faults { result.faults ≡ record { inner = faults; failed = false } }
    {
        ShowStreams {
            rows: RowReader::new(alloc, reader),
            writer: Device::new(writer),
            faults: Device::new(faults),
        }
    }
}

/// Returns the note on an unreadable line.
fn note_text(alloc: Global, number: u64) -> Result<String, AllocError>
    ensures { IfOk result (λ text. string_bytes text ≡ note_row number) }
{
    format!(in alloc; "show: row {number}: no message that can be read\n")
}

/// Writes a note if a line is unreadable.
///
/// # Errors
/// `Write` if and only if a call of the writer failed or wrote nothing. `Memory` if allocation fails.
pub fn note_unread_row<E: Write>(
    alloc: Global,
    faults: &mut Device<E>,
    number: u64,
    kind: RowKind,
) -> Result<(), ProgramError>
    requires sound { faults.old.failed ≡ false }
    ensures noted { OnOk result (Appends (E.contents faults.old.inner) (E.contents faults.new.inner)
        (note_of number (kind_is_unread kind))) }
    ensures beginning { (result ≡ Err ProgramError.Write) → TakesBeginning (E.contents faults.old.inner)
        (E.contents faults.new.inner) (note_of number (kind_is_unread kind)) }
    ensures untouched { OnErr result ((result ≡ Err ProgramError.Write) ⊎ (faults.new ≡ faults.old)) }
    ensures failed { IsTrue faults.new.failed ↔ (result ≡ Err ProgramError.Write) }
    ensures others { OnErr result ((result ≡ Err ProgramError.Memory) ⊎ (result ≡ Err ProgramError.Write)) }
{
    if !kind.is_unread() {
        return Ok(());
    }
    let note_unread_row = note_text(alloc, number)?;
    write_whole(faults, note_unread_row.as_bytes())
}
