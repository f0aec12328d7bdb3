//! Reads all input, and writes all output.

ghost use Rattle.std.specs.Prelude.{◌≡◌, ◌↔◌, ◌⊎◌, false, IsTrue, IsErr, IfOk, OnOk, OnErr, IfSome};
ghost use Rattle.std.specs.Io.KnownBytes.{Appends};
ghost use Rattle.miette_devices.specs.views.Device.{TakesBeginning};

use crate::device::Device;
use crate::fault::ProgramError;
/// An earlier name of `ProgramError`.
pub use crate::fault::ProgramError as ReadError;
/// An earlier name of `ProgramError`.
pub use crate::fault::ProgramError as WriteError;
use std::alloc::Global;
use std::io::{Read, Write};

// The size of a read, in bytes.
const CHUNK: usize = 16384;

/// Reads all that is left, in one pass. If the reader states its bytes, the result is exactly these.
///
/// # Errors
/// `Read` exactly if a call of the reader failed. `Memory` if allocation fails.
// A separate function, so that the buffer of a read is off the stack before the bytes are processed.
#[inline(never)]
pub fn read_whole<R: Read>(alloc: Global, reader: &mut Device<R>) -> Result<Vec<u8>, ProgramError>
    requires sound { reader.old.failed ≡ false }
    ensures bytes { IfOk result (λ all. IfSome (R.remaining reader.old.inner) (λ told. all.items ≡ told)) }
    ensures failed { IsTrue reader.new.failed ↔ (result ≡ Err ProgramError.Read) }
    ensures others { OnErr result ((result ≡ Err ProgramError.Read) ⊎ (result ≡ Err ProgramError.Memory)) }
{
    let mut bytes = Vec::new(alloc);
    let mut chunk = [0u8; CHUNK];
    for _ in 0..u64::MAX {
        match reader.read(&mut chunk) {
            Ok(0) => return Ok(bytes),
            Ok(n) => bytes.extend_from_slice(&chunk[..n])?,
            Err(_) => return Err(ProgramError::Read),
        }
    }
    unreachable!()
}

/// Writes all bytes.
///
/// # Errors
/// `Write` exactly if a call of the writer failed or wrote nothing. A beginning of the bytes is written then.
pub fn write_whole<W: Write>(writer: &mut Device<W>, bytes: &[u8]) -> Result<(), ProgramError>
    requires sound { writer.old.failed ≡ false }
    ensures ok { OnOk result (Appends (W.contents writer.old.inner) (W.contents writer.new.inner) bytes.now) }
    ensures err { OnErr result (TakesBeginning (W.contents writer.old.inner) (W.contents writer.new.inner) bytes.now) }
    ensures failed { IsTrue writer.new.failed ↔ IsErr result }
    ensures fault { OnErr result (result ≡ Err ProgramError.Write) }
{
    let mut rest = bytes;
    while !rest.is_empty() {
        match writer.write(rest) {
            Ok(0) => return Err(ProgramError::Write),
            Ok(n) => rest = &rest[n..],
            Err(_) => return Err(ProgramError::Write),
        }
    }
    Ok(())
}
