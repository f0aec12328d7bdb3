//! Reads and writes frames: a header and a message body.

ghost use Rattle.std.specs.Prelude.{◌≡◌, ◌↔◌, ◌⊎◌, ◌++◌, ◌∷◌, [], IfOk, IsTrue, OnErr, OnOk, false, string_bytes, true};
ghost use Rattle.std.specs.Io.KnownBytes.{Appends};
ghost use Rattle.miette_devices.specs.views.Device.{TakesBeginning};
ghost use Rattle.miette_language_server.specs.rules.Frames.{framed, header_text};
ghost use Rattle.miette_language_server.specs.views.Answered.{IsBody, IsFirstFrame, IsHeader, IsNextByte};

use crate::client::Client;
use crate::header_fields::{content_length_in, ends_header};
use itoa::Buffer;
use miette_devices::fault::ProgramError;
use std::alloc::{AllocError, Global};
use std::io::{Read, Write};

// Number of bytes that are read at a time.
const CHUNK: usize = 16384;

// Reads the next byte, if there is one.
fn next_byte<R: Read, W>(client: &mut Client<R, W>) -> Result<Option<u8>, ProgramError>
    requires sound { client.old.reader.failed ≡ false }
    requires sent { client.old.writer.is_sent ≡ true }
    ensures next { IfOk result
        (IsNextByte (R.remaining client.old.reader.inner) (R.remaining client.new.reader.inner)) }
    ensures failed { IsTrue client.new.reader.failed ↔ (result ≡ Err ProgramError.Read) }
    ensures fault { OnErr result (result ≡ Err ProgramError.Read) }
    ensures writer { client.new.writer ≡ client.old.writer }
{
    let mut byte = [0u8; 1];
    match client.read(&mut byte) {
        Ok(0) => Ok(None),
        Ok(_) => Ok(Some(byte[0])),
        Err(fault) => Err(fault),
    }
}

// Appends a byte to a line.
fn push_byte(row: &mut Vec<u8>, byte: u8) -> Result<(), AllocError>
    ensures { OnOk result (row.new.items ≡ row.old.items ++ byte ∷ []) }
{
    row.push(byte)?;
    Ok(())
}

// Reads a header with the empty line after it. Returns the length that it states, if it does.
fn read_header<R: Read, W>(
    alloc: Global,
    client: &mut Client<R, W>,
) -> Result<Option<usize>, ProgramError>
    requires sound { client.old.reader.failed ≡ false }
    requires sent { client.old.writer.is_sent ≡ true }
    ensures header { IfOk result
        (IsHeader (R.remaining client.old.reader.inner) (R.remaining client.new.reader.inner)) }
    ensures failed { IsTrue client.new.reader.failed ↔ (result ≡ Err ProgramError.Read) }
    ensures others { OnErr result ((result ≡ Err ProgramError.Read) ⊎ (result ≡ Err ProgramError.Memory)) }
    ensures writer { client.new.writer ≡ client.old.writer }
{
    let mut row = Vec::new(alloc);
    let mut known = None;
    for _ in 0..u64::MAX {
        let Some(byte) = next_byte(client)? else {
            return Ok(None);
        };
        if byte != b'\n' {
            push_byte(&mut row, byte)?;
            continue;
        }
        if ends_header(row.as_slice()) {
            return Ok(known);
        }
        known = content_length_in(row.as_slice()).or(known);
        row.clear();
    }
    Err(ProgramError::Memory)
}

// Reads `size` bytes. Returns `None` if the input ends early. It allocates at most twice as many bytes as there are.
fn read_body<R: Read, W>(
    alloc: Global,
    client: &mut Client<R, W>,
    size: usize,
) -> Result<Option<Vec<u8>>, ProgramError>
    requires sound { client.old.reader.failed ≡ false }
    requires sent { client.old.writer.is_sent ≡ true }
    ensures body { IfOk result
        (IsBody (R.remaining client.old.reader.inner) (R.remaining client.new.reader.inner) size) }
    ensures failed { IsTrue client.new.reader.failed ↔ (result ≡ Err ProgramError.Read) }
    ensures others { OnErr result ((result ≡ Err ProgramError.Read) ⊎ (result ≡ Err ProgramError.Memory)) }
    ensures writer { client.new.writer ≡ client.old.writer }
{
    let mut body = Vec::new(alloc);
    let mut chunk = [0u8; CHUNK];
    for _ in 0..u64::MAX {
        let room = (size - body.len()).min(CHUNK);
        if room == 0 {
            return Ok(Some(body));
        }
        match client.read(&mut chunk[..room]) {
            Ok(0) => return Ok(None),
            Ok(n) => body.extend_from_slice(&chunk[..n])?,
            Err(fault) => return Err(fault),
        }
    }
    Err(ProgramError::Memory)
}

/// Reads the body of the next frame. Returns `None` if the frame states no length or ends early, and at the end of
/// input.
///
/// Memory is allocated only for bytes that arrive, however large the stated length is.
///
/// # Errors
/// `Read` exactly if a call of the reader failed, and `Memory` if allocation fails.
pub fn read_frame<R: Read, W>(
    alloc: Global,
    client: &mut Client<R, W>,
) -> Result<Option<Vec<u8>>, ProgramError>
    requires sound { client.old.reader.failed ≡ false }
    requires sent { client.old.writer.is_sent ≡ true }
    ensures frame { IfOk result
        (IsFirstFrame (R.remaining client.old.reader.inner) (R.remaining client.new.reader.inner)) }
    ensures failed { IsTrue client.new.reader.failed ↔ (result ≡ Err ProgramError.Read) }
    ensures others { OnErr result ((result ≡ Err ProgramError.Read) ⊎ (result ≡ Err ProgramError.Memory)) }
    ensures writer { client.new.writer ≡ client.old.writer }
{
    match read_header(alloc, client)? {
        Some(size) => read_body(alloc, client, size),
        None => Ok(None),
    }
}

// The header of a body with `size` bytes.
fn header_text(alloc: Global, size: usize) -> Result<String, AllocError>
    ensures { IfOk result (λ text. string_bytes text ≡ header_text size) }
{
    let mut text = String::from_str(alloc, "Content-Length: ")?;
    text.push_str(Buffer::new().format(size))?;
    text.push_str("\r\n\r\n")?;
    Ok(text)
}

/// Writes a body in a frame, then flushes.
///
/// # Errors
/// `Write` exactly if a call of the writer failed or took nothing, and `Memory` if allocation fails. The writer then
/// has a beginning of the frame.
pub fn write_frame<R, W: Write>(
    alloc: Global,
    client: &mut Client<R, W>,
    body: &[u8],
) -> Result<(), ProgramError>
    requires { client.old.writer.failed ≡ false }
    ensures ok { OnOk result (Appends (W.contents client.old.writer.inner) (W.contents client.new.writer.inner)
        (framed body.now)) }
    ensures err { OnErr result (TakesBeginning (W.contents client.old.writer.inner)
        (W.contents client.new.writer.inner) (framed body.now)) }
    ensures failed { IsTrue client.new.writer.failed ↔ (result ≡ Err ProgramError.Write) }
    ensures others { OnErr result ((result ≡ Err ProgramError.Write) ⊎ (result ≡ Err ProgramError.Memory)) }
    ensures sent { OnOk result (client.new.writer.is_sent ≡ true) }
    ensures reader { client.new.reader ≡ client.old.reader }
{
    let header = header_text(alloc, body.len())?;
    client.send(header.as_bytes(), body)
}
