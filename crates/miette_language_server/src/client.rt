//! The connection to a client: the stream it writes and the stream it reads. The server reads only after everything it
//! wrote was flushed.

ghost use Rattle.std.specs.Prelude.{◌≡◌, ◌↔◌, ◌++◌, ◌<◌, ◌≤◌, IfOk, IsTrue, OnErr, OnOk, false, length, take, true};
ghost use Rattle.std.specs.Io.{ReadsAtMost};
ghost use Rattle.std.specs.Io.KnownBytes.{Appends, Keeps, ReadConsumes};
ghost use Rattle.miette_devices.specs.views.Device.{TakesBeginning};
ghost use Rattle.miette_language_server.specs.views.ClientState.{ClientState, IsOpen};

use miette_devices::device::Device;
use miette_devices::fault::ProgramError;
use std::io::{Read, Write};
use std::marker::Model;

/// A client: the reader of what it sends, and the writer to it.
///
/// The client records whether a call failed (interrupted calls included), and whether everything written was flushed.
/// It is read only after a flush, so no response is held back while the server waits.
#[derive(Drop)]
pub struct Client<R, W> {
    reader: Device<R>,
    writer: W,
    write_failed: bool,
    is_sent: bool,
}

impl<R, W> Model for Client<R, W> {
    ghost use Rattle.miette_language_server.specs.views.ClientState.{ClientState};

    ghost Value = { ClientState R W };

    ghost view = { λ it. record {
      reader = it.reader;
      writer = record { inner = it.writer; failed = it.write_failed; is_sent = it.is_sent };
    } };
}

impl<R, W> Client<R, W> {
    /// Creates a client over these streams. No call has failed yet, and nothing was written.
    pub fn new(reader: R, writer: W) -> Client<R, W>
        ensures reader { result.reader.inner ≡ reader }
        ensures writer { result.writer.inner ≡ writer }
        ensures ready { IsOpen result }
    {
        Client {
            reader: Device::new(reader),
            writer,
            write_failed: false,
            is_sent: true,
        }
    }
}

impl<R: Read, W> Client<R, W> {
    /// Reads into the buffer and returns the number of bytes: 0 at the end of input, or if the buffer is empty.
    ///
    /// # Errors
    /// `Read` exactly if the call failed.
    pub(crate) fn read(&mut self, buf: &mut [u8]) -> Result<usize, ProgramError>
        requires sound { self.old.reader.failed ≡ false }
        requires sent { self.old.writer.is_sent ≡ true }
        ensures bound { ReadsAtMost result buf.new }
        ensures bytes { ReadConsumes (R.remaining self.old.reader.inner) (R.remaining self.new.reader.inner) result
            buf.new }
        ensures failed { IsTrue self.new.reader.failed ↔ (result ≡ Err ProgramError.Read) }
        ensures fault { OnErr result (result ≡ Err ProgramError.Read) }
        ensures writer { self.new.writer ≡ self.old.writer }
    {
        match self.reader.read(buf) {
            Ok(n) => Ok(n),
            Err(_) => Err(ProgramError::Read),
        }
    }
}

impl<R, W: Write> Client<R, W> {
    // Writes a beginning of the bytes without flushing. Returns how many were taken.
    fn put_part(&mut self, bytes: &[u8]) -> Result<usize, ProgramError>
        requires sound { self.old.writer.failed ≡ false }
        ensures some { IfOk result (λ n. 0 < n) }
        ensures within { IfOk result (λ n. n ≤ length bytes.now) }
        ensures taken { IfOk result (λ n. Appends (W.contents self.old.writer.inner)
            (W.contents self.new.writer.inner) (take n bytes.now)) }
        ensures err { OnErr result (TakesBeginning (W.contents self.old.writer.inner)
            (W.contents self.new.writer.inner) bytes.now) }
        ensures failed { IsTrue self.new.writer.failed ↔ (result ≡ Err ProgramError.Write) }
        ensures fault { OnErr result (result ≡ Err ProgramError.Write) }
        ensures reader { self.new.reader ≡ self.old.reader }
    {
        self.is_sent = false;
        match self.writer.write(bytes) {
            Ok(n) if n > 0 => Ok(n),
            _ => {
                self.write_failed = true;
                Err(ProgramError::Write)
            }
        }
    }

    // Writes all bytes without flushing.
    fn put(&mut self, bytes: &[u8]) -> Result<(), ProgramError>
        requires sound { self.old.writer.failed ≡ false }
        ensures ok { OnOk result (Appends (W.contents self.old.writer.inner) (W.contents self.new.writer.inner)
            bytes.now) }
        ensures err { OnErr result (TakesBeginning (W.contents self.old.writer.inner)
            (W.contents self.new.writer.inner) bytes.now) }
        ensures failed { IsTrue self.new.writer.failed ↔ (result ≡ Err ProgramError.Write) }
        ensures fault { OnErr result (result ≡ Err ProgramError.Write) }
        ensures reader { self.new.reader ≡ self.old.reader }
    {
        let mut rest = bytes;
        while !rest.is_empty() {
            let n = self.put_part(rest)?;
            rest = &rest[n..];
        }
        Ok(())
    }

    // Flushes the writer.
    fn flush(&mut self) -> Result<(), ProgramError>
        requires sound { self.old.writer.failed ≡ false }
        ensures bytes { Keeps (W.contents self.old.writer.inner) (W.contents self.new.writer.inner) }
        ensures failed { IsTrue self.new.writer.failed ↔ (result ≡ Err ProgramError.Write) }
        ensures fault { OnErr result (result ≡ Err ProgramError.Write) }
        ensures sent { OnOk result (self.new.writer.is_sent ≡ true) }
        ensures reader { self.new.reader ≡ self.old.reader }
    {
        match self.writer.flush() {
            Ok(()) => {
                self.is_sent = true;
                Ok(())
            }
            Err(_) => {
                self.write_failed = true;
                Err(ProgramError::Write)
            }
        }
    }

    /// Writes a header and a body, then flushes.
    ///
    /// # Errors
    /// `Write` exactly if a call failed or took nothing. The writer then has a beginning of both.
    pub(crate) fn send(&mut self, header: &[u8], body: &[u8]) -> Result<(), ProgramError>
        requires sound { self.old.writer.failed ≡ false }
        ensures ok { OnOk result (Appends (W.contents self.old.writer.inner) (W.contents self.new.writer.inner)
            (header.now ++ body.now)) }
        ensures err { OnErr result (TakesBeginning (W.contents self.old.writer.inner)
            (W.contents self.new.writer.inner) (header.now ++ body.now)) }
        ensures failed { IsTrue self.new.writer.failed ↔ (result ≡ Err ProgramError.Write) }
        ensures fault { OnErr result (result ≡ Err ProgramError.Write) }
        ensures sent { OnOk result (self.new.writer.is_sent ≡ true) }
        ensures reader { self.new.reader ≡ self.old.reader }
    {
        self.put(header)?;
        self.put(body)?;
        self.flush()
    }
}
