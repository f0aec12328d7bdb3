//! A reader or writer that remembers whether a call failed.

ghost use Rattle.std.specs.Prelude.{◌≡◌, ◌⊎◌, ◌↔◌, IsTrue, IsErr, false};
ghost use Rattle.std.specs.Io.{ReadsAtMost, WritesAtMost};
ghost use Rattle.std.specs.Io.KnownBytes.{ReadConsumes, WriteAppends};
ghost use Rattle.miette_devices.specs.views.DeviceState.{DeviceState};

use std::io;
use std::io::{Read, Write};
use std::marker::Model;

/// A reader or writer that remembers whether one of its calls failed.
///
/// It doesn't implement `Read` or `Write`. The helpers of std over these traits repeat an interrupted call, but here
/// every error counts.
#[derive(Drop)]
pub struct Device<D> {
    inner: D,
    failed: bool,
}

impl<D> Model for Device<D> {
    ghost Value = { DeviceState D };

    ghost view = { λ it. record { inner = it.inner; failed = it.failed } };
}

impl<D> Device<D> {
    /// Wraps a reader or writer. No call has failed yet.
    pub fn new(inner: D) -> Self
        ensures inner { result.inner ≡ inner }
        ensures sound { result.failed ≡ false }
    {
        Device {
            inner,
            failed: false,
        }
    }

    /// Returns the reader or writer.
    pub fn into_inner(self) -> D
        ensures { result ≡ self.inner }
    {
        let Device { inner, failed: _ } = self;
        inner
    }

    /// Whether a call failed.
    pub fn has_failed(&self) -> bool
        ensures { result ≡ self.now.failed }
    {
        self.failed
    }
}

impl<D: Read> Device<D> {
    /// Reads into the buffer and returns the number of bytes. It is 0 at the end of the input, or if the buffer is
    /// empty. Afterwards the device has failed exactly if it had before or if the inner call returns an error.
    ///
    /// # Errors
    /// The error of the inner call.
    pub fn read(&mut self, buf: &mut [u8]) -> io::Result<usize>
        ensures bound { ReadsAtMost result buf.new }
        ensures bytes { ReadConsumes (D.remaining self.old.inner) (D.remaining self.new.inner) result buf.new }
        ensures failed { IsTrue self.new.failed ↔ (IsTrue self.old.failed ⊎ IsErr result) }
    {
        let result = self.inner.read(buf);
        if result.is_err() {
            self.failed = true;
        }
        result
    }
}

impl<D: Write> Device<D> {
    ghost use Rattle.miette_devices.specs.views.Device.{IsWriteFault};

    /// Writes the beginning of the buffer and returns the number of bytes written. Afterwards the device has failed
    /// exactly if it had before, if the inner call returns an error, or if it writes 0 bytes of a nonempty buffer.
    ///
    /// # Errors
    /// The error of the inner call.
    pub fn write(&mut self, buf: &[u8]) -> io::Result<usize>
        ensures bound { WritesAtMost result buf.now }
        ensures bytes { WriteAppends (D.contents self.old.inner) (D.contents self.new.inner) result buf.now }
        ensures failed { IsTrue self.new.failed ↔ (IsTrue self.old.failed ⊎ IsWriteFault result buf.now) }
    {
        let result = self.inner.write(buf);
        match &result {
            Ok(0) => {
                if !buf.is_empty() {
                    self.failed = true;
                }
            }
            Ok(_) => {}
            Err(_) => self.failed = true,
        }
        result
    }
}
