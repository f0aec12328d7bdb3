//! Reads lines, and values over several lines.

ghost use Rattle.std.specs.Prelude.{◌≡◌, ◌↔◌, ◌⊎◌, ◌<◌, ◌≤◌, ◌+◌, ◌&&◌, ◌||◌, [], IsTrue, IfOk, IfSome, OnErr, OnOk};
ghost use Rattle.std.specs.Prelude.{drop, false, length, true};
ghost use Rattle.std.specs.Io.KnownBytes.{Consumes, IsAtEnd};
ghost use Rattle.miette_show_rows.specs.rules.Parts.{begins_alone, begins_value, count_row_ends, is_inner, is_unclosed};
ghost use Rattle.miette_show_rows.specs.views.Reading.{IsNextPart, IsNextRow, IsRowEnd, IsTaken, left_of};
ghost use Rattle.miette_show_rows.specs.views.RowState.{RowState};

use crate::parts::{JsonState, begins_alone, begins_value, count_row_ends, is_inner};
use memchr::memchr;
use miette_devices::device::Device;
use miette_devices::fault::ProgramError;
use std::alloc::{AllocError, Global};
use std::io::Read;
use std::marker::Model;

// The number of bytes in one read.
const CHUNK: usize = 16384;

/// Returns the length of the first line with its LF.
fn row_end(pending: &[u8]) -> Option<usize>
    ensures end { IsRowEnd pending.now result }
    ensures within { IfSome result (λ size. size ≤ length pending.now) }
{
    match memchr(b'\n', pending) {
        Some(at) => Some(at + 1),
        None => None,
    }
}

/// Reads lines, each with its LF. It buffers at most one chunk.
#[derive(Drop)]
pub struct RowReader<R> {
    device: Device<R>,
    chunk: Vec<u8>,
    start: usize,
}

impl<R> Model for RowReader<R> {
    ghost use Rattle.std.specs.Prelude.{◌≤◌, drop, length};
    ghost use Rattle.miette_show_rows.specs.views.RowState.{RowState};

    ghost Value = { RowState R };

    ghost view = { λ it. record {
      inner = it.device.inner;
      failed = it.device.failed;
      pending = drop it.start it.chunk.items;
    } };

    ghost invariant = { λ it. it.start ≤ length it.chunk.items };
}

impl<R> RowReader<R> {
    /// Reads the remaining lines of a reader.
    pub fn new(alloc: Global, reader: R) -> RowReader<R>
        ensures { result ≡ record { inner = reader; failed = false; pending = [] } }
    {
        RowReader {
            device: Device::new(reader),
            chunk: Vec::new(alloc),
            start: 0,
        }
    }

    /// Returns the buffered bytes of later lines.
    fn pending(&self) -> &[u8]
        ensures { result.now ≡ self.now.pending }
    {
        &self.chunk.as_slice()[self.start..]
    }

    /// Appends buffered bytes to a line, up to its LF. Returns whether there was one.
    fn take(&mut self, row: &mut Vec<u8>) -> Result<bool, AllocError>
        ensures taken { IfOk result (IsTaken self.old.pending self.new.pending row.old.items row.new.items) }
        ensures inner { self.new.inner ≡ self.old.inner }
        ensures failed { self.new.failed ≡ self.old.failed }
    {
        let pending = self.pending();
        match row_end(pending) {
            Some(size) => {
                row.extend_from_slice(&pending[..size])?;
                self.start += size;
                Ok(true)
            }
            None => {
                row.extend_from_slice(pending)?;
                self.start = self.chunk.len();
                Ok(false)
            }
        }
    }
}

impl<R: Read> RowReader<R> {
    /// Fills an empty buffer. Returns whether there was anything to read.
    fn refill(&mut self) -> Result<bool, ProgramError>
        requires sound { self.old.failed ≡ false }
        requires empty { self.old.pending ≡ [] }
        ensures left { OnOk result (Consumes (left_of R.remaining self.old) (left_of R.remaining self.new) []) }
        ensures end { (result ≡ Ok false) → IsAtEnd (left_of R.remaining self.new) }
        ensures some { (result ≡ Ok true) → 0 < length self.new.pending }
        ensures failed { IsTrue self.new.failed ↔ (result ≡ Err ProgramError.Read) }
        ensures others { OnErr result ((result ≡ Err ProgramError.Read) ⊎ (result ≡ Err ProgramError.Memory)) }
    {
        let mut chunk = [0u8; CHUNK];
        match self.device.read(&mut chunk) {
            Ok(0) => Ok(false),
            Ok(n) => {
                self.chunk.clear();
                self.start = 0;
                self.chunk.extend_from_slice(&chunk[..n])?;
                Ok(true)
            }
            Err(_) => Err(ProgramError::Read),
        }
    }

    /// Replaces `row` by the next line with its LF. `row` is empty at the end of the input. Only the last line may have
    /// no LF.
    ///
    /// # Errors
    /// `Read` if and only if a call of the reader failed. `Memory` if allocation fails.
    pub fn next(&mut self, row: &mut Vec<u8>) -> Result<(), ProgramError>
        requires sound { self.old.failed ≡ false }
        ensures row { OnOk result
            (IsNextRow (left_of R.remaining self.old) (left_of R.remaining self.new) row.new.items) }
        ensures failed { IsTrue self.new.failed ↔ (result ≡ Err ProgramError.Read) }
        ensures others { OnErr result ((result ≡ Err ProgramError.Read) ⊎ (result ≡ Err ProgramError.Memory)) }
    {
        row.clear();
        for _ in 0..u64::MAX {
            if self.take(row)? {
                return Ok(());
            }
            if !self.refill()? {
                return Ok(());
            }
        }
        Err(ProgramError::Memory)
    }

    /// Returns whether an open value continues. It buffers at most what the next byte needs.
    fn continues_value(&mut self, part: &[u8]) -> Result<bool, ProgramError>
        requires sound { self.old.failed ≡ false }
        ensures left { OnOk result (Consumes (left_of R.remaining self.old) (left_of R.remaining self.new) []) }
        ensures on { IfOk result (λ on. IfSome (left_of R.remaining self.new)
            (λ bytes. (begins_alone part.now || is_inner bytes) ≡ on)) }
        ensures failed { IsTrue self.new.failed ↔ (result ≡ Err ProgramError.Read) }
        ensures others { OnErr result ((result ≡ Err ProgramError.Read) ⊎ (result ≡ Err ProgramError.Memory)) }
    {
        if begins_alone(part) {
            return Ok(true);
        }
        if self.pending().is_empty() && !self.refill()? {
            return Ok(false);
        }
        Ok(is_inner(self.pending()))
    }

    /// Replaces `part` by the next part, line by line.
    fn gather(&mut self, row: &mut Vec<u8>, part: &mut Vec<u8>) -> Result<(), ProgramError>
        requires sound { self.old.failed ≡ false }
        ensures part { OnOk result
            (IsNextPart (left_of R.remaining self.old) (left_of R.remaining self.new) part.new.items) }
        ensures failed { IsTrue self.new.failed ↔ (result ≡ Err ProgramError.Read) }
        ensures others { OnErr result ((result ≡ Err ProgramError.Read) ⊎ (result ≡ Err ProgramError.Memory)) }
    {
        part.clear();
        let mut state = JsonState::nothing();
        for _ in 0..u64::MAX {
            self.next(row)?;
            if row.is_empty() {
                return Ok(());
            }
            part.extend_from_slice(row.as_slice())?;
            if !begins_value(part.as_slice()) {
                return Ok(());
            }
            state = state.after_bytes(row.as_slice());
            if !state.is_unclosed() {
                return Ok(());
            }
            if !self.continues_value(part.as_slice())? {
                return Ok(());
            }
        }
        Err(ProgramError::Memory)
    }

    /// Replaces `part` by the next part: a line, or the lines of a value. `part` is empty at the end of the input.
    /// `number` is that of the part's first line. Returns the number of the line after the part.
    ///
    /// # Errors
    /// `Read` if and only if a call of the reader failed. `Memory` if allocation fails.
    pub fn next_part(
        &mut self,
        number: u64,
        row: &mut Vec<u8>,
        part: &mut Vec<u8>,
    ) -> Result<u64, ProgramError>
        requires sound { self.old.failed ≡ false }
        ensures part { OnOk result
            (IsNextPart (left_of R.remaining self.old) (left_of R.remaining self.new) part.new.items) }
        ensures number { IfOk result (λ following. following ≡ number + count_row_ends part.new.items) }
        ensures failed { IsTrue self.new.failed ↔ (result ≡ Err ProgramError.Read) }
        ensures others { OnErr result ((result ≡ Err ProgramError.Read) ⊎ (result ≡ Err ProgramError.Memory)) }
    {
        self.gather(row, part)?;
        match number.checked_add(count_row_ends(part.as_slice())) {
            Some(following) => Ok(following),
            None => Err(ProgramError::Memory),
        }
    }
}
