//! Sources whose reads fail, and highlighters whose allocations fail.
ghost use Rattle.std.specs.Prelude.{None, false};

use miette::error::MietteError;
use miette::highlight::Highlighter;
use miette::protocol::SourceSpan;
use miette::source::{MietteSpanContents, SourceCode};
use miette::style::{Color, Style};
use std::alloc::{AllocError, Global};
use std::cell::Cell;
use std::io;
use std::io::ErrorKind;
use std::rc::Rc;

/// Counts reads, and says which of them fail.
#[derive(Drop)]
pub struct Reads {
    count: Cell<usize>,
    // The read that fails, one-based, or 0 for none.
    fails_at: Cell<usize>,
    // Whether later reads fail too.
    stays: Cell<bool>,
}

impl Reads {
    /// Returns a counter without failing reads.
    ///
    /// # Errors
    /// If allocation fails.
    pub fn new(alloc: Global) -> Result<Rc<Reads>, AllocError> {
        Ok(Rc::new(
            alloc,
            Reads {
                count: Cell::new(0),
                fails_at: Cell::new(0),
                stays: Cell::new(false),
            },
        )?)
    }

    /// Restarts the count. The read with this number fails, and later ones too if `stays` is set.
    pub fn begin(&self, fails_at: usize, stays: bool) {
        self.count.set(0);
        self.fails_at.set(fails_at);
        self.stays.set(stays);
    }

    /// Returns the number of reads.
    pub fn count(&self) -> usize {
        self.count.get()
    }

    /// Counts a read, and returns whether it fails.
    fn fails(&self) -> bool {
        let count = self.count.get().saturating_add(1);
        self.count.set(count);
        let fails_at = self.fails_at.get();
        count == fails_at || (self.stays.get() && fails_at < count)
    }
}

/// A source where some reads fail.
#[derive(Drop)]
pub struct FailingSource {
    bytes: Vec<u8>,
    // Sources with the same counter are counted together.
    reads: Rc<Reads>,
}

impl FailingSource {
    /// Returns a source with these bytes and failing reads.
    ///
    /// # Errors
    /// If allocation fails.
    pub fn over(
        alloc: Global,
        bytes: &[u8],
        reads: &Rc<Reads>,
    ) -> Result<FailingSource, AllocError> {
        let reads = reads.clone()?;
        let bytes = bytes.to_vec(alloc)?;
        Ok(FailingSource { bytes, reads })
    }
}

impl SourceCode for FailingSource {
    ghost source = { λ it. record { bytes = it.bytes.items; name = None; language = None; always_reads = false } };

    fn read_span(
        &self,
        span: &SourceSpan,
        before: usize,
        after: usize,
    ) -> Result<MietteSpanContents<'_>, MietteError> {
        if self.reads.fails() {
            return Err(MietteError::IoError(io::Error::from(ErrorKind::Other)));
        }
        self.bytes.read_span(span, before, after)
    }
}

/// Highlights lines in red, up to the line with this number. Allocation fails for that one.
#[derive(Drop)]
pub struct Red(pub usize);

impl Highlighter for Red {
    fn highlight_line(
        &mut self,
        alloc: Global,
        line: &str,
    ) -> Result<Vec<(usize, Style)>, AllocError> {
        self.0 = self.0.saturating_sub(1);
        if self.0 == 0 {
            return Err(AllocError);
        }
        let red = Style::new().color(Color::Red);
        Ok(vec![in alloc; (line.len(), red)]?)
    }

    fn restart(&mut self, _contents: &MietteSpanContents<'_>) {}
}
