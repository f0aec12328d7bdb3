//! Files that a reader looks up by name.

ghost use Rattle.std.specs.Prelude.{◌≡◌};
ghost use Rattle.miette_read.specs.views.Files.{file_source};

use miette_protocol::protocol::SourceSpan;
use miette_protocol::source::{IndexedSource, NamedSource, ReadResult, SourceCode};
use std::marker::Model;

/// A file's name, bytes and line index.
pub type SourceFile = NamedSource<IndexedSource>;

/// A borrowed file. Reports over it share its bytes. It always reads.
#[derive(Drop)]
pub struct BorrowedFile<'f> {
    file: &'f SourceFile,
}

impl<'f> Model for BorrowedFile<'f> {
    ghost use Rattle.miette_protocol.specs.rules.Reading.{Source};
    ghost use Rattle.miette_read.specs.views.Files.{file_source};

    ghost Value = { Source };

    ghost view = { λ it. file_source it.file.now };
}

impl<'f> BorrowedFile<'f> {
    /// Borrows a file. Doesn't allocate.
    pub fn new(file: &'f SourceFile) -> BorrowedFile<'f>
        ensures { result ≡ file_source file.now }
    {
        BorrowedFile { file }
    }

    /// Borrows the same file again. Doesn't allocate.
    pub fn again(&self) -> BorrowedFile<'f>
        ensures { result ≡ self.now }
    {
        BorrowedFile { file: self.file }
    }

    /// Returns the file's bytes with their line index.
    pub fn indexed(&self) -> &'f IndexedSource
        ensures { result.now ≡ self.now.bytes }
    {
        self.file.inner()
    }

    /// Returns the file's bytes.
    pub fn bytes(&self) -> &'f [u8]
        ensures { result.now ≡ self.now.bytes }
    {
        self.file.inner().bytes()
    }
}

impl<'f> SourceCode for BorrowedFile<'f> {
    ghost source = { λ it. it };

    fn read_span(&self, span: &SourceSpan, before: usize, after: usize) -> ReadResult<'_> {
        self.file.read_span(span, before, after)
    }
}

/// Looks up files by the names that a tool gives them.
pub trait Files {
    ghost use Rattle.std.specs.Prelude.{◌≡◌, ℕ, List, Option, IfSome, true};
    ghost use Rattle.miette_protocol.specs.rules.Reading.{Source};

    ghost found: { Self → List ℕ → Option Source };

    /// Returns the file with this name, or `None` if it can't be read.
    fn find(&self, name: &str) -> Option<BorrowedFile<'_>>
        ensures { result ≡ found self.now name.now };

    ghost reads: { (it : Self) (name : List ℕ) → IfSome (found it name) (λ s. s.always_reads ≡ true) };
}
