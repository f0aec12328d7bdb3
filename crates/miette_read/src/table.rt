//! A table of files by name.

ghost use Rattle.std.specs.Prelude.{◌≡◌, ◌++◌, ◌∷◌, [], OnOk};

use crate::files::{BorrowedFile, Files, SourceFile};
use crate::lists::push_item;
use std::alloc::{AllocError, Global};
use std::marker::Model;

/// Files by name, in the order in which they were added.
#[derive(Drop)]
pub struct FileTable {
    files: Vec<SourceFile>,
}

impl Model for FileTable {
    ghost use Rattle.std.specs.Prelude.{ℕ, List};
    ghost use Rattle.miette_protocol.specs.declared.named_source.NamedSource.{NamedSource};

    ghost Value = { List (NamedSource (List ℕ)) };

    ghost view = { λ it. it.files.items };
}

impl FileTable {
    /// Returns an empty table.
    pub fn new(alloc: Global) -> FileTable
        ensures { result ≡ [] }
    {
        FileTable {
            files: Vec::new(alloc),
        }
    }

    /// Adds a file. If two files have one name, the first one is found.
    ///
    /// # Errors
    /// `AllocError` if allocation fails.
    pub fn push(&mut self, file: SourceFile) -> Result<(), AllocError>
        ensures { OnOk result (self.new ≡ self.old ++ file ∷ []) }
    {
        push_item(&mut self.files, file)
    }
}

impl Files for FileTable {
    ghost use Rattle.std.specs.Prelude.{option_map, find, bytes_eq};
    ghost use Rattle.miette_protocol.specs.views.NamedSources.{source_name};
    ghost use Rattle.miette_read.specs.views.Files.{each_reads, file_source};

    ghost found = { λ it name. option_map file_source (find (λ f. bytes_eq (source_name f) name) it) };

    ghost reads = { λ it name. each_reads (find (λ f. bytes_eq (source_name f) name) it) };

    fn find(&self, name: &str) -> Option<BorrowedFile<'_>> {
        let file = self.files.iter().find(|file| file.name() == name)?;
        Some(BorrowedFile::new(file))
    }
}
