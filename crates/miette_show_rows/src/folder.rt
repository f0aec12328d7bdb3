//! The files of a folder, each read once.

ghost use Rattle.std.specs.Prelude.{◌≡◌};
ghost use Rattle.std.specs.HashMap.{IsEmpty};
ghost use Rattle.std.specs.Option.{option_copied};

use crate::loader::FileLoader;
use crate::lookup::{FileLookup, bytes_at, path_in};
use crate::mask_controls::mask_controls;
use miette_protocol::source::{IndexedSource, NamedSource};
use miette_read::files::{BorrowedFile, Files, SourceFile};
use std::alloc::{AllocError, Global};
use std::collections::HashMap;
use std::rt;

/// The files below a folder, by the names in the input. Each is read when it is first looked up.
#[derive(Drop)]
pub struct Folder<'r, H> {
    host: &'r H,
    lookup: FileLookup<'r, H>,
    mask_controls: bool,
    files: HashMap<String, Option<SourceFile>>,
}

impl<'r, H: rt::Files + AllocGlobal> Folder<'r, H> {
    /// Looks files up below `root`. Without a root, looks below the current folder, then below cargo's workspace root
    /// above it.
    pub fn new(host: &'r H, root: Option<&'r str>) -> Folder<'r, H>
        ensures empty { IsEmpty result.files }
        ensures root { option_copied result.lookup.root ≡ option_copied root.entry }
    {
        Folder {
            host,
            lookup: FileLookup::new(host, root),
            mask_controls: false,
            files: HashMap::new(host.alloc()),
        }
    }

    /// Masks the control characters of files that are read from now on (`mask_controls`), so that no file controls the
    /// terminal.
    pub fn with_visible_controls(self) -> Folder<'r, H>
        ensures files { result.files ≡ self.entry.files }
        ensures root { option_copied result.lookup.root ≡ option_copied self.entry.lookup.root }
    {
        Folder {
            mask_controls: true,
            ..self
        }
    }
}

/// Masks the control characters of a file if asked to.
fn shown(alloc: Global, bytes: Vec<u8>, is_visible: bool) -> Result<Vec<u8>, AllocError> {
    if is_visible {
        mask_controls(alloc, bytes.as_slice())
    } else {
        Ok(bytes)
    }
}

/// Reads a file. Returns `None` if it can't be read.
fn read_file<H: rt::Files>(
    lookup: &mut FileLookup<'_, H>,
    host: &H,
    alloc: Global,
    name: &str,
    is_visible: bool,
) -> Result<Option<SourceFile>, AllocError> {
    let path = path_in(alloc, lookup.folder_of(alloc, name)?, name)?;
    let Some(bytes) = bytes_at(alloc, host, path.as_str())? else {
        return Ok(None);
    };
    let bytes = shown(alloc, bytes, is_visible)?;
    let file = NamedSource::new(alloc, name, IndexedSource::new(alloc, bytes)?)?;
    Ok(Some(file))
}

impl<'r, H: rt::Files + AllocGlobal> Files for Folder<'r, H> {
    ghost use Rattle.miette_show_rows.specs.views.Folder.{each_reads, found_in};

    ghost found = { λ it name. found_in it.files name };

    ghost reads = { λ it name. each_reads it.files name };

    fn find(&self, name: &str) -> Option<BorrowedFile<'_>> {
        match self.files.get(name) {
            Some(Some(file)) => Some(BorrowedFile::new(file)),
            _ => None,
        }
    }
}

impl<'r, H: rt::Files + AllocGlobal> FileLoader for Folder<'r, H> {
    ghost use Rattle.miette_show_rows.specs.views.Folder.{IsLookedFor};

    ghost knows = { λ it name. IsLookedFor it.files name };

    fn load(&mut self, alloc: Global, name: &str) -> Result<(), AllocError> {
        if self.files.get(name).is_some() {
            return Ok(());
        }
        let key = String::from_str(alloc, name)?;
        let file = read_file(&mut self.lookup, self.host, alloc, name, self.mask_controls)?;
        self.files.insert(key, file)?;
        Ok(())
    }
}
