//! Replaces files below a folder.

ghost use Rattle.std.specs.Prelude.{◌≡◌, OnOk};
ghost use Rattle.std.specs.Io.KnownBytes.{Appends};
ghost use Rattle.std.specs.Option.{option_copied};

use crate::lookup::{FileLookup, bytes_at, path_in};
use crate::store::FileStore;
use std::alloc::{AllocError, Global};
use std::fs::{OpenFile, OpenOptions, Permissions};
use std::io::Write;
use std::os::unix::fs::OpenOptionsExt;
use std::{fs, io, rt};

/// Replaces files below a folder, by the names in the input.
#[derive(Drop)]
pub struct FolderStore<'r, H> {
    host: &'r H,
    lookup: FileLookup<'r, H>,
}

impl<'r, H: rt::Files + AllocGlobal> FolderStore<'r, H> {
    /// Looks files up below `root`. Without a root, looks below the current folder, then below cargo's workspace root
    /// above it.
    pub fn new(host: &'r H, root: Option<&'r str>) -> FolderStore<'r, H>
        ensures root { option_copied result.lookup.root ≡ option_copied root.entry }
    {
        FolderStore {
            host,
            lookup: FileLookup::new(host, root),
        }
    }
}

// The suffix of a file that is being written.
const BESIDE: &str = ".show-fix";

// Its permissions until it is complete: only the owner may read and write it.
const PRIVATE: u32 = 0o600;

/// Returns the path of the file that is being written.
fn path_beside(alloc: Global, path: &str) -> Result<String, AllocError> {
    let mut beside = String::from_str(alloc, path)?;
    beside.push_str(BESIDE)?;
    Ok(beside)
}

/// Returns whether a path is a folder, and not a link.
fn is_folder<H: rt::Files>(host: &H, path: &str) -> bool {
    match fs::symlink_metadata(host, path) {
        Ok(found) => found.is_dir(),
        Err(_) => false,
    }
}

/// Returns whether each folder on the path of a name is one, and not a link.
fn is_within<H: rt::Files>(
    alloc: Global,
    host: &H,
    root: Option<&str>,
    name: &str,
) -> Result<bool, AllocError> {
    for (at, byte) in name.as_bytes().iter().enumerate() {
        if *byte != b'/' {
            continue;
        }
        let Some((folders, _)) = name.split_at_checked(at) else {
            return Ok(false);
        };
        let path = path_in(alloc, root, folders)?;
        if !is_folder(host, path.as_str()) {
            return Ok(false);
        }
    }
    Ok(true)
}

/// Returns the permissions of a file that is writable and not a link.
fn permissions_of<H: rt::Files>(host: &H, path: &str) -> Option<Permissions> {
    let found = fs::symlink_metadata(host, path).ok()?;
    let permissions = found.permissions();
    if found.is_file() && !permissions.readonly() {
        Some(permissions)
    } else {
        None
    }
}

/// Returns whether a file has exactly these bytes.
fn has_bytes<H: rt::Files>(
    alloc: Global,
    host: &H,
    path: &str,
    bytes: &[u8],
) -> Result<bool, AllocError> {
    match bytes_at(alloc, host, path)? {
        Some(found) => Ok(found.as_slice() == bytes),
        None => Ok(false),
    }
}

/// Creates a new file that only its owner may read and write.
fn create_private<H: rt::Files>(host: &H, path: &str) -> io::Result<H::File> {
    OpenOptions::new()
        .write(true)
        .create_new(true)
        .mode(PRIVATE)
        .open(host, path)
}

/// Writes the text to a new file and sets its permissions.
fn fill<F: Write + OpenFile>(file: &mut F, permissions: Permissions, text: &[u8]) -> io::Result<()>
    ensures ok { OnOk result (Appends (F.contents file.old) (F.contents file.new) text.now) }
{
    file.write_all(text)?;
    file.set_permissions(permissions)?;
    file.sync_all()
}

/// The bytes that were read, and the text that replaces them.
#[derive(Clone, Copy)]
struct FileRewrite<'b> {
    bytes: &'b [u8],
    text: &'b [u8],
}

/// Writes the text to a file beside `path` and renames it over `path`, if that still has the bytes that were read.
/// Returns whether it did.
fn write_beside<H: rt::Files>(
    alloc: Global,
    host: &H,
    path: &str,
    beside: &str,
    rewriting: FileRewrite<'_>,
) -> Result<bool, AllocError> {
    let Some(permissions) = permissions_of(host, path) else {
        return Ok(false);
    };
    let Ok(mut file) = create_private(host, beside) else {
        return Ok(false);
    };
    // No other process writes the file from here on: each one creates the file beside it first.
    let is_same = has_bytes(alloc, host, path, rewriting.bytes);
    if matches!(&is_same, Ok(true))
        && fill(&mut file, permissions, rewriting.text).is_ok()
        && fs::rename(host, beside, path).is_ok()
    {
        return Ok(true);
    }
    let _ = fs::remove_file(host, beside);
    is_same?;
    Ok(false)
}

impl<'r, H: rt::Files + AllocGlobal> FileStore for FolderStore<'r, H> {
    ghost use Rattle.std.specs.Prelude.{None, ⊤};

    ghost written = { λ it. None };

    ghost refuses = { λ name. ⊤ };

    fn write(
        &mut self,
        alloc: Global,
        name: &str,
        bytes: &[u8],
        text: &[u8],
    ) -> Result<bool, AllocError> {
        let root = self.lookup.folder_of(alloc, name)?;
        if !is_within(alloc, self.host, root, name)? {
            return Ok(false);
        }
        let path = path_in(alloc, root, name)?;
        let beside = path_beside(alloc, path.as_str())?;
        let rewriting = FileRewrite { bytes, text };
        write_beside(alloc, self.host, path.as_str(), beside.as_str(), rewriting)
    }
}
