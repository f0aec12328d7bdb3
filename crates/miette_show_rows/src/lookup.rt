//! Where files are looked up.

ghost use Rattle.std.specs.Prelude.{◌≡◌, IfOk, string_bytes};
ghost use Rattle.std.specs.Option.{option_copied};
ghost use Rattle.miette_show_rows.specs.rules.Looking.{path_in};

use std::alloc::{AllocError, Global};
use std::fs::File;
use std::io::{ErrorKind, Read};
use std::{fs, rt};

// How many folders up cargo's workspace root is looked for.
const FOLDERS_UP: usize = 64;

/// Where files are looked up: below a given root, or below the current folder and cargo's workspace root above it.
#[derive(Drop)]
pub(crate) struct FileLookup<'r, H> {
    host: &'r H,
    root: Option<&'r str>,
    above: CargoRoot,
}

/// Cargo's workspace root above the current folder.
#[derive(Drop)]
enum CargoRoot {
    /// Not looked for yet.
    Unknown,
    /// There is none.
    Missing,
    /// The path of the root.
    Found(String),
}

/// Returns the path of a file: below `root`, unless the name starts with `/`.
pub(crate) fn path_in(alloc: Global, root: Option<&str>, name: &str) -> Result<String, AllocError>
    ensures { IfOk result (λ path. string_bytes path ≡ path_in (option_copied root.entry) name.now) }
{
    let mut path = String::new(alloc);
    if let Some(root) = root {
        if !name.starts_with("/") {
            path.push_str(root)?;
            path.push_str("/")?;
        }
    }
    path.push_str(name)?;
    Ok(path)
}

/// Reads at most `size` bytes of a file.
fn first_bytes<H: rt::Files>(
    alloc: Global,
    host: &H,
    path: &str,
    size: u64,
) -> Result<Option<Vec<u8>>, AllocError> {
    let Ok(file) = File::open(host, path) else {
        return Ok(None);
    };
    let mut bytes = Vec::new(alloc);
    match file.take(size).read_to_end(&mut bytes) {
        Ok(_) => Ok(Some(bytes)),
        Err(error) if error.kind() == ErrorKind::OutOfMemory => Err(AllocError),
        Err(_) => Ok(None),
    }
}

/// Reads a regular file. Reads as many bytes as its length says, so a system file with length 0 is empty.
pub(crate) fn bytes_at<H: rt::Files>(
    alloc: Global,
    host: &H,
    path: &str,
) -> Result<Option<Vec<u8>>, AllocError> {
    match fs::metadata(host, path) {
        Ok(found) if !found.is_file() => Ok(None),
        Ok(found) if found.len() == 0 => Ok(Some(Vec::new(alloc))),
        Ok(found) => first_bytes(alloc, host, path, found.len()),
        Err(_) => Ok(None),
    }
}

/// Returns whether a path is a regular file.
fn is_file<H: rt::Files>(host: &H, path: &str) -> bool {
    match fs::metadata(host, path) {
        Ok(found) => found.is_file(),
        Err(_) => false,
    }
}

/// Returns whether a folder is cargo's workspace root: it has a `Cargo.lock`.
fn is_root<H: rt::Files>(alloc: Global, host: &H, folder: &str) -> Result<bool, AllocError> {
    let path = path_in(alloc, Some(folder), "Cargo.lock")?;
    Ok(is_file(host, path.as_str()))
}

/// Looks for cargo's workspace root above the current folder.
fn root_above<H: rt::Files>(alloc: Global, host: &H) -> Result<CargoRoot, AllocError> {
    if is_root(alloc, host, ".")? {
        return Ok(CargoRoot::Missing);
    }
    let mut folder = String::from_str(alloc, "..")?;
    for _ in 0..FOLDERS_UP {
        if is_root(alloc, host, folder.as_str())? {
            return Ok(CargoRoot::Found(folder));
        }
        folder.push_str("/..")?;
    }
    Ok(CargoRoot::Missing)
}

impl<'r, H: rt::Files> FileLookup<'r, H> {
    /// Looks files up below `root`, or else below the current folder and cargo's workspace root.
    pub(crate) fn new(host: &'r H, root: Option<&'r str>) -> FileLookup<'r, H>
        ensures root { option_copied result.root ≡ option_copied root.entry }
    {
        FileLookup {
            host,
            root,
            above: CargoRoot::Unknown,
        }
    }

    /// Returns cargo's workspace root. It is looked for once.
    fn cargo_root(&mut self, alloc: Global) -> Result<Option<&str>, AllocError> {
        if matches!(&self.above, CargoRoot::Unknown) {
            self.above = root_above(alloc, self.host)?;
        }
        match &self.above {
            CargoRoot::Found(folder) => Ok(Some(folder.as_str())),
            CargoRoot::Unknown | CargoRoot::Missing => Ok(None),
        }
    }

    /// Returns the folder of a file, or `None` for the current folder.
    ///
    /// # Errors
    /// `AllocError` if allocation fails.
    pub(crate) fn folder_of(
        &mut self,
        alloc: Global,
        name: &str,
    ) -> Result<Option<&str>, AllocError> {
        if self.root.is_some() || name.starts_with("/") || is_file(self.host, name) {
            return Ok(self.root);
        }
        self.cargo_root(alloc)
    }
}
