//! Looks up the files that the input names.

ghost use Rattle.std.specs.Prelude.{◌≡◌, ℕ, List, OnOk, map, string_bytes};
ghost use Rattle.std.specs.List.{All};
ghost use Rattle.serde_json.specs.View.{view};
ghost use Rattle.miette_read.specs.views.Values.{texts};
ghost use Rattle.miette_show_rows.specs.rules.Looking.{Goes, named_files};

use miette_read::files::Files;
use miette_read::names::file_names;
use miette_read_sarif::names::file_names as names_in_log;
use serde_json::Value;
use std::alloc::{AllocError, Global};

/// Looks files up before they are used. Once a name is known, the file found under it stays the same.
pub trait FileLoader: Files {
    ghost use Rattle.std.specs.Prelude.{◌≡◌, ℕ, List, OnOk};
    ghost use Rattle.miette_show_rows.specs.rules.Looking.{Goes};

    /// The name was looked up.
    ghost knows: { Self → List ℕ → Type 0 };

    /// Looks up a file, unless its name is known.
    ///
    /// # Errors
    /// `AllocError` if allocation fails. Known names stay known.
    fn load(&mut self, alloc: Global, name: &str) -> Result<(), AllocError>
        ensures known { OnOk result (knows self.new name.now) }
        ensures goes { Goes (Self.found self.old) (knows self.old) (Self.found self.new) (knows self.new) };
}

/// Looks up the files with these names.
fn load_names<F: FileLoader>(alloc: Global, files: &mut F, names: &[&str]) -> Result<(), AllocError>
    ensures known { OnOk result (All (F.knows files.new) (texts names.now)) }
    ensures goes { Goes (F.found files.old) (F.knows files.old) (F.found files.new) (F.knows files.new) }
{
    for name in names {
        let name = *name;
        files.load(alloc, name)?;
    }
    Ok(())
}

/// Looks up the files with these owned names.
pub(crate) fn load_listed_files<F: FileLoader>(
    alloc: Global,
    files: &mut F,
    names: &[String],
) -> Result<(), AllocError>
    ensures known { OnOk result (All (F.knows files.new) (map string_bytes names.now)) }
    ensures goes { Goes (F.found files.old) (F.knows files.old) (F.found files.new) (F.knows files.new) }
{
    for name in names {
        files.load(alloc, name.as_str())?;
    }
    Ok(())
}

/// Looks up all files that a line names.
///
/// # Errors
/// `AllocError` if allocation fails.
pub fn load_named_files<F: FileLoader>(
    alloc: Global,
    files: &mut F,
    row: &Value,
) -> Result<(), AllocError>
    ensures known { OnOk result (All (F.knows files.new) (named_files (view row.now))) }
    ensures goes { Goes (F.found files.old) (F.knows files.old) (F.found files.new) (F.knows files.new) }
{
    let names = file_names(alloc, row)?;
    load_names(alloc, files, names.as_slice())?;
    let held = names_in_log(alloc, row)?;
    load_listed_files(alloc, files, held.as_slice())
}
