//! Tables of line starts. With a table, a region finds its line without counting from the first one.

ghost use Rattle.std.specs.Prelude.{◌≡◌, IfOk, IfSome, OnOk, string_bytes};
ghost use Rattle.std.specs.List.{Contains};
ghost use Rattle.miette_read.specs.views.Values.{texts};
ghost use Rattle.miette_read_sarif.specs.views.Tables.{AreStarts, AreTables, IsTable};

use crate::names::run_names;
use crate::newline_sequences::{NewlineSequences, rest_from};
use crate::newlines::line_size;
use miette_read::files::Files;
use miette_read::lists::push_item;
use serde_json::Value;
use std::alloc::{AllocError, Global};

/// The line starts of a file.
#[derive(Drop)]
pub(crate) struct LineTable {
    pub(crate) name: String,
    pub(crate) starts: Vec<usize>,
}

/// Returns the offset of each line's start. It reads the bytes once.
fn starts_of(
    alloc: Global,
    ends: &NewlineSequences<'_>,
    bytes: &[u8],
) -> Result<Vec<usize>, AllocError>
    ensures { IfOk result (λ starts. AreStarts (texts ends.now.newlines.items) bytes.now 0 starts.items) }
{
    let mut starts = Vec::new(alloc);
    let mut at: usize = 0;
    while let Some(size) = line_size(ends, rest_from(bytes, at)) {
        push_item(&mut starts, at)?;
        at += size;
    }
    push_item(&mut starts, at)?;
    Ok(starts)
}

/// Returns the table of a file.
fn table_of(
    alloc: Global,
    ends: &NewlineSequences<'_>,
    name: &str,
    bytes: &[u8],
) -> Result<LineTable, AllocError>
    ensures name { IfOk result (λ it. string_bytes it.name ≡ name.now) }
    ensures starts { IfOk result (λ it. AreStarts (texts ends.now.newlines.items) bytes.now 0 it.starts.items) }
{
    let starts = starts_of(alloc, ends, bytes)?;
    let name = String::from_str(alloc, name)?;
    Ok(LineTable { name, starts })
}

/// Returns the table of the file with this name, if it is found.
fn table_at<F: Files>(
    alloc: Global,
    files: &F,
    ends: &NewlineSequences<'_>,
    name: &str,
) -> Result<Option<LineTable>, AllocError>
    ensures { IfOk result (λ it. IfSome it (IsTable (F.found files.now) (texts ends.now.newlines.items))) }
{
    match files.find(name) {
        Some(file) => {
            let table = table_of(alloc, ends, name, file.bytes())?;
            Ok(Some(table))
        }
        None => Ok(None),
    }
}

/// Appends the table of the file with this name, if it is found.
fn push_table<F: Files>(
    list: &mut Vec<LineTable>,
    alloc: Global,
    files: &F,
    ends: &NewlineSequences<'_>,
    name: &str,
) -> Result<(), AllocError>
    ensures { OnOk result (AreTables (F.found files.now) (texts ends.now.newlines.items) list.old.items
        → AreTables (F.found files.now) (texts ends.now.newlines.items) list.new.items) }
{
    match table_at(alloc, files, ends, name)? {
        Some(table) => push_item(list, table),
        None => Ok(()),
    }
}

/// Returns the tables of a run's files, sorted by name. Each file is read once.
pub(crate) fn tables_of<F: Files>(
    alloc: Global,
    files: &F,
    ends: &NewlineSequences<'_>,
    run: &Value,
) -> Result<Vec<LineTable>, AllocError>
    ensures { IfOk result (λ list. AreTables (F.found files.now) (texts ends.now.newlines.items) list.items) }
{
    let mut names = run_names(alloc, run)?;
    names.sort()?;
    names.dedup();
    let mut list = Vec::new(alloc);
    for name in names.as_slice() {
        push_table(&mut list, alloc, files, ends, name.as_str())?;
    }
    Ok(list)
}

/// Returns the table of the file with this name, by binary search. No clause promises that it is found.
pub(crate) fn table_with<'t>(tables: &'t [LineTable], name: &str) -> Option<&'t LineTable>
    ensures { IfSome result (λ it. Contains tables.now it.now × (string_bytes it.now.name ≡ name.now)) }
{
    let place = tables.partition_point(|table| table.name.as_str() < name);
    match tables.get(place) {
        Some(table) if table.name.as_str() == name => Some(table),
        _ => None,
    }
}
