//! The names of the files in a log.

ghost use Rattle.std.specs.Prelude.{◌≡◌, ◌++◌, IfOk, OnOk, map, option_map, string_bytes};
ghost use Rattle.serde_json.specs.View.{items_view, members_view, view};
ghost use Rattle.miette_read_sarif.specs.rules.Names.{names_among, names_in, log_file_names, names_within, own_names};
ghost use Rattle.miette_read_sarif.specs.rules.Names.{run_names};

use crate::bases::{bases_of, file_name};
use miette_read::lists::push_item;
use miette_read::members::{member_objects, member_text};
use serde_json::{Map, Value};
use std::alloc::{AllocError, Global};

/// Appends the file name of an object that has a URI.
fn push_own(
    list: &mut Vec<String>,
    alloc: Global,
    bases: Option<&Value>,
    value: &Value,
) -> Result<(), AllocError>
    ensures { OnOk result (map string_bytes list.new.items
        ≡ map string_bytes list.old.items ++ own_names (option_map (λ v. view v.now) bases.entry) (view value.now)) }
{
    if member_text(value, "uri").is_none() {
        return Ok(());
    }
    let name = file_name(alloc, bases, value)?;
    push_item(list, name)
}

/// Appends the file names in a value.
#[cycle(push_names)]
fn push_names(
    list: &mut Vec<String>,
    alloc: Global,
    bases: Option<&Value>,
    value: &Value,
) -> Result<(), AllocError>
    ensures { OnOk result (map string_bytes list.new.items
        ≡ map string_bytes list.old.items
        ++ names_within (option_map (λ v. view v.now) bases.entry) (view value.now)) }
{
    match value {
        Value::Array(items) => push_names_in(list, alloc, bases, items),
        Value::Object(members) => {
            push_own(list, alloc, bases, value)?;
            push_names_among(list, alloc, bases, members)
        }
        _ => Ok(()),
    }
}

#[cycle(push_names)]
fn push_names_in(
    list: &mut Vec<String>,
    alloc: Global,
    bases: Option<&Value>,
    items: &Vec<Value>,
) -> Result<(), AllocError>
    ensures { OnOk result (map string_bytes list.new.items
        ≡ map string_bytes list.old.items
        ++ names_in (option_map (λ v. view v.now) bases.entry) (items_view items.now.items)) }
{
    for item in items {
        push_names(list, alloc, bases, item)?;
    }
    Ok(())
}

#[cycle(push_names)]
fn push_names_among(
    list: &mut Vec<String>,
    alloc: Global,
    bases: Option<&Value>,
    members: &Map<String, Value>,
) -> Result<(), AllocError>
    ensures { OnOk result (map string_bytes list.new.items
        ≡ map string_bytes list.old.items
        ++ names_among (option_map (λ v. view v.now) bases.entry) (members_view members.now.entries)) }
{
    for (_, member) in members.iter() {
        push_names(list, alloc, bases, member)?;
    }
    Ok(())
}

/// Appends the file names in a run.
fn push_run(list: &mut Vec<String>, alloc: Global, run: &Value) -> Result<(), AllocError>
    ensures { OnOk result (map string_bytes list.new.items
        ≡ map string_bytes list.old.items ++ run_names (view run.now)) }
{
    push_names(list, alloc, bases_of(run), run)
}

/// Returns the file names in a run.
pub(crate) fn run_names(alloc: Global, run: &Value) -> Result<Vec<String>, AllocError>
    ensures { IfOk result (λ list. map string_bytes list.items ≡ run_names (view run.now)) }
{
    let mut list = Vec::new(alloc);
    push_run(&mut list, alloc, run)?;
    Ok(list)
}

/// Returns the names of the files in a log: those of all objects in its runs with a text `uri`, at any depth. A name
/// can come several times.
///
/// # Errors
/// `AllocError` if allocation fails.
pub fn file_names(alloc: Global, value: &Value) -> Result<Vec<String>, AllocError>
    ensures { IfOk result (λ list. map string_bytes list.items ≡ log_file_names (view value.now)) }
{
    let runs = member_objects(alloc, value, "runs")?;
    let mut list = Vec::new(alloc);
    for run in runs.as_slice() {
        push_run(&mut list, alloc, *run)?;
    }
    Ok(list)
}
