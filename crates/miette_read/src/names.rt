//! The names of the files in a message.

ghost use Rattle.std.specs.Prelude.{◌≡◌, ◌++◌, IfOk, OnOk};
ghost use Rattle.serde_json.specs.View.{items_view, members_view, view};
ghost use Rattle.miette_read.specs.rules.Names.{named_by, names_among, names_in, names_of};
ghost use Rattle.miette_read.specs.views.Values.{texts};

use crate::lists::push_item;
use serde_json::{Map, Value};
use std::alloc::{AllocError, Global};

/// Appends a member's text if its key is one of a file name.
fn push_name<'v>(list: &mut Vec<&'v str>, key: &str, member: &'v Value) -> Result<(), AllocError>
    ensures { OnOk result (texts list.new.items ≡ texts list.old.items ++ named_by key.now (view member.now)) }
{
    if key == "file_name" || key == "file" {
        if let Some(name) = member.as_str() {
            return push_item(list, name);
        }
    }
    Ok(())
}

/// Appends the file names in a value.
#[cycle(push_names)]
fn push_names<'v>(list: &mut Vec<&'v str>, value: &'v Value) -> Result<(), AllocError>
    ensures { OnOk result (texts list.new.items ≡ texts list.old.items ++ names_of (view value.now)) }
{
    match value {
        Value::Array(items) => push_names_in(list, items),
        Value::Object(members) => push_names_among(list, members),
        _ => Ok(()),
    }
}

#[cycle(push_names)]
fn push_names_in<'v>(list: &mut Vec<&'v str>, items: &'v Vec<Value>) -> Result<(), AllocError>
    ensures { OnOk result (texts list.new.items ≡ texts list.old.items ++ names_in (items_view items.now.items)) }
{
    for item in items {
        push_names(list, item)?;
    }
    Ok(())
}

#[cycle(push_names)]
fn push_names_among<'v>(
    list: &mut Vec<&'v str>,
    members: &'v Map<String, Value>,
) -> Result<(), AllocError>
    ensures { OnOk result (texts list.new.items
        ≡ texts list.old.items ++ names_among (members_view members.now.entries)) }
{
    for (key, member) in members.iter() {
        push_name(list, key.as_str(), member)?;
        push_names(list, member)?;
    }
    Ok(())
}

/// Returns the names of the files in a message: the texts of all members `file_name` or `file`, at any depth. A name
/// can come several times.
///
/// # Errors
/// `AllocError` if allocation fails.
pub fn file_names<'v>(alloc: Global, value: &'v Value) -> Result<Vec<&'v str>, AllocError>
    ensures { IfOk result (λ list. texts list.items ≡ names_of (view value.now)) }
{
    let mut list = Vec::new(alloc);
    push_names(&mut list, value)?;
    Ok(list)
}
