//! Members of JSON messages by type. A member of another type counts as missing.

ghost use Rattle.std.specs.Prelude.{◌≡◌, IfOk, option_map, string_bytes};
ghost use Rattle.std.specs.Option.{option_copied};
ghost use Rattle.serde_json.specs.View.{view};
ghost use Rattle.serde_json.specs.Find.{as_array, get};
ghost use Rattle.miette_read.specs.rules.Members.{member_flag, has_list, has_text, member_items, array_items, list_in};
ghost use Rattle.miette_read.specs.rules.Members.{member_object, member_objects};
ghost use Rattle.miette_read.specs.rules.Members.{nonempty_text, member_text, member_number};
ghost use Rattle.miette_read.specs.views.Values.{values_behind, viewed};

use crate::lists::push_item;
use serde_json::Value;
use std::alloc::{AllocError, Global};

/// Returns the value of a member.
pub fn member_value<'v>(value: &'v Value, key: &str) -> Option<&'v Value>
    ensures { option_map (λ v. view v.now) result ≡ get key.now (view value.now) }
{
    value.get(key)
}

/// Returns the text of a member.
pub fn member_text<'v>(value: &'v Value, key: &str) -> Option<&'v str>
    ensures { option_copied result ≡ member_text key.now (view value.now) }
{
    member_value(value, key)?.as_str()
}

/// Returns the text of a member if it isn't empty.
pub fn member_nonempty_text<'v>(value: &'v Value, key: &str) -> Option<&'v str>
    ensures { option_copied result ≡ nonempty_text (member_text key.now (view value.now)) }
{
    let text = member_text(value, key)?;
    if text.is_empty() { None } else { Some(text) }
}

/// Returns the number of a member.
pub fn member_number(value: &Value, key: &str) -> Option<u64>
    ensures { result ≡ member_number key.now (view value.now) }
{
    member_value(value, key)?.as_u64()
}

/// Returns the flag of a member, or false if it is missing.
pub fn member_flag(value: &Value, key: &str) -> bool
    ensures { result ≡ member_flag key.now (view value.now) }
{
    match member_value(value, key) {
        Some(found) => found.as_bool().unwrap_or(false),
        None => false,
    }
}

/// Returns the object of a member.
pub fn member_object<'v>(value: &'v Value, key: &str) -> Option<&'v Value>
    ensures { option_map (λ v. view v.now) result ≡ member_object key.now (view value.now) }
{
    let found = member_value(value, key)?;
    if found.is_object() { Some(found) } else { None }
}

/// Returns the items of a list. Returns `None` if the value isn't a list.
pub fn list_in(value: &Value) -> Option<&[Value]>
    ensures { option_map (λ it. viewed it.now) result ≡ list_in (view value.now) }
{
    match value.as_array() {
        Some(list) => Some(list.as_slice()),
        None => None,
    }
}

/// Returns whether the member is a text.
pub fn has_text(value: &Value, key: &str) -> bool
    ensures { result ≡ has_text key.now (view value.now) }
{
    member_text(value, key).is_some()
}

/// Returns whether the member is a list.
pub fn has_list(value: &Value, key: &str) -> bool
    ensures { result ≡ has_list key.now (view value.now) }
{
    match member_value(value, key) {
        Some(found) => found.is_array(),
        None => false,
    }
}

/// Returns the items of a list. Any other value has none.
fn array_items(value: &Value) -> &[Value]
    ensures { viewed result.now ≡ array_items (as_array (view value.now)) }
{
    match value.as_array() {
        Some(list) => list.as_slice(),
        None => &[],
    }
}

/// Returns the items of an array member.
pub fn member_items<'v>(value: &'v Value, key: &str) -> &'v [Value]
    ensures { viewed result.now ≡ member_items key.now (view value.now) }
{
    match member_value(value, key) {
        Some(found) => array_items(found),
        None => &[],
    }
}

/// Returns the items of an array member that are objects.
///
/// # Errors
/// `AllocError` if allocation fails.
pub fn member_objects<'v>(
    alloc: Global,
    value: &'v Value,
    key: &str,
) -> Result<Vec<&'v Value>, AllocError>
    ensures { IfOk result (λ list. values_behind list.items ≡ member_objects key.now (view value.now)) }
{
    let mut list = Vec::new(alloc);
    for item in member_items(value, key) {
        if item.is_object() {
            push_item(&mut list, item)?;
        }
    }
    Ok(list)
}

/// Copies a text, if there is one.
///
/// # Errors
/// `AllocError` if allocation fails.
pub fn copy_text(alloc: Global, text: Option<&str>) -> Result<Option<String>, AllocError>
    ensures { IfOk result (λ o. option_map string_bytes o ≡ option_copied text.entry) }
{
    match text {
        Some(text) => Ok(Some(String::from_str(alloc, text)?)),
        None => Ok(None),
    }
}
