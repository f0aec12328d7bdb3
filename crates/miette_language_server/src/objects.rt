//! Lists and objects of JSON, built member by member. `json!` would hold a half-built value while a member is created.

ghost use Rattle.std.specs.Prelude.{◌≡◌, IfOk, map};
ghost use Rattle.serde_json.specs.Data.{object, put as with_member, string};
ghost use Rattle.serde_json.specs.View.{members_view, view};
ghost use Rattle.miette_language_server.specs.rules.Values.{list_value};

use serde_json::{Map, Value, put};
use std::alloc::{AllocError, Global};

/// Creates a list.
pub(crate) fn list_value(values: Vec<Value>) -> Value
    ensures { view result ≡ list_value (map view values.items) }
{
    Value::Array(values)
}

/// Adds a member, or replaces its value.
///
/// # Errors
/// `AllocError` if allocation fails.
pub(crate) fn with_value(
    alloc: Global,
    members: Map<String, Value>,
    key: &str,
    value: Value,
) -> Result<Map<String, Value>, AllocError>
    ensures { IfOk result (λ it. members_view it.entries
        ≡ with_member key.now (view value) (members_view members.entries)) }
{
    let mut members = members;
    put(&mut members, alloc, key, value)?;
    Ok(members)
}

/// Adds a string member.
///
/// # Errors
/// `AllocError` if allocation fails.
pub(crate) fn with_text(
    alloc: Global,
    members: Map<String, Value>,
    key: &str,
    text: &str,
) -> Result<Map<String, Value>, AllocError>
    ensures { IfOk result (λ it. members_view it.entries
        ≡ with_member key.now (string text.now) (members_view members.entries)) }
{
    let value = Value::try_from_str(alloc, text)?;
    with_value(alloc, members, key, value)
}

/// Returns an object of members and one more.
///
/// # Errors
/// `AllocError` if allocation fails.
pub(crate) fn object_with(
    alloc: Global,
    members: Map<String, Value>,
    key: &str,
    value: Value,
) -> Result<Value, AllocError>
    ensures { IfOk result (λ it. view it
        ≡ object (with_member key.now (view value) (members_view members.entries))) }
{
    let members = with_value(alloc, members, key, value)?;
    Ok(Value::Object(members))
}

/// Returns an object of members and one more string member.
///
/// # Errors
/// `AllocError` if allocation fails.
pub(crate) fn object_with_text(
    alloc: Global,
    members: Map<String, Value>,
    key: &str,
    text: &str,
) -> Result<Value, AllocError>
    ensures { IfOk result (λ it. view it
        ≡ object (with_member key.now (string text.now) (members_view members.entries))) }
{
    let value = Value::try_from_str(alloc, text)?;
    object_with(alloc, members, key, value)
}
