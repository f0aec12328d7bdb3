//! Access to the members of a message by path and type.

ghost use Rattle.std.specs.Prelude.{◌≡◌, map, option_and_then, option_map};
ghost use Rattle.std.specs.Option.{option_copied};
ghost use Rattle.serde_json.specs.Find.{as_array, pointer};
ghost use Rattle.serde_json.specs.View.{view};
ghost use Rattle.miette_language_server.specs.rules.Members.{count_at, id_of, integer_at, is_id, items_at};
ghost use Rattle.miette_language_server.specs.rules.Members.{items_of_list, position_of, region_at, region_of, text_at};

use miette_positions::position::{Position, Region};
use serde_json::Value;

// The value at a path.
fn found_at<'v>(value: &'v Value, path: &str) -> Option<&'v Value>
    ensures { option_map (λ v. view v.now) result ≡ pointer path.now (view value.now) }
{
    value.pointer(path)
}

/// The string at a path.
pub(crate) fn text_at<'v>(value: &'v Value, path: &str) -> Option<&'v str>
    ensures { option_copied result ≡ text_at path.now (view value.now) }
{
    found_at(value, path)?.as_str()
}

/// The integer at a path, from `i64::MIN` on.
pub(crate) fn integer_at(value: &Value, path: &str) -> Option<i64>
    ensures { result ≡ integer_at path.now (view value.now) }
{
    found_at(value, path)?.as_i64()
}

// The non-negative integer at a path.
fn count_at(value: &Value, path: &str) -> Option<usize>
    ensures { result ≡ count_at path.now (view value.now) }
{
    let count = found_at(value, path)?.as_u64()?;
    Some(count as usize)
}

// The items of a list, or none for another value.
fn items_in(value: &Value) -> &[Value]
    ensures { map view result.now ≡ items_of_list (as_array (view value.now)) }
{
    match value.as_array() {
        Some(list) => list.as_slice(),
        None => &[],
    }
}

/// The items of the list at a path.
pub(crate) fn items_at<'v>(value: &'v Value, path: &str) -> &'v [Value]
    ensures { map view result.now ≡ items_at path.now (view value.now) }
{
    match found_at(value, path) {
        Some(found) => items_in(found),
        None => &[],
    }
}

// Whether a value may be a request's id.
fn is_id(value: &Value) -> bool
    ensures { result ≡ is_id (view value.now) }
{
    value.is_string() || value.is_i64() || value.is_u64()
}

/// The id of a message, if it is a request.
pub(crate) fn id_of(value: &Value) -> Option<&Value>
    ensures { option_map (λ v. view v.now) result ≡ id_of (view value.now) }
{
    let id = found_at(value, "/id")?;
    if is_id(id) { Some(id) } else { None }
}

// Converts a position.
fn position_of(value: &Value) -> Option<Position>
    ensures { result ≡ position_of (view value.now) }
{
    Some(Position {
        line: count_at(value, "/line")?,
        column: count_at(value, "/character")?,
    })
}

// The position at a path.
fn position_at(value: &Value, path: &str) -> Option<Position>
    ensures { result ≡ option_and_then position_of (pointer path.now (view value.now)) }
{
    position_of(found_at(value, path)?)
}

// Converts a range.
fn region_of(value: &Value) -> Option<Region>
    ensures { result ≡ region_of (view value.now) }
{
    Some(Region {
        start: position_at(value, "/start")?,
        end: position_at(value, "/end")?,
    })
}

/// The range at a path.
pub(crate) fn region_at(value: &Value, path: &str) -> Option<Region>
    ensures { result ≡ region_at path.now (view value.now) }
{
    region_of(found_at(value, path)?)
}
