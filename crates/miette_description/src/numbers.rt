//! Integers in JSON, and whether a text has numbers that fit neither `u64` nor `i64`.

ghost use Rattle.std.specs.Prelude.{◌≡◌, ◌==◌, length, slice_index, IsTrue, ◌<◌};
ghost use Rattle.json.specs.Value.{value_view, items_view, members_view};
ghost use Rattle.serde_json.specs.Find.{as_u64};
ghost use Rattle.serde_json.specs.View.{view, items_view as list_view, members_view as map_view};
ghost use Rattle.serde_json.specs.Written.{has_float, items_have_float, members_have_float};
ghost use Rattle.miette_description.specs.steps.ParsedValues.{number_data, is_integral, are_integral, have_integral};

use fast_float::Numeral;
use serde_json::Map;

/// Parses a `u64` without point and exponent.
pub(crate) fn natural_number(text: &str) -> Option<u64>
    ensures { result ≡ as_u64 (number_data text.now) }
{
    let bytes = text.as_bytes();
    if has_minus(bytes) {
        None
    } else {
        Numeral::scan(bytes).to_u64()
    }
}

fn has_minus(bytes: &[u8]) -> bool
    ensures value { result ≡ (slice_index bytes.now 0 == 45) }
    ensures len { IsTrue result → 0 < length bytes.now }
{
    !bytes.is_empty() && bytes[0] == b'-'
}

/// Whether all numbers in a parsed text are `u64`.
#[cycle(integers)]
pub(crate) fn is_whole(value: &json::Value<'_>) -> bool
    ensures { result ≡ is_integral (value_view value.now) }
{
    match value {
        json::Value::Number(text) => natural_number(text).is_some(),
        json::Value::Array(list) => are_whole(list),
        json::Value::Object(members) => have_whole(members),
        json::Value::Null => true,
        json::Value::Bool(_) => true,
        json::Value::String(_) => true,
    }
}

#[cycle(integers)]
fn are_whole(list: &Vec<json::Value<'_>>) -> bool
    ensures { result ≡ are_integral (items_view list.now.items) }
{
    for value in list {
        if !is_whole(value) {
            return false;
        }
    }
    true
}

#[cycle(integers)]
fn have_whole(members: &Vec<(&str, json::Value<'_>)>) -> bool
    ensures { result ≡ have_integral (members_view members.now.items) }
{
    for member in members {
        if !is_whole(&member.1) {
            return false;
        }
    }
    true
}

/// Whether a value contains a number that is neither a `u64` nor an `i64`, at any depth.
#[cycle(numbers)]
pub(crate) fn value_has_float(value: &serde_json::Value) -> bool
    ensures { result ≡ has_float (view value.now) }
{
    match value {
        serde_json::Value::Number(number) => number.is_f64(),
        serde_json::Value::Array(list) => list_has_float(list),
        serde_json::Value::Object(members) => map_has_float(members),
        serde_json::Value::Null => false,
        serde_json::Value::Bool(_) => false,
        serde_json::Value::String(_) => false,
    }
}

#[cycle(numbers)]
fn list_has_float(list: &Vec<serde_json::Value>) -> bool
    ensures { result ≡ items_have_float (list_view list.now.items) }
{
    for value in list {
        if value_has_float(value) {
            return true;
        }
    }
    false
}

#[cycle(numbers)]
fn map_has_float(members: &Map<String, serde_json::Value>) -> bool
    ensures { result ≡ members_have_float (map_view members.now.entries) }
{
    for (_key, member) in members.iter() {
        if value_has_float(member) {
            return true;
        }
    }
    false
}
