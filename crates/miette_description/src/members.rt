//! Reads members of a description by type.

ghost use Rattle.std.specs.Prelude.{◌≡◌, ◌≤◌, ℕ, Option, Some, None, option_map};
ghost use Rattle.std.specs.Option.{option_copied};
ghost use Rattle.serde_json.specs.Find.{as_bool, as_str};
ghost use Rattle.miette_description.specs.steps.ParsedValues.{value_data};
ghost use Rattle.miette_description.specs.rules.Members.{and_then, at_key, optional_value, whole, context_lines_in};

use crate::json_values::{member_at, text_in, truth_in, whole_in};
use json::Value;

/// Returns an optional string. Returns `None` if the value isn't a string.
pub(crate) fn text_at<'a>(value: &Value<'a>, key: &str) -> Option<Option<&'a str>>
    ensures { option_map option_copied result ≡ optional_value as_str (at_key key.now (value_data value.now)) }
{
    match member_at(value, key) {
        None => Some(None),
        Some(found) => Some(Some(text_in(found)?)),
    }
}

/// Returns a required string.
pub(crate) fn needed_text_at<'a>(value: &Value<'a>, key: &str) -> Option<&'a str>
    ensures { option_copied result ≡ and_then (at_key key.now (value_data value.now)) as_str }
{
    text_in(member_at(value, key)?)
}

/// Returns a required number.
pub(crate) fn whole_at(value: &Value<'_>, key: &str) -> Option<u64>
    ensures { result ≡ and_then (at_key key.now (value_data value.now)) whole }
{
    whole_in(member_at(value, key)?)
}

/// Returns an optional boolean.
pub(crate) fn truth_at(value: &Value<'_>, key: &str) -> Option<Option<bool>>
    ensures { result ≡ optional_value as_bool (at_key key.now (value_data value.now)) }
{
    match member_at(value, key) {
        None => Some(None),
        Some(found) => Some(Some(truth_in(found)?)),
    }
}

/// Returns an optional number of context lines. Returns `None` if the value isn't a number of at least 1.
pub(crate) fn lines_at(value: &Value<'_>, key: &str) -> Option<Option<u64>>
    ensures read { result ≡ optional_value context_lines_in (at_key key.now (value_data value.now)) }
    ensures positive { (n : ℕ) → result ≡ Some (Some n) → 1 ≤ n }
{
    match member_at(value, key) {
        None => Some(None),
        Some(found) => match whole_in(found) {
            None | Some(0) => None,
            Some(lines) => Some(Some(lines)),
        },
    }
}
