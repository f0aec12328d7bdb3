//! Accesses parsed JSON values by key and type.

ghost use Rattle.std.specs.Prelude.{◌≡◌, option_map};
ghost use Rattle.std.specs.Option.{option_copied};
ghost use Rattle.serde_json.specs.Find.{as_bool, as_str, as_array, get};
ghost use Rattle.miette_description.specs.rules.Members.{at_key, whole};
ghost use Rattle.miette_description.specs.steps.ParsedValues.{value_data, list_data};

use crate::numbers::natural_number;
use json::Value;

/// Returns the value at a key; it may be null.
fn found_at<'v, 'a>(value: &'v Value<'a>, key: &str) -> Option<&'v Value<'a>>
    ensures { option_map (λ v. value_data v.now) result ≡ get key.now (value_data value.now) }
{
    value.get(key)
}

/// Returns the value at a key. Null counts as absent.
pub(crate) fn member_at<'v, 'a>(value: &'v Value<'a>, key: &str) -> Option<&'v Value<'a>>
    ensures { option_map (λ v. value_data v.now) result ≡ at_key key.now (value_data value.now) }
{
    let found = found_at(value, key)?;
    if found.is_null() { None } else { Some(found) }
}

/// Returns the value if it is a string.
pub(crate) fn text_in<'a>(value: &Value<'a>) -> Option<&'a str>
    ensures { option_copied result ≡ as_str (value_data value.now) }
{
    value.as_str()
}

/// Returns the value if it is a boolean.
pub(crate) fn truth_in(value: &Value<'_>) -> Option<bool>
    ensures { result ≡ as_bool (value_data value.now) }
{
    value.as_bool()
}

/// Returns the value if it is a number that fits a `u64`.
pub(crate) fn whole_in(value: &Value<'_>) -> Option<u64>
    ensures { result ≡ whole (value_data value.now) }
{
    natural_number(value.as_number()?)
}

/// Returns the value if it is a list.
pub(crate) fn list_in<'v, 'a>(value: &'v Value<'a>) -> Option<&'v [Value<'a>]>
    ensures { option_map (λ list. list_data list.now) result ≡ as_array (value_data value.now) }
{
    match value {
        Value::Array(list) => Some(list.as_slice()),
        _ => None,
    }
}
