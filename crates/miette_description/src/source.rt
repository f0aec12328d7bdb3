//! Reads the source of a description. It gets a line index if it is read often.

ghost use Rattle.std.specs.Prelude.{◌≡◌, Some, None, IfOk, is_some, nat_lt, option_map};
ghost use Rattle.std.specs.Option.{option_copied};
ghost use Rattle.serde_json.specs.Find.{as_array};
ghost use Rattle.miette_protocol.specs.rules.Reading.{plain_source, named_source};
ghost use Rattle.miette_tree.specs.views.Owned.{owned_source};
ghost use Rattle.miette_description.specs.rules.Members.{at_key, optional_value, described_source};
ghost use Rattle.miette_description.specs.steps.IndexNeeds.{needs_index, items_at, items_in};
ghost use Rattle.miette_description.specs.steps.ParsedValues.{value_data};

use crate::error::{BuildError, BuildResult};
use crate::json_values::{list_in, member_at};
use crate::members::{needed_text_at, text_at};
use crate::parts::or_bad_description;
use json::Value;
use miette_tree::report::OwnedSource;
use std::alloc::{AllocError, Global};

/// Whether a key is present.
fn has(value: &Value<'_>, key: &str) -> bool
    ensures { result ≡ is_some (at_key key.now (value_data value.now)) }
{
    match member_at(value, key) {
        Some(_) => true,
        None => false,
    }
}

/// Returns the length of a list, or 0 for other values.
fn items_in(found: &Value<'_>) -> usize
    ensures { result ≡ items_in (as_array (value_data found.now)) }
{
    match list_in(found) {
        Some(list) => list.len(),
        None => 0,
    }
}

/// Returns the length of the list at a key.
fn items_at(value: &Value<'_>, key: &str) -> usize
    ensures { result ≡ items_at (at_key key.now (value_data value.now)) }
{
    match member_at(value, key) {
        Some(found) => items_in(found),
        None => 0,
    }
}

/// Whether there is a list of more than `few` items at a key.
fn has_more(value: &Value<'_>, key: &str, few: usize) -> bool
    ensures { result ≡ nat_lt few (items_at (at_key key.now (value_data value.now))) }
{
    items_at(value, key) > few
}

/// This many labels are read without an index: each scans its own lines, and all together the lines before.
const FEW: usize = 4;

/// Whether the source of a description is read often: for many labels, which may share a long line; or for related
/// reports, a cause or fixes, which may be anywhere in it.
pub(crate) fn needs_index(value: &Value<'_>) -> bool
    ensures { result ≡ needs_index (value_data value.now) }
{
    has_more(value, "labels", FEW)
        || has_more(value, "related", 0)
        || has(value, "cause")
        || has_more(value, "fixes", 0)
}

/// Creates a source without a name.
fn nameless(alloc: Global, bytes: Vec<u8>, often: bool) -> Result<OwnedSource, AllocError>
    ensures { IfOk result (λ it. owned_source it ≡ plain_source bytes.items) }
{
    if often {
        return OwnedSource::new(alloc, bytes);
    }
    OwnedSource::unindexed(alloc, bytes)
}

/// Creates a source with a name.
fn named(
    alloc: Global,
    name: &str,
    language: Option<&str>,
    bytes: Vec<u8>,
    often: bool,
) -> Result<OwnedSource, AllocError>
    ensures { IfOk result (λ it. owned_source it
        ≡ named_source (plain_source bytes.items) name.now (option_copied language.entry)) }
{
    if often {
        return OwnedSource::named(alloc, name, language, bytes);
    }
    OwnedSource::named_unindexed(alloc, name, language, bytes)
}

/// Reads a source. It gets a line index if it is read `often`.
pub(crate) fn source_from(alloc: Global, value: &Value<'_>, often: bool) -> BuildResult<OwnedSource>
    ensures ok { IfOk result (λ s. described_source (value_data value.now) ≡ Some (owned_source s)) }
    ensures description { (result ≡ Err BuildError.Description) → described_source (value_data value.now) ≡ None }
{
    let text = or_bad_description(needed_text_at(value, "text"))?;
    let name = or_bad_description(text_at(value, "name"))?;
    let language = or_bad_description(text_at(value, "language"))?;
    let Ok(bytes) = Vec::from_slice(alloc, text.as_bytes()) else {
        return Err(BuildError::Memory);
    };
    match name {
        Some(name) => Ok(named(alloc, name, language, bytes, often)?),
        None => Ok(nameless(alloc, bytes, often)?),
    }
}

/// Reads the source at a key of a report or of further labels, if there is one.
pub(crate) fn source_at(
    alloc: Global,
    value: &Value<'_>,
    key: &str,
) -> BuildResult<Option<OwnedSource>>
    ensures ok { IfOk result (λ o. optional_value described_source (at_key key.now (value_data value.now))
        ≡ Some (option_map owned_source o)) }
    ensures description { (result ≡ Err BuildError.Description) →
        optional_value described_source (at_key key.now (value_data value.now)) ≡ None }
{
    let Some(found) = member_at(value, key) else {
        return Ok(None);
    };
    Ok(Some(source_from(alloc, found, needs_index(value))?))
}
