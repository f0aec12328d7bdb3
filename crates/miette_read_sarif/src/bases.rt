//! The files of artifact locations, and the bases of relative URIs.

ghost use Rattle.std.specs.Prelude.{◌≡◌, ◌-◌, ◌==◌, ◌||◌, IfOk, length, option_map, slice_index, string_bytes};
ghost use Rattle.serde_json.specs.View.{view};
ghost use Rattle.miette_read_sarif.specs.rules.Bases.{after_base, base_of, base_uri, bases_of, file_name};
ghost use Rattle.miette_read_sarif.specs.rules.Bases.{has_scheme, in_folder, is_absolute_uri, own_uri};

use crate::uris::uri_file_name;
use miette_read::members::{member_object, member_text};
use serde_json::Value;
use std::alloc::{AllocError, Global};

/// The most bases that are followed from one location.
const MOST_BASES: usize = 16;

/// Returns whether a URI has a scheme: a `:` before the first `/`.
fn has_scheme(uri: &[u8]) -> bool
    ensures { result ≡ has_scheme uri.now }
{
    for byte in uri {
        if *byte == b':' {
            return true;
        }
        if *byte == b'/' {
            return false;
        }
    }
    false
}

/// Returns whether a URI has no base.
fn is_absolute_uri(uri: &[u8]) -> bool
    ensures { result ≡ is_absolute_uri uri.now }
{
    (!uri.is_empty() && uri[0] == b'/') || has_scheme(uri)
}

/// Returns a URI after the prefix of its base.
fn after_base(alloc: Global, base: String, uri: &str) -> Result<String, AllocError>
    ensures { IfOk result (λ full. string_bytes full ≡ after_base (string_bytes base) uri.now) }
{
    if is_absolute_uri(uri.as_bytes()) {
        return String::from_str(alloc, uri);
    }
    let mut full = base;
    full.push_str(uri)?;
    Ok(full)
}

/// Returns whether a URI is empty or ends with `/`.
fn is_folder(uri: &[u8]) -> bool
    ensures { result ≡ (length uri.now == 0) || (slice_index uri.now (length uri.now - 1) == 47) }
{
    uri.is_empty() || uri[uri.len() - 1] == b'/'
}

/// Returns the prefix of URIs in a folder. It ends with `/`, and is empty for the root.
fn in_folder(uri: String) -> Result<String, AllocError>
    ensures { IfOk result (λ full. string_bytes full ≡ in_folder (string_bytes uri)) }
{
    let mut full = uri;
    if !is_folder(full.as_bytes()) {
        full.push_str("/")?;
    }
    Ok(full)
}

/// Returns a location's own URI, or an empty text.
fn own_uri(location: &Value) -> &str
    ensures { result.now ≡ own_uri (view location.now) }
{
    member_text(location, "uri").unwrap_or("")
}

/// Returns the locations of a run's bases by id.
pub(crate) fn bases_of(run: &Value) -> Option<&Value>
    ensures { option_map (λ v. view v.now) result ≡ bases_of (view run.now) }
{
    member_object(run, "originalUriBaseIds")
}

/// Returns the location of a location's base.
fn base_of<'v>(bases: Option<&'v Value>, location: &Value) -> Option<&'v Value>
    ensures { option_map (λ v. view v.now) result
        ≡ base_of (option_map (λ v. view v.now) bases.entry) (view location.now) }
{
    let id = member_text(location, "uriBaseId")?;
    member_object(bases?, id)
}

/// Returns the prefix of URIs relative to a base. At most `most` bases are followed.
#[tactic(auto, unfolding(crate::specs::rules::Bases::base_uri))]
fn base_uri(
    alloc: Global,
    most: usize,
    bases: Option<&Value>,
    base: Option<&Value>,
) -> Result<String, AllocError>
    ensures { IfOk result (λ uri. string_bytes uri ≡ base_uri most (option_map (λ v. view v.now) bases.entry)
        (option_map (λ v. view v.now) base.entry)) }
{
    if most == 0 {
        return Ok(String::new(alloc));
    }
    let Some(base) = base else {
        return Ok(String::new(alloc));
    };
    let front = base_uri(alloc, most - 1, bases, base_of(bases, base))?;
    let uri = after_base(alloc, front, own_uri(base))?;
    in_folder(uri)
}

/// Returns the file name of a location.
///
/// # Errors
/// `AllocError` if allocation fails.
pub(crate) fn file_name(
    alloc: Global,
    bases: Option<&Value>,
    location: &Value,
) -> Result<String, AllocError>
    ensures { IfOk result (λ name. string_bytes name
        ≡ file_name (option_map (λ v. view v.now) bases.entry) (view location.now)) }
{
    let base = base_uri(alloc, MOST_BASES, bases, base_of(bases, location))?;
    let uri = after_base(alloc, base, own_uri(location))?;
    uri_file_name(alloc, uri.as_str())
}
