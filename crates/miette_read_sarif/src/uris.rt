//! The file names of URIs.

ghost use Rattle.std.specs.Prelude.{◌≡◌, IfOk, string_bytes};
ghost use Rattle.std.specs.Option.{option_copied};
ghost use Rattle.miette_read_sarif.specs.rules.Uris.{after_front, uri_file_name, path_of};

use percent_encoding::percent_decode_str;
use std::alloc::{AllocError, Global};
use std::borrow::CowStr;

/// Returns the text after a prefix.
pub(crate) fn after_front<'t>(text: &'t str, front: &str) -> Option<&'t str>
    ensures { option_copied result ≡ after_front front.now text.now }
{
    text.strip_prefix(front)
}

/// Returns the path of a `file:` URI. Returns any other URI as it is.
fn path_of(uri: &str) -> &str
    ensures { result.now ≡ path_of uri.now }
{
    if let Some(path) = after_front(uri, "file://") {
        return path;
    }
    match after_front(uri, "file:") {
        Some(path) => path,
        None => uri,
    }
}

/// Returns the file name of a URI: its path with escapes decoded.
///
/// # Errors
/// `AllocError` if allocation fails.
pub(crate) fn uri_file_name(alloc: Global, uri: &str) -> Result<String, AllocError>
    ensures { IfOk result (λ name. string_bytes name ≡ uri_file_name uri.now) }
{
    match percent_decode_str(path_of(uri)).decode_utf8_lossy(alloc)? {
        CowStr::Borrowed(name) => String::from_str(alloc, name),
        CowStr::Owned(name) => Ok(name),
    }
}
