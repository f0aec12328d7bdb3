//! Names of sources, and addresses, as URIs (RFC 3986).

ghost use Rattle.std.specs.Prelude.{◌≡◌, ◌==◌, ◌&&◌, ◌++◌, [], ◌∷◌, take, drop, IfOk, OnOk, string_bytes, position};
ghost use Rattle.std.specs.Prelude.{if◌then◌else◌};
ghost use Rattle.std.specs.Option.{option_copied};
ghost use Rattle.percent_encoding.specs.Percent.{percent_encode};
ghost use Rattle.miette_sarif.specs.declared.uri.TheConstants.{ADDRESS};
ghost use Rattle.miette_sarif.specs.rules.Uris.{address_uri, after_scheme, after_scheme_bytes, begins_with_hex};
ghost use Rattle.miette_sarif.specs.rules.Uris.{begins_with_slash, begins_with_slashes, has_authority};
ghost use Rattle.miette_sarif.specs.rules.Uris.{is_absolute_uri, is_scheme_byte};
ghost use Rattle.miette_sarif.specs.rules.Uris.{name_uri, path_uri};

use percent_encoding::{AsciiSet, NON_ALPHANUMERIC, ascii_set, percent_encode};
use std::alloc::{AllocError, Global};

/// Bytes that are escaped in a path segment: all except unreserved characters, `/`, sub-delimiters and `@`.
pub const SEGMENT: AsciiSet = ascii_set!(
    NON_ALPHANUMERIC
        .remove(b'-')
        .remove(b'.')
        .remove(b'_')
        .remove(b'~')
        .remove(b'/')
        .remove(b'!')
        .remove(b'$')
        .remove(b'&')
        .remove(b'\'')
        .remove(b'(')
        .remove(b')')
        .remove(b'*')
        .remove(b'+')
        .remove(b',')
        .remove(b';')
        .remove(b'=')
        .remove(b'@')
);

/// Bytes that are escaped in a path: the same, except `:`.
pub const PATH: AsciiSet = ascii_set!(SEGMENT.remove(b':'));

/// Bytes that are escaped in an address: those that no URI may have, and `%`.
pub const ADDRESS: AsciiSet = ascii_set!(PATH.remove(b'?').remove(b'#').remove(b'[').remove(b']'));

fn is_scheme_byte(byte: u8) -> bool
    ensures { result ≡ is_scheme_byte byte }
{
    byte.is_ascii_alphanumeric() || byte == b'+' || byte == b'-' || byte == b'.'
}

// Returns the bytes after the `:` of a scheme. The scheme's first letter is already skipped.
fn after_scheme_bytes(bytes: &[u8]) -> Option<&[u8]>
    ensures { option_copied result ≡ after_scheme_bytes bytes.now }
{
    let mut rest = bytes;
    while let Some((first, more)) = rest.split_first() {
        if *first == b':' {
            return Some(more);
        }
        if !is_scheme_byte(*first) {
            return None;
        }
        rest = more;
    }
    None
}

// Returns the bytes after the `:` of a scheme, or `None` if there is no scheme.
fn after_scheme(bytes: &[u8]) -> Option<&[u8]>
    ensures { option_copied result ≡ after_scheme bytes.now }
{
    let (first, rest) = bytes.split_first()?;
    if !first.is_ascii_alphabetic() {
        return None;
    }
    after_scheme_bytes(rest)
}

/// Whether a text is an absolute URI: it begins with a scheme and `:`.
pub fn is_absolute_uri(text: &str) -> bool
    ensures { result ≡ is_absolute_uri text.now }
{
    after_scheme(text.as_bytes()).is_some()
}

// Whether bytes begin with `//`.
fn begins_with_slashes(bytes: &[u8]) -> bool
    ensures { result ≡ begins_with_slashes bytes.now }
{
    match bytes {
        [a, b, ..] => *a == b'/' && *b == b'/',
        _ => false,
    }
}

// Whether a text begins with a scheme and `://`.
fn has_authority(text: &str) -> bool
    ensures { result ≡ has_authority text.now }
{
    match after_scheme(text.as_bytes()) {
        Some(rest) => begins_with_slashes(rest),
        None => false,
    }
}

// Whether bytes begin with two hexadecimal digits.
fn begins_with_hex(bytes: &[u8]) -> bool
    ensures { result ≡ begins_with_hex bytes.now }
{
    match bytes {
        [a, b, ..] => a.is_ascii_hexdigit() && b.is_ascii_hexdigit(),
        _ => false,
    }
}

// Appends bytes. Those in the set and those outside ASCII are percent-encoded.
fn push_encoded(out: &mut String, bytes: &[u8], set: AsciiSet) -> Result<(), AllocError>
    ensures { OnOk result (string_bytes out.new ≡ string_bytes out.old ++ percent_encode set bytes.now) }
{
    percent_encode(bytes, set).append_to(out)
}

// Appends a byte of an address, percent-encoded if no URI may have it. A `%` that begins an escape is kept.
fn push_byte(out: &mut String, byte: u8, after: &[u8]) -> Result<(), AllocError>
    ensures { OnOk result (string_bytes out.new ≡ string_bytes out.old
        ++ (if (byte == 37) && begins_with_hex after.now then byte ∷ [] else percent_encode ADDRESS (byte ∷ []))) }
{
    if byte == b'%' && begins_with_hex(after) {
        return out.push_str("%");
    }
    push_encoded(out, &[byte], ADDRESS)
}

/// Appends an address as a URI. Bytes that no URI may have are percent-encoded. Existing escapes are kept.
pub(crate) fn push_address(out: &mut String, address: &str) -> Result<(), AllocError>
    ensures { OnOk result (string_bytes out.new ≡ string_bytes out.old ++ address_uri address.now) }
{
    let mut rest = address.as_bytes();
    while let Some((first, more)) = rest.split_first() {
        push_byte(out, *first, more)?;
        rest = more;
    }
    Ok(())
}

// Index of the first `/`.
fn first_slash(bytes: &[u8]) -> Option<usize>
    ensures { result ≡ position (λ x. x == 47) bytes.now }
{
    bytes.iter().position(|b| *b == b'/')
}

// Appends a path. A `:` is kept after the first `/`.
fn push_path(out: &mut String, path: &str) -> Result<(), AllocError>
    ensures { OnOk result (string_bytes out.new ≡ string_bytes out.old ++ path_uri path.now) }
{
    let bytes = path.as_bytes();
    let Some(at) = first_slash(bytes) else {
        return push_encoded(out, bytes, SEGMENT);
    };
    push_encoded(out, &bytes[..at], SEGMENT)?;
    push_encoded(out, &bytes[at..], PATH)
}

fn begins_with_slash(bytes: &[u8]) -> bool
    ensures { result ≡ begins_with_slash bytes.now }
{
    match bytes {
        [first, ..] => *first == b'/',
        _ => false,
    }
}

// Appends a name as a URI.
fn push_name(out: &mut String, name: &str) -> Result<(), AllocError>
    ensures { OnOk result (string_bytes out.new ≡ string_bytes out.old ++ name_uri name.now) }
{
    if has_authority(name) {
        return push_address(out, name);
    }
    if begins_with_slash(name.as_bytes()) {
        out.push_str("file://")?;
    }
    push_path(out, name)
}

/// Converts a source name to a URI. A name with a scheme and `://` is an address. A name that begins with `/` becomes a
/// `file` URI. Any other name is a relative path.
pub(crate) fn name_uri(alloc: Global, name: &str) -> Result<String, AllocError>
    ensures { IfOk result (λ uri. string_bytes uri ≡ name_uri name.now) }
{
    let mut uri = String::new(alloc);
    push_name(&mut uri, name)?;
    Ok(uri)
}

/// Converts an address to a URI.
pub fn address_uri(alloc: Global, address: &str) -> Result<String, AllocError>
    ensures { IfOk result (λ uri. string_bytes uri ≡ address_uri address.now) }
{
    let mut uri = String::new(alloc);
    push_address(&mut uri, address)?;
    Ok(uri)
}
