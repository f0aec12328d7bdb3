//! The known settings, and where they are.

use miette::prelude::Piece;
use std::alloc::{AllocError, Global};
use strsim::levenshtein;
use toml::{Table, Value};

/// The known keys.
const KEYS: [&str; 3] = ["host", "port", "workers"];

/// The most edits between a key and a similar known one, in characters.
const EDITS: usize = 2;

/// Returns whether a key is known.
pub fn is_known(key: &str) -> bool {
    KEYS.contains(&key)
}

/// Returns the port, a number from 1 to 65535.
pub fn port_of(table: &Table) -> Option<i64> {
    match table.get("port") {
        Some(Value::Integer(port)) if 1 <= *port && *port <= 65535 => Some(*port),
        _ => None,
    }
}

/// Returns the first known key that both texts set, and its line in each.
pub fn set_twice(
    text: &str,
    other: &str,
) -> Option<(&'static str, (usize, usize), (usize, usize))> {
    for key in KEYS {
        if let (Some(line), Some(again)) = (line_of(text, key), line_of(other, key)) {
            return Some((key, line, again));
        }
    }
    None
}

/// Returns the most similar known key, if it is within `EDITS` edits.
pub fn nearest_key(alloc: Global, key: &str) -> Result<Option<&'static str>, AllocError> {
    let mut found = None;
    let mut least = EDITS + 1;
    for known in KEYS {
        let edits = levenshtein(alloc, key, known)?;
        if edits < least {
            least = edits;
            found = Some(known);
        }
    }
    Ok(found)
}

/// Returns the offset and length of a key on its line, in bytes.
pub fn key_in(text: &str, key: &str) -> Option<(usize, usize)> {
    let (start, length) = line_of(text, key)?;
    let line = text.get(start..start.saturating_add(length))?;
    let blanks = line.len().saturating_sub(line.trim_start().len());
    Some((start.saturating_add(blanks), key.len()))
}

/// Returns the offset and length of the line that sets a key, in bytes.
pub fn line_of(text: &str, key: &str) -> Option<(usize, usize)> {
    for line in Piece::lines(text) {
        let found = line.text.split('=').next().unwrap_or("");
        if found.trim() == key {
            return Some((line.start, line.text.trim_end().len()));
        }
    }
    None
}
