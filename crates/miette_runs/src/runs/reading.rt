//! Reads texts into runs, and prints runs.

ghost use Rattle.std.specs.Prelude.{◌≡◌, IfOk, chars, encode_utf8_all, string_bytes, true};
ghost use Rattle.miette_runs.specs.rules.Sequences.{are_canonical, is_whole, spell, tokens};
ghost use Rattle.miette_style.specs.rules.Escapes.{no_escape};
ghost use Rattle.miette_runs.specs.views.Interleaving.{sign_text, interleaving};
ghost use Rattle.miette_runs.specs.rules.Cells.{printed_columns};
ghost use Rattle.miette_runs.specs.steps.WholeTags.{are_whole};

use crate::runs::cells::push_runs_slice;
use crate::runs::columns::token_columns;
use crate::runs::sequences::{sequence_at, stays_open};
use crate::runs::sign::{Sign, Tag};
use crate::runs::{Runs, RunsSlice, is_whole};
use std::alloc::{AllocError, Global};

// Returns a character for each byte.
fn byte_codes(alloc: Global, bytes: &[u8]) -> Result<Vec<char>, AllocError>
    ensures { IfOk result (λ v. v.items ≡ bytes.now) }
{
    let mut codes = Vec::with_capacity(alloc, bytes.len())?;
    for byte in bytes {
        codes.push(char::from(*byte))?;
    }
    Ok(codes)
}

// Returns the characters of a text. ASCII takes a fast path.
fn codes_of(alloc: Global, text: &str) -> Result<Vec<char>, AllocError>
    ensures { IfOk result (λ v. v.items ≡ chars text.now) }
{
    if text.is_ascii() {
        return byte_codes(alloc, text.as_bytes());
    }
    text.chars().collect(alloc)
}

fn has_no_escape(codes: &[char]) -> bool
    ensures { result ≡ no_escape codes.now }
{
    for code in codes {
        if *code == '\u{1B}' {
            return false;
        }
    }
    true
}

// Splits a text into characters and escape sequences.
fn cut(alloc: Global, codes: &[char]) -> Result<Runs, AllocError>
    ensures { IfOk result (λ r. r ≡ tokens codes.now) }
{
    let mut found = Runs::new(alloc);
    let mut i: usize = 0;
    let mut unfinished = false;
    'rest: while i < codes.len() {
        let len = sequence_at(codes, i, unfinished);
        if len == 0 {
            found.push(codes[i])?;
            unfinished = stays_open(codes, i, unfinished);
            i += 1;
        } else {
            found.push_codes_as_sign(&codes[i..i + len])?;
            i += len;
        }
    }
    Ok(found)
}

/// Reads characters into runs. Each complete escape sequence becomes a sign.
///
/// # Errors
/// `AllocError` if allocation fails. The characters are then dropped.
pub fn read(alloc: Global, codes: Vec<char>) -> Result<Runs, AllocError>
    ensures tokens { IfOk result (λ r. r ≡ tokens codes.items) }
    ensures text { IfOk result (λ r. spell r ≡ codes.items) }
{
    if has_no_escape(&codes) {
        return Ok(Runs::of_characters(alloc, codes));
    }
    cut(alloc, &codes)
}

/// Reads a text into runs.
///
/// # Errors
/// `AllocError` if allocation fails.
pub fn parse_text(alloc: Global, text: &str) -> Result<Runs, AllocError>
    ensures tokens { IfOk result (λ r. r ≡ tokens (chars text.now)) }
    ensures text { IfOk result (λ r. spell r ≡ chars text.now) }
{
    let codes = codes_of(alloc, text)?;
    read(alloc, codes)
}

// Whether a sign prints exactly one complete escape sequence.
fn is_whole_sign(sign: &Sign) -> bool
    ensures { result ≡ is_whole (sign_text sign.now) }
{
    match sign {
        Sign::Begin(_) | Sign::End => true,
        Sign::Sequence(codes) => is_whole(codes),
    }
}

fn are_whole(tags: &[Tag]) -> bool
    ensures { result ≡ are_whole tags.now }
{
    for tag in tags {
        if !is_whole_sign(&tag.sign) {
            return false;
        }
    }
    true
}

/// Whether the printed runs certainly read as the same runs. False means unknown.
pub fn is_canonical(runs: RunsSlice<'_>) -> bool
    ensures same { result ≡ true → tokens (spell (interleaving 0 runs.entry.codes.now runs.entry.tags.now))
        ≡ interleaving 0 runs.entry.codes.now runs.entry.tags.now }
    ensures exact { result ≡ are_canonical (interleaving 0 runs.entry.codes.now runs.entry.tags.now) }
{
    has_no_escape(runs.codes) && are_whole(runs.tags)
}

/// Returns the runs that the printed runs read as.
///
/// # Errors
/// `AllocError` if allocation fails.
pub fn reparse(alloc: Global, runs: &Runs) -> Result<Runs, AllocError>
    ensures { IfOk result (λ r. r ≡ tokens (spell runs.now)) }
{
    let text = print(alloc, runs)?;
    parse_text(alloc, text.as_str())
}

/// Prints runs to a text.
///
/// # Errors
/// `AllocError` if allocation fails.
pub fn print(alloc: Global, runs: &Runs) -> Result<String, AllocError>
    ensures { IfOk result (λ s. string_bytes s ≡ encode_utf8_all (spell runs.now)) }
{
    let parts = runs.parts();
    let mut text = String::with_capacity(alloc, parts.codes.len())?;
    push_runs_slice(&mut text, parts)?;
    Ok(text)
}

/// Returns the width of printed runs in columns.
///
/// # Errors
/// `AllocError` if allocation fails, or if the width exceeds `usize::MAX`.
pub fn printed_columns(alloc: Global, runs: &Runs) -> Result<usize, AllocError>
    ensures { IfOk result (λ n. n ≡ printed_columns (tokens (spell runs.now))) }
{
    let parts = runs.parts();
    if is_canonical(parts) {
        return token_columns(parts);
    }
    let again = reparse(alloc, runs)?;
    token_columns(again.parts())
}
