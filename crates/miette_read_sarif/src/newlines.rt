//! Where lines end, by a run's newline sequences.

ghost use Rattle.std.specs.Prelude.{◌≡◌, ◌≤◌, ◌++◌, [], IfOk, IfSome, IsTrue, OnOk, codes, find, length};
ghost use Rattle.std.specs.List.{cons_option, filter_map};
ghost use Rattle.std.specs.Option.{option_copied};
ghost use Rattle.serde_json.specs.View.{view};
ghost use Rattle.miette_read.specs.rules.Members.{member_items};
ghost use Rattle.miette_read.specs.views.Values.{texts, viewed};
ghost use Rattle.miette_read_sarif.specs.rules.Newlines.{end_size, nth_line_start, line_size, newlines_of, sequence_in};
ghost use Rattle.miette_read_sarif.specs.rules.Newlines.{stands_in, text_size, usual_newlines};

use crate::newline_sequences::{NewlineSequences, next_begin, rest_from};
use miette_read::lists::push_item;
use miette_read::members::member_items;
use serde_json::Value;
use std::alloc::{AllocError, Global};

/// Returns the run's list `newlineSequences`.
fn listed_in(run: &Value) -> &[Value]
    ensures { viewed result.now ≡ member_items (codes "newlineSequences") (view run.now) }
{
    member_items(run, "newlineSequences")
}

/// Returns the sequence, if it isn't empty.
fn sequence_in(item: &Value) -> Option<&str>
    ensures { option_copied result ≡ sequence_in (view item.now) }
{
    let sequence = item.as_str()?;
    if sequence.is_empty() {
        None
    } else {
        Some(sequence)
    }
}

/// Appends a sequence, if it isn't empty.
fn push_sequence<'v>(list: &mut Vec<&'v str>, item: &'v Value) -> Result<(), AllocError>
    ensures { OnOk result (texts list.new.items
        ≡ texts list.old.items ++ cons_option (sequence_in (view item.now)) []) }
{
    match sequence_in(item) {
        Some(sequence) => push_item(list, sequence),
        None => Ok(()),
    }
}

/// Returns the nonempty sequences.
fn sequences_in<'v>(alloc: Global, items: &'v [Value]) -> Result<Vec<&'v str>, AllocError>
    ensures { IfOk result (λ list. texts list.items ≡ filter_map sequence_in (viewed items.now)) }
{
    let mut list = Vec::new(alloc);
    for item in items {
        push_sequence(&mut list, item)?;
    }
    Ok(list)
}

/// Returns the default newline sequences: CR LF and LF.
fn usual_newlines<'v>(alloc: Global) -> Result<Vec<&'v str>, AllocError>
    ensures { IfOk result (λ list. texts list.items ≡ usual_newlines) }
{
    let mut list = Vec::new(alloc);
    push_item(&mut list, "\r\n")?;
    push_item(&mut list, "\n")?;
    Ok(list)
}

/// Returns the newline sequences of a run.
pub(crate) fn newlines_of<'v>(alloc: Global, run: &'v Value) -> Result<Vec<&'v str>, AllocError>
    ensures { IfOk result (λ list. texts list.items ≡ newlines_of (view run.now)) }
{
    let listed = sequences_in(alloc, listed_in(run))?;
    if listed.is_empty() {
        usual_newlines(alloc)
    } else {
        Ok(listed)
    }
}

/// Returns whether the bytes start with a sequence.
fn stands_in(bytes: &[u8], sequence: &str) -> bool
    ensures value { result ≡ stands_in bytes.now sequence.now }
    ensures within { IsTrue result → length sequence.now ≤ length bytes.now }
{
    bytes.starts_with(sequence.as_bytes())
}

/// Returns the first sequence with which the bytes start.
fn end_here<'n>(newlines: &[&'n str], bytes: &[u8]) -> Option<&'n str>
    ensures value { option_copied result ≡ find (stands_in bytes.now) (texts newlines.now) }
    ensures within { IfSome result (λ end. length end.now ≤ length bytes.now) }
{
    for sequence in newlines {
        let sequence = *sequence;
        if stands_in(bytes, sequence) {
            return Some(sequence);
        }
    }
    None
}

/// Returns the length of the newline at the start of the bytes, or 0.
fn end_size(ends: &NewlineSequences<'_>, bytes: &[u8]) -> usize
    ensures value { result ≡ end_size (texts ends.now.newlines.items) bytes.now }
    ensures within { result ≤ length bytes.now }
{
    match end_here(ends.newlines.as_slice(), bytes) {
        Some(end) => end.len(),
        None => 0,
    }
}

/// Returns the length of the first line's text, in bytes.
pub(crate) fn text_size(ends: &NewlineSequences<'_>, bytes: &[u8]) -> usize
    ensures value { result ≡ text_size (texts ends.now.newlines.items) bytes.now }
    ensures within { result ≤ length bytes.now }
{
    let mut at: usize = 0;
    while at < bytes.len() {
        let next = next_begin(ends, bytes, at);
        if next >= bytes.len() {
            return next;
        }
        let end = end_size(ends, rest_from(bytes, next));
        if end == 0 {
            at = next + 1;
        } else {
            return next;
        }
    }
    at
}

/// Returns the length of the first line with its newline, in bytes. Returns `None` if no line ends.
pub(crate) fn line_size(ends: &NewlineSequences<'_>, bytes: &[u8]) -> Option<usize>
    ensures value { result ≡ line_size (texts ends.now.newlines.items) bytes.now }
    ensures within { IfSome result (λ size. size ≤ length bytes.now) }
{
    let text = text_size(ends, bytes);
    let end = end_size(ends, rest_from(bytes, text));
    if end == 0 { None } else { Some(text + end) }
}

/// Returns the start of the line `lines` lines after the first one.
pub(crate) fn nth_line_start(
    ends: &NewlineSequences<'_>,
    bytes: &[u8],
    lines: usize,
) -> Option<usize>
    ensures value { result ≡ nth_line_start (texts ends.now.newlines.items) bytes.now 0 lines }
    ensures within { IfSome result (λ at. at ≤ length bytes.now) }
{
    let mut at: usize = 0;
    let mut left = lines;
    while left > 0 {
        match line_size(ends, rest_from(bytes, at)) {
            Some(size) => at += size,
            None => return None,
        }
        left -= 1;
    }
    Some(at)
}
