//! A run's newline sequences, and a fast search for them.

ghost use Rattle.std.specs.Prelude.{◌≡◌, ◌≤◌, ◌+◌, ◌-◌, drop, length};
ghost use Rattle.std.specs.List.{list_all};
ghost use Rattle.memchr.specs.Find.{is_byte3};
ghost use Rattle.miette_read.specs.views.Values.{texts};
ghost use Rattle.miette_read_sarif.specs.rules.Newlines.{text_size};
ghost use Rattle.miette_read_sarif.specs.views.Begins.{IsNoneBefore, begins_by};

use memchr::memchr3;

/// The newline sequences of a run's files, and up to three bytes with which they start.
///
/// `skips` holds if every sequence starts with one of these bytes. Then a search skips to the next such byte. A run has
/// one of these.
#[derive(Drop)]
pub(crate) struct NewlineSequences<'v> {
    pub(crate) newlines: Vec<&'v str>,
    one: u8,
    two: u8,
    three: u8,
    skips: bool,
    ghost begin: { skips ≡ list_all (begins_by (is_byte3 one two three)) (texts newlines.items) },
}

/// Returns the bytes from an offset on.
pub(crate) fn rest_from(bytes: &[u8], at: usize) -> &[u8]
    requires { at ≤ length bytes.now }
    ensures { result.now ≡ drop at bytes.now }
{
    &bytes[at..]
}

/// Returns the first byte of a sequence that starts with neither `one` nor `two`, or `two` if there is none.
///
/// Three calls find the first bytes of all sequences in the logs that we know. No clause promises that.
fn other_begin(newlines: &[&str], one: u8, two: u8) -> u8 {
    for sequence in newlines {
        let sequence = *sequence;
        match sequence.as_bytes().first() {
            Some(byte) if *byte != one && *byte != two => return *byte,
            _ => (),
        }
    }
    two
}

/// Returns whether a sequence starts with one of these bytes.
fn begins_by(sequence: &str, one: u8, two: u8, three: u8) -> bool
    ensures { result ≡ begins_by (is_byte3 one two three) sequence.now }
{
    match sequence.as_bytes().first() {
        Some(byte) => *byte == one || *byte == two || *byte == three,
        None => false,
    }
}

/// Returns whether every sequence starts with one of these bytes.
fn all_begin(newlines: &[&str], one: u8, two: u8, three: u8) -> bool
    ensures { result ≡ list_all (begins_by (is_byte3 one two three)) (texts newlines.now) }
{
    for sequence in newlines {
        let sequence = *sequence;
        if !begins_by(sequence, one, two, three) {
            return false;
        }
    }
    true
}

/// Returns the number of bytes before the first one of these.
fn bytes_before(bytes: &[u8], one: u8, two: u8, three: u8) -> usize
    ensures none { IsNoneBefore (is_byte3 one two three) bytes.now result }
    ensures within { result ≤ length bytes.now }
{
    match memchr3(one, two, three, bytes) {
        Some(place) => place,
        None => bytes.len(),
    }
}

/// Prepares the search for these sequences.
pub(crate) fn newline_sequences_of<'v>(newlines: Vec<&'v str>) -> NewlineSequences<'v>
    ensures { texts result.newlines.items ≡ texts newlines.entry.items }
{
    let one = other_begin(newlines.as_slice(), 0, 0);
    let two = other_begin(newlines.as_slice(), one, one);
    let three = other_begin(newlines.as_slice(), one, two);
    let skips = all_begin(newlines.as_slice(), one, two, three);
    NewlineSequences {
        newlines,
        one,
        two,
        three,
        skips,
    }
}

/// Returns an offset at or after `at` such that no line ends before it.
pub(crate) fn next_begin(ends: &NewlineSequences<'_>, bytes: &[u8], at: usize) -> usize
    requires { at ≤ length bytes.now }
    ensures value { text_size (texts ends.now.newlines.items) (drop at bytes.now)
        ≡ (result - at) + text_size (texts ends.now.newlines.items) (drop result bytes.now) }
    ensures order { at ≤ result }
    ensures within { result ≤ length bytes.now }
{
    if !ends.skips {
        return at;
    }
    at + bytes_before(rest_from(bytes, at), ends.one, ends.two, ends.three)
}
