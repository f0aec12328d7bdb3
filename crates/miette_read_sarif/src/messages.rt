//! The texts of messages as they are shown: placeholders are replaced by arguments, double braces are single, and links
//! are their texts.

ghost use Rattle.std.specs.Prelude.{◌≡◌, ◌<◌, IfOk, drop, false, length, position, slice_index, string_bytes, true};
ghost use Rattle.std.specs.Option.{option_copied};
ghost use Rattle.std.specs.Str.Parse.{AllDigits, digits_value};
ghost use Rattle.miette_read.specs.views.Values.{viewed};
ghost use Rattle.miette_read_sarif.specs.rules.Messages.{argument, argument_at, backslash_piece, bracket_at};
ghost use Rattle.miette_read_sarif.specs.rules.Messages.{brace_piece, closing_piece, destination_count, digit_count};
ghost use Rattle.miette_read_sarif.specs.rules.Messages.{ends_destination, has_destination, is_brace, is_bracket};
ghost use Rattle.miette_read_sarif.specs.rules.Messages.{is_escapable, is_link, is_mark, is_no_digit, opening_piece};
ghost use Rattle.miette_read_sarif.specs.rules.Messages.{piece_of, placed, plain, message_shown};
ghost use Rattle.miette_read_sarif.specs.views.Pieces.{cut};

use serde_json::Value;
use std::alloc::{AllocError, Global};
use std::marker::Model;

/// A piece of a message: the shown text, the text after the piece, and whether a link's text continues there.
#[derive(Drop)]
struct MessagePiece<'t> {
    message_shown: &'t str,
    rest: &'t str,
    in_link: bool,
}

impl<'t> Model for MessagePiece<'t> {
    ghost use Rattle.miette_read_sarif.specs.views.Pieces as pieces;

    ghost Value = { pieces.Cut };

    ghost view = { λ it. record { message_shown = it.message_shown.now; rest = it.rest.now; in_link = it.in_link } };
}

impl<'t> MessagePiece<'t> {
    /// Returns the text after the piece.
    fn left(&self) -> &'t str
        ensures { result.now ≡ self.now.rest }
    {
        self.rest
    }
}

/// Returns whether a byte is a brace.
fn is_brace(byte: u8) -> bool
    ensures { result ≡ is_brace byte }
{
    byte == b'{' || byte == b'}'
}

/// Returns whether a byte is a square bracket.
fn is_bracket(byte: u8) -> bool
    ensures { result ≡ is_bracket byte }
{
    byte == b'[' || byte == b']'
}

/// Returns whether a backslash can escape this byte.
fn is_escapable(byte: u8) -> bool
    ensures { result ≡ is_escapable byte }
{
    byte == b'\\' || is_bracket(byte)
}

/// Returns whether a byte can start a piece of several bytes.
fn is_mark(byte: u8) -> bool
    ensures { result ≡ is_mark byte }
{
    is_brace(byte) || is_escapable(byte)
}

/// Returns the byte at an index, or 0 past the end.
fn byte_at(text: &[u8], at: usize) -> u8
    ensures { result ≡ slice_index text.now at }
{
    match text.get(at) {
        Some(byte) => *byte,
        None => 0,
    }
}

/// Returns the text after its first `count` bytes.
fn after_bytes(text: &[u8], count: usize) -> &[u8]
    ensures { result.now ≡ drop count text.now }
{
    if count < text.len() {
        &text[count..]
    } else {
        &[]
    }
}

/// Returns the first byte as a piece.
fn plain(in_link: bool, text: &str) -> MessagePiece<'_>
    requires inside { 0 < length text.now }
    requires ascii { slice_index text.now 0 < 128 }
    ensures { result ≡ cut (plain in_link (slice_index text.now 0)) (drop 1 text.now) }
{
    MessagePiece {
        message_shown: &text[..1],
        rest: &text[1..],
        in_link,
    }
}

// ---- arguments

/// Returns whether a byte isn't a digit.
fn is_no_digit(byte: u8) -> bool
    ensures { result ≡ is_no_digit byte }
{
    !(b'0' <= byte && byte <= b'9')
}

/// Returns the index of the first byte that isn't a digit.
fn digits_end(text: &[u8]) -> Option<usize>
    ensures { result ≡ position is_no_digit text.now }
{
    text.iter().position(|b| is_no_digit(*b))
}

/// Returns the number of digits at the start of a text.
fn digit_count(text: &[u8]) -> usize
    ensures { result ≡ digit_count text.now }
{
    match digits_end(text) {
        Some(at) => at,
        None => text.len(),
    }
}

/// Returns the argument with this zero-based number, if it is a text.
fn argument(arguments: &[Value], number: usize) -> Option<&str>
    ensures { option_copied result ≡ argument (viewed arguments.now) number }
{
    match arguments.get(number) {
        Some(found) => found.as_str(),
        None => None,
    }
}

/// Returns the argument with the number in these digits.
fn numbered<'v>(arguments: &'v [Value], digits: &str) -> Option<&'v str>
    requires some { 0 < length digits.now }
    requires digits { AllDigits 10 digits.now }
    ensures { option_copied result ≡ argument (viewed arguments.now) (digits_value 10 digits.now) }
{
    let number: usize = digits.parse().unwrap_or(arguments.len());
    argument(arguments, number)
}

/// Returns the argument of a placeholder, after its `{`: digits and `}`.
fn argument_at<'v>(arguments: &'v [Value], text: &str) -> Option<&'v str>
    ensures { option_copied result ≡ argument_at (viewed arguments.now) text.now }
{
    let count = digit_count(text.as_bytes());
    if count == 0 || byte_at(text.as_bytes(), count) != b'}' {
        return None;
    }
    numbered(arguments, &text[..count])
}

/// Returns the argument of a placeholder, or its brace if there is no such argument.
fn placed<'t>(arguments: &'t [Value], in_link: bool, text: &'t str) -> MessagePiece<'t>
    requires { slice_index text.now 0 ≡ 123 }
    ensures { result ≡ cut (placed in_link (digit_count (drop 1 text.now))
        (argument_at (viewed arguments.now) (drop 1 text.now))) (drop 1 text.now) }
{
    let rest = &text[1..];
    let count = digit_count(rest.as_bytes());
    match argument_at(arguments, rest) {
        Some(message_shown) => MessagePiece {
            message_shown,
            rest: &rest[count + 1..],
            in_link,
        },
        None => plain(in_link, text),
    }
}

/// Returns the piece that starts with a brace.
fn brace<'t>(arguments: &'t [Value], in_link: bool, text: &'t str) -> MessagePiece<'t>
    requires { is_brace (slice_index text.now 0) ≡ true }
    ensures { result ≡ cut (brace_piece (viewed arguments.now) in_link (slice_index text.now 0) (drop 1 text.now))
        (drop 1 text.now) }
{
    let brace = byte_at(text.as_bytes(), 0);
    let rest = &text[1..];
    if byte_at(rest.as_bytes(), 0) == brace {
        return MessagePiece {
            message_shown: &text[..1],
            rest: &rest[1..],
            in_link,
        };
    }
    if brace == b'{' {
        placed(arguments, in_link, text)
    } else {
        plain(in_link, text)
    }
}

// ---- links

/// Returns the number of bytes before the first bracket that isn't escaped.
fn bracket_at(text: &[u8]) -> usize
    ensures { result ≡ bracket_at false text.now }
{
    let mut escaped = false;
    for (at, byte) in text.iter().enumerate() {
        if is_bracket(*byte) && !escaped {
            return at;
        }
        escaped = *byte == b'\\' && !escaped;
    }
    text.len()
}

/// Returns whether a byte can't be in a link's destination.
fn ends_destination(byte: u8) -> bool
    ensures { result ≡ ends_destination byte }
{
    !(32 < byte && byte < 127) || (byte == b')' || is_bracket(byte))
}

/// Returns the index of the first byte that can't be in a link's destination.
fn destination_end(text: &[u8]) -> Option<usize>
    ensures { result ≡ position ends_destination text.now }
{
    text.iter().position(|b| ends_destination(*b))
}

/// Returns the length of the destination after the first byte of a text.
fn destination_count(text: &[u8]) -> usize
    ensures { result ≡ destination_count text.now }
{
    let rest = after_bytes(text, 1);
    match destination_end(rest) {
        Some(at) => at,
        None => rest.len(),
    }
}

/// Returns whether a text starts with a destination in parentheses.
fn has_destination(text: &[u8]) -> bool
    ensures { result ≡ has_destination text.now }
{
    let count = destination_count(text);
    byte_at(text, 0) == b'(' && (0 < count && byte_at(text, count + 1) == b')')
}

/// Returns whether a link follows its `[`.
fn is_link(text: &[u8]) -> bool
    ensures { result ≡ is_link text.now }
{
    let end = bracket_at(text);
    byte_at(text, end) == b']' && has_destination(after_bytes(text, end + 1))
}

/// Returns the piece that starts with a backslash.
fn backslash(in_link: bool, text: &str) -> MessagePiece<'_>
    requires { slice_index text.now 0 ≡ 92 }
    ensures { result ≡ cut (backslash_piece in_link (drop 1 text.now)) (drop 1 text.now) }
{
    let rest = &text[1..];
    if !is_escapable(byte_at(rest.as_bytes(), 0)) {
        return plain(in_link, text);
    }
    MessagePiece {
        message_shown: if in_link { &rest[..1] } else { &text[..2] },
        rest: &rest[1..],
        in_link,
    }
}

/// Returns the piece that starts with `[`.
fn opening(in_link: bool, text: &str) -> MessagePiece<'_>
    requires { slice_index text.now 0 ≡ 91 }
    ensures { result ≡ cut (opening_piece in_link (drop 1 text.now)) (drop 1 text.now) }
{
    let rest = &text[1..];
    if in_link || !is_link(rest.as_bytes()) {
        return plain(in_link, text);
    }
    MessagePiece {
        message_shown: "",
        rest,
        in_link: true,
    }
}

/// Returns the piece that starts with `]`.
fn closing(in_link: bool, text: &str) -> MessagePiece<'_>
    requires { slice_index text.now 0 ≡ 93 }
    ensures { result ≡ cut (closing_piece in_link (drop 1 text.now)) (drop 1 text.now) }
{
    let rest = &text[1..];
    if !in_link || !has_destination(rest.as_bytes()) {
        return plain(in_link, text);
    }
    let count = destination_count(rest.as_bytes());
    MessagePiece {
        message_shown: "",
        rest: &rest[count + 2..],
        in_link: false,
    }
}

// ---- all of it

/// Returns the piece at the start of a text.
#[tactic(auto, unfolding(crate::specs::rules::Messages::piece_of))]
fn piece_of<'t>(arguments: &'t [Value], in_link: bool, text: &'t str) -> MessagePiece<'t>
    requires { is_mark (slice_index text.now 0) ≡ true }
    ensures { result ≡ cut (piece_of (viewed arguments.now) in_link (slice_index text.now 0) (drop 1 text.now))
        (drop 1 text.now) }
{
    let mark = byte_at(text.as_bytes(), 0);
    if is_brace(mark) {
        brace(arguments, in_link, text)
    } else if mark == b'\\' {
        backslash(in_link, text)
    } else if mark == b'[' {
        opening(in_link, text)
    } else {
        closing(in_link, text)
    }
}

/// Returns the index of the first byte that can start a piece of several bytes.
fn first_mark(text: &str) -> Option<usize>
    ensures { result ≡ position is_mark text.now }
{
    text.as_bytes().iter().position(|b| is_mark(*b))
}

/// Returns the shown text of a message with these arguments.
pub(crate) fn message_shown(
    alloc: Global,
    arguments: &[Value],
    text: &str,
) -> Result<String, AllocError>
    ensures { IfOk result (λ it. string_bytes it ≡ message_shown (viewed arguments.now) text.now) }
{
    let mut out = String::new(alloc);
    let mut rest = text;
    let mut in_link = false;
    while let Some(at) = first_mark(rest) {
        out.push_str(&rest[..at])?;
        let piece = piece_of(arguments, in_link, &rest[at..]);
        out.push_str(piece.message_shown)?;
        rest = piece.left();
        in_link = piece.in_link;
    }
    out.push_str(rest)?;
    Ok(out)
}
