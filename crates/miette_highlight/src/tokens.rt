//! Matches rules at the start of a text, and splits lines into pieces.

ghost use Rattle.std.specs.Prelude.{◌≡◌, ◌+◌, ◌^◌, ◌<◌, ◌≤◌, ◌&&◌, ◌==◌, not, nat_eq, nat_le, IsTrue, IfOk};
ghost use Rattle.std.specs.Prelude.{false, length, drop, string_bytes};
ghost use Rattle.std.specs.List.{starts_with};
ghost use Rattle.miette_highlight.specs.rules.Patterns.{begins_within, character_end, close_end, escapes_next};
ghost use Rattle.miette_highlight.specs.rules.Patterns.{hash_count, char_tail_end, inside, is_hash, is_char_tail};
ghost use Rattle.miette_highlight.specs.rules.Patterns.{match_of, open_over, prefixed_word, raw_after_quote};
ghost use Rattle.miette_highlight.specs.rules.Patterns.{raw_end, raw_inside, raw_text, word_end};
ghost use Rattle.miette_highlight.specs.rules.Tokens.{AreTokens, IsToken, first_match, continued_token, token_at};
ghost use Rattle.miette_highlight.specs.rules.Tokens.{token_of};
ghost use Rattle.miette_highlight.specs.rules.Pieces.{CutsLine};

use crate::rule::{Delimiters, Pattern, Rule};
use crate::words::{is_listed_word, is_word_byte, word_end};
use miette_style::style::Style;
use std::alloc::{AllocError, Global};

/// A part that a line leaves open, so that it continues on the next line.
#[derive(Clone, Copy, Debug, Drop)]
pub struct OpenPart {
    /// The index of its rule.
    pub rule: usize,
    /// How many hashes close it, after its quote or closing delimiter.
    pub hashes: usize,
}

// A match: its length in bytes, and if it stays open, how many hashes close it.
type MatchEnd = (usize, Option<usize>);

/// The token at the start of a text.
#[derive(Clone, Copy)]
pub struct Token {
    /// Its length in bytes.
    pub bytes: usize,
    /// Its style.
    pub style: Style,
    /// The part that it leaves open.
    pub left_open: Option<OpenPart>,
}

// Whether a text begins with a byte between `first` and `last`, inclusive.
fn begins_within(first: u8, last: u8, text: &[u8]) -> bool
    ensures { result ≡ begins_within first last text.now }
{
    match text.split_first() {
        Some((byte, _)) => first <= *byte && *byte <= last,
        None => false,
    }
}

// Whether a byte is the escape.
fn escapes_next(escape: Option<u8>, byte: u8) -> bool
    ensures { result ≡ escapes_next escape byte }
{
    match escape {
        Some(escape) => escape == byte,
        None => false,
    }
}

// Whether the closing delimiter is at the front of the text.
fn closes_here(delimiters: &Delimiters, escaped: bool, text: &[u8]) -> bool
    ensures closes { result ≡ (not escaped && starts_with nat_eq text.now (string_bytes delimiters.now.closes)) }
    ensures bound { IsTrue result → length (string_bytes delimiters.now.closes) ≤ length text.now }
{
    !escaped && text.starts_with(delimiters.closes.as_bytes())
}

// Returns the end of the first closing delimiter that isn't escaped. Offsets count from `start` at the front of the
// text.
fn close_end(delimiters: &Delimiters, start: usize, text: &[u8]) -> Option<usize>
    requires { start + length text.now < 2 ^ 64 }
    ensures { result ≡ close_end delimiters.now false start text.now }
{
    let mut escaped = false;
    let mut at = start;
    let mut rest = text;
    while let Some((byte, tail)) = rest.split_first() {
        if closes_here(delimiters, escaped, rest) {
            return Some(at + delimiters.closes.as_bytes().len());
        }
        escaped = !escaped && escapes_next(delimiters.escape, *byte);
        rest = tail;
        at += 1;
    }
    None
}

// Returns what an unclosed part leaves open. No hashes close it.
fn open_over(over_lines: bool) -> Option<usize>
    ensures { result ≡ open_over over_lines }
{
    if over_lines { Some(0) } else { None }
}

// Returns where a part ends after its opening delimiter. Offsets count from `start`.
fn end_of(delimiters: &Delimiters, start: usize, text: &[u8]) -> MatchEnd
    requires { start + length text.now < 2 ^ 64 }
    ensures { result ≡ inside delimiters.now start text.now }
{
    match close_end(delimiters, start, text) {
        Some(end) => (end, None),
        None => (start + text.len(), open_over(delimiters.over_lines)),
    }
}

// Whether a byte is a hash.
fn is_hash(byte: u8) -> bool
    ensures { result ≡ is_hash byte }
{
    byte == b'#'
}

// Counts the hashes at the front of a text.
fn hash_count(text: &[u8]) -> usize
    ensures count { result ≡ hash_count text.now }
    ensures within { result ≤ length text.now }
{
    text.iter().take_while(|b| is_hash(**b)).count()
}

// Whether a byte is a quote followed by `hashes` hashes.
fn closes_raw(hashes: usize, byte: u8, after: &[u8]) -> bool
    ensures closes { result ≡ (byte == 34 && nat_le hashes (hash_count after.now)) }
    ensures bound { IsTrue result → hashes ≤ length after.now }
{
    byte == b'"' && hashes <= hash_count(after)
}

// Returns the end of the first quote followed by `hashes` hashes, including these. Offsets count from `start`.
fn raw_end(hashes: usize, start: usize, text: &[u8]) -> Option<usize>
    requires { start + length text.now < 2 ^ 64 }
    ensures { result ≡ raw_end hashes start text.now }
{
    let mut at = start;
    let mut rest = text;
    while let Some((byte, tail)) = rest.split_first() {
        if closes_raw(hashes, *byte, tail) {
            return Some(at + 1 + hashes);
        }
        rest = tail;
        at += 1;
    }
    None
}

// Returns where a raw string ends after its first quote. Offsets count from `start`.
fn raw_inside(hashes: usize, start: usize, text: &[u8]) -> MatchEnd
    requires { start + length text.now < 2 ^ 64 }
    ensures { result ≡ raw_inside hashes start text.now }
{
    match raw_end(hashes, start, text) {
        Some(end) => (end, None),
        None => (start + text.len(), Some(hashes)),
    }
}

// Returns where a raw string with `hashes` hashes ends, if the text begins with its quote. Offsets count from `start`.
fn raw_after_quote(hashes: usize, start: usize, text: &[u8]) -> Option<MatchEnd>
    requires { start + length text.now < 2 ^ 64 }
    ensures { result ≡ raw_after_quote hashes start text.now }
{
    let (first, rest) = text.split_first()?;
    if *first == b'"' {
        return Some(raw_inside(hashes, start + 1, rest));
    }
    None
}

// Returns where a raw string ends after its prefix of `before` bytes.
fn raw_text(before: usize, text: &[u8]) -> Option<MatchEnd>
    requires { before + length text.now < 2 ^ 64 }
    ensures { result ≡ raw_text before text.now }
{
    let hashes = hash_count(text);
    raw_after_quote(hashes, before + hashes, &text[hashes..])
}

// Whether a byte continues a character, or an escape such as `\u{10_FFFF}`.
fn is_char_tail(escaped: bool, byte: u8) -> bool
    ensures { result ≡ is_char_tail escaped byte }
{
    if escaped {
        return is_word_byte(byte) || byte == b'{' || byte == b'}';
    }
    128 <= byte && byte < 192
}

// Returns where a character or escape ends, with its closing delimiter, after its first byte. Offsets count from
// `start`.
fn char_tail_end(
    delimiters: &Delimiters,
    escaped: bool,
    start: usize,
    text: &[u8],
) -> Option<MatchEnd>
    requires { start + length text.now < 2 ^ 64 }
    ensures { result ≡ char_tail_end delimiters.now escaped start text.now }
{
    let mut at = start;
    let mut rest = text;
    while let Some((byte, tail)) = rest.split_first() {
        if closes_here(delimiters, false, rest) {
            return Some((at + delimiters.closes.as_bytes().len(), None));
        }
        if !is_char_tail(escaped, *byte) {
            return None;
        }
        rest = tail;
        at += 1;
    }
    None
}

// Returns where the character or escape at the front ends, with its closing delimiter. Offsets count from `start`.
fn character_end(delimiters: &Delimiters, start: usize, text: &[u8]) -> Option<MatchEnd>
    requires { start + length text.now < 2 ^ 64 }
    ensures { result ≡ character_end delimiters.now start text.now }
{
    let (first, rest) = text.split_first()?;
    if closes_here(delimiters, false, text) {
        return None;
    }
    if escapes_next(delimiters.escape, *first) {
        let (_, after) = rest.split_first()?;
        return char_tail_end(delimiters, true, start + 2, after);
    }
    char_tail_end(delimiters, false, start + 1, rest)
}

// Returns the length of this byte and the word after it, if the text begins with both.
fn prefixed_word(byte: u8, text: &[u8]) -> Option<MatchEnd>
    ensures { result ≡ prefixed_word byte text.now }
{
    let (first, rest) = text.split_first()?;
    let word = word_end(rest);
    if *first == byte && 0 < word {
        return Some((word + 1, None));
    }
    None
}

// Matches a pattern at the start of a text.
fn match_of(pattern: &Pattern, text: &[u8]) -> Option<MatchEnd>
    ensures { result ≡ match_of pattern.now text.now }
{
    let word = word_end(text);
    match pattern {
        Pattern::Words(words) if is_listed_word(words, &text[..word]) => Some((word, None)),
        Pattern::From(first, last) if begins_within(*first, *last, text) => Some((word, None)),
        Pattern::Between(delimiters) if text.starts_with(delimiters.opens.as_bytes()) => {
            let start = delimiters.opens.as_bytes().len();
            Some(end_of(delimiters, start, &text[start..]))
        }
        Pattern::Character(delimiters) if text.starts_with(delimiters.opens.as_bytes()) => {
            let start = delimiters.opens.as_bytes().len();
            character_end(delimiters, start, &text[start..])
        }
        Pattern::Prefixed(byte) => prefixed_word(*byte, text),
        Pattern::Raw(prefix) if text.starts_with(prefix.as_bytes()) => {
            let start = prefix.as_bytes().len();
            raw_text(start, &text[start..])
        }
        _ => None,
    }
}

// Converts a match of a rule to a token.
fn token_of(rule: usize, style: Style, found: MatchEnd) -> Token
    ensures { result ≡ token_of rule style found }
{
    let left_open = match found.1 {
        Some(hashes) => Some(OpenPart { rule, hashes }),
        None => None,
    };
    Token {
        bytes: found.0,
        style,
        left_open,
    }
}

// Returns the token of the first rule that matches.
fn first_match(rules: &[Rule], text: &[u8]) -> Option<Token>
    ensures { result ≡ first_match 0 rules.now text.now }
{
    let mut at = 0;
    let mut rest = rules;
    while let Some((rule, tail)) = rest.split_first() {
        if let Some(found) = match_of(&rule.pattern, text) {
            return Some(token_of(at, rule.style, found));
        }
        rest = tail;
        at += 1;
    }
    None
}

// Returns the rest of a part that the previous line left open.
fn continued_token(rules: &[Rule], left_open: Option<OpenPart>, text: &[u8]) -> Option<Token>
    ensures { result ≡ continued_token rules.now left_open text.now }
{
    let part = left_open?;
    let rule = rules.get(part.rule)?;
    let found = match &rule.pattern {
        Pattern::Between(delimiters) => end_of(delimiters, 0, text),
        Pattern::Raw(_) => raw_inside(part.hashes, 0, text),
        _ => return None,
    };
    Some(token_of(part.rule, rule.style, found))
}

// Returns the token at the start of a text.
#[tactic(auto, unfolding(crate::specs::rules::Tokens::token_at))]
fn token_at(rules: &[Rule], left_open: Option<OpenPart>, text: &[u8]) -> Token
    ensures { result ≡ token_at rules.now left_open text.now }
{
    if let Some(token) = continued_token(rules, left_open, text) {
        return token;
    }
    match first_match(rules, text) {
        Some(token) => token,
        None => Token {
            bytes: word_end(text),
            style: Style::new(),
            left_open: None,
        },
    }
}

// Returns the piece at the start of a text, the part that it leaves open, and the text after it.
fn step<'a>(
    rules: &[Rule],
    left_open: Option<OpenPart>,
    text: &'a str,
) -> ((usize, Style), Option<OpenPart>, &'a str)
    requires { 0 < length text.now }
    ensures piece { IsToken (token_at rules.now left_open text.now) text.now result.0 }
    ensures left_open { result.1 ≡ (token_at rules.now left_open text.now).left_open }
    ensures rest { result.2.now ≡ drop result.0.0 text.now }
    ensures shorter { length result.2.now < length text.now }
{
    let found = token_at(rules, left_open, text.as_bytes());
    let length = text.ceil_char_boundary(found.bytes.max(1));
    let (_, rest) = text.split_at(length);
    ((length, found.style), found.left_open, rest)
}

/// Splits a line into pieces, and returns the part that it leaves open. Returns `AllocError` if allocation fails.
pub fn pieces_of(
    alloc: Global,
    rules: &[Rule],
    left_open: Option<OpenPart>,
    line: &str,
) -> Result<(Vec<(usize, Style)>, Option<OpenPart>), AllocError>
    ensures tokens { IfOk result (λ r. AreTokens rules.now left_open line.now r.0.items r.1) }
    ensures cuts { IfOk result (λ r. CutsLine line.now r.0.items) }
{
    let mut pieces = Vec::new(alloc);
    let mut left = left_open;
    let mut rest = line;
    while !rest.is_empty() {
        let (piece, next, tail) = step(rules, left, rest);
        pieces.push(piece)?;
        left = next;
        rest = tail;
    }
    Ok((pieces, left))
}
