//! The header of a frame, line by line.

ghost use Rattle.std.specs.Prelude.{◌≡◌, ◌<◌, ◌≤◌, ◌==◌, IfSome, length, position, reverse, take_while};
ghost use Rattle.miette_language_server.specs.rules.Frames.{is_blank, ends_header, named_length, number, number_from};
ghost use Rattle.miette_language_server.specs.rules.Frames.{content_length_in, without_blanks, with_digit};
ghost use Rattle.miette_language_server.specs.rules.Frames.{without_leading};
ghost use Rattle.miette_language_server.specs.rules.Frames.{without_trailing};

// Whether a byte is a space, a tab or a CR.
fn is_blank(byte: u8) -> bool
    ensures { result ≡ is_blank byte }
{
    byte == b' ' || byte == b'\t' || byte == b'\r'
}

// Number of blanks at the beginning of a text.
fn leading_count(text: &[u8]) -> usize
    ensures count { result ≡ length (take_while is_blank text.now) }
    ensures within { result ≤ length text.now }
{
    text.iter().take_while(|b| is_blank(**b)).count()
}

// A text without its leading blanks.
fn without_leading(text: &[u8]) -> &[u8]
    ensures { result.now ≡ without_leading text.now }
{
    &text[leading_count(text)..]
}

// Number of blanks at the end of a text.
fn trailing_count(text: &[u8]) -> usize
    ensures count { result ≡ length (take_while is_blank (reverse text.now)) }
    ensures within { result ≤ length text.now }
{
    text.iter().rev().take_while(|b| is_blank(**b)).count()
}

// A text without its trailing blanks.
fn without_trailing(text: &[u8]) -> &[u8]
    ensures { result.now ≡ without_trailing text.now }
{
    &text[..text.len() - trailing_count(text)]
}

// A text without blanks at both ends.
fn without_blanks(text: &[u8]) -> &[u8]
    ensures { result.now ≡ without_blanks text.now }
{
    without_trailing(without_leading(text))
}

// Appends a digit to a number. Returns `None` if the byte is no digit or if the number gets too large.
fn with_digit(number: usize, byte: u8) -> Option<usize>
    ensures { result ≡ with_digit number byte }
{
    if byte < b'0' || byte > b'9' {
        return None;
    }
    let tens = number.checked_mul(10)?;
    tens.checked_add(usize::from(byte - b'0'))
}

// Appends digits to a number.
fn number_from(number: usize, digits: &[u8]) -> Option<usize>
    ensures { result ≡ number_from number digits.now }
{
    let mut made = number;
    for byte in digits {
        made = with_digit(made, *byte)?;
    }
    Some(made)
}

// Parses a number in decimal.
fn number(text: &[u8]) -> Option<usize>
    ensures { result ≡ number text.now }
{
    if text.is_empty() {
        return None;
    }
    number_from(0, text)
}

// The length that a header field states, if it is `Content-Length`.
fn named_length(name: &[u8], value: &[u8]) -> Option<usize>
    ensures { result ≡ named_length name.now value.now }
{
    if without_blanks(name).eq_ignore_ascii_case(b"content-length") {
        number(without_blanks(value))
    } else {
        None
    }
}

// Index of the colon after a field's name.
fn colon_in(row: &[u8]) -> Option<usize>
    ensures at { result ≡ position (λ b. b == 58) row.now }
    ensures within { IfSome result (λ at. at < length row.now) }
{
    row.iter().position(|b| *b == b':')
}

/// Returns the body length that a header line states, if it does.
pub(crate) fn content_length_in(row: &[u8]) -> Option<usize>
    ensures { result ≡ content_length_in row.now }
{
    match colon_in(row) {
        Some(at) => named_length(&row[..at], &row[at + 1..]),
        None => None,
    }
}

/// Whether a line is the empty one that ends the header.
pub(crate) fn ends_header(row: &[u8]) -> bool
    ensures { result ≡ ends_header row.now }
{
    without_blanks(row).is_empty()
}
