//! Blanks (spaces and tabs) at the beginning and the end of a text.

ghost use Rattle.std.specs.Prelude.{◌≡◌, ◌+◌, ◌<◌, ◌≤◌, length, position, ◌==◌, take_while, IfSome};
ghost use Rattle.miette_lint.specs.rules.Findings.{ending_blanks, is_blank, tab_after_space, tab_from};

// Whether a byte is a space or a tab.
fn is_blank(byte: u8) -> bool
    ensures { result ≡ is_blank byte }
{
    byte == b' ' || byte == b'\t'
}

/// Number of blanks at the end of a text.
pub(crate) fn ending_blanks(text: &[u8]) -> usize
    ensures count { result ≡ ending_blanks text.now }
    ensures within { result ≤ length text.now }
{
    text.iter().rev().take_while(|b| is_blank(**b)).count()
}

/// Number of blanks at the beginning of a text.
pub(crate) fn beginning_count(text: &[u8]) -> usize
    ensures count { result ≡ length (take_while is_blank text.now) }
    ensures within { result ≤ length text.now }
{
    text.iter().take_while(|b| is_blank(**b)).count()
}

/// The blanks at the beginning of a text.
pub(crate) fn beginning_blanks(text: &[u8]) -> &[u8]
    ensures blanks { result.now ≡ take_while is_blank text.now }
    ensures within { length result.now ≤ length text.now }
{
    &text[..beginning_count(text)]
}

// Index of the first such byte.
fn first_of(bytes: &[u8], byte: u8) -> Option<usize>
    ensures at { result ≡ position (λ b. b == byte) bytes.now }
    ensures within { IfSome result (λ at. at < length bytes.now) }
{
    bytes.iter().position(|b| *b == byte)
}

// Index of the first tab at or after `space`.
fn tab_from(blanks: &[u8], space: usize) -> Option<usize>
    requires within { space < length blanks.now }
    ensures at { result ≡ tab_from blanks.now space }
    ensures within { IfSome result (λ at. at < length blanks.now) }
{
    match first_of(&blanks[space..], b'\t') {
        Some(tab) => Some(space + tab),
        None => None,
    }
}

/// Index of the first tab after a space.
pub(crate) fn tab_after_space(blanks: &[u8]) -> Option<usize>
    ensures at { result ≡ tab_after_space blanks.now }
    ensures within { IfSome result (λ at. at < length blanks.now) }
{
    match first_of(blanks, b' ') {
        Some(space) => tab_from(blanks, space),
        None => None,
    }
}
