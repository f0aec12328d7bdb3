//! Lines that show nothing.

ghost use Rattle.std.specs.Prelude.{◌≡◌, ◌≤◌, ◌⊎◌, ◌∷◌, [], ℕ, Bool, List, chars, drop, false, length, take, true};
ghost use Rattle.std.specs.List.{prefix_len};
ghost use Rattle.miette_runs.specs.rules.Sequences.{colour_end_len, colour_len, is_parameter, tokens};
ghost use Rattle.miette_style.specs.rules.Codes.{colour_stop};
ghost use Rattle.miette_text.specs.declared.wrapping.blank_lines.SequenceState.TheVariants.{Outside, Escape, Control};
ghost use Rattle.miette_text.specs.declared.wrapping.blank_lines.SequenceState.TheVariants.{Command};
ghost use Rattle.miette_text.specs.steps.WholeText.{are_passed, closes, front_len, is_in_row, is_low};
ghost use Rattle.miette_text.specs.steps.WholeText.{is_visible, passed_from, passed_through};

use crate::wrapping::line_feeds::row_len;

// ---- colours and spaces at the front, byte by byte

fn is_parameter(byte: u8) -> bool
    ensures { result ≡ is_parameter byte }
{
    (b'0' <= byte && byte <= b'9') || byte == b';'
}

// Counts the bytes after `ESC [` up to the `m` of a colour; 0 if it isn't a colour.
fn colour_end_len(bytes: &[u8]) -> usize
    ensures value { result ≡ colour_end_len bytes.now }
    ensures within { result ≤ length bytes.now }
{
    for (i, byte) in bytes.iter().enumerate() {
        if *byte == b'm' {
            return i + 1;
        }
        if !is_parameter(*byte) {
            return 0;
        }
    }
    0
}

// Returns the length in bytes of the colour at the front, or 0.
fn colour_len(bytes: &[u8]) -> usize
    ensures value { result ≡ colour_len bytes.now }
    ensures within { result ≤ length bytes.now }
{
    if bytes.len() < 2 || bytes[0] != b'\x1B' || bytes[1] != b'[' {
        return 0;
    }
    let end = colour_end_len(&bytes[2..]);
    if end == 0 { 0 } else { end + 2 }
}

// Returns the length in bytes of the colour at the front, or of a space if `blanks`, or 0.
fn front_len(bytes: &[u8], blanks: bool) -> usize
    ensures value { result ≡ front_len blanks bytes.now }
    ensures within { result ≤ length bytes.now }
{
    if blanks && !bytes.is_empty() && bytes[0] == b' ' {
        return 1;
    }
    colour_len(bytes)
}

// Returns the text without the colours at its front, and without spaces if `blanks`.
fn after_front(text: &str, blanks: bool) -> &str
    ensures { are_passed blanks (tokens (chars result.now)) ≡ are_passed blanks (tokens (chars text.now)) }
{
    let mut rest = text;
    'rest: loop {
        let len = front_len(rest.as_bytes(), blanks);
        if len == 0 {
            return rest;
        }
        rest = &rest[len..];
    }
}

// Whether a byte is from `!` to `~`.
fn is_visible(byte: u8) -> bool
    ensures { result ≡ is_visible byte }
{
    b'!' <= byte && byte <= b'~'
}

// Whether a text begins with a character from `!` to `~`. It is in no sequence and isn't white space.
fn begins_seen(text: &str) -> bool
    ensures { result ≡ true → (blanks : Bool) → are_passed blanks (tokens (chars text.now)) ≡ false }
{
    match text.as_bytes() {
        [byte, ..] => b'!' <= *byte && *byte <= b'~',
        [] => false,
    }
}

// ---- the end of a line

// Whether a byte ends a sequence that begins with `ESC [`, except for the `[` of the next one.
fn closes(byte: u8) -> bool
    ensures { result ≡ closes byte }
{
    b'@' <= byte && byte <= b'~' && byte != b'['
}

// Whether bytes are the code that ends a style.
fn ends_style(code: &[u8]) -> bool
    ensures { result ≡ true → code.now ≡ colour_stop }
{
    match code {
        [a, b, c, d] => *a == b'\x1B' && *b == b'[' && *c == b'0' && *d == b'm',
        _ => false,
    }
}

// Counts the bytes of a line before the code that ends a style, or all bytes if the line doesn't end with it.
fn styled_len(line: &[u8]) -> usize
    ensures tail { (drop result line.now ≡ []) ⊎ (drop result line.now ≡ colour_stop) }
    ensures within { result ≤ length line.now }
{
    let all = line.len();
    if all < 4 {
        return all;
    }
    let len = all - 4;
    if ends_style(&line[len..]) {
        return len;
    }
    all
}

// Whether a byte is from `!` to `?`. It ends no sequence.
fn is_low(byte: u8) -> bool
    ensures { result ≡ is_low byte }
{
    b'!' <= byte && byte <= b'?'
}

// Whether the end of a line proves that it shows something: a character from `!` to `~` after one that would end a
// sequence, or at the very end one that ends none. A final code that ends a style is ignored.
fn ends_seen(line: &str) -> bool
    ensures { result ≡ true → (blanks : Bool) → are_passed blanks (tokens (chars line.now)) ≡ false }
{
    let bytes = line.as_bytes();
    let len = styled_len(bytes);
    if len < 2 {
        return false;
    }
    if closes(bytes[len - 2]) {
        return is_visible(bytes[len - 1]);
    }
    is_low(bytes[bytes.len() - 1])
}

// ---- whole lines, character by character

// The state of a walk over a line: outside sequences, or inside one.
#[derive(Clone, Copy)]
enum SequenceState {
    Outside,
    // after an escape
    Escape,
    // after `ESC [`
    Control,
    // after `ESC ]`
    Command,
    // after an escape inside `ESC ]`
    CommandEscape,
}

// Returns the state after one more character outside sequences.
fn after_character(c: char, blanks: bool) -> Option<SequenceState>
    ensures { (cs : List ℕ) → passed_from Outside blanks (c ∷ cs) ≡ passed_through result blanks cs }
{
    if c == '\u{1B}' {
        return Some(SequenceState::Escape);
    }
    if !blanks {
        return None;
    }
    if c.is_whitespace() {
        Some(SequenceState::Outside)
    } else {
        None
    }
}

// Returns the state after the character that follows an escape.
fn after_escape(c: char) -> Option<SequenceState>
    ensures { (blanks : Bool) (cs : List ℕ) → passed_from Escape blanks (c ∷ cs) ≡ passed_through result blanks cs }
{
    match c {
        '[' => Some(SequenceState::Control),
        ']' => Some(SequenceState::Command),
        _ => None,
    }
}

// Returns the state after one more character of an `ESC [` sequence.
fn after_control(c: char) -> Option<SequenceState>
    ensures { (blanks : Bool) (cs : List ℕ) → passed_from Control blanks (c ∷ cs) ≡ passed_through result blanks cs }
{
    if c == '\n' {
        return None;
    }
    if '\u{40}' <= c && c <= '\u{7E}' {
        return Some(SequenceState::Outside);
    }
    Some(SequenceState::Control)
}

// Returns the state after one more character of an `ESC ]` sequence.
fn after_command(c: char) -> Option<SequenceState>
    ensures { (blanks : Bool) (cs : List ℕ) → passed_from Command blanks (c ∷ cs) ≡ passed_through result blanks cs }
{
    match c {
        '\n' => None,
        '\u{7}' => Some(SequenceState::Outside),
        '\u{1B}' => Some(SequenceState::CommandEscape),
        _ => Some(SequenceState::Command),
    }
}

// Returns the state after one more character. `None` if a sequence is incomplete, or if the character shows something.
fn next_place(place: SequenceState, c: char, blanks: bool) -> Option<SequenceState>
    ensures { (cs : List ℕ) → passed_from place blanks (c ∷ cs) ≡ passed_through result blanks cs }
{
    match place {
        SequenceState::Outside => after_character(c, blanks),
        SequenceState::Escape => after_escape(c),
        SequenceState::Control => after_control(c),
        SequenceState::Command => after_command(c),
        SequenceState::CommandEscape => {
            if c == '\\' {
                Some(SequenceState::Outside)
            } else {
                after_command(c)
            }
        }
    }
}

// Whether a text has nothing but whole sequences, and white space if `blanks`. Stops at the first other character.
fn walk_passes(text: &str, blanks: bool) -> bool
    ensures { result ≡ are_passed blanks (tokens (chars text.now)) }
{
    let mut place = SequenceState::Outside;
    for c in text.chars() {
        let Some(next) = next_place(place, c, blanks) else {
            return false;
        };
        place = next;
    }
    matches!(place, SequenceState::Outside)
}

/// Whether a text has nothing but whole sequences, and white space if `blanks`. Stops at the first other character.
pub(crate) fn is_passed(text: &str, blanks: bool) -> bool
    ensures { result ≡ are_passed blanks (tokens (chars text.now)) }
{
    let rest = after_front(text, blanks);
    !begins_seen(rest) && walk_passes(rest, blanks)
}

// ---- the first line of a text

// Whether a text has nothing but whole sequences and white space. Checks the front and the end first, where most texts
// show something.
fn is_white(line: &str) -> bool
    ensures { result ≡ are_passed true (tokens (chars line.now)) }
{
    !begins_seen(line) && !ends_seen(line) && is_passed(line, true)
}

/// The length of a text's first line in bytes, and whether it shows nothing.
#[derive(Clone, Copy)]
pub(crate) struct FirstLine {
    pub(crate) len: usize,
    pub(crate) is_white: bool,
}

/// Returns the first line of a text, without its line feed.
pub(crate) fn first_line(text: &str) -> FirstLine
    ensures len { result.len ≡ prefix_len is_in_row text.now }
    ensures within { result.len ≤ length text.now }
    ensures white { result.is_white ≡ are_passed true (tokens (chars (take result.len text.now))) }
{
    let len = row_len(text.as_bytes());
    let is_white = is_white(&text[..len]);
    FirstLine { len, is_white }
}
