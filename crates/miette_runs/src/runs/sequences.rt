//! Lengths of escape sequences.

ghost use Rattle.std.specs.Prelude.{◌≡◌, ◌≤◌, ◌<◌, ◌+◌, true, length, drop, IsTrue};
ghost use Rattle.miette_runs.specs.rules.Sequences.{begins_command, begins_terminator, command_len, control_len};
ghost use Rattle.miette_runs.specs.rules.Sequences.{sequence_len};

const LINE_FEED: char = '\n';

const BELL: char = '\u{7}';

const ESCAPE: char = '\u{1B}';

// Counts the codes after `ESC [` up to the last one of the sequence; 0 if it isn't complete.
fn control_len(codes: &[char]) -> usize
    ensures value { result ≡ control_len codes.now }
    ensures within { result ≤ length codes.now }
{
    for (i, c) in codes.iter().enumerate() {
        if *c == LINE_FEED {
            return 0;
        }
        if '\u{40}' <= *c && *c <= '\u{7E}' {
            return i + 1;
        }
    }
    0
}

fn begins_terminator(codes: &[char]) -> bool
    ensures value { result ≡ begins_terminator codes.now }
    ensures long { IsTrue result → 2 ≤ length codes.now }
{
    1 < codes.len() && codes[0] == ESCAPE && codes[1] == '\\'
}

// Counts the codes after `ESC ]` up to BEL or `ESC \`; 0 if it isn't complete.
fn command_len(codes: &[char]) -> usize
    ensures value { result ≡ command_len codes.now }
    ensures within { result ≤ length codes.now }
{
    for (i, c) in codes.iter().enumerate() {
        if *c == LINE_FEED {
            return 0;
        }
        if *c == BELL {
            return i + 1;
        }
        if begins_terminator(&codes[i..]) {
            return i + 2;
        }
    }
    0
}

// Returns the length of the escape sequence at the front, or 0.
fn sequence_len(codes: &[char]) -> usize
    ensures value { result ≡ sequence_len codes.now }
    ensures within { result ≤ length codes.now }
{
    if codes.len() < 2 || codes[0] != ESCAPE {
        return 0;
    }
    let after = &codes[2..];
    let rest = if codes[1] == '[' {
        control_len(after)
    } else if codes[1] == ']' {
        command_len(after)
    } else {
        0
    };
    if rest == 0 { 0 } else { rest + 2 }
}

/// Returns the length of the escape sequence at an index, or 0. `unfinished` says that a command is known not to end on
/// this line.
#[inline]
pub(crate) fn sequence_at(codes: &[char], i: usize, unfinished: bool) -> usize
    requires inside { i < length codes.now }
    requires known { unfinished ≡ true → command_len (drop i codes.now) ≡ 0 }
    ensures value { result ≡ sequence_len (drop i codes.now) }
    ensures within { i + result ≤ length codes.now }
{
    if codes[i] != ESCAPE {
        return 0;
    }
    if unfinished && begins_command(&codes[i..]) {
        return 0;
    }
    sequence_len(&codes[i..])
}

fn begins_command(codes: &[char]) -> bool
    ensures { result ≡ begins_command codes.now }
{
    match codes {
        [first, second, ..] => *first == ESCAPE && *second == ']',
        _ => false,
    }
}

/// Whether, after a character, a command is known not to end on this line.
#[inline]
pub(crate) fn stays_open(codes: &[char], i: usize, unfinished: bool) -> bool
    requires inside { i < length codes.now }
    requires none { sequence_len (drop i codes.now) ≡ 0 }
    requires known { unfinished ≡ true → command_len (drop i codes.now) ≡ 0 }
    ensures { result ≡ true → command_len (drop (i + 1) codes.now) ≡ 0 }
{
    let code = codes[i];
    if code == LINE_FEED {
        return false;
    }
    if code == ESCAPE && begins_command(&codes[i..]) {
        return true;
    }
    unfinished
}
