//! Tags in order: which precede a character, and which are colours.

ghost use Rattle.std.specs.Prelude.{◌≡◌, ◌≤◌, drop, length, take};
ghost use Rattle.miette_runs.specs.steps.Feeds.{are_colours};
ghost use Rattle.miette_runs.specs.rules.Sequences.{is_parameter};
ghost use Rattle.miette_runs.specs.rules.Colours.{is_colour, is_colour_end};
ghost use Rattle.miette_runs.specs.views.Interleaving.{beyond, sign_text, upto};

use crate::runs::sign::{Sign, Tag};

/// Counts the tags before the character at an index.
pub fn count_tags_before(at: usize, tags: &[Tag]) -> usize
    ensures before { take result tags.now ≡ upto at tags.now }
    ensures behind { drop result tags.now ≡ beyond at tags.now }
    ensures within { result ≤ length tags.now }
{
    for (i, tag) in tags.iter().enumerate() {
        if at < tag.at {
            return i;
        }
    }
    tags.len()
}

fn is_parameter(c: char) -> bool
    ensures { result ≡ is_parameter c }
{
    ('0' <= c && c <= '9') || c == ';'
}

// Whether codes are digits and `;`, and then one `m`.
fn is_colour_end(codes: &[char]) -> bool
    ensures { result ≡ is_colour_end codes.now }
{
    for (i, c) in codes.iter().enumerate() {
        if *c == 'm' {
            return codes[i + 1..].is_empty();
        }
        if !is_parameter(*c) {
            return false;
        }
    }
    false
}

fn is_colour(codes: &[char]) -> bool
    ensures { result ≡ is_colour codes.now }
{
    match codes {
        [escape, bracket, rest @ ..] => {
            *escape == '\u{1B}' && *bracket == '[' && is_colour_end(rest)
        }
        _ => false,
    }
}

// Whether a sign is a colour. The start and end of a style always are.
fn is_colour_sign(sign: &Sign) -> bool
    ensures { result ≡ is_colour (sign_text sign.now) }
{
    match sign {
        Sign::Begin(_) | Sign::End => true,
        Sign::Sequence(codes) => is_colour(codes),
    }
}

/// Whether all tags are colours.
pub(crate) fn are_colours(tags: &[Tag]) -> bool
    ensures { result ≡ are_colours tags.now }
{
    for tag in tags {
        if !is_colour_sign(&tag.sign) {
            return false;
        }
    }
    true
}
