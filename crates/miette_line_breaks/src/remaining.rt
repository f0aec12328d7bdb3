//! The iterator over line break opportunities.

ghost use Rattle.std.specs.Prelude.{◌≡◌, ◌<◌, ◌+◌, ◌^◌, ◌∷◌, ◌++◌, [], chars, encode_utf8, length, MatchOption};

use crate::characters::Character;
use crate::opportunity::BreakOpportunity;
use crate::state::BreakState;

/// An iterator over the line break opportunities of a text.
#[derive(Drop)]
pub struct LineBreaks<'a> {
    rest: &'a str,
    at: usize,
    state: BreakState,
    ghost small: { at + length rest.now < 2 ^ 64 },
}

impl<'a> LineBreaks<'a> {
    ghost use Rattle.miette_line_breaks.specs.rules.Rules.{breaks_of};
    ghost use Rattle.miette_line_breaks.specs.views.Left.{breaks_left};

    pub(crate) fn new(text: &'a str) -> LineBreaks<'a>
        ensures { breaks_left result ≡ breaks_of text.now }
    {
        LineBreaks {
            rest: text,
            at: 0,
            state: BreakState::start(),
        }
    }
}

/// Splits off the first character.
fn split_first_char(text: &str) -> Option<(char, &str)>
    ensures { MatchOption result (chars text.now ≡ [])
        (λ (c, rest). (chars text.now ≡ c ∷ chars rest.now) × (text.now ≡ encode_utf8 c ++ rest.now)) }
{
    let mut chars = text.chars();
    match chars.next() {
        Some(c) => Some((c, chars.as_str())),
        None => None,
    }
}

impl<'a> Iterator for LineBreaks<'a> {
    ghost use Rattle.std.specs.Iterator.{YieldsFirst, item_count};
    ghost use Rattle.miette_line_breaks.specs.views.Left.{breaks_left};

    type Item = (usize, BreakOpportunity);

    ghost next_gives = { YieldsFirst breaks_left };

    ghost remaining = { item_count breaks_left };

    fn next(&mut self) -> Option<(usize, BreakOpportunity)> {
        while let Some((c, rest)) = split_first_char(self.rest) {
            let next = Character::of(c);
            let at = self.at;
            let found = self.state.before(next);
            *self = LineBreaks {
                rest,
                at: at + c.len_utf8(),
                state: self.state.after_character(next),
            };
            if let Some(opportunity) = found {
                return Some((at, opportunity));
            }
        }
        if self.state.is_start() {
            return None;
        }
        self.state = BreakState::start();
        Some((self.at, BreakOpportunity::Mandatory))
    }
}
