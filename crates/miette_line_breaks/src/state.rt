//! The state of the algorithm between two characters.

ghost use Rattle.std.specs.Prelude.{◌≡◌, ℕ, true, List, [], ◌∷◌, Some, None, if◌then◌else◌};
ghost use Rattle.std.specs.Char.{is_ascii_alphabetic};
ghost use Rattle.miette_line_breaks.specs.declared.opportunity.BreakOpportunity.TheVariants.{Allowed};
ghost use Rattle.miette_line_breaks.specs.rules.Rules.{break_before, joins, joins_letter, joins_number};
ghost use Rattle.miette_line_breaks.specs.rules.Rules.{joins_parenthesis};
ghost use Rattle.miette_line_breaks.specs.rules.Rules.{joins_syllable, takes_marks};
ghost use Rattle.miette_line_breaks.specs.steps.States.{attaches, base_after, base_of, break_in, ends_hebrew};
ghost use Rattle.miette_line_breaks.specs.steps.States.{is_empty, is_ideographic, is_lone, is_plain, is_start};
ghost use Rattle.miette_line_breaks.specs.steps.States.{joined_after, spaced};
ghost use Rattle.miette_line_breaks.specs.steps.States.{keeps_direct, keeps_in, state_after};
ghost use Rattle.miette_line_breaks.specs.views.Places.{after_code, found_before, is_in_word, state_of};

use crate::characters::Character;
use crate::classes::*;
use crate::opportunity::BreakOpportunity;
use ucd_breaks::LineBreak;

/// What the rules need to know about the characters before a position: the last character that isn't a space, with its
/// marks; whether spaces or a zero width joiner follow it; whether a Hebrew letter precedes it; and whether it is half
/// a flag.
#[derive(Clone, Copy, Debug, PartialEq, Eq)]
pub struct BreakState {
    pub(crate) base: Character,
    pub(crate) is_spaced: bool,
    pub(crate) is_joined: bool,
    pub(crate) follows_hebrew: bool,
    pub(crate) has_half_flag: bool,
}

impl BreakState {
    /// Returns the state at the start of a text.
    pub fn start() -> BreakState
        ensures { result ≡ state_of [] }
    {
        BreakState {
            base: Character {
                class: LineBreak::Space,
                is_wide: false,
                is_future_emoji: false,
            },
            is_spaced: false,
            is_joined: false,
            follows_hebrew: false,
            has_half_flag: false,
        }
    }

    pub(crate) fn is_start(&self) -> bool
        ensures { result ≡ is_start self.now }
    {
        is_space_class(self.base.class) && !self.is_spaced
    }

    /// Returns the opportunity before a character at this position, and the state after it.
    #[inline(always)]
    pub fn step(&self, c: char) -> (Option<BreakOpportunity>, BreakState)
        ensures found { result.0 ≡ found_before self.now c }
        ensures behind { result.1 ≡ after_code self.now c }
        ensures rules { (before : List ℕ) → self.now ≡ state_of before →
            (result.0 ≡ break_before before c) × (result.1 ≡ state_of (c ∷ before)) }
    {
        let (found, after) = self.stepped(c);
        (found, after)
    }

    // Steps over a character, with a fast path for ASCII letters and spaces.
    #[inline(always)]
    fn stepped(&self, c: char) -> (Option<BreakOpportunity>, BreakState)
        ensures found { result.0 ≡ found_before self.now c }
        ensures behind { result.1 ≡ after_code self.now c }
    {
        if self.is_plain() {
            if c.is_ascii_alphabetic() {
                return (self.before_letter(), self.spaced(false));
            }
            if c == ' ' {
                return (None, self.spaced(true));
            }
        }
        self.stepped_by_class(c)
    }

    fn stepped_by_class(&self, c: char) -> (Option<BreakOpportunity>, BreakState)
        ensures found { result.0 ≡ found_before self.now c }
        ensures behind { result.1 ≡ after_code self.now c }
    {
        let next = Character::of(c);
        if !self.is_joined && is_ideographic(self.base.class) && is_ideographic(next.class) {
            return (Some(BreakOpportunity::Allowed), self.with_base(next, false));
        }
        let found = self.before(next);
        let state = self.after_character(next);
        (found, state)
    }

    /// Whether the last character, except spaces, is a letter that is neither wide nor Hebrew, and nothing before it
    /// matters.
    #[inline(always)]
    fn is_plain(&self) -> bool
        ensures { result ≡ is_plain self.now }
    {
        matches!(self.base.class, LineBreak::Alphabetic) && self.is_lone()
    }

    /// Whether only the class of the last character, except spaces, matters.
    #[inline(always)]
    fn is_lone(&self) -> bool
        ensures { result ≡ is_lone self.now }
    {
        !(self.base.is_wide
            || self.base.is_future_emoji
            || self.is_joined
            || self.follows_hebrew
            || self.has_half_flag)
    }

    /// Whether no character precedes this position.
    pub(crate) fn is_empty(&self) -> bool
        ensures { result ≡ is_empty self.now }
    {
        self.is_start() && self.is_lone()
    }

    /// Whether such a letter is the last character. ASCII letters then continue the word.
    #[inline(always)]
    pub fn is_in_word(&self) -> bool
        ensures value { result ≡ is_in_word self.now }
        ensures letters { (c : ℕ) → is_in_word self.now ≡ true → is_ascii_alphabetic c ≡ true →
            (found_before self.now c ≡ None) × (after_code self.now c ≡ self.now) }
    {
        !self.is_spaced && self.is_plain()
    }

    // Returns the opportunity before an ASCII letter that follows such a letter.
    #[inline(always)]
    fn before_letter(&self) -> Option<BreakOpportunity>
        ensures { result ≡ (if self.now.is_spaced then Some Allowed else None) }
    {
        if self.is_spaced {
            Some(BreakOpportunity::Allowed)
        } else {
            None
        }
    }

    /// Returns the state with or without spaces.
    #[inline(always)]
    fn spaced(&self, is_spaced: bool) -> BreakState
        ensures { result ≡ spaced is_spaced self.now }
    {
        BreakState { is_spaced, ..*self }
    }

    /// Whether the last character is a Hebrew letter.
    pub(crate) fn ends_hebrew(&self) -> bool
        ensures { result ≡ ends_hebrew self.now }
    {
        !self.is_spaced && is_hebrew(self.base.class)
    }

    fn attaches(&self) -> bool
        ensures { result ≡ attaches self.now }
    {
        !self.is_spaced && takes_marks(self.base.class)
    }

    /// Returns the state after one more character.
    pub(crate) fn after_character(&self, x: Character) -> BreakState
        ensures { result ≡ state_after self.now x }
    {
        if is_mark(x.class) && self.attaches() {
            BreakState {
                is_joined: is_joiner(x.class),
                ..*self
            }
        } else {
            self.with_base(base_of(x), is_joiner(x.class))
        }
    }

    fn with_base(&self, base: Character, is_joined: bool) -> BreakState
        ensures { result ≡ base_after self.now base is_joined }
    {
        BreakState {
            base: if is_space_class(base.class) {
                self.base
            } else {
                base
            },
            is_spaced: is_space_class(base.class),
            is_joined,
            follows_hebrew: self.ends_hebrew(),
            has_half_flag: is_regional(base.class) && !self.has_half_flag,
        }
    }

    /// Returns the opportunity before a character, if there is one.
    pub(crate) fn before(&self, x: Character) -> Option<BreakOpportunity>
        ensures { result ≡ break_in self.now x }
    {
        if self.is_start() {
            None
        } else if !self.is_spaced && is_carriage_return(self.base.class) && is_line_feed(x.class) {
            None
        } else if !self.is_spaced && is_hard(self.base.class) {
            Some(BreakOpportunity::Mandatory)
        } else if is_hard(x.class) || is_space_class(x.class) || is_zero_width_space(x.class) {
            None
        } else if is_zero_width_space(self.base.class) {
            Some(BreakOpportunity::Allowed)
        } else if self.is_joined || (is_mark(x.class) && self.attaches()) {
            None
        } else if self.keeps(base_of(x)) {
            None
        } else {
            Some(BreakOpportunity::Allowed)
        }
    }

    /// Whether no break is allowed before this character.
    fn keeps(&self, next: Character) -> bool
        ensures { result ≡ keeps_in self.now next }
    {
        is_word_joiner(next.class)
            || is_closing(next.class)
            || is_opening(self.base.class)
            || (is_quotation(self.base.class) && is_opening(next.class))
            || (is_bracket_end(self.base.class) && is_nonstarter(next.class))
            || (is_dash(self.base.class) && is_dash(next.class))
            || self.keeps_direct(next)
    }

    /// The same, by the rules for characters without spaces between them.
    fn keeps_direct(&self, next: Character) -> bool
        ensures { result ≡ keeps_direct self.now next }
    {
        let last = self.base;
        !self.is_spaced
            && (is_word_joiner(last.class)
                || is_glue(last.class)
                || (is_glue(next.class) && !is_hyphen_class(last.class))
                || is_quotation(last.class)
                || is_quotation(next.class)
                || (!(is_contingent(last.class) || is_contingent(next.class))
                    && (joins(last, next)
                        || (is_hyphen_class(last.class) && self.follows_hebrew)
                        || (self.has_half_flag && is_regional(next.class)))))
    }
}

// Ideographs: ID. A break is allowed between two of them.
fn is_ideographic(class: LineBreak) -> bool
    ensures { result ≡ is_ideographic class }
{
    matches!(class, LineBreak::Ideographic)
}

/// Returns the character, or what a combining mark without a base counts as.
fn base_of(x: Character) -> Character
    ensures { result ≡ base_of x }
{
    if is_mark(x.class) {
        Character::LONE_MARK
    } else {
        x
    }
}

fn takes_marks(class: LineBreak) -> bool
    ensures { result ≡ takes_marks class }
{
    !(is_hard(class) || is_space_class(class) || is_zero_width_space(class))
}

fn joins(last: Character, next: Character) -> bool
    ensures { result ≡ joins last next }
{
    is_hyphen_class(next.class)
        || is_nonstarter(next.class)
        || is_break_before(last.class)
        || (is_slash(last.class) && is_hebrew(next.class))
        || is_inseparable(next.class)
        || joins_letter(last.class, next.class)
        || joins_number(last.class, next.class)
        || joins_syllable(last.class, next.class)
        || joins_parenthesis(last, next)
        || ((is_emoji_base(last.class) || last.is_future_emoji) && is_emoji_modifier(next.class))
}

// Whether two neighbours have one of these pairs of classes.
macro_rules! are_neighbours {
    ($last:ident, $next:ident: $a:ident before $b:ident $(, $c:ident before $d:ident)*) => {
        ($a($last) && $b($next)) $(|| ($c($last) && $d($next)))*
    };
}

fn joins_letter(last: LineBreak, next: LineBreak) -> bool
    ensures { result ≡ joins_letter last next }
{
    are_neighbours!(last, next:
        is_letter before is_numeric, is_numeric before is_letter, is_prefix before is_ideograph,
        is_ideograph before is_postfix, is_affix before is_letter, is_letter before is_affix,
        is_letter before is_letter, is_infix before is_letter
    )
}

fn joins_number(last: LineBreak, next: LineBreak) -> bool
    ensures { result ≡ joins_number last next }
{
    are_neighbours!(last, next:
        is_bracket_end before is_affix, is_numeric before is_affix, is_affix before is_opening,
        is_affix before is_numeric
    ) || ((is_plain_hyphen(last) || is_infix(last) || is_numeric(last) || is_slash(last))
        && is_numeric(next))
}

fn joins_syllable(last: LineBreak, next: LineBreak) -> bool
    ensures { result ≡ joins_syllable last next }
{
    are_neighbours!(last, next:
        is_leading_jamo before joins_leading_jamo, is_open_syllable before joins_open_syllable,
        is_closed_syllable before is_trailing_jamo, is_hangul before is_postfix,
        is_prefix before is_hangul
    )
}

fn joins_parenthesis(last: Character, next: Character) -> bool
    ensures { result ≡ joins_parenthesis last next }
{
    ((is_letter(last.class) || is_numeric(last.class)) && is_opening(next.class) && !next.is_wide)
        || (is_parenthesis_end(last.class)
            && !last.is_wide
            && (is_letter(next.class) || is_numeric(next.class)))
}
