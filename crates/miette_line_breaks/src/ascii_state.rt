//! Finds opportunities between printable ASCII characters by a table.

ghost use Rattle.std.specs.Prelude.{◌≡◌, ◌<◌, MatchOption, true, false};

use crate::characters::Character;
use crate::state::BreakState;
use ucd_breaks::LineBreak;
use ucd_breaks::LineBreak::*;

/// The classes of printable ASCII. The last one is that of the space, also used at the start of a text.
static KIND_CLASSES: [LineBreak; 14] = [
    Alphabetic,
    Numeric,
    Quotation,
    Exclamation,
    PrefixNumeric,
    PostfixNumeric,
    OpenPunctuation,
    CloseParenthesis,
    InfixNumeric,
    BreakSymbols,
    ClosePunctuation,
    BreakAfter,
    Hyphen,
    Space,
];

/// For each ASCII character the index of its class in the table above, or 14.
static KINDS: [u8; 128] = [
    14, 14, 14, 14, 14, 14, 14, 14, 14, 14, 14, 14, 14, 14, 14, 14, 14, 14, 14, 14, 14, 14, 14, 14,
    14, 14, 14, 14, 14, 14, 14, 14, 13, 3, 2, 0, 4, 5, 0, 2, 6, 7, 0, 4, 8, 12, 8, 9, 1, 1, 1, 1,
    1, 1, 1, 1, 1, 1, 8, 8, 0, 0, 0, 3, 0, 0, 0, 0, 0, 0, 0, 0, 0, 0, 0, 0, 0, 0, 0, 0, 0, 0, 0, 0,
    0, 0, 0, 0, 0, 0, 0, 6, 4, 7, 0, 0, 0, 0, 0, 0, 0, 0, 0, 0, 0, 0, 0, 0, 0, 0, 0, 0, 0, 0, 0, 0,
    0, 0, 0, 0, 0, 0, 0, 6, 11, 10, 0, 14,
];

/// The transitions. There are two rows for each class: of the previous character, without and with spaces after it.
/// There is a column for each class of the next character, and one for characters that aren't printable ASCII. An entry
/// is the row for the next step, with the flags below.
static TRANSITIONS: [[u8; 15]; 28] = [
    [0, 1, 2, 3, 4, 5, 6, 7, 8, 9, 10, 11, 29, 14, 30],
    [0, 1, 2, 3, 4, 5, 6, 7, 8, 9, 10, 11, 29, 15, 30],
    [0, 1, 2, 3, 4, 5, 6, 7, 8, 9, 10, 11, 29, 16, 30],
    [28, 28, 2, 3, 28, 28, 28, 7, 8, 9, 10, 11, 29, 17, 30],
    [0, 1, 2, 3, 28, 28, 6, 7, 8, 9, 10, 11, 29, 18, 30],
    [0, 1, 2, 3, 28, 28, 6, 7, 8, 9, 10, 11, 29, 19, 30],
    [0, 1, 2, 3, 4, 5, 6, 7, 8, 9, 10, 11, 29, 20, 30],
    [0, 1, 2, 3, 4, 5, 28, 7, 8, 9, 10, 11, 29, 21, 30],
    [0, 1, 2, 3, 28, 28, 28, 7, 8, 9, 10, 11, 29, 22, 30],
    [28, 1, 2, 3, 28, 28, 28, 7, 8, 9, 10, 11, 29, 23, 30],
    [28, 28, 2, 3, 4, 5, 28, 7, 8, 9, 10, 11, 29, 24, 30],
    [28, 28, 2, 3, 28, 28, 28, 7, 8, 9, 10, 11, 29, 25, 30],
    [28, 1, 2, 3, 28, 28, 28, 7, 8, 9, 10, 11, 29, 26, 30],
    [0, 1, 2, 3, 4, 5, 6, 7, 8, 9, 10, 11, 29, 27, 30],
    [28, 28, 28, 3, 28, 28, 28, 7, 8, 9, 10, 28, 28, 14, 30],
    [28, 28, 28, 3, 28, 28, 28, 7, 8, 9, 10, 28, 28, 15, 30],
    [28, 28, 28, 3, 28, 28, 6, 7, 8, 9, 10, 28, 28, 16, 30],
    [28, 28, 28, 3, 28, 28, 28, 7, 8, 9, 10, 28, 28, 17, 30],
    [28, 28, 28, 3, 28, 28, 28, 7, 8, 9, 10, 28, 28, 18, 30],
    [28, 28, 28, 3, 28, 28, 28, 7, 8, 9, 10, 28, 28, 19, 30],
    [0, 1, 2, 3, 4, 5, 6, 7, 8, 9, 10, 11, 29, 20, 30],
    [28, 28, 28, 3, 28, 28, 28, 7, 8, 9, 10, 28, 28, 21, 30],
    [28, 28, 28, 3, 28, 28, 28, 7, 8, 9, 10, 28, 28, 22, 30],
    [28, 28, 28, 3, 28, 28, 28, 7, 8, 9, 10, 28, 28, 23, 30],
    [28, 28, 28, 3, 28, 28, 28, 7, 8, 9, 10, 28, 28, 24, 30],
    [28, 28, 28, 3, 28, 28, 28, 7, 8, 9, 10, 28, 28, 25, 30],
    [28, 28, 28, 3, 28, 28, 28, 7, 8, 9, 10, 28, 28, 26, 30],
    [28, 28, 28, 3, 28, 28, 28, 7, 8, 9, 10, 28, 28, 27, 30],
];

// A line may be broken before the character.
const BROKEN: usize = 28;

// The character is a hyphen, and no line may be broken before it.
const HYPHEN: usize = 29;

/// The state after a printable ASCII character and the spaces that follow it.
#[derive(Clone, Copy)]
pub struct AsciiState {
    pub(crate) row: usize,
    ghost small: { row < 28 },
}

/// The result of a step.
#[derive(Clone, Copy)]
pub enum AsciiStep {
    /// A printable character except the hyphen; no break is allowed before it.
    Within(AsciiState),
    /// A hyphen; no break is allowed before it.
    Hyphen(AsciiState),
    /// A printable character; a break is allowed before it.
    Broken(AsciiState),
    /// Any other character.
    Other,
}

impl AsciiState {
    ghost use Rattle.miette_line_breaks.specs.views.Places.{after_code};
    ghost use Rattle.miette_line_breaks.specs.views.AsciiState.{IsAsciiStep, begins_ascii_state, is_printable};
    ghost use Rattle.miette_line_breaks.specs.views.AsciiState.{state_in};

    /// Returns the state after a printable ASCII character that doesn't follow a Hebrew letter. A space gives a state
    /// only at the start of a text.
    #[inline(always)]
    pub fn after_character(state: BreakState, c: char) -> Option<AsciiState>
        ensures { MatchOption result (begins_ascii_state state c ≡ false)
            (λ it. (is_printable c ≡ true) × (after_code state c ≡ state_in it)) }
    {
        let code = c as usize;
        if 128 <= code {
            return None;
        }
        if c == ' ' {
            return if state.is_empty() {
                Some(AsciiState { row: 27 })
            } else {
                None
            };
        }
        let kind = KINDS[code] as usize;
        if kind == 14 {
            return None;
        }
        if state.ends_hebrew() {
            return None;
        }
        Some(AsciiState { row: kind })
    }

    /// Converts to the general state.
    pub fn state(self) -> BreakState
        ensures { result ≡ state_in self }
    {
        let is_spaced = 14 <= self.row;
        let kind = if is_spaced { self.row - 14 } else { self.row };
        BreakState {
            base: Character {
                class: KIND_CLASSES[kind],
                is_wide: false,
                is_future_emoji: false,
            },
            is_spaced,
            is_joined: false,
            follows_hebrew: false,
            has_half_flag: false,
        }
    }

    /// Steps over a character.
    #[inline(always)]
    pub fn step(self, c: char) -> AsciiStep
        ensures { IsAsciiStep result (state_in self) c }
    {
        let code = c as usize;
        if 128 <= code {
            return AsciiStep::Other;
        }
        let kind = KINDS[code] as usize;
        let next = TRANSITIONS[self.row][kind] as usize;
        if next < BROKEN {
            return AsciiStep::Within(AsciiState { row: next });
        }
        if next == BROKEN {
            return AsciiStep::Broken(AsciiState { row: kind });
        }
        if next == HYPHEN {
            return AsciiStep::Hyphen(AsciiState { row: kind });
        }
        AsciiStep::Other
    }
}
