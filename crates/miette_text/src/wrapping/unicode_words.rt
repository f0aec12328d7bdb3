//! Words separated where Unicode allows a line break.

ghost use Rattle.std.specs.Prelude.{◌≡◌, ◌≤◌, ◌<◌, ◌+◌, IfOk, List, drop, flat_map, length, refl, take, true, false};
ghost use Rattle.miette_text.specs.declared.options.WordSeparator.TheVariants.{UnicodeBreakProperties};
ghost use Rattle.miette_text.specs.rules.Wrapping as rules;
ghost use Rattle.miette_text.specs.rules.Wrapping.{is_hyphen, parts};
ghost use Rattle.miette_text.specs.steps.Ends.{IsPart, codes_of};
ghost use Rattle.miette_text.specs.steps.Ends.{part_len};
ghost use Rattle.miette_text.specs.views.Breaks.{all_printed, fits_in, is_done, left_in, never, passed_len};
ghost use Rattle.miette_text.specs.views.Breaks.{piece_len, state_at, words_in};
ghost use Rattle.miette_text.specs.views.Cutting.{word_cuts};
ghost use Rattle.miette_runs.specs.rules.Cells.{TaggedChar};
ghost use Rattle.miette_runs.specs.steps.Cells.{code_columns};

use crate::wrapping::word_parts::{
    Cuts, Letters, WordEnd, WordPart, WordParts, bare_len, first_part, gap_len, letters_len,
};
use miette_line_breaks::ascii_state::{AsciiState, AsciiStep};
use miette_line_breaks::breaks::BreakState;
use miette_runs::runs::codes::Codes;
use std::alloc::AllocError;

/// The rest of a word: how many letters and spaces it has, the code before them, and the line break state after it.
#[derive(Clone, Copy)]
pub(crate) struct UnicodeWords {
    pub(crate) before: char,
    pub(crate) letters: usize,
    pub(crate) spaces: usize,
    pub(crate) state: BreakState,
}

fn is_hyphen(code: char) -> bool
    ensures { result ≡ is_hyphen code }
{
    code == '-' || code == '\u{AD}'
}

// Counts the codes that can be skipped at once: ASCII letters after a letter, without a hyphen before them. The state
// doesn't change.
#[inline(always)]
fn passed_len<C: Codes>(state: BreakState, is_joined: bool, codes: C) -> usize
    ensures value { result ≡ passed_len state is_joined (C.codes codes) }
    ensures len { piece_len state is_joined (C.codes codes)
        ≡ result + piece_len state is_joined (drop result (C.codes codes)) }
    ensures state { state_at state result (C.codes codes) ≡ state }
    ensures within { result ≤ length (C.codes codes) }
{
    if is_joined || !state.is_in_word() {
        return 0;
    }
    letters_len(codes)
}

// Counts the codes left in the first word and its spaces, and returns the state after them. If `joined`, the first code
// doesn't begin a word.
fn rest_len<C: Codes>(start: BreakState, joined: bool, codes: C) -> (usize, BreakState)
    ensures len { result.0 ≡ piece_len start joined (C.codes codes) }
    ensures state { result.1 ≡ state_at start result.0 (C.codes codes) }
    ensures within { result.0 ≤ length (C.codes codes) }
{
    let mut state = start;
    let mut is_joined = joined;
    let n = codes.count();
    let mut i: usize = 0;
    'rest: while i < n {
        let code = codes.at(i);
        let (found, after) = state.step(code);
        if !is_joined && found.is_some() {
            return (i, state);
        }
        is_joined = is_hyphen(code);
        state = after;
        let next = i + 1;
        i = next + passed_len(state, is_joined, codes.from(next));
    }
    (i, state)
}

// Counts the codes of the first word and its spaces, and returns the state after them. The flag says that all of them
// are known to be printable ASCII without hyphens.
fn word_len<C: Codes>(start: BreakState, codes: C) -> (usize, BreakState, bool)
    ensures len { result.0 ≡ piece_len start true (C.codes codes) }
    ensures state { result.1 ≡ state_at start result.0 (C.codes codes) }
    ensures printed { result.2 ≡ true → all_printed (take result.0 (C.codes codes)) ≡ true }
    ensures within { result.0 ≤ length (C.codes codes) }
{
    let n = codes.count();
    if n == 0 {
        return (0, start, true);
    }
    let first = codes.at(0);
    let Some(mut place) = AsciiState::after_character(start, first) else {
        let (len, state) = rest_len(start, true, codes);
        return (len, state, false);
    };
    let mut is_printed = first != '-';
    let mut i = 1;
    'rest: while i < n {
        match place.step(codes.at(i)) {
            AsciiStep::Within(next) => place = next,
            AsciiStep::Hyphen(next) => {
                place = next;
                is_printed = false;
            }
            AsciiStep::Broken(next) => {
                if !is_hyphen(codes.at(i - 1)) {
                    return (i, place.state(), is_printed);
                }
                place = next;
                is_printed = false;
            }
            AsciiStep::Other => {
                let joined = is_hyphen(codes.at(i - 1));
                let (len, state) = rest_len(place.state(), joined, codes.from(i));
                return (i + len, state, false);
            }
        }
        i += 1;
    }
    (i, place.state(), is_printed)
}

// Returns the first word, and whether its letters are known to be printable ASCII without hyphens.
fn first_word<C: Codes>(start: BreakState, codes: C) -> (UnicodeWords, bool)
    requires { 0 < length (C.codes codes) }
    ensures left { (cuts : rules.Cuts) (cells : List TaggedChar) → codes_of cells ≡ C.codes codes →
        left_in result.0 cuts cells ≡ flat_map (parts cuts) (words_in start cells) }
    ensures fits { fits_in result.0 (C.codes codes) }
    ensures some { is_done result.0 ≡ false }
    ensures printed { result.1 ≡ true → all_printed (take result.0.letters (C.codes codes)) ≡ true }
{
    let (len, state, is_printed) = word_len(start, codes);
    let letters = bare_len(codes.front(len));
    let word = UnicodeWords {
        before: '\0',
        letters,
        spaces: len - letters,
        state,
    };
    (word, is_printed)
}

// Returns the letters of the next part of a word. If they are printable ASCII without hyphens and fit, they are all
// that is left.
#[inline(always)]
fn part_letters<C: Codes>(
    word: UnicodeWords,
    is_printed: bool,
    cuts: Cuts,
    codes: C,
) -> Result<Letters, AllocError>
    requires fits { word.letters ≤ length (C.codes codes) }
    requires printed { is_printed ≡ true → all_printed (take word.letters (C.codes codes)) ≡ true }
    ensures len { IfOk result (λ p. p.len ≡ part_len never (word_cuts UnicodeBreakProperties cuts) word.before 0
        (take word.letters (C.codes codes))) }
    ensures columns { IfOk result (λ p. p.columns ≡ code_columns (take p.len (take word.letters (C.codes codes)))) }
    ensures within { IfOk result (λ p. p.len ≤ length (take word.letters (C.codes codes))) }
{
    if is_printed && word.letters <= cuts.narrow {
        return Ok(Letters {
            len: word.letters,
            columns: word.letters,
        });
    }
    first_part::<UnicodeWords, C>(cuts, word.before, codes.front(word.letters))
}

// Returns the next part of a word, and the rest.
#[inline(always)]
fn word_part<C: Codes>(
    word: UnicodeWords,
    is_printed: bool,
    cuts: Cuts,
    codes: C,
) -> Result<(WordPart, UnicodeWords), AllocError>
    requires fits { fits_in word (C.codes codes) }
    requires some { is_done word ≡ false }
    requires printed { is_printed ≡ true → all_printed (take word.letters (C.codes codes)) ≡ true }
    ensures is { IfOk result (λ (p, after). IsPart (left_in word (word_cuts UnicodeBreakProperties cuts))
        (left_in after (word_cuts UnicodeBreakProperties cuts)) (C.codes codes) p.letters.len p.spaces) }
    ensures columns { IfOk result (λ (p, after). p.letters.columns
        ≡ code_columns (take p.letters.len (C.codes codes))) }
    ensures gap { IfOk result (λ (p, after). code_columns (take p.spaces (drop p.letters.len (C.codes codes)))
        ≡ p.spaces) }
    ensures some { IfOk result (λ (p, after). 0 < p.letters.len + p.spaces) }
    ensures within { IfOk result (λ (p, after). p.letters.len + p.spaces ≤ length (C.codes codes)) }
    ensures fits { IfOk result (λ (p, after). fits_in after (drop (p.letters.len + p.spaces) (C.codes codes))) }
{
    let letters = part_letters(word, is_printed, cuts, codes)?;
    if letters.len == word.letters {
        let part = WordPart {
            letters,
            spaces: word.spaces,
        };
        let after = UnicodeWords {
            letters: 0,
            spaces: 0,
            ..word
        };
        return Ok((part, after));
    }
    let part = WordPart { letters, spaces: 0 };
    let after = UnicodeWords {
        before: codes.at(letters.len - 1),
        letters: word.letters - letters.len,
        ..word
    };
    Ok((part, after))
}

impl WordEnd for UnicodeWords {
    ghost stop = { never };

    ghost solid = { λ _ _. refl };

    fn is_stop(_code: char) -> bool {
        false
    }
}

impl WordParts for UnicodeWords {
    ghost separator = { UnicodeBreakProperties };

    ghost left = { left_in };

    ghost fits = { fits_in };

    ghost nothing = { λ _ _. refl };

    fn start() -> UnicodeWords {
        UnicodeWords {
            before: '\0',
            letters: 0,
            spaces: 0,
            state: BreakState::start(),
        }
    }

    fn part<C: Codes>(self, cuts: Cuts, codes: C) -> Result<(WordPart, UnicodeWords), AllocError> {
        if self.letters == 0 && self.spaces == 0 {
            let (word, is_printed) = first_word(self.state, codes);
            return word_part(word, is_printed, cuts, codes);
        }
        word_part(self, false, cuts, codes)
    }
}
