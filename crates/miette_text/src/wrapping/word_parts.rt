//! Where the parts of words and the lines end.

ghost use Rattle.std.proofs.Common.{arith};
ghost use Rattle.std.proofs.lemmas.Bool.Decides.{nat_tests};
ghost use Rattle.std.specs.Prelude.{◌≡◌, ◌≤◌, ◌<◌, ◌+◌, ◌==◌, ◌&&◌, ℕ, Bool, true, false, List, []};
ghost use Rattle.std.specs.Prelude.{◌∷◌, ◌^◌, IfOk, drop, if◌then◌else◌, length, nat_lt, refl, suc, take};
ghost use Rattle.std.specs.Char.{is_ascii_alphabetic};
ghost use Rattle.miette_text.specs.declared.options.WordSeparator.{WordSeparator};
ghost use Rattle.miette_text.specs.declared.options.WordSeparator.TheVariants.{AsciiSpace};
ghost use Rattle.miette_text.specs.steps.Ends.{IsFirstRow, IsPart, bare_len, begins_word, gap_len};
ghost use Rattle.miette_text.specs.steps.Ends.{is_solid, letters_len, part_len, solid_len};
ghost use Rattle.miette_text.specs.steps.Ends.{words_after};
ghost use Rattle.miette_text.specs.views.Cutting.{word_cuts};
ghost use Rattle.miette_runs.specs.rules.Cells.{TaggedChar};
ghost use Rattle.miette_runs.specs.steps.Cells.{code_columns, bare_cells};
ghost use Rattle.miette_text.specs.rules.Wrapping as rules;
ghost use Rattle.miette_text.specs.rules.Wrapping.{Word, cut_words, is_alphanumeric, is_space};

use miette_lines::sums::sum;
use miette_runs::runs::codes::Codes;
use miette_runs::runs::columns::char_columns;
use std::alloc::AllocError;

/// How words are split: after hyphens, and where they are wider than the narrower line.
#[derive(Clone, Copy)]
pub(crate) struct Cuts {
    pub(crate) split_hyphens: bool,
    pub(crate) break_words: bool,
    pub(crate) narrow: usize,
}

/// The first letters of a word: their number and their columns.
#[derive(Clone, Copy)]
pub(crate) struct Letters {
    pub(crate) len: usize,
    pub(crate) columns: usize,
}

/// A part of a word: its letters, and the number of spaces after them.
#[derive(Clone, Copy)]
pub(crate) struct WordPart {
    pub(crate) letters: Letters,
    pub(crate) spaces: usize,
}

/// The codes that end every word.
pub(crate) trait WordEnd {
    ghost stop: { ℕ → Bool };

    fn is_stop(code: char) -> bool
        ensures { result ≡ stop code };

    /// No code from `.` to `~` does.
    ghost solid: { (c : ℕ) → is_solid c ≡ true → stop c ≡ false };
}

/// The words of a line, part by part from the front.
pub(crate) trait WordParts: Copy {
    /// Where words are separated.
    ghost separator: { WordSeparator };

    /// The parts of the rest of a line that has these cells.
    ghost left: { Self → rules.Cuts → List TaggedChar → List Word };

    /// Whether the rest of a line has these codes.
    ghost fits: { Self → List ℕ → Type 0 };

    /// Returns all words of a line.
    fn start() -> Self
        ensures left { (cuts : rules.Cuts) (cells : List TaggedChar) → cuts.separator ≡ separator →
            left result cuts cells ≡ cut_words cuts cells }
        ensures fits { (codes : List ℕ) → fits result codes };

    /// Returns the next part, and the rest.
    fn part<C: Codes>(self, cuts: Cuts, codes: C) -> Result<(WordPart, Self), AllocError>
        requires fits { fits self (C.codes codes) }
        requires some { 0 < length (C.codes codes) }
        ensures is { IfOk result (λ (p, after). IsPart (left self (word_cuts separator cuts))
            (left after (word_cuts separator cuts)) (C.codes codes) p.letters.len p.spaces) }
        ensures columns { IfOk result (λ (p, after). p.letters.columns
            ≡ code_columns (take p.letters.len (C.codes codes))) }
        ensures gap { IfOk result (λ (p, after). code_columns (take p.spaces (drop p.letters.len (C.codes codes)))
            ≡ p.spaces) }
        ensures some { IfOk result (λ (p, after). 0 < p.letters.len + p.spaces) }
        ensures within { IfOk result (λ (p, after). p.letters.len + p.spaces ≤ length (C.codes codes)) }
        ensures fits { IfOk result (λ (p, after). fits after (drop (p.letters.len + p.spaces) (C.codes codes))) };

    /// If nothing is left, there is no part.
    ghost nothing: { (it : Self) (cuts : rules.Cuts) → left it cuts [] ≡ [] };
}

fn is_alphanumeric(c: char) -> bool
    ensures { result ≡ is_alphanumeric c }
{
    ('0' <= c && c <= '9') || ('A' <= c && c <= 'Z') || ('a' <= c && c <= 'z')
}

// Whether a letter or digit is at the front.
fn begins_word<C: Codes>(codes: C) -> bool
    ensures { result ≡ begins_word (C.codes codes) }
{
    let n = codes.count();
    if n == 0 {
        return false;
    }
    is_alphanumeric(codes.at(0))
}

// Whether a word is split after a code, given the code before it and those after it.
fn is_cut<C: Codes>(split_hyphens: bool, before: char, code: char, after: C) -> bool
    ensures { result ≡ (split_hyphens && ((code == 45) && is_alphanumeric before && begins_word (C.codes after))) }
{
    split_hyphens && code == '-' && is_alphanumeric(before) && begins_word(after)
}

// A class of codes.
trait Class {
    /// Which codes are in the class.
    ghost class: { ℕ → Bool };

    /// How many codes at the front are in the class.
    ghost count: { List ℕ → ℕ };

    fn has(code: char) -> bool
        ensures { result ≡ class code };

    /// The empty list has none.
    ghost none: { count [] ≡ 0 };

    /// A first code in the class adds one.
    ghost more: { (c : ℕ) (cs : List ℕ) → count (c ∷ cs) ≡ (if class c then suc (count cs) else 0) };
}

struct AsciiLetters;

impl Class for AsciiLetters {
    ghost class = { is_ascii_alphabetic };

    ghost count = { letters_len };

    ghost none = { refl };

    ghost more = { λ _ _. refl };

    #[inline(always)]
    fn has(code: char) -> bool {
        code.is_ascii_alphabetic()
    }
}

struct SolidCodes;

impl Class for SolidCodes {
    ghost class = { is_solid };

    ghost count = { solid_len };

    ghost none = { refl };

    ghost more = { λ _ _. refl };

    #[inline(always)]
    fn has(code: char) -> bool {
        '.' <= code && code <= '~'
    }
}

struct SpaceCodes;

impl Class for SpaceCodes {
    ghost class = { is_space };

    ghost count = { gap_len };

    ghost none = { refl };

    ghost more = { λ _ _. refl };

    #[inline(always)]
    fn has(code: char) -> bool {
        code == ' '
    }
}

// Counts the codes of a class at the front.
#[inline(always)]
fn class_len<K: Class, C: Codes>(codes: C) -> usize
    ensures value { result ≡ K.count (C.codes codes) }
    ensures within { result ≤ length (C.codes codes) }
{
    let n = codes.count();
    let mut i: usize = 0;
    'rest: while i < n {
        let code = codes.at(i);
        if !K::has(code) {
            return i;
        }
        i += 1;
    }
    i
}

/// Counts the ASCII letters at the front.
pub(crate) fn letters_len<C: Codes>(codes: C) -> usize
    ensures value { result ≡ letters_len (C.codes codes) }
    ensures within { result ≤ length (C.codes codes) }
{
    class_len::<AsciiLetters, C>(codes)
}

// Counts the codes from `.` to `~` at the front. Each has one column, and no word ends at it or is split after it.
#[inline(always)]
fn solid_len<C: Codes>(codes: C) -> usize
    ensures value { result ≡ solid_len (C.codes codes) }
    ensures within { result ≤ length (C.codes codes) }
{
    class_len::<SolidCodes, C>(codes)
}

/// Returns the letters of the next part, after a code. Solid letters that fit are skipped at once.
pub(crate) fn first_part<T: WordEnd, C: Codes>(
    cuts: Cuts,
    first: char,
    codes: C,
) -> Result<Letters, AllocError>
    ensures len { IfOk result (λ p. (separator : WordSeparator) →
        p.len ≡ part_len T.stop (word_cuts separator cuts) first 0 (C.codes codes)) }
    ensures columns { IfOk result (λ p. p.columns ≡ code_columns (take p.len (C.codes codes))) }
    ensures within { IfOk result (λ p. p.len ≤ length (C.codes codes)) }
    ensures counted { length (C.codes codes) < 2 ^ 64 }
{
    let most = codes.count().min(cuts.narrow);
    let n = solid_len(codes.front(most));
    if n == 0 {
        return part_after::<T, C>(cuts, first, 0, codes);
    }
    let last = codes.at(n - 1);
    let rest = part_after::<T, C>(cuts, last, n, codes.from(n))?;
    Ok(Letters {
        len: n + rest.len,
        columns: rest.columns,
    })
}

// Whether a word is broken before the character that takes it from `used` to `both` columns.
fn is_wide(cuts: Cuts, used: usize, both: usize) -> bool
    ensures { result ≡ (cuts.break_words && (nat_lt 0 used && nat_lt cuts.narrow both)) }
{
    cuts.break_words && 0 < used && cuts.narrow < both
}

// Returns the letters of the next part, after a code and with `columns` columns in use.
#[inline(always)]
fn part_after<T: WordEnd, C: Codes>(
    cuts: Cuts,
    first: char,
    columns: usize,
    codes: C,
) -> Result<Letters, AllocError>
    ensures len { IfOk result (λ p. (separator : WordSeparator) →
        p.len ≡ part_len T.stop (word_cuts separator cuts) first columns (C.codes codes)) }
    ensures columns { IfOk result (λ p. p.columns ≡ columns + code_columns (take p.len (C.codes codes))) }
    ensures within { IfOk result (λ p. p.len ≤ length (C.codes codes)) }
{
    let mut used = columns;
    let mut before = first;
    let n = codes.count();
    let mut i: usize = 0;
    'rest: while i < n {
        let code = codes.at(i);
        if T::is_stop(code) {
            return Ok(Letters {
                len: i,
                columns: used,
            });
        }
        let both = sum(used, char_columns(code))?;
        if is_wide(cuts, used, both) {
            return Ok(Letters {
                len: i,
                columns: used,
            });
        }
        used = both;
        let next = i + 1;
        if is_cut(cuts.split_hyphens, before, code, codes.from(next)) {
            return Ok(Letters {
                len: next,
                columns: used,
            });
        }
        before = code;
        i = next;
    }
    Ok(Letters {
        len: i,
        columns: used,
    })
}

/// Counts the spaces at the front.
pub(crate) fn gap_len<C: Codes>(codes: C) -> usize
    ensures value { result ≡ gap_len (C.codes codes) }
    ensures within { result ≤ length (C.codes codes) }
{
    class_len::<SpaceCodes, C>(codes)
}

/// Counts the codes without trailing spaces.
pub(crate) fn bare_len<C: Codes>(row: C) -> usize
    ensures value { result ≡ bare_len (bare_cells (C.codes row)) }
    ensures within { result ≤ length (C.codes row) }
{
    let mut n = row.count();
    'rest: while 0 < n {
        let last = row.at(n - 1);
        if last != ' ' {
            return n;
        }
        n -= 1;
    }
    0
}

/// Words separated by spaces. It keeps the code before them.
#[derive(Clone, Copy)]
pub(crate) struct SpaceWords {
    pub(crate) before: char,
}

impl WordEnd for SpaceWords {
    ghost stop = { is_space };

    ghost solid = { λ c h. Prim.grind (arith, nat_tests) };

    fn is_stop(code: char) -> bool {
        code == ' '
    }
}

impl WordParts for SpaceWords {
    ghost separator = { AsciiSpace };

    ghost left = { λ it cuts cells. words_after cuts it.before cells };

    ghost fits = { λ _ _. Unit {0} };

    ghost nothing = { λ _ _. refl };

    fn start() -> SpaceWords {
        SpaceWords { before: '\0' }
    }

    fn part<C: Codes>(self, cuts: Cuts, codes: C) -> Result<(WordPart, SpaceWords), AllocError> {
        let letters = first_part::<SpaceWords, C>(cuts, self.before, codes)?;
        let spaces = gap_len(codes.from(letters.len));
        let before = codes.at(letters.len + spaces - 1);
        Ok((WordPart { letters, spaces }, SpaceWords { before }))
    }
}

/// Counts the codes of the first line, and returns the rest.
pub(crate) fn row_len<W: WordParts, C: Codes>(
    cuts: Cuts,
    room: usize,
    first: W,
    codes: C,
) -> Result<(usize, W), AllocError>
    requires { W.fits first (C.codes codes) }
    ensures value { IfOk result (λ (n, after). IsFirstRow (W.left first (word_cuts W.separator cuts))
        (W.left after (word_cuts W.separator cuts)) room (C.codes codes) n) }
    ensures some { IfOk result (λ (n, after). 0 < length (C.codes codes) → 0 < n) }
    ensures within { IfOk result (λ (n, after). n ≤ length (C.codes codes)) }
    ensures fits { IfOk result (λ (n, after). W.fits after (drop n (C.codes codes))) }
{
    let n = codes.count();
    let mut end: usize = 0;
    let mut used = 0;
    let mut words = first;
    'rest: while end < n {
        let (part, after) = words.part(cuts, codes.from(end))?;
        let wide = sum(used, part.letters.columns)?;
        if 0 < end && room < wide {
            return Ok((end, words));
        }
        used = sum(wide, part.spaces)?;
        end = end + part.letters.len + part.spaces;
        words = after;
    }
    Ok((end, words))
}
