//! Theorems about the definitions: where words begin.

ghost use Rattle.std.specs.Prelude.{◌≡◌, ℕ, true, false, List, ◌∷◌};
ghost use Rattle.miette_line_breaks.specs.rules.Characters.{character_of};
ghost use Rattle.miette_line_breaks.specs.rules.Classes.{is_closing, is_hard, is_mark, is_opening, is_regional};
ghost use Rattle.miette_line_breaks.specs.rules.Classes.{is_zero_width_space};
ghost use Rattle.miette_line_breaks.specs.rules.Rules.{bases, ends_in_half_flag, nearest_is, past_spaces};
ghost use Rattle.miette_line_breaks.specs.rules.Rules.{takes_marks};
ghost use Rattle.miette_text.specs.laws.PlainWords.{is_plain_text};
ghost use Rattle.miette_text.specs.declared.options.WordSeparator.TheVariants.{AsciiSpace};
ghost use Rattle.miette_text.specs.declared.options.WordSeparator.TheVariants.{UnicodeBreakProperties};
ghost use Rattle.miette_text.specs.rules.Wrapping.{starts_word, words};
ghost use Rattle.miette_text.specs.steps.Ends.{codes_of};
ghost use Rattle.miette_runs.specs.rules.Cells.{TaggedChar};

/// By Unicode, no word begins:
///
/// - with a combining mark, except after a space, a zero width space or a line terminator
/// - with a closing character, except after the last two, or after a zero width space and spaces
/// - after an opening bracket and its spaces
/// - inside a flag
pub fn words_law()
    ensures marks { (before : List ℕ) (b c : ℕ) → is_mark (character_of c).class ≡ true →
        takes_marks (character_of b).class ≡ true → starts_word UnicodeBreakProperties (b ∷ before) c ≡ false }
    ensures closing { (before : List ℕ) (b c : ℕ) → is_closing (character_of c).class ≡ true →
        nearest_is is_hard (bases (b ∷ before)) ≡ false →
        nearest_is is_zero_width_space (past_spaces (bases (b ∷ before))) ≡ false →
        starts_word UnicodeBreakProperties (b ∷ before) c ≡ false }
    ensures opening { (before : List ℕ) (b c : ℕ) → nearest_is is_opening (past_spaces (bases (b ∷ before))) ≡ true →
        starts_word UnicodeBreakProperties (b ∷ before) c ≡ false }
    ensures flags { (before : List ℕ) (b c : ℕ) → is_regional (character_of b).class ≡ true →
        is_regional (character_of c).class ≡ true → ends_in_half_flag (bases (b ∷ before)) ≡ true →
        starts_word UnicodeBreakProperties (b ∷ before) c ≡ false }
{}

/// Both separators give the same words of a plain line: one with spaces, ASCII letters and digits, quotes, backquotes,
/// `# & * < = > @ ^ _ ~ -`, and `. , : ;` that don't follow a space.
pub fn separators_law()
    ensures { (line : List TaggedChar) → is_plain_text (codes_of line) ≡ true →
        words UnicodeBreakProperties line ≡ words AsciiSpace line }
{}
