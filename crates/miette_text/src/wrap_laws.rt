//! Theorems about the definitions: deleting colours commutes with wrapping, joining, trimming line feeds and printing;
//! and wrapping keeps everything except spaces and line feeds.

ghost use Rattle.std.specs.Prelude.{◌≡◌, ℕ, List, [], ◌++◌, flat_map, map, encode_utf8_all};
ghost use Rattle.miette_runs.specs.rules.Cutting.{trim_leading_feeds, trim_trailing_feeds};
ghost use Rattle.miette_runs.specs.rules.Runs.{HaveNoEscape, Fragment, made_plain, print};
ghost use Rattle.miette_runs.specs.rules.Sequences.{Token, erase, tokens};
ghost use Rattle.miette_text.specs.rules.ColouredTexts.{AreColoured, plain_plan};
ghost use Rattle.miette_text.specs.laws.FilledRows.{IsFilled, IsTrimmed, all_words};
ghost use Rattle.miette_text.specs.laws.Tame.{AllTame, IsTame};
ghost use Rattle.miette_text.specs.rules.Wrapping.{Cuts, WrapPlan, Word, rows, text_lines, text_rows, trimmed_row};
ghost use Rattle.miette_text.specs.rules.Wrapping.{wrapped_text, wrapped_tokens};
ghost use Rattle.miette_text.specs.laws.Kept.{solid};
ghost use Rattle.miette_runs.specs.rules.Cells.{printed_columns};

/// Wrapping tame texts gives a tame text, and colours can be deleted before or after.
pub fn wrapping_law()
    ensures tame { (p : WrapPlan (List ℕ)) (text : List ℕ) → AllTame p text → IsTame (wrapped_text p text) }
    ensures erase { (p : WrapPlan (List ℕ)) (text : List ℕ) → AllTame p text →
        erase (wrapped_text p text) ≡ wrapped_text (plain_plan p) (erase text) }
{}

/// The same holds for joining two texts.
pub fn joining_law()
    ensures tame { (x y : List ℕ) → IsTame x → IsTame y → IsTame (x ++ y) }
    ensures erase { (x y : List ℕ) → IsTame x → IsTame y → erase (x ++ y) ≡ erase x ++ erase y }
{}

/// The same holds for trimming line feeds at either end.
pub fn cutting_law()
    ensures leading_tame { (text : List ℕ) → IsTame text → IsTame (trim_leading_feeds text) }
    ensures leading { (text : List ℕ) → IsTame text → erase (trim_leading_feeds text)
        ≡ trim_leading_feeds (erase text) }
    ensures trailing_tame { (text : List ℕ) → IsTame text → IsTame (trim_trailing_feeds text) }
    ensures trailing { (text : List ℕ) → IsTame text → erase (trim_trailing_feeds text)
        ≡ trim_trailing_feeds (erase text) }
{}

/// The same holds for printing runs and links, if the URLs contain no escapes.
pub fn printing_law()
    ensures tame { (runs : List Fragment) → HaveNoEscape runs → IsTame (print runs) }
    ensures erase { (runs : List Fragment) → HaveNoEscape runs → erase (print runs) ≡ print (map made_plain runs) }
{}

/// Colours can be deleted from a text's bytes or from its characters.
pub fn encoding_law()
    ensures { (text : List ℕ) → erase (encode_utf8_all text) ≡ encode_utf8_all (erase text) }
{}

/// Colours have no columns.
pub fn columns_law()
    ensures { (text : List ℕ) → IsTame text → printed_columns (tokens (erase text)) ≡ printed_columns (tokens text) }
{}

/// If every escape is part of a colour, colours can be deleted before or after wrapping.
pub fn colours_law()
    ensures { (p : WrapPlan (List ℕ)) (text : List ℕ) → AreColoured p text →
        erase (wrapped_text p text) ≡ wrapped_text (plain_plan p) (erase text) }
{}

/// The lines that words fill contain the words in order. A word begins a new line exactly if it doesn't fit after those
/// before it. Only one list of lines has this property. A line is printed without its last spaces, and otherwise
/// complete.
pub fn rows_law()
    ensures words { (room further : ℕ) (words : List Word) → all_words (rows room further words) ≡ words }
    ensures filled { (room further : ℕ) (words : List Word) → IsFilled room further (rows room further words) }
    ensures only { (room further : ℕ) (found : List (List Word)) → IsFilled room further found →
        found ≡ rows room further (all_words found) }
    ensures spaces { (row : List Token) → IsTrimmed row (trimmed_row row) }
    ensures only_spaces { (row found : List Token) → IsTrimmed row found → found ≡ trimmed_row row }
{}

/// Wrapping drops or repeats only spaces and line feeds. Everything else, including escape sequences, stays in order.
/// This holds for the lines of a text, and for the wrapped text without indents.
pub fn keeping_law()
    ensures rows { (c : Cuts) (room further : ℕ) (text : List Token) →
        solid (flat_map (λ row. row) (text_rows c room further (text_lines text))) ≡ solid text }
    ensures text { (p : WrapPlan (List Token)) (text : List Token) → p.first ≡ [] → p.further ≡ [] →
        solid (wrapped_tokens p text) ≡ solid text }
{}
