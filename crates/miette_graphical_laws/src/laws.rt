//! Further theorems about the text of graphical reports: which diagnostics are printed, how their rows are placed under
//! arrows, and what the shipped themes guarantee.

ghost use Rattle.std.specs.Prelude.{◌≡◌, ℕ, Bool, List, [], ◌∷◌, Option, Some, encode_utf8_all, false, map, true};
ghost use Rattle.miette_graphical_rules.specs.rules.PossibleAnswers.{IsTextByCalls, IsTextOf};
ghost use Rattle.miette_graphical_rules.specs.rules.Answers.{DiagnosticAnswer, Answers, unlisted};
ghost use Rattle.miette_graphical_rules.specs.laws.Clean.{AreCleanCharacters, AreCleanSettings, IsCleanTree};
ghost use Rattle.miette_graphical_rules.specs.laws.Alike.{AreAnsweredAlike, AreDrawnAlike};
ghost use Rattle.miette_graphical_rules.specs.laws.PlainTexts.{AreDrawings};
ghost use Rattle.miette_graphical_rules.specs.laws.PlainTexts.{ArePlain, unhighlighted_answers};
ghost use Rattle.std.specs.List.{AllByRecursion, Contains};
ghost use Rattle.miette_graphical_rules.specs.rules.DiagnosticText.{Drawing, rows_text};
ghost use Rattle.miette_graphical_rules.specs.laws.SnippetTheorems.{ShowsRanges};
ghost use Rattle.miette_graphical_rules.specs.laws.Paths.{HasPath, Step, printed_at};
ghost use Rattle.miette_graphical_rules.specs.laws.HeldRows.{Arrow, HoldsSnippets, HoldsUnder};
ghost use Rattle.miette_graphical_laws.specs.laws.Arrows.{DrawnRowsStand, FirstStands, InnerRowsStand, RowsStand};
ghost use Rattle.miette_graphical_laws.specs.laws.FittingRows.{fed_rows};
ghost use Rattle.miette_graphical_laws.specs.laws.Levels.{HasPlainBars, HaveRoom, HoldsLevels, LevelRowsStand};
ghost use Rattle.miette_graphical_laws.specs.laws.Levels.{StandAfterBars};
ghost use Rattle.miette_graphical_laws.specs.laws.NumberRows.{IsPlainLine, PrintsItself, PrintsNumber};
ghost use Rattle.miette_graphical_laws.specs.laws.RowRoom.{WordsHaveRoom};
ghost use Rattle.miette_graphical_laws.specs.laws.RowTexts.{PrintsRow};
ghost use Rattle.miette_graphical_laws.specs.laws.ShownLines.{ShownLinesShow, ShownLinesStand, SourcesStand};
ghost use Rattle.miette_graphical_laws.specs.laws.SourceSettings.{AreSettingsAfter, AreSettingsWith};
ghost use Rattle.miette_graphical_laws.specs.laws.WholeRows.{WholeDrawnStand, WholeFirstStands, WholeRowsStand};
ghost use Rattle.miette_graphical_laws.specs.laws.Determined.{IsDetermined};
ghost use Rattle.miette_graphical_rules.specs.views.HandlerState.{AreCallsOf, HandlerState, draws_plain, follows_of};
ghost use Rattle.miette_highlight.specs.rules.FollowingCalls.{FollowTokens};
ghost use Rattle.miette_highlight.specs.declared.rule.Rule.{Rule};
ghost use Rattle.miette_highlight.specs.declared.tokens.OpenPart.{OpenPart};
ghost use Rattle.miette_protocol.specs.views.Meaning.{Label};
ghost use Rattle.miette_protocol.specs.rules.Reading.{Source};
ghost use Rattle.miette_snippet_rules.specs.rules.SnippetSettings.{SnippetSettings};
ghost use Rattle.miette_snippet_rules.specs.rules.SnippetLayout.{SnippetContext};
ghost use Rattle.miette_lines.specs.rules.Lines.{Line};
ghost use Rattle.miette_runs.specs.rules.Runs.{Fragment, print};
ghost use Rattle.miette_protocol.specs.declared.protocol.Severity.{Severity};
ghost use Rattle.miette_graphical_rules.specs.laws.CharacterSets.{AreNarrow, AreShipped};
ghost use Rattle.miette_graphical_rules.specs.rules.PrintedDiagnostics.{PrintedDiagnostic, all_read};
ghost use Rattle.miette_graphical_rules.specs.rules.PrintedDiagnostics.{diagnostics_of};
ghost use Rattle.miette_graphical_rules.specs.rules.GraphicalSettings.{GraphicalSettings, default_settings};
ghost use Rattle.miette_graphical_rules.specs.rules.Answers.{SourceAnswer, sources_listed};
ghost use Rattle.miette_graphical_rules.specs.rules.Snippets.{drawn_rows, drawn_without_fixes, own_rows, source_rows};
ghost use Rattle.miette_graphical_rules.specs.rules.Snippets.{whole_drawing};
ghost use Rattle.miette_graphical_rules.specs.rules.Sources.{LabelledSource, drawn_with, some_further, sources_of};
ghost use Rattle.miette_tree.specs.rules.Diagnosis.{Diagnosis, Section};
ghost use Rattle.miette_tree.specs.rules.DiagnosticParts.{given_labels};
ghost use Rattle.miette_graphical_rules.specs.rules.Text.{report_text};
ghost use Rattle.miette_tree.specs.rules.Tree.{Tree};
ghost use Rattle.miette_style.specs.declared.theme.Terminal.{Terminal};
ghost use Rattle.miette_style.specs.rules.Rows.{Row};
ghost use Rattle.miette_style.specs.rules.Themes.{Characters, no_styles, terminal_theme, Theme};
ghost use Rattle.miette_runs.specs.rules.Cells.{TaggedChar};
ghost use Rattle.miette_runs.specs.rules.Sequences.{erase};
ghost use Rattle.miette_text.specs.rules.Wrapping.{Cuts};
ghost use Rattle.miette_columns.specs.rules.Widths.{width_of};

use miette_graphical_rules::laws::{colours_law, drawn_rows_law};
use miette_highlight::highlight::Highlighter;
use miette_text::wrap_laws::{encoding_law, printing_law};

/// A text in plain styles has no colours to remove, if no line has highlighter pieces (`text`). The same holds for
/// every text that a handler may print without highlighting (`printed`). The shipped themes without colours have plain
/// styles (`shipped`).
pub fn plain_law()
    ensures text { (drawing : Drawing) (s : GraphicalSettings) (t : Tree) (a : Answers) → AreDrawings drawing →
        AreCleanSettings s → IsCleanTree t → ArePlain s.theme.styles → unhighlighted_answers a ≡ a →
        erase (report_text drawing s t a) ≡ report_text drawing s t a }
    ensures printed { (s : GraphicalSettings) (t : Tree) (bytes : List ℕ) → AreCleanSettings s → IsCleanTree t →
        ArePlain s.theme.styles → IsTextOf whole_drawing s true t bytes → erase bytes ≡ bytes }
    ensures shipped { ArePlain no_styles }
{
    colours_law();
    drawn_rows_law();
    encoding_law();
}

/// If every source always reads and lines aren't highlighted, only one text of a report is possible: the one under
/// default answers.
pub fn only_law()
    ensures { (s : GraphicalSettings) (t : Tree) (bytes : List ℕ) → IsTextOf whole_drawing s true t bytes →
        all_read (diagnostics_of s t) ≡ true → bytes ≡ encode_utf8_all (report_text whole_drawing s t unlisted) }
{}

/// A text that is printed by certain calls on a highlighter is a text of the report. So every theorem about the texts
/// of a report applies to it.
pub fn asked_law<H: Highlighter>()
    ensures { (it after : HandlerState H) (t : Tree) (bytes : List ℕ) →
        IsTextByCalls whole_drawing it.settings (draws_plain H.is_blank it) (AreCallsOf H.may_follow it after) t bytes →
        IsTextOf whole_drawing it.settings (draws_plain H.is_blank it) t bytes }
{}

/// Suppose every source always reads, and the calls so far determine what a highlighter answers for a line. Then only
/// one text of a report is possible for given calls (`text`). A highlighter made of rules is determined in this way,
/// since a line is split into tokens in only one way (`rules`).
pub fn determined_law<H: Highlighter>()
    ensures text { (it after other : HandlerState H) (t : Tree) (some others : List ℕ) →
        IsDetermined (follows_of H.may_follow it) → follows_of H.may_follow after [] →
        follows_of H.may_follow other [] → all_read (diagnostics_of it.settings t) ≡ true →
        IsTextByCalls whole_drawing it.settings (draws_plain H.is_blank it) (AreCallsOf H.may_follow it after) t some →
        IsTextByCalls whole_drawing it.settings (draws_plain H.is_blank it) (AreCallsOf H.may_follow it other) t others
        →
        some ≡ others }
    ensures rules { (rules : List Rule) (left_open : Option OpenPart) → IsDetermined (FollowTokens rules left_open) }
{}

/// The printed diagnostics are those at a path from the outermost one. A step leads to a cause, if causes are shown, or
/// to a related report by its index.
pub fn paths_law()
    ensures named { (s : GraphicalSettings) (t : Tree) (p : PrintedDiagnostic) → Contains (diagnostics_of s t) p →
        HasPath s t p }
    ensures only { (s : GraphicalSettings) (t : Tree) (path : List Step) (p : PrintedDiagnostic) → printed_at s t path
        ≡ Some p →
        Contains (diagnostics_of s t) p }
{}

/// A report's text contains snippets and fixes only of printed diagnostics. It is determined by how these are drawn
/// (`rows`) and by the answers at their paths (`answers`). If none of them has labels over a further source, the text
/// is that of their own labels (`without_snippets`). If none has a fix, it is that without fixes (`without_fixes`). The
/// rows of labels over one source are those of a diagnostic with only these labels (`sources`).
pub fn printed_law()
    ensures rows { (drawing other : Drawing) (s : GraphicalSettings) (t : Tree) (a : Answers) →
        AllByRecursion (AreDrawnAlike drawing other) (diagnostics_of s t) →
        report_text drawing s t a ≡ report_text other s t a }
    ensures answers { (drawing : Drawing) (s : GraphicalSettings) (t : Tree) (a b : Answers) → AreAnsweredAlike s t a b
        →
        report_text drawing s t a ≡ report_text drawing s t b }
    ensures without_snippets { (s : GraphicalSettings) (t : Tree) (a : Answers) →
        AllByRecursion (λ p. some_further p.meaning.snippets ≡ false) (diagnostics_of s t) →
        report_text whole_drawing s t a ≡ report_text (record whole_drawing { rows = own_rows }) s t a }
    ensures without_fixes { (s : GraphicalSettings) (t : Tree) (a : Answers) →
        AllByRecursion (λ p. p.meaning.fixes ≡ []) (diagnostics_of s t) →
        report_text whole_drawing s t a ≡ report_text drawn_without_fixes s t a }
    ensures sources { (s : GraphicalSettings) (it : LabelledSource) (m : Diagnosis) (a : SourceAnswer) →
        given_labels m.labels ≡ it.labels → m.snippets ≡ [] →
        source_rows s it.source it.labels a ≡ drawn_rows s it.source m (sources_listed (a ∷ [])) }
{}

/// If text is wrapped, rows that fit under an arrow stay whole. They follow one another, without trailing spaces and in
/// their colours, each after the arrow's bar (`rows`). The first row follows the arrow itself (`first`). The same holds
/// for the rows of an inner report without its outer line feeds (`inner`), and for drawings inside it (`drawn`). The
/// rows of snippets are such rows (`printed`).
pub fn arrows_law()
    ensures rows { (s : GraphicalSettings) (outer : Option Severity) (is_last : Bool) (text : List ℕ) →
        s.wrapping.wrap_lines ≡ true → RowsStand s outer is_last text }
    ensures first { (s : GraphicalSettings) (outer : Option Severity) (is_last : Bool) (text : List ℕ) →
        s.wrapping.wrap_lines ≡ true → FirstStands s outer is_last text }
    ensures inner { (s : GraphicalSettings) (arrow : Arrow) (front back : List ℕ) (rows : List (List ℕ)) →
        s.wrapping.wrap_lines ≡ true → InnerRowsStand s arrow front back rows }
    ensures drawn { (s : GraphicalSettings) (arrow : Arrow) (drawn : GraphicalSettings → List ℕ) (text : List ℕ) →
        s.wrapping.wrap_lines ≡ true → HoldsUnder (arrow ∷ []) s drawn text → DrawnRowsStand s arrow drawn text }
    ensures printed { (rows : List (List Fragment)) → fed_rows (map print rows) ≡ rows_text rows }
{}

/// The same holds for nested arrows: rows that fit on each level follow one another after the bars of all arrows
/// (`drawn`). So do the rows of the snippets at each path, each as a line of the output (`bytes`). Rows no wider than
/// what is left under the innermost arrow fit on each level (`room`). Rows with visible text follow all bars at once
/// (`bars`) if the theme's bar is a visible character, as in each shipped theme (`shipped`).
pub fn levels_law()
    ensures drawn { (s : GraphicalSettings) (arrows : List Arrow) (drawn : GraphicalSettings → List ℕ) (text : List ℕ) →
        s.wrapping.wrap_lines ≡ true → HoldsUnder arrows s drawn text → LevelRowsStand s arrows drawn text }
    ensures bytes { (drawing : Drawing) (s : GraphicalSettings) (t : Tree) (a : Answers) (text : List ℕ) →
        s.wrapping.wrap_lines ≡ true → HoldsSnippets drawing s t a text →
        HoldsLevels drawing s t a (encode_utf8_all text) }
    ensures room { (s : GraphicalSettings) (arrows : List Arrow) (rows : List (List ℕ)) → HasPlainBars s →
        HaveRoom s arrows rows }
    ensures bars { (s : GraphicalSettings) (arrows : List Arrow) (rows : List (List ℕ)) → HasPlainBars s →
        StandAfterBars s arrows rows }
    ensures shipped { (s : GraphicalSettings) → AreShipped s.theme.characters → HasPlainBars s }
{}

/// If text isn't wrapped, rows with visible characters stay as they are, however wide. They follow one another after
/// the arrow's bar (`rows`), and the first row follows the arrow (`first`). So do the rows of a drawing inside an inner
/// report (`drawn`).
pub fn whole_rows_law()
    ensures rows { (s : GraphicalSettings) (outer : Option Severity) (is_last : Bool) (text : List ℕ) →
        s.wrapping.wrap_lines ≡ false → WholeRowsStand s outer is_last text }
    ensures first { (s : GraphicalSettings) (outer : Option Severity) (is_last : Bool) (text : List ℕ) →
        s.wrapping.wrap_lines ≡ false → WholeFirstStands s outer is_last text }
    ensures drawn { (s : GraphicalSettings) (arrow : Arrow) (drawn : GraphicalSettings → List ℕ) (text : List ℕ) →
        s.wrapping.wrap_lines ≡ false → HoldsUnder (arrow ∷ []) s drawn text → WholeDrawnStand s arrow drawn text }
{}

/// The row of a source line is its right-aligned number, the bar, the gutter's spaces and the text, with tabs as spaces
/// (`rows`). This holds if the line isn't cut, no multi-line label is on it, it isn't highlighted, and numbers have the
/// plain style. Printable ASCII text is printed byte by byte (`text`).
pub fn number_rows_law()
    ensures rows { (c : SnippetContext) (line : Line) (number : ℕ) → IsPlainLine c line → PrintsNumber c line number }
    ensures text { (s : SnippetSettings) (bytes : List ℕ) (line : Line) → PrintsItself s bytes line }
{}

/// Suppose labels show lines as the clause `lines` of a rendered report says. Then the rows of each such line that
/// isn't left out appear together among those of the labels (`rows`). Their text begins at a fixed column, and label
/// texts are joined to their underlines (`texts`). The rows over each source appear together among those of the
/// diagnostic (`sources`).
pub fn shown_lines_law()
    ensures rows { (s : GraphicalSettings) (source : Source) (labels : List Label) → ShowsRanges s source labels →
        ShownLinesStand s source labels }
    ensures texts { (s : GraphicalSettings) (source : Source) (labels : List Label)
        → AreNarrow width_of s.theme.characters →
        ShowsRanges s source labels → ShownLinesShow s source labels }
    ensures sources { (s : GraphicalSettings) (source : Option Source) (m : Diagnosis) (a : DiagnosticAnswer) →
        SourcesStand (drawn_with m.snippets s) (sources_of source m) a.sources (drawn_rows s source m a) }
{}

/// The settings of a source differ from those of the diagnostic in two things only. Highlight styles continue after
/// the labels of earlier sources (`after`). If a further source has a label, frames of one-line snippets show their
/// position (`further`).
pub fn source_settings_law()
    ensures after { (n : ℕ) (s : GraphicalSettings) → AreSettingsAfter n s }
    ensures further { (sections : List Section) (s : GraphicalSettings) → AreSettingsWith sections s }
{}

/// Any row of a report is printed as the characters of its glyphs, each run in its style. Without colours, its bytes
/// are exactly these characters, if the row contains no escape.
pub fn row_text_law()
    ensures { (row : Row) → PrintsRow row }
{
    encoding_law();
    printing_law();
}

/// If words that are too wide are broken, each row of wrapped text has room. A part of a word has at most the columns
/// of the narrowest row, or only one character with columns. Each further word of a row ends within the row's columns.
pub fn row_room_law()
    ensures { (c : Cuts) (cells : List TaggedChar) → c.break_words ≡ true → WordsHaveRoom c cells }
{}

/// In the shipped themes, each character of frames, gutters and underlines is one column wide (`narrow`), and no
/// character is an escape (`clean`). So a handler's default settings contain no escape, in any styles (`settings`). The
/// theme that fits a terminal has such characters (`terminal`).
pub fn themes_law()
    ensures narrow { (c : Characters) → AreShipped c → AreNarrow width_of c }
    ensures clean { (c : Characters) → AreShipped c → AreCleanCharacters c }
    ensures settings { (theme : Theme) → AreShipped theme.characters → AreCleanSettings (default_settings theme) }
    ensures terminal { (t : Terminal) → AreShipped (terminal_theme t).characters }
{}
