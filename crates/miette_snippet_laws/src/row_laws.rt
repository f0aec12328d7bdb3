//! Theorems about the rows of snippets: underlines, label texts, cut lines, colours.

ghost use Rattle.std.specs.Prelude.{◌≡◌, ◌≢◌, ◌≤◌, ℕ, List, ◌∷◌, [], Some, None, Bool, true, false, map};
ghost use Rattle.std.specs.Prelude.{IfSome, length, max, ◌<◌};
ghost use Rattle.std.specs.Option.{option_map};
ghost use Rattle.std.specs.List.{AllByRecursion};
ghost use Rattle.miette_protocol.specs.views.Meaning.{Label};
ghost use Rattle.miette_protocol.specs.rules.Reading.{Source, Contents};
ghost use Rattle.miette_snippet_laws.specs.laws.Breaks.{HasBreak};
ghost use Rattle.miette_snippet_laws.specs.laws.Clean.{AreCleanDrawings, IsCleanLabel, IsCleanRow, IsCleanSource};
ghost use Rattle.miette_snippet_laws.specs.laws.Ends.{AreAfterShown, AreAfterText, EndsStandAfter, draws_ends};
ghost use Rattle.miette_snippet_laws.specs.laws.Ends.{with_ends};
ghost use Rattle.miette_snippet_laws.specs.laws.Cuts.{AreAsWide, AreMoved, FitsLimit, GroupsFit, IsCutBy, IsCutByReach};
ghost use Rattle.miette_snippet_laws.specs.laws.Cuts.{IsSameAt, IsCellWithin, most_columns, pieces_shown};
ghost use Rattle.miette_snippet_laws.specs.laws.LabelUnderlines.{CellsKeepColumns, ArePastText, AreUnderLabels};
ghost use Rattle.miette_snippet_laws.specs.laws.PlainStyles.{ArePlain, IsPlainRow, restyled_snippets};
ghost use Rattle.miette_snippet_laws.specs.laws.PlainStyles.{unhighlighted_answer};
ghost use Rattle.miette_style.specs.rules.Themes.{Styles, Theme};
ghost use Rattle.miette_style.specs.rules.Rows.{Run, glyph_columns, glyphs_of};
ghost use Rattle.miette_labels.specs.rules.Answers.{Answers, Highlight};
ghost use Rattle.miette_labels.specs.rules.Groups.{groups_of, in_order};
ghost use Rattle.miette_labels.specs.rules.Labels.{DrawnLabel, some_shows_end, one_line, multi_line};
ghost use Rattle.miette_snippet_rules.specs.rules.Underlines.{MeasuredText, marks, underlines_at, AreApart};
ghost use Rattle.miette_lines.specs.rules.Lines.{Line};
ghost use Rattle.miette_columns.specs.rules.Cells.{Cell};
ghost use Rattle.miette_labels.specs.rules.Contexts.{lines_of_contents};
ghost use Rattle.miette_snippet_rules.specs.rules.CutLines.{LinePart, cut_at, cut_runs, dots, dots_width, is_shown_at};
ghost use Rattle.miette_snippet_rules.specs.rules.CutLines.{is_within, limit_of, row_column, line_parts, text_columns};
ghost use Rattle.miette_snippet_rules.specs.rules.CutLines.{with_short_parts};
ghost use Rattle.miette_snippet_rules.specs.rules.PrintedCells.{cells_width};
ghost use Rattle.miette_snippet_rules.specs.rules.LabelRows.{IsNarrow};
ghost use Rattle.miette_snippet_rules.specs.rules.FoldedLabels.{LabelExtent};
ghost use Rattle.miette_snippet_rules.specs.rules.SnippetSettings.{SnippetSettings, uncut};
ghost use Rattle.miette_snippet_rules.specs.rules.SnippetLayout.{snippet_rows, body_rows, cells_of, cut_ends, line_cut};
ghost use Rattle.miette_snippet_rules.specs.rules.SnippetLayout.{SnippetContext, line_underlines, settings_around};
ghost use Rattle.miette_snippet_laws.specs.laws.LineRows.{BodyShows, underlines_of_line, text_of_line};
ghost use Rattle.miette_snippet_laws.specs.laws.CutLetters.{AreEndsShown, AreFirstShown};

/// The underlines of a line aren't empty and don't overlap. So each pointer is in its own underline and in no other.
/// The same holds in the row of a cut line.
pub fn underlines_are_apart()
    ensures apart { (text : MeasuredText) (labels : List DrawnLabel) → AreApart 0 (marks text labels) }
    ensures anchors { (text : MeasuredText) (labels : List DrawnLabel) →
        AllByRecursion (λ mark. underlines_at mark.pointer (marks text labels) ≡ mark ∷ []) (marks text labels) }
    ensures row { (s : SnippetSettings) (labels : List DrawnLabel) (source : List ℕ) (line : Line) →
        AreApart 0 (underlines_of_line s labels line (cells_of s source line)) }
    ensures row_anchors { (s : SnippetSettings) (labels : List DrawnLabel) (source : List ℕ) (line : Line) →
        AllByRecursion (λ mark. underlines_at mark.pointer (underlines_of_line s labels line (cells_of s source line))
        ≡ mark ∷ [])
        (underlines_of_line s labels line (cells_of s source line)) }
{}

/// The parts of a cut line contain its cells, each once and in order. A cell is shown if it is near a label column, or
/// if its part is no wider than the dots. No part is empty, and shown and hidden parts alternate (`cut`). A cell is
/// near if one of its columns is within `reach` columns of a label column (`within`). Shown parts are printed in full,
/// and each other part as the dots (`printed`).
pub fn cut_lines_are_parted()
    ensures cut { (near : Cell → Bool) (many : ℕ) (cells : List Cell) →
        IsCutBy near many cells (with_short_parts many (line_parts near false cells)) }
    ensures within { (reach : ℕ) (cell : Cell) (column : ℕ) → cell.from < cell.until →
        (is_within reach cell column ≡ true → IsCellWithin reach cell column)
        × (IsCellWithin reach cell column → is_within reach cell column ≡ true) }
    ensures printed { (run : Run) (pieces : List Highlight) (cut : List LinePart) →
        glyphs_of (cut_runs run pieces 0 cut) ≡ pieces_shown run cut }
{}

/// A cut line shows the cells within its reach: the largest distance from its label columns with which the row fits
/// into the limit. Without label columns, it shows as many of its first cells as fit with the dots. Every label column
/// is shown: those of underlines, and those where multi-line labels begin or end.
pub fn lines_are_cut_by_reach()
    ensures { (s : SnippetSettings) (labels : List DrawnLabel) (source : List ℕ) (line : Line) (limit : ℕ)
        (cut : List LinePart) → s.layout.line_columns ≡ Some limit →
        line_cut s line (cells_of s source line) (one_line line labels) (multi_line line labels) ≡ Some cut →
        IsCutByReach (limit_of limit) (dots_width s.theme.characters)
        (cut_ends line (cells_of s source line) (one_line line labels) (multi_line line labels))
        (cells_of s source line) cut }
{}

/// If there is a limit, each line with more columns is cut (`wide`). No other line is cut (`fits`). A limit below 8
/// counts as 8.
pub fn wide_lines_are_cut()
    ensures wide { (s : SnippetSettings) (labels : List DrawnLabel) (source : List ℕ) (line : Line) (limit : ℕ) →
        s.layout.line_columns ≡ Some limit → limit_of limit < cells_width 0 (cells_of s source line) →
        line_cut s line (cells_of s source line) (one_line line labels) (multi_line line labels) ≢ None }
    ensures fits { (s : SnippetSettings) (labels : List DrawnLabel) (source : List ℕ) (line : Line) →
        FitsLimit s.layout.line_columns (cells_of s source line) →
        line_cut s line (cells_of s source line) (one_line line labels) (multi_line line labels) ≡ None }
{}

/// A shown column of a cut line holds the same character as in the whole line. A column after the text keeps its
/// distance from the text (`columns`). So each underline stays under its own characters: at its first and last column,
/// at its pointer, and at each of its shown columns (`marks`).
pub fn underlines_keep_their_characters()
    ensures columns { (near : Cell → Bool) (t : Theme) (cells : List Cell) (cut : List LinePart) (column : ℕ) →
        cut ≡ with_short_parts (dots_width t.characters) (line_parts near false cells) → is_shown_at cut column ≡ true →
        IsSameAt (dots t) cells cut column (row_column (dots_width t.characters) cut column) }
    ensures marks { (s : SnippetSettings) (labels : List DrawnLabel) (source : List ℕ) (line : Line)
        (cut : List LinePart) →
        line_cut s line (cells_of s source line) (one_line line labels) (multi_line line labels) ≡ Some cut →
        AreMoved (dots s.theme) (cells_of s source line) cut
        (line_underlines line (cells_of s source line) (one_line line labels))
        (underlines_of_line s labels line (cells_of s source line)) }
{}

/// A line's underlines are those of its one-line labels, in order (`labels`). An underline begins at the first column
/// of the character with the label's first byte, unless the previous underline ends later. It ends at the last column
/// of the character with the label's last byte (`under`). Each of these columns prints that character (`characters`).
/// An underline of a label that begins at the end of the text is in the column after the text. It is one further on if
/// the label begins inside the terminator. An underline of a label that ends in the terminator ends with the column
/// after the text (`past`).
pub fn underlines_are_under_their_labels()
    ensures labels { (s : SnippetSettings) (labels : List DrawnLabel) (source : List ℕ) (line : Line) →
        map (λ mark. mark.label) (underlines_of_line s labels line (cells_of s source line)) ≡ one_line line labels }
    ensures under { (s : SnippetSettings) (labels : List DrawnLabel) (source : List ℕ) (line : Line) →
        AreUnderLabels (cells_of s source line) 0 (line_underlines line (cells_of s source line) (one_line line labels)) }
    ensures past { (s : SnippetSettings) (labels : List DrawnLabel) (source : List ℕ) (line : Line) →
        ArePastText line.text_end (cells_width 0 (cells_of s source line)) 0
        (line_underlines line (cells_of s source line) (one_line line labels)) }
    ensures characters { (s : SnippetSettings) (source : List ℕ) (line : Line) →
        CellsKeepColumns (cells_of s source line) }
{}

/// If there is a limit, the text of a row has no more columns than the limit, or than its label columns and dots need
/// (`bound`). Each label column needs at most the widest cell and the dots (`ends`).
pub fn cut_rows_are_narrow()
    ensures bound { (s : SnippetSettings) (labels : List DrawnLabel) (source : List ℕ) (line : Line)
        (pieces : List Highlight) (limit : ℕ) → s.layout.line_columns ≡ Some limit →
        glyph_columns (glyphs_of (text_of_line s labels line (cells_of s source line) pieces))
        ≤ max (limit_of limit) (text_columns (dots_width s.theme.characters)
        (cut_at (dots_width s.theme.characters) 0
        (cut_ends line (cells_of s source line) (one_line line labels) (multi_line line labels))
        (cells_of s source line))) }
    ensures ends { (s : SnippetSettings) (source : List ℕ) (line : Line) (many widest : ℕ) (ends : List ℕ) →
        AreAsWide widest (cells_of s source line) →
        text_columns many (cut_at many 0 ends (cells_of s source line)) ≤ most_columns many widest (length ends) }
{}

/// Examples with the 26 letters at limits of 8 and 12 columns, in Unicode and in ASCII. Without a label the first
/// letters are shown (`first`), else the letters around the label (`ends`). A limit of 1 counts as 8.
pub fn letters_are_cut()
    ensures first { (s : SnippetSettings) → AreFirstShown s }
    ensures ends { (s : SnippetSettings) → AreEndsShown s }
{}

/// If no line of a snippet exceeds the limit, its rows are those without a limit (`snippet`). If no line of any snippet
/// does, all rows are (`rows`).
pub fn lines_that_fit_stay()
    ensures snippet { (s : SnippetSettings) (label_extents : List LabelExtent) (labels : List DrawnLabel)
        (source : List ℕ)
        (read : Contents) (pieces : List (List Highlight)) →
        AllByRecursion (λ line. FitsLimit s.layout.line_columns (cells_of s source line)) (lines_of_contents read) →
        body_rows s label_extents labels source read pieces
        ≡ body_rows (uncut s) label_extents labels source read pieces }
    ensures rows { (s : SnippetSettings) (source : Source) (labels : List Label) (answers : Answers) →
        GroupsFit (settings_around s (in_order labels)) source
        (groups_of s.layout.context_lines source answers.join_fails (in_order labels)) →
        snippet_rows s source labels answers ≡ snippet_rows (uncut s) source labels answers }
{}

/// Suppose labels at the end of a source are drawn, and one of them has a line of context. Then exactly these labels
/// are drawn after the text of the last line, as empty labels. Their underlines begin in the column after the shown
/// text, or where the previous underline ends if that is later. If none of them has a line of context, or no label is
/// at the end, or the source is empty, nothing changes.
pub fn ends_are_drawn()
    ensures lines { (s : SnippetSettings) (bytes : List ℕ) (labels : List Label) →
        draws_ends s (length bytes) labels ≡ true → EndsStandAfter s bytes labels }
    ensures marks { (text : MeasuredText) (labels : List DrawnLabel) → AreAfterText text labels }
    ensures row { (s : SnippetSettings) (labels : List DrawnLabel) (source : List ℕ) (line : Line)
        (pieces : List Highlight) → AreAfterShown s labels line (cells_of s source line) pieces }
    ensures others { (ends : Bool) (s : SnippetSettings) (source : Source) (labels : List Label) (answers : Answers) →
        some_shows_end s.layout.context_lines (length source.bytes) labels ≡ false →
        snippet_rows (with_ends ends s) source labels answers
        ≡ snippet_rows (with_ends false s) source labels answers }
{}

/// One row replaces adjacent lines that are left out. It has three dots up to the end of the line numbers, the frame's
/// bar, and after a space one bar for each label of several lines, in the label's style. Every other line has its rows.
pub fn break_rows_have_bars()
    ensures { (c : SnippetContext) (line : Line) (number : ℕ) (pieces : List Highlight) →
        HasBreak c line number pieces }
{}

/// The first row of a line has its number, at the right of the numbers' columns, and its text at a fixed column, also
/// on a line that is cut or that labels of several lines cover. The underline row has each underline in its columns.
/// Each label text is joined to its own underline's pointer by a connector. Each line of a label text has one row.
/// Besides these, there are only the row of the source line and that of the underlines.
pub fn connectors_lead_to_texts()
    ensures { (s : SnippetSettings) (labels : List DrawnLabel) (source : List ℕ) (read : Contents)
        (pieces : List (List Highlight)) →
        IsNarrow s.width s.theme.characters → BodyShows s labels source read pieces }
{}

/// In plain styles and without highlighting, the snippets have the same characters in the same columns, and all rows
/// are plain. The number of highlight styles doesn't matter.
pub fn rows_turn_plain()
    ensures same { (s : SnippetSettings) (styles : Styles) (source : Source) (labels : List Label)
        (answers : Answers) → ArePlain styles →
        option_map (map glyphs_of)
        (snippet_rows (restyled_snippets s styles) source labels (unhighlighted_answer answers))
        ≡ option_map (map glyphs_of) (snippet_rows s source labels answers) }
    ensures plain { (s : SnippetSettings) (styles : Styles) (source : Source) (labels : List Label)
        (answers : Answers) → ArePlain styles →
        IfSome (snippet_rows (restyled_snippets s styles) source labels (unhighlighted_answer answers))
        (AllByRecursion IsPlainRow) }
{}

/// If the theme's characters, the source's name and bytes, and the label texts contain no escape, neither do the rows.
/// This holds for any reads and any highlighter.
pub fn rows_hold_no_escape()
    ensures { (s : SnippetSettings) (source : Source) (labels : List Label) (answers : Answers) →
        AreCleanDrawings s.theme.characters → IsCleanSource source → AllByRecursion IsCleanLabel labels →
        IfSome (snippet_rows s source labels answers) (AllByRecursion IsCleanRow) }
{}
