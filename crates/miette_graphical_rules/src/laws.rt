//! Theorems about the text of a graphical report: its colours, its snippets and its fixes.

ghost use Rattle.std.specs.Prelude.{◌≡◌, ℕ, Bool, List, encode_utf8_all, true};
ghost use Rattle.miette_graphical_rules.specs.rules.PossibleAnswers.{IsTextOf};
ghost use Rattle.miette_graphical_rules.specs.rules.Answers.{Answers, unlisted};
ghost use Rattle.miette_graphical_rules.specs.laws.Clean.{AreCleanSettings, IsCleanTree};
ghost use Rattle.miette_graphical_rules.specs.laws.PlainTexts.{AreDrawings, IsColouredText, IsRestyledText};
ghost use Rattle.miette_graphical_rules.specs.laws.PlainTexts.{ArePlain, plain_settings, restyled};
ghost use Rattle.miette_graphical_rules.specs.laws.PlainTexts.{unhighlighted_answers};
ghost use Rattle.std.specs.List.{AllByRecursion};
ghost use Rattle.miette_graphical_rules.specs.laws.FixDiffs.{FixesAreTold};
ghost use Rattle.miette_graphical_rules.specs.laws.SnippetTheorems.{EndsAreDrawn, LabelsAreFolded, LinesAreShown};
ghost use Rattle.miette_graphical_rules.specs.laws.SnippetTheorems.{UnderlinesAreApart};
ghost use Rattle.miette_graphical_rules.specs.laws.SnippetTheorems.{TextsAreConnected, CutsAreExact, LinesThatFitStay};
ghost use Rattle.miette_graphical_rules.specs.rules.DiagnosticText.{Drawing};
ghost use Rattle.miette_graphical_rules.specs.laws.HeldRows.{HoldsFixRows, HoldsFixes, HoldsRows, HoldsSnippets};
ghost use Rattle.miette_graphical_rules.specs.laws.HeldRows.{IsHoldingText};
ghost use Rattle.miette_graphical_rules.specs.rules.PrintedDiagnostics.{HoldsOfPrinted, all_read};
ghost use Rattle.miette_graphical_rules.specs.rules.PrintedDiagnostics.{diagnostics_of};
ghost use Rattle.miette_graphical_rules.specs.rules.GraphicalSettings.{GraphicalSettings};
ghost use Rattle.miette_graphical_rules.specs.rules.Snippets.{whole_drawing};
ghost use Rattle.miette_graphical_rules.specs.rules.Text.{report_text};
ghost use Rattle.miette_tree.specs.rules.Tree.{Tree};
ghost use Rattle.miette_style.specs.rules.Themes.{Styles};
ghost use Rattle.miette_runs.specs.rules.Sequences.{erase};
ghost use Rattle.miette_text.specs.laws.Tame.{IsTame};

use miette_fix_rows::diff_laws::{
    a_diff_has_the_applied_text, a_diff_has_the_source, changes_are_trimmed, frames_stand_in_a_diff,
};
use miette_fix_rows::row_laws::{
    fix_rows_hold_no_escape, fix_rows_turn_plain, frames_show_the_context,
};
use miette_snippet_laws::range_laws::{
    groups_are_ranges, left_out_lines_are_inside, ranges_are_maximal, ranges_end_kept,
    short_labels_stay, snippets_draw_ranges,
};
use miette_snippet_laws::row_laws::{
    connectors_lead_to_texts, cut_lines_are_parted, cut_rows_are_narrow, ends_are_drawn,
    lines_are_cut_by_reach, lines_that_fit_stay, rows_hold_no_escape, rows_turn_plain,
    underlines_are_apart, underlines_keep_their_characters, wide_lines_are_cut,
};
use miette_text::wrap_laws::{
    columns_law, cutting_law, encoding_law, joining_law, printing_law, wrapping_law,
};

/// A report without its colours is the report of the same tree in plain styles, under the same reads. It can also be
/// wrapped again inside another report. This holds if no text, URL, source, name, setting or theme character contains
/// an escape. It also needs the rows of snippets and fixes to turn plain in plain styles.
pub fn colours_law()
    ensures erase { (drawing : Drawing) (s : GraphicalSettings) (t : Tree) (a : Answers) → AreDrawings drawing →
        AreCleanSettings s → IsCleanTree t →
        erase (report_text drawing s t a) ≡ report_text drawing (plain_settings s) t (unhighlighted_answers a) }
    ensures tame { (drawing : Drawing) (s : GraphicalSettings) (t : Tree) (a : Answers) → AreDrawings drawing →
        AreCleanSettings s → IsCleanTree t →
        IsTame (report_text drawing s t a) }
    // Settings that differ only in styles give the same text apart from colours.
    ensures alike { (drawing : Drawing) (s u : GraphicalSettings) (t : Tree) (a b : Answers) → AreDrawings drawing →
        AreCleanSettings s → AreCleanSettings u → IsCleanTree t →
        plain_settings s ≡ plain_settings u → unhighlighted_answers a ≡ unhighlighted_answers b →
        erase (report_text drawing s t a) ≡ erase (report_text drawing u t b) }
    // The text without its colours is that of any plain styles, with any number of highlight styles.
    ensures plain { (drawing : Drawing) (s : GraphicalSettings) (styles : Styles) (t : Tree) (a : Answers) →
        AreDrawings drawing → AreCleanSettings s → IsCleanTree t → ArePlain styles →
        erase (report_text drawing s t a) ≡ report_text drawing (restyled s styles) t (unhighlighted_answers a) }
{
    wrapping_law();
    joining_law();
    cutting_law();
    printing_law();
    columns_law();
}

/// The drawn rows of snippets and fixes turn plain in plain styles and contain no escape.
pub fn drawn_rows_law()
    ensures { AreDrawings whole_drawing }
{
    rows_turn_plain();
    rows_hold_no_escape();
    fix_rows_turn_plain();
    fix_rows_hold_no_escape();
}

/// Removing the colours of a printed report gives the text in plain styles under the same reads. That text may also be
/// printed in plain styles without a highlighter. If every source always reads, there is only one such text (`only`).
/// It is the same for any plain styles with the same characters (`plain`), and for themes that differ only in styles
/// (`themes`).
pub fn erasing_law()
    ensures text { (s : GraphicalSettings) (blank : Bool) (t : Tree) (bytes : List ℕ) → AreCleanSettings s
        → IsCleanTree t →
        IsTextOf whole_drawing s blank t bytes → IsColouredText whole_drawing s blank t bytes }
    ensures possible { (s : GraphicalSettings) (blank : Bool) (t : Tree) (bytes : List ℕ) → AreCleanSettings s
        → IsCleanTree t →
        IsTextOf whole_drawing s blank t bytes → IsTextOf whole_drawing (plain_settings s) true t (erase bytes) }
    ensures only { (s : GraphicalSettings) (blank : Bool) (t : Tree) (bytes : List ℕ) → AreCleanSettings s
        → IsCleanTree t →
        IsTextOf whole_drawing s blank t bytes → all_read (diagnostics_of s t) ≡ true →
        erase bytes ≡ encode_utf8_all (report_text whole_drawing (plain_settings s) t unlisted) }
    ensures plain { (s : GraphicalSettings) (styles : Styles) (blank : Bool) (t : Tree) (bytes : List ℕ) →
        AreCleanSettings s → IsCleanTree t → ArePlain styles →
        IsTextOf whole_drawing s blank t bytes → all_read (diagnostics_of s t) ≡ true →
        erase bytes ≡ encode_utf8_all (report_text whole_drawing (restyled s styles) t unlisted) }
    ensures themes { (s : GraphicalSettings) (blank : Bool) (t : Tree) (bytes others : List ℕ) → AreCleanSettings s →
        IsCleanTree t → IsTextOf whole_drawing s blank t bytes → all_read (diagnostics_of s t) ≡ true →
        IsRestyledText whole_drawing s t others → erase bytes ≡ erase others }
{
    colours_law();
    drawn_rows_law();
    encoding_law();
    rows_turn_plain();
}

/// For each printed diagnostic:
/// - Its snippets show the lines in the context of its labels.
/// - Underlines don't overlap, and stay under their own characters in cut lines.
/// - Lines over the limit are cut around their labels; lines that fit are unchanged.
/// - Each label text is joined to its own underline.
/// - Labels at the end of a source, if drawn, come after the shown text of its last line.
/// - No label begins or ends on a line that is left out inside folded labels.
pub fn snippets_law()
    ensures lines { (s : GraphicalSettings) (t : Tree) → AllByRecursion (HoldsOfPrinted LinesAreShown s)
        (diagnostics_of s t) }
    ensures marks { (s : GraphicalSettings) (t : Tree) → AllByRecursion (HoldsOfPrinted UnderlinesAreApart s)
        (diagnostics_of s t) }
    ensures cuts { (s : GraphicalSettings) (t : Tree) → AllByRecursion (HoldsOfPrinted CutsAreExact s)
        (diagnostics_of s t) }
    ensures fits { (s : GraphicalSettings) (t : Tree) → AllByRecursion (HoldsOfPrinted LinesThatFitStay s)
        (diagnostics_of s t) }
    ensures texts { (s : GraphicalSettings) (t : Tree) → AllByRecursion (HoldsOfPrinted TextsAreConnected s)
        (diagnostics_of s t) }
    ensures ends { (s : GraphicalSettings) (t : Tree) → AllByRecursion (HoldsOfPrinted EndsAreDrawn s)
        (diagnostics_of s t) }
    ensures folds { (s : GraphicalSettings) (t : Tree) → AllByRecursion (HoldsOfPrinted LabelsAreFolded s)
        (diagnostics_of s t) }
{
    snippets_draw_ranges();
    groups_are_ranges();
    ranges_are_maximal();
    ranges_end_kept();
    underlines_are_apart();
    wide_lines_are_cut();
    cut_lines_are_parted();
    lines_are_cut_by_reach();
    underlines_keep_their_characters();
    cut_rows_are_narrow();
    lines_that_fit_stay();
    connectors_lead_to_texts();
    ends_are_drawn();
    left_out_lines_are_inside();
    short_labels_stay();
}

/// For each printed fix that can be applied, over a source that always reads:
/// - Its rows are the frames of what it changes, in order and without repetition.
/// - A frame's line numbers count all lines before it.
/// - Only unchanged lines are left out: those with no changed line among the context lines before or after them.
/// - The removed and unchanged lines are exactly those of the source.
/// - The added and unchanged lines are exactly those of the applied text.
/// - The lines of a change have no common line at their start or end.
pub fn fixes_law()
    ensures { (s : GraphicalSettings) (t : Tree) → AllByRecursion (FixesAreTold s) (diagnostics_of s t) }
{
    a_diff_has_the_source();
    a_diff_has_the_applied_text();
    changes_are_trimmed();
    frames_stand_in_a_diff();
    frames_show_the_context();
}

/// A report's text contains the snippets (`holds`) and fixes (`fixes`) of each printed diagnostic, wrapped under the
/// arrows on its path. If there is no arrow on the path, each row of a snippet is a line of the output (`rows`). So is
/// each row below a fix's message (`fix_rows`). The same holds for every text that may be printed (`text`).
pub fn holding_law()
    ensures holds { (drawing : Drawing) (s : GraphicalSettings) (t : Tree) (a : Answers) →
        HoldsSnippets drawing s t a (report_text drawing s t a) }
    ensures fixes { (drawing : Drawing) (s : GraphicalSettings) (t : Tree) (a : Answers) →
        HoldsFixes drawing s t a (report_text drawing s t a) }
    ensures rows { (drawing : Drawing) (s : GraphicalSettings) (t : Tree) (a : Answers) →
        HoldsRows drawing s t a (encode_utf8_all (report_text drawing s t a)) }
    ensures fix_rows { (drawing : Drawing) (s : GraphicalSettings) (t : Tree) (a : Answers) →
        HoldsFixRows drawing s t a (encode_utf8_all (report_text drawing s t a)) }
    ensures text { (drawing : Drawing) (s : GraphicalSettings) (blank : Bool) (t : Tree) (bytes : List ℕ) →
        IsTextOf drawing s blank t bytes → IsHoldingText drawing s blank t bytes }
{}
