//! Theorems about the rows of a fix: their colours, and which lines are shown.

ghost use Rattle.std.specs.Prelude.{◌≡◌, ◌≢◌, ◌<◌, ◌≤◌, ℕ, Bool, List, [], Option, Some, None, map};
ghost use Rattle.std.specs.List.{AllByRecursion};
ghost use Rattle.miette_fix_rows.specs.laws.ChangedCuts.{IsChangedRow, IsCutBeside, IsKeptRow, changed_cells};
ghost use Rattle.miette_fix_rows.specs.laws.ChangedCuts.{changed_ends};
ghost use Rattle.miette_fix_rows.specs.laws.Context.{lines_of_frames, shown_lines};
ghost use Rattle.miette_fix_rows.specs.laws.Frames.{all_lines};
ghost use Rattle.miette_fix_rows.specs.rules.DiffFrames.{DiffPosition, frames_of};
ghost use Rattle.miette_fix_rows.specs.rules.DiffRows.{ChangedLine, changed_cut, fix_rows, line_reach, pair_reach};
ghost use Rattle.miette_fix_rows.specs.rules.Hunks.{diff};
ghost use Rattle.miette_fixes.specs.rules.Edits.{Replacement};
ghost use Rattle.miette_style.specs.rules.Rows.{glyphs_of};
ghost use Rattle.miette_protocol.specs.rules.Reading.{Source};
ghost use Rattle.miette_snippet_laws.specs.laws.Clean.{AreCleanDrawings, IsClean, IsCleanRow, IsCleanSource};
ghost use Rattle.miette_snippet_laws.specs.laws.Cuts.{FitsLimit, IsReach};
ghost use Rattle.miette_snippet_laws.specs.laws.PlainStyles.{ArePlain, IsPlainRow, restyled_snippets};
ghost use Rattle.miette_snippet_rules.specs.rules.CutLines.{LinePart, dots_width, limit_of};
ghost use Rattle.miette_snippet_rules.specs.rules.PrintedCells.{cells_width};
ghost use Rattle.miette_snippet_rules.specs.rules.SnippetSettings.{SnippetSettings};
ghost use Rattle.miette_style.specs.rules.Themes.{Styles};

/// In plain styles a fix has the same characters in the same rows (`same`), and every run is plain (`plain`).
pub fn fix_rows_turn_plain()
    ensures same { (s : SnippetSettings) (styles : Styles) (source : Source) (fails : Bool)
        (edits : List Replacement) → ArePlain styles →
        map glyphs_of (fix_rows (restyled_snippets s styles) source fails edits)
        ≡ map glyphs_of (fix_rows s source fails edits) }
    ensures plain { (s : SnippetSettings) (styles : Styles) (source : Source) (fails : Bool)
        (edits : List Replacement) → ArePlain styles →
        AllByRecursion IsPlainRow (fix_rows (restyled_snippets s styles) source fails edits) }
{}

/// If the theme's characters, the source, its name and the edits contain no escape, neither do the rows of the fix.
pub fn fix_rows_hold_no_escape()
    ensures { (s : SnippetSettings) (source : Source) (fails : Bool) (edits : List Replacement) →
        AreCleanDrawings s.theme.characters → IsCleanSource source →
        AllByRecursion (λ edit. IsClean edit.text) edits →
        AllByRecursion IsCleanRow (fix_rows s source fails edits) }
{}

/// The frames of a fix show every changed line. They show an unchanged line exactly if one of the context lines before
/// or after it is changed. Each line appears once, in order.
#[tactic(auto, using(crate::proofs::ShownContext::frames_show))]
pub fn frames_show_the_context()
    ensures { (context : ℕ) (source : List ℕ) (edits : List Replacement) →
        lines_of_frames (frames_of context (diff source edits))
        ≡ shown_lines context (all_lines (diff source edits)) }
{}

/// A changed line and its counterpart are cut by the same reach (`same`). It is the largest with which both fit into the
/// limit: no larger than either line's own (`room`), and no smaller than a number that isn't (`largest`). A line without
/// a counterpart has its own reach (`alone`), the largest with which its row fits (`reach`).
pub fn pairs_have_one_reach()
    ensures same { (s : SnippetSettings) (limit : ℕ) (line other : ChangedLine) →
        pair_reach s limit line (Some other) ≡ pair_reach s limit other (Some line) }
    ensures room { (s : SnippetSettings) (limit : ℕ) (line other : ChangedLine) →
        pair_reach s limit line (Some other) ≤ line_reach s limit line }
    ensures largest { (s : SnippetSettings) (limit : ℕ) (line other : ChangedLine) (reach : ℕ) →
        reach ≤ line_reach s limit line → reach ≤ line_reach s limit other →
        reach ≤ pair_reach s limit line (Some other) }
    ensures alone { (s : SnippetSettings) (limit : ℕ) (line : ChangedLine) →
        pair_reach s limit line None ≡ line_reach s limit line }
    ensures reach { (s : SnippetSettings) (limit : ℕ) (line : ChangedLine) → changed_ends s line ≢ [] →
        IsReach (limit_of limit) (dots_width s.theme.characters) (changed_ends s line) (changed_cells s line)
        (line_reach s limit line) }
{}

/// A changed line with more columns than the limit is cut (`wide`), and no other line is (`fits`). It shows the cells
/// within the pair's reach of its edits, and both ends of each edit (`cut`). Its row has its number, its sign, and what
/// is shown of its text (`row`). An unchanged line shows its first cells (`kept`).
pub fn changed_lines_are_cut()
    ensures wide { (s : SnippetSettings) (line : ChangedLine) (other : Option ChangedLine) (limit : ℕ) →
        s.layout.line_columns ≡ Some limit → limit_of limit < cells_width 0 (changed_cells s line) →
        changed_cut s line other ≢ None }
    ensures fits { (s : SnippetSettings) (line : ChangedLine) (other : Option ChangedLine) →
        FitsLimit s.layout.line_columns (changed_cells s line) → changed_cut s line other ≡ None }
    ensures cut { (s : SnippetSettings) (line : ChangedLine) (other : Option ChangedLine) (limit : ℕ)
        (cut : List LinePart) → s.layout.line_columns ≡ Some limit → changed_cut s line other ≡ Some cut →
        IsCutBeside s limit line other cut }
    ensures row { (s : SnippetSettings) (w : ℕ) (line : ChangedLine) (other : Option ChangedLine) →
        IsChangedRow s w line other }
    ensures kept { (s : SnippetSettings) (w : ℕ) (at : DiffPosition) (text : List ℕ) → IsKeptRow s w at text }
{}
