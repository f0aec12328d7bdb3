//! Rendering a report with a handler's settings.

ghost use Rattle.std.specs.Prelude.{◌≡◌, ◌++◌, ℕ, List, [], OnErr, OnOk, false, true, chars, string_bytes};
ghost use Rattle.std.specs.Prelude.{encode_utf8_all, option_map};
ghost use Rattle.std.specs.List.{AllByRecursion};
ghost use Rattle.miette_graphical_rules.specs.laws.Clean.{AreCleanSettings, IsCleanTree};
ghost use Rattle.miette_graphical_rules.specs.laws.PlainTexts.{ArePlain, IsColouredText, IsRestyledText};
ghost use Rattle.miette_graphical_rules.specs.laws.PlainTexts.{plain_settings};
ghost use Rattle.miette_graphical_rules.specs.laws.PlainTexts.{restyled};
ghost use Rattle.miette_graphical_rules.specs.laws.SnippetTheorems.{CutsAreExact, LinesThatFitStay, UnderlinesAreApart};
ghost use Rattle.miette_graphical_rules.specs.laws.SnippetTheorems.{TextsAreConnected};
ghost use Rattle.miette_graphical_rules.specs.laws.SnippetTheorems.{EndsAreDrawn, LabelsAreFolded, LinesAreShown};
ghost use Rattle.miette_graphical_rules.specs.laws.FixDiffs.{FixesAreTold};
ghost use Rattle.miette_graphical_rules.specs.laws.HeldRows.{IsHoldingText};
ghost use Rattle.miette_graphical_rules.specs.rules.Answers.{unlisted};
ghost use Rattle.miette_graphical_rules.specs.rules.ByLine.{answers_by};
ghost use Rattle.miette_graphical_rules.specs.rules.PossibleAnswers.{Appends, IsTextByCalls, IsTextOf};
ghost use Rattle.miette_graphical_rules.specs.rules.PrintedDiagnostics.{all_read, diagnostics_of, labels_read};
ghost use Rattle.miette_graphical_rules.specs.rules.Snippets.{whole_drawing};
ghost use Rattle.miette_graphical_rules.specs.rules.Text.{report_text};
ghost use Rattle.miette_graphical_rules.specs.views.HandlerState.{AreCallsOf, EachPrinted, Keeps, draws_plain};
ghost use Rattle.miette_graphical_rules.specs.views.HandlerState.{follows_of};
ghost use Rattle.miette_tree.specs.views.Handler.{AppendsOne};
ghost use Rattle.miette_tree.specs.views.Report.{tree_of};
ghost use Rattle.miette_highlight.specs.rules.HighlighterCalls.{AnsweredBy, Call};
ghost use Rattle.miette_highlight.specs.rules.Pieces.{StyledPiece};
ghost use Rattle.miette_runs.specs.rules.Sequences.{erase};
ghost use Rattle.miette_style.specs.rules.Themes.{Styles};
ghost use Rattle.miette_text.specs.rules.ColouredTexts.{AppendsErasing};

use crate::appending::append_output;
use crate::handler::GraphicalReportHandler;
use crate::outermost::render_output;
use miette_graphical_rules::laws::{erasing_law, fixes_law, holding_law, snippets_law};
use miette_highlight::highlight::Highlighter;
use miette_protocol::error::RenderError;
use miette_protocol::protocol::Diagnostic;
use miette_protocol::source::SourceCode;
use miette_tree::report::Report;
use miette_tree::report_handler::ReportHandler;

impl<H: Highlighter> GraphicalReportHandler<H> {
    // Appends a rendered report. The contract includes the calls on the highlighter.
    fn draw<D: Diagnostic, S: SourceCode>(
        &mut self,
        out: &mut String,
        report: &Report<D, S>,
    ) -> Result<(), RenderError>
        ensures keeps { Keeps H.is_blank self.old self.new }
        ensures calls { OnOk result (AppendsOne (IsTextByCalls whole_drawing self.old.settings
            (draws_plain H.is_blank self.old) (AreCallsOf H.may_follow self.old self.new)
            (tree_of D.meaning S.source report.now)) (string_bytes out.old) (string_bytes out.new)) }
        ensures refused { (result ≡ Err RenderError.Refused) →
            labels_read (diagnostics_of self.old.settings (tree_of D.meaning S.source report.now)) ≡ false }
        ensures err { OnErr result (string_bytes out.new ≡ string_bytes out.old) }
    {
        let alloc = *out.allocator();
        let printed = render_output(alloc, &self.settings, &mut self.highlighter, report)?;
        append_output(out, alloc, printed)?;
        Ok(())
    }

    /// Appends a rendered report to `out`. The highlighter is restarted for each snippet with the contents of the
    /// snippet's read, and then gets the text of each line in order. A source that can't be read for fixes is no error:
    /// each of these fixes says so.
    ///
    /// # Errors
    /// `out` is unchanged after an error:
    /// - `Memory` if allocation fails, also in the highlighter
    /// - `Refused` if a source that doesn't always read refuses the position of a snippet, or a group of labels of
    /// which one has its own number of context lines
    pub fn render_report<D: Diagnostic, S: SourceCode>(
        &mut self,
        report: &Report<D, S>,
        out: &mut String,
    ) -> Result<(), RenderError>
        ensures settings { self.new.settings ≡ self.old.settings }
        // A blank highlighter stays blank, and one that isn't blank doesn't become so.
        ensures blank { draws_plain H.is_blank self.new ≡ draws_plain H.is_blank self.old }
        ensures ok { OnOk result (Appends whole_drawing self.old.settings (draws_plain H.is_blank self.old)
            (tree_of D.meaning S.source report.now) (string_bytes out.old) (string_bytes out.new)) }
        // The highlighter gave its answers for this text by these calls: one restart for each snippet with the contents
        // of its read, then one call for each line, in order.
        ensures calls { OnOk result (AppendsOne (IsTextByCalls whole_drawing self.old.settings
            (draws_plain H.is_blank self.old) (AreCallsOf H.may_follow self.old self.new)
            (tree_of D.meaning S.source report.now)) (string_bytes out.old) (string_bytes out.new)) }
        // If every source always reads, and a line's pieces depend only on its text, only one text is possible.
        ensures stateless { let tree = tree_of D.meaning S.source report.now in
            OnOk result ((answer : List ℕ → List StyledPiece) →
            ((calls : List Call) → follows_of H.may_follow self.old calls → AnsweredBy answer calls) →
            follows_of H.may_follow self.new [] → all_read (diagnostics_of self.old.settings tree) ≡ true →
            string_bytes out.new ≡ string_bytes out.old ++ encode_utf8_all (report_text whole_drawing self.old.settings
            tree (answers_by answer self.old.settings.layout tree))) }
        // If every source always reads, and no highlighter or a blank one is set, only one text is possible.
        ensures only { let tree = tree_of D.meaning S.source report.now in
            OnOk result (draws_plain H.is_blank self.old ≡ true →
            all_read (diagnostics_of self.old.settings tree) ≡ true → string_bytes out.new ≡ string_bytes out.old
            ++ encode_utf8_all (report_text whole_drawing self.old.settings tree unlisted)) }
        // If the tree, the settings and the theme contain no escape: removing the colours of the text gives the text in
        // plain styles without a highlighter, under the same reads.
        ensures colours { let tree = tree_of D.meaning S.source report.now in
            OnOk result (AreCleanSettings self.old.settings → IsCleanTree tree →
            AppendsOne (IsColouredText whole_drawing self.old.settings (draws_plain H.is_blank self.old) tree)
            (string_bytes out.old) (string_bytes out.new)) }
        // If every source always reads, that is only one text, for any highlighter.
        ensures colourless { let tree = tree_of D.meaning S.source report.now in
            OnOk result (all_read (diagnostics_of self.old.settings tree) ≡ true → AreCleanSettings self.old.settings →
            IsCleanTree tree →
            AppendsErasing (string_bytes out.old) (string_bytes out.new)
            (encode_utf8_all (report_text whole_drawing (plain_settings self.old.settings) tree unlisted))) }
        // It is the same for any plain styles with the same characters.
        ensures plain { let tree = tree_of D.meaning S.source report.now in
            OnOk result (all_read (diagnostics_of self.old.settings tree) ≡ true → AreCleanSettings self.old.settings →
            IsCleanTree tree → (styles : Styles) → ArePlain styles →
            AppendsErasing (string_bytes out.old) (string_bytes out.new)
            (encode_utf8_all (report_text whole_drawing (restyled self.old.settings styles) tree unlisted))) }
        // It is the same for all themes with these characters.
        ensures themes { let tree = tree_of D.meaning S.source report.now in
            OnOk result (all_read (diagnostics_of self.old.settings tree) ≡ true → AreCleanSettings self.old.settings →
            IsCleanTree tree → (others : List ℕ) → IsRestyledText whole_drawing self.old.settings tree others →
            AppendsErasing (string_bytes out.old) (string_bytes out.new) (erase others)) }
        // The text contains the snippets and fixes of each printed diagnostic. Without an arrow on its path, each row
        // of a snippet is a line of the output. Otherwise the rows are in the text that is wrapped under the arrows.
        ensures holds { OnOk result (AppendsOne (IsHoldingText whole_drawing self.old.settings
            (draws_plain H.is_blank self.old) (tree_of D.meaning S.source report.now))
            (string_bytes out.old) (string_bytes out.new)) }
        // For each printed diagnostic: its snippets show the lines in the context of its labels, once and in order.
        ensures lines { OnOk result (EachPrinted LinesAreShown self.old (tree_of D.meaning S.source report.now)) }
        // Underlines don't overlap.
        ensures marks { OnOk result (EachPrinted UnderlinesAreApart self.old (tree_of D.meaning S.source report.now)) }
        // Exactly the lines over the limit are cut. Each shows as much around its labels as fits, and its underlines
        // stay under their characters.
        ensures cuts { OnOk result (EachPrinted CutsAreExact self.old (tree_of D.meaning S.source report.now)) }
        // If no line of a snippet exceeds the limit, its rows are those without a limit.
        ensures fits { OnOk result (EachPrinted LinesThatFitStay self.old (tree_of D.meaning S.source report.now)) }
        // Each text of a one-line label is joined to its own underline.
        ensures texts { OnOk result (EachPrinted TextsAreConnected self.old (tree_of D.meaning S.source report.now)) }
        // Labels at the end of a source, if drawn, come after the shown text of its last line, in the column after it.
        // The last line is shown for any number of context lines. Without such labels nothing changes.
        ensures ends { OnOk result (EachPrinted EndsAreDrawn self.old (tree_of D.meaning S.source report.now)) }
        // If labels are folded: no label begins or ends on a line that is left out, and at least two adjacent lines are
        // left out. The bars of a break row are those of the labels that run through it. Short labels don't change.
        ensures folds { OnOk result (EachPrinted LabelsAreFolded self.old (tree_of D.meaning S.source report.now)) }
        // For each fix that can be applied over a source that always reads: its rows are the frames of what it changes,
        // in order and numbered correctly. Only unchanged lines are left out. The removed and unchanged lines are the
        // source's, the added and unchanged ones the applied text's.
        ensures fixes { OnOk result (AllByRecursion (FixesAreTold self.old.settings)
            (diagnostics_of self.old.settings (tree_of D.meaning S.source report.now))) }
        ensures refused { (result ≡ Err RenderError.Refused) →
            labels_read (diagnostics_of self.old.settings (tree_of D.meaning S.source report.now)) ≡ false }
        ensures err { OnErr result (string_bytes out.new ≡ string_bytes out.old) }
    {
        snippets_law();
        fixes_law();
        erasing_law();
        holding_law();
        self.draw(out, report)
    }
}

impl<H: Highlighter> ReportHandler for GraphicalReportHandler<H> {
    ghost gives = { λ it t. IsTextOf whole_drawing it.settings (draws_plain H.is_blank it) t };

    ghost refuses = { λ it t. labels_read (diagnostics_of it.settings t) ≡ false };

    ghost keeps = { λ old new. Keeps H.is_blank old new };

    ghost asks = { λ old new t before after. AppendsOne (IsTextByCalls whole_drawing old.settings
        (draws_plain H.is_blank old) (AreCallsOf H.may_follow old new) t) before after };

    fn debug<D: Diagnostic, S: SourceCode>(
        &mut self,
        report: &Report<D, S>,
        out: &mut String,
    ) -> Result<(), RenderError> {
        self.draw::<D, S>(out, report)
    }
}
