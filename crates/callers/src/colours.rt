//! What the clauses on colors and highlighters say to a caller.

ghost use Rattle.std.specs.Prelude.{◌≡◌, IfOk, true, encode_utf8_all, string_bytes};
ghost use Rattle.miette_graphical_rules.specs.laws.PlainTexts.{plain_settings};
ghost use Rattle.miette_graphical_rules.specs.rules.Answers.{unlisted};
ghost use Rattle.miette_graphical_rules.specs.rules.ByLine.{answers_by};
ghost use Rattle.miette_graphical_rules.specs.rules.PossibleAnswers.{IsTextOf};
ghost use Rattle.miette_graphical_rules.specs.rules.Snippets.{whole_drawing};
ghost use Rattle.miette_graphical_rules.specs.rules.Text.{report_text};
ghost use Rattle.miette_highlight.specs.rules.Pieces.{plain_pieces};
ghost use Rattle.miette_runs.specs.rules.Sequences.{erase};
ghost use Rattle.miette_tree.specs.views.Report.{tree_of};
ghost use Rattle.callers.specs.Known.{IsAskedPlainly, in_colours, plain, warning_tree};

use crate::handlers::Pictures;
use miette::error::RenderError;
use miette::handlers::GraphicalReportHandler;
use miette::protocol::Diagnostic;
use miette::report::Report;
use miette::source::SourceCode;
use miette::theme::GraphicalTheme;
use miette_graphical_laws::laws::themes_law;
use miette_highlight::highlight::{BlankHighlighter, Highlighter};
use std::alloc::Global;

/// Renders the warning with two highlighters of any kind: once in colors, once in plain styles.
pub fn highlighted_both<H: Highlighter, K: Highlighter>(
    alloc: Global,
    first: H,
    second: K,
    report: &Report,
) -> Result<Pictures, RenderError>
    requires { tree_of ⟦<Box<dyn Diagnostic> as Diagnostic>⟧.meaning
        ⟦<Box<dyn SourceCode> as SourceCode>⟧.source report.now ≡ warning_tree }
    // without colors both are the same text, by `themes` and `ok`
    ensures alike { IfOk result (λ p. erase (string_bytes p.coloured) ≡ erase (string_bytes p.plain)) }
    // which is that without a highlighter, by `colourless`
    ensures bare { IfOk result (λ p. erase (string_bytes p.coloured)
        ≡ encode_utf8_all (report_text whole_drawing plain warning_tree unlisted)) }
    // and a handler with plain styles can print it, by `colours`
    ensures printed { IfOk result (λ p. IsTextOf whole_drawing plain true warning_tree
        (erase (string_bytes p.coloured))) }
{
    themes_law();
    let mut coloured = String::new(alloc);
    {
        let theme = GraphicalTheme::unicode(alloc)?;
        let mut one = GraphicalReportHandler::themed(theme).with_syntax_highlighting(first);
        one.render_report(report, &mut coloured)?;
    }
    let mut plain = String::new(alloc);
    let theme = GraphicalTheme::unicode_nocolor(alloc)?;
    let mut other = GraphicalReportHandler::themed(theme).with_syntax_highlighting(second);
    other.render_report(report, &mut plain)?;
    Ok(Pictures { coloured, plain })
}

/// Renders the warning with a highlighter that leaves lines plain.
pub fn draw_blank(alloc: Global, report: &Report) -> Result<String, RenderError>
    requires { tree_of ⟦<Box<dyn Diagnostic> as Diagnostic>⟧.meaning
        ⟦<Box<dyn SourceCode> as SourceCode>⟧.source report.now ≡ warning_tree }
    // the highlighter gave one plain piece for each line, by `calls`
    ensures asked { IfOk result (λ text. IsAskedPlainly (string_bytes text)) }
    // the text follows from that, by `stateless`
    ensures text { IfOk result (λ text. string_bytes text ≡ encode_utf8_all
        (report_text whole_drawing plain warning_tree
        (answers_by plain_pieces plain.layout warning_tree))) }
{
    let mut text = String::new(alloc);
    let theme = GraphicalTheme::unicode_nocolor(alloc)?;
    let mut handler = GraphicalReportHandler::themed(theme).with_syntax_highlighting(
        BlankHighlighter,
    );
    handler.render_report(report, &mut text)?;
    Ok(text)
}
