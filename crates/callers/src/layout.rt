//! The snippets of a text without a report.

ghost use Rattle.std.specs.Prelude.{IfOk};
ghost use Rattle.miette_protocol.specs.rules.Reading.{plain_source};
ghost use Rattle.callers.specs.Rows.{AreSnippets};

use miette_highlight::highlight::BlankHighlighter;
use miette_layout::options::{LayoutOptions, SnippetSettings};
use miette_layout::page::RowPrinter;
use miette_layout::snippets::snippets;
use miette_protocol::error::RenderError;
use miette_protocol::protocol::LabeledSpan;
use miette_style::theme::GraphicalTheme;
use miette_text::runs::output::Output;
use std::alloc::Global;

/// Renders the snippets of these labels in the default layout, without a highlighter.
pub fn snippets_in(
    alloc: Global,
    theme: &GraphicalTheme,
    source: &[u8],
    labels: &[LabeledSpan],
) -> Result<Output, RenderError>
    ensures { IfOk result (λ output.
        AreSnippets theme.now (plain_source source.now) labels.now output) }
{
    let layout = LayoutOptions::default();
    let settings = SnippetSettings {
        alloc,
        theme,
        layout: &layout,
    };
    let mut highlighter: Option<BlankHighlighter> = None;
    let page = RowPrinter::over(Output::for_text(alloc));
    let page = snippets(page, &mut highlighter, &settings, &source, labels)?;
    Ok(page.into_output()?)
}
