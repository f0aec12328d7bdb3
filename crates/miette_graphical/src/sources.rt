//! The snippets of a diagnostic, over each of its sources.

ghost use Rattle.std.specs.Prelude.{◌≡◌, Some, IfOk, OnOk, false, map};
ghost use Rattle.std.specs.List.{list_any};
ghost use Rattle.miette_graphical_rules.specs.rules.Sources.{further_sources, is_labelled, labelled, layout_with};
ghost use Rattle.miette_graphical_rules.specs.rules.Sources.{sources_of};
ghost use Rattle.miette_graphical_rules.specs.rules.Sources.{after_labels, sources_read, theme_after, rotated};
ghost use Rattle.miette_graphical.specs.views.PartTexts.{AreDrawn, AreRowsDrawn, AreSourcesDrawn, IsSourceDrawn};
ghost use Rattle.miette_graphical.specs.views.Painting.{KeepsPainter, Paints, settings_of, settings_with};
ghost use Rattle.miette_graphical.specs.views.Painting.{opt_ref_source};
ghost use Rattle.miette_tree.specs.rules.Reads.{always_reads};
ghost use Rattle.miette_tree.specs.rules.Tree.{head};
ghost use Rattle.miette_tree.specs.views.Attachments.{section_of};
ghost use Rattle.miette_tree.specs.views.Owned.{ref_source};
ghost use Rattle.miette_tree.specs.views.Report.{tree_of};
ghost use Rattle.miette_style.specs.rules.Themes.{theme_of};

use crate::painter::Painter;
use miette_highlight::highlight::Highlighter;
use miette_layout::options::{LayoutOptions, SnippetSettings};
use miette_layout::snippets::snippets;
use miette_protocol::error::RenderError;
use miette_protocol::protocol::{Diagnostic, LabeledSpan};
use miette_protocol::source::SourceCode;
use miette_runs::runs::output::Output;
use miette_style::page::RowPrinter;
use miette_style::style::Style;
use miette_style::theme::GraphicalTheme;
use miette_tree::parts::labels_of;
use miette_tree::report::{Report, Snippets, SourceRef};
use std::alloc::{AllocError, Global};
use std::mem;

// Returns whether a further source has a label.
fn is_labelled<S: SourceCode>(section: &Snippets<S>) -> bool
    ensures { result ≡ is_labelled (section_of S.source section.now) }
{
    match section.labels() {
        [] => false,
        [_, ..] => true,
    }
}

// Returns whether one of the further sources has a label.
fn some_further<S: SourceCode>(sections: &[Snippets<S>]) -> bool
    ensures { result ≡ list_any (λ it. is_labelled (section_of S.source it)) sections.now }
{
    sections.iter().any(|section| is_labelled(section))
}

// Returns the layout for the labels of a diagnostic with these further sources.
fn layout_with<S: SourceCode>(layout: &LayoutOptions, sections: &[Snippets<S>]) -> LayoutOptions
    ensures { result ≡ layout_with (map (section_of S.source) sections.now) layout.now }
{
    if some_further(sections) {
        return LayoutOptions {
            one_line_start: true,
            ..*layout
        };
    }
    *layout
}

// Returns the styles rotated by `n`: those of the labels after the first `n`.
fn rotated(alloc: Global, n: usize, styles: &[Style]) -> Result<Vec<Style>, AllocError>
    ensures { IfOk result (λ v. v.items ≡ rotated n styles.now) }
{
    let mut list = Vec::with_capacity(alloc, styles.len())?;
    if !styles.is_empty() {
        let at = n % styles.len();
        list.extend_from_slice(&styles[at..])?;
        list.extend_from_slice(&styles[..at])?;
    }
    Ok(list)
}

// Returns the theme for the labels after the first `n`, with the highlight styles rotated.
fn theme_after(alloc: Global, n: usize, theme: GraphicalTheme) -> Result<GraphicalTheme, AllocError>
    ensures { IfOk result (λ it. theme_of it ≡ theme_after n (theme_of theme)) }
{
    let mut theme = theme;
    theme.styles.highlights = rotated(alloc, n, &theme.styles.highlights)?;
    Ok(theme)
}

// Prints the snippets of labels over a source.
fn push_label_rows<S: SourceCode, H: Highlighter>(
    painter: &mut Painter<'_, H>,
    drawn_with: &SnippetSettings<'_>,
    source: SourceRef<'_, S>,
    labels: &[LabeledSpan],
) -> Result<(), RenderError>
    ensures ok { OnOk result (Paints H.is_blank H.may_follow (AreDrawn
        (settings_with (settings_of painter.old) drawn_with.now)
        (ref_source S.source source.entry) labels.now) painter.old painter.new) }
    ensures refused { (result ≡ Err RenderError.Refused) → (ref_source S.source source.entry).always_reads ≡ false }
    ensures keeps { KeepsPainter H.is_blank painter.old painter.new }
{
    let page = RowPrinter::over(mem::replace(&mut painter.out, Output::for_text(painter.alloc)));
    let page = snippets(page, painter.highlighter, drawn_with, &source, labels)?;
    painter.out = page.into_output()?;
    Ok(())
}

// Prints the snippets of labels over a source that exists.
fn push_rows_over<S: SourceCode, H: Highlighter>(
    painter: &mut Painter<'_, H>,
    drawn_with: &SnippetSettings<'_>,
    source: SourceRef<'_, S>,
    labels: &[LabeledSpan],
) -> Result<(), RenderError>
    ensures ok { OnOk result (Paints H.is_blank H.may_follow
        (IsSourceDrawn (settings_with (settings_of painter.old) drawn_with.now)
        (labelled (Some (ref_source S.source source.entry)) labels.now)) painter.old painter.new) }
    ensures refused { (result ≡ Err RenderError.Refused) →
        always_reads (Some (ref_source S.source source.entry)) labels.now ≡ false }
    ensures keeps { KeepsPainter H.is_blank painter.old painter.new }
{
    match labels {
        [] => Ok(()),
        [_, ..] => push_label_rows(painter, drawn_with, source, labels),
    }
}

// Prints the snippets of labels, if there is a source.
fn push_source_rows<S: SourceCode, H: Highlighter>(
    painter: &mut Painter<'_, H>,
    drawn_with: &SnippetSettings<'_>,
    source: Option<SourceRef<'_, S>>,
    labels: &[LabeledSpan],
) -> Result<(), RenderError>
    ensures ok { OnOk result (Paints H.is_blank H.may_follow
        (IsSourceDrawn (settings_with (settings_of painter.old) drawn_with.now)
        (labelled (opt_ref_source S.source source.entry) labels.now)) painter.old painter.new) }
    ensures refused { (result ≡ Err RenderError.Refused) →
        always_reads (opt_ref_source S.source source.entry) labels.now ≡ false }
    ensures keeps { KeepsPainter H.is_blank painter.old painter.new }
{
    match source {
        None => Ok(()),
        Some(source) => push_rows_over(painter, drawn_with, source, labels),
    }
}

// Prints the snippets over further sources. `before` labels come before the first of them.
fn push_further<S: SourceCode, H: Highlighter>(
    painter: &mut Painter<'_, H>,
    layout: &LayoutOptions,
    before: usize,
    sections: &[Snippets<S>],
) -> Result<(), RenderError>
    ensures ok { OnOk result (Paints H.is_blank H.may_follow
        (AreSourcesDrawn (after_labels before (record (settings_of painter.old) { layout = layout.now }))
        (further_sources (map (section_of S.source) sections.now))) painter.old painter.new) }
    ensures refused { (result ≡ Err RenderError.Refused) →
        sources_read (further_sources (map (section_of S.source) sections.now)) ≡ false }
    ensures keeps { KeepsPainter H.is_blank painter.old painter.new }
{
    let alloc = painter.alloc;
    if sections.is_empty() {
        return Ok(());
    }
    let mut theme = theme_after(alloc, before, painter.settings.theme.clone()?)?;
    let mut rest = sections;
    while let [section, more @ ..] = rest {
        let labels = section.labels();
        let drawn_with = SnippetSettings {
            alloc,
            theme: &theme,
            layout,
        };
        push_source_rows(painter, &drawn_with, Some(section.source()), labels)?;
        theme = theme_after(alloc, labels.len(), theme)?;
        rest = more;
    }
    Ok(())
}

/// Prints a diagnostic's snippets: first over its effective source, then over each further one. If a further source has
/// a label, frames of one-line snippets show their position too.
pub(crate) fn push_rows<D: Diagnostic, S: SourceCode, H: Highlighter>(
    painter: &mut Painter<'_, H>,
    source: Option<SourceRef<'_, S>>,
    report: &Report<D, S>,
) -> Result<(), RenderError>
    ensures ok { OnOk result (Paints H.is_blank H.may_follow (AreRowsDrawn (opt_ref_source S.source source.entry)
        (head (tree_of D.meaning S.source report.now))) painter.old painter.new) }
    ensures refused { (result ≡ Err RenderError.Refused) → sources_read (sources_of
        (opt_ref_source S.source source.entry) (head (tree_of D.meaning S.source report.now))) ≡ false }
    ensures keeps { KeepsPainter H.is_blank painter.old painter.new }
{
    let sections = report.further_snippets();
    let settings = painter.settings;
    let layout = layout_with(&settings.layout, sections);
    let drawn_with = SnippetSettings {
        alloc: painter.alloc,
        theme: &settings.theme,
        layout: &layout,
    };
    let labels = labels_of(report);
    push_source_rows(painter, &drawn_with, source, labels)?;
    push_further(painter, &layout, labels.len(), sections)
}
