//! The fixes of a diagnostic: each fix's message and its diff.

ghost use Rattle.std.specs.Prelude.{◌≡◌, ◌++◌, Bool, map, OnOk, Option};
ghost use Rattle.std.specs.List.{list_any};
ghost use Rattle.miette_style.specs.views.Printouts.{◌⊕◌};
ghost use Rattle.miette_style.specs.views.Tokens.{rows_tokens};
ghost use Rattle.miette_snippet_rules.specs.views.SnippetSettings.{settings_of as snippet_settings};
ghost use Rattle.miette_graphical_rules.specs.rules.DiagnosticText.{fix_text, fixes_text};
ghost use Rattle.miette_graphical_rules.specs.rules.Snippets.{drawn_fix};
ghost use Rattle.miette_graphical_rules.specs.rules.Sources.{has_edits};
ghost use Rattle.miette_graphical.specs.steps.FixSources.{AsksItself, IsGivenOver, fix_rows_over};
ghost use Rattle.miette_graphical.specs.views.PartTexts.{AppendsFixes};
ghost use Rattle.miette_graphical.specs.views.Painting.{PrintsOnly, settings_of, opt_ref_source};
ghost use Rattle.miette_protocol.specs.rules.Reading.{Source};

use crate::indents::{TextKind, push_text};
use crate::painter::Painter;
use miette_fix_drawing::fix::{WholeSource, push_fix_rows, push_unread_fix};
use miette_fixes::fix::Fix;
use miette_layout::options::SnippetSettings;
use miette_protocol::protocol::{SourceOffset, SourceSpan};
use miette_protocol::source::SourceCode;
use miette_runs::runs::output::Output;
use miette_style::page::RowPrinter;
use miette_tree::report::SourceRef;
use std::alloc::AllocError;
use std::mem;

/// The source of fixes: none, one that couldn't be read, or one that was read as a whole.
#[derive_where(Clone, Copy)]
pub(crate) enum FixSource<'a, S> {
    NoSource,
    Unread,
    Whole(WholeSource<'a, S>),
}

// Prints the rows below a fix's message, if there is a source.
fn push_changes<S: SourceCode>(
    page: &mut RowPrinter<Output>,
    settings: &SnippetSettings<'_>,
    over: &FixSource<'_, S>,
    fix: &Fix,
) -> Result<(), AllocError>
    requires { AsksItself S.source over.now }
    ensures { OnOk result ((source : Option Source) (fails : Bool) → IsGivenOver over.now source fails →
        page.new ≡ page.old ⊕ rows_tokens (fix_rows_over (snippet_settings settings.now) source fails fix.now.edits)) }
{
    match over {
        FixSource::NoSource => Ok(()),
        FixSource::Unread => push_unread_fix(page, settings, fix),
        FixSource::Whole(source) => push_fix_rows(page, settings, source, fix),
    }
}

// Prints a fix: its message and the rows below it.
fn push_fix<S: SourceCode, H>(
    painter: &mut Painter<'_, H>,
    over: &FixSource<'_, S>,
    fix: &Fix,
) -> Result<(), AllocError>
    requires { AsksItself S.source over.now }
    ensures text { OnOk result ((source : Option Source) (fails : Bool) → IsGivenOver over.now source fails →
        painter.new.out ≡ painter.old.out
        ++ fix_text (settings_of painter.old) (drawn_fix (settings_of painter.old) source fails fix.now)) }
    ensures stays { PrintsOnly painter.old painter.new }
{
    push_text(painter, TextKind::Fix, fix.message())?;
    let settings = painter.settings;
    let drawn_with = SnippetSettings {
        alloc: painter.alloc,
        theme: &settings.theme,
        layout: &settings.layout,
    };
    let mut page = RowPrinter::over(mem::replace(
        &mut painter.out,
        Output::for_text(painter.alloc),
    ));
    push_changes(&mut page, &drawn_with, over, fix)?;
    painter.out = page.into_output()?;
    Ok(())
}

// Prints fixes in order.
fn push_fix_list<S: SourceCode, H>(
    painter: &mut Painter<'_, H>,
    over: &FixSource<'_, S>,
    fixes: &[Fix],
) -> Result<(), AllocError>
    requires { AsksItself S.source over.now }
    ensures text { OnOk result ((source : Option Source) (fails : Bool) → IsGivenOver over.now source fails →
        painter.new.out ≡ painter.old.out ++ fixes_text (settings_of painter.old)
        (map (drawn_fix (settings_of painter.old) source fails) fixes.now)) }
    ensures stays { PrintsOnly painter.old painter.new }
{
    let mut rest = fixes;
    while let [fix, more @ ..] = rest {
        push_fix(painter, over, fix)?;
        rest = more;
    }
    Ok(())
}

// Returns whether a fix has edits.
fn has_edits(fix: &Fix) -> bool
    ensures { result ≡ has_edits fix.now }
{
    !fix.edits().is_empty()
}

// Returns whether one of the fixes has edits.
fn some_edits(fixes: &[Fix]) -> bool
    ensures { result ≡ list_any has_edits fixes.now }
{
    fixes.iter().any(|fix| has_edits(fix))
}

// Prints fixes over the effective source of their diagnostic. If one of them has edits, the source is read once, as a
// whole.
#[inline(never)]
fn push_fixes_over<S: SourceCode, H>(
    painter: &mut Painter<'_, H>,
    source: Option<SourceRef<'_, S>>,
    fixes: &[Fix],
) -> Result<(), AllocError>
    ensures ok { OnOk result (AppendsFixes (settings_of painter.old) (opt_ref_source S.source source.entry) fixes.now
        painter.old.out painter.new.out) }
    ensures stays { PrintsOnly painter.old painter.new }
{
    let nowhere: FixSource<'_, SourceRef<'_, S>> = FixSource::NoSource;
    let Some(source) = source else {
        return push_fix_list(painter, &nowhere, fixes);
    };
    if !some_edits(fixes) {
        return push_fix_list(painter, &nowhere, fixes);
    }
    let begin = SourceSpan::new(SourceOffset::from(0), 0);
    match source.read_span(&begin, 1, usize::MAX) {
        Ok(contents) => {
            let whole = WholeSource {
                bytes: contents.data(),
                name: contents.name(),
                asked: &source,
            };
            push_fix_list(painter, &FixSource::Whole(whole), fixes)
        }
        Err(_) => {
            let unread: FixSource<'_, SourceRef<'_, S>> = FixSource::Unread;
            push_fix_list(painter, &unread, fixes)
        }
    }
}

/// Prints a diagnostic's fixes over its effective source.
pub(crate) fn push_fixes<S: SourceCode, H>(
    painter: &mut Painter<'_, H>,
    source: Option<SourceRef<'_, S>>,
    fixes: &[Fix],
) -> Result<(), AllocError>
    ensures ok { OnOk result (AppendsFixes (settings_of painter.old) (opt_ref_source S.source source.entry) fixes.now
        painter.old.out painter.new.out) }
    ensures stays { PrintsOnly painter.old painter.new }
{
    if fixes.is_empty() {
        return Ok(());
    }
    push_fixes_over(painter, source, fixes)
}
