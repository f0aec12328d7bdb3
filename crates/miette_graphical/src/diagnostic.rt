//! The texts of one diagnostic: its header, its message, the title of a sibling, and causes that are plain texts.

ghost use Rattle.std.specs.Prelude.{◌≡◌, ◌++◌, IfOk, OnOk, map, not, string_bytes};
ghost use Rattle.miette_graphical_rules.specs.rules.DiagnosticText as parts;
ghost use Rattle.miette_graphical_rules.specs.rules.Text as texts;
ghost use Rattle.miette_graphical.specs.views.Painting.{PrintsOnly, settings_of};
ghost use Rattle.miette_tree.specs.views.Report.{tree_of};
ghost use Rattle.miette_tree.specs.rules.Tree.{head};
ghost use Rattle.miette_tree.specs.rules.DiagnosticParts.{severity_title};
ghost use Rattle.miette_runs.specs.rules.Runs as runs;
ghost use Rattle.miette_lines.specs.rules.Lists.{is_nil};

use crate::header::push_header;
use crate::indents::{Branch, TextKind, push_text};
use crate::painter::Painter;
use miette_graphical_rules::settings::severity_style;
use miette_protocol::protocol::{Diagnostic, Severity};
use miette_protocol::source::SourceCode;
use miette_runs::runs::output::Output;
use miette_tree::parts::severity_title;
use miette_tree::report::Report;
use std::alloc::AllocError;

// Prints a report's header. Returns whether there is one.
fn push_header_of<D: Diagnostic, S: SourceCode, H>(
    painter: &mut Painter<'_, H>,
    report: &Report<D, S>,
) -> Result<bool, AllocError>
    ensures text { OnOk result (painter.new.out ≡ painter.old.out
        ++ runs.print (parts.header (settings_of painter.old) (head (tree_of D.meaning S.source report.now)))) }
    ensures shown { IfOk result (λ shown. shown
        ≡ not (is_nil (parts.header (settings_of painter.old) (head (tree_of D.meaning S.source report.now))))) }
    ensures stays { PrintsOnly painter.old painter.new }
{
    let style = severity_style(painter.settings, report.severity());
    push_header(painter, style, report.url(), report.code())
}

/// Prints the severity in front of a sibling's message, as in `Error: `.
fn push_severity_title(out: &mut Output, severity: Option<Severity>) -> Result<(), AllocError>
    ensures { OnOk result (out.new ≡ out.old ++ severity_title severity) }
{
    out.push_str(severity_title(severity))
}

/// Prints a report's header, if it has one, and its message.
pub fn push_header_and_message<D: Diagnostic, S: SourceCode, H>(
    painter: &mut Painter<'_, H>,
    report: &Report<D, S>,
) -> Result<(), AllocError>
    ensures text { OnOk result (painter.new.out ≡ (painter.old.out ++ runs.print (parts.header
        (settings_of painter.old) (head (tree_of D.meaning S.source report.now))))
        ++ parts.message_text (settings_of painter.old) (head (tree_of D.meaning S.source report.now))) }
    ensures stays { PrintsOnly painter.old painter.new }
{
    push_header_of(painter, report)?;
    let kind = TextKind::Message(report.severity());
    push_text(painter, kind, report.message())
}

// Prints the title of a sibling: its severity and its header, or the end of the row if it has none.
fn push_title<D: Diagnostic, S: SourceCode, H>(
    painter: &mut Painter<'_, H>,
    report: &Report<D, S>,
) -> Result<(), AllocError>
    ensures text { OnOk result (painter.new.out ≡ painter.old.out ++ parts.title_text (settings_of painter.old)
        (head (tree_of D.meaning S.source report.now))) }
    ensures stays { PrintsOnly painter.old painter.new }
{
    painter.out.push('\n')?;
    push_severity_title(&mut painter.out, report.severity())?;
    if push_header_of(painter, report)? {
        return Ok(());
    }
    painter.out.push('\n')
}

/// Prints a sibling's title and message.
pub fn push_sibling_header<D: Diagnostic, S: SourceCode, H>(
    painter: &mut Painter<'_, H>,
    report: &Report<D, S>,
) -> Result<(), AllocError>
    ensures text { OnOk result (painter.new.out ≡ (painter.old.out ++ parts.title_text (settings_of painter.old)
        (head (tree_of D.meaning S.source report.now))) ++ parts.message_text (settings_of painter.old)
        (head (tree_of D.meaning S.source report.now))) }
    ensures stays { PrintsOnly painter.old painter.new }
{
    push_title(painter, report)?;
    let kind = TextKind::Message(report.severity());
    push_text(painter, kind, report.message())
}

/// Returns whether the list is empty.
pub fn is_nil(list: &[String]) -> bool
    ensures { result ≡ is_nil (map string_bytes list.now) }
{
    match list {
        [] => true,
        [_, ..] => false,
    }
}

/// Prints causes that are plain texts, each under its arrow.
pub fn push_cause_texts<H>(
    painter: &mut Painter<'_, H>,
    outer: Option<Severity>,
    list: &[String],
) -> Result<(), AllocError>
    ensures text { OnOk result (painter.new.out ≡ painter.old.out ++ texts.cause_texts (settings_of painter.old) outer
        (map string_bytes list.now)) }
    ensures stays { PrintsOnly painter.old painter.new }
{
    let mut rest = list;
    while let [text, more @ ..] = rest {
        let branch = Branch {
            outer,
            is_last: is_nil(more),
        };
        push_text(painter, TextKind::Cause(branch), text.as_str())?;
        rest = more;
    }
    Ok(())
}
