//! The texts of a report: everything except locations and fixes.

ghost use Rattle.std.specs.Prelude.{◌≡◌, ◌++◌, IfOk, OnOk, map, string_bytes};
ghost use Rattle.miette_tree.specs.rules.Tree.{cause_of, causes_of, head};
ghost use Rattle.miette_tree.specs.views.Report.{tree_of};
ghost use Rattle.miette_sarif.specs.rules.FindingList.{level};
ghost use Rattle.miette_sarif.specs.steps.Gathering.{report_texts};
ghost use Rattle.miette_sarif.specs.views.FindingParts.{report_texts_of};

use crate::finding::ReportTexts;
use miette_protocol::protocol::{Diagnostic, Severity};
use miette_protocol::source::SourceCode;
use miette_tree::parts::cause_texts;
use miette_tree::report::{Cause, Report};
use std::alloc::{AllocError, Global};

// The SARIF level of a severity.
fn level_of(severity: Option<Severity>) -> &'static str
    ensures { result.now ≡ level severity }
{
    match severity {
        Some(Severity::Advice) => "note",
        Some(Severity::Warning) => "warning",
        _ => "error",
    }
}

// Appends texts.
fn push_texts<'a>(rows: &mut Vec<&'a str>, texts: &'a [String]) -> Result<(), AllocError>
    ensures { OnOk result (map (λ row. row.now) rows.new.items
        ≡ map (λ row. row.now) rows.old.items ++ map string_bytes texts.now) }
{
    for text in texts {
        rows.push(text.as_str())?;
    }
    Ok(())
}

// Returns the messages and texts of causes, the nearest first.
fn cause_rows<'a, D: Diagnostic, S: SourceCode>(
    alloc: Global,
    report: &'a Report<D, S>,
) -> Result<Vec<&'a str>, AllocError>
    ensures { IfOk result (λ rows. map (λ row. row.now) rows.items
        ≡ causes_of (cause_of (tree_of D.meaning S.source report.now))) }
{
    let mut rows = Vec::new(alloc);
    let mut at = report;
    while let Cause::Diagnostic(next) = at.cause() {
        rows.push(next.message())?;
        at = next;
    }
    push_texts(&mut rows, cause_texts(at))?;
    Ok(rows)
}

/// The texts of a report: everything except locations and fixes.
pub(crate) fn report_texts_of<'a, D: Diagnostic, S: SourceCode>(
    alloc: Global,
    report: &'a Report<D, S>,
) -> Result<ReportTexts<'a>, AllocError>
    ensures { IfOk result (λ it. report_texts_of it ≡ report_texts (head (tree_of D.meaning S.source report.now))
        (cause_of (tree_of D.meaning S.source report.now))) }
{
    let causes = cause_rows(alloc, report)?;
    Ok(ReportTexts {
        code: report.code().unwrap_or(""),
        level: level_of(report.severity()),
        message: report.message(),
        causes,
        help: report.help(),
        url: report.url(),
    })
}
