//! Reports as constants, over owned sources or sources that fail.

use crate::stopping::{FailingSource, Reads};
use miette::diagnostic::MietteDiagnostic;
use miette::protocol::{LabeledSpan, Severity};
use miette::report::{OwnedSource, Report, Snippets};
use miette::source::SourceCode;
use miette_fixes::fix::{Edit, Fix};
use std::alloc::{AllocError, Global};
use std::rc::Rc;

/// A report with a plain diagnostic, over a source that may fail.
pub type TestReport = Report<MietteDiagnostic, FailingSource>;

/// A label: offset, length, number of context lines (0 for the default), text (empty for none).
pub type Label = (usize, usize, usize, &'static str);

/// The source of a report.
#[derive(Clone, Copy)]
pub enum Source {
    /// No source.
    Missing,
    /// Bytes that the report owns, after their name (empty for none).
    Owned(&'static str, &'static [u8]),
    /// Bytes whose reads may fail.
    FailingSource(&'static [u8]),
}

/// A diagnostic and its source. An empty text counts as none.
#[derive(Clone, Copy)]
pub struct WrittenDiagnostic {
    /// The message.
    pub message: &'static str,
    /// The code.
    pub code: &'static str,
    /// The url.
    pub url: &'static str,
    /// The help text.
    pub help: &'static str,
    /// The severity.
    pub severity: Option<Severity>,
    /// The labels.
    pub labels: &'static [Label],
    /// The source.
    pub source: Source,
}

/// The message `m`.
pub const M: WrittenDiagnostic = WrittenDiagnostic {
    message: "m",
    code: "",
    url: "",
    help: "",
    severity: None,
    labels: &[],
    source: Source::Missing,
};

/// A fix: its message, the offset and length of the replaced text, and the replacement. If both texts are empty, the
/// fix has no edit.
pub type WrittenFix = (&'static str, usize, usize, &'static str);

/// A step in building a report.
#[derive(Clone, Copy)]
pub enum Part {
    /// Adds labels over a further source that may fail.
    Snippets(&'static [u8], &'static [Label]),
    /// Adds labels over a further owned source.
    OwnedSnippets(&'static [u8], &'static [Label]),
    /// The same, replacing all labels over further sources.
    AllSnippets(&'static [u8], &'static [Label]),
    /// Adds a fix.
    Fix(WrittenFix),
    /// Replaces all fixes by one.
    AllFixes(WrittenFix),
    /// Adds cause texts.
    CauseTexts(&'static [&'static str]),
    /// Adds related reports.
    Related(&'static [WrittenDiagnostic]),
    /// Makes the report the cause of another one.
    CauseOf(WrittenDiagnostic),
    /// Makes the report a related report of another one.
    RelatedTo(WrittenDiagnostic),
}

/// A report as a constant.
#[derive(Clone, Copy)]
pub struct Example {
    /// The name in its rows.
    pub name: &'static str,
    /// The diagnostic and source.
    pub first: WrittenDiagnostic,
    /// The steps, in order.
    pub parts: &'static [Part],
}

/// Builds a report over sources that don't fail.
///
/// # Errors
/// If allocation fails.
pub fn report_with(
    alloc: Global,
    first: &WrittenDiagnostic,
    parts: &[Part],
) -> Result<TestReport, AllocError> {
    let reads = Reads::new(alloc)?;
    report_over(alloc, first, parts, &reads)
}

/// Builds a report over sources that fail at these reads.
///
/// # Errors
/// If allocation fails.
pub fn report_over(
    alloc: Global,
    first: &WrittenDiagnostic,
    parts: &[Part],
    reads: &Rc<Reads>,
) -> Result<TestReport, AllocError> {
    let mut report = report_of(alloc, first, reads)?;
    for part in parts {
        report = with_part(alloc, report, part, reads)?;
    }
    Ok(report)
}

/// Returns the report of a diagnostic.
fn report_of(
    alloc: Global,
    written: &WrittenDiagnostic,
    reads: &Rc<Reads>,
) -> Result<TestReport, AllocError> {
    let report = Report::built(diagnostic_of(alloc, written)?);
    match written.source {
        Source::Missing => Ok(report),
        Source::Owned(name, bytes) => Ok(report.with_owned_source(source_of(alloc, name, bytes)?)),
        Source::FailingSource(bytes) => {
            Ok(report.with_source_code(FailingSource::over(alloc, bytes, reads)?))
        }
    }
}

/// Applies a step to a report.
fn with_part(
    alloc: Global,
    report: TestReport,
    part: &Part,
    reads: &Rc<Reads>,
) -> Result<TestReport, AllocError> {
    match part {
        Part::Snippets(bytes, labels) => {
            let source = FailingSource::over(alloc, bytes, reads)?;
            report.with_snippets(alloc, source, labels_of(alloc, labels)?)
        }
        Part::OwnedSnippets(bytes, labels) => {
            let source = source_of(alloc, "", bytes)?;
            report.with_owned_snippets(alloc, source, labels_of(alloc, labels)?)
        }
        Part::AllSnippets(bytes, labels) => {
            let list = list_of(alloc, section_of(alloc, bytes, labels))?;
            report.with_all_snippets(alloc, list)
        }
        Part::Fix(mended) => report.with_fix(alloc, fix_of(alloc, mended)?),
        Part::AllFixes(mended) => {
            let list = list_of(alloc, fix_of(alloc, mended))?;
            report.with_fixes(alloc, list)
        }
        Part::CauseTexts(texts) => Ok(report.with_cause_texts(texts_of(alloc, texts)?)),
        Part::Related(others) => Ok(report.with_related(reports_of(alloc, others, reads)?)),
        Part::CauseOf(above) => {
            match report_of(alloc, above, reads)?.with_diagnostic_cause(alloc, report) {
                Ok(made) => Ok(made),
                Err(_) => Err(AllocError),
            }
        }
        Part::RelatedTo(other) => {
            let list = list_of(alloc, Ok(report))?;
            Ok(report_of(alloc, other, reads)?.with_related(list))
        }
    }
}

/// Appends a value, if it was made.
fn push_made<T: Drop>(list: &mut Vec<T>, made: Result<T, AllocError>) -> Result<(), AllocError> {
    match list.push(made?) {
        Ok(()) => Ok(()),
        Err(_) => Err(AllocError),
    }
}

/// Returns a list with the value, if it was made.
///
/// # Errors
/// If making the value failed, or allocation fails.
pub fn list_of<T: Drop>(alloc: Global, made: Result<T, AllocError>) -> Result<Vec<T>, AllocError> {
    let mut list = Vec::new(alloc);
    push_made(&mut list, made)?;
    Ok(list)
}

/// Returns a list of owned texts.
///
/// # Errors
/// If allocation fails.
pub fn texts_of(alloc: Global, texts: &[&str]) -> Result<Vec<String>, AllocError> {
    let mut list = Vec::new(alloc);
    for text in texts {
        push_made(&mut list, String::from_str(alloc, text))?;
    }
    Ok(list)
}

fn reports_of(
    alloc: Global,
    others: &[WrittenDiagnostic],
    reads: &Rc<Reads>,
) -> Result<Vec<TestReport>, AllocError> {
    let mut list = Vec::new(alloc);
    for written in others {
        push_made(&mut list, report_of(alloc, written, reads))?;
    }
    Ok(list)
}

/// Returns labels over an owned source.
///
/// # Errors
/// If allocation fails.
pub fn section_of<S: SourceCode>(
    alloc: Global,
    bytes: &[u8],
    labels: &[Label],
) -> Result<Snippets<S>, AllocError> {
    let labels = labels_of(alloc, labels)?;
    Ok(Snippets::over_owned(source_of(alloc, "", bytes)?, labels))
}

/// Returns the fix.
///
/// # Errors
/// If allocation fails.
pub fn fix_of(alloc: Global, mended: &WrittenFix) -> Result<Fix, AllocError> {
    let (message, offset, length, text) = *mended;
    let fix = Fix::new(alloc, message)?;
    if length == 0 && text.is_empty() {
        return Ok(fix);
    }
    let text = String::from_str(alloc, text)?;
    fix.with_edit(Edit::replace((offset, length), text))
}

/// Returns the diagnostic without its source. The capacity of its labels is exact.
///
/// # Errors
/// If allocation fails.
pub fn diagnostic_of(
    alloc: Global,
    written: &WrittenDiagnostic,
) -> Result<MietteDiagnostic, AllocError> {
    let message = String::from_str(alloc, written.message)?;
    let code = text_of(alloc, written.code)?;
    let help = text_of(alloc, written.help)?;
    let url = text_of(alloc, written.url)?;
    let labels = labels_of(alloc, written.labels)?;
    Ok(MietteDiagnostic {
        message,
        code,
        severity: written.severity,
        help,
        url,
        labels: Some(labels),
    })
}

fn text_of(alloc: Global, text: &str) -> Result<Option<String>, AllocError> {
    if text.is_empty() {
        return Ok(None);
    }
    Ok(Some(String::from_str(alloc, text)?))
}

/// Returns the labels in a list with exact capacity.
///
/// # Errors
/// If allocation fails.
pub fn labels_of(alloc: Global, labels: &[Label]) -> Result<Vec<LabeledSpan>, AllocError> {
    let mut list = Vec::with_capacity(alloc, labels.len())?;
    for label in labels {
        push_made(&mut list, label_of(alloc, *label))?;
    }
    Ok(list)
}

fn label_of(
    alloc: Global,
    (offset, length, lines, text): Label,
) -> Result<LabeledSpan, AllocError> {
    let label = LabeledSpan::new(text_of(alloc, text)?, offset, length);
    if lines == 0 {
        Ok(label)
    } else {
        Ok(label.with_context_lines(lines))
    }
}

/// Returns an owned source. An empty name counts as none.
///
/// # Errors
/// If allocation fails.
pub fn source_of(alloc: Global, name: &str, bytes: &[u8]) -> Result<OwnedSource, AllocError> {
    let bytes = bytes.to_vec(alloc)?;
    if name.is_empty() {
        return OwnedSource::new(alloc, bytes);
    }
    OwnedSource::named(alloc, name, None, bytes)
}
