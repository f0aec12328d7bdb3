//! Builds the report of any tool's message from its parts, annotations and suggestions.

ghost use Rattle.std.specs.Prelude.{◌≡◌, ◌+◌, IfOk, map, option_map};
ghost use Rattle.miette_protocol.specs.views.Diagnostic.{meaning_of};
ghost use Rattle.miette_tree.specs.views.Attachments.{section_of};
ghost use Rattle.miette_tree.specs.views.Report.{tree_of};
ghost use Rattle.miette_read.specs.rules.Reports.{further_files, label_of, labels_in, maybe_source, meaning_with};
ghost use Rattle.miette_read.specs.rules.Reports.{report_tree, sections_from, some_labels, annotated_tree};
ghost use Rattle.miette_read.specs.rules.AnnotationLabels.{label_lists};

use crate::advice::add_suggestions;
use crate::file_labels::{FileLabel, LabelLists, first_file_name};
use crate::files::{BorrowedFile, Files};
use crate::label_lists::label_lists;
use crate::lists::push_item;
use crate::location::{Annotation, join_rows};
use crate::suggestions::Suggestion;
use miette_protocol::diagnostic::MietteDiagnostic;
use miette_protocol::protocol::{Diagnostic, LabeledSpan, Severity};
use miette_protocol::source::SourceCode;
use miette_tree::report::{Report, Snippets};
use std::alloc::{AllocError, Global};
use std::marker::Model;

/// A message's own parts.
#[derive(Drop)]
pub struct MessageParts {
    /// The message's text.
    pub message: String,
    /// The code, to look the message up.
    pub code: Option<String>,
    /// The severity.
    pub severity: Severity,
    /// The help text.
    pub help: Option<String>,
    /// The URL of further documentation.
    pub url: Option<String>,
}

impl Model for MessageParts {
    ghost use Rattle.std.specs.Prelude.{option_map, string_bytes};
    ghost use Rattle.miette_read.specs.rules.Reports as reports;

    ghost Value = { reports.MessageParts };

    ghost view = { λ it. record {
      message = string_bytes it.message;
      code = option_map string_bytes it.code;
      severity = it.severity;
      help = option_map string_bytes it.help;
      url = option_map string_bytes it.url;
    } };
}

/// Returns the label of a `FileLabel`.
fn label_of(alloc: Global, mark: &FileLabel<'_>) -> Result<LabeledSpan, AllocError>
    ensures { IfOk result (λ label. label ≡ label_of mark.now) }
{
    let text = join_rows(alloc, mark.rows.as_slice())?;
    let (start, end) = (mark.stretch.start, mark.stretch.end);
    let span = (start, end.saturating_sub(start));
    if mark.primary {
        Ok(LabeledSpan::new_primary_with_span(text, span))
    } else {
        Ok(LabeledSpan::new_with_span(text, span))
    }
}

/// Returns the labels of one list.
fn labels_in(
    alloc: Global,
    marks: &[FileLabel<'_>],
    list: usize,
) -> Result<Vec<LabeledSpan>, AllocError>
    ensures { IfOk result (λ labels. labels.items ≡ labels_in marks.now list) }
{
    let mut labels = Vec::new(alloc);
    for mark in marks {
        if mark.list == list {
            let label = label_of(alloc, mark)?;
            push_item(&mut labels, label)?;
        }
    }
    Ok(labels)
}

/// Returns the labels, or `None` if there are none.
fn some_labels(labels: Vec<LabeledSpan>) -> Option<Vec<LabeledSpan>>
    ensures { option_map (λ list. list.items) result ≡ some_labels labels.items }
{
    if labels.is_empty() {
        None
    } else {
        Some(labels)
    }
}

/// Returns the diagnostic: the message's own parts with the labels of the first list.
fn diagnostic_of(
    alloc: Global,
    said: MessageParts,
    marks: &[FileLabel<'_>],
) -> Result<MietteDiagnostic, AllocError>
    ensures { IfOk result (λ d. meaning_of d ≡ meaning_with said marks.now) }
{
    let labels = labels_in(alloc, marks, 0)?;
    let MessageParts {
        message,
        code,
        severity,
        help,
        url,
    } = said;
    Ok(MietteDiagnostic {
        message,
        code,
        severity: Some(severity),
        help,
        url,
        labels: some_labels(labels),
    })
}

/// Returns the labels of a list, over its file.
fn section_at<'f>(
    alloc: Global,
    marks: &[FileLabel<'_>],
    list: usize,
    file: &BorrowedFile<'f>,
) -> Result<Snippets<BorrowedFile<'f>>, AllocError>
    ensures { IfOk result (λ it. section_of ⟦<BorrowedFile<'f> as SourceCode>⟧.source it
        ≡ record { source = file.now; labels = labels_in marks.now list }) }
{
    let labels = labels_in(alloc, marks, list)?;
    Ok(Snippets::over(file.again(), labels))
}

/// Returns the labels over these files, which are those of list 1 and later ones.
fn sections_over<'f>(
    alloc: Global,
    marks: &[FileLabel<'_>],
    files: &[BorrowedFile<'f>],
) -> Result<Vec<Snippets<BorrowedFile<'f>>>, AllocError>
    ensures { IfOk result (λ list. map (section_of ⟦<BorrowedFile<'f> as SourceCode>⟧.source) list.items
        ≡ sections_from marks.now 1 files.now) }
{
    let mut list = Vec::new(alloc);
    for file in files {
        let section = section_at(alloc, marks, list.len() + 1, file)?;
        list.push(section)?;
    }
    Ok(list)
}

/// Returns the labels over further files.
fn further_labels<'f>(
    alloc: Global,
    done: &LabelLists<'f, '_>,
) -> Result<Vec<Snippets<BorrowedFile<'f>>>, AllocError>
    ensures { IfOk result (λ list. map (section_of ⟦<BorrowedFile<'f> as SourceCode>⟧.source) list.items
        ≡ sections_from done.now.marks 1 (further_files done.now.files)) }
{
    match done.files.as_slice().split_first() {
        Some((_, rest)) => sections_over(alloc, done.marks.as_slice(), rest),
        None => Ok(Vec::new(alloc)),
    }
}

/// Sets the first file as the report's source, if there is one.
fn over_first<'f, D: Diagnostic>(
    report: Report<D, BorrowedFile<'f>>,
    files: &[BorrowedFile<'f>],
) -> Report<D, BorrowedFile<'f>>
    ensures { tree_of D.meaning ⟦<BorrowedFile<'f> as SourceCode>⟧.source result
        ≡ maybe_source files.now (tree_of D.meaning ⟦<BorrowedFile<'f> as SourceCode>⟧.source report.entry) }
{
    match files.first() {
        Some(file) => report.with_source_code(file.again()),
        None => report,
    }
}

/// Returns the report without suggestions.
fn annotated_report<'f, D: Diagnostic>(
    alloc: Global,
    said: MessageParts,
    done: LabelLists<'f, '_>,
) -> Result<Report<D, BorrowedFile<'f>>, AllocError>
    ensures { IfOk result (λ r. tree_of D.meaning ⟦<BorrowedFile<'f> as SourceCode>⟧.source r
        ≡ annotated_tree said done.entry) }
{
    let diagnostic = diagnostic_of(alloc, said, done.marks.as_slice())?;
    let snippets = further_labels(alloc, &done)?;
    let report = over_first(Report::built(diagnostic), done.files.as_slice());
    let LabelLists {
        marks: _,
        files: _,
        texts,
    } = done;
    report
        .with_cause_texts(texts)
        .with_all_snippets(alloc, snippets)
}

/// Builds the report of a message from its own parts, annotations and suggestions. The annotations' files are looked up
/// by name.
///
/// # Errors
/// `AllocError` if allocation fails.
pub fn tool_report<'f, D: Diagnostic, F: Files>(
    alloc: Global,
    files: &'f F,
    said: MessageParts,
    told: &[Annotation<'_>],
    offers: &[Suggestion<'f, '_>],
) -> Result<Report<D, BorrowedFile<'f>>, AllocError>
    ensures { IfOk result (λ r. tree_of D.meaning ⟦<BorrowedFile<'f> as SourceCode>⟧.source r
        ≡ report_tree said (label_lists (F.found files.now) told.now) offers.now) }
{
    let done = label_lists(alloc, files, told)?;
    let main = first_file_name(done.marks.as_slice());
    let report = annotated_report(alloc, said, done)?;
    add_suggestions(alloc, report, offers, main)
}
