//! Reports from the messages of rustc and cargo.

ghost use Rattle.std.specs.Prelude.{◌≡◌, Err, Some, None, IfOk, codes, option_map};
ghost use Rattle.serde_json.specs.View.{view};
ghost use Rattle.miette_tree.specs.views.Report.{tree_of};
ghost use Rattle.miette_read.specs.rules.Members.{member_text};
ghost use Rattle.miette_read.specs.rules.RustcReport.{rustc_message_in, is_other_cargo_line, is_other_rustc_line};
ghost use Rattle.miette_read.specs.rules.RustcReport.{is_rustc_row};
ghost use Rattle.miette_read.specs.rules.RustcReport.{message_tree, rustc_tree, rustc_trees};
ghost use Rattle.miette_read.specs.views.Builds.{built};

use crate::annotation_spans::message_annotations;
use crate::closing::is_closing_message;
use crate::files::{BorrowedFile, Files};
use crate::format::MessageFormat;
use crate::lists::list_of_one;
use crate::members::{has_list, has_text, member_object, member_text};
use crate::message_parts::message_parts;
use crate::reports::tool_report;
use crate::rustc_suggestions::message_suggestions;
use crate::user_span::{Build, build_of};
use miette_protocol::protocol::Diagnostic;
use miette_protocol::source::SourceCode;
use miette_tree::report::Report;
use serde_json::Value;
use std::alloc::{AllocError, Global};

/// Why a value has no report.
#[derive(Clone, Copy, Debug, PartialEq, Eq)]
pub enum ReadError {
    /// Allocation failed.
    Memory,
    /// The value has no message.
    NoMessage,
}

impl From<AllocError> for ReadError {
    ghost use Rattle.std.specs.Prelude.{◌≡◌};
    ghost use Rattle.miette_read.specs.declared.rustc.ReadError.TheVariants.{Memory};

    ghost from_gives = { λ _ e. e ≡ Memory };

    fn from(_refused: AllocError) -> ReadError {
        ReadError::Memory
    }
}

/// Returns whether a line is from cargo and isn't a rustc message (`reason`).
pub fn is_other_cargo_line(value: &Value) -> bool
    ensures { result ≡ is_other_cargo_line (view value.now) }
{
    match member_text(value, "reason") {
        Some(reason) => reason != "compiler-message",
        None => false,
    }
}

/// Returns whether a line is from rustc and isn't a diagnostic (`$message_type`).
pub fn is_other_rustc_line(message: &Value) -> bool
    ensures { result ≡ is_other_rustc_line (view message.now) }
{
    match member_text(message, "$message_type") {
        Some(kind) => kind != "diagnostic",
        None => false,
    }
}

/// Returns the rustc message in a line of cargo, or the line itself if it is from rustc.
pub fn rustc_message_in(value: &Value) -> Option<&Value>
    ensures { option_map (λ v. view v.now) result
        ≡ rustc_message_in (view value.now) (member_text (codes "reason") (view value.now)) }
{
    match member_text(value, "reason") {
        Some(_) => member_object(value, "message"),
        None => Some(value),
    }
}

/// Returns the report of a rustc message.
fn message_report<'f, D: Diagnostic, F: Files>(
    alloc: Global,
    build: &Build<'f, '_, F>,
    message: &Value,
) -> Result<Report<D, BorrowedFile<'f>>, AllocError>
    ensures { IfOk result (λ r. tree_of D.meaning ⟦<BorrowedFile<'f> as SourceCode>⟧.source r
        ≡ message_tree (built F.found build.now) (view message.now)) }
{
    let told = message_annotations(alloc, build, message)?;
    let offers = message_suggestions(alloc, build.files, message)?;
    let said = message_parts(alloc, build.files, message)?;
    tool_report(alloc, build.files, said, told.as_slice(), offers.as_slice())
}

/// Returns the report of a line of rustc (`--error-format=json`) or cargo (`--message-format=json`). Files are looked
/// up by the names in the line. Returns `None` for other lines, and for rustc's closing messages.
///
/// # Errors
/// `NoMessage` if the line has no message. `Memory` if allocation fails.
pub fn rustc_report<'f, D: Diagnostic, F: Files>(
    alloc: Global,
    files: &'f F,
    value: &Value,
) -> Result<Option<Report<D, BorrowedFile<'f>>>, ReadError>
    ensures ok { IfOk result (λ o. rustc_tree (F.found files.now) (view value.now)
        ≡ Some (option_map (tree_of D.meaning ⟦<BorrowedFile<'f> as SourceCode>⟧.source) o)) }
    ensures message { (result ≡ Err ReadError.NoMessage) → rustc_tree (F.found files.now) (view value.now) ≡ None }
{
    if is_other_cargo_line(value) {
        return Ok(None);
    }
    let message = rustc_message_in(value).ok_or(ReadError::NoMessage)?;
    if is_other_rustc_line(message) {
        return Ok(None);
    }
    if member_text(message, "message").is_none() {
        return Err(ReadError::NoMessage);
    }
    if is_closing_message(alloc, message)? {
        return Ok(None);
    }
    let report = message_report(alloc, &build_of(files, value), message)?;
    Ok(Some(report))
}

/// What rustc and cargo write: a row of each message (`--error-format=json`, `--message-format=json`).
pub struct Rustc;

/// Whether it has what a row of rustc or cargo has.
fn is_rustc_row(value: &Value) -> bool
    ensures { result ≡ is_rustc_row (view value.now) }
{
    has_text(value, "reason")
        || has_text(value, "$message_type")
        || (has_list(value, "spans") && has_list(value, "children"))
}

impl MessageFormat for Rustc {
    ghost looks = { is_rustc_row };

    ghost trees = { rustc_trees };

    fn looks_like(value: &Value) -> bool {
        is_rustc_row(value)
    }

    fn reports<'f, D: Diagnostic, F: Files>(
        alloc: Global,
        files: &'f F,
        value: &Value,
    ) -> Result<Vec<Report<D, BorrowedFile<'f>>>, ReadError> {
        match rustc_report(alloc, files, value) {
            Ok(Some(report)) => Ok(list_of_one(alloc, report)?),
            Ok(None) => Ok(Vec::new(alloc)),
            Err(error) => Err(error),
        }
    }

    fn reports_always_read() {}

    fn labels_are_accepted() {}
}
