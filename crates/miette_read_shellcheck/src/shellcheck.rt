//! Reports from what ShellCheck writes.

ghost use Rattle.std.specs.Prelude.{◌≡◌, Err, None, Some, IfOk, map, option_map};
ghost use Rattle.serde_json.specs.View.{view};
ghost use Rattle.miette_read.specs.views.Values.{viewed};
ghost use Rattle.miette_tree.specs.views.Report.{tree_of};
ghost use Rattle.miette_read_shellcheck.specs.rules.Comments.{comment_tree, comments_of, has_shellcheck_comments};
ghost use Rattle.miette_read_shellcheck.specs.rules.Comments.{shellcheck_trees, comment_annotations};

use crate::comment_locations::{comment_file, comment_location};
use crate::comment_parts::comment_parts;
use crate::laws;
use crate::replacements::suggestions_and_help;
use miette_protocol::protocol::Diagnostic;
use miette_protocol::source::SourceCode;
use miette_read::files::{BorrowedFile, Files};
use miette_read::format::MessageFormat;
use miette_read::lists::push_item;
use miette_read::location::Annotation;
use miette_read::members::{list_in, member_value};
use miette_read::message_list::{MessageList, list_reports};
use miette_read::reports::tool_report;
use miette_read::rustc::ReadError;
use miette_tree::report::Report;
use serde_json::Value;
use std::alloc::{AllocError, Global};

/// What ShellCheck writes (`-f json1`): an object with a list of comments.
pub struct ShellCheck;

/// The comments among what ShellCheck writes.
fn comments_of(value: &Value) -> Option<&[Value]>
    ensures { option_map (λ it. viewed it.now) result ≡ comments_of (view value.now) }
{
    list_in(member_value(value, "comments")?)
}

/// Whether a value has a list of comments.
pub fn has_shellcheck_comments(value: &Value) -> bool
    ensures { result ≡ has_shellcheck_comments (view value.now) }
{
    comments_of(value).is_some()
}

/// The annotation of a comment: its location, without a text.
fn comment_annotations<'v, F: Files>(
    alloc: Global,
    files: &F,
    comment: &'v Value,
) -> Result<Vec<Annotation<'v>>, AllocError>
    ensures { IfOk result (λ list. list.items ≡ comment_annotations (F.found files.now) (view comment.now)) }
{
    let mut list = Vec::new(alloc);
    let told = Annotation {
        rows: Vec::new(alloc),
        place: Some(comment_location(files, comment_file(comment), comment)),
        primary: true,
        own: true,
    };
    push_item(&mut list, told)?;
    Ok(list)
}

impl MessageList for ShellCheck {
    ghost listed = { comments_of };

    ghost tree = { comment_tree };

    fn messages(value: &Value) -> Option<&[Value]> {
        comments_of(value)
    }

    fn report<'f, D: Diagnostic, F: Files>(
        alloc: Global,
        files: &'f F,
        message: &Value,
    ) -> Result<Report<D, BorrowedFile<'f>>, AllocError> {
        let told = comment_annotations(alloc, files, message)?;
        let (offers, help) = suggestions_and_help(alloc, files, message)?;
        let said = comment_parts(alloc, help, message)?;
        tool_report(alloc, files, said, told.as_slice(), offers.as_slice())
    }
}

impl MessageFormat for ShellCheck {
    ghost looks = { has_shellcheck_comments };

    ghost trees = { shellcheck_trees };

    fn looks_like(value: &Value) -> bool {
        has_shellcheck_comments(value)
    }

    fn reports<'f, D: Diagnostic, F: Files>(
        alloc: Global,
        files: &'f F,
        value: &Value,
    ) -> Result<Vec<Report<D, BorrowedFile<'f>>>, ReadError> {
        list_reports::<ShellCheck, D, F>(alloc, files, value)
    }

    fn reports_always_read() {
        laws::reports_always_read();
    }

    fn labels_are_accepted() {
        laws::labels_are_accepted();
    }
}

/// The reports of what ShellCheck writes (`-f json1`): one of each of its comments, over files that are looked up by
/// the names that it gives them.
///
/// # Errors
/// `NoMessage` of what has no list of comments, or has one without a message, and `Memory`.
pub fn shellcheck_reports<'f, D: Diagnostic, F: Files>(
    alloc: Global,
    files: &'f F,
    value: &Value,
) -> Result<Vec<Report<D, BorrowedFile<'f>>>, ReadError>
    ensures ok { IfOk result (λ list. shellcheck_trees (F.found files.now) (view value.now)
        ≡ Some (map (tree_of D.meaning ⟦<BorrowedFile<'f> as SourceCode>⟧.source) list.items)) }
    ensures message { (result ≡ Err ReadError.NoMessage)
        → shellcheck_trees (F.found files.now) (view value.now) ≡ None }
{
    ShellCheck::reports(alloc, files, value)
}
