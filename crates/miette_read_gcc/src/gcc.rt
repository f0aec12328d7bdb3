//! Reports from what GCC writes.

ghost use Rattle.std.specs.Prelude.{◌≡◌, Err, None, Some, IfOk, map};
ghost use Rattle.std.specs.List.{list_all};
ghost use Rattle.serde_json.specs.View.{view};
ghost use Rattle.miette_read.specs.rules.Members.{list_in};
ghost use Rattle.miette_read.specs.views.Values.{viewed};
ghost use Rattle.miette_tree.specs.views.Report.{tree_of};
ghost use Rattle.miette_read_gcc.specs.rules.GccReport.{diagnostic_tree, gcc_trees, is_gcc_array, is_gcc_item};
ghost use Rattle.miette_read_gcc.specs.rules.GccReport.{context_report};
ghost use Rattle.miette_read_gcc.specs.views.GccContexts.{gcc_context};

use crate::diagnostic_annotations::diagnostic_annotations;
use crate::diagnostic_parts::diagnostic_parts;
use crate::fixits::diagnostic_suggestions;
use crate::laws;
use crate::points::GccContext;
use miette_protocol::protocol::Diagnostic;
use miette_protocol::source::SourceCode;
use miette_read::files::{BorrowedFile, Files};
use miette_read::format::MessageFormat;
use miette_read::members::{has_list, has_text, list_in, member_number};
use miette_read::message_list::{MessageList, list_reports};
use miette_read::reports::tool_report;
use miette_read::rustc::ReadError;
use miette_tree::report::Report;
use serde_json::Value;
use std::alloc::{AllocError, Global};

/// What GCC writes (`-fdiagnostics-format=json`): an array of diagnostics.
pub struct Gcc;

/// Whether it has a kind and a list of places, as each diagnostic of GCC.
fn is_gcc_item(item: &Value) -> bool
    ensures { result ≡ is_gcc_item (view item.now) }
{
    has_text(item, "kind") && has_list(item, "locations")
}

/// Returns whether each of these is a diagnostic of GCC.
fn are_gcc_items(items: &[Value]) -> bool
    ensures { result ≡ list_all is_gcc_item (viewed items.now) }
{
    items.iter().all(|it| is_gcc_item(it))
}

/// Returns whether the value is an array of only GCC diagnostics.
fn is_gcc_array(value: &Value) -> bool
    ensures { result ≡ is_gcc_array (view value.now) }
{
    match list_in(value) {
        Some(items) => are_gcc_items(items),
        None => false,
    }
}

/// The report of a diagnostic, by what its places are found by.
fn context_report<'f, D: Diagnostic, F: Files>(
    alloc: Global,
    context: &GccContext<'f, F>,
    diagnostic: &Value,
) -> Result<Report<D, BorrowedFile<'f>>, AllocError>
    ensures { IfOk result (λ r. tree_of D.meaning ⟦<BorrowedFile<'f> as SourceCode>⟧.source r
        ≡ context_report (gcc_context F.found context.now) (view diagnostic.now)) }
{
    let told = diagnostic_annotations(alloc, context, diagnostic)?;
    let offers = diagnostic_suggestions(alloc, context, diagnostic)?;
    let said = diagnostic_parts(alloc, context, diagnostic)?;
    tool_report(
        alloc,
        context.files,
        said,
        told.as_slice(),
        offers.as_slice(),
    )
}

impl MessageList for Gcc {
    ghost listed = { list_in };

    ghost tree = { diagnostic_tree };

    fn messages(value: &Value) -> Option<&[Value]> {
        list_in(value)
    }

    fn report<'f, D: Diagnostic, F: Files>(
        alloc: Global,
        files: &'f F,
        message: &Value,
    ) -> Result<Report<D, BorrowedFile<'f>>, AllocError> {
        let origin = member_number(message, "column-origin").unwrap_or(1);
        context_report(alloc, &GccContext { files, origin }, message)
    }
}

impl MessageFormat for Gcc {
    ghost looks = { is_gcc_array };

    ghost trees = { gcc_trees };

    fn looks_like(value: &Value) -> bool {
        is_gcc_array(value)
    }

    fn reports<'f, D: Diagnostic, F: Files>(
        alloc: Global,
        files: &'f F,
        value: &Value,
    ) -> Result<Vec<Report<D, BorrowedFile<'f>>>, ReadError> {
        list_reports::<Gcc, D, F>(alloc, files, value)
    }

    fn reports_always_read() {
        laws::reports_always_read();
    }

    fn labels_are_accepted() {
        laws::labels_are_accepted();
    }
}

/// Builds the reports of GCC's output (`-fdiagnostics-format=json`): one for each diagnostic in the array, over files
/// that are looked up by the names in it.
///
/// # Errors
/// `NoMessage` if the value isn't an array, or if an item has no message. `Memory` if allocation fails.
pub fn gcc_reports<'f, D: Diagnostic, F: Files>(
    alloc: Global,
    files: &'f F,
    value: &Value,
) -> Result<Vec<Report<D, BorrowedFile<'f>>>, ReadError>
    ensures ok { IfOk result (λ list. gcc_trees (F.found files.now) (view value.now)
        ≡ Some (map (tree_of D.meaning ⟦<BorrowedFile<'f> as SourceCode>⟧.source) list.items)) }
    ensures message { (result ≡ Err ReadError.NoMessage) → gcc_trees (F.found files.now) (view value.now) ≡ None }
{
    Gcc::reports(alloc, files, value)
}
