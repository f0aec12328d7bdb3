//! Formats whose values list messages: each becomes a report.

ghost use Rattle.std.specs.Prelude.{◌≡◌, ◌++◌, Err, IfOk, None, OnOk, Some, map};
ghost use Rattle.std.specs.List.{list_all};
ghost use Rattle.serde_json.specs.View.{view};
ghost use Rattle.miette_read.specs.rules.MessageLists.{has_message, list_trees};
ghost use Rattle.miette_read.specs.views.Values.{viewed};
ghost use Rattle.miette_tree.specs.views.Report.{tree_of};

use crate::files::{BorrowedFile, Files};
use crate::lists::push_item;
use crate::members::member_text;
use crate::rustc::ReadError;
use miette_protocol::protocol::Diagnostic;
use miette_protocol::source::SourceCode;
use miette_tree::report::Report;
use serde_json::Value;
use std::alloc::{AllocError, Global};

/// A format whose values are lists of messages. Each message has a text `message`.
pub trait MessageList {
    ghost use Rattle.std.specs.Prelude.{◌≡◌, ℕ, IfOk, List, Option, option_map};
    ghost use Rattle.serde_json.specs.Data.{Data};
    ghost use Rattle.serde_json.specs.View.{view};
    ghost use Rattle.miette_protocol.specs.rules.Reading.{Source};
    ghost use Rattle.miette_tree.specs.rules.Tree.{Tree};
    ghost use Rattle.miette_tree.specs.views.Report.{tree_of};
    ghost use Rattle.miette_read.specs.views.Values.{viewed};

    // Returns the messages of a value. Returns `None` if it isn't in this format.
    ghost listed: { Data → Option (List Data) };

    // The report of a message over the files that are found by their names.
    ghost tree: { (List ℕ → Option Source) → Data → Tree };

    /// The messages of a value; `None` where it isn't of the format.
    fn messages(value: &Value) -> Option<&[Value]>
        ensures { option_map (λ it. viewed it.now) result ≡ listed (view value.now) };

    /// Builds the report of a message, over files that are looked up by the names in it.
    ///
    /// # Errors
    /// `AllocError` if allocation fails.
    fn report<'f, D: Diagnostic, F: Files>(
        alloc: Global,
        files: &'f F,
        message: &Value,
    ) -> Result<Report<D, BorrowedFile<'f>>, AllocError>
        ensures { IfOk result (λ r. tree_of D.meaning ⟦<BorrowedFile<'f> as SourceCode>⟧.source r
            ≡ tree (F.found files.now) (view message.now)) };
}

/// Whether a message has its text.
fn has_message(message: &Value) -> bool
    ensures { result ≡ has_message (view message.now) }
{
    member_text(message, "message").is_some()
}

/// Returns whether each message has its text.
fn all_have_messages(messages: &[Value]) -> bool
    ensures { result ≡ list_all has_message (viewed messages.now) }
{
    messages.iter().all(|it| has_message(it))
}

/// Appends the reports of messages.
fn push_reports<'f, M: MessageList, D: Diagnostic, F: Files>(
    list: &mut Vec<Report<D, BorrowedFile<'f>>>,
    alloc: Global,
    files: &'f F,
    messages: &[Value],
) -> Result<(), AllocError>
    ensures { OnOk result (map (tree_of D.meaning ⟦<BorrowedFile<'f> as SourceCode>⟧.source) list.new.items
        ≡ map (tree_of D.meaning ⟦<BorrowedFile<'f> as SourceCode>⟧.source) list.old.items
        ++ map (M.tree (F.found files.now)) (viewed messages.now)) }
{
    for message in messages {
        let report = M::report::<D, F>(alloc, files, message)?;
        push_item(list, report)?;
    }
    Ok(())
}

/// The reports of a value that lists messages, in their order.
///
/// # Errors
/// `NoMessage` of a value that isn't of the format, or has a message without its text, and `Memory`.
pub fn list_reports<'f, M: MessageList, D: Diagnostic, F: Files>(
    alloc: Global,
    files: &'f F,
    value: &Value,
) -> Result<Vec<Report<D, BorrowedFile<'f>>>, ReadError>
    ensures ok { IfOk result (λ list. list_trees M.listed M.tree (F.found files.now) (view value.now)
        ≡ Some (map (tree_of D.meaning ⟦<BorrowedFile<'f> as SourceCode>⟧.source) list.items)) }
    ensures message { (result ≡ Err ReadError.NoMessage)
        → list_trees M.listed M.tree (F.found files.now) (view value.now) ≡ None }
{
    let messages = M::messages(value).ok_or(ReadError::NoMessage)?;
    if !all_have_messages(messages) {
        return Err(ReadError::NoMessage);
    }
    let mut list = Vec::new(alloc);
    push_reports::<M, D, F>(&mut list, alloc, files, messages)?;
    Ok(list)
}
