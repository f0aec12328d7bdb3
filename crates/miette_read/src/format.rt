//! Formats in which tools write messages: what makes reports of a value of each.

ghost use Rattle.std.specs.Prelude.{◌≡◌, Err, IfOk, None, Some, map, true};
ghost use Rattle.std.specs.List.{All};
ghost use Rattle.serde_json.specs.View.{view};
ghost use Rattle.miette_tree.specs.rules.Reads.{AlwaysReads, report_in_bounds};
ghost use Rattle.miette_tree.specs.views.Report.{tree_of};

use crate::files::{BorrowedFile, Files};
use crate::rustc::ReadError;
use miette_protocol::protocol::Diagnostic;
use miette_protocol::source::SourceCode;
use miette_tree::report::Report;
use serde_json::Value;
use std::alloc::Global;

/// A format in which a tool writes messages, as JSON values. It has no values of its own: its functions are called by
/// its name, as `Rustc::reports(..)`.
pub trait MessageFormat {
    ghost use Rattle.std.specs.Prelude.{◌≡◌, ℕ, Bool, Err, IfOk, List, None, Option, Some, map};
    ghost use Rattle.serde_json.specs.Data.{Data};
    ghost use Rattle.serde_json.specs.View.{view};
    ghost use Rattle.miette_protocol.specs.rules.Reading.{Source};
    ghost use Rattle.miette_tree.specs.rules.Tree.{Tree};
    ghost use Rattle.miette_tree.specs.views.Report.{tree_of};
    ghost use Rattle.miette_read.specs.laws.Reading.{LabelsAreAccepted, ReportsAlwaysRead};

    // Whether a value looks like one of the format.
    ghost looks: { Data → Bool };

    // The reports of a value, over files that are looked up by name. None if the value isn't in this format.
    ghost trees: { (List ℕ → Option Source) → Data → Option (List Tree) };

    /// Whether a value looks like one of the format. Callers ask it where nobody has named the format.
    fn looks_like(value: &Value) -> bool
        ensures { result ≡ looks (view value.now) };

    /// The reports of a value, one of each message, over files that are looked up by the names in the value.
    ///
    /// # Errors
    /// `NoMessage` of a value that isn't of the format, and `Memory`.
    fn reports<'f, D: Diagnostic, F: Files>(
        alloc: Global,
        files: &'f F,
        value: &Value,
    ) -> Result<Vec<Report<D, BorrowedFile<'f>>>, ReadError>
        ensures ok { IfOk result (λ list. trees (F.found files.now) (view value.now)
            ≡ Some (map (tree_of D.meaning ⟦<BorrowedFile<'f> as SourceCode>⟧.source) list.items)) }
        ensures message { (result ≡ Err ReadError.NoMessage) → trees (F.found files.now) (view value.now) ≡ None };

    /// The sources of the reports always read, where the files that are found do.
    fn reports_always_read()
        ensures { ReportsAlwaysRead trees };

    /// If the found files always read, all labels of the reports are in bounds. So narrated and brief reports are never
    /// refused.
    fn labels_are_accepted()
        ensures { LabelsAreAccepted trees };
}

/// The reports of a value in a format. Their sources always read, and accept their labels.
///
/// # Errors
/// `NoMessage` of a value that isn't of the format, and `Memory`.
pub fn reports_in<'f, M: MessageFormat, D: Diagnostic, F: Files>(
    alloc: Global,
    files: &'f F,
    value: &Value,
) -> Result<Vec<Report<D, BorrowedFile<'f>>>, ReadError>
    ensures ok { IfOk result (λ list. M.trees (F.found files.now) (view value.now)
        ≡ Some (map (tree_of D.meaning ⟦<BorrowedFile<'f> as SourceCode>⟧.source) list.items)) }
    ensures reads { IfOk result (λ list. All AlwaysReads
        (map (tree_of D.meaning ⟦<BorrowedFile<'f> as SourceCode>⟧.source) list.items)) }
    ensures accepted { IfOk result (λ list. All (λ t. report_in_bounds t ≡ true)
        (map (tree_of D.meaning ⟦<BorrowedFile<'f> as SourceCode>⟧.source) list.items)) }
    ensures message { (result ≡ Err ReadError.NoMessage) → M.trees (F.found files.now) (view value.now) ≡ None }
{
    M::reports_always_read();
    M::labels_are_accepted();
    M::reports::<D, F>(alloc, files, value)
}
