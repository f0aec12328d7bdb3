//! Handlers that return the whole text of a report.

ghost use Rattle.std.specs.Prelude.{◌≡◌, List, ℕ, IfOk, OnOk, OnErr, string_bytes};
ghost use Rattle.miette_tree.specs.rules.Tree.{Tree};
ghost use Rattle.miette_tree.specs.views.Report.{tree_of};
ghost use Rattle.miette_tree.specs.views.Handler.{AppendsOne};

use crate::report::Report;
use crate::report_handler::{ReportHandler, append_all_or_nothing};
use miette_protocol::error::RenderError;
use miette_protocol::protocol::Diagnostic;
use miette_protocol::source::SourceCode;
use std::alloc::Global;

/// A handler without state that returns the whole text of a report. It implements `ReportHandler`.
pub trait TextHandler {
    /// The texts that the handler may produce for a report. There is exactly one, unless a source can fail to read.
    ghost texts: { Self → Tree → List ℕ → Type 0 };

    /// The reports for which the handler may return `Refused`.
    ghost refusals: { Self → Tree → Type 0 };

    /// Renders a report.
    ///
    /// # Errors
    /// `Memory` if allocation fails. `Refused` if a source failed to read and the format has no text for that.
    fn text_of<D: Diagnostic, S: SourceCode>(
        &self,
        alloc: Global,
        report: &Report<D, S>,
    ) -> Result<String, RenderError>
        ensures text { IfOk result (λ text. texts self.now (tree_of D.meaning S.source report.now)
            (string_bytes text)) }
        ensures refused { (result ≡ Err RenderError.Refused) →
            refusals self.now (tree_of D.meaning S.source report.now) };
}

impl<H: TextHandler> ReportHandler for H {
    ghost gives = { H.texts };

    ghost refuses = { H.refusals };

    fn debug<D: Diagnostic, S: SourceCode>(
        &mut self,
        report: &Report<D, S>,
        out: &mut String,
    ) -> Result<(), RenderError> {
        append_report_text(out, self, report)
    }
}

/// Appends the text that a handler renders for a report.
///
/// # Errors
/// Those of `text_of`, and `Memory` if allocation fails. `out` is then unchanged.
pub fn append_report_text<H: TextHandler, D: Diagnostic, S: SourceCode>(
    out: &mut String,
    handler: &H,
    report: &Report<D, S>,
) -> Result<(), RenderError>
    ensures text { OnOk result (AppendsOne (H.texts handler.now (tree_of D.meaning S.source report.now))
        (string_bytes out.old) (string_bytes out.new)) }
    ensures refused { (result ≡ Err RenderError.Refused) →
        H.refusals handler.now (tree_of D.meaning S.source report.now) }
    ensures err { OnErr result (string_bytes out.new ≡ string_bytes out.old) }
{
    let text = handler.text_of(*out.allocator(), report)?;
    if out.is_empty() {
        *out = text;
        return Ok(());
    }
    append_all_or_nothing(out, text.as_str())
}
