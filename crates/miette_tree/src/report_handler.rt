//! The trait of all handlers.

ghost use Rattle.std.specs.Prelude.{◌≡◌, ◌++◌, List, ℕ, IfOk, OnOk, OnErr, string_bytes};
ghost use Rattle.miette_tree.specs.rules.Tree.{Tree};
ghost use Rattle.miette_tree.specs.views.Report.{tree_of};
ghost use Rattle.miette_tree.specs.rules.Display.{display_text};
ghost use Rattle.miette_tree.specs.views.Handler.{AppendsOne};

use crate::report::Report;
use miette_protocol::error::RenderError;
use miette_protocol::protocol::Diagnostic;
use miette_protocol::source::SourceCode;
use std::alloc::{AllocError, Global};

/// A handler renders a report in its own format.
pub trait ReportHandler {
    /// The texts that the handler may produce for a report. There is exactly one, unless a source can fail to read or a
    /// highlighter isn't blank.
    ghost gives: { Self → Tree → List ℕ → Type 0 };

    /// The reports for which the handler may return `Refused`.
    ghost refuses: { Self → Tree → Type 0 };

    /// What a call leaves unchanged in the handler: everything, unless the handler has state.
    ghost keeps: { Self → Self → Type 0 } = { λ old new. new ≡ old };

    /// How a call that appends a text changes the handler's highlighter, given the handler before and after, the
    /// report, and the text before and after.
    ghost asks: { Self → Self → Tree → List ℕ → List ℕ → Type 0 } = { λ _ _ _ _ _. Unit {0} };

    /// Appends the report's text. The handler's settings do not change.
    ///
    /// # Errors
    /// `Memory` if allocation fails. `Refused` if a source failed to read and the format has no text for that; the JSON
    /// and debug handlers never return it. `out` is then unchanged.
    fn debug<D: Diagnostic, S: SourceCode>(
        &mut self,
        report: &Report<D, S>,
        out: &mut String,
    ) -> Result<(), RenderError>
        ensures text { OnOk result (AppendsOne (gives self.old (tree_of D.meaning S.source report.now))
            (string_bytes out.old) (string_bytes out.new)) }
        ensures asks { OnOk result (asks self.old self.new (tree_of D.meaning S.source report.now)
            (string_bytes out.old) (string_bytes out.new)) }
        ensures refused { (result ≡ Err RenderError.Refused) →
            refuses self.old (tree_of D.meaning S.source report.now) }
        ensures err { OnErr result (string_bytes out.new ≡ string_bytes out.old) }
        ensures settings { keeps self.old self.new };

    /// Appends the message, or the chain of messages joined by `: ` if `alternate`. The only error is `Memory`; `out`
    /// is then unchanged.
    fn display<D: Diagnostic, S: SourceCode>(
        &self,
        report: &Report<D, S>,
        alternate: bool,
        out: &mut String,
    ) -> Result<(), RenderError>
        ensures text { OnOk result (string_bytes out.new ≡ string_bytes out.old
            ++ display_text alternate (tree_of D.meaning S.source report.now)) }
        ensures memory { OnErr result (result ≡ Err RenderError.Memory) }
        ensures err { OnErr result (string_bytes out.new ≡ string_bytes out.old) }
    {
        push_display(out, report, alternate)
    }
}

/// Appends the message, or the chain joined by `: ` if `alternate`.
fn push_display<D: Diagnostic, S: SourceCode>(
    out: &mut String,
    report: &Report<D, S>,
    alternate: bool,
) -> Result<(), RenderError>
    ensures text { OnOk result (string_bytes out.new
        ≡ string_bytes out.old ++ display_text alternate (tree_of D.meaning S.source report.now)) }
    ensures memory { OnErr result (result ≡ Err RenderError.Memory) }
    ensures err { OnErr result (string_bytes out.new ≡ string_bytes out.old) }
{
    match display_string(*out.allocator(), report, alternate) {
        Ok(text) => append_all_or_nothing(out, text.as_str()),
        Err(AllocError) => Err(RenderError::Memory),
    }
}

/// Returns the message, or the chain joined by `: ` if `alternate`.
fn display_string<D: Diagnostic, S: SourceCode>(
    alloc: Global,
    report: &Report<D, S>,
    alternate: bool,
) -> Result<String, AllocError>
    ensures { IfOk result (λ text. string_bytes text ≡ display_text alternate (tree_of D.meaning S.source report.now)) }
{
    if alternate {
        format!(in alloc; "{report:?}")
    } else {
        String::from_str(alloc, report.message())
    }
}

/// Appends a text. If allocation fails, returns `Memory` and leaves `out` unchanged.
pub fn append_all_or_nothing(out: &mut String, text: &str) -> Result<(), RenderError>
    ensures ok { OnOk result (string_bytes out.new ≡ string_bytes out.old ++ text.now) }
    ensures memory { OnErr result (result ≡ Err RenderError.Memory) }
    ensures err { OnErr result (string_bytes out.new ≡ string_bytes out.old) }
{
    match out.push_str(text) {
        Ok(()) => Ok(()),
        Err(AllocError) => Err(RenderError::Memory),
    }
}
