//! The handler that options and a terminal choose.

ghost use Rattle.std.specs.Prelude.{IfOk};
ghost use Rattle.miette.specs.rules.Choice.{IsChosen};
ghost use Rattle.miette.specs.rules.Options.{no_options};

use crate::handlers::{
    BriefReportHandler, GraphicalReportHandler, NarratableReportHandler, ReportHandler,
};
use crate::options::builder::MietteHandlerOpts;
use miette_highlight::highlight::Highlighter;
use miette_protocol::error::RenderError;
use miette_protocol::protocol::Diagnostic;
use miette_protocol::source::SourceCode;
use miette_style::theme::Terminal;
use miette_tree::report::Report;
use std::alloc::{AllocError, Global};

/// A graphical, narrated or brief handler. The type parameter is the highlighter. Users write `MietteHandler`.
#[derive(Drop)]
pub enum MietteHandler<H = Box<dyn Highlighter>> {
    /// Renders graphical reports.
    Graphical(GraphicalReportHandler<H>),
    /// Renders narrated reports.
    Narrated(NarratableReportHandler),
    /// Renders brief reports.
    Brief(BriefReportHandler),
}

impl MietteHandler {
    /// Creates the default handler for a terminal.
    ///
    /// # Errors
    /// `AllocError` if allocation for the theme fails.
    pub fn new(alloc: Global, terminal: &Terminal) -> Result<Self, AllocError>
        ensures { IfOk result (IsChosen no_options terminal.now) }
    {
        MietteHandlerOpts::new().build(alloc, terminal)
    }
}

impl<H: Highlighter> ReportHandler for MietteHandler<H> {
    ghost use Rattle.miette.specs.views.Handler.{HandlerAsks, HandlerGives, HandlerKeeps, HandlerRefuses};
    ghost use Rattle.miette_tree.specs.views.Handler.{AppendsOne};

    ghost gives = { HandlerGives H.is_blank };

    ghost refuses = { HandlerRefuses };

    ghost keeps = { HandlerKeeps H.is_blank };

    ghost asks = { λ old new t before after. AppendsOne (HandlerAsks H.is_blank H.may_follow old new t) before after };

    fn debug<D: Diagnostic, S: SourceCode>(
        &mut self,
        report: &Report<D, S>,
        out: &mut String,
    ) -> Result<(), RenderError> {
        match self {
            MietteHandler::Graphical(handler) => handler.debug(report, out),
            MietteHandler::Narrated(handler) => handler.debug(report, out),
            MietteHandler::Brief(handler) => handler.debug(report, out),
        }
    }
}
