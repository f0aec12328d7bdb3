//! The handler that a form, options and a terminal choose.

ghost use Rattle.std.specs.Prelude.{IfOk};
ghost use Rattle.miette.specs.views.FormHandler.{IsChosenInForm};

use crate::handlers::{JSONReportHandler, ReportHandler};
use crate::options::{MietteHandler, MietteHandlerOpts};
use crate::reporter::form::Form;
use miette_highlight::highlight::{BlankHighlighter, Highlighter};
use miette_protocol::error::RenderError;
use miette_protocol::protocol::Diagnostic;
use miette_protocol::source::SourceCode;
use miette_style::theme::Terminal;
use miette_tree::report::Report;
use std::alloc::{AllocError, Global};

/// The handler of a form. The type parameter is the highlighter.
#[derive(Drop)]
pub enum FormHandler<H = BlankHighlighter> {
    /// The handler that options and terminal choose.
    Chosen(MietteHandler<H>),
    /// The JSON handler.
    Json(JSONReportHandler),
}

impl<H: Highlighter> FormHandler<H> {
    /// Builds the handler of this form. A brief or narrated form takes precedence over the options, and JSON ignores
    /// them.
    ///
    /// # Errors
    /// `AllocError` if allocation for the theme fails.
    pub fn build(
        alloc: Global,
        form: Form,
        options: MietteHandlerOpts<H>,
        terminal: &Terminal,
    ) -> Result<Self, AllocError>
        ensures { IfOk result (IsChosenInForm form options terminal.now) }
    {
        match form {
            Form::Pictures => Ok(FormHandler::Chosen(options.build(alloc, terminal)?)),
            Form::Narrated => {
                let options = options.force_brief(false).force_narrated(true);
                Ok(FormHandler::Chosen(options.build(alloc, terminal)?))
            }
            Form::Brief => {
                let options = options.force_brief(true);
                Ok(FormHandler::Chosen(options.build(alloc, terminal)?))
            }
            Form::JsonArray | Form::JsonRows => Ok(FormHandler::Json(JSONReportHandler::new())),
        }
    }
}

impl<H: Highlighter> ReportHandler for FormHandler<H> {
    ghost use Rattle.miette.specs.views.FormHandler.{AsksInForm, GivesInForm, KeepsInForm, RefusesInForm};
    ghost use Rattle.miette_tree.specs.views.Handler.{AppendsOne};

    ghost gives = { GivesInForm H.is_blank };

    ghost refuses = { RefusesInForm };

    ghost keeps = { KeepsInForm H.is_blank };

    ghost asks = { λ old new t before after. AppendsOne (AsksInForm H.is_blank H.may_follow old new t) before after };

    fn debug<D: Diagnostic, S: SourceCode>(
        &mut self,
        report: &Report<D, S>,
        out: &mut String,
    ) -> Result<(), RenderError> {
        match self {
            FormHandler::Chosen(handler) => handler.debug(report, out),
            FormHandler::Json(handler) => handler.debug(report, out),
        }
    }
}
