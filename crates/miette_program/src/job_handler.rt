//! The handler that the arguments choose.

ghost use Rattle.std.specs.Prelude.{◌≡◌, ◌⊎◌, IfOk, OnErr, OnOk, string_bytes};
ghost use Rattle.miette_tree.specs.views.Report.{tree_of};
ghost use Rattle.miette_tree.specs.rules.Reads.{AlwaysReads};
ghost use Rattle.miette_program.specs.rules.JobText.{IsAsked, IsGiven, IsLed, JobMayRefuse, JobHandlerStays};

use crate::arguments::{Arguments, Choice};
use crate::language::LanguageHighlighter;
use miette::error::RenderError;
use miette::handlers::{DebugReportHandler, JSONReportHandler, ReportHandler};
use miette::highlight::Highlighter;
use miette::options::MietteHandler;
use miette::protocol::Diagnostic;
use miette::report::Report;
use miette::source::SourceCode;
use miette_devices::fault::ProgramError;
use miette_tree::text_handler::append_report_text;
use std::alloc::{AllocError, Global};

/// The handler of a job.
#[derive(Drop)]
pub enum JobHandler<H> {
    /// Reports are JSON.
    Json,
    /// Reports are debug texts.
    Debug,
    /// Reports are graphical, narrated or brief, by the options and the terminal.
    Built(MietteHandler<H>),
}

impl JobHandler<LanguageHighlighter> {
    /// Builds the handler that the settings choose.
    ///
    /// # Errors
    /// `AllocError` if allocation for the theme fails.
    pub fn new(alloc: Global, settings: Arguments) -> Result<Self, AllocError>
        ensures { IfOk result (IsAsked settings.choice settings.options settings.terminal) }
    {
        let Arguments {
            choice,
            options,
            terminal,
        } = settings;
        match choice {
            Choice::Build => Ok(JobHandler::Built(options.build(alloc, &terminal)?)),
            Choice::Json => Ok(JobHandler::Json),
            Choice::Debug => Ok(JobHandler::Debug),
        }
    }
}

/// Converts the result of rendering.
fn text_or_fault(rendered: Result<(), RenderError>, text: String) -> Result<String, ProgramError>
    ensures ok { IfOk result (λ it. (it ≡ text) × OnErr rendered ⊥) }
    ensures refused { (result ≡ Err ProgramError.Refused) → rendered ≡ Err RenderError.Refused }
    ensures others { OnErr result ((result ≡ Err ProgramError.Refused) ⊎ (result ≡ Err ProgramError.Memory)) }
{
    match rendered {
        Ok(()) => Ok(text),
        Err(RenderError::Memory) => Err(ProgramError::Memory),
        Err(RenderError::Refused) => Err(ProgramError::Refused),
    }
}

impl<H: Highlighter> JobHandler<H> {
    /// Renders a report whose sources always read.
    ///
    /// # Errors
    /// `Refused` only for a narrated or brief report with a label out of bounds. `Memory` if allocation fails.
    pub fn render<D: Diagnostic, S: SourceCode>(
        &mut self,
        alloc: Global,
        report: &Report<D, S>,
    ) -> Result<String, ProgramError>
        requires reads { AlwaysReads (tree_of D.meaning S.source report.now) }
        ensures ok { IfOk result (λ text. IsGiven H.is_blank H.may_follow self.old
            (tree_of D.meaning S.source report.now) (string_bytes text)) }
        ensures refused { (result ≡ Err ProgramError.Refused) →
            JobMayRefuse self.old (tree_of D.meaning S.source report.now) }
        ensures others { OnErr result ((result ≡ Err ProgramError.Refused) ⊎ (result ≡ Err ProgramError.Memory)) }
        ensures stays { JobHandlerStays H.is_blank self.old self.new }
        // After a text was rendered, the calls of this handler led to its highlighter's state.
        ensures led { OnOk result (IsLed H.may_follow self.old self.new) }
    {
        let mut text = String::new(alloc);
        let rendered = match self {
            JobHandler::Json => append_report_text(&mut text, &JSONReportHandler::new(), report),
            JobHandler::Debug => append_report_text(&mut text, &DebugReportHandler::new(), report),
            JobHandler::Built(MietteHandler::Graphical(handler)) => {
                handler.debug(report, &mut text)
            }
            JobHandler::Built(MietteHandler::Narrated(handler)) => {
                handler.render(report, &mut text)
            }
            JobHandler::Built(MietteHandler::Brief(handler)) => handler.render(report, &mut text),
        };
        text_or_fault(rendered, text)
    }
}
