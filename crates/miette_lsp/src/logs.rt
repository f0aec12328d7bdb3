//! One log of all reports: its arguments and its text.

ghost use Rattle.std.specs.Prelude.{◌≡◌, IfOk, OnErr, map, string_bytes};
ghost use Rattle.miette_lsp.specs.rules.LspText.{lsp_text};
ghost use Rattle.miette_sarif.specs.rules.LogText.{log_text};
ghost use Rattle.miette_tree.specs.rules.Reads.{AllAlwaysRead};
ghost use Rattle.miette_tree.specs.rules.Tree.{trees};
ghost use Rattle.miette_tree.specs.views.Report.{tree_of};
ghost use Rattle.miette_lsp.specs.rules.LogWords.{log_form, logged_text, logging_of, of_tool, tool_called};

use crate::handler::LspReportHandler;
use miette_devices::fault::ProgramError;
use miette_devices::output_form::OutputForm;
use miette_protocol::protocol::Diagnostic;
use miette_protocol::source::SourceCode;
use miette_sarif::handler::SarifReportHandler;
use miette_tree::report::Report;
use std::alloc::Global;
use std::marker::Model;

/// The format of a log.
#[derive(Clone, Copy)]
pub enum LogForm {
    /// A SARIF log.
    Sarif,
    /// A list of documents with their diagnostics, for editors.
    Lsp,
}

/// The log that the arguments ask for.
#[derive(Drop)]
pub struct LogOptions<'w> {
    /// Its format.
    pub form: LogForm,
    /// The name of the tool in the log.
    pub tool: &'w str,
}

impl<'w> Model for LogOptions<'w> {
    ghost use Rattle.miette_lsp.specs.rules.LogWords as words;

    ghost Value = { words.LogRequest };

    ghost view = { λ it. record { form = it.form; tool = it.tool.now } };
}

/// Returns the log format of an output form. Returns `None` if it isn't a log.
fn log_form(form: OutputForm) -> Option<LogForm>
    ensures { result ≡ log_form form }
{
    match form {
        OutputForm::Sarif => Some(LogForm::Sarif),
        OutputForm::Lsp => Some(LogForm::Lsp),
        _ => None,
    }
}

/// Renders a SARIF log of reports whose sources always read. The log names this tool.
pub fn log_of<D: Diagnostic, S: SourceCode>(
    alloc: Global,
    tool: &str,
    reports: &[Report<D, S>],
) -> Result<String, ProgramError>
    requires reads { AllAlwaysRead (trees (map (tree_of D.meaning S.source) reports.now)) }
    ensures ok { IfOk result (λ text. string_bytes text
        ≡ log_text (tool_called tool.now) (trees (map (tree_of D.meaning S.source) reports.now))) }
    ensures others { OnErr result (result ≡ Err ProgramError.Memory) }
{
    let handler = SarifReportHandler::new(alloc, tool)?;
    let mut text = String::new(alloc);
    match handler.render_reports(reports, &mut text) {
        Ok(()) => Ok(text),
        Err(_) => Err(ProgramError::Memory),
    }
}

/// Renders the diagnostics of reports whose sources always read, for editors. They name this tool.
fn list_of<D: Diagnostic, S: SourceCode>(
    alloc: Global,
    tool: &str,
    reports: &[Report<D, S>],
) -> Result<String, ProgramError>
    requires reads { AllAlwaysRead (trees (map (tree_of D.meaning S.source) reports.now)) }
    ensures ok { IfOk result (λ text. string_bytes text
        ≡ lsp_text tool.now (trees (map (tree_of D.meaning S.source) reports.now))) }
    ensures others { OnErr result (result ≡ Err ProgramError.Memory) }
{
    let handler = LspReportHandler::new(alloc, tool)?;
    let mut text = String::new(alloc);
    match handler.render_reports(reports, &mut text) {
        Ok(()) => Ok(text),
        Err(_) => Err(ProgramError::Memory),
    }
}

impl<'w> LogOptions<'w> {
    /// Returns the log that an argument asks for. It names this tool.
    #[tactic(auto, unfolding(crate::specs::rules::LogWords::of_tool))]
    fn of_tool(word: &str, tool: &'w str) -> Option<LogOptions<'w>>
        ensures { result ≡ of_tool word.now tool.now }
    {
        Some(LogOptions {
            form: log_form(OutputForm::named(word)?)?,
            tool,
        })
    }

    /// Returns the log that the arguments after the program's name ask for: `--sarif` or `--lsp`, with the program as
    /// its tool, or the tool after `--tool`, before or after that argument. Returns `None` for any other arguments.
    pub fn asked(words: &'w [String], program: &'w str) -> Option<LogOptions<'w>>
        ensures { result ≡ logging_of program.now (map string_bytes words.now) }
    {
        match words {
            [word] => LogOptions::of_tool(word.as_str(), program),
            [key, tool, word] if key.as_str() == "--tool" => {
                LogOptions::of_tool(word.as_str(), tool.as_str())
            }
            [word, key, tool] if key.as_str() == "--tool" => {
                LogOptions::of_tool(word.as_str(), tool.as_str())
            }
            _ => None,
        }
    }

    /// Renders the log of reports whose sources always read.
    ///
    /// # Errors
    /// `Memory` if allocation fails.
    pub fn text<D: Diagnostic, S: SourceCode>(
        self,
        alloc: Global,
        reports: &[Report<D, S>],
    ) -> Result<String, ProgramError>
        requires reads { AllAlwaysRead (trees (map (tree_of D.meaning S.source) reports.now)) }
        ensures ok { IfOk result (λ text. string_bytes text
            ≡ logged_text self.entry (trees (map (tree_of D.meaning S.source) reports.now))) }
        ensures others { OnErr result (result ≡ Err ProgramError.Memory) }
    {
        match self.form {
            LogForm::Sarif => log_of(alloc, self.tool, reports),
            LogForm::Lsp => list_of(alloc, self.tool, reports),
        }
    }
}
