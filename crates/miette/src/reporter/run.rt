//! The reporter: prints the reports of a session, counts them, and returns the exit code.

ghost use Rattle.std.specs.Prelude.{◌≡◌, ◌⊎◌, ◌||◌, Some, None, true, IfOk, OnOk, OnErr, is_ok, is_some};
ghost use Rattle.std.specs.Prelude.{string_bytes};
ghost use Rattle.std.specs.Io.KnownBytes.{Appends};
ghost use Rattle.std.specs.Option.{option_or};
ghost use Rattle.std.specs.Process.{exit_status};
ghost use Rattle.std.specs.Result.{result_err};
ghost use Rattle.miette_tree.specs.rules.Tree.{head};
ghost use Rattle.miette_tree.specs.views.Report.{tree_of};
ghost use Rattle.miette.specs.declared.print.PrintError.TheVariants.{Memory, Refused, Write};
ghost use Rattle.miette.specs.rules.Counting.{with_one};
ghost use Rattle.miette.specs.rules.Forms.{IsNext, IsNextBy, ending};
ghost use Rattle.miette.specs.rules.Printing.{WritesOne, unprinted_row};
ghost use Rattle.miette.specs.rules.Reported.{IsReported, behaving};
ghost use Rattle.miette.specs.rules.ReporterRun.{EndsBy, new_run, run_status};

use crate::handlers::ReportHandler;
use crate::print::{Outputs, PrintError, explain_failure};
use crate::reporter::counts::Counts;
use crate::reporter::form::Form;
use crate::reporter::handler::FormHandler;
use miette_protocol::protocol::Diagnostic;
use miette_protocol::source::SourceCode;
use miette_tree::report::Report;
use std::alloc::{AllocError, Global};
use std::io;
use std::io::Write;
use std::marker::Model;
use std::process::ExitCode;
use std::rt::{Stderr, Stdout};

/// Prints the reports of a session one after another, counts them, and returns the program's exit code.
///
/// The type parameters are the handler, the writer of the reports, and the writer of failures.
#[derive(Drop)]
pub struct Reporter<T = FormHandler, W = Stdout, F = Stderr> {
    alloc: Global,
    handler: T,
    outputs: Outputs<W, F>,
    form: Form,
    counts: Counts,
    is_begun: bool,
    is_summed: bool,
    failure: Option<PrintError>,
}

impl<T, W, F> Model for Reporter<T, W, F> {
    ghost use Rattle.miette.specs.rules.ReporterRun.{ReporterRun};

    ghost Value = { ReporterRun T W F };

    ghost view = { λ it. record {
      handler = it.handler;
      outputs = it.outputs;
      form = it.form;
      counts = it.counts;
      is_begun = it.is_begun;
      is_summed = it.is_summed;
      failure = it.failure;
    } };
}

impl<T, W, F> Reporter<T, W, F> {
    /// Creates a reporter with this handler and form. Nothing has been reported yet.
    pub fn with_handler(alloc: Global, handler: T, form: Form, outputs: Outputs<W, F>) -> Self
        ensures { result ≡ new_run handler outputs form }
    {
        Reporter {
            alloc,
            handler,
            outputs,
            form,
            counts: Counts::zero(),
            is_begun: false,
            is_summed: false,
            failure: None,
        }
    }

    /// Ends the session with a line of counts, such as `2 errors, 1 warning`. JSON forms have none.
    pub fn with_summary(mut self) -> Self
        ensures { result ≡ record self { is_summed = true } }
    {
        self.is_summed = true;
        self
    }

    /// Number of error reports, at most `usize::MAX`. Reports without a severity are errors.
    pub fn errors(&self) -> usize
        ensures { result ≡ self.now.counts.errors }
    {
        self.counts.errors
    }

    /// Number of warnings.
    pub fn warnings(&self) -> usize
        ensures { result ≡ self.now.counts.warnings }
    {
        self.counts.warnings
    }

    /// Number of advice reports.
    pub fn advices(&self) -> usize
        ensures { result ≡ self.now.counts.advices }
    {
        self.counts.advices
    }

    /// Why the last failed report wasn't written, if one failed. After `Write` nothing more is written.
    pub fn failure(&self) -> Option<PrintError>
        ensures { result ≡ self.now.failure }
    {
        self.failure
    }
}

impl<T: ReportHandler, W: Write, F: Write> Reporter<T, W, F> {
    /// Writes one report, with the separator of the form, and counts it by severity. It is counted even if it isn't
    /// written.
    ///
    /// # Errors
    /// `Memory` if allocation fails, and `Refused` as described for the handler. In both cases nothing was written, and
    /// later reports still are. `Write` if the writer failed; it may have taken a beginning of the text, and all later
    /// calls return `Write` too.
    pub fn report<D: Diagnostic, S: SourceCode>(
        &mut self,
        report: &Report<D, S>,
    ) -> Result<(), PrintError>
        ensures written { OnOk result (WritesOne (IsNext self.old.form self.old.is_begun
            (T.gives self.old.handler (tree_of D.meaning S.source report.now)))
            (W.contents self.old.outputs.writer) (W.contents self.new.outputs.writer)) }
        ensures asks { OnOk result (WritesOne (IsNextBy self.old.form self.old.is_begun
            (T.asks self.old.handler self.new.handler (tree_of D.meaning S.source report.now)))
            (W.contents self.old.outputs.writer) (W.contents self.new.outputs.writer)) }
        ensures unwritten { OnErr result ((result ≡ Err Write) ⊎ (self.new.outputs ≡ self.old.outputs)) }
        ensures stopped { (self.old.failure ≡ Some Write) →
            (result ≡ Err Write) × (self.new.outputs ≡ self.old.outputs) }
        ensures silent { self.new.outputs.faults ≡ self.old.outputs.faults }
        ensures refused { (result ≡ Err Refused) →
            T.refuses self.old.handler (tree_of D.meaning S.source report.now) }
        ensures settings { (self.new.handler ≡ self.old.handler) ⊎ T.keeps self.old.handler self.new.handler }
        ensures state { self.new ≡ record self.old {
          handler = self.new.handler;
          outputs = self.new.outputs;
          counts = with_one self.old.counts (head (tree_of D.meaning S.source report.now)).severity;
          is_begun = is_ok result || self.old.is_begun;
          failure = option_or (result_err result) self.old.failure;
        } }
        // all of these as one relation, which `report_each` uses
        ensures reported { IsReported (behaving T.gives T.asks T.refuses T.keeps W.contents) result self.old
            (tree_of D.meaning S.source report.now) self.new }
    {
        self.counts = self.counts.with_one(report.severity());
        match self.write_next(report) {
            Ok(()) => {
                self.is_begun = true;
                Ok(())
            }
            Err(why) => {
                self.failure = Some(why);
                Err(why)
            }
        }
    }

    // Writes the next report.
    fn write_next<D: Diagnostic, S: SourceCode>(
        &mut self,
        report: &Report<D, S>,
    ) -> Result<(), PrintError>
        ensures written { OnOk result (WritesOne (IsNext self.old.form self.old.is_begun
            (T.gives self.old.handler (tree_of D.meaning S.source report.now)))
            (W.contents self.old.outputs.writer) (W.contents self.new.outputs.writer)) }
        ensures asks { OnOk result (WritesOne (IsNextBy self.old.form self.old.is_begun
            (T.asks self.old.handler self.new.handler (tree_of D.meaning S.source report.now)))
            (W.contents self.old.outputs.writer) (W.contents self.new.outputs.writer)) }
        ensures unwritten { OnErr result ((result ≡ Err Write) ⊎ (self.new.outputs ≡ self.old.outputs)) }
        ensures stopped { (self.old.failure ≡ Some Write) →
            (result ≡ Err Write) × (self.new.outputs ≡ self.old.outputs) }
        ensures silent { self.new.outputs.faults ≡ self.old.outputs.faults }
        ensures refused { (result ≡ Err Refused) →
            T.refuses self.old.handler (tree_of D.meaning S.source report.now) }
        ensures settings { (self.new.handler ≡ self.old.handler) ⊎ T.keeps self.old.handler self.new.handler }
        ensures state { self.new ≡ record self.old { handler = self.new.handler; outputs = self.new.outputs } }
    {
        if let Some(PrintError::Write) = self.failure {
            return Err(PrintError::Write);
        }
        let text = self.next_text(report)?;
        self.put(text.as_str())
    }

    // The text of the next report, with its separator.
    fn next_text<D: Diagnostic, S: SourceCode>(
        &mut self,
        report: &Report<D, S>,
    ) -> Result<String, PrintError>
        ensures text { IfOk result (λ text. IsNext self.old.form self.old.is_begun
            (T.gives self.old.handler (tree_of D.meaning S.source report.now)) (string_bytes text)) }
        ensures asks { IfOk result (λ text. IsNextBy self.old.form self.old.is_begun
            (T.asks self.old.handler self.new.handler (tree_of D.meaning S.source report.now)) (string_bytes text)) }
        ensures write { (result ≡ Err Write) → ⊥ }
        ensures refused { (result ≡ Err Refused) →
            T.refuses self.old.handler (tree_of D.meaning S.source report.now) }
        ensures settings { (self.new.handler ≡ self.old.handler) ⊎ T.keeps self.old.handler self.new.handler }
        ensures state { self.new ≡ record self.old { handler = self.new.handler } }
    {
        let mut text = String::from_str(self.alloc, self.form.front(self.is_begun))?;
        self.handler.debug(report, &mut text)?;
        text.push_str(self.form.after_it())?;
        Ok(text)
    }

    // Writes a text.
    fn put(&mut self, text: &str) -> Result<(), PrintError>
        ensures ok { OnOk result (Appends (W.contents self.old.outputs.writer)
            (W.contents self.new.outputs.writer) text.now) }
        ensures err { OnErr result (result ≡ Err Write) }
        ensures silent { self.new.outputs.faults ≡ self.old.outputs.faults }
        ensures state { self.new ≡ record self.old { outputs = self.new.outputs } }
    {
        match self.outputs.writer.write_all(text.as_bytes()) {
            Ok(()) => Ok(()),
            Err(_) => Err(PrintError::Write),
        }
    }

    /// Ends the session: writes the end of the array or the summary, if the form has one. The exit code is 0 if there
    /// was no error report and all was written, else 1. If a report or the end wasn't written, the reason is printed to
    /// `faults` as by `print_with_outputs`. Call it once.
    pub fn finish(&mut self) -> ExitCode
        ensures ended { EndsBy self.new.failure (Appends (W.contents self.old.outputs.writer)
            (W.contents self.new.outputs.writer)
            (ending self.old.form self.old.is_begun self.old.is_summed self.old.counts))
            (self.new.outputs.writer ≡ self.old.outputs.writer) }
        ensures silent { (self.new.failure ≡ None) → self.new.outputs.faults ≡ self.old.outputs.faults }
        ensures stopped { (self.old.failure ≡ Some Write) →
            self.new.outputs.writer ≡ self.old.outputs.writer }
        ensures kept { (self.new.failure ≡ None) → (self.old.failure ≡ None) }
        ensures counts { self.new.counts ≡ self.old.counts }
        ensures status { exit_status result ≡ run_status self.new.counts self.new.failure }
    {
        match self.try_finish() {
            Ok(status) => status,
            Err(_) => ExitCode::FAILURE,
        }
    }

    /// Like `finish`.
    ///
    /// # Errors
    /// The error of `faults`, if it didn't take that line.
    pub fn try_finish(&mut self) -> io::Result<ExitCode>
        ensures ended { EndsBy self.new.failure (Appends (W.contents self.old.outputs.writer)
            (W.contents self.new.outputs.writer)
            (ending self.old.form self.old.is_begun self.old.is_summed self.old.counts))
            (self.new.outputs.writer ≡ self.old.outputs.writer) }
        ensures silent { (self.new.failure ≡ None) → self.new.outputs.faults ≡ self.old.outputs.faults }
        ensures told { IfOk result (λ _. (why : PrintError) → (self.new.failure ≡ Some why) →
            Appends (F.contents self.old.outputs.faults) (F.contents self.new.outputs.faults) (unprinted_row why)) }
        ensures stopped { (self.old.failure ≡ Some Write) →
            self.new.outputs.writer ≡ self.old.outputs.writer }
        ensures kept { (self.new.failure ≡ None) → (self.old.failure ≡ None) }
        ensures counts { self.new.counts ≡ self.old.counts }
        ensures status { IfOk result (λ code. exit_status code ≡ run_status self.new.counts self.new.failure) }
        ensures failed { OnErr result (is_some self.new.failure ≡ true) }
    {
        self.end();
        self.tell_failure()?;
        Ok(self.status())
    }

    // Writes the end, and stores the reason if that fails.
    fn end(&mut self)
        ensures ended { EndsBy self.new.failure (Appends (W.contents self.old.outputs.writer)
            (W.contents self.new.outputs.writer)
            (ending self.old.form self.old.is_begun self.old.is_summed self.old.counts))
            (self.new.outputs.writer ≡ self.old.outputs.writer) }
        ensures silent { self.new.outputs.faults ≡ self.old.outputs.faults }
        ensures stopped { (self.old.failure ≡ Some Write) → self.new.outputs ≡ self.old.outputs }
        ensures kept { (self.new.failure ≡ None) → (self.old.failure ≡ None) }
        ensures counts { self.new.counts ≡ self.old.counts }
    {
        if let Err(why) = self.write_end() {
            self.failure = Some(why);
        }
    }

    // Writes the end.
    fn write_end(&mut self) -> Result<(), PrintError>
        ensures ended { OnOk result (Appends (W.contents self.old.outputs.writer)
            (W.contents self.new.outputs.writer)
            (ending self.old.form self.old.is_begun self.old.is_summed self.old.counts)) }
        ensures memory { (result ≡ Err Memory) → self.new.outputs.writer ≡ self.old.outputs.writer }
        ensures refused { (result ≡ Err Refused) → ⊥ }
        ensures silent { self.new.outputs.faults ≡ self.old.outputs.faults }
        ensures stopped { (self.old.failure ≡ Some Write) →
            (result ≡ Err Write) × (self.new.outputs ≡ self.old.outputs) }
        ensures state { self.new ≡ record self.old { outputs = self.new.outputs } }
    {
        if let Some(PrintError::Write) = self.failure {
            return Err(PrintError::Write);
        }
        let text = self.end_text()?;
        self.put(text.as_str())
    }

    // The text that ends a session.
    fn end_text(&self) -> Result<String, AllocError>
        ensures { IfOk result (λ text. string_bytes text
            ≡ ending self.now.form self.now.is_begun self.now.is_summed self.now.counts) }
    {
        if self.is_summed && self.form.has_summary() {
            let front = self.form.front(self.is_begun);
            let counts = self.counts;
            format!(in self.alloc; "{front}{counts}\n")
        } else {
            String::from_str(self.alloc, self.form.closing(self.is_begun))
        }
    }

    // Prints why a report wasn't written, if one wasn't.
    fn tell_failure(&mut self) -> io::Result<()>
        ensures told { OnOk result ((why : PrintError) → (self.old.failure ≡ Some why) →
            Appends (F.contents self.old.outputs.faults) (F.contents self.new.outputs.faults) (unprinted_row why)) }
        ensures silent { (self.old.failure ≡ None) → self.new.outputs.faults ≡ self.old.outputs.faults }
        ensures failed { OnErr result (is_some self.old.failure ≡ true) }
        ensures writer { self.new.outputs.writer ≡ self.old.outputs.writer }
        ensures state { self.new ≡ record self.old { outputs = self.new.outputs } }
    {
        match self.failure {
            Some(why) => explain_failure(why, &mut self.outputs.faults),
            None => Ok(()),
        }
    }

    // The exit code at the end of a session.
    fn status(&self) -> ExitCode
        ensures { exit_status result ≡ run_status self.now.counts self.now.failure }
    {
        if self.counts.errors == 0 && self.failure.is_none() {
            ExitCode::SUCCESS
        } else {
            ExitCode::FAILURE
        }
    }
}
