//! Starts a session: form, options and terminal choose the handler.

ghost use Rattle.std.specs.Prelude.{◌≡◌, IfOk};
ghost use Rattle.miette.specs.rules.Detection.{IsToldBy};
ghost use Rattle.miette.specs.views.Beginning.{IsBegun};

use crate::options::MietteHandlerOpts;
use crate::print::Outputs;
use crate::reporter::form::Form;
use crate::reporter::handler::FormHandler;
use crate::reporter::run::Reporter;
use crate::terminal::{Lookup, Stream, Streams, detect_terminal};
use miette_highlight::highlight::Highlighter;
use std::alloc::AllocError;

impl<H: Highlighter, W: Drop, F: Drop> Reporter<FormHandler<H>, W, F> {
    /// Starts a session on standard output, with the handler that form and options choose for its terminal.
    ///
    /// # Errors
    /// `AllocError` if allocation for variables or theme fails.
    pub fn new<R: Lookup + AllocGlobal + Streams<Out = W, Faults = F>>(
        rt: &R,
        form: Form,
        options: MietteHandlerOpts<H>,
    ) -> Result<Self, AllocError>
        ensures { IfOk result (IsBegun (IsToldBy (R.variable_may_be rt.now) (R.terminal_may_be rt.now)) Stream.Stdout
            form options) }
    {
        let outputs = Outputs::new(rt.output(), rt.faults());
        Reporter::on_stream(rt, Stream::Stdout, form, options, outputs)
    }

    /// Starts a session on a writer, with the handler that form and options choose for the stream's terminal.
    ///
    /// # Errors
    /// `AllocError` if allocation for variables or theme fails.
    pub fn on_stream<R: Lookup + AllocGlobal + Streams>(
        rt: &R,
        stream: Stream,
        form: Form,
        options: MietteHandlerOpts<H>,
        outputs: Outputs<W, F>,
    ) -> Result<Self, AllocError>
        ensures begun { IfOk result (IsBegun (IsToldBy (R.variable_may_be rt.now) (R.terminal_may_be rt.now)) stream
            form options) }
        ensures outputs { IfOk result (λ it. it.outputs ≡ outputs) }
    {
        let terminal = detect_terminal(rt, stream)?;
        let handler = FormHandler::build(rt.alloc(), form, options, &terminal)?;
        Ok(Reporter::with_handler(rt.alloc(), handler, form, outputs))
    }
}

impl<H: Highlighter, F: Drop> Reporter<FormHandler<H>, F, F> {
    /// Like `new`, but on standard error.
    ///
    /// # Errors
    /// `AllocError` if allocation for variables or theme fails.
    pub fn on_stderr<R: Lookup + AllocGlobal + Streams<Faults = F>>(
        rt: &R,
        form: Form,
        options: MietteHandlerOpts<H>,
    ) -> Result<Self, AllocError>
        ensures { IfOk result (IsBegun (IsToldBy (R.variable_may_be rt.now) (R.terminal_may_be rt.now)) Stream.Stderr
            form options) }
    {
        let outputs = Outputs::new(rt.faults(), rt.faults());
        Reporter::on_stream(rt, Stream::Stderr, form, options, outputs)
    }
}
