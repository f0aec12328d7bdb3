//! Rows of output: a call's name, its arguments and its result, separated by tabs.

use miette::error::RenderError;
use miette::report::{Report, ReportKind};
use std::alloc::AllocError;
use std::fmt::Debug;
use std::io::Write;
use std::rt::Stdout;

/// Why the program ends.
#[derive(Clone, Copy)]
pub enum ExitReason {
    /// Allocation failed before any row.
    Memory,
    /// Writing to standard output failed.
    Write,
    /// The arguments name no call.
    Usage,
}

impl From<AllocError> for ExitReason {
    fn from(_refused: AllocError) -> ExitReason {
        ExitReason::Memory
    }
}

/// The result of writing rows.
pub type RowResult = Result<(), ExitReason>;

/// The result of making a call. It is an error if allocating the call's arguments failed.
pub type CallResult = Result<(), AllocError>;

/// The prefix of an argument or result.
pub const VALUE: &str = "\t";

/// The prefix of a value that is unchanged because allocation failed.
pub const REFUSED: &str = "\trefused: ";

/// Rows on standard output. After a failed write, nothing else is written, and the end of a row reports the error.
#[derive(Drop)]
pub struct Rows {
    out: Stdout,
    is_full: bool,
}

impl Rows {
    /// Starts without rows.
    pub fn on(out: Stdout) -> Rows {
        Rows {
            out,
            is_full: false,
        }
    }

    /// Prints a text as it is.
    pub fn text(&mut self, text: &str) {
        self.is_full = self.is_full || self.out.write_all(text.as_bytes()).is_err();
    }

    /// Prints a value after its name.
    pub fn part<T: Debug>(&mut self, name: &str, value: &T) {
        self.is_full = self.is_full || write!(self.out, "{name}{value:?}").is_err();
    }

    /// Prints an argument or result.
    pub fn value<T: Debug>(&mut self, value: &T) {
        self.part(VALUE, value);
    }

    /// Prints that allocation failed.
    pub fn refused(&mut self) {
        self.text("\trefused");
    }

    /// Prints the result, or that allocation failed.
    pub fn answer<T: Debug + Drop>(&mut self, answer: Result<T, AllocError>) {
        match answer {
            Ok(value) => self.value(&value),
            Err(AllocError) => self.refused(),
        }
    }

    /// Prints a text after a call that appends to it.
    pub fn appended(&mut self, answer: Result<(), RenderError>, text: &String) {
        let before = match answer {
            Ok(()) => VALUE,
            Err(RenderError::Memory) => REFUSED,
            Err(RenderError::Refused) => "\tnot read: ",
        };
        self.part(before, text);
    }

    /// Prints a value, or that allocation failed and the value. The value is what the call changes in place.
    pub fn after<A: Drop, T: Debug>(&mut self, answer: Result<A, AllocError>, value: &T) {
        match answer {
            Ok(_) => self.value(value),
            Err(AllocError) => self.refused(),
        }
    }

    /// Prints a value and two clones of it.
    ///
    /// # Errors
    /// If allocating the value failed.
    pub fn clones<T: Clone + Debug + Drop>(&mut self, made: Result<T, AllocError>) -> CallResult {
        let value = made?;
        self.value(&value);
        self.answer(value.clone());
        self.answer(value.clone());
        Ok(())
    }

    /// Prints a text and the parts of a report.
    pub fn report(&mut self, before: &str, report: &Report) {
        self.part(before, report);
        self.part(", code ", &report.code());
        self.part(", severity ", &report.severity());
        self.part(", help ", &report.help());
        self.part(", url ", &report.url());
        self.part(", labels ", &report.labels());
    }

    /// Prints a report. If it is the report of a failed allocation, prints that first.
    pub fn report_or_refusal(&mut self, report: &Report) {
        let before = match report.kind() {
            ReportKind::OutOfMemory => REFUSED,
            _ => VALUE,
        };
        self.report(before, report);
    }

    /// Ends a row. If its call wasn't made, prints that.
    ///
    /// # Errors
    /// `Write` if writing to standard output fails.
    pub fn end(&mut self, called: CallResult) -> RowResult {
        if called.is_err() {
            self.text("\tno memory before the call");
        }
        self.text("\n");
        if self.is_full {
            Err(ExitReason::Write)
        } else {
            Ok(())
        }
    }
}
