//! Adds a message to a missing value or an error.
ghost use Rattle.std.specs.Prelude.{◌≡◌, ◌⊎◌, ℕ, List, Option, IsNone, IfSome, IsErrAnd, IfErr, Some, None};
ghost use Rattle.std.specs.Option.{option_and_then};
ghost use Rattle.std.specs.Result.{result_ok, result_err};
ghost use Rattle.miette_tree.specs.rules.WrapErr.{IsOutOfMemory, IsWrapErrResult, IsLazyWrapErrResult, Prints};
ghost use Rattle.miette_tree.specs.declared.tree.Report.{Report};

use crate::constructors::DefaultBoxes;
use crate::tree::Report;
use miette_protocol::protocol::Diagnostic;
use miette_protocol::source::SourceCode;
use std::alloc::{AllocError, Global};
use std::fmt::Display;

/// Adds a message to the error of a `Result`, or turns a `None` into an error. A value that is present is returned
/// unchanged, and no message is built. For an `Option`, the error is a report of the message. For a `Result`, it is the
/// report of the error with the message in front. If allocation fails, the error is the report of an `AllocError`.
pub trait WrapErr<T, D: Diagnostic, S: SourceCode>: Sized {
    /// The value, if present.
    ghost value: { Self → Option T };

    /// The report that a message is put in front of if the value is missing. An `Option` has none.
    ghost wraps_report: { Self → Option (Report D S) → Type 0 };

    /// Adds a message that `make` builds. `make` is called at most once, and only if the value is missing.
    fn wrap_err_with<F>(self, alloc: Global, make: F) -> Result<T, Report<D, S>>
    where
        F: FnOnce() -> Result<String, AllocError> + Drop,
        Report<D, S>: DefaultBoxes,
        requires { IsNone (value self) → F.IsAlwaysCallable make }
        ensures value { IfSome (value self) (λ it. result ≡ Ok it) }
        ensures missing { IsNone (value self) → IsErrAnd result (λ r. (below : _) × wraps_report self below
            × ((made : _) × F.post make made × IsLazyWrapErrResult D.meaning S.source made below r)) };

    /// Like `wrap_err_with`.
    fn with_context<F>(self, alloc: Global, make: F) -> Result<T, Report<D, S>>
    where
        F: FnOnce() -> Result<String, AllocError> + Drop,
        Report<D, S>: DefaultBoxes,
        requires { IsNone (value self) → F.IsAlwaysCallable make }
        ensures value { IfSome (value self) (λ it. result ≡ Ok it) }
        ensures missing { IsNone (value self) → IsErrAnd result (λ r. (below : _) × wraps_report self below
            × ((made : _) × F.post make made × IsLazyWrapErrResult D.meaning S.source made below r)) };

    /// Adds a message.
    fn wrap_err(self, alloc: Global, text: &str) -> Result<T, Report<D, S>>
    where
        Report<D, S>: DefaultBoxes,
        ensures value { IfSome (value self) (λ it. result ≡ Ok it) }
        ensures missing { IsNone (value self) →
            IsErrAnd result (λ r. (below : _) × wraps_report self below
            × IsWrapErrResult D.meaning S.source text.now below r) }
    {
        self.wrap_err_with(alloc, || String::from_str(alloc, text))
    }

    /// Like `wrap_err`.
    fn context(self, alloc: Global, text: &str) -> Result<T, Report<D, S>>
    where
        Report<D, S>: DefaultBoxes,
        ensures value { IfSome (value self) (λ it. result ≡ Ok it) }
        ensures missing { IsNone (value self) →
            IsErrAnd result (λ r. (below : _) × wraps_report self below
            × IsWrapErrResult D.meaning S.source text.now below r) }
    {
        self.wrap_err(alloc, text)
    }
}

/// Returns the report of a message, or of an allocation failure.
fn report_of<D: Diagnostic, S: SourceCode>(made: Result<String, AllocError>) -> Report<D, S>
    ensures { IsLazyWrapErrResult D.meaning S.source made None result }
{
    match made {
        Ok(text) => Report::of_text(text),
        Err(refused) => Report::from(refused),
    }
}

/// Puts a message in front of a report, or returns the report of an allocation failure.
fn report_under<D: Diagnostic, S: SourceCode>(
    alloc: Global,
    report: Report<D, S>,
    made: Result<String, AllocError>,
) -> Report<D, S>
    ensures { IsLazyWrapErrResult D.meaning S.source made (Some report) result }
{
    match made {
        Ok(text) => match report.wrap_err_owned(alloc, text) {
            Ok(wrapped) => wrapped,
            Err(_) => Report::from(AllocError),
        },
        Err(refused) => Report::from(refused),
    }
}

/// Builds a message and returns its report, or the report of an allocation failure.
fn report_by<D: Diagnostic, S: SourceCode, F>(make: F) -> Report<D, S>
where
    F: FnOnce() -> Result<String, AllocError>,
    requires { F.IsAlwaysCallable make }
    ensures { (made : _) × F.post make made × IsLazyWrapErrResult D.meaning S.source made None result }
{
    report_of(make())
}

/// Builds a message and puts it in front of an error's report, or returns the report of an allocation failure.
fn report_under_by<D: Diagnostic, S: SourceCode, E, F>(
    alloc: Global,
    error: E,
    make: F,
) -> Report<D, S>
where
    E: Into<Report<D, S>>,
    F: FnOnce() -> Result<String, AllocError>,
    requires { F.IsAlwaysCallable make }
    ensures { (below : _) × E.converts error below
        × ((made : _) × F.post make made × IsLazyWrapErrResult D.meaning S.source made (Some below) result) }
{
    report_under(alloc, error.into(), make())
}

impl<T, D: Diagnostic, S: SourceCode> WrapErr<T, D, S> for Option<T> {
    ghost value = { λ option. option };

    ghost wraps_report = { λ _ below. below ≡ None };

    fn wrap_err_with<F>(self, _alloc: Global, make: F) -> Result<T, Report<D, S>>
    where
        F: FnOnce() -> Result<String, AllocError> + Drop,
        Report<D, S>: DefaultBoxes,
    {
        match self {
            Some(given) => Ok(given),
            None => Err(report_by(make)),
        }
    }

    fn with_context<F>(self, alloc: Global, make: F) -> Result<T, Report<D, S>>
    where
        F: FnOnce() -> Result<String, AllocError> + Drop,
        Report<D, S>: DefaultBoxes,
    {
        self.wrap_err_with(alloc, make)
    }
}

impl<T, D: Diagnostic, S: SourceCode, E: Into<Report<D, S>>> WrapErr<T, D, S> for Result<T, E> {
    ghost value = { result_ok };

    ghost wraps_report = { λ outcome below. IfErr outcome
        (λ error. (report : _) × E.converts error report × (below ≡ Some report)) };

    fn wrap_err_with<F>(self, alloc: Global, make_message: F) -> Result<T, Report<D, S>>
    where
        F: FnOnce() -> Result<String, AllocError> + Drop,
        Report<D, S>: DefaultBoxes,
    {
        match self {
            Ok(given) => Ok(given),
            Err(error) => Err(report_under_by(alloc, error, make_message)),
        }
    }

    fn with_context<F>(self, alloc: Global, make_message: F) -> Result<T, Report<D, S>>
    where
        F: FnOnce() -> Result<String, AllocError> + Drop,
        Report<D, S>: DefaultBoxes,
    {
        self.wrap_err_with(alloc, make_message)
    }
}

/// Turns a result whose error can be printed into one whose error is a report.
pub trait IntoDiagnostic<T, D: Diagnostic, S: SourceCode>: Sized {
    /// The value, if present.
    ghost value: { Self → Option T };

    /// The text that the error prints, if its type states it.
    ghost error_text: { Self → Option (List ℕ) };

    /// Converts the error into a report. Its printed text becomes the message. If allocation fails, the error is the
    /// report of an `AllocError`.
    fn into_diagnostic(self, alloc: Global) -> Result<T, Report<D, S>>
    where
        Report<D, S>: DefaultBoxes,
        ensures value { IfSome (value self) (λ it. result ≡ Ok it) }
        ensures missing { IsNone (value self) →
            IsErrAnd result (λ r. Prints D.meaning S.source (error_text self) r ⊎ IsOutOfMemory D.meaning S.source r) };
}

impl<T, D: Diagnostic, S: SourceCode, E: Display + Drop> IntoDiagnostic<T, D, S> for Result<T, E> {
    ghost value = { result_ok };

    ghost error_text = { λ outcome. option_and_then E.output (result_err outcome) };

    fn into_diagnostic(self, alloc: Global) -> Result<T, Report<D, S>>
    where
        Report<D, S>: DefaultBoxes,
    {
        match self {
            Ok(kept) => Ok(kept),
            Err(error) => match Report::of_display(alloc, error) {
                Ok(report) => Err(report),
                Err(refused) => Err(Report::from(refused)),
            },
        }
    }
}
