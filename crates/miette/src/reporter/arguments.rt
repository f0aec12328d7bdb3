//! The arguments of a program that reports on files.

ghost use Rattle.std.specs.Prelude.{◌≡◌, ◌<◌, ◌++◌, ◌∷◌, [], ℕ, List, MatchOption, IfOk, OnOk, Some, None};
ghost use Rattle.std.specs.Prelude.{false, true, length, string_bytes};
ghost use Rattle.std.specs.Option.{option_copied};
ghost use Rattle.miette_protocol.specs.views.Diagnostic.{message_alone};
ghost use Rattle.miette_tree.specs.rules.Diagnosis.{plain_diagnosis};
ghost use Rattle.miette_tree.specs.rules.Tree.{single_report};
ghost use Rattle.miette_tree.specs.views.Report.{tree_of};
ghost use Rattle.miette.specs.declared.reporter.form.Form.TheVariants.{Pictures};
ghost use Rattle.miette.specs.rules.Forms.{report_form_named};
ghost use Rattle.miette.specs.rules.Arguments.{asked_name};

use crate::reporter::form::Form;
use miette_protocol::diagnostic::MietteDiagnostic;
use miette_protocol::protocol::Diagnostic;
use miette_protocol::source::SourceCode;
use miette_tree::report::{DefaultBoxes, IntoDiagnostic, Report};
use std::alloc::{AllocError, Global};
use std::env;
use std::env::Env;

/// Arguments of the form `[--FORM] NAME..`.
#[derive(Drop)]
pub struct ReportArguments {
    /// The form that the last argument with `--` names (see `Form::named`). The default is graphical.
    pub form: Form,
    /// The other arguments.
    pub names: Vec<String>,
}

impl ReportArguments {
    /// Reads the arguments of this program. At least one name is required.
    ///
    /// # Errors
    /// A report whose message is `usage`, if there is no name or a form is unknown; the report of arguments that are
    /// not UTF-8; or that of a failed allocation.
    pub fn of_program<R: Env + AllocGlobal, D: Diagnostic, S: SourceCode>(
        rt: &R,
        usage: &str,
    ) -> Result<ReportArguments, Report<D, S>>
    where
        Report<D, S>: DefaultBoxes,
        ensures { IfOk result (λ it. 0 < length it.names.items) }
    {
        let alloc = rt.alloc();
        let mut words = ReportArguments::new(alloc);
        for word in env::args(rt).into_diagnostic(alloc)?.skip(1) {
            if !words.push(word)? {
                return Err(usage_report(alloc, usage)?);
            }
        }
        if words.names.is_empty() {
            return Err(usage_report(alloc, usage)?);
        }
        Ok(words)
    }

    /// No arguments yet.
    pub fn new(alloc: Global) -> ReportArguments
        ensures form { result.form ≡ Pictures }
        ensures names { result.names.items ≡ [] }
    {
        ReportArguments {
            form: Form::Pictures,
            names: Vec::new(alloc),
        }
    }

    /// Adds an argument. Returns false if it names an unknown form.
    ///
    /// # Errors
    /// `AllocError` if allocation for the list of names fails.
    pub fn push(&mut self, word: String) -> Result<bool, AllocError>
        ensures asked { (name : List ℕ) → (asked_name (string_bytes word) ≡ Some name) →
            (self.new.names ≡ self.old.names) × MatchOption (report_form_named name)
            ((result ≡ Ok false) × (self.new.form ≡ self.old.form))
            (λ form. (result ≡ Ok true) × (self.new.form ≡ form)) }
        ensures named { (asked_name (string_bytes word) ≡ None) → (self.new.form ≡ self.old.form)
            × OnOk result ((result ≡ Ok true) × (self.new.names.items ≡ self.old.names.items ++ word ∷ [])) }
    {
        match asked_name(word.as_str()) {
            Some(name) => match Form::named(name) {
                Some(form) => {
                    self.form = form;
                    Ok(true)
                }
                None => Ok(false),
            },
            None => {
                self.names.push(word)?;
                Ok(true)
            }
        }
    }
}

// The rest of an argument that begins with `--`.
fn asked_name(word: &str) -> Option<&str>
    ensures { option_copied result ≡ asked_name word.now }
{
    word.strip_prefix("--")
}

// The report with the usage text.
fn usage_report<D: Diagnostic, S: SourceCode>(
    alloc: Global,
    usage: &str,
) -> Result<Report<D, S>, AllocError>
    ensures { IfOk result (λ r. tree_of D.meaning S.source r ≡ single_report (plain_diagnosis
        (message_alone usage.now))) }
{
    Ok(Report::built(MietteDiagnostic::new(alloc, usage)?))
}
