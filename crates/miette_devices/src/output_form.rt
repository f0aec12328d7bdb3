//! The output forms of programs, and their arguments.

ghost use Rattle.std.specs.Prelude.{◌≡◌};
ghost use Rattle.miette_devices.specs.rules.OutputForms.{form_named};

/// The form in which a program writes reports.
#[derive(Clone, Copy, Debug, PartialEq, Eq)]
pub enum OutputForm {
    /// Graphical reports.
    Graphical,
    /// Narrated reports.
    Narrated,
    /// One line each, in GCC's format.
    Brief,
    /// Workflow commands of GitHub.
    Github,
    /// JSON.
    Json,
    /// Debug reports.
    Debug,
    /// One SARIF log of all reports.
    Sarif,
    /// One list of documents with their diagnostics, for editors.
    Lsp,
}

impl OutputForm {
    /// Returns the form that this argument selects. Returns `None` for any other argument.
    pub fn named(word: &str) -> Option<OutputForm>
        ensures { result ≡ form_named word.now }
    {
        match word {
            "--graphical" => Some(OutputForm::Graphical),
            "--narrated" => Some(OutputForm::Narrated),
            "--brief" => Some(OutputForm::Brief),
            "--github" | "--brief=github" => Some(OutputForm::Github),
            "--json" => Some(OutputForm::Json),
            "--debug" => Some(OutputForm::Debug),
            "--sarif" => Some(OutputForm::Sarif),
            "--lsp" => Some(OutputForm::Lsp),
            _ => None,
        }
    }
}
