//! The request of `lint`, parsed once from its arguments.

ghost use Rattle.std.specs.Prelude.{◌≡◌, map, option_map, string_bytes};
ghost use Rattle.miette_lint_program.specs.rules.Words.{checked, lint_request, output_for};
ghost use Rattle.miette_lint_program.specs.views.Requests.{output_of, request_of};

use miette_devices::output_form::OutputForm;
use miette_devices::words::number;

/// What `lint` writes for a source. To add a form, add its argument to `LintOutput::named` and its text to `render`.
#[derive(Clone, Copy, Debug, PartialEq, Eq)]
pub enum LintOutput<'w> {
    /// A graphical report of all findings.
    Graphical,
    /// A brief report of all findings, for editors and build logs.
    Brief,
    /// Workflow commands of GitHub, one for each finding.
    Github,
    /// A SARIF log of a tool of this name, with a result for each finding.
    Sarif(&'w str),
    /// A graphical report of all findings, with one fix of all proposed edits.
    Diff,
    /// The source after all proposed edits. A graphical report of the remaining findings goes to standard error.
    Fixed,
}

/// A source to check.
#[derive(Clone, Copy, Debug, PartialEq, Eq)]
pub struct LintCheck<'w> {
    /// What is written.
    pub output: LintOutput<'w>,
    /// Its name.
    pub name: &'w str,
    /// The maximum number of columns of a line.
    pub width: usize,
}

/// What `lint` is to do.
#[derive(Clone, Copy, Debug, PartialEq, Eq)]
pub enum LintRequest<'w> {
    /// Check a source.
    Check(LintCheck<'w>),
    /// Serve an editor. Lines may have this many columns.
    Serve(usize),
}

impl<'w> LintOutput<'w> {
    // Returns the output that an argument selects.
    fn named(word: &str) -> Option<LintOutput<'w>>
        ensures { option_map output_of result ≡ output_for word.now }
    {
        match word {
            "--diff" => Some(LintOutput::Diff),
            "--fix" => Some(LintOutput::Fixed),
            _ => match OutputForm::named(word) {
                Some(OutputForm::Brief) => Some(LintOutput::Brief),
                Some(OutputForm::Github) => Some(LintOutput::Github),
                Some(OutputForm::Sarif) => Some(LintOutput::Sarif("lint")),
                _ => None,
            },
        }
    }
}

impl<'w> LintRequest<'w> {
    /// Parses the arguments after the program's name. Returns `None` for wrong arguments.
    pub fn read(words: &'w [String]) -> Option<LintRequest<'w>>
        ensures { option_map request_of result ≡ lint_request (map string_bytes words.now) }
    {
        match words {
            [word, width] if word.as_str() == "--lsp" => {
                Some(LintRequest::Serve(number(width.as_str())?))
            }
            [name, width] => {
                LintRequest::source(LintOutput::Graphical, name.as_str(), width.as_str())
            }
            [word, name, width] => {
                let output = LintOutput::named(word.as_str())?;
                LintRequest::source(output, name.as_str(), width.as_str())
            }
            [word, key, tool, name, width]
                if word.as_str() == "--sarif" && key.as_str() == "--tool" => {
                let output = LintOutput::Sarif(tool.as_str());
                LintRequest::source(output, name.as_str(), width.as_str())
            }
            _ => None,
        }
    }

    // Returns a check of the source with this name and width. Returns `None` if the width isn't a number.
    fn source(output: LintOutput<'w>, name: &'w str, width: &str) -> Option<LintRequest<'w>>
        ensures { option_map request_of result ≡ checked (output_of output.entry) name.now width.now }
    {
        let width = number(width)?;
        Some(LintRequest::Check(LintCheck {
            output,
            name,
            width,
        }))
    }
}
