//! The request of `job`, parsed once from its arguments.

ghost use Rattle.std.specs.Prelude.{◌≡◌, map, string_bytes};
ghost use Rattle.miette_program.specs.steps.ParsedArguments.{IsGiven};
ghost use Rattle.miette_report.specs.rules.AppliedFixes.{fixing_of};
ghost use Rattle.miette_report.specs.rules.Requests.{requested_by};
ghost use Rattle.miette_report.specs.views.Requests.{request_in};

use miette_devices::fault::ProgramError;
use miette_lsp::logs::LogOptions;
use miette_program::arguments::Arguments;
use std::alloc::Global;

/// What `job` is to do.
#[derive(Drop)]
pub enum Request<'w> {
    /// Print the report with these settings.
    Report(Arguments),
    /// Print one log of the report: `--sarif` or `--lsp`.
    Log(LogOptions<'w>),
    /// Print the source after fixes: all of them (`--fix=all`), or only the machine-applicable ones (`--fix`).
    Fix {
        /// Whether all fixes are applied.
        all: bool,
    },
}

/// Returns whether all fixes are applied. Returns `None` if the arguments ask for something else.
fn fixing(words: &[String]) -> Option<bool>
    ensures { result ≡ fixing_of (map string_bytes words.now) }
{
    match words {
        [word] if word.as_str() == "--fix" => Some(false),
        [word] if word.as_str() == "--fix=all" => Some(true),
        _ => None,
    }
}

impl<'w> Request<'w> {
    /// Parses the arguments after the program's name.
    ///
    /// # Errors
    /// `Usage` for wrong arguments. `Memory` if allocation fails.
    pub fn read(alloc: Global, words: &'w [String]) -> Result<Request<'w>, ProgramError>
        ensures { IsGiven request_in (requested_by (map string_bytes words.now)) result }
    {
        if let Some(all) = fixing(words) {
            return Ok(Request::Fix { all });
        }
        if let Some(log) = LogOptions::asked(words, "job") {
            return Ok(Request::Log(log));
        }
        let settings = Arguments::read(alloc, words)?;
        Ok(Request::Report(settings))
    }
}
