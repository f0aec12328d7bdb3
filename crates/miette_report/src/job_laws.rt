//! A theorem about the output of `job`. It is the contract of an empty function.
ghost use Rattle.std.specs.Prelude.{◌≡◌, ◌≢◌, ℕ, List, Some};
ghost use Rattle.miette_report.specs.rules.JobCalls.{CallWrites};
ghost use Rattle.miette_program.specs.rules.OptionWords.{handler_choice};

use crate::job::Choice;
use crate::language::LanguageHighlighter;
use miette::highlight::Highlighter;

/// For given arguments and input, `job` writes one text, also with `--highlight`. The debug report is the exception:
/// its texts outside ASCII are left open.
pub fn job_one_text_law()
    ensures { (words : List (List ℕ)) (bytes some others : List ℕ) → handler_choice words ≢ Some Choice.Debug →
        CallWrites ⟦<LanguageHighlighter as Highlighter>⟧.is_blank words bytes (λ text. text ≡ some) →
        CallWrites ⟦<LanguageHighlighter as Highlighter>⟧.is_blank words bytes (λ text. text ≡ others) →
        some ≡ others }
{}
