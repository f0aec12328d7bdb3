//! A theorem about all narrated reports. It is the contract of an empty function: call the function to use it.

ghost use Rattle.std.specs.Prelude.{◌≡◌, ◌++◌, ℕ, List, true};
ghost use Rattle.miette_tree.specs.rules.Tree.{Tree};
ghost use Rattle.miette_tree.specs.rules.Reads.{report_reads};
ghost use Rattle.miette_tree.specs.views.Handler.{AppendsOne};
ghost use Rattle.miette_narrated.specs.rules.Report.{NarrationSettings, narration, unlisted};
ghost use Rattle.miette_narrated.specs.rules.PossibleAnswers.{IsNarrated, fixes_read};

/// If every source that labels or fixes use always reads, a report has exactly one narrated text.
/// `ReportHandler::debug` then appends that text.
pub fn narrated_report_has_one_text()
    ensures text { (s : NarrationSettings) (t : Tree) (text : List ℕ) → IsNarrated s t text → report_reads t ≡ true →
        fixes_read t ≡ true →
        text ≡ narration s t unlisted }
    ensures appended { (s : NarrationSettings) (t : Tree) (old new : List ℕ) → AppendsOne (IsNarrated s t) old new →
        report_reads t ≡ true → fixes_read t ≡ true → new ≡ old ++ narration s t unlisted }
{}
