//! A theorem about SARIF logs. It is the contract of an empty function: call the function to use it.

ghost use Rattle.std.specs.Prelude.{ℕ, List, None};
ghost use Rattle.std.specs.List.{AllZip};
ghost use Rattle.miette_json.specs.rules.Denotes.{Denotes};
ghost use Rattle.miette_json.specs.rules.Json.{Json};
ghost use Rattle.miette_sarif.specs.laws.ReportTexts.{Tells, all_printed, results_in};
ghost use Rattle.miette_sarif.specs.rules.Log.{ToolName};
ghost use Rattle.miette_sarif.specs.rules.LogText.{IsLogOf};
ghost use Rattle.miette_tree.specs.rules.Tree.{Trees};

/// The log has exactly one result for each report and each related report, depth first. The result, or its rule,
/// includes the report's texts and the messages of its causes. It also includes the texts of all their labels and
/// fixes, and the names of their sources (`Tells` says how). It leaves out code, help and url of causes, names of
/// sources that can't be read, and edits that can't be applied or whose result is not UTF-8.
pub fn sarif_logs_tell_their_reports()
    ensures { (tool : ToolName) (reports : Trees) (bytes : List ℕ) (log : Json) → IsLogOf tool reports bytes →
        Denotes bytes log → AllZip (Tells log) (all_printed None reports) (results_in log) }
{}
