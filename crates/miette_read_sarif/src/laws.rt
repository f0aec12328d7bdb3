//! Theorems on the reports of SARIF logs.
//! Each theorem is the contract of a function with an empty body. Call the function to use its theorem.

ghost use Rattle.std.specs.Prelude.{ℕ, List};
ghost use Rattle.std.specs.List.{Contains};
ghost use Rattle.serde_json.specs.Data.{Data};
ghost use Rattle.miette_read.specs.laws.Reading.{LabelsAreAccepted, ReportsAlwaysRead};
ghost use Rattle.miette_read.specs.rules.Kept.{IsKept};
ghost use Rattle.miette_read.specs.rules.Places.{Annotation};
ghost use Rattle.miette_read_sarif.specs.rules.Logs.{notification_tree, result_tree, sarif_trees};
ghost use Rattle.miette_read_sarif.specs.rules.Results.{RunContext, result_context};
ghost use Rattle.miette_read_sarif.specs.rules.Wholes.{all_annotations, notification_file_annotations};
ghost use Rattle.miette_read_sarif.specs.rules.Wholes.{result_file_annotations};

/// If every file always reads, the sources of the reports always read.
pub fn reports_always_read()
    ensures { ReportsAlwaysRead sarif_trees }
{}

/// If every file always reads, the labels of the reports are in bounds. Narrated and brief reports never fail on them.
pub fn labels_are_accepted()
    ensures { LabelsAreAccepted sarif_trees }
{}

/// Every line of every annotation is in a label's text or in a cause text of its report, whatever files are found.
/// Annotations are those of results (`results`) and of notifications (`notices`). So is the name of each whole file
/// without text, unless the first label is over that file.
pub fn rows_are_kept()
    ensures results { (g : RunContext) (r : Data) (t : Annotation) (row : List ℕ) → let k
        = result_file_annotations (result_context g r) r in
        Contains (all_annotations g.files k) t → Contains t.rows row → IsKept (result_tree g r) row }
    ensures notices { (g : RunContext) (n : Data) (t : Annotation) (row : List ℕ) → let k
        = notification_file_annotations g n in
        Contains (all_annotations g.files k) t → Contains t.rows row → IsKept (notification_tree g n) row }
{}
