//! Theorems on the reports of GCC's diagnostics.
//! Each theorem is the contract of a function with an empty body. Call the function to use its theorem.

ghost use Rattle.std.specs.Prelude.{ℕ, List, Option};
ghost use Rattle.std.specs.List.{Contains};
ghost use Rattle.serde_json.specs.Data.{Data};
ghost use Rattle.miette_protocol.specs.rules.Reading.{Source};
ghost use Rattle.miette_read.specs.laws.Reading.{LabelsAreAccepted, ReportsAlwaysRead};
ghost use Rattle.miette_read.specs.rules.Kept.{IsKept};
ghost use Rattle.miette_read.specs.rules.Places.{Annotation};
ghost use Rattle.miette_read_gcc.specs.rules.Gcc.{diagnostic_annotations};
ghost use Rattle.miette_read_gcc.specs.rules.GccReport.{diagnostic_tree, gcc_trees, gcc_context_of};

/// If every file always reads, the sources of the reports always read.
pub fn reports_always_read()
    ensures { ReportsAlwaysRead gcc_trees }
{}

/// If every file always reads, the labels of the reports are in bounds. Narrated and brief reports never fail on them.
pub fn labels_are_accepted()
    ensures { LabelsAreAccepted gcc_trees }
{}

/// Every line of every annotation of a diagnostic is in a label's text or in a cause text, whatever files are found.
/// Annotations are at its locations, at the events of its path, and in its notes.
pub fn rows_are_kept()
    ensures { (files : List ℕ → Option Source) (d : Data) (t : Annotation) (row : List ℕ)
        → Contains (diagnostic_annotations (gcc_context_of files d) d) t → Contains t.rows row
        → IsKept (diagnostic_tree files d) row }
{}
