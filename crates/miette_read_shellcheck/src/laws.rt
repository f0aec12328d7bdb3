//! Theorems on the reports of ShellCheck's comments.
//! Each theorem is the contract of a function with an empty body. Call the function to use its theorem.

ghost use Rattle.miette_read.specs.laws.Reading.{LabelsAreAccepted, ReportsAlwaysRead};
ghost use Rattle.miette_read_shellcheck.specs.rules.Comments.{shellcheck_trees};

/// If every file always reads, the sources of the reports always read.
pub fn reports_always_read()
    ensures { ReportsAlwaysRead shellcheck_trees }
{}

/// If every file always reads, the labels of the reports are in bounds. Narrated and brief reports never fail on them.
pub fn labels_are_accepted()
    ensures { LabelsAreAccepted shellcheck_trees }
{}
