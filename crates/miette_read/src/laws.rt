//! Theorems on the reports of all messages.
//! Each theorem is the contract of a function with an empty body. Call the function to use its theorem.

ghost use Rattle.std.specs.Prelude.{◌≡◌, ℕ, List, Option, IfSome, true};
ghost use Rattle.std.specs.List.{Contains};
ghost use Rattle.serde_json.specs.Data.{Data};
ghost use Rattle.miette_protocol.specs.rules.Reading.{Source};
ghost use Rattle.miette_tree.specs.rules.Reads.{AlwaysReads, report_in_bounds};
ghost use Rattle.miette_read.specs.laws.Reading.{FilesAlwaysRead};
ghost use Rattle.miette_read.specs.rules.Kept.{IsKept};
ghost use Rattle.miette_read.specs.rules.Places.{Annotation};
ghost use Rattle.miette_read.specs.rules.SuggestedFixes.{Suggestion};
ghost use Rattle.miette_read.specs.rules.Reports.{MessageParts, report_tree};
ghost use Rattle.miette_read.specs.rules.RustcReport.{rustc_tree};
ghost use Rattle.miette_read.specs.rules.AnnotationLabels.{label_lists};

/// If every file always reads, the sources of a message's report always read.
pub fn messages_always_read()
    ensures { (files : List ℕ → Option Source) (d : Data) → FilesAlwaysRead files
        → IfSome (rustc_tree files d) (λ row. IfSome row AlwaysReads) }
{}

/// If every file always reads, the labels of a message's report are in bounds. Narrated and brief reports never fail on
/// them.
pub fn labels_are_accepted()
    ensures { (files : List ℕ → Option Source) (d : Data) → FilesAlwaysRead files
        → IfSome (rustc_tree files d) (λ row. IfSome row (λ tree. report_in_bounds tree ≡ true)) }
{}

/// Every line of every annotation of any tool is in a label's text or in a cause text, whatever files are found.
pub fn rows_are_kept()
    ensures { (files : List ℕ → Option Source) (said : MessageParts) (told : List Annotation) (offers : List Suggestion)
        (t : Annotation)
        (row : List ℕ) → Contains told t → Contains t.rows row
        → IsKept (report_tree said (label_lists files told) offers) row }
{}
