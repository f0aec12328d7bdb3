//! Theorems on reading back our own SARIF logs. Each result becomes one report. A log has one result for each report
//! and for each of its related reports.
//!
//! What is kept: severity, code, the URL of the code's rule, the lines of the message, labels with their locations and
//! texts, and fixes. Links are replaced by their texts, and braces are single.
//!
//! What changes:
//!
//! - A range is extended to whole characters and line ends. Edits that then overlap or start at one offset are joined.
//! - Labels over the same bytes are merged, and equal cause texts too. Of fixes that are written alike, the first one
//!   stays.
//! - A label without text inside an earlier label is dropped. Only the first label of each list is primary.
//! - A URL that isn't the rule's, causes, help and fixes that can't be applied become lines of the message. Labels and
//!   fixes of causes become the report's.
//! - A fix without a message gets one from its edits. Applicability isn't kept.
//!
//! What has no location becomes a cause text:
//!
//! - a text without a source
//! - a label that was out of bounds, after its source's name
//! - a label over a file that isn't found, after name, line and column
//!
//! A report without labels is over its source, if that is found, and the source's name is a cause text. Fixes over a
//! file that isn't found are help, without their edits. Fixes over another file than the report's are in related
//! advice.
//!
//! Not in a log, and lost: code, severity, help and URL of causes, their related reports, context lines of labels, and
//! languages.
//!
//! Labels and fixes follow the rules of all readers (`label_lists`, `offers_of`). Each theorem is the contract of a
//! function with an empty body. Call the function to use its theorem.

ghost use Rattle.std.specs.Prelude.{◌≡◌, ℕ, List, [], ◌∷◌, Option, Some, false, map, unwrap_or};
ghost use Rattle.std.specs.List.{AllByRecursion};
ghost use Rattle.miette_fixes.specs.rules.Edits.{Replacement};
ghost use Rattle.miette_json.specs.rules.Denotes.{Denotes};
ghost use Rattle.miette_json.specs.rules.Json.{Json};
ghost use Rattle.miette_positions.specs.declared.position.PositionEncoding.TheVariants.{Utf16};
ghost use Rattle.miette_positions.specs.declared.position.Stretch.{Stretch};
ghost use Rattle.miette_positions.specs.rules.Regions.{stretch_of};
ghost use Rattle.miette_protocol.specs.declared.protocol.Severity.{Severity};
ghost use Rattle.miette_protocol.specs.declared.protocol.Severity.TheVariants.{Error};
ghost use Rattle.miette_protocol.specs.rules.Reading.{Source, Span};
ghost use Rattle.miette_sarif.specs.rules.Artifacts.{all_named, artifacts_in};
ghost use Rattle.miette_sarif.specs.rules.Findings.{Finding, ReplacementValue, SourceName};
ghost use Rattle.miette_sarif.specs.rules.FindingList.{level, read_findings};
ghost use Rattle.miette_sarif.specs.rules.Log.{ToolName, log};
ghost use Rattle.miette_sarif.specs.rules.LogText.{IsLogOf};
ghost use Rattle.miette_sarif.specs.rules.Proposals.{applicable};
ghost use Rattle.miette_sarif.specs.rules.Uris.{name_uri};
ghost use Rattle.miette_read_sarif.specs.rules.Logs.{sarif_trees};
ghost use Rattle.miette_read_sarif.specs.rules.Proposals.{suggestion_drafts};
ghost use Rattle.miette_read_sarif.specs.rules.Results.{result_parts, sarif_severity};
ghost use Rattle.miette_read_sarif.specs.rules.Uris.{uri_file_name};
ghost use Rattle.miette_read_sarif.specs.rules.Wholes.{result_file_annotations};
ghost use Rattle.miette_tree.specs.rules.Tree.{Trees, trees};
ghost use Rattle.miette_read_laws.specs.laws.Data.{NumbersFit, data_of};
ghost use Rattle.miette_read_laws.specs.laws.Files.{AreFindingsOver};
ghost use Rattle.miette_read_laws.specs.laws.Indexed.{IsIndexed};
ghost use Rattle.miette_read_laws.specs.laws.Kept.{fixes_kept, report_kept, parts_kept, annotations_kept};
ghost use Rattle.miette_read_laws.specs.laws.LinkEnds.{has_link_end};
ghost use Rattle.miette_read_laws.specs.laws.Links.{without_links};
ghost use Rattle.miette_read_laws.specs.laws.NamesBack.{IsPlainAddress, IsPlainName};
ghost use Rattle.miette_read_laws.specs.laws.Reading.{ReadsBack, result_data, result_log_context};
ghost use Rattle.miette_read_laws.specs.laws.RegionsBack.{lines_back, offsets_of};
ghost use Rattle.miette_read_laws.specs.laws.SameFixes.{DoTheSame};
ghost use Rattle.miette_read_laws.specs.laws.Sources.{AreFilesOf};
ghost use Rattle.miette_read_laws.specs.laws.Worked.{found, given, kept};

/// The own parts of each result are read as `parts_kept` gives them: message without links, severity, code, and the
/// rule's URL.
pub fn what_is_said_reads_back()
    ensures { (files : List ℕ → Option Source) (tool : ToolName) (fs : List Finding) → AllByRecursion (λ f.
        (help : Option (List ℕ)) → result_parts (result_log_context files tool fs f) help (result_data fs f)
        ≡ parts_kept fs help f) fs }
{}

/// The annotations of each result are read as `annotations_kept` gives them: at the same bytes, if the file is found
/// and
/// has the text over which the log was made. The same holds for whole files.
pub fn what_is_told_reads_back()
    ensures { (files : List ℕ → Option Source) (tool : ToolName) (fs : List Finding) → AreFindingsOver files fs
        → AllByRecursion (λ f. result_file_annotations (result_log_context files tool fs f) (result_data fs f)
        ≡ annotations_kept files (artifacts_in (all_named fs)) f) fs }
{}

/// The suggestions of each result are read as `fixes_kept` gives them: the same texts replace the same bytes.
pub fn what_is_proposed_reads_back()
    ensures { (files : List ℕ → Option Source) (tool : ToolName) (fs : List Finding) → AreFindingsOver files fs
        → AllByRecursion (λ f. suggestion_drafts (result_log_context files tool fs f) (result_data fs f)
        ≡ fixes_kept files (artifacts_in (all_named fs)) f) fs }
{}

/// The log of findings is read as one report for each finding, in order (`report_kept`).
pub fn logs_read_back()
    ensures { (files : List ℕ → Option Source) (tool : ToolName) (fs : List Finding) → AreFindingsOver files fs
        → sarif_trees files (data_of (log tool fs)) ≡ Some (map (report_kept files fs) fs) }
{}

/// The text of a log is parsed and read as one report for each finding, in order. The files must have the texts of the
/// reports' sources, and the log's numbers must fit in 64 bits. No contract promises the latter.
pub fn texts_of_logs_read_back()
    ensures { (files : List ℕ → Option Source) (tool : ToolName) (reports : Trees) (text : List ℕ) (value : Json)
        → IsLogOf tool reports text → Denotes text value → NumbersFit value → AreFilesOf files reports
        → ReadsBack files reports text }
{}

/// A text without `](` has no link, and is shown as it is.
pub fn texts_without_links_read_back()
    ensures { (text : List ℕ) → has_link_end text ≡ false → without_links text ≡ text }
{}

/// A severity is read as it was written. A report without one is an error.
pub fn severities_read_back()
    ensures { (severity : Option Severity) → sarif_severity (level severity) ≡ unwrap_or severity Error }
{}

/// An example, computed by the definitions.
pub fn worked_reports_read_back()
    ensures { let findings = read_findings (trees (given ∷ [])) in
        map (report_kept found findings) findings ≡ kept ∷ [] }
{}

/// The lines and columns of a label's region are read as the label's bytes, for any text.
pub fn regions_read_back()
    ensures { (bytes : List ℕ) (span : Span) (s : Stretch) → stretch_of Utf16 bytes span ≡ Some s
        → lines_back bytes s ≡ Some (offsets_of s) }
{}

/// A source's name is read as it was written, if it is a plain name (`names`), or a plain URL (`addresses`).
pub fn names_read_back()
    ensures names { (name : List ℕ) → IsPlainName name → uri_file_name (name_uri name) ≡ name }
    ensures addresses { (name : List ℕ) → IsPlainAddress name → uri_file_name (name_uri name) ≡ name }
{}

/// Every source that a log names is listed once among its artifacts, and is named with the index of its artifact.
pub fn artifacts_are_indexed()
    ensures { (names : List SourceName) → AllByRecursion (IsIndexed (artifacts_in names)) names }
{}

/// The replacements of a log, and of a fix of an editor, change a source as the fix's edits do. They can be applied in
/// any order: none overlaps another or begins at the same offset, and each ends in the source.
pub fn fixes_do_the_same()
    ensures { (bytes : List ℕ) (edits : List Replacement) (rs : List ReplacementValue) →
        applicable bytes edits ≡ Some rs → DoTheSame bytes edits rs }
{}
