//! Theorems on the reports of any tool's messages: where labels, texts and suggestions are.
//! Each theorem is the contract of a function with an empty body. Call the function to use its theorem.

ghost use Rattle.std.specs.Prelude.{◌≡◌, ℕ, List, Option, Some, None, codes};
ghost use Rattle.std.specs.List.{AllByRecursion, Contains};
ghost use Rattle.serde_json.specs.Data.{Data};
ghost use Rattle.miette_protocol.specs.rules.Reading.{Source};
ghost use Rattle.miette_read.specs.laws.Apart.{IsApartList};
ghost use Rattle.miette_read.specs.laws.Applying.{AllFixesApply, AreFound};
ghost use Rattle.miette_read.specs.laws.Lists.{label_sections};
ghost use Rattle.miette_read.specs.laws.Proposed.{IsOfFile, IsSuggested};
ghost use Rattle.miette_read.specs.laws.RustcTexts.{IsTextInReport, texts_of};
ghost use Rattle.miette_read.specs.laws.Shown.{IsAnnotationShown};
ghost use Rattle.miette_read.specs.laws.MessageTexts.{HasMessageParts};
ghost use Rattle.miette_read.specs.rules.Kept.{IsPartOf};
ghost use Rattle.miette_read.specs.rules.Members.{member_objects};
ghost use Rattle.miette_read.specs.rules.Places.{ToolLocation, ByteRange, Annotation, join_rows, tool_location_text};
ghost use Rattle.miette_read.specs.rules.SuggestedFixes.{FileEdit, Suggestion};
ghost use Rattle.miette_read.specs.rules.Reports.{MessageParts, report_tree};
ghost use Rattle.miette_read.specs.rules.Rustc.{Build, message_of};
ghost use Rattle.miette_read.specs.rules.RustcReport.{message_tree, child_suggestion, quoted, short_texts};
ghost use Rattle.miette_read.specs.rules.AnnotationLabels.{file_range, label_lists};
ghost use Rattle.miette_tree.specs.rules.Tree.{causes_of, cause_of, head};

/// Labels of one list never clash: no byte is covered by two labels that are each on one line. Underlines never
/// displace each other.
pub fn labels_never_clash()
    ensures { (files : List ℕ → Option Source) (said : MessageParts) (told : List Annotation) (offers : List Suggestion)
        → AllByRecursion IsApartList (label_sections (report_tree said (label_lists files told) offers)) }
{}

/// The report has the message, code, severity, help and URL of the tool's message.
pub fn own_words_stay()
    ensures { (files : List ℕ → Option Source) (said : MessageParts) (told : List Annotation) (offers : List Suggestion)
        → HasMessageParts said (head (report_tree said (label_lists files told) offers)) }
{}

/// Every annotation is in the report.
///
/// - `found`: if its location is in its file, a label over exactly these bytes has its lines. If it has no lines, some
///   label contains these bytes.
/// - `missed`: at any other location, it is a cause text after the location's name, line and column.
/// - `placeless`: without a location, it is a cause text.
pub fn places_are_shown()
    ensures found { (files : List ℕ → Option Source) (said : MessageParts) (told : List Annotation)
        (offers : List Suggestion)
        (t : Annotation) (p : ToolLocation) (it : Source × ByteRange)
        → Contains told t → t.place ≡ Some p → file_range files p ≡ Some it
        → IsAnnotationShown it t (report_tree said (label_lists files told) offers) }
    ensures missed { (files : List ℕ → Option Source) (said : MessageParts) (told : List Annotation)
        (offers : List Suggestion)
        (t : Annotation) (p : ToolLocation)
        → Contains told t → t.place ≡ Some p → file_range files p ≡ None
        → Contains (causes_of (cause_of (report_tree said (label_lists files told) offers)))
        (tool_location_text p t.rows) }
    ensures placeless { (files : List ℕ → Option Source) (said : MessageParts) (told : List Annotation)
        (offers : List Suggestion)
        (t : Annotation) (text : List ℕ)
        → Contains told t → t.place ≡ None → join_rows t.rows ≡ Some text
        → Contains (causes_of (cause_of (report_tree said (label_lists files told) offers))) text }
{}

/// Every suggested edit is in a fix with the suggestion's message over the report's source, or in related advice over
/// the edit's file. This assumes that the suggestion's files are those that are found.
pub fn edits_are_proposed()
    ensures { (files : List ℕ → Option Source) (said : MessageParts) (told : List Annotation) (offers : List Suggestion)
        (offer : Suggestion) (e : FileEdit)
        → Contains offers offer → AllByRecursion (IsOfFile files) offer.edits → Contains offer.edits e
        → IsSuggested offer e (report_tree said (label_lists files told) offers) }
{}

/// If every suggested edit is in bounds of its file, all fixes of the report and of its related advice can be applied.
pub fn fixes_can_be_applied()
    ensures { (files : List ℕ → Option Source) (said : MessageParts) (told : List Annotation) (offers : List Suggestion)
        → AllByRecursion (AreFound files) offers → AllFixesApply (report_tree said (label_lists files told) offers) }
{}

/// All fixes of a rustc message and of its related advice can be applied.
pub fn rustc_fixes_can_be_applied()
    ensures { (build : Build) (d : Data) → AllFixesApply (message_tree build d) }
{}

/// The texts of a rustc diagnostic are in its report.
///
/// - `message`: the message is the report's.
/// - `texts`: so are the labels of spans, the messages of notes, helps and suggestions, and the labels of their spans.
/// - `written`: if a location of a suggestion isn't found, the help has each replacement that fits on a line.
pub fn rustc_texts_stand()
    ensures message { (build : Build) (d : Data) → (head (message_tree build d)).message ≡ message_of d }
    ensures texts { (build : Build) (d : Data)
        → AllByRecursion (IsTextInReport (message_tree build d)) (texts_of d) }
    ensures written { (build : Build) (d c : Data) (text : List ℕ)
        → Contains (member_objects (codes "children") d) c → child_suggestion build.files c ≡ None
        → Contains (short_texts c) text → IsPartOf (quoted text) (head (message_tree build d)).help }
{}
