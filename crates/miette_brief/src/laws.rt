//! Theorems about all brief reports. Each theorem is the contract of an empty function: call the function to use it.

ghost use Rattle.std.specs.Prelude.{◌≡◌, ◌<◌, ◌^◌, ◌++◌, ℕ, Bool, List, length, Option, Some, None, IfSome, true};
ghost use Rattle.miette_protocol.specs.rules.Reading.{Source};
ghost use Rattle.std.specs.List.{All};
ghost use Rattle.miette_tree.specs.rules.Tree.{Tree};
ghost use Rattle.miette_tree.specs.rules.Reads.{AlwaysReads};
ghost use Rattle.miette_tree.specs.views.Handler.{AppendsOne};
ghost use Rattle.miette_brief.specs.declared.form.BriefForm.TheVariants.{Gcc, Github};
ghost use Rattle.miette_brief.specs.rules.Rows.{TextRow, one_line_text, text_row_text};
ghost use Rattle.miette_brief.specs.rules.FixIts.{FixIt, fix_it_text};
ghost use Rattle.miette_brief.specs.rules.Report.{BriefSettings, Answers, brief, report_commands, unlisted};
ghost use Rattle.miette_brief.specs.rules.PossibleAnswers.{IsBrief};
ghost use Rattle.miette_brief.specs.rules.BriefSources.{BriefSourcesRead};
ghost use Rattle.miette_brief.specs.laws.Parts.{parts, IsRows, HasEachPart};
ghost use Rattle.miette_brief.specs.laws.CommandBack.{AreCommands, diagnostics_in};
ghost use Rattle.miette_brief.specs.laws.EditBack.{ReadsEdit};
ghost use Rattle.miette_brief.specs.laws.ReadBack.{has_no_colon, ReadsBack, position_first};

/// In GCC's format a report has exactly one line for each of its parts. The parts are its message, its labels with a
/// text, its causes if they are printed, its help, its fixes, and the parts of each related report. A fix has a line
/// for each edit, or one for the reason why it can't be applied. No line is empty or has a control character, and each
/// ends with LF.
pub fn each_part_has_one_brief_row()
    ensures rows { (s : BriefSettings) (t : Tree) (a : Answers) → s.form ≡ Gcc →
        IsRows (parts s.cause_chain t a) (brief s t a) }
    ensures given { (s : BriefSettings) (t : Tree) (text : List ℕ) → s.form ≡ Gcc → IsBrief s t text →
        HasEachPart s.cause_chain t text }
{}

/// In GitHub's format a report has exactly one line for itself and one for each related report. Each command can be
/// read back from its line: its name, its properties and its message.
pub fn each_diagnostic_has_one_github_command()
    ensures read { (s : BriefSettings) (t : Tree) (a : Answers) → s.form ≡ Github →
        AreCommands (report_commands s.cause_chain None a t) (brief s t a) }
    ensures many { (chain : Bool) (inherited : Option Source) (t : Tree) (a : Answers) →
        length (report_commands chain inherited a t) ≡ diagnostics_in t }
{}

/// The location can be read back from a line whose source name has no colon, except from an edit's line. The name
/// stands before the first colon. The line and the column follow it, each up to the next colon. A space follows instead
/// if there is no position.
pub fn a_brief_location_reads_back()
    ensures { (row : TextRow) (name : List ℕ) → row.place.name ≡ Some name → has_no_colon (one_line_text name) ≡ true →
        IfSome row.place.position (λ at. (at.line < 2 ^ 64) × (at.column < 2 ^ 64)) →
        ReadsBack (one_line_text name) row.place.position (text_row_text row) }
{}

/// The position can be read back from a line without a name. The line number stands before the first colon, and the
/// column before the next one. Without a position the line doesn't begin with a digit.
pub fn a_nameless_brief_location_reads_back()
    ensures { (row : TextRow) → row.place.name ≡ None →
        IfSome row.place.position (λ at. (at.line < 2 ^ 64) × (at.column < 2 ^ 64)) →
        position_first (text_row_text row) ≡ row.place.position }
{}

/// The edit can be read back from its line: the name of its source (empty if it has none), its range, and its text.
pub fn a_fix_it_reads_back()
    ensures { (it : FixIt) → IfSome it.name (All (λ b. b < 256)) → All (λ b. b < 256) it.text →
        (it.start.line < 2 ^ 64) × (it.start.column < 2 ^ 64) → (it.end.line < 2 ^ 64) × (it.end.column < 2 ^ 64) →
        ReadsEdit it (fix_it_text it) }
{}

/// If every source of a report always reads, the report has exactly one brief text. `ReportHandler::debug` then appends
/// that text. It is enough that the sources that are read for the text always read (`BriefSourcesRead`): for a cause
/// that is
/// the source of its primary label, and reports related to a cause are not read.
pub fn brief_report_has_one_text()
    ensures text { (s : BriefSettings) (t : Tree) (text : List ℕ) → IsBrief s t text → AlwaysReads t →
        text ≡ brief s t unlisted }
    ensures appended { (s : BriefSettings) (t : Tree) (old new : List ℕ) → AppendsOne (IsBrief s t) old new →
        AlwaysReads t → new ≡ old ++ brief s t unlisted }
    ensures told { (s : BriefSettings) (t : Tree) (old new : List ℕ) → AppendsOne (IsBrief s t) old new →
        BriefSourcesRead None t → new ≡ old ++ brief s t unlisted }
    ensures fewer { (t : Tree) → AlwaysReads t → BriefSourcesRead None t }
{}
