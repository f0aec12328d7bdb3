//! Theorems about what a fix changes. Each function does nothing: its contract is the theorem.

ghost use Rattle.std.specs.Prelude.{◌≡◌, ℕ, List, None, false, length, map, slice_range};
ghost use Rattle.std.specs.List.{AllByRecursion};
ghost use Rattle.miette_lines.specs.rules.Lines.{lines_of};
ghost use Rattle.miette_fixes.specs.rules.Applying.{applied, edits_error};
ghost use Rattle.miette_fixes.specs.rules.Edits.{Replacement};
ghost use Rattle.miette_fix_rows.specs.laws.Frames.{StandAmong, all_lines, at_start, new_texts, old_texts};
ghost use Rattle.miette_fix_rows.specs.laws.Whole.{IsTrimmedChange, all_bytes};
ghost use Rattle.miette_fix_rows.specs.rules.Blocks.{line_texts};
ghost use Rattle.miette_fix_rows.specs.rules.DiffFrames.{frames_of};
ghost use Rattle.miette_fix_rows.specs.rules.Hunks.{Diff, changes, diff, lines_after, lines_before};

/// The removed and the added lines of a change have no common line at their start or end. They are lines of the source,
/// with their terminators.
#[tactic(auto, using(crate::proofs::Seams::texts_are_lines, crate::proofs::Trimmed::all_trimmed))]
pub fn changes_are_trimmed()
    ensures trimmed { (source : List ℕ) → (edits : List Replacement) →
        AllByRecursion IsTrimmedChange (changes source edits) }
    ensures lines { (source : List ℕ) →
        line_texts source ≡ map (λ line. slice_range source line.start line.end) (lines_of source) }
{}

/// The removed and unchanged lines of a diff, in order, are exactly the lines of the source.
#[tactic(auto, using(crate::proofs::Sources::source_lines))]
pub fn a_diff_has_the_source()
    ensures source { (source : List ℕ) → (edits : List Replacement) → edits_error (length source) edits ≡ None →
        lines_before (diff source edits) ≡ line_texts source }
{}

/// The added and unchanged lines of a diff, in order, are exactly the lines of the applied text. The bytes of the lines
/// are those of the text.
#[tactic(auto, using(crate::proofs::Applied::bytes_of_lines, crate::proofs::AppliedLines::applied_lines))]
pub fn a_diff_has_the_applied_text()
    ensures applied { (source : List ℕ) → (edits : List Replacement) → edits_error (length source) edits ≡ None →
        lines_after (diff source edits) ≡ line_texts (applied source edits) }
    ensures bytes { (bytes : List ℕ) → all_bytes (line_texts bytes) ≡ bytes }
{}

/// The shown frames are in order among all lines of a diff, and none appears twice (`frames`). Only unchanged lines are
/// left out, and at least one between two frames. A frame's line numbers count all lines before it. All lines of the
/// diff are those of the source before the edits (`before`) and of the applied text after them (`after`).
#[tactic(auto, using(crate::proofs::Frames::stand, crate::proofs::Frames::old_lines, crate::proofs::Frames::new_lines))]
pub fn frames_stand_in_a_diff()
    ensures frames { (context : ℕ) → (d : Diff) →
        StandAmong false at_start (frames_of context d) (all_lines d) }
    ensures before { (d : Diff) → old_texts (all_lines d) ≡ lines_before d }
    ensures after { (d : Diff) → new_texts (all_lines d) ≡ lines_after d }
{}
