//! Theorems about frames and quick fixes. Each is the contract of an empty function: call the function to use it.

ghost use Rattle.std.specs.Prelude.{◌≡◌, ◌<◌, ◌^◌, ◌++◌, ℕ, List, Some, length};
ghost use Rattle.std.specs.List.{AllByRecursion};
ghost use Rattle.miette_lint.specs.rules.FindingWithFixes.{coded_findings};
ghost use Rattle.miette_lint.specs.rules.Combined.{combined_proposal};
ghost use Rattle.miette_language_server.specs.rules.Actions.{HasItsPart, HasItsParts};
ghost use Rattle.miette_language_server.specs.rules.Frames.{first_frame, framed};

/// Reading a frame returns the body that was written, and leaves the bytes after the frame.
pub fn lsp_frame_laws()
    ensures back { (body rest : List ℕ) → length body < 2 ^ 64 →
        first_frame (framed body ++ rest) ≡ Some (record { body = body; rest = rest }) }
{}

/// For every document, the quick fixes make the client change what `lint --fix` changes. No edit is rounded to
/// positions: its range covers exactly the bytes that the edit replaces.
pub fn quick_fix_laws()
    // the combined fix of all findings
    ensures joint { (text : List ℕ) (width : ℕ) → AllByRecursion (HasItsPart text) (combined_proposal text width).edits }
    // each single fix
    ensures own { (text : List ℕ) (width : ℕ) → AllByRecursion
        (λ it. AllByRecursion (HasItsParts text) it.fixes) (coded_findings text width) }
{}
