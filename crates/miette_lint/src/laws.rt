//! Theorems about the proposed fixes. Each is the contract of an empty function: call the function to use it.

ghost use Rattle.std.specs.Prelude.{◌≡◌, ℕ, ◌+◌, List, [], None, length, map, true};
ghost use Rattle.miette_fixes.specs.rules.Applying.{applied, edits_error};
ghost use Rattle.miette_fixes.specs.rules.ApplyingAll.{all_applied, taken};
ghost use Rattle.miette_lint.specs.rules.FindingWithFixes.{FindingWithFixes, coded_findings};
ghost use Rattle.miette_lint.specs.rules.Findings.{findings_of};
ghost use Rattle.miette_lint.specs.rules.Fixes.{fixed_text, proposals_of, wide_lines};
ghost use Rattle.miette_lint.specs.rules.Combined.{combined_proposal, mended_count};

/// For every source, the fixed text has no findings except lines that are too wide, and no proposed fixes. Fixing it
/// again changes nothing. It is the result of applying all proposed fixes, and none is left out.
pub fn lint_fixed_text_laws()
    ensures clean { (source : List ℕ) (width : ℕ) → findings_of (fixed_text source) width
        ≡ wide_lines (fixed_text source) width }
    ensures settled { (source : List ℕ) → proposals_of (fixed_text source) ≡ [] }
    ensures again { (source : List ℕ) → fixed_text (fixed_text source) ≡ fixed_text source }
    ensures applied { (source : List ℕ) → all_applied source (map (λ fix. fix.edits) (proposals_of source))
        ≡ fixed_text source }
    ensures taken { (source : List ℕ) → taken (length source) [] (map (λ fix. fix.edits) (proposals_of source))
        ≡ map (λ fix. true) (proposals_of source) }
{}

/// For every source, the combined fix can be applied and gives the fixed text. The number in its title and the findings
/// of the fixed text add up to the findings of the source.
pub fn lint_combined_fix_laws()
    ensures accepted { (source : List ℕ) (width : ℕ) →
        edits_error (length source) (combined_proposal source width).edits ≡ None }
    ensures applied { (source : List ℕ) (width : ℕ) → applied source (combined_proposal source width).edits
        ≡ fixed_text source }
    ensures counts { (source : List ℕ) (width : ℕ) →
        mended_count source width + length (findings_of (fixed_text source) width)
        ≡ length (findings_of source width) }
{}

/// For every source, the labels of the findings with codes are the findings.
pub fn lint_finding_laws()
    ensures labels { (source : List ℕ) (width : ℕ) → map (λ (it : FindingWithFixes). it.label)
        (coded_findings source width)
        ≡ findings_of source width }
{}
