//! Theorems about applied fixes. The functions do nothing; their contracts are the theorems.

ghost use Rattle.std.specs.Prelude.{◌≡◌, ◌≢◌, ◌⊎◌, ℕ, ◌+◌, ◌<◌, List, [], ◌∷◌, ◌++◌, length, slice_get, slice_index_or};
ghost use Rattle.std.specs.Prelude.{slice_range, take, None, Some, false, true};
ghost use Rattle.std.specs.List.Sorted.{IsPermutation};
ghost use Rattle.std.specs.List.{list_any};
ghost use Rattle.miette_fixes.specs.declared.error.FixError.TheVariants.{OutOfBounds, Overlap};
ghost use Rattle.miette_fixes.specs.laws.Conflicts.{NoTwoConflict};
ghost use Rattle.miette_fixes.specs.laws.Errors.{AreOverlapping, EndsOutside};
ghost use Rattle.miette_fixes.specs.laws.Places.{IsInserted, IsSourceByte, deleted, inserted, is_covered};
ghost use Rattle.miette_fixes.specs.laws.Places.{shifted_offset, edit_text_start};
ghost use Rattle.miette_fixes.specs.rules.Applying.{applied, by_offset, edits_error};
ghost use Rattle.miette_fixes.specs.rules.ApplyingAll.{all_applied, all_edits, counted, some_conflict, taken};
ghost use Rattle.miette_fixes.specs.rules.Edits.{Replacement, ends_after, some_overlap};

/// For valid edits:
///
/// - The length of the text is the source's length, less what is deleted, plus what is inserted.
/// - A byte outside all edits stays, in order, shifted by what was inserted and deleted before it.
/// - The text of each edit is where its span began, shifted by the edits before it.
/// - The text contains nothing else.
/// - No edits leave the source unchanged.
pub fn applied_laws()
    ensures lengths { (source : List ℕ) (edits : List Replacement) → edits_error (length source) edits ≡ None →
        length (applied source edits) + deleted edits ≡ length source + inserted edits }
    ensures outside { (source : List ℕ) (edits : List Replacement) (at : ℕ) → edits_error (length source) edits ≡ None →
        at < length source → is_covered at edits ≡ false →
        slice_get (applied source edits) (shifted_offset edits at) ≡ slice_get source at }
    ensures order { (source : List ℕ) (edits : List Replacement) (at next : ℕ) →
        edits_error (length source) edits ≡ None → at < next → is_covered at edits ≡ false →
        is_covered next edits ≡ false → shifted_offset edits at < shifted_offset edits next }
    ensures texts { (source : List ℕ) (edits before : List Replacement) (edit : Replacement)
        (after : List Replacement) → edits_error (length source) edits ≡ None →
        by_offset edits ≡ before ++ edit ∷ after → slice_range (applied source edits) (edit_text_start before edit)
        (edit_text_start before edit + length edit.text) ≡ edit.text }
    ensures whole { (source : List ℕ) (edits : List Replacement) (at : ℕ) → edits_error (length source) edits ≡ None →
        at < length (applied source edits) → IsSourceByte source edits at ⊎ IsInserted edits at }
    ensures nothing { (source : List ℕ) → applied source [] ≡ source }
{}

/// The error of edits that can't be applied names edits that are wrong:
///
/// - `OutOfBounds`: the first edit that ends after the end of the source.
/// - `Overlap`: two different edits that overlap, the one that sorts first before the other.
/// - No error: no edit ends after the end of the source, and no two overlap.
pub fn edits_error_laws()
    ensures outside { (n : ℕ) (edits : List Replacement) (edit : ℕ) →
        edits_error n edits ≡ Some (OutOfBounds edit) → EndsOutside n edits edit }
    ensures overlap { (n : ℕ) (edits : List Replacement) (first second : ℕ) →
        edits_error n edits ≡ Some (Overlap first second) → AreOverlapping edits first second }
    ensures valid { (n : ℕ) (edits : List Replacement) → edits_error n edits ≡ None →
        (list_any (ends_after n) edits ≡ false) × (some_overlap edits ≡ false) }
{}

/// For several fixes:
///
/// - A fix that isn't applied is invalid by itself, or conflicts with edits applied before it.
/// - The applied edits are valid together.
/// - Swapping two neighbouring fixes that don't conflict doesn't change the text.
pub fn all_applied_laws()
    ensures maximal { (n : ℕ) (fixes : List (List Replacement)) (k : ℕ) → k < length fixes →
        slice_get (taken n [] fixes) k ≡ Some false →
        (edits_error n (slice_index_or fixes k []) ≢ None)
        ⊎ (some_conflict (slice_index_or fixes k []) (all_edits (counted n [] (take k fixes))) ≡ true) }
    ensures together { (n : ℕ) (fixes : List (List Replacement)) →
        edits_error n (all_edits (counted n [] fixes)) ≡ None }
    ensures order { (source : List ℕ) (before after : List (List Replacement)) (edits next : List Replacement) →
        some_conflict edits next ≡ false →
        applied source (all_edits (before ++ edits ∷ next ∷ after))
        ≡ applied source (all_edits (before ++ next ∷ edits ∷ after)) }
{}

/// For several fixes: two applied fixes have the same edits, or no edit of one conflicts with an edit of the other.
/// Applied fixes give the same text in any order. So do any fixes that don't conflict.
pub fn any_order_laws()
    ensures taken { (n : ℕ) (fixes : List (List Replacement)) (i j : ℕ) → i < j → j < length fixes →
        slice_get (taken n [] fixes) i ≡ Some true → slice_get (taken n [] fixes) j ≡ Some true →
        (slice_index_or fixes i [] ≡ slice_index_or fixes j [])
        ⊎ (some_conflict (slice_index_or fixes i []) (slice_index_or fixes j []) ≡ false) }
    ensures counted { (n : ℕ) (fixes : List (List Replacement)) → NoTwoConflict (counted n [] fixes) }
    ensures order { (source : List ℕ) (fixes others : List (List Replacement)) → NoTwoConflict fixes →
        IsPermutation fixes others → applied source (all_edits others) ≡ applied source (all_edits fixes) }
    ensures text { (source : List ℕ) (fixes others : List (List Replacement)) →
        IsPermutation (counted (length source) [] fixes) others →
        applied source (all_edits others) ≡ all_applied source fixes }
{}
