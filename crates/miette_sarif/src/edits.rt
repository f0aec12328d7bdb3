//! Converts the edits of a fix to SARIF replacements. Edits are widened to whole characters and line terminators, and
//! joined if they touch.

ghost use Rattle.std.specs.Prelude.{◌≡◌, ◌++◌, ◌∷◌, ◌&&◌, List, None, Some, IfOk, OnOk, length, map, is_none};
ghost use Rattle.std.specs.Prelude.{if◌then◌else◌, slice_range};
ghost use Rattle.std.specs.Option.{option_map};
ghost use Rattle.std.specs.List.{list_all};
ghost use Rattle.std.specs.Str.{is_utf8};
ghost use Rattle.miette_fixes.specs.rules.Edits.{Replacement as Edited, end_of};
ghost use Rattle.miette_fixes.specs.views.Ordered.{edits_of};
ghost use Rattle.miette_sarif.specs.rules.Proposals.{applicable, later_end, meets, proposal_over, widened};
ghost use Rattle.miette_sarif.specs.steps.Drafts.{begun, drafts, drafts_from, finished, finished_one, made_of};
ghost use Rattle.miette_sarif.specs.steps.Drafts.{with_edit};
ghost use Rattle.miette_sarif.specs.views.DraftValue.{draft_of};
ghost use Rattle.miette_sarif.specs.views.Findings.{applicable_fix_of, replacement_value_of};
ghost use Rattle.miette_sarif.specs.views.Sources.{over_of};

use crate::finding::{Proposal, Replacement};
use crate::snapshots::SourceSnapshot;
use crate::whole::{WholeText, between};
use miette_fixes::apply::check_edits;
use miette_fixes::fix::{Edit, Fix, FixError};
use miette_lines::sums::sum;
use miette_positions::position::Stretch;
use std::alloc::{AllocError, Global};

// A replacement under construction. `text` has the source up to the offset `reached`.
#[derive(Drop)]
struct Draft {
    deleted: Stretch,
    text: Vec<u8>,
    reached: usize,
}

// End offset of an edit.
fn end_of(edit: &Edit) -> Result<usize, AllocError>
    ensures { IfOk result (λ end. end ≡ end_of edit.now) }
{
    sum(edit.offset(), edit.len())
}

// Range of an edit, widened to whole characters and line terminators.
fn widened(text: &WholeText<'_>, edit: &Edit) -> Result<Stretch, AllocError>
    ensures { IfOk result (λ it. it ≡ widened text.now edit.now) }
{
    let end = end_of(edit)?;
    Ok(Stretch {
        start: text.stop_before(edit.offset()),
        end: text.stop_after(end),
    })
}

// Whether a range overlaps the one before it, or begins at the same offset.
fn meets(before: Stretch, stretch: Stretch) -> bool
    ensures { result ≡ meets before stretch }
{
    stretch.start.offset < before.end.offset || stretch.start.offset == before.start.offset
}

// Extends a range to the end of another one, if that ends later.
fn later_end(before: Stretch, stretch: Stretch) -> Stretch
    ensures { result ≡ later_end before stretch }
{
    if before.end.offset < stretch.end.offset {
        Stretch {
            start: before.start,
            end: stretch.end,
        }
    } else {
        before
    }
}

// Appends the source from `from` up to an edit, and the edit's text.
fn push_edit(text: &mut Vec<u8>, bytes: &[u8], from: usize, edit: &Edit) -> Result<(), AllocError>
    ensures { OnOk result (text.new.items
        ≡ text.old.items ++ slice_range bytes.now from edit.now.span.offset ++ edit.now.text) }
{
    text.extend_from_slice(between(bytes, from, edit.offset()))?;
    text.extend_from_slice(edit.text().as_bytes())
}

// Starts a draft with one edit.
fn begun(alloc: Global, bytes: &[u8], deleted: Stretch, edit: &Edit) -> Result<Draft, AllocError>
    ensures { IfOk result (λ it. draft_of it ≡ begun bytes.now deleted edit.now) }
{
    let reached = end_of(edit)?;
    let mut text = Vec::new(alloc);
    push_edit(&mut text, bytes, deleted.start.offset, edit)?;
    Ok(Draft {
        deleted,
        text,
        reached,
    })
}

// Adds an edit to a draft.
fn with_edit(draft: Draft, bytes: &[u8], stretch: Stretch, edit: &Edit) -> Result<Draft, AllocError>
    ensures { IfOk result (λ it. draft_of it ≡ with_edit bytes.now stretch (draft_of draft) edit.now) }
{
    let end = end_of(edit)?;
    let Draft {
        deleted,
        mut text,
        reached,
    } = draft;
    push_edit(&mut text, bytes, reached, edit)?;
    Ok(Draft {
        deleted: later_end(deleted, stretch),
        text,
        reached: end,
    })
}

// Adds an edit to the draft before it, if they touch. Else moves that draft to `done` and starts a new one.
fn next_draft(
    done: &mut Vec<Draft>,
    alloc: Global,
    text: &WholeText<'_>,
    before: Draft,
    edit: &Edit,
) -> Result<Draft, AllocError>
    ensures { IfOk result (λ it. (more : List Edited)
        → map draft_of done.new.items ++ drafts_from text.now (draft_of it) more
        ≡ map draft_of done.old.items ++ drafts_from text.now (draft_of before) (edit.now ∷ more)) }
{
    let stretch = widened(text, edit)?;
    if meets(before.deleted, stretch) {
        return with_edit(before, text.bytes(), stretch, edit);
    }
    done.push(before)?;
    begun(alloc, text.bytes(), stretch, edit)
}

// Appends the drafts of edits sorted by offset. Edits that touch share a draft.
fn push_drafts(
    done: &mut Vec<Draft>,
    alloc: Global,
    text: &WholeText<'_>,
    first: &Edit,
    rest: &[&Edit],
) -> Result<(), AllocError>
    ensures { OnOk result (map draft_of done.new.items
        ≡ map draft_of done.old.items ++ drafts text.now (first.now ∷ edits_of rest.now)) }
{
    let mut before = begun(alloc, text.bytes(), widened(text, first)?, first)?;
    for edit in rest {
        before = next_draft(done, alloc, text, before, edit)?;
    }
    done.push(before)?;
    Ok(())
}

// Returns the drafts of edits sorted by offset.
fn drafts(alloc: Global, text: &WholeText<'_>, edits: &[&Edit]) -> Result<Vec<Draft>, AllocError>
    ensures { IfOk result (λ list. map draft_of list.items ≡ drafts text.now (edits_of edits.now)) }
{
    let mut done = Vec::new(alloc);
    let Some((first, rest)) = edits.split_first() else {
        return Ok(done);
    };
    push_drafts(&mut done, alloc, text, first, rest)?;
    Ok(done)
}

// Finishes a draft. Returns `None` if its text is not UTF-8.
fn finished(draft: Draft, bytes: &[u8]) -> Result<Option<Replacement>, AllocError>
    ensures { IfOk result (λ made. option_map replacement_value_of made
        ≡ finished_one (finished bytes.now (draft_of draft))) }
{
    let Draft {
        deleted,
        mut text,
        reached,
    } = draft;
    text.extend_from_slice(between(bytes, reached, deleted.end.offset))?;
    match String::from_utf8(text) {
        Ok(text) => Ok(Some(Replacement { deleted, text })),
        Err(_) => Ok(None),
    }
}

// Finishes all drafts. Returns `None` if the text of one is not UTF-8.
fn replacements(
    alloc: Global,
    bytes: &[u8],
    drafts: Vec<Draft>,
) -> Result<Option<Vec<Replacement>>, AllocError>
    ensures { IfOk result (λ made. option_map (λ list. map replacement_value_of list.items) made
        ≡ made_of bytes.now (map draft_of drafts.items)) }
{
    let mut list = Vec::with_capacity(alloc, drafts.len())?;
    for draft in drafts {
        match finished(draft, bytes)? {
            Some(replacement) => list.push(replacement)?,
            None => return Ok(None),
        }
    }
    Ok(Some(list))
}

// Returns the replacements of edits. Returns `None` if they can't be applied or if a text is not UTF-8.
fn applicable(
    alloc: Global,
    text: &WholeText<'_>,
    edits: &[Edit],
) -> Result<Option<Vec<Replacement>>, AllocError>
    ensures { IfOk result (λ made. option_map (λ list. map replacement_value_of list.items) made
        ≡ applicable text.now edits.now) }
{
    match check_edits(alloc, text.bytes().len(), edits) {
        Ok(list) => replacements(alloc, text.bytes(), drafts(alloc, text, &list)?),
        Err(FixError::Memory) => Err(AllocError),
        Err(FixError::OutOfBounds { .. }) => Ok(None),
        Err(FixError::Overlap { .. }) => Ok(None),
    }
}

/// Returns a fix as a log has it. Returns `None` if the fix has no edits, if they can't be applied, or if the text of a
/// replacement is not UTF-8.
pub(crate) fn proposal_over<'a>(
    alloc: Global,
    fix: &'a Fix,
    seen: Option<&SourceSnapshot<'a>>,
) -> Result<Option<Proposal<'a>>, AllocError>
    ensures { IfOk result (λ made. option_map applicable_fix_of made ≡ proposal_over (over_of seen.entry) fix.now) }
{
    let Some(seen) = seen else {
        return Ok(None);
    };
    let Some(text) = &seen.text else {
        return Ok(None);
    };
    if fix.edits().is_empty() {
        return Ok(None);
    }
    let Some(replacements) = applicable(alloc, text, fix.edits())? else {
        return Ok(None);
    };
    Ok(Some(Proposal {
        message: fix.message(),
        applicability: fix.applicability(),
        source: seen.source,
        replacements,
    }))
}
