//! What a fix changes, block by block: removed lines and added lines.

ghost use Rattle.std.specs.Prelude.{◌≡◌, ◌≢◌, ◌≤◌, ◌<◌, ◌+◌, ◌^◌, ◌&&◌, length, reverse, slice_range, IfOk, IfErr};
ghost use Rattle.std.specs.Prelude.{None, Some};
ghost use Rattle.miette_fixes.specs.declared.error.FixError.TheVariants.{Memory};
ghost use Rattle.miette_fixes.specs.rules.Applying.{edits_error};
ghost use Rattle.miette_fixes.specs.views.Ordered.{FitFrom, edits_of};
ghost use Rattle.miette_fix_rows.specs.rules.Blocks.{blocks, bytes_of, line_texts};
ghost use Rattle.miette_fix_rows.specs.rules.Hunks.{change_at, change_of, changes, changes_of, has_no_lines};
ghost use Rattle.miette_fix_rows.specs.rules.Hunks.{onto_changes};
ghost use Rattle.miette_fix_rows.specs.rules.Hunks.{block_diff};
ghost use Rattle.miette_fix_rows.specs.steps.Parting.{AreSizes, IsSized};
ghost use Rattle.miette_fix_rows.specs.steps.Sharing.{IsBlock};
ghost use Rattle.miette_fix_rows.specs.views.LineLists.{borrowed_lines};

use crate::blocks::{block_start, last_block};
use crate::line_lists::{Side, common, lines, total};
use miette_fixes::apply::{check_edits, splice_edits};
use miette_fixes::fix::{Edit, Fix, FixError};
use std::alloc::{AllocError, Global};
use std::marker::Model;

/// What one block of edits changes: whole lines removed from the source, and whole lines added in their place.
#[derive(Debug, Drop)]
pub struct Change<'a> {
    from: usize,
    place: usize,
    removed: &'a [u8],
    text: Vec<u8>,
    added_from: usize,
    added_to: usize,
    ghost order: { added_from ≤ added_to },
    ghost within: { added_to ≤ length text.items },
}

impl<'a> Model for Change<'a> {
    ghost use Rattle.std.specs.Prelude.{◌+◌, length, slice_range};
    ghost use Rattle.miette_fix_rows.specs.rules.Blocks.{line_texts};
    ghost use Rattle.miette_fix_rows.specs.rules.Hunks.{Change};

    ghost Value = { Change };

    ghost view = { λ it. record {
      from = it.from;
      to = it.from + length it.removed.now;
      place = it.place;
      removed = line_texts it.removed.now;
      added = line_texts (slice_range it.text.items it.added_from it.added_to);
    } };
}

// Returns whether the bytes contain no line.
fn has_no_line(bytes: &[u8]) -> bool
    ensures { result ≡ has_no_lines (line_texts bytes.now) }
{
    bytes.is_empty()
}

impl<'a> Change<'a> {
    /// The offset in the source of the first removed line. If none is removed, the offset before which lines are added.
    pub fn start(&self) -> usize
        ensures { result ≡ self.now.from }
    {
        self.from
    }

    /// The offset in the source to which the frame of this change points.
    pub fn place(&self) -> usize
        ensures { result ≡ self.now.place }
    {
        self.place
    }

    /// The removed lines with their terminators, as bytes of the source.
    pub fn removed(&self) -> &'a [u8]
        ensures lines { line_texts result.now ≡ self.now.removed }
        ensures place { self.now.from + length result.now ≡ self.now.to }
    {
        self.removed
    }

    /// The added lines with their terminators.
    pub fn added(&self) -> &[u8]
        ensures { line_texts result.now ≡ self.now.added }
    {
        &self.text[self.added_from..self.added_to]
    }

    // Returns whether no line is removed or added.
    fn is_none(&self) -> bool
        ensures { result ≡ (has_no_lines self.now.removed && has_no_lines self.now.added) }
    {
        has_no_line(self.removed()) && has_no_line(self.added())
    }
}

// The bounds of the removed lines in a block's old text, and of the added lines in its new text, in bytes.
#[derive(Clone, Copy)]
struct Sizes {
    removed_from: usize,
    removed_to: usize,
    added_from: usize,
    added_to: usize,
}

// Returns the bounds of the lines in which two lists differ, after their common end and then their common start.
fn sizes_of(olds: &[&[u8]], news: &[&[u8]]) -> Sizes
    requires old { bytes_of (borrowed_lines olds.now) < 2 ^ 64 }
    requires new { bytes_of (borrowed_lines news.now) < 2 ^ 64 }
    ensures { AreSizes (borrowed_lines olds.now) (borrowed_lines news.now) result }
{
    let after = common(Side::Back, olds, news);
    let old_kept = &olds[..olds.len() - after];
    let new_kept = &news[..news.len() - after];
    let before = common(Side::Front, old_kept, new_kept);
    Sizes {
        removed_from: total(&olds[..before]),
        removed_to: total(old_kept),
        added_from: total(&news[..before]),
        added_to: total(new_kept),
    }
}

// Returns the bounds of the lines in which two texts differ.
fn text_sizes(alloc: Global, old: &[u8], new: &[u8]) -> Result<Sizes, AllocError>
    requires old { length old.now < 2 ^ 64 }
    requires new { length new.now < 2 ^ 64 }
    ensures { IfOk result (λ it. IsSized old.now new.now it) }
{
    let olds = lines(alloc, old)?;
    let news = lines(alloc, new)?;
    Ok(sizes_of(&olds, &news))
}

// Returns the change of a block that begins at the offset `from`. `first` is the offset of its first edit, `old` and
// `text` its old and new text.
fn change_at<'a>(
    alloc: Global,
    from: usize,
    first: usize,
    old: &'a [u8],
    text: Vec<u8>,
) -> Result<Change<'a>, AllocError>
    requires { from + length old.now < 2 ^ 64 }
    ensures { IfOk result (λ it. it ≡ change_at from first (block_diff (line_texts old.now) (line_texts text.items))) }
{
    let sizes = text_sizes(alloc, old, &text)?;
    let removed = &old[sizes.removed_from..sizes.removed_to];
    let start = from + sizes.removed_from;
    Ok(Change {
        from: start,
        place: first.max(start),
        removed,
        text,
        added_from: sizes.added_from,
        added_to: sizes.added_to,
    })
}

// Returns the change of a block. `start` and `to` are the bounds of the lines its edits touch.
fn block_change<'a>(
    alloc: Global,
    source: &'a [u8],
    start: usize,
    to: usize,
    edits: &[&Edit],
) -> Result<Change<'a>, AllocError>
    requires { IsBlock source.now start to (edits_of edits.now) }
    ensures { IfOk result (λ it. it ≡ change_of source.now (edits_of edits.now)) }
{
    let from = block_start(source, start, to, edits);
    let text = splice_edits(alloc, &source[..to], from, edits)?;
    change_at(alloc, from, edits[0].offset(), &source[from..to], text)
}

// Appends a change unless it is empty. The list is in reverse order: the first change comes last.
fn with_change<'a>(
    mut list: Vec<Change<'a>>,
    change: Change<'a>,
) -> Result<Vec<Change<'a>>, AllocError>
    ensures { IfOk result (λ it. reverse it.items ≡ onto_changes change.entry (reverse list.entry.items)) }
{
    if change.is_none() {
        return Ok(list);
    }
    list.push(change)?;
    Ok(list)
}

// Returns the changes made by edits that are in order.
fn ordered_changes<'a>(
    alloc: Global,
    source: &'a [u8],
    edits: &[&Edit],
) -> Result<Vec<Change<'a>>, AllocError>
    requires { FitFrom (length source.now) 0 (edits_of edits.now) }
    ensures { IfOk result (λ made. made.items ≡ changes_of source.now (blocks source.now (edits_of edits.now))) }
{
    let mut list = Vec::new(alloc);
    let mut high = edits.len();
    while high > 0 {
        let block = last_block(source, &edits[..high]);
        let change = block_change(
            alloc,
            source,
            block.start,
            block.to,
            &edits[block.low..high],
        )?;
        list = with_change(list, change)?;
        high = block.low;
    }
    list.reverse();
    Ok(list)
}

/// Returns what a fix changes in a source, block by block. Edits that share a line form a block. Lines that its old and
/// new text have in common at the end, and then at the start, are left out. The time is linear in the size of the
/// blocks.
///
/// # Errors
/// - `OutOfBounds` if an edit ends after the end of the source
/// - `Overlap` if two edits overlap
/// - `Memory` if allocation fails
pub fn changes<'a>(alloc: Global, source: &'a [u8], fix: &Fix) -> Result<Vec<Change<'a>>, FixError>
    ensures ok { IfOk result (λ made.
        (edits_error (length source.now) fix.now.edits ≡ None) × (made.items ≡ changes source.now fix.now.edits)) }
    ensures refused { IfErr result (λ e. e ≢ Memory → edits_error (length source.now) fix.now.edits ≡ Some e) }
{
    let list = check_edits(alloc, source.len(), fix.edits())?;
    Ok(ordered_changes(alloc, source, &list)?)
}
