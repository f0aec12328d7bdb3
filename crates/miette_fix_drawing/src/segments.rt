//! Segments: consecutive lines of a frame that are all unchanged, removed or added.

ghost use Rattle.std.specs.Prelude.{◌≡◌, ◌<◌, length, max, option_copied, [], None, IfOk, IfSome, OnOk};
ghost use Rattle.std.specs.Option.{option_map};
ghost use Rattle.miette_style.specs.views.Printouts.{◌⊕◌};
ghost use Rattle.miette_style.specs.views.Tokens.{rows_tokens};
ghost use Rattle.miette_fix_rows.specs.rules.Blocks.{line_texts};
ghost use Rattle.miette_fix_rows.specs.rules.DiffRows.{added_beside, added_line, largest_number, number_of, past};
ghost use Rattle.miette_fix_rows.specs.rules.DiffRows.{removed_beside, removed_line, rows_of_diff_line};
ghost use Rattle.miette_fix_rows.specs.rules.DiffRows.{rows_of_diff_lines};
ghost use Rattle.miette_fix_rows.specs.rules.DiffFrames.{paired_line};
ghost use Rattle.miette_fix_drawing.specs.views.ChangedLines.{IsReadable, changed_line_of};
ghost use Rattle.miette_fix_rows.specs.laws.Frames.{past_lines};
ghost use Rattle.miette_fix_drawing.specs.steps.Spans.{AreApart};
ghost use Rattle.miette_fix_drawing.specs.views.Contexts.{context_with};
ghost use Rattle.miette_fix_drawing.specs.views.ShownLines.{LineFits, line_of_shown, lines_of_segment, shown_before};
ghost use Rattle.miette_fix_drawing.specs.views.ShownLines.{away_after, away_past, paired_line_of, text_before};
ghost use Rattle.miette_fix_drawing.specs.views.DiffPositions.{diff_position_of};

use crate::changed_line::ChangedLine;
use crate::changed_rows::push_changed_rows;
use crate::diff_position::DiffPosition;
use crate::kept_row::push_kept_row;
use crate::line_starts::PushResult;
use miette_lines::lines::first_line;
use miette_lines::sums::sum;
use miette_protocol::protocol::SourceSpan;
use miette_snippet_frames::frame::Frame;
use miette_style::canvas::Canvas;
use miette_style::page::RowPrinter;
use std::alloc::AllocError;

/// What happens to a line.
#[derive(Clone, Copy, Debug, PartialEq, Eq, Drop)]
pub(crate) enum DiffLineKind {
    /// It is unchanged.
    Kept,
    /// It is removed.
    Removed,
    /// It is added.
    Added,
}

/// A shown line with its terminator, and its counterpart if it has one.
#[derive(Clone, Copy)]
pub(crate) struct DiffLine<'a> {
    pub(crate) kind: DiffLineKind,
    pub(crate) text: &'a [u8],
    pub(crate) other: Option<PairedText<'a>>,
}

/// The counterpart of a changed line. An added one comes after `away` bytes of added lines. A removed one begins `away`
/// bytes before the end of the removed lines.
#[derive(Clone, Copy)]
pub(crate) struct PairedText<'a> {
    pub(crate) text: &'a [u8],
    pub(crate) away: usize,
}

/// Consecutive lines of one kind. `others` are their counterparts in order, and `away` is the position of the first
/// counterpart.
#[derive(Clone, Copy)]
pub(crate) struct Segment<'a> {
    pub(crate) kind: DiffLineKind,
    pub(crate) lines: &'a [u8],
    pub(crate) others: &'a [u8],
    pub(crate) away: usize,
}

/// What the rows of a fix are drawn with.
#[derive(Clone, Copy)]
pub(crate) struct DiffDrawing<'a> {
    pub(crate) frame: Frame<'a>,
    pub(crate) deleted: &'a [SourceSpan],
    pub(crate) inserted: &'a [SourceSpan],
}

// Takes the first line off the bytes, if there is one.
fn next_line<'a>(bytes: &mut &'a [u8]) -> Option<&'a [u8]>
    ensures lines { line_texts bytes.old.now ≡ text_before (option_copied result) (line_texts bytes.new.now) }
    ensures none { option_copied result ≡ None → line_texts bytes.new.now ≡ [] }
    ensures fewer { IfSome result (λ line. length bytes.new.now < length bytes.old.now) }
{
    let all = *bytes;
    if all.is_empty() {
        return None;
    }
    let end = first_line(all, 0).end;
    *bytes = &all[end..];
    Some(&all[..end])
}

// Returns the position of the next counterpart, after one of `size` bytes.
fn away_after(kind: DiffLineKind, away: usize, size: usize) -> Result<usize, AllocError>
    ensures { IfOk result (λ next. next ≡ away_after kind away size) }
{
    match kind {
        DiffLineKind::Kept => Ok(away),
        DiffLineKind::Removed => sum(away, size),
        DiffLineKind::Added => Ok(away.saturating_sub(size)),
    }
}

// Returns the position of the next counterpart, if there is one.
fn away_past(kind: DiffLineKind, away: usize, other: Option<&[u8]>) -> Result<usize, AllocError>
    ensures { IfOk result (λ next. next ≡ away_past kind away (option_copied other.entry)) }
{
    match other {
        Some(text) => away_after(kind, away, text.len()),
        None => Ok(away),
    }
}

// Returns a counterpart with its position.
fn paired_text(other: Option<&[u8]>, away: usize) -> Option<PairedText<'_>>
    ensures { option_map paired_line_of result ≡ option_map (λ text. paired_line text away) (option_copied other.entry) }
{
    match other {
        Some(text) => Some(PairedText { text, away }),
        None => None,
    }
}

impl<'a> Segment<'a> {
    /// Takes off the first line, if there is one. `AllocError` if a byte count exceeds `usize::MAX`.
    pub(crate) fn next(&mut self) -> Result<Option<DiffLine<'a>>, AllocError>
        ensures lines { IfOk result (λ line.
            lines_of_segment self.old ≡ shown_before line (lines_of_segment self.new)) }
        ensures fewer { IfOk result (λ line.
            IfSome line (λ it. length self.new.lines.now < length self.old.lines.now)) }
    {
        let kind = self.kind;
        let away = self.away;
        let Some(text) = next_line(&mut self.lines) else {
            return Ok(None);
        };
        let other = next_line(&mut self.others);
        self.away = away_past(kind, away, other)?;
        Ok(Some(DiffLine {
            kind,
            text,
            other: paired_text(other, away),
        }))
    }
}

/// Returns the position after a line.
pub(crate) fn past(at: &DiffPosition, line: &DiffLine) -> Result<DiffPosition, AllocError>
    ensures { IfOk result (λ after. diff_position_of after ≡ past (diff_position_of at.now) (line_of_shown line.now)) }
{
    let size = line.text.len();
    let mut after = *at;
    if line.kind != DiffLineKind::Added {
        after.old_line = sum(at.old_line, 1)?;
        after.old_offset = sum(at.old_offset, size)?;
    }
    if line.kind != DiffLineKind::Removed {
        after.new_line = sum(at.new_line, 1)?;
        after.new_offset = sum(at.new_offset, size)?;
    }
    Ok(after)
}

// Returns the one-based number of a line.
fn number_of(at: &DiffPosition, line: &DiffLine) -> Result<usize, AllocError>
    ensures { IfOk result (λ number. number ≡ number_of (diff_position_of at.now) (line_of_shown line.now)) }
{
    match line.kind {
        DiffLineKind::Kept | DiffLineKind::Removed => sum(at.old_line, 1),
        DiffLineKind::Added => sum(at.new_line, 1),
    }
}

// Returns the removed line at a position.
fn removed_line<'a>(
    drawing: &DiffDrawing<'a>,
    at: &DiffPosition,
    text: &'a [u8],
) -> Result<ChangedLine<'a>, AllocError>
    ensures { IfOk result (λ line. changed_line_of line
        ≡ removed_line (context_with drawing.now) (diff_position_of at.now) text.now) }
{
    Ok(ChangedLine {
        sign: '-',
        style: drawing.frame.settings.theme.styles.error,
        number: sum(at.old_line, 1)?,
        start: at.old_offset,
        text,
        spans: drawing.deleted,
    })
}

// Returns the added line at a position.
fn added_line<'a>(
    drawing: &DiffDrawing<'a>,
    at: &DiffPosition,
    text: &'a [u8],
) -> Result<ChangedLine<'a>, AllocError>
    ensures { IfOk result (λ line. changed_line_of line
        ≡ added_line (context_with drawing.now) (diff_position_of at.now) text.now) }
{
    Ok(ChangedLine {
        sign: '+',
        style: drawing.frame.settings.theme.styles.advice,
        number: sum(at.new_line, 1)?,
        start: at.new_offset,
        text,
        spans: drawing.inserted,
    })
}

// Returns the added counterpart of the removed line at a position.
fn added_beside<'a>(
    drawing: &DiffDrawing<'a>,
    at: &DiffPosition,
    other: Option<PairedText<'a>>,
) -> Result<Option<ChangedLine<'a>>, AllocError>
    requires { AreApart drawing.now.inserted.now }
    ensures lines { IfOk result (λ line. option_map changed_line_of line ≡ option_map
        (added_beside (context_with drawing.now) (diff_position_of at.now)) (option_map paired_line_of other.entry)) }
    ensures readable { IfOk result (λ line. IfSome line IsReadable) }
{
    let Some(other) = other else {
        return Ok(None);
    };
    let start = sum(at.new_offset, other.away)?;
    let _end = sum(start, other.text.len())?;
    let line = added_line(drawing, at, other.text)?;
    Ok(Some(ChangedLine { start, ..line }))
}

// Returns the removed counterpart of the added line at a position.
fn removed_beside<'a>(
    drawing: &DiffDrawing<'a>,
    at: &DiffPosition,
    other: Option<PairedText<'a>>,
) -> Result<Option<ChangedLine<'a>>, AllocError>
    requires { AreApart drawing.now.deleted.now }
    ensures lines { IfOk result (λ line. option_map changed_line_of line ≡ option_map
        (removed_beside (context_with drawing.now) (diff_position_of at.now)) (option_map paired_line_of other.entry)) }
    ensures readable { IfOk result (λ line. IfSome line IsReadable) }
{
    let Some(other) = other else {
        return Ok(None);
    };
    let start = at.old_offset.saturating_sub(other.away);
    let _end = sum(start, other.text.len())?;
    let line = removed_line(drawing, at, other.text)?;
    Ok(Some(ChangedLine { start, ..line }))
}

// Prints the rows of a removed or added line.
fn push_changed_line<O: Canvas>(
    page: &mut RowPrinter<O>,
    drawing: &DiffDrawing,
    at: &DiffPosition,
    line: &DiffLine,
) -> PushResult
    requires deleted { AreApart drawing.now.deleted.now }
    requires inserted { AreApart drawing.now.inserted.now }
    requires within { LineFits (diff_position_of at.now) line.now }
    ensures { OnOk result (page.new ≡ page.old ⊕ rows_tokens (rows_of_diff_line (context_with drawing.now)
        (diff_position_of at.now) (line_of_shown line.now))) }
{
    match line.kind {
        DiffLineKind::Kept => push_kept_row(page, &drawing.frame, at, line.text),
        DiffLineKind::Removed => {
            let changed = removed_line(drawing, at, line.text)?;
            let other = added_beside(drawing, at, line.other)?;
            push_changed_rows(page, &drawing.frame, &changed, other)
        }
        DiffLineKind::Added => {
            let changed = added_line(drawing, at, line.text)?;
            let other = removed_beside(drawing, at, line.other)?;
            push_changed_rows(page, &drawing.frame, &changed, other)
        }
    }
}

// Prints the rows of a line and returns the position after it.
fn push_line<O: Canvas>(
    page: &mut RowPrinter<O>,
    drawing: &DiffDrawing,
    at: &DiffPosition,
    line: &DiffLine,
) -> Result<DiffPosition, AllocError>
    requires deleted { AreApart drawing.now.deleted.now }
    requires inserted { AreApart drawing.now.inserted.now }
    ensures rows { OnOk result (page.new ≡ page.old ⊕ rows_tokens (rows_of_diff_line (context_with drawing.now)
        (diff_position_of at.now) (line_of_shown line.now))) }
    ensures behind { IfOk result (λ after. diff_position_of after ≡ past (diff_position_of at.now)
        (line_of_shown line.now)) }
{
    let after = past(at, line)?;
    push_changed_line(page, drawing, at, line)?;
    Ok(after)
}

/// Prints the rows of a segment and returns the position after it.
pub(crate) fn push_segment<O: Canvas>(
    page: &mut RowPrinter<O>,
    drawing: &DiffDrawing,
    at: &DiffPosition,
    segment: &Segment,
) -> Result<DiffPosition, AllocError>
    requires deleted { AreApart drawing.now.deleted.now }
    requires inserted { AreApart drawing.now.inserted.now }
    ensures rows { OnOk result (page.new ≡ page.old ⊕ rows_tokens (rows_of_diff_lines (context_with drawing.now)
        (diff_position_of at.now) (lines_of_segment segment.now))) }
    ensures behind { IfOk result (λ after.
        diff_position_of after ≡ past_lines (diff_position_of at.now) (lines_of_segment segment.now)) }
{
    let mut at = *at;
    let mut left = *segment;
    while let Some(line) = left.next()? {
        at = push_line(page, drawing, &at, &line)?;
    }
    Ok(at)
}

/// Returns the position after a segment, and the largest of `least` and its line numbers.
pub(crate) fn measure_segment(
    at: &DiffPosition,
    segment: &Segment,
    least: usize,
) -> Result<(DiffPosition, usize), AllocError>
    ensures behind { IfOk result (λ it.
        diff_position_of it.0 ≡ past_lines (diff_position_of at.now) (lines_of_segment segment.now)) }
    ensures most { IfOk result (λ it.
        it.1 ≡ max least (largest_number (diff_position_of at.now) (lines_of_segment segment.now))) }
{
    let mut at = *at;
    let mut left = *segment;
    let mut most = least;
    while let Some(line) = left.next()? {
        most = most.max(number_of(&at, &line)?);
        at = past(&at, &line)?;
    }
    Ok((at, most))
}
