//! The frames of a fix.

ghost use Rattle.std.specs.Prelude.{◌≡◌, ◌≤◌, ◌<◌, ◌+◌, ◌-◌, ◌++◌, ◌∷◌, length, drop, take};
ghost use Rattle.std.specs.Prelude.{true, false, IfOk, OnOk};
ghost use Rattle.std.specs.List.{AllByRecursion};
ghost use Rattle.miette_style.specs.views.Printouts.{◌⊕◌};
ghost use Rattle.miette_style.specs.views.Tokens.{rows_tokens};
ghost use Rattle.miette_fix_rows.specs.rules.Blocks.{line_texts};
ghost use Rattle.miette_fix_rows.specs.rules.DiffFrames.{after_hunk, changed_lines, first_place, frame_at};
ghost use Rattle.miette_fix_rows.specs.rules.DiffFrames.{frames_from, kept_lines, left_before, past_hunk, past_kept};
ghost use Rattle.miette_fix_rows.specs.rules.DiffRows.{largest_number, rows_of_diff_lines};
ghost use Rattle.miette_fix_drawing.specs.steps.Framing.{PointsWithin, drawn_frame, drawn_frames};
ghost use Rattle.miette_fix_drawing.specs.steps.Places.{IsCursor, HunkIsIn};
ghost use Rattle.miette_fix_drawing.specs.steps.Spans.{AreApart};
ghost use Rattle.miette_fix_drawing.specs.views.Contexts.{context_with};
ghost use Rattle.miette_fix_drawing.specs.views.Frames.{frame_of, first_position};
ghost use Rattle.miette_fix_drawing.specs.views.Hunks.{hunk_of, hunks_of};
ghost use Rattle.miette_fix_drawing.specs.views.ShownLines.{lines_of_segments};
ghost use Rattle.miette_fix_drawing.specs.views.DiffPositions.{diff_position_of};

use crate::counting::last_lines_start;
use crate::cursor::{Cursor, count_lines, place_of};
use crate::diff_position::DiffPosition;
use crate::frame_lines::{lines_after, measure_segments, past_kept, push_hunk, take_near};
use crate::hunks::Hunk;
use crate::line_starts::PushResult;
use crate::segments::{DiffDrawing, Segment, measure_segment, push_segment};
use miette_protocol::protocol::SourceSpan;
use miette_protocol::source::SourceCode;
use miette_snippet_frames::frame::{
    Frame, SnippetHeader, digits, push_frame_bottom, push_frame_top,
};
use miette_snippet_rules::options::SnippetSettings;
use miette_style::canvas::Canvas;
use miette_style::page::RowPrinter;
use std::alloc::AllocError;

/// What the frames of a fix are drawn with.
#[derive(Clone, Copy)]
pub(crate) struct FixDrawing<'a> {
    pub(crate) settings: SnippetSettings<'a>,
    pub(crate) name: Option<&'a str>,
    pub(crate) source: &'a [u8],
    pub(crate) deleted: &'a [SourceSpan],
    pub(crate) inserted: &'a [SourceSpan],
}

// A frame: the position of its first line, the offset it points to, its lines, and the largest line number.
#[derive(Drop)]
struct FrameLines<'a> {
    at: DiffPosition,
    place: usize,
    lines: Vec<Segment<'a>>,
    largest_number: usize,
}

// How far frames are printed: the position after the last change, and a cursor before the next one.
#[derive_where(Clone, Copy)]
struct Progress<'a, S> {
    at: DiffPosition,
    cursor: Cursor<'a, S>,
}

// The position of the first line of a source.
const FIRST: DiffPosition = DiffPosition {
    old_line: 0,
    new_line: 0,
    old_offset: 0,
    new_offset: 0,
};

// Returns segment `i`.
fn segment_at<'a>(list: &[Segment<'a>], i: usize) -> Segment<'a>
    requires { i < length list.now }
    ensures { drop i list.now ≡ result ∷ drop (i + 1) list.now }
{
    list[i]
}

// Prints the rows of segments.
fn push_lines<O: Canvas>(
    page: &mut RowPrinter<O>,
    drawing: &DiffDrawing,
    at: &DiffPosition,
    list: &[Segment],
) -> PushResult
    requires deleted { AreApart drawing.now.deleted.now }
    requires inserted { AreApart drawing.now.inserted.now }
    ensures { OnOk result (page.new ≡ page.old ⊕ rows_tokens (rows_of_diff_lines (context_with drawing.now)
        (diff_position_of at.now) (lines_of_segments list.now))) }
{
    let mut at = *at;
    for i in 0..list.len() {
        let segment = segment_at(list, i);
        at = push_segment(page, drawing, &at, &segment)?;
    }
    Ok(())
}

// Prints a frame.
fn push_frame<O: Canvas, S: SourceCode>(
    page: &mut RowPrinter<O>,
    drawing: &FixDrawing,
    cursor: &Cursor<'_, S>,
    frame: &FrameLines,
) -> PushResult
    requires deleted { AreApart drawing.now.deleted.now }
    requires inserted { AreApart drawing.now.inserted.now }
    requires place { frame.now.place ≤ length drawing.now.source.now }
    requires largest_number { frame.now.largest_number ≡ largest_number (frame_of frame.now).at
        (frame_of frame.now).lines }
    requires cursor { IsCursor S.source drawing.now.source.now cursor.now }
    ensures { OnOk result (page.new ≡ page.old ⊕ rows_tokens (drawn_frame drawing.now (frame_of frame.now))) }
{
    let lines = DiffDrawing {
        frame: Frame {
            settings: drawing.settings,
            number_width: digits(frame.largest_number),
        },
        deleted: drawing.deleted,
        inserted: drawing.inserted,
    };
    let heading = SnippetHeader {
        name: drawing.name,
        several: true,
        place: Some(place_of(drawing.source, cursor, frame.place)),
    };
    push_frame_top(page, &lines.frame, &heading)?;
    push_lines(page, &lines, &frame.at, &frame.lines)?;
    push_frame_bottom(page, &lines.frame)
}

// Returns the offset to which a hunk's frame points.
fn place_in(hunk: &Hunk) -> usize
    ensures { result ≡ first_place (hunk_of hunk.now).changes }
{
    match hunk.changes {
        [] => 0,
        [change, ..] => change.place(),
    }
}

// Begins a frame with a hunk. Returns the position of its first line, and its lines up to the end of the hunk.
fn first_hunk<'a, S: SourceCode>(
    drawing: &FixDrawing,
    progress: &mut Progress<'_, S>,
    hunk: &'a Hunk<'a>,
) -> Result<(DiffPosition, Vec<Segment<'a>>), AllocError>
    requires stands { HunkIsIn drawing.now.source.now hunk.now }
    requires cursor { IsCursor S.source drawing.now.source.now progress.old.cursor }
    ensures at { IfOk result (λ it. diff_position_of it.0 ≡ past_kept (diff_position_of progress.old.at)
        (take (left_before drawing.now.settings.layout.now.context_lines (hunk_of hunk.now)) (hunk_of hunk.now).kept)) }
    ensures lines { IfOk result (λ it. lines_of_segments it.1.items
        ≡ kept_lines (drop (left_before drawing.now.settings.layout.now.context_lines (hunk_of hunk.now))
        (hunk_of hunk.now).kept)
        ++ changed_lines (hunk_of hunk.now).changes) }
    ensures cursor { IsCursor S.source drawing.now.source.now progress.new.cursor }
{
    let left = last_lines_start(hunk.kept, drawing.settings.layout.context_lines);
    let lines_left = count_lines(drawing.source, &mut progress.cursor, hunk, left);
    let from = past_kept(&progress.at, lines_left, left)?;
    let mut lines = Vec::new(drawing.settings.alloc);
    push_hunk(&mut lines, &hunk.kept[left..], hunk.changes)?;
    Ok((from, lines))
}

// Makes the frame that begins with a hunk. Returns how many of the following hunks it contains. Sets the position after
// its last change.
fn next_frame<'a, S: SourceCode>(
    drawing: &FixDrawing,
    progress: &mut Progress<'_, S>,
    hunk: &'a Hunk<'a>,
    more: &'a [Hunk<'a>],
    kept_after: &'a [u8],
) -> Result<(FrameLines<'a>, usize), AllocError>
    requires stands { HunkIsIn drawing.now.source.now hunk.now }
    requires cursor { IsCursor S.source drawing.now.source.now progress.old.cursor }
    ensures frame { IfOk result (λ it. frame_of it.0 ≡ frame_at drawing.now.settings.layout.now.context_lines
        (diff_position_of progress.old.at) (hunk_of hunk.now)
        (after_hunk drawing.now.settings.layout.now.context_lines (line_texts kept_after.now) (hunks_of more.now))) }
    ensures largest_number { IfOk result (λ it. it.0.largest_number ≡ largest_number (frame_of it.0).at
        (frame_of it.0).lines) }
    ensures rest { IfOk result (λ it. frames_from drawing.now.settings.layout.now.context_lines
        (line_texts kept_after.now) true (past_hunk (diff_position_of progress.old.at) (hunk_of hunk.now))
        (hunks_of more.now)
        ≡ frames_from drawing.now.settings.layout.now.context_lines (line_texts kept_after.now) false
        (diff_position_of progress.new.at) (hunks_of (drop it.1 more.now))) }
    ensures within { IfOk result (λ it. it.1 ≤ length more.now) }
    ensures cursor { IsCursor S.source drawing.now.source.now progress.new.cursor }
{
    let context = drawing.settings.layout.context_lines;
    let (from, mut lines) = first_hunk(drawing, progress, hunk)?;
    let taken = take_near(&mut lines, context, more)?;
    let (end, most) = measure_segments(&from, &lines)?;
    let after = lines_after(context, &more[taken..], kept_after);
    let most = measure_segment(&end, &after, most)?.1;
    lines.push(after)?;
    let frame = FrameLines {
        at: from,
        place: place_in(hunk),
        lines,
        largest_number: most,
    };
    progress.at = end;
    Ok((frame, taken))
}

// Prints the first frame. Returns how many hunks it contains. Sets the position after the last of them.
fn push_next<'a, O: Canvas, S: SourceCode>(
    page: &mut RowPrinter<O>,
    drawing: &FixDrawing,
    progress: &mut Progress<'_, S>,
    hunks: &'a [Hunk<'a>],
    kept_after: &'a [u8],
) -> Result<usize, AllocError>
    requires some { 0 < length hunks.now }
    requires deleted { AreApart drawing.now.deleted.now }
    requires inserted { AreApart drawing.now.inserted.now }
    requires stand { AllByRecursion (HunkIsIn drawing.now.source.now) hunks.now }
    requires places { AllByRecursion (PointsWithin (length drawing.now.source.now)) (hunks_of hunks.now) }
    requires cursor { IsCursor S.source drawing.now.source.now progress.old.cursor }
    ensures rows { IfOk result (λ many. page.new ⊕ rows_tokens (drawn_frames drawing.now
        (frames_from drawing.now.settings.layout.now.context_lines (line_texts kept_after.now) false
        (diff_position_of progress.new.at) (hunks_of (drop many hunks.now))))
        ≡ page.old ⊕ rows_tokens (drawn_frames drawing.now
        (frames_from drawing.now.settings.layout.now.context_lines (line_texts kept_after.now) false
        (diff_position_of progress.old.at) (hunks_of hunks.now)))) }
    ensures cursor { IsCursor S.source drawing.now.source.now progress.new.cursor }
    ensures some { IfOk result (λ many. 0 < many) }
    ensures within { IfOk result (λ many. many ≤ length hunks.now) }
{
    let (frame, taken) = next_frame(drawing, progress, &hunks[0], &hunks[1..], kept_after)?;
    push_frame(page, drawing, &progress.cursor, &frame)?;
    Ok(taken + 1)
}

/// Prints all frames. `kept_after` are the unchanged lines after the last hunk. `asked` must have the bytes that are
/// drawn.
pub(crate) fn push_frames<'a, O: Canvas, S: SourceCode>(
    page: &mut RowPrinter<O>,
    drawing: &FixDrawing,
    asked: &S,
    hunks: &'a [Hunk<'a>],
    kept_after: &'a [u8],
) -> PushResult
    requires deleted { AreApart drawing.now.deleted.now }
    requires inserted { AreApart drawing.now.inserted.now }
    requires asked { (S.source asked.now).bytes ≡ drawing.now.source.now }
    requires stand { AllByRecursion (HunkIsIn drawing.now.source.now) hunks.now }
    requires places { AllByRecursion (PointsWithin (length drawing.now.source.now)) (hunks_of hunks.now) }
    ensures { OnOk result (page.new ≡ page.old ⊕ rows_tokens (drawn_frames drawing.now
        (frames_from drawing.now.settings.layout.now.context_lines (line_texts kept_after.now) false first_position
        (hunks_of hunks.now)))) }
{
    let mut progress = Progress {
        at: FIRST,
        cursor: Cursor {
            asked,
            offset: 0,
            line: 0,
        },
    };
    let mut done = 0;
    while done < hunks.len() {
        done += push_next(page, drawing, &mut progress, &hunks[done..], kept_after)?;
    }
    Ok(())
}
