//! Wraps and prints lines.

ghost use Rattle.std.specs.Prelude.{◌≡◌, ◌≤◌, ◌++◌, ◌∷◌, [], IfOk, OnOk, drop, flat_map, length};
ghost use Rattle.miette_text.specs.steps.Ends.{line_len};
ghost use Rattle.miette_text.specs.views.Cutting.{word_cuts};
ghost use Rattle.miette_runs.specs.steps.Cells.{bare_cells};
ghost use Rattle.miette_runs.specs.rules.Sequences.{spell};
ghost use Rattle.miette_runs.specs.views.Interleaving.{cells_at, left_at, interleaving};
ghost use Rattle.miette_text.specs.rules.Wrapping.{cell_tokens, joined_rows, text_line_rows, text_lines};
ghost use Rattle.miette_text.specs.rules.Wrapping.{text_rows};
ghost use Rattle.miette_text.specs.rules.Wrapping.{trimmed_row};

use crate::wrapping::line_feeds;
use crate::wrapping::word_parts::{Cuts, WordParts, bare_len, row_len};
use miette_runs::runs::RunsSlice;
use miette_runs::runs::cells::{push_cells, push_runs_slice, push_signs, push_tags};
use miette_runs::runs::codes::{Ascii, Characters, Codes};
use miette_runs::runs::sign::Tag;
use miette_runs::runs::sink::Sink;
use std::alloc::AllocError;

/// The columns of the first line, and the indent of further lines with the columns that it leaves.
#[derive(Clone, Copy)]
pub(crate) struct RowIndents<'a> {
    pub(crate) room: usize,
    pub(crate) further: RunsSlice<'a>,
    pub(crate) further_room: usize,
}

/// Characters, and the signs between them.
#[derive(Clone, Copy)]
pub(crate) struct TaggedCodes<'a, C> {
    pub(crate) codes: C,
    pub(crate) tags: &'a [Tag],
}

// ---- rows

// Appends a line feed and the indent of the next line.
fn push_break<S: Sink>(out: &mut S, further: RunsSlice<'_>) -> Result<(), AllocError>
    ensures { OnOk result (S.written out.new ≡ S.written out.old
        ++ 10 ∷ spell (interleaving 0 further.entry.codes.now further.entry.tags.now)) }
{
    out.push('\n')?;
    push_runs_slice(out, further)
}

// Appends a line without its trailing spaces. `start` is the index of its first character. Returns how many tags it
// used.
fn push_row<S: Sink, C: Codes>(
    out: &mut S,
    start: usize,
    row: TaggedCodes<'_, C>,
) -> Result<usize, AllocError>
    requires { start ≤ length (C.codes row.codes) }
    ensures text { OnOk result (S.written out.new ≡ S.written out.old ++ spell (trimmed_row
        (flat_map cell_tokens (cells_at start (drop start (C.codes row.entry.codes)) row.entry.tags.now)))) }
    ensures left { IfOk result (λ n. drop n row.entry.tags.now
        ≡ left_at start (drop start (C.codes row.entry.codes)) row.entry.tags.now) }
    ensures within { IfOk result (λ n. n ≤ length row.entry.tags.now) }
{
    let all = row.codes.count();
    let codes = row.codes.from(start);
    let bare = bare_len(codes);
    let used = push_cells(out, start, codes.front(bare), row.tags)?;
    let end = start + bare;
    if end == all {
        return Ok(used);
    }
    let dropped = push_signs(out, all - 1, &row.tags[used..])?;
    Ok(used + dropped)
}

// Appends the wrapped lines of one line of the text. `first` is the index of its first character. Returns how many tags
// it used.
fn push_rows<S: Sink, W: WordParts, C: Codes>(
    out: &mut S,
    cuts: Cuts,
    under: RowIndents<'_>,
    first: usize,
    line: TaggedCodes<'_, C>,
) -> Result<usize, AllocError>
    requires { first ≤ length (C.codes line.codes) }
    ensures text { OnOk result (S.written out.new ≡ S.written out.old ++ spell (joined_rows []
        (interleaving 0 under.entry.further.codes.now under.entry.further.tags.now)
        (text_line_rows (word_cuts W.separator cuts) under.entry.room under.entry.further_room
        (record { cells = cells_at first (drop first (C.codes line.entry.codes)) line.entry.tags.now; rest = [] })))) }
    ensures left { IfOk result (λ n. drop n line.entry.tags.now
        ≡ left_at first (drop first (C.codes line.entry.codes)) line.entry.tags.now) }
    ensures within { IfOk result (λ n. n ≤ length line.entry.tags.now) }
{
    let all = line.codes.count();
    let mut start = first;
    let mut used: usize = 0;
    let mut words = W::start();
    let mut room = under.room;
    'rest: loop {
        let (n, after) = row_len(cuts, room, words, line.codes.from(start))?;
        let end = start + n;
        let row = TaggedCodes {
            codes: line.codes.front(end),
            tags: &line.tags[used..],
        };
        let more = push_row(out, start, row)?;
        used += more;
        if end == all {
            return Ok(used);
        }
        push_break(out, under.further)?;
        words = after;
        start = end;
        room = under.further_room;
    }
}

// ---- lines

/// Characters that can be searched for a line feed.
pub(crate) trait LineCodes: Codes {
    /// Counts the characters up to the first line feed, or to the end.
    fn line_len(self) -> usize
        ensures value { result ≡ line_len (Self.codes self) }
        ensures within { result ≤ length (Self.codes self) };
}

impl<'a> LineCodes for Characters<'a> {
    fn line_len(self) -> usize {
        for (i, code) in self.list.iter().enumerate() {
            if *code == '\n' {
                return i;
            }
        }
        self.list.len()
    }
}

impl<'a> LineCodes for Ascii<'a> {
    fn line_len(self) -> usize {
        line_feeds::row_len(self.text.as_bytes())
    }
}

/// Appends a wrapped text, with words separated as `W` says.
pub(crate) fn push_filled<S: Sink, W: WordParts, C: LineCodes>(
    out: &mut S,
    cuts: Cuts,
    under: RowIndents<'_>,
    text: TaggedCodes<'_, C>,
) -> Result<(), AllocError>
    ensures { OnOk result (S.written out.new ≡ S.written out.old ++ spell (joined_rows []
        (interleaving 0 under.entry.further.codes.now under.entry.further.tags.now)
        (text_rows (word_cuts W.separator cuts) under.entry.room under.entry.further_room
        (text_lines (interleaving 0 (C.codes text.entry.codes) text.entry.tags.now))))) }
{
    let all = text.codes.count();
    let mut start: usize = 0;
    let mut used: usize = 0;
    let mut room = under.room;
    'rest: loop {
        let n = text.codes.from(start).line_len();
        let end = start + n;
        let place = RowIndents { room, ..under };
        let line = TaggedCodes {
            codes: text.codes.front(end),
            tags: &text.tags[used..],
        };
        let inside = push_rows::<S, W, C>(out, cuts, place, start, line)?;
        used += inside;
        if end == all {
            return push_tags(out, &text.tags[used..]);
        }
        let after = push_signs(out, end, &text.tags[used..])?;
        used += after;
        push_break(out, under.further)?;
        start = end + 1;
        room = under.further_room;
    }
}
