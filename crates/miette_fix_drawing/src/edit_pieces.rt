//! The styled pieces of a changed line's text.

ghost use Rattle.std.specs.Prelude.{◌≡◌, ◌++◌, ◌+◌, ◌<◌, ◌^◌, List, map, length, IfOk, OnOk};
ghost use Rattle.std.specs.List.{list_any};
ghost use Rattle.miette_columns.specs.views.Walking.{cell_of};
ghost use Rattle.miette_snippet_rules.specs.rules.Highlighting.{highlight_of};
ghost use Rattle.miette_snippet_rules.specs.rules.PrintedCells.{text_bytes};
ghost use Rattle.miette_snippet_rules.specs.views.LineScans.{ComeFrom};
ghost use Rattle.miette_snippet_rules.specs.views.LineTexts.{text_cells};
ghost use Rattle.miette_fix_rows.specs.rules.DiffTexts.{DiffPiece as RuledPainted, holds_byte, diff_pieces, pieces};
ghost use Rattle.miette_fix_drawing.specs.steps.Pieces.{prepend_pieces, piece, told};
ghost use Rattle.miette_fix_drawing.specs.steps.Spans.{AreApart};

use crate::spans::{some_holds_byte, spans_ending_after};
use miette_columns::cells::{Cell, CellWalk};
use miette_lines::sums::sum;
use miette_protocol::protocol::SourceSpan;
use miette_snippet_rules::line_bytes::LineText;
use miette_style::page::PLAIN;
use miette_style::style::Style;
use std::alloc::{AllocError, Global};

/// Consecutive characters that are all changed or all unchanged.
#[derive(Clone, Copy, Debug, PartialEq, Eq, Drop)]
pub struct DiffPiece {
    /// Whether an edit deletes or inserts a byte of them.
    pub changed: bool,
    /// Their length in bytes.
    pub bytes: usize,
}

/// Returns the styled piece of these characters.
pub(crate) fn piece_of(style: Style, diff_pieces: &DiffPiece) -> (usize, Style)
    ensures { highlight_of result ≡ piece style diff_pieces.now }
{
    let style = if diff_pieces.changed { style } else { PLAIN };
    (diff_pieces.bytes, style)
}

/// Appends characters. They join the last ones (`reached`) if both are changed or both unchanged; otherwise the last
/// ones become a piece. `AllocError` if allocation fails or a count exceeds `usize::MAX`.
pub fn push_diff_piece(
    made: &mut Vec<(usize, Style)>,
    style: Style,
    reached: &mut DiffPiece,
    next: DiffPiece,
) -> Result<(), AllocError>
    ensures { OnOk result ((rest : List RuledPainted) →
        map highlight_of made.new.items ++ told style (prepend_pieces reached.new rest)
        ≡ map highlight_of made.old.items ++ told style (prepend_pieces reached.old (prepend_pieces next rest))) }
{
    let same = next.changed == reached.changed;
    if same {
        let bytes = sum(reached.bytes, next.bytes)?;
        *reached = DiffPiece {
            changed: reached.changed,
            bytes,
        };
        return Ok(());
    }
    made.push(piece_of(style, reached))?;
    *reached = next;
    Ok(())
}

// Returns one character, which is changed if one of the spans has a byte of it.
fn piece_of_cell(spans: &[SourceSpan], cell: &Cell) -> DiffPiece
    requires { AreApart spans.now }
    ensures changed { result.changed ≡ list_any (holds_byte (cell_of cell.now)) spans.now }
    ensures bytes { result.bytes ≡ text_bytes cell.now.code }
{
    DiffPiece {
        changed: some_holds_byte(spans, cell),
        bytes: cell.code.len_utf8(),
    }
}

// Returns the pieces of `first` and of the cells after it.
fn pieces_after(
    alloc: Global,
    style: Style,
    spans: &[SourceSpan],
    walk: CellWalk<'_>,
    first: DiffPiece,
) -> Result<Vec<(usize, Style)>, AllocError>
    requires apart { AreApart spans.now }
    requires come { ComeFrom 0 walk }
    ensures { IfOk result (λ made. map highlight_of made.items
        ≡ told style (prepend_pieces first (diff_pieces spans.now walk.entry))) }
{
    let mut walk = walk;
    let mut made = Vec::new(alloc);
    let mut rest = spans;
    let mut reached = first;
    while let Some(cell) = walk.next()? {
        rest = spans_ending_after(rest, cell.start);
        let next = piece_of_cell(rest, &cell);
        push_diff_piece(&mut made, style, &mut reached, next)?;
    }
    made.push(piece_of(style, &reached))?;
    Ok(made)
}

/// Returns a line's text as styled pieces: characters in a span get this style, the others are plain. `AllocError` if
/// allocation fails, or if a column or a count exceeds `usize::MAX`.
pub fn pieces_of(
    alloc: Global,
    style: Style,
    spans: &[SourceSpan],
    text: &LineText,
) -> Result<Vec<(usize, Style)>, AllocError>
    requires apart { AreApart spans.now }
    requires fits { text.now.start + length text.now.bytes.now < 2 ^ 64 }
    ensures { IfOk result (λ made. map highlight_of made.items ≡ pieces style spans.now (text_cells text.now)) }
{
    let mut walk = CellWalk::new(text.bytes, text.start, text.tab);
    let Some(cell) = walk.next()? else {
        return Ok(Vec::new(alloc));
    };
    let first = piece_of_cell(spans, &cell);
    pieces_after(alloc, style, spans, walk, first)
}
