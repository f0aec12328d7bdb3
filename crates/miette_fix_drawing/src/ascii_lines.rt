//! Changed lines of printable ASCII, whose pieces and rows need no walk over the characters.

ghost use Rattle.std.specs.Prelude.{◌≡◌, ◌+◌, ◌^◌, ◌<◌, ◌≤◌, ℕ, true, map, length, IfOk, OnOk};
ghost use Rattle.std.specs.List.{list_all, list_any};
ghost use Rattle.std.specs.Option.{option_map};
ghost use Rattle.miette_columns.specs.views.Printable.{is_printable, plain_cells};
ghost use Rattle.miette_style.specs.views.Printouts.{◌⊕◌};
ghost use Rattle.miette_style.specs.views.Tokens.{row_tokens, styled_tokens};
ghost use Rattle.miette_snippet_rules.specs.rules.Highlighting.{highlight_of};
ghost use Rattle.miette_style.specs.rules.Themes.{theme_of};
ghost use Rattle.miette_snippet_rules.specs.rules.CutLines.{dots};
ghost use Rattle.miette_snippet_rules.specs.views.Cuts.{made_runs};
ghost use Rattle.miette_snippet_rules.specs.views.LineTexts.{text_cells};
ghost use Rattle.miette_fix_rows.specs.rules.DiffTexts.{holds_byte, diff_pieces, pieces};
ghost use Rattle.miette_fix_drawing.specs.steps.Pieces.{prepend_pieces, told};
ghost use Rattle.miette_fix_drawing.specs.steps.Printable.{byte_at, cells_past, pieces_told};
ghost use Rattle.miette_fix_drawing.specs.steps.Spans.{AreApart};

use crate::edit_pieces::{DiffPiece, piece_of, pieces_of, push_diff_piece};
use crate::line_starts::PushResult;
use crate::spans::spans_ending_after;
use miette_columns::plain::all_printable;
use miette_protocol::protocol::SourceSpan;
use miette_snippet_rules::line_bytes::LineText;
use miette_snippet_rules::line_part::LineCut;
use miette_snippet_rules::line_printing::push_shown_text;
use miette_style::canvas::Canvas;
use miette_style::page::{PLAIN, RowPrinter};
use miette_style::style::Style;
use miette_style::theme::GraphicalTheme;
use std::alloc::{AllocError, Global};
use std::str;

// Returns the bytes from `at` on that are all in one span or all in none, at most up to `end`.
fn alike_from(spans: &[SourceSpan], at: usize, end: usize) -> DiffPiece
    requires apart { AreApart spans.now }
    requires some { at < end }
    ensures some { 0 < result.bytes }
    ensures within { at + result.bytes ≤ end }
    ensures alike { (x : ℕ) → at ≤ x → x < at + result.bytes →
        list_any (holds_byte (byte_at x)) spans.now ≡ result.changed }
{
    for span in spans {
        let start = span.offset();
        let len = span.len();
        if at < start {
            return DiffPiece {
                changed: false,
                bytes: start.min(end) - at,
            };
        }
        let past = at - start;
        if past < len {
            return DiffPiece {
                changed: true,
                bytes: (len - past).min(end - at),
            };
        }
    }
    DiffPiece {
        changed: false,
        bytes: end - at,
    }
}

// Returns the pieces of `first` and of the text after it.
fn pieces_past(
    alloc: Global,
    style: Style,
    spans: &[SourceSpan],
    text: &LineText,
    first: DiffPiece,
) -> Result<Vec<(usize, Style)>, AllocError>
    requires apart { AreApart spans.now }
    requires fits { text.now.start + length text.now.bytes.now < 2 ^ 64 }
    requires printable { list_all is_printable text.now.bytes.now ≡ true }
    requires within { first.bytes ≤ length text.now.bytes.now }
    ensures { IfOk result (λ made. map highlight_of made.items
        ≡ told style (prepend_pieces first (diff_pieces spans.now (cells_past text.now
        (text.now.start + first.bytes))))) }
{
    let end = text.start + text.bytes.len();
    let mut made = Vec::new(alloc);
    let mut rest = spans;
    let mut reached = first;
    let mut at = text.start + first.bytes;
    while at < end {
        rest = spans_ending_after(rest, at);
        let next = alike_from(rest, at, end);
        push_diff_piece(&mut made, style, &mut reached, next)?;
        at += next.bytes;
    }
    made.push(piece_of(style, &reached))?;
    Ok(made)
}

// Returns the pieces of a text of printable ASCII: bytes in a span get this style, the others are plain.
fn printable_pieces(
    alloc: Global,
    style: Style,
    spans: &[SourceSpan],
    text: &LineText,
) -> Result<Vec<(usize, Style)>, AllocError>
    requires apart { AreApart spans.now }
    requires fits { text.now.start + length text.now.bytes.now < 2 ^ 64 }
    requires printable { list_all is_printable text.now.bytes.now ≡ true }
    ensures { IfOk result (λ made. map highlight_of made.items
        ≡ pieces style spans.now (plain_cells text.now.start 0 text.now.bytes.now)) }
{
    if text.bytes.is_empty() {
        return Ok(Vec::new(alloc));
    }
    let first = alike_from(spans, text.start, text.start + text.bytes.len());
    pieces_past(alloc, style, spans, text, first)
}

/// Returns a changed line's text as styled pieces: characters in a span get this style, the others are plain.
/// `AllocError` if allocation fails, or if a column or a count exceeds `usize::MAX`.
pub(crate) fn changed_pieces(
    alloc: Global,
    style: Style,
    spans: &[SourceSpan],
    text: &LineText,
) -> Result<Vec<(usize, Style)>, AllocError>
    requires apart { AreApart spans.now }
    requires fits { text.now.start + length text.now.bytes.now < 2 ^ 64 }
    ensures { IfOk result (λ made. map highlight_of made.items ≡ pieces style spans.now (text_cells text.now)) }
{
    if all_printable(text.bytes) {
        return printable_pieces(alloc, style, spans, text);
    }
    pieces_of(alloc, style, spans, text)
}

// Prints a run of printable ASCII.
fn push_run<O: Canvas>(page: &mut RowPrinter<O>, style: Style, bytes: &[u8]) -> PushResult
    requires { list_all is_printable bytes.now ≡ true }
    ensures { OnOk result (page.new ≡ page.old ⊕ styled_tokens style bytes.now) }
{
    page.begin(style)?;
    let Ok(text) = str::from_utf8(bytes) else {
        unreachable!();
    };
    page.push_str(text)
}

// Prints printable ASCII in pieces, each a length in bytes and a style. Text after the last piece is plain.
fn push_pieces<O: Canvas>(
    page: &mut RowPrinter<O>,
    text: &[u8],
    pieces: &[(usize, Style)],
) -> PushResult
    requires { list_all is_printable text.now ≡ true }
    ensures { OnOk result (page.new ≡ page.old ⊕ pieces_told (map highlight_of pieces.now) text.now) }
{
    let mut rest = text;
    for piece in pieces {
        let (own, later) = rest.split_at(piece.0.min(rest.len()));
        push_run(page, piece.1, own)?;
        rest = later;
    }
    push_run(page, PLAIN, rest)
}

/// Prints the shown text of a changed line: all of it, or its shown parts with the theme's dots in between. Each piece
/// is a length in bytes and a style. Text after the last piece is plain. `AllocError` if allocation fails, or if a
/// column or a byte count exceeds `usize::MAX`.
pub(crate) fn push_changed_text<O: Canvas>(
    page: &mut RowPrinter<O>,
    text: &LineText,
    pieces: &[(usize, Style)],
    cut: &LineCut,
    theme: &GraphicalTheme,
) -> PushResult
    requires { text.now.start + length text.now.bytes.now < 2 ^ 64 }
    ensures { OnOk result (page.new ≡ page.old ⊕ row_tokens (made_runs (dots (theme_of theme.now))
        (option_map (λ made. made.items) cut.now) (map highlight_of pieces.now) (text_cells text.now))) }
{
    match cut {
        None if all_printable(text.bytes) => push_pieces(page, text.bytes, pieces),
        _ => push_shown_text(page, text, pieces, cut, theme),
    }
}
