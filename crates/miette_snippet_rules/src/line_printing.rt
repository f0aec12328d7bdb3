//! Printing the text of a line, whole or cut.

ghost use Rattle.std.specs.Prelude.{◌≡◌, ◌+◌, ◌^◌, ◌<◌, map, length, OnOk};
ghost use Rattle.std.specs.Option.{option_map};
ghost use Rattle.miette_style.specs.views.Printouts.{◌⊕◌};
ghost use Rattle.miette_style.specs.views.Tokens.{row_tokens};
ghost use Rattle.miette_style.specs.rules.Themes.{theme_of};
ghost use Rattle.miette_snippet_rules.specs.rules.CutLines.{dots};
ghost use Rattle.miette_snippet_rules.specs.rules.Highlighting.{highlight_of};
ghost use Rattle.miette_snippet_rules.specs.rules.PrintedCells.{line_runs};
ghost use Rattle.miette_snippet_rules.specs.views.Cuts.{made_runs};
ghost use Rattle.miette_snippet_rules.specs.views.LineTexts.{text_cells};

use crate::cells::{push_cells, push_cells_within};
use crate::cut_text::push_cut;
use crate::line_bytes::LineText;
use crate::line_part::LineCut;
use crate::plain_cut::push_plain_cut;
use crate::tabs::{all_tabbed, push_tabbed, text_without_tabs};
use miette_columns::cells::CellWalk;
use miette_columns::plain::all_printable;
use miette_style::canvas::Canvas;
use miette_style::page::{PLAIN, RowPrinter};
use miette_style::style::Style;
use miette_style::theme::GraphicalTheme;
use std::alloc::AllocError;

// Prints a text in the styles of the highlighter's pieces. Each piece is a length in bytes and a style. Text after the
// last piece is plain.
fn push_line_text<O: Canvas>(
    page: &mut RowPrinter<O>,
    walk: &mut CellWalk,
    pieces: &[(usize, Style)],
) -> Result<(), AllocError>
    ensures { OnOk result (page.new ≡ page.old ⊕ row_tokens (line_runs (map highlight_of pieces.now) walk.old)) }
{
    for piece in pieces {
        page.begin(piece.1)?;
        push_cells_within(page, walk, piece.0)?;
    }
    page.begin(PLAIN)?;
    push_cells(page, walk)
}

// Prints a whole text. Without pieces, UTF-8 without tabs is copied as it is, and printable ASCII is copied between its
// tabs. Any other text is printed character by character.
fn push_text<O: Canvas>(
    page: &mut RowPrinter<O>,
    text: &LineText,
    pieces: &[(usize, Style)],
) -> Result<(), AllocError>
    requires { text.now.start + length text.now.bytes.now < 2 ^ 64 }
    ensures { OnOk result (page.new ≡ page.old
        ⊕ row_tokens (line_runs (map highlight_of pieces.now) (text_cells text.now))) }
{
    if pieces.is_empty() {
        if let Some(untabbed) = text_without_tabs(text.bytes) {
            page.make_room(untabbed.len())?;
            page.begin(PLAIN)?;
            return page.push_str(untabbed);
        }
        if all_tabbed(text.bytes) {
            page.begin(PLAIN)?;
            return push_tabbed(page, text.bytes, text.tab);
        }
    }
    let mut walk = CellWalk::new(text.bytes, text.start, text.tab);
    push_line_text(page, &mut walk, pieces)
}

/// Prints the shown text of a line: all of it, or its shown parts with the theme's dots in between. Each piece of the
/// highlighter is a length in bytes and a style. Text after the last piece is plain. `AllocError` if allocation fails,
/// or if a column or a byte count exceeds `usize::MAX`.
pub fn push_shown_text<O: Canvas>(
    page: &mut RowPrinter<O>,
    text: &LineText,
    pieces: &[(usize, Style)],
    cut: &LineCut,
    theme: &GraphicalTheme,
) -> Result<(), AllocError>
    requires { text.now.start + length text.now.bytes.now < 2 ^ 64 }
    ensures { OnOk result (page.new ≡ page.old ⊕ row_tokens (made_runs (dots (theme_of theme.now))
        (option_map (λ made. made.items) cut.now) (map highlight_of pieces.now) (text_cells text.now))) }
{
    match cut {
        Some(cut) => {
            if pieces.is_empty() && all_printable(text.bytes) {
                return push_plain_cut(page, text.bytes, cut, theme);
            }
            let mut walk = CellWalk::new(text.bytes, text.start, text.tab);
            push_cut(page, &mut walk, pieces, cut, theme)
        }
        None => push_text(page, text, pieces),
    }
}
