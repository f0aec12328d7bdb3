//! Printing a cut line: its shown parts in the highlighter's styles, and dots for each part that is left out.

ghost use Rattle.std.specs.Prelude.{◌≡◌, ◌∷◌, [], List, map, take, drop, if◌then◌else◌, IfOk, OnOk};
ghost use Rattle.miette_columns.specs.rules.Cells.{Cell};
ghost use Rattle.miette_style.specs.views.Printouts.{◌⊕◌, Printout};
ghost use Rattle.miette_style.specs.views.Tokens.{row_tokens};
ghost use Rattle.miette_style.specs.rules.Rows.{Run};
ghost use Rattle.miette_style.specs.rules.Themes.{theme_of};
ghost use Rattle.miette_snippet_rules.specs.rules.CutLines.{dots, pieces_within};
ghost use Rattle.miette_snippet_rules.specs.rules.Highlighting.{highlight_of};
ghost use Rattle.miette_snippet_rules.specs.rules.PrintedCells.{cells_within, cells_beyond, line_runs};
ghost use Rattle.miette_snippet_rules.specs.declared.line_part.LinePart.{LinePart as MadePart};
ghost use Rattle.miette_snippet_rules.specs.views.Cuts.{cut_cells};
ghost use Rattle.miette_snippet_rules.specs.steps.CellTokens.{cells_tokens};

use crate::cells::push_cell;
use crate::dots::push_dots;
use crate::line_part::LinePart;
use miette_columns::cells::CellWalk;
use miette_lines::sums::sum;
use miette_style::canvas::Canvas;
use miette_style::page::{PLAIN, RowPrinter};
use miette_style::style::Style;
use miette_style::theme::GraphicalTheme;
use std::alloc::AllocError;

// Prints those of the next `many` cells that take up `bytes` bytes. Returns how many of the `many` cells remain.
fn push_some<O: Canvas>(
    page: &mut RowPrinter<O>,
    walk: &mut CellWalk,
    many: usize,
    bytes: usize,
) -> Result<usize, AllocError>
    ensures within { IfOk result (λ left. page.new ≡ page.old
        ⊕ cells_tokens (cells_within bytes (take many walk.old))) }
    ensures beyond { IfOk result (λ left. take left walk.new ≡ cells_beyond bytes (take many walk.old)) }
    ensures later { IfOk result (λ left. drop left walk.new ≡ drop many walk.old) }
{
    let mut many = many;
    let mut left = bytes;
    while left > 0 {
        if many == 0 {
            return Ok(0);
        }
        let Some(cell) = walk.next()? else {
            return Ok(many);
        };
        push_cell(page, &cell)?;
        left = left.saturating_sub(cell.code.len_utf8());
        many -= 1;
    }
    Ok(many)
}

// Prints the next `many` cells.
fn push_all<O: Canvas>(
    page: &mut RowPrinter<O>,
    walk: &mut CellWalk,
    many: usize,
) -> Result<(), AllocError>
    ensures told { OnOk result (page.new ≡ page.old ⊕ cells_tokens (take many walk.old)) }
    ensures later { OnOk result (walk.new ≡ drop many walk.old) }
{
    for _ in 0..many {
        let Some(cell) = walk.next()? else {
            return Ok(());
        };
        push_cell(page, &cell)?;
    }
    Ok(())
}

// Skips `many` cells.
fn skip(walk: &mut CellWalk, many: usize) -> Result<(), AllocError>
    ensures { OnOk result (walk.new ≡ drop many walk.old) }
{
    let mut left = many;
    while left > 0 {
        let plain = walk.pass_plain(left)?;
        left -= plain.many;
        if plain.many == 0 {
            let Some(cell) = walk.next()? else {
                return Ok(());
            };
            let _passed = cell;
            left -= 1;
        }
    }
    Ok(())
}

// A highlighter's pieces, and how many bytes of them come before the current position.
#[derive(Clone, Copy)]
struct Pieces<'a> {
    pieces: &'a [(usize, Style)],
    before: usize,
}

// Drops the pieces that end at the current position or earlier.
fn pieces_after<'a>(all: &Pieces<'a>) -> Pieces<'a>
    ensures { (run : Run) → (cut : List MadePart) → (cells : List Cell) → (page : Printout) →
        page ⊕ row_tokens (cut_cells run (map highlight_of result.pieces.now) result.before cut cells)
        ≡ page ⊕ row_tokens (cut_cells run (map highlight_of all.now.pieces.now) all.now.before cut cells) }
{
    let mut rest = all.pieces;
    let mut before = all.before;
    while let Some((piece, later)) = rest.split_first() {
        if before < piece.0 {
            return Pieces {
                pieces: rest,
                before,
            };
        }
        before -= piece.0;
        rest = later;
    }
    Pieces {
        pieces: rest,
        before,
    }
}

// Prints the beginning of a part in the styles of the highlighter's pieces. Returns how many of its cells remain.
fn push_pieces<O: Canvas>(
    page: &mut RowPrinter<O>,
    walk: &mut CellWalk,
    all: &Pieces<'_>,
    part: &LinePart,
) -> Result<usize, AllocError>
    ensures told { IfOk result (λ left. page.new ⊕ row_tokens (line_runs [] (take left walk.new)) ≡ page.old
        ⊕ row_tokens (line_runs (pieces_within all.now.before part.now.bytes (map highlight_of all.now.pieces.now))
        (take part.now.cells walk.old))) }
    ensures later { IfOk result (λ left. drop left walk.new ≡ drop part.now.cells walk.old) }
{
    let mut before = all.before;
    let mut bytes = part.bytes;
    let mut many = part.cells;
    for piece in all.pieces {
        if bytes == 0 {
            return Ok(many);
        }
        let after = piece.0.saturating_sub(before);
        page.begin(piece.1)?;
        many = push_some(page, walk, many, after.min(bytes))?;
        before = before.saturating_sub(piece.0);
        bytes = bytes.saturating_sub(after);
    }
    Ok(many)
}

// Prints a part in the styles of the highlighter's pieces, or the theme's dots if the part is left out.
fn push_line_part_text<O: Canvas>(
    page: &mut RowPrinter<O>,
    walk: &mut CellWalk,
    all: &Pieces<'_>,
    part: &LinePart,
    theme: &GraphicalTheme,
) -> Result<(), AllocError>
    ensures told { OnOk result (page.new ≡ page.old ⊕ row_tokens (if part.now.shown
        then line_runs (pieces_within all.now.before part.now.bytes (map highlight_of all.now.pieces.now))
        (take part.now.cells walk.old) else dots (theme_of theme.now) ∷ [])) }
    ensures later { OnOk result (walk.new ≡ drop part.now.cells walk.old) }
{
    if !part.shown {
        push_dots(page, theme)?;
        return skip(walk, part.cells);
    }
    let many = push_pieces(page, walk, all, part)?;
    page.begin(PLAIN)?;
    push_all(page, walk, many)
}

/// Prints a line that is cut into the parts `cut`. Each piece of the highlighter is a length in bytes and a style. Text
/// after the last piece is plain. Parts that are left out become the theme's dots. `AllocError` if allocation fails, or
/// if a column or a byte count exceeds `usize::MAX`.
pub(crate) fn push_cut<O: Canvas>(
    page: &mut RowPrinter<O>,
    walk: &mut CellWalk,
    pieces: &[(usize, Style)],
    cut: &[LinePart],
    theme: &GraphicalTheme,
) -> Result<(), AllocError>
    ensures { OnOk result (page.new ≡ page.old
        ⊕ row_tokens (cut_cells (dots (theme_of theme.now)) (map highlight_of pieces.now) 0 cut.now walk.old)) }
{
    let mut rest = Pieces { pieces, before: 0 };
    for part in cut {
        let after = pieces_after(&rest);
        push_line_part_text(page, walk, &after, part, theme)?;
        let before = sum(after.before, part.bytes)?;
        rest = Pieces {
            pieces: after.pieces,
            before,
        };
    }
    Ok(())
}
