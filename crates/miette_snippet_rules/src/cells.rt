//! Printing single characters of a line, with tabs expanded.

ghost use Rattle.std.specs.Prelude.{◌≡◌, map, OnOk};
ghost use Rattle.miette_snippet_rules.specs.rules.PrintedCells.{printed_glyphs, cells_within, cells_beyond};
ghost use Rattle.miette_style.specs.views.Printouts.{◌⊕◌};
ghost use Rattle.miette_style.specs.views.Tokens.{text_tokens};
ghost use Rattle.miette_snippet_rules.specs.steps.CellTokens.{cells_tokens};
ghost use Rattle.miette_columns.specs.views.Walking.{cell_of};

use miette_columns::cells::{Cell, CellWalk};
use miette_style::canvas::Canvas;
use miette_style::page::RowPrinter;
use std::alloc::AllocError;

/// Prints one character; a tab becomes spaces. `AllocError` if allocation fails.
pub(crate) fn push_cell<O: Canvas>(page: &mut RowPrinter<O>, cell: &Cell) -> Result<(), AllocError>
    ensures { OnOk result (page.new ≡ page.old ⊕ text_tokens (map (λ p. p.code) (printed_glyphs (cell_of cell.now)))) }
{
    if cell.code == '\t' {
        page.push_copies(' ', cell.until.saturating_sub(cell.from))?;
    } else {
        page.push(cell.code)?;
    }
    Ok(())
}

/// Prints the characters that take up the next `bytes` bytes of the text. `AllocError` if allocation fails or a column
/// exceeds `usize::MAX`.
pub(crate) fn push_cells_within<O: Canvas>(
    page: &mut RowPrinter<O>,
    walk: &mut CellWalk,
    bytes: usize,
) -> Result<(), AllocError>
    ensures within { OnOk result (page.new ≡ page.old ⊕ cells_tokens (cells_within bytes walk.old)) }
    ensures beyond { OnOk result (walk.new ≡ cells_beyond bytes walk.old) }
{
    let mut left = bytes;
    while left > 0 {
        let Some(cell) = walk.next()? else {
            return Ok(());
        };
        push_cell(page, &cell)?;
        left = left.saturating_sub(cell.code.len_utf8());
    }
    Ok(())
}

/// Prints all remaining characters. `AllocError` if allocation fails or a column exceeds `usize::MAX`.
pub(crate) fn push_cells<O: Canvas>(
    page: &mut RowPrinter<O>,
    walk: &mut CellWalk,
) -> Result<(), AllocError>
    ensures { OnOk result (page.new ≡ page.old ⊕ cells_tokens walk.old) }
{
    while let Some(cell) = walk.next()? {
        push_cell(page, &cell)?;
    }
    Ok(())
}
