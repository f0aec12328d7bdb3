//! Printing a cut line of printable ASCII, byte by byte instead of character by character.

ghost use Rattle.std.specs.Prelude.{◌≡◌, ℕ, List, true, take, OnOk};
ghost use Rattle.std.specs.List.{list_all};
ghost use Rattle.miette_style.specs.views.Printouts.{◌⊕◌};
ghost use Rattle.miette_columns.specs.views.Printable.{is_printable};
ghost use Rattle.miette_style.specs.rules.Themes.{theme_of};
ghost use Rattle.miette_snippet_rules.specs.rules.CutLines.{dots};
ghost use Rattle.miette_snippet_rules.specs.steps.PlainCut.{plain_part, plain_told};

use crate::dots::push_dots;
use crate::line_part::LinePart;
use crate::tabs::push_ascii;
use miette_style::canvas::Canvas;
use miette_style::page::{PLAIN, RowPrinter};
use miette_style::theme::GraphicalTheme;
use std::alloc::AllocError;

// Prints the part that these bytes begin with, or the theme's dots if it is left out.
fn push_plain_part<O: Canvas>(
    page: &mut RowPrinter<O>,
    own: &[u8],
    part: &LinePart,
    theme: &GraphicalTheme,
) -> Result<(), AllocError>
    requires { list_all is_printable own.now ≡ true }
    ensures { OnOk result ((bytes : List ℕ) → own.now ≡ take part.now.cells bytes →
        page.new ≡ page.old ⊕ plain_part (dots (theme_of theme.now)) part.now bytes) }
{
    if !part.shown {
        return push_dots(page, theme);
    }
    page.begin(PLAIN)?;
    push_ascii(page, own)
}

/// Prints a line of printable ASCII that is cut into the parts `cut`, with the theme's dots. `AllocError` if allocation
/// fails.
pub(crate) fn push_plain_cut<O: Canvas>(
    page: &mut RowPrinter<O>,
    text: &[u8],
    cut: &[LinePart],
    theme: &GraphicalTheme,
) -> Result<(), AllocError>
    requires { list_all is_printable text.now ≡ true }
    ensures { OnOk result (page.new ≡ page.old ⊕ plain_told (dots (theme_of theme.now)) cut.now text.now) }
{
    let mut rest = text;
    for part in cut {
        let (own, later) = rest.split_at(part.cells.min(rest.len()));
        push_plain_part(page, own, part, theme)?;
        rest = later;
    }
    Ok(())
}
