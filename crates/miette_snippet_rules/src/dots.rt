//! The dots that replace the parts of a cut line that are left out.

ghost use Rattle.std.specs.Prelude.{◌≡◌, ◌∷◌, [], OnOk, nat_lt};
ghost use Rattle.miette_style.specs.views.Printouts.{◌⊕◌};
ghost use Rattle.miette_style.specs.views.Tokens.{row_tokens};
ghost use Rattle.miette_style.specs.rules.Themes.{characters_of, theme_of};
ghost use Rattle.miette_snippet_rules.specs.rules.CutLines.{dots, dots_width as dots_of_characters};

use miette_style::canvas::Canvas;
use miette_style::page::RowPrinter;
use miette_style::theme::GraphicalTheme;
use std::alloc::AllocError;

// Returns whether the frame characters of the theme are ASCII.
fn is_ascii(theme: &GraphicalTheme) -> bool
    ensures { result ≡ nat_lt (characters_of theme.now.characters).vbar 0x80 }
{
    theme.characters.vbar < '\u{80}'
}

/// Returns the width of a theme's dots in columns: 3 (`...`) if its frame characters are ASCII, else 1 (`…`).
pub fn dots_width(theme: &GraphicalTheme) -> usize
    ensures { result ≡ dots_of_characters (characters_of theme.now.characters) }
{
    if is_ascii(theme) { 3 } else { 1 }
}

/// Prints the theme's dots in the style of line numbers. `AllocError` if allocation fails.
pub(crate) fn push_dots<O: Canvas>(
    page: &mut RowPrinter<O>,
    theme: &GraphicalTheme,
) -> Result<(), AllocError>
    ensures { OnOk result (page.new ≡ page.old ⊕ row_tokens (dots (theme_of theme.now) ∷ [])) }
{
    page.begin(theme.styles.linum)?;
    if is_ascii(theme) {
        return page.push_copies('.', 3);
    }
    page.push('\u{2026}')
}
