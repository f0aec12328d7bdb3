//! The lines of a label text, which is split at each LF.

ghost use Rattle.std.specs.Prelude.{◌≡◌, ◌++◌, ◌<◌, ◌∷◌, [], chars, length, option_copied, IfSome, OnOk};
ghost use Rattle.miette_labels.specs.rules.Labels.{cut_at_lf, parts_of};
ghost use Rattle.miette_style.specs.views.Printouts.{◌⊕◌};
ghost use Rattle.miette_style.specs.views.Tokens.{row_end, styled_tokens};

use crate::frame::PushResult;
use miette_style::canvas::Canvas;
use miette_style::page::RowPrinter;
use miette_style::style::Style;

/// Returns the first line of a text, and the text after its LF if there is one.
pub(crate) fn first_part(text: &str) -> (&str, Option<&str>)
    ensures cut { cut_at_lf (chars text.now) ≡ chars result.0.now ∷ parts_of (option_copied result.1) }
    ensures shorter { IfSome result.1 (λ rest. length rest.now < length text.now) }
{
    match text.split_once('\n') {
        Some((first, rest)) => (first, Some(rest)),
        None => (text, None),
    }
}

/// Prints the end of a row with one line of a label text: `─ a label's text`. `AllocError` if allocation fails.
pub(crate) fn push_part<O: Canvas>(
    page: &mut RowPrinter<O>,
    style: Style,
    bar: char,
    part: &str,
) -> PushResult
    ensures { OnOk result (page.new ≡ page.old ⊕ (styled_tokens style (bar ∷ 32 ∷ chars part.now) ++ row_end ∷ [])) }
{
    page.push_line(style, bar, ' ', 1)?;
    page.push_str(part)?;
    page.end_row()
}
