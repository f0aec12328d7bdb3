//! What comes before the text of a row.

ghost use Rattle.std.specs.Prelude.{◌≡◌, ◌∷◌, [], OnOk};
ghost use Rattle.miette_style.specs.views.Printouts.{◌⊕◌};
ghost use Rattle.miette_style.specs.views.Tokens.{row_tokens};
ghost use Rattle.miette_snippet_rules.specs.rules.Frames.{number_start, other_start};
ghost use Rattle.miette_snippet_rules.specs.views.SnippetSettings.{settings_of};
ghost use Rattle.miette_fix_drawing.specs.steps.Starts.{digits_row};

use miette_lines::sums::sum;
use miette_snippet_frames::frame::Frame;
use miette_style::canvas::Canvas;
use miette_style::page::{PLAIN, RowPrinter};
use std::alloc::AllocError;

/// The result of printing rows: `AllocError` if allocation fails.
pub type PushResult = Result<(), AllocError>;

/// Prints a line number: ` 12`.
pub fn push_digits<O: Canvas>(page: &mut RowPrinter<O>, frame: &Frame, number: usize) -> PushResult
    ensures { OnOk result (page.new ≡ page.old
        ⊕ row_tokens (digits_row (settings_of frame.now.settings) frame.now.number_width number)) }
{
    page.push_blank(1)?;
    page.begin(frame.settings.theme.styles.linum)?;
    page.push_right(number, frame.number_width)
}

/// Prints what comes before an unchanged line: ` 12 │ `.
pub fn push_number_start<O: Canvas>(
    page: &mut RowPrinter<O>,
    frame: &Frame,
    number: usize,
) -> PushResult
    ensures { OnOk result (page.new ≡ page.old
        ⊕ row_tokens (number_start (settings_of frame.now.settings) frame.now.number_width number)) }
{
    push_digits(page, frame, number)?;
    page.push_line(PLAIN, ' ', frame.settings.theme.characters.vbar, 1)?;
    page.push(' ')
}

/// Prints what comes before underlines: `    · `.
pub fn push_other_start<O: Canvas>(page: &mut RowPrinter<O>, frame: &Frame) -> PushResult
    ensures { OnOk result (page.new ≡ page.old
        ⊕ row_tokens (other_start (settings_of frame.now.settings) frame.now.number_width)) }
{
    let columns = sum(frame.number_width, 2)?;
    page.push_blank(columns)?;
    page.push_line(PLAIN, frame.settings.theme.characters.vbar_break, ' ', 1)
}
