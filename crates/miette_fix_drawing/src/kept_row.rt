//! The row of an unchanged line.

ghost use Rattle.std.specs.Prelude.{◌≡◌, ◌∷◌, [], ◌+◌, ◌<◌, ◌^◌, length, OnOk};
ghost use Rattle.miette_style.specs.views.Printouts.{◌⊕◌};
ghost use Rattle.miette_style.specs.views.Tokens.{rows_tokens};
ghost use Rattle.miette_snippet_rules.specs.views.SnippetSettings.{settings_of};
ghost use Rattle.miette_fix_rows.specs.rules.DiffRows.{kept_row};
ghost use Rattle.miette_fix_drawing.specs.views.DiffPositions.{diff_position_of};

use crate::diff_position::DiffPosition;
use crate::line_starts::{PushResult, push_number_start};
use crate::texts::strip_terminator;
use miette_lines::sums::sum;
use miette_snippet_cuts::cutting::cut_long_line;
use miette_snippet_frames::frame::Frame;
use miette_snippet_rules::dots::dots_width;
use miette_snippet_rules::line_bytes::LineText;
use miette_snippet_rules::line_printing::push_shown_text;
use miette_style::canvas::Canvas;
use miette_style::page::RowPrinter;

/// Prints an unchanged line with its number in the source: ` 12 │ text`. `AllocError` if allocation fails, or if a
/// number or a column exceeds `usize::MAX`.
pub fn push_kept_row<O: Canvas>(
    page: &mut RowPrinter<O>,
    frame: &Frame,
    at: &DiffPosition,
    line: &[u8],
) -> PushResult
    requires { at.now.old_offset + length line.now < 2 ^ 64 }
    ensures { OnOk result (page.new ≡ page.old ⊕ rows_tokens (kept_row (settings_of frame.now.settings)
        frame.now.number_width (diff_position_of at.now) line.now ∷ [])) }
{
    let number = sum(at.old_line, 1)?;
    let settings = &frame.settings;
    let text = LineText {
        start: at.old_offset,
        bytes: strip_terminator(line),
        tab: settings.layout.tab_width,
    };
    let dots = dots_width(settings.theme);
    let cut = cut_long_line(
        settings.alloc,
        &text,
        &[],
        settings.layout.line_columns,
        dots,
    )?;
    push_number_start(page, frame, number)?;
    push_shown_text(page, &text, &[], &cut, settings.theme)?;
    page.end_row()
}
