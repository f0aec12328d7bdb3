//! Label texts below an underline row, with their connectors. The last label's text comes first.

ghost use Rattle.std.specs.Prelude.{◌≡◌, ◌+◌, ◌∷◌, [], chars, map, OnOk};
ghost use Rattle.std.specs.List.{All};
ghost use Rattle.miette_style.specs.views.Printouts.{◌⊕◌};
ghost use Rattle.miette_style.specs.views.Tokens.{row_tokens, rows_tokens};
ghost use Rattle.miette_labels.specs.rules.Labels.{cut_at_lf};
ghost use Rattle.miette_snippet_rules.specs.rules.LabelRows.{connector_runs, beside, rows_of_parts, label_text_rows};
ghost use Rattle.miette_snippet_rules.specs.rules.Frames.{other_start};
ghost use Rattle.miette_snippet_rules.specs.rules.SnippetLayout.{before_each};
ghost use Rattle.miette_labels.specs.views.ProgramLabels.{drawn_of};
ghost use Rattle.miette_snippet_rules.specs.views.MadeUnderlines.{underline_of, HasOwnPointer};
ghost use Rattle.miette_snippet_frames.specs.views.LineContexts.{settings, before_underlines, text_line};

use crate::frame::PushResult;
use crate::gutters::{GutterEnd, push_gutter};
use crate::label_text::first_part;
use crate::line_context::LineContext;
use miette_lines::sums::sum;
use miette_snippet_rules::underlines::Underline;
use miette_style::canvas::Canvas;
use miette_style::page::{PLAIN, RowPrinter};
use std::alloc::AllocError;

/// Prints what comes before the gutter of a row without a number: `   · `. `AllocError` if allocation fails or
/// `number_width + 2` exceeds `usize::MAX`.
pub(crate) fn push_other_start<O: Canvas>(
    page: &mut RowPrinter<O>,
    context: &LineContext,
) -> PushResult
    ensures { OnOk result (page.new ≡ page.old
        ⊕ row_tokens (other_start (settings context.now) context.now.frame.number_width)) }
{
    let columns = sum(context.frame.number_width, 2)?;
    page.push_blank(columns)?;
    page.push_line(
        PLAIN,
        context.frame.settings.theme.characters.vbar_break,
        ' ',
        1,
    )
}

/// Prints what comes before underlines and label texts: `   · │╰──`. Fails as `push_other_start` does.
pub fn push_before_underlines<O: Canvas>(
    page: &mut RowPrinter<O>,
    context: &LineContext,
) -> PushResult
    ensures { OnOk result (page.new ≡ page.old ⊕ row_tokens (before_underlines context.now)) }
{
    push_other_start(page, context)?;
    push_gutter(page, context, context.gutter, GutterEnd::Corner)
}

// Returns the column after an underline's pointer.
fn after_pointer(mark: &Underline) -> usize
    requires { HasOwnPointer mark.now }
    ensures { result ≡ mark.now.pointer + 1 }
{
    prove!(mark.pointer < mark.until);
    mark.pointer + 1
}

// Prints a bar below the pointer of each earlier underline, and spaces up to `column`, where a connector begins.
fn push_earlier_pointers<O: Canvas>(
    page: &mut RowPrinter<O>,
    context: &LineContext,
    earlier: &[Underline],
    column: usize,
) -> PushResult
    requires { All HasOwnPointer earlier.now }
    ensures { OnOk result (page.new ≡ page.old
        ⊕ row_tokens (connector_runs (settings context.now) 0
        (map underline_of earlier.now) column)) }
{
    let bar = context.frame.settings.theme.characters.vbar;
    let mut reached: usize = 0;
    for mark in earlier {
        page.push_blank(mark.pointer.saturating_sub(reached))?;
        page.push_line(mark.label.style, bar, bar, 0)?;
        reached = after_pointer(mark);
    }
    page.push_blank(column.saturating_sub(reached))
}

// A label text to print, with its underline and those before it.
#[derive(Clone, Copy)]
struct ConnectedText<'a, 'b> {
    context: &'a LineContext<'a>,
    earlier: &'b [Underline<'b>],
    mark: &'b Underline<'b>,
}

// The characters of a connector, without the space after it: `╰──`.
#[derive(Clone, Copy)]
struct Connector {
    corner: char,
    line: char,
    end: char,
}

// Prints the row of one line of a label text: `   ·   │ ╰── a label's text`.
fn push_text_row<O: Canvas>(
    page: &mut RowPrinter<O>,
    hung: &ConnectedText,
    leader: Connector,
    part: &str,
) -> PushResult
    requires earlier { All HasOwnPointer hung.now.earlier.now }
    requires own { HasOwnPointer hung.now.mark.now }
    ensures { OnOk result (page.new ≡ page.old
        ⊕ rows_tokens (text_line hung.now.context.now (map underline_of hung.now.earlier.now)
        (underline_of hung.now.mark.now) (leader.corner ∷ leader.line ∷ leader.end ∷ 32 ∷ []) (chars part.now) ∷ [])) }
{
    push_before_underlines(page, hung.context)?;
    push_earlier_pointers(page, hung.context, hung.earlier, hung.mark.pointer)?;
    page.push_line(hung.mark.label.style, leader.corner, leader.line, 1)?;
    page.push(leader.end)?;
    page.push(' ')?;
    page.push_str(part)?;
    page.end_row()
}

// Prints the lines of a label text after the first: `   ·   │   │ a label's text`.
fn push_more_parts<O: Canvas>(
    page: &mut RowPrinter<O>,
    hung: &ConnectedText,
    text: &str,
) -> PushResult
    requires earlier { All HasOwnPointer hung.now.earlier.now }
    requires own { HasOwnPointer hung.now.mark.now }
    ensures { OnOk result (page.new ≡ page.old ⊕ rows_tokens (map
        (text_line hung.now.context.now (map underline_of hung.now.earlier.now) (underline_of hung.now.mark.now)
        (beside (settings hung.now.context.now).theme.characters))
        (cut_at_lf (chars text.now)))) }
{
    let context = hung.context;
    let leader = Connector {
        corner: ' ',
        line: ' ',
        end: context.frame.settings.theme.characters.vbar,
    };
    let mut left = Some(text);
    while let Some(text) = left {
        let (part, rest) = first_part(text);
        push_text_row(page, hung, leader, part)?;
        left = rest;
    }
    Ok(())
}

// Prints a label text: `╰── text`, or `╰─┤ text` and a row for each further line.
fn push_text<O: Canvas>(page: &mut RowPrinter<O>, hung: &ConnectedText) -> PushResult
    requires earlier { All HasOwnPointer hung.now.earlier.now }
    requires own { HasOwnPointer hung.now.mark.now }
    ensures { OnOk result (page.new ≡ page.old ⊕ rows_tokens (before_each (before_underlines hung.now.context.now)
        (rows_of_parts (settings hung.now.context.now)
        (map underline_of hung.now.earlier.now) (underline_of hung.now.mark.now)
        (drawn_of hung.now.mark.now.label).parts))) }
{
    let Some(text) = hung.mark.label.text else {
        return Ok(());
    };
    let context = hung.context;
    let characters = &context.frame.settings.theme.characters;
    let (first, rest) = first_part(text);
    let Some(rest) = rest else {
        let leader = Connector {
            corner: characters.lbot,
            line: characters.hbar,
            end: characters.hbar,
        };
        return push_text_row(page, hung, leader, first);
    };
    let leader = Connector {
        corner: characters.lbot,
        line: characters.hbar,
        end: characters.rcross,
    };
    push_text_row(page, hung, leader, first)?;
    push_more_parts(page, hung, rest)
}

/// Prints the label texts of all underlines, last one first. Fails as `push_other_start` does.
pub fn push_label_texts<O: Canvas>(
    page: &mut RowPrinter<O>,
    context: &LineContext,
    marks: &[Underline],
) -> PushResult
    requires { All HasOwnPointer marks.now }
    ensures { OnOk result (page.new ≡ page.old ⊕ rows_tokens (before_each (before_underlines context.now)
        (label_text_rows (settings context.now) []
        (map underline_of marks.now)))) }
{
    let mut place = marks.len();
    while place > 0 {
        place -= 1;
        let hung = ConnectedText {
            context: &*context,
            earlier: &marks[..place],
            mark: &marks[place],
        };
        push_text(page, &hung)?;
    }
    Ok(())
}
