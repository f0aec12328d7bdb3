//! Label texts of multi-line labels that end on a line.

ghost use Rattle.std.specs.Prelude.{◌≡◌, ◌∷◌, [], not, ◌&&◌, chars, map, OnOk};
ghost use Rattle.miette_style.specs.views.Printouts.{◌⊕◌};
ghost use Rattle.miette_style.specs.views.Tokens.{rows_tokens};
ghost use Rattle.miette_labels.specs.rules.Labels.{starts_on, ends_on, cut_at_lf, closing_labels};
ghost use Rattle.miette_snippet_rules.specs.rules.Gutters.{closing_parts, closing_rows};
ghost use Rattle.miette_snippet_rules.specs.rules.Frames.{other_start};
ghost use Rattle.miette_snippet_rules.specs.rules.SnippetLayout.{before_each};
ghost use Rattle.miette_labels.specs.views.ProgramLabels.{drawn_of};
ghost use Rattle.miette_snippet_frames.specs.views.LineContexts.{settings, multi_labels, part_line, open_line};
ghost use Rattle.miette_lines.specs.views.Walking.{line_of_text};

use crate::connectors::push_other_start;
use crate::frame::PushResult;
use crate::gutters::{GutterEnd, ends, push_gutter, starts};
use crate::label_text::{first_part, push_part};
use crate::line_context::LineContext;
use miette_labels::placed::PlacedLabel;
use miette_lines::lines::LineOfText;
use miette_style::canvas::Canvas;
use miette_style::page::RowPrinter;

// Returns whether a label ends on the line and begins before it.
fn closes(line: &LineOfText, label: &PlacedLabel<'_>) -> bool
    ensures { result ≡ ends_on (line_of_text line.now) (drawn_of label.now)
        && not (starts_on (line_of_text line.now) (drawn_of label.now)) }
{
    ends(line, label) && !starts(line, label)
}

// One line of a label text, after a gutter of `columns` columns and a bar.
#[derive(Clone, Copy)]
struct ClosingPart<'a> {
    end: GutterEnd,
    columns: usize,
    bar: char,
    text: &'a str,
}

// Prints one line of a label text: `   · │╰─── a label's text`, or `   · │   │ a label's text`.
fn push_part_row<O: Canvas>(
    page: &mut RowPrinter<O>,
    context: &LineContext,
    label: &PlacedLabel<'_>,
    part: &ClosingPart<'_>,
) -> PushResult
    ensures { OnOk result (page.new ≡ page.old
        ⊕ rows_tokens (part_line context.now part.now.end part.now.columns (drawn_of label.now) part.now.bar
        (chars part.now.text.now) ∷ [])) }
{
    push_other_start(page, context)?;
    push_gutter(page, context, part.columns, part.end)?;
    push_part(page, label.style, part.bar, part.text)
}

// Prints the lines of a label text after the first.
fn push_open_rows<O: Canvas>(
    page: &mut RowPrinter<O>,
    context: &LineContext,
    columns: usize,
    label: &PlacedLabel<'_>,
    text: &str,
) -> PushResult
    ensures { OnOk result (page.new ≡ page.old
        ⊕ rows_tokens (map (open_line context.now columns (drawn_of label.now))
        (cut_at_lf (chars text.now)))) }
{
    let bar = context.frame.settings.theme.characters.vbar;
    let mut left = Some(text);
    while let Some(text) = left {
        let (text, rest) = first_part(text);
        let part = ClosingPart {
            end: GutterEnd::Open,
            columns,
            bar,
            text,
        };
        push_part_row(page, context, label, &part)?;
        left = rest;
    }
    Ok(())
}

// Prints a label text: `╰──── text`, or `╰───┤ text` and a row for each further line.
fn push_end_text<O: Canvas>(
    page: &mut RowPrinter<O>,
    context: &LineContext,
    label: &PlacedLabel<'_>,
) -> PushResult
    ensures { OnOk result (page.new ≡ page.old
        ⊕ rows_tokens (before_each (other_start (settings context.now) context.now.frame.number_width)
        (closing_parts (settings context.now) (line_of_text context.now.line)
        context.now.gutter (multi_labels context.now)
        (drawn_of label.now) (drawn_of label.now).parts))) }
{
    let Some(text) = label.text else {
        return Ok(());
    };
    let characters = &context.frame.settings.theme.characters;
    let (first, rest) = first_part(text);
    let Some(rest) = rest else {
        let part = ClosingPart {
            end: GutterEnd::Corner,
            columns: context.gutter,
            bar: characters.hbar,
            text: first,
        };
        return push_part_row(page, context, label, &part);
    };
    let columns = context.gutter.saturating_sub(1);
    let part = ClosingPart {
        end: GutterEnd::Corner,
        columns,
        bar: characters.rcross,
        text: first,
    };
    push_part_row(page, context, label, &part)?;
    push_open_rows(page, context, columns, label, rest)
}

/// Prints the label texts of the multi-line labels that end on the context's line, in order. `AllocError` if allocation
/// fails or `number_width + 2` exceeds `usize::MAX`.
pub fn push_end_texts<O: Canvas>(page: &mut RowPrinter<O>, context: &LineContext) -> PushResult
    ensures { OnOk result (page.new ≡ page.old
        ⊕ rows_tokens (before_each (other_start (settings context.now) context.now.frame.number_width)
        (closing_rows (settings context.now) (line_of_text context.now.line)
        context.now.gutter (multi_labels context.now)
        (closing_labels (line_of_text context.now.line) (multi_labels context.now))))) }
{
    for label in context.multi {
        if closes(&context.line, label) {
            push_end_text(page, context, label)?;
        }
    }
    Ok(())
}
