//! The gutter of a row, which shows the multi-line labels on its line.

ghost use Rattle.std.specs.Prelude.{◌≡◌, ◌++◌, ◌-◌, ◌∷◌, [], replicate, map, OnOk, if◌then◌else◌};
ghost use Rattle.miette_style.specs.views.Printouts.{◌⊕◌};
ghost use Rattle.miette_style.specs.views.Tokens.{row_tokens, styled_tokens};
ghost use Rattle.miette_labels.specs.rules.Labels.{starts_on, ends_on};
ghost use Rattle.miette_snippet_rules.specs.rules.Gutters.{bar, break_gutter, ending_corner};
ghost use Rattle.miette_labels.specs.views.ProgramLabels.{drawn_of};
ghost use Rattle.miette_snippet_frames.specs.views.LineContexts.{settings, multi_labels};
ghost use Rattle.miette_snippet_frames.specs.views.GutterEnds.{stops, gutter_end, gutter_with};
ghost use Rattle.miette_lines.specs.views.Walking.{line_of_text};

use crate::frame::PushResult;
use crate::line_context::LineContext;
use miette_labels::placed::PlacedLabel;
use miette_lines::lines::LineOfText;
use miette_style::canvas::Canvas;
use miette_style::page::{PLAIN, RowPrinter};
use miette_style::style::Style;

/// How a gutter continues from the label at which its bars stop.
#[derive(Clone, Copy)]
pub enum GutterEnd {
    /// In a number row: an arrow from the first label that begins or ends on the line, `╭─▶ `.
    Arrow,
    /// Below it: a corner and bars from the first label that ends on the line, `╰───`.
    Corner,
    /// With spaces.
    Open,
}

// Returns whether a label begins on the line.
pub(crate) fn starts(line: &LineOfText, label: &PlacedLabel<'_>) -> bool
    ensures { result ≡ starts_on (line_of_text line.now) (drawn_of label.now) }
{
    line.start <= label.start && label.start < line.end
}

// Returns whether a label ends on the line.
pub(crate) fn ends(line: &LineOfText, label: &PlacedLabel<'_>) -> bool
    ensures { result ≡ ends_on (line_of_text line.now) (drawn_of label.now) }
{
    if label.start == label.after {
        line.start <= label.start && label.start < line.end
    } else {
        line.start < label.after && label.after <= line.end
    }
}

// Returns whether a gutter's bars stop at this label.
fn stops(line: &LineOfText, label: &PlacedLabel<'_>, end: GutterEnd) -> bool
    ensures { result ≡ stops end (line_of_text line.now) (drawn_of label.now) }
{
    match end {
        GutterEnd::Arrow => starts(line, label) || ends(line, label),
        GutterEnd::Corner | GutterEnd::Open => ends(line, label),
    }
}

// Returns the corner of the arrow for a label that begins or ends on the line.
fn arrow_corner(context: &LineContext, label: &PlacedLabel<'_>) -> char
    ensures { result ≡ (if starts_on (line_of_text context.now.line) (drawn_of label.now)
        then (settings context.now).theme.characters.ltop
        else ending_corner (settings context.now).theme.characters (drawn_of label.now).parts) }
{
    if starts(&context.line, label) {
        return context.frame.settings.theme.characters.ltop;
    }
    match label.text {
        Some(_) => context.frame.settings.theme.characters.lcross,
        None => context.frame.settings.theme.characters.lbot,
    }
}

// Prints an arrow from a corner, and a space: `╭──▶ `.
fn push_arrow<O: Canvas>(
    page: &mut RowPrinter<O>,
    context: &LineContext,
    style: Style,
    corner: char,
    left: usize,
) -> PushResult
    ensures { OnOk result (page.new ≡ page.old
        ⊕ (styled_tokens style (corner ∷ replicate (left - 3) (settings context.now).theme.characters.hbar
        ++ (settings context.now).theme.characters.rarrow ∷ []) ++ styled_tokens PLAIN (32 ∷ []))) }
{
    let characters = &context.frame.settings.theme.characters;
    page.push_line(style, corner, characters.hbar, left.saturating_sub(3))?;
    page.push(characters.rarrow)?;
    page.push_blank(1)
}

// Prints the rest of a gutter, from the label at which the bars stop. `left` is the number of columns that remain.
fn push_gutter_end<O: Canvas>(
    page: &mut RowPrinter<O>,
    context: &LineContext,
    label: &PlacedLabel<'_>,
    left: usize,
    end: GutterEnd,
) -> PushResult
    ensures { OnOk result (page.new ≡ page.old ⊕ row_tokens (gutter_end end (settings context.now)
        (line_of_text context.now.line) left (drawn_of label.now))) }
{
    match end {
        GutterEnd::Arrow => {
            let corner = arrow_corner(context, label);
            push_arrow(page, context, label.style, corner, left)
        }
        GutterEnd::Corner => {
            let characters = &context.frame.settings.theme.characters;
            let bars = left.saturating_sub(1);
            page.push_line(label.style, characters.lbot, characters.hbar, bars)
        }
        GutterEnd::Open => page.push_blank(left),
    }
}

/// Prints the gutter of a row, `columns` wide. Each label before the first one at which the bars stop has a bar, then
/// comes the end: `│╭─▶ `, `│╰───` or `│    `. `AllocError` if allocation fails.
pub fn push_gutter<O: Canvas>(
    page: &mut RowPrinter<O>,
    context: &LineContext,
    columns: usize,
    end: GutterEnd,
) -> PushResult
    ensures { OnOk result (page.new ≡ page.old ⊕ row_tokens (gutter_with end (settings context.now)
        (line_of_text context.now.line) columns (multi_labels context.now))) }
{
    let bar = context.frame.settings.theme.characters.vbar;
    let mut left = columns;
    for label in context.multi {
        if stops(&context.line, label, end) {
            return push_gutter_end(page, context, label, left, end);
        }
        page.push_line(label.style, bar, bar, 0)?;
        left = left.saturating_sub(1);
    }
    page.push_blank(left)
}

// Prints a bar for each label.
fn push_bars<O: Canvas>(page: &mut RowPrinter<O>, context: &LineContext) -> PushResult
    ensures { OnOk result (page.new ≡ page.old
        ⊕ row_tokens (map (bar (settings context.now)) (multi_labels context.now))) }
{
    let vbar = context.frame.settings.theme.characters.vbar;
    for label in context.multi {
        page.push_line(label.style, vbar, vbar, 0)?;
    }
    Ok(())
}

/// Prints the gutter of a break row: a space, and a bar for each label that runs through, as in ` ││`. Prints nothing
/// if there is no such label. `AllocError` if allocation fails.
pub fn push_break_gutter<O: Canvas>(page: &mut RowPrinter<O>, context: &LineContext) -> PushResult
    ensures { OnOk result (page.new ≡ page.old ⊕ row_tokens
        (break_gutter (settings context.now) (multi_labels context.now))) }
{
    if context.multi.is_empty() {
        return Ok(());
    }
    page.push_blank(1)?;
    push_bars(page, context)
}
