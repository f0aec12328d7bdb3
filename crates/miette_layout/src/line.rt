//! All rows of one line.

ghost use Rattle.std.specs.Prelude.{◌≡◌, ◌+◌, ◌++◌, ◌^◌, ◌<◌, ◌∷◌, [], map, length, IfOk, OnOk, if◌then◌else◌};
ghost use Rattle.std.specs.List.{All};
ghost use Rattle.miette_snippet_rules.specs.rules.Underlines.{marks};
ghost use Rattle.miette_snippet_rules.specs.rules.LabelRows.{underline_rows};
ghost use Rattle.miette_snippet_rules.specs.rules.Frames.{number_start};
ghost use Rattle.miette_snippet_rules.specs.rules.SnippetLayout.{before_each, text_of_cells};
ghost use Rattle.miette_snippet_rules.specs.rules.SnippetLayout.{break_row, line_or_break_of, line_in, line_shown};
ghost use Rattle.miette_style.specs.views.Printouts.{◌⊕◌};
ghost use Rattle.miette_style.specs.views.Tokens.{row_tokens, rows_tokens};
ghost use Rattle.miette_snippet_rules.specs.rules.Highlighting.{highlight_of};
ghost use Rattle.std.specs.Option.{option_map};
ghost use Rattle.miette_snippet_rules.specs.rules.LabelColumns.{underline_ends, multi_line_ends};
ghost use Rattle.miette_snippet_rules.specs.rules.CutLines.{cut_line, dots, dots_width as dots_of_characters};
ghost use Rattle.miette_snippet_rules.specs.views.Cuts.{made_runs, measure};
ghost use Rattle.miette_snippet_rules.specs.views.LineTexts.{text_cells};
ghost use Rattle.miette_snippet_rules.specs.views.MadeUnderlines.{underline_of, HasOwnPointer};
ghost use Rattle.miette_snippet_frames.specs.views.LineContexts.{settings, multi_labels, before_underlines};
ghost use Rattle.miette_layout.specs.steps.ShownLines.{number_row, shown_cells, labels_alone};
ghost use Rattle.miette_lines.specs.views.Walking.{line_of_text};

use miette_snippet_cuts::cutting::{cut_long_line, underlines_in_row};
use miette_snippet_frames::connectors::{push_before_underlines, push_label_texts};
use miette_snippet_frames::end_texts::push_end_texts;
use miette_snippet_frames::gutters::{GutterEnd, push_break_gutter, push_gutter};
use miette_snippet_frames::line_context::LineContext;
use miette_snippet_frames::underlines::push_underlines;
use miette_snippet_rules::dots::dots_width;
use miette_snippet_rules::label_columns::label_columns_of;
use miette_snippet_rules::line_bytes::LineText;
use miette_snippet_rules::line_part::LineCut;
use miette_snippet_rules::line_printing::push_shown_text;
use miette_snippet_rules::line_underlines::underlines_on;
use miette_snippet_rules::underlines::Underline;
use miette_style::canvas::Canvas;
use miette_style::page::{PLAIN, RowPrinter};
use std::alloc::AllocError;

/// The result of printing rows: `AllocError` if allocation fails.
pub(crate) type PushResult = Result<(), AllocError>;

// Prints the number of a line: ` 12 │ `.
fn push_number_start<O: Canvas>(page: &mut RowPrinter<O>, context: &LineContext) -> PushResult
    ensures { OnOk result (page.new ≡ page.old
        ⊕ row_tokens (number_start (settings context.now) context.now.frame.number_width context.now.number)) }
{
    page.push_blank(1)?;
    page.begin(context.frame.settings.theme.styles.linum)?;
    page.push_right(context.number, context.frame.number_width)?;
    page.push_line(PLAIN, ' ', context.frame.settings.theme.characters.vbar, 1)?;
    page.push(' ')
}

// Prints the number row: ` 12 │ ╭─▶ the line's text`.
fn push_number_row<O: Canvas>(
    page: &mut RowPrinter<O>,
    context: &LineContext,
    text: &LineText,
    cut: &LineCut,
) -> PushResult
    requires { text.now.start + length text.now.bytes.now < 2 ^ 64 }
    ensures { OnOk result (page.new ≡ page.old ⊕ rows_tokens (number_row context.now
        (made_runs (dots (settings context.now).theme) (option_map (λ made. made.items) cut.now)
        (map highlight_of context.now.pieces.now) (text_cells text.now)) ∷ [])) }
{
    push_number_start(page, context)?;
    push_gutter(page, context, context.gutter, GutterEnd::Arrow)?;
    push_shown_text(
        page,
        text,
        context.pieces,
        cut,
        context.frame.settings.theme,
    )?;
    page.end_row()
}

// Prints the underline row and the label texts below it. Prints nothing without underlines.
fn push_underline_rows<O: Canvas>(
    page: &mut RowPrinter<O>,
    context: &LineContext,
    marks: &[Underline],
) -> PushResult
    requires { All HasOwnPointer marks.now }
    ensures { OnOk result (page.new ≡ page.old ⊕ rows_tokens (before_each (before_underlines context.now)
        (underline_rows (settings context.now)
        (map underline_of marks.now)))) }
{
    if marks.is_empty() {
        return Ok(());
    }
    push_before_underlines(page, context)?;
    push_underlines(page, context, marks)?;
    page.end_row()?;
    push_label_texts(page, context, marks)
}

// Returns the underlines of the one-line labels, by the columns of the whole line.
fn own_underlines<'a>(context: &LineContext<'a>) -> Result<Vec<Underline<'a>>, AllocError>
    requires { context.now.line.start + length context.now.text.now < 2 ^ 64 }
    ensures anchored { IfOk result (λ alone. All HasOwnPointer alone.items) }
    ensures marks { IfOk result (λ alone. map underline_of alone.items
        ≡ marks (text_of_cells (shown_cells context.now) context.now.line.text_end)
        (labels_alone context.now)) }
{
    if context.one.is_empty() {
        return Ok(Vec::new(context.frame.settings.alloc));
    }
    underlines_on(
        context.frame.settings.alloc,
        &context.line,
        context.text,
        context.frame.settings.layout.tab_width,
        context.one,
    )
}

// How a line is cut around the ends of these underlines and of the multi-line labels on it.
fn cut_of(
    context: &LineContext,
    text: &LineText,
    marks: &[Underline],
) -> Result<LineCut, AllocError>
    requires start { text.now.start ≡ context.now.line.start }
    requires fits { text.now.start + length text.now.bytes.now < 2 ^ 64 }
    ensures { IfOk result (λ cut. option_map (λ made. made.items) cut ≡ option_map (map measure)
        (cut_line (dots_of_characters (settings context.now).theme.characters)
        (settings context.now).layout.line_columns
        (underline_ends (map underline_of marks.now) ++ multi_line_ends (line_of_text context.now.line)
        (text_of_cells (text_cells text.now) context.now.line.text_end) (multi_labels context.now))
        (text_cells text.now))) }
{
    let settings = context.frame.settings;
    let most = settings.layout.line_columns;
    let Some(_limit) = most else {
        return Ok(None);
    };
    let ends = label_columns_of(settings.alloc, &context.line, text, marks, context.multi)?;
    let dots = dots_width(settings.theme);
    cut_long_line(settings.alloc, text, &ends, most, dots)
}

// Prints a break row: `...│ │`.
fn push_break_row<O: Canvas>(page: &mut RowPrinter<O>, context: &LineContext) -> PushResult
    ensures { OnOk result (page.new ≡ page.old
        ⊕ rows_tokens (break_row (settings context.now) context.now.frame.number_width (multi_labels context.now)
        ∷ [])) }
{
    page.push_blank(context.frame.number_width.saturating_sub(1))?;
    page.push_line(PLAIN, '.', '.', 2)?;
    page.push(context.frame.settings.theme.characters.vbar)?;
    push_break_gutter(page, context)?;
    page.end_row()
}

// Prints a break row, or nothing if the previous line is left out too.
fn push_break<O: Canvas>(page: &mut RowPrinter<O>, context: &LineContext, gap: bool) -> PushResult
    ensures { OnOk result (page.new ≡ page.old ⊕ rows_tokens (if gap then []
        else break_row (settings context.now) context.now.frame.number_width (multi_labels context.now) ∷ [])) }
{
    if gap {
        return Ok(());
    }
    push_break_row(page, context)
}

/// Prints the rows of a line: the number row, underlines and label texts, and the label texts of multi-line labels that
/// end here. A line that is left out becomes a break row, or nothing if there is a `gap`: the previous line is left out
/// too. `AllocError` if allocation fails or a column exceeds `usize::MAX`.
pub(crate) fn push_line_or_break<O: Canvas>(
    page: &mut RowPrinter<O>,
    context: &LineContext,
    left_out: bool,
    gap: bool,
) -> PushResult
    requires { context.now.line.start + length context.now.text.now < 2 ^ 64 }
    ensures { OnOk result (page.new ≡ page.old
        ⊕ rows_tokens (line_or_break_of gap left_out
        (line_in (settings context.now) context.now.frame.number_width context.now.gutter
        (line_of_text context.now.line) (multi_labels context.now))
        (line_shown context.now.number (labels_alone context.now) (shown_cells context.now)
        (map highlight_of context.now.pieces.now)))) }
{
    if left_out {
        return push_break(page, context, gap);
    }
    let settings = context.frame.settings;
    let whole = own_underlines(context)?;
    let text = LineText {
        start: context.line.start,
        bytes: context.text,
        tab: settings.layout.tab_width,
    };
    let cut = cut_of(context, &text, &whole)?;
    push_number_row(page, context, &text, &cut)?;
    let dots = dots_width(settings.theme);
    let marks = underlines_in_row(settings.alloc, &cut, whole, dots)?;
    push_underline_rows(page, context, &marks)?;
    push_end_texts(page, context)
}
