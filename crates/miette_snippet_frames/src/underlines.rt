//! The underline row of a line.

ghost use Rattle.std.specs.Prelude.{◌≡◌, if◌then◌else◌, map, OnOk};
ghost use Rattle.std.specs.List.{All};
ghost use Rattle.miette_style.specs.views.Printouts.{◌⊕◌};
ghost use Rattle.miette_style.specs.views.Tokens.{row_tokens, run_tokens};
ghost use Rattle.miette_labels.specs.rules.Labels.{is_empty};
ghost use Rattle.miette_labels.specs.views.ProgramLabels.{drawn_of};
ghost use Rattle.miette_snippet_rules.specs.rules.LabelRows.{pointer_code, underline_run, underline_runs};
ghost use Rattle.miette_snippet_rules.specs.views.MadeUnderlines.{underline_of, HasOwnPointer};
ghost use Rattle.miette_snippet_frames.specs.views.LineContexts.{settings};

use crate::frame::PushResult;
use crate::line_context::LineContext;
use miette_snippet_rules::underlines::Underline;
use miette_style::canvas::Canvas;
use miette_style::page::RowPrinter;

// Returns the character of an underline's pointer.
fn pointer_of(context: &LineContext, mark: &Underline) -> char
    ensures { result ≡ (if is_empty (drawn_of mark.now.label)
        then (settings context.now).theme.characters.uarrow
        else pointer_code (settings context.now).theme.characters (drawn_of mark.now.label).parts) }
{
    let characters = &context.frame.settings.theme.characters;
    if mark.label.start == mark.label.after {
        return characters.uarrow;
    }
    match mark.label.text {
        Some(_) => characters.underbar,
        None => characters.underline,
    }
}

// Prints an underline: `──┬──`.
fn push_underline<O: Canvas>(
    page: &mut RowPrinter<O>,
    context: &LineContext,
    mark: &Underline,
) -> PushResult
    requires { HasOwnPointer mark.now }
    ensures { OnOk result (page.new ≡ page.old
        ⊕ run_tokens (underline_run (settings context.now)
        (underline_of mark.now))) }
{
    let line = context.frame.settings.theme.characters.underline;
    page.begin(mark.label.style)?;
    page.push_copies(line, mark.pointer - mark.from)?;
    page.push(pointer_of(context, mark))?;
    page.push_copies(line, mark.until - mark.pointer - 1)
}

/// Prints the underlines, each after the spaces before it: `  ──┬── ▲ ─┬─`. `AllocError` if allocation fails.
pub fn push_underlines<O: Canvas>(
    page: &mut RowPrinter<O>,
    context: &LineContext,
    marks: &[Underline],
) -> PushResult
    requires { All HasOwnPointer marks.now }
    ensures { OnOk result (page.new ≡ page.old
        ⊕ row_tokens (underline_runs (settings context.now) 0
        (map underline_of marks.now))) }
{
    let mut reached: usize = 0;
    for mark in marks {
        page.push_blank(mark.from.saturating_sub(reached))?;
        push_underline(page, context, mark)?;
        reached = mark.until;
    }
    Ok(())
}
