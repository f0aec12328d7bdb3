//! Indents of rows, and text that is wrapped under them.

ghost use Rattle.std.specs.Prelude.{◌≡◌, ◌++◌, ◌∷◌, [], ◌-◌, ℕ, List, IfOk, OnOk, chars, false, option_map, true};
ghost use Rattle.miette_graphical_rules.specs.rules.DiagnosticText as parts;
ghost use Rattle.miette_graphical_rules.specs.rules.Indents as indents;
ghost use Rattle.miette_graphical_rules.specs.rules.GraphicalSettings.{severity_style};
ghost use Rattle.miette_graphical.specs.steps.TextKinds.{initial_indent, subsequent_indent};
ghost use Rattle.miette_graphical.specs.views.Painting.{PrintsOnly, settings_of};
ghost use Rattle.miette_runs.specs.rules.Cells.{printed_columns};
ghost use Rattle.miette_runs.specs.rules.Runs.{Styled, print};
ghost use Rattle.miette_runs.specs.rules.Sequences.{spell, tokens};
ghost use Rattle.miette_text.specs.rules.Wrapping.{wrapped_text};
ghost use Rattle.miette_text.specs.views.Plans.{cuts_hyphens, printed_plan};

use crate::painter::Painter;
use miette_graphical_rules::settings::{icon, severity_style};
use miette_protocol::protocol::Severity;
use miette_runs::runs::Runs;
use miette_runs::runs::output::Output;
use miette_runs::runs::reading::printed_columns;
use miette_text::options::{WrapPlan, cuts_hyphens};
use miette_text::wrapping::fitting::push_if_fits;
use miette_text::wrapping::{wrap, wrap_text};
use std::alloc::{AllocError, Global};

/// How a cause or a nested report is attached to its outer report: by the outer severity's style, and as the last one
/// or not.
#[derive(Clone, Copy)]
pub struct Branch {
    pub outer: Option<Severity>,
    pub is_last: bool,
}

/// The kind of a text, which decides its indents.
#[derive(Clone, Copy)]
pub enum TextKind {
    /// A diagnostic's message, with its severity.
    Message(Option<Severity>),
    /// A cause that is a plain text.
    Cause(Branch),
    /// A help text.
    Help,
    /// A fix's message.
    Fix,
    /// The footer.
    Footer,
}

/// Returns how a text is wrapped under its first and further indents.
fn plan<'a, H>(painter: &Painter<'_, H>, first: &'a Runs, further: &'a Runs) -> WrapPlan<'a>
    ensures wrap_lines { result.wrap_lines ≡ (settings_of painter.now).wrapping.wrap_lines }
    ensures separator { result.separator ≡ (settings_of painter.now).wrapping.word_separator }
    ensures split_hyphens { result.split_hyphens ≡ cuts_hyphens (settings_of painter.now).wrapping.word_splitter }
    ensures break_words { result.break_words ≡ (settings_of painter.now).wrapping.break_words }
    ensures width { result.width ≡ (settings_of painter.now).width - 2 }
    ensures first { result.first.now ≡ first.now }
    ensures further { result.further.now ≡ further.now }
{
    let wrapping = painter.settings.wrapping;
    WrapPlan {
        wrap_lines: wrapping.wrap_lines,
        separator: wrapping.word_separator,
        split_hyphens: cuts_hyphens(wrapping.word_splitter),
        break_words: wrapping.break_words,
        width: painter.width.saturating_sub(2),
        first,
        further,
    }
}

/// Prints wrapped runs and a line feed.
fn push_wrapped(
    out: &mut Output,
    alloc: Global,
    plan: WrapPlan<'_>,
    text: &Runs,
) -> Result<(), AllocError>
    ensures { OnOk result (out.new ≡ out.old ++ (wrapped_text (printed_plan plan.entry) (spell text.now)
        ++ parts.line_feed)) }
{
    wrap(out, alloc, plan, text)?;
    out.push('\n')
}

/// Prints a wrapped text and a line feed.
fn push_wrapped_text(
    out: &mut Output,
    alloc: Global,
    plan: WrapPlan<'_>,
    text: &str,
) -> Result<(), AllocError>
    ensures { OnOk result (out.new ≡ out.old ++ (wrapped_text (printed_plan plan.entry) (chars text.now)
        ++ parts.line_feed)) }
{
    wrap_text(out, alloc, plan, text)?;
    out.push('\n')
}

// Prints a text after its indent without wrapping, if it fits into one row. Returns whether it did.
fn push_row<H>(painter: &mut Painter<'_, H>, first: &Runs, text: &str) -> Result<bool, AllocError>
    ensures fits { IfOk result (λ fits. fits ≡ true → (further : List ℕ) → painter.new.out ≡ painter.old.out
        ++ (indents.wrapped_after (settings_of painter.old) (spell first.now) further (chars text.now)
        ++ parts.line_feed)) }
    ensures otherwise { IfOk result (λ fits. fits ≡ false → painter.new.out ≡ painter.old.out) }
    ensures stays { PrintsOnly painter.old painter.new }
{
    let wrap_lines = painter.settings.wrapping.wrap_lines;
    let width = painter.width.saturating_sub(2);
    if !push_if_fits(&mut painter.out, wrap_lines, width, first, text)? {
        return Ok(false);
    }
    painter.out.push('\n')?;
    Ok(true)
}

// `  × `
fn icon_indent<H>(painter: &Painter<'_, H>, severity: Option<Severity>) -> Result<Runs, AllocError>
    ensures { IfOk result (λ r. spell r ≡ print (indents.icon_indent (settings_of painter.now) severity)) }
{
    let settings = painter.settings;
    let mut runs = Runs::new(painter.alloc);
    runs.push_chars(&[' ', ' '])?;
    runs.push_run(severity_style(settings, severity), icon(settings, severity))?;
    runs.push(' ')?;
    Ok(runs)
}

// `  │ `
fn bar_indent<H>(painter: &Painter<'_, H>, severity: Option<Severity>) -> Result<Runs, AllocError>
    ensures { IfOk result (λ r. spell r ≡ print (indents.bar_indent (settings_of painter.now) severity)) }
{
    let settings = painter.settings;
    let bar = [settings.theme.characters.vbar];
    let mut runs = Runs::new(painter.alloc);
    runs.push_chars(&[' ', ' '])?;
    runs.push_run_chars(severity_style(settings, severity), &bar)?;
    runs.push(' ')?;
    Ok(runs)
}

// Returns these characters in the style of a severity.
fn styled_indent<H>(
    painter: &Painter<'_, H>,
    severity: Option<Severity>,
    characters: &[char],
) -> Result<Runs, AllocError>
    ensures { IfOk result (λ r. spell r
        ≡ print (Styled (severity_style (settings_of painter.now) severity) characters.now ∷ [])) }
{
    let mut runs = Runs::new(painter.alloc);
    runs.push_run_chars(severity_style(painter.settings, severity), characters)?;
    Ok(runs)
}

// `  ├─▶ `, for the last one `  ╰─▶ `
fn arrow_indent<H>(painter: &Painter<'_, H>, branch: Branch) -> Result<Runs, AllocError>
    ensures { IfOk result (λ r. spell r ≡ print
        (indents.arrow_indent (settings_of painter.now) branch.outer branch.is_last)) }
{
    let characters = &painter.settings.theme.characters;
    let blank = ' ';
    let last = characters.lbot;
    let other = characters.lcross;
    let hbar = characters.hbar;
    let head = characters.rarrow;
    let corner = if branch.is_last { last } else { other };
    let arrow = [blank, blank, corner, hbar, head, blank];
    styled_indent(painter, branch.outer, &arrow)
}

// `  │   `, for the last one six spaces
fn stem_indent<H>(painter: &Painter<'_, H>, branch: Branch) -> Result<Runs, AllocError>
    ensures { IfOk result (λ r. spell r ≡ print
        (indents.stem_indent (settings_of painter.now) branch.outer branch.is_last)) }
{
    let blank = ' ';
    let vbar = painter.settings.theme.characters.vbar;
    let bar = if branch.is_last { blank } else { vbar };
    let stem = [blank, blank, bar, blank, blank, blank];
    styled_indent(painter, branch.outer, &stem)
}

// Returns the width of the indent below an arrow in columns.
fn stem_columns<H>(painter: &Painter<'_, H>, branch: Branch) -> Result<usize, AllocError>
    ensures { IfOk result (λ n. n ≡ printed_columns (tokens (print
        (indents.stem_indent (settings_of painter.now) branch.outer branch.is_last)))) }
{
    let stem = stem_indent(painter, branch)?;
    printed_columns(painter.alloc, &stem)
}

/// Returns the width that is left below an arrow, in columns.
pub fn width_under<H>(painter: &Painter<'_, H>, branch: Branch) -> Result<usize, AllocError>
    ensures { IfOk result (λ width. width
        ≡ (indents.narrow_settings (settings_of painter.now) branch.outer branch.is_last).width) }
{
    let columns = stem_columns(painter, branch)?;
    Ok(painter.width.saturating_sub(columns))
}

/// Prints a cause or a nested related report under its arrow.
pub fn push_under_arrow<H>(
    painter: &mut Painter<'_, H>,
    branch: Branch,
    text: &Runs,
) -> Result<(), AllocError>
    ensures text { OnOk result (painter.new.out ≡ painter.old.out ++ parts.under_arrow (settings_of painter.old)
        branch.outer branch.is_last (spell text.now)) }
    ensures stays { PrintsOnly painter.old painter.new }
{
    let first = arrow_indent(painter, branch)?;
    let further = stem_indent(painter, branch)?;
    let under = plan(painter, &first, &further);
    push_wrapped(&mut painter.out, painter.alloc, under, text)
}

// `  help: `
fn help_indent<H>(painter: &Painter<'_, H>) -> Result<Runs, AllocError>
    ensures { IfOk result (λ r. spell r ≡ print (indents.help_indent (settings_of painter.now))) }
{
    let mut runs = Runs::new(painter.alloc);
    runs.push_run(painter.settings.theme.styles.help, "  help: ")?;
    Ok(runs)
}

// `  fix: `
fn fix_indent<H>(painter: &Painter<'_, H>) -> Result<Runs, AllocError>
    ensures { IfOk result (λ r. spell r ≡ print (indents.fix_indent (settings_of painter.now))) }
{
    let mut runs = Runs::new(painter.alloc);
    runs.push_run(painter.settings.theme.styles.help, "  fix: ")?;
    Ok(runs)
}

// Returns these spaces as runs.
fn blank_indent(alloc: Global, spaces: &[char]) -> Result<Runs, AllocError>
    ensures { IfOk result (λ r. spell r ≡ spaces.now) }
{
    let mut runs = Runs::new(alloc);
    runs.push_chars(spaces)?;
    Ok(runs)
}

// Returns the indent of a text's first row.
fn initial_indent<H>(painter: &Painter<'_, H>, kind: TextKind) -> Result<Runs, AllocError>
    ensures { IfOk result (λ r. spell r ≡ print (initial_indent (settings_of painter.now) kind)) }
{
    match kind {
        TextKind::Message(severity) => icon_indent(painter, severity),
        TextKind::Cause(branch) => arrow_indent(painter, branch),
        TextKind::Help => help_indent(painter),
        TextKind::Fix => fix_indent(painter),
        TextKind::Footer => blank_indent(painter.alloc, &[' ', ' ']),
    }
}

// Returns the indent of a text's further rows.
fn subsequent_indent<H>(painter: &Painter<'_, H>, kind: TextKind) -> Result<Runs, AllocError>
    ensures { IfOk result (λ r. spell r ≡ print (subsequent_indent (settings_of painter.now) kind)) }
{
    match kind {
        TextKind::Message(severity) => bar_indent(painter, severity),
        TextKind::Cause(branch) => stem_indent(painter, branch),
        TextKind::Help => blank_indent(painter.alloc, &[' '; 8]),
        TextKind::Fix => blank_indent(painter.alloc, &[' '; 7]),
        TextKind::Footer => blank_indent(painter.alloc, &[' ', ' ']),
    }
}

// Prints a text, wrapped after its indents, and a line feed. `first` is the indent of its first row.
fn push_rows<H>(
    painter: &mut Painter<'_, H>,
    kind: TextKind,
    first: &Runs,
    text: &str,
) -> Result<(), AllocError>
    requires { spell first.now ≡ print (initial_indent (settings_of painter.old) kind) }
    ensures text { OnOk result (painter.new.out ≡ painter.old.out ++ (indents.wrapped_under (settings_of painter.old)
        (initial_indent (settings_of painter.old) kind) (subsequent_indent (settings_of painter.old) kind)
        (chars text.now) ++ parts.line_feed)) }
    ensures stays { PrintsOnly painter.old painter.new }
{
    let further = subsequent_indent(painter, kind)?;
    let under = plan(painter, first, &further);
    push_wrapped_text(&mut painter.out, painter.alloc, under, text)
}

/// Prints a text, wrapped after its indents, and a line feed.
pub fn push_text<H>(
    painter: &mut Painter<'_, H>,
    kind: TextKind,
    text: &str,
) -> Result<(), AllocError>
    ensures text { OnOk result (painter.new.out ≡ painter.old.out ++ (indents.wrapped_under (settings_of painter.old)
        (initial_indent (settings_of painter.old) kind) (subsequent_indent (settings_of painter.old) kind)
        (chars text.now) ++ parts.line_feed)) }
    ensures stays { PrintsOnly painter.old painter.new }
{
    let first = initial_indent(painter, kind)?;
    if push_row(painter, &first, text)? {
        return Ok(());
    }
    push_rows(painter, kind, &first, text)
}

/// Prints a help text, if there is one.
pub fn push_help<H>(painter: &mut Painter<'_, H>, help: Option<&str>) -> Result<(), AllocError>
    ensures text { OnOk result (painter.new.out ≡ painter.old.out ++ parts.help_text (settings_of painter.old)
        (option_map (λ t. t.now) help.entry)) }
    ensures stays { PrintsOnly painter.old painter.new }
{
    let Some(help) = help else {
        return Ok(());
    };
    push_text(painter, TextKind::Help, help)
}

/// Prints a blank row and the footer, if there is one.
pub fn push_footer<H>(painter: &mut Painter<'_, H>) -> Result<(), AllocError>
    ensures text { OnOk result (painter.new.out ≡ painter.old.out ++ parts.footer_text (settings_of painter.old)) }
    ensures stays { PrintsOnly painter.old painter.new }
{
    let settings = painter.settings;
    let Some(footer) = settings.footer() else {
        return Ok(());
    };
    painter.out.push('\n')?;
    push_text(painter, TextKind::Footer, footer)
}
