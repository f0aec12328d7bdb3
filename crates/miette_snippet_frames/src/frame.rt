//! The top and bottom rows of a snippet's frame, and the row that replaces snippets if a label is out of bounds.

ghost use Rattle.std.specs.Prelude.{◌≡◌, ◌++◌, ◌∷◌, [], IsTrue, nat_lt, chars, codes, decimal, option_copied};
ghost use Rattle.std.specs.Prelude.{◌&&◌, ◌||◌, if◌then◌else◌, false, length, OnOk};
ghost use Rattle.std.specs.List.{list_all};
ghost use Rattle.std.specs.Option.{option_map};
ghost use Rattle.miette_style.specs.views.Printouts.{◌⊕◌};
ghost use Rattle.miette_style.specs.views.Tokens.{row_tokens, rows_tokens, styled_tokens, text_tokens};
ghost use Rattle.miette_snippet_rules.specs.rules.Frames.{top_row_of, bottom_row, location, location_of, place_text};
ghost use Rattle.miette_snippet_rules.specs.rules.Frames.{refused_front, refused_row, text_or_none};
ghost use Rattle.miette_snippet_rules.specs.views.SnippetSettings.{settings_of};
ghost use Rattle.miette_snippet_frames.specs.steps.FrameParts.{corner_row};
ghost use Rattle.miette_snippet_frames.specs.views.Places.{place_at};

use itoa::Buffer;
use miette_lines::sums::sum;
use miette_protocol::protocol::LabeledSpan;
use miette_snippet_rules::options::{LayoutOptions, SnippetSettings};
use miette_style::canvas::Canvas;
use miette_style::page::{PLAIN, RowPrinter};
use miette_style::style::Style;
use std::alloc::AllocError;

/// The result of printing rows: `AllocError` if allocation fails.
pub(crate) type PushResult = Result<(), AllocError>;

/// A line and a column, both zero-based.
pub type LineColumn = (usize, usize);

/// What a snippet's frame is drawn with.
#[derive(Clone, Copy)]
pub struct Frame<'a> {
    /// The settings of the snippet.
    pub settings: SnippetSettings<'a>,
    /// The width of line numbers in columns.
    pub number_width: usize,
}

/// What the top row of a frame shows.
#[derive(Clone, Copy)]
pub struct SnippetHeader<'a> {
    /// The source's name, if it has one.
    pub name: Option<&'a str>,
    /// Whether the snippet has more than one line.
    pub several: bool,
    /// Where the primary label begins, if there is one.
    pub place: Option<LineColumn>,
}

/// Returns how many decimal digits a line number has.
pub fn digits(number: usize) -> usize
    ensures { result ≡ length (decimal number) }
{
    let mut buffer = Buffer::new();
    buffer.format(number).len()
}

// Prints a run of ASCII characters.
fn push_ascii<O: Canvas>(page: &mut RowPrinter<O>, style: Style, text: &str) -> PushResult
    requires { IsTrue (list_all (λ b. nat_lt b 128) text.now) }
    ensures { OnOk result (page.new ≡ page.old ⊕ styled_tokens style text.now) }
{
    page.begin(style)?;
    page.push_str(text)
}

// Prints a run of text.
fn push_styled<O: Canvas>(page: &mut RowPrinter<O>, style: Style, text: &str) -> PushResult
    ensures { OnOk result (page.new ≡ page.old ⊕ styled_tokens style (chars text.now)) }
{
    page.begin(style)?;
    page.push_str(text)
}

// Prints a number.
fn push_count<O: Canvas>(page: &mut RowPrinter<O>, style: Style, number: usize) -> PushResult
    ensures { OnOk result (page.new ≡ page.old ⊕ styled_tokens style (decimal number)) }
{
    page.begin(style)?;
    page.push_number(number)
}

// Prints the spaces before a corner, the corner and `many` bars: `   ╭─`.
fn push_corner<O: Canvas>(
    page: &mut RowPrinter<O>,
    frame: &Frame,
    corner: char,
    many: usize,
) -> PushResult
    ensures { OnOk result (page.new ≡ page.old
        ⊕ row_tokens (corner_row (settings_of frame.now.settings) frame.now.number_width corner
        many)) }
{
    let columns = sum(frame.number_width, 2)?;
    page.push_blank(columns)?;
    page.push_line(PLAIN, corner, frame.settings.theme.characters.hbar, many)
}

// Prints a position, one-based: `2:3`.
fn push_place<O: Canvas>(page: &mut RowPrinter<O>, place: LineColumn) -> PushResult
    ensures { OnOk result (page.new ≡ page.old ⊕ text_tokens (place_text (place_at place))) }
{
    let line = sum(place.0, 1)?;
    let column = sum(place.1, 1)?;
    page.push_number(line)?;
    page.push(':')?;
    page.push_number(column)
}

// Prints a position in a named source: `name:2:3`, or `name` if positions aren't shown.
fn push_link<O: Canvas>(
    page: &mut RowPrinter<O>,
    frame: &Frame,
    name: &str,
    place: LineColumn,
) -> PushResult
    ensures { OnOk result (page.new ≡ page.old ⊕ styled_tokens frame.now.settings.theme.now.styles.link
        (if frame.now.settings.layout.now.primary_start then chars name.now ++ codes ":" ++ place_text (place_at place)
        else chars name.now)) }
{
    push_styled(page, frame.settings.theme.styles.link, name)?;
    if !frame.settings.layout.primary_start {
        return Ok(());
    }
    page.push(':')?;
    push_place(page, place)
}

// Prints a position in a named source in brackets: `[name:2:3]`, or `[name]` if positions aren't shown.
fn push_named_place<O: Canvas>(
    page: &mut RowPrinter<O>,
    frame: &Frame,
    name: &str,
    place: LineColumn,
) -> PushResult
    ensures { OnOk result (page.new ≡ page.old
        ⊕ row_tokens (location (settings_of frame.now.settings) (Some name.now) false
        (place_at place))) }
{
    push_ascii(page, PLAIN, "[")?;
    push_link(page, frame, name, place)?;
    push_ascii(page, PLAIN, "]")
}

// Returns whether the frame of an unnamed source shows a position. That depends on whether the snippet has several
// lines.
fn shows_bare_place(layout: &LayoutOptions, several: bool) -> bool
    ensures { result ≡ ((several || layout.now.one_line_start) && layout.now.primary_start) }
{
    (several || layout.one_line_start) && layout.primary_start
}

// Prints a position in an unnamed source: `[2:3]`, or `───` if it isn't shown.
fn push_bare_place<O: Canvas>(
    page: &mut RowPrinter<O>,
    frame: &Frame,
    several: bool,
    place: LineColumn,
) -> PushResult
    ensures { OnOk result (page.new ≡ page.old
        ⊕ row_tokens (location (settings_of frame.now.settings) None several (place_at place))) }
{
    if shows_bare_place(frame.settings.layout, several) {
        page.push_line(PLAIN, '[', ' ', 0)?;
        push_place(page, place)?;
        return page.push(']');
    }
    let line = frame.settings.theme.characters.hbar;
    page.push_line(PLAIN, line, line, 2)
}

// Prints where the primary label begins, if there is one.
fn push_location<O: Canvas>(
    page: &mut RowPrinter<O>,
    frame: &Frame,
    heading: &SnippetHeader,
) -> PushResult
    ensures { OnOk result (page.new ≡ page.old
        ⊕ row_tokens (location_of (settings_of frame.now.settings) (option_copied heading.now.name) heading.now.several
        (option_map place_at heading.now.place))) }
{
    let Some(place) = heading.place else {
        return Ok(());
    };
    match heading.name {
        Some(name) => push_named_place(page, frame, name, place),
        None => push_bare_place(page, frame, heading.several, place),
    }
}

/// Prints the top row of a frame: `   ╭─[name:2:3]`. `AllocError` if allocation fails, or if `number_width + 2` or a
/// one-based number exceeds `usize::MAX`.
pub fn push_frame_top<O: Canvas>(
    page: &mut RowPrinter<O>,
    frame: &Frame,
    heading: &SnippetHeader,
) -> PushResult
    ensures { OnOk result (page.new ≡ page.old
        ⊕ rows_tokens (top_row_of (settings_of frame.now.settings) frame.now.number_width
        (option_copied heading.now.name) heading.now.several (option_map place_at heading.now.place) ∷ [])) }
{
    push_corner(page, frame, frame.settings.theme.characters.ltop, 1)?;
    push_location(page, frame, heading)?;
    page.end_row()
}

/// Prints the bottom row of a frame: `   ╰────`. `AllocError` if allocation fails or `number_width + 2` exceeds
/// `usize::MAX`.
pub fn push_frame_bottom<O: Canvas>(page: &mut RowPrinter<O>, frame: &Frame) -> PushResult
    ensures { OnOk result (page.new ≡ page.old
        ⊕ rows_tokens (bottom_row (settings_of frame.now.settings) frame.now.number_width ∷ [])) }
{
    push_corner(page, frame, frame.settings.theme.characters.lbot, 4)?;
    page.end_row()
}

// Prints a label's text, or that it has none.
fn push_label_text<O: Canvas>(
    page: &mut RowPrinter<O>,
    style: Style,
    label: &LabeledSpan,
) -> PushResult
    ensures { OnOk result (page.new ≡ page.old ⊕ styled_tokens style (text_or_none label.now.text)) }
{
    match label.label() {
        Some(text) => push_styled(page, style, text),
        None => push_ascii(page, style, "<none>"),
    }
}

// Prints the beginning of the row of a label out of bounds: "  [Failed to read contents for label `TEXT` (offset: ".
fn push_refused_text<O: Canvas>(
    page: &mut RowPrinter<O>,
    frame: &Frame,
    label: &LabeledSpan,
) -> PushResult
    ensures { OnOk result (page.new ≡ page.old
        ⊕ row_tokens (refused_front (settings_of frame.now.settings) label.now)) }
{
    let styles = &frame.settings.theme.styles;
    push_ascii(page, PLAIN, "  [")?;
    push_ascii(page, styles.error, "Failed to read contents for label")?;
    push_ascii(page, PLAIN, " `")?;
    push_label_text(page, styles.link, label)?;
    push_ascii(page, PLAIN, "` (offset: ")
}

/// Prints the row that replaces snippets if a label is out of bounds. `name` is the name of the error: "  [Failed to
/// read contents for label `TEXT` (offset: O, length: N): NAME]". `AllocError` if allocation fails.
pub fn push_refused_label<O: Canvas>(
    page: &mut RowPrinter<O>,
    frame: &Frame,
    label: &LabeledSpan,
    name: &str,
) -> PushResult
    ensures { OnOk result (page.new ≡ page.old
        ⊕ rows_tokens (refused_row (settings_of frame.now.settings)
        (record { label = label.now; name = chars name.now }) ∷ [])) }
{
    let styles = &frame.settings.theme.styles;
    push_refused_text(page, frame, label)?;
    push_count(page, styles.link, label.offset())?;
    push_ascii(page, PLAIN, ", length: ")?;
    push_count(page, styles.link, label.len())?;
    push_ascii(page, PLAIN, "): ")?;
    push_styled(page, styles.warning, name)?;
    push_ascii(page, PLAIN, "]")?;
    page.end_row()
}
