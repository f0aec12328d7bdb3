//! Prints rows of styled text.

ghost use Rattle.std.specs.Prelude.{◌≡◌, ◌≤◌, ◌-◌, ◌∷◌, ◌++◌, [], chars, decimal, length, replicate, true, IfOk};
ghost use Rattle.std.specs.Prelude.{IfSome};
ghost use Rattle.std.specs.Prelude.{OnOk};
ghost use Rattle.miette_style.specs.views.Printouts.{◌⊕◌, ended_text, printout_of, started_text};
ghost use Rattle.miette_style.specs.views.Tokens.{begins, row_end, styled_tokens, text_tokens};

use crate::canvas::Canvas;
use crate::style::Style;
use itoa::Buffer;
use std::alloc::AllocError;
use std::marker::Model;

/// The style of text without a style.
pub const PLAIN: Style = Style {
    fg: None,
    bold: false,
    dimmed: false,
    italic: false,
    underline: false,
};

// The length in bytes from which a text counts as long.
const LONG: usize = 4096;

// Room for a few rows, in bytes.
const FEW_ROWS: usize = 1024;

/// Prints rows to an output. A row consists of runs, and a run of a style and a text.
///
/// Begin a run with its style, then append its text. End a row after its last run. A run without characters prints
/// nothing. After an allocation failure the content is unspecified; drop it.
#[derive(Debug, Drop)]
pub struct RowPrinter<O: Canvas> {
    out: O,
    style: Style,
    begun: bool,
}

impl<O: Canvas> Model for RowPrinter<O> {
    ghost use Rattle.miette_style.specs.views.Printouts.{Printout};

    ghost Value = { Printout };

    ghost view = { λ p. record { text = O.written p.out; style = p.style; begun = p.begun } };
}

// Appends the code that begins a run's style.
fn start_run<O: Canvas>(out: &mut O, style: Style, begun: bool) -> Result<(), AllocError>
    ensures { OnOk result (O.written out.new
        ≡ started_text (record { text = O.written out.old; style = style; begun = begun })) }
{
    if begun || style.is_plain() {
        return Ok(());
    }
    out.begin(style)
}

// Appends the code that ends a run's style.
fn end_run<O: Canvas>(out: &mut O, style: Style, begun: bool) -> Result<(), AllocError>
    ensures { OnOk result (O.written out.new
        ≡ ended_text (record { text = O.written out.old; style = style; begun = begun })) }
{
    if !begun || style.is_plain() {
        return Ok(());
    }
    out.end()
}

// Up to `FEW` copies of a character are appended one by one.
const FEW: usize = 8;

// `RUN` copies of a character are appended at once, if reports repeat this character.
const RUN: usize = 16;

// Returns a text of `RUN` copies of a character, if there is one.
fn run_of(character: char) -> Option<&'static str>
    ensures { IfSome result (λ run. chars run.now ≡ replicate 16 character) }
{
    match character {
        ' ' => Some("                "),
        '─' => Some("────────────────"),
        '-' => Some("----------------"),
        '^' => Some("^^^^^^^^^^^^^^^^"),
        _ => None,
    }
}

// Appends copies of a character in groups of `RUN`. Returns how many copies are left.
fn push_runs<O: Canvas>(out: &mut O, character: char, many: usize) -> Result<usize, AllocError>
    ensures within { IfOk result (λ left. left ≤ many) }
    ensures text { IfOk result (λ left. O.written out.new
        ≡ O.written out.old ++ replicate (many - left) character) }
{
    let mut left = many;
    if left < RUN {
        return Ok(left);
    }
    let Some(run) = run_of(character) else {
        return Ok(left);
    };
    while RUN <= left {
        out.push_str(run)?;
        left -= RUN;
    }
    Ok(left)
}

// Appends copies of a character. Room for many is reserved at once.
fn push_each<O: Canvas>(out: &mut O, character: char, many: usize) -> Result<(), AllocError>
    ensures { OnOk result (O.written out.new ≡ O.written out.old ++ replicate many character) }
{
    if many > FEW {
        out.reserve(character, many)?;
    }
    let left = push_runs(out, character, many)?;
    for i in 0..left {
        let _count = i;
        out.push(character)?;
    }
    Ok(())
}

impl<O: Canvas + Drop> RowPrinter<O> {
    /// Ends the last run and returns the output. Returns `AllocError` if allocation fails.
    pub fn into_output(self) -> Result<O, AllocError>
        ensures { IfOk result (λ out. O.written out ≡ ended_text self) }
    {
        let RowPrinter {
            mut out,
            style,
            begun,
        } = self;
        end_run(&mut out, style, begun)?;
        Ok(out)
    }
}

impl<O: Canvas> RowPrinter<O> {
    /// Creates a printer that appends to an output.
    pub fn over(out: O) -> Self
        ensures { result ≡ printout_of (O.written out) }
    {
        RowPrinter {
            out,
            style: PLAIN,
            begun: false,
        }
    }

    /// Begins a run with a style. Returns `AllocError` if allocation fails.
    pub fn begin(&mut self, style: Style) -> Result<(), AllocError>
        ensures { OnOk result (self.new ≡ self.old ⊕ begins style ∷ []) }
    {
        end_run(&mut self.out, self.style, self.begun)?;
        self.style = style;
        self.begun = false;
        Ok(())
    }

    /// Ends a row. Returns `AllocError` if allocation fails.
    pub fn end_row(&mut self) -> Result<(), AllocError>
        ensures { OnOk result (self.new ≡ self.old ⊕ row_end ∷ []) }
    {
        end_run(&mut self.out, self.style, self.begun)?;
        self.out.push('\n')?;
        self.style = PLAIN;
        self.begun = false;
        Ok(())
    }

    // Appends the code of the run's style, unless the run has a character already.
    #[inline(always)]
    fn start_text(&mut self) -> Result<(), AllocError>
        ensures { OnOk result (self.new ≡ record self.old { text = started_text self.old; begun = true }) }
    {
        start_run(&mut self.out, self.style, self.begun)?;
        self.begun = true;
        Ok(())
    }

    /// Appends a character to the run. Returns `AllocError` if allocation fails.
    pub fn push(&mut self, character: char) -> Result<(), AllocError>
        ensures { OnOk result (self.new ≡ self.old ⊕ text_tokens (character ∷ [])) }
    {
        self.start_text()?;
        self.out.push(character)
    }

    /// Reserves room for a long text of `len` bytes and a few rows, so that these rows don't copy it. The content
    /// doesn't change. Returns `AllocError` if allocation fails.
    #[inline(always)]
    pub fn make_room(&mut self, len: usize) -> Result<(), AllocError>
        ensures { OnOk result (self.new ≡ self.old) }
    {
        if len < LONG {
            return Ok(());
        }
        self.make_long_room(len)
    }

    // Does the same for a long text. The length is tested by the caller, which is inlined.
    #[inline(never)]
    fn make_long_room(&mut self, len: usize) -> Result<(), AllocError>
        ensures { OnOk result (self.new ≡ self.old) }
    {
        self.out.reserve(' ', len.saturating_add(FEW_ROWS))
    }

    /// Appends a text to the run. Returns `AllocError` if allocation fails.
    pub fn push_str(&mut self, text: &str) -> Result<(), AllocError>
        ensures { OnOk result (self.new ≡ self.old ⊕ text_tokens (chars text.now)) }
    {
        if text.is_empty() {
            return Ok(());
        }
        self.start_text()?;
        self.out.push_str(text)
    }

    /// Appends copies of a character to the run. Returns `AllocError` if allocation fails.
    pub fn push_copies(&mut self, character: char, many: usize) -> Result<(), AllocError>
        ensures { OnOk result (self.new ≡ self.old ⊕ text_tokens (replicate many character)) }
    {
        if many == 0 {
            return Ok(());
        }
        self.start_text()?;
        push_each(&mut self.out, character, many)
    }

    /// Appends a run of spaces: `····`. Returns `AllocError` if allocation fails.
    pub fn push_blank(&mut self, many: usize) -> Result<(), AllocError>
        ensures { OnOk result (self.new ≡ self.old ⊕ styled_tokens PLAIN (replicate many 32)) }
    {
        self.begin(PLAIN)?;
        self.push_copies(' ', many)
    }

    /// Appends a run of a character and copies of another one: `╰────`. Returns `AllocError` if allocation fails.
    pub fn push_line(
        &mut self,
        style: Style,
        first: char,
        bar: char,
        many: usize,
    ) -> Result<(), AllocError>
        ensures { OnOk result (self.new ≡ self.old ⊕ styled_tokens style (first ∷ replicate many bar)) }
    {
        self.begin(style)?;
        self.push(first)?;
        self.push_copies(bar, many)
    }

    /// Appends characters to the run. Returns `AllocError` if allocation fails.
    pub fn push_chars(&mut self, characters: &[char]) -> Result<(), AllocError>
        ensures { OnOk result (self.new ≡ self.old ⊕ text_tokens characters.now) }
    {
        if characters.is_empty() {
            return Ok(());
        }
        self.start_text()?;
        self.out.push_chars(characters)
    }

    /// Appends a number to the run, right-aligned in `columns` columns: `  12`. Returns `AllocError` if allocation
    /// fails.
    pub fn push_right(&mut self, number: usize, columns: usize) -> Result<(), AllocError>
        ensures { OnOk result (self.new ≡ self.old
            ⊕ text_tokens (replicate (columns - length (decimal number)) 32 ++ decimal number)) }
    {
        let mut buffer = Buffer::new();
        let digits = buffer.format(number);
        self.push_copies(' ', columns.saturating_sub(digits.len()))?;
        self.push_str(digits)
    }

    /// Appends a number to the run, in decimal. Returns `AllocError` if allocation fails.
    pub fn push_number(&mut self, number: usize) -> Result<(), AllocError>
        ensures { OnOk result (self.new ≡ self.old ⊕ text_tokens (decimal number)) }
    {
        let mut digits = Buffer::new();
        self.push_str(digits.format(number))
    }
}
