//! What a report is appended to: a text that is printed directly, or runs that can be wrapped again.

ghost use Rattle.std.specs.Prelude.{◌≡◌, ◌++◌, ◌∷◌, ℕ, List, [], IfOk, OnOk, chars, encode_utf8_all};
ghost use Rattle.std.specs.Prelude.{string_bytes};
ghost use Rattle.miette_runs.specs.rules.Runs.{link_start, printed_run};
ghost use Rattle.miette_style.specs.rules.Codes.{colour_start, colour_stop};
ghost use Rattle.miette_runs.specs.rules.Sequences.{spell};

use crate::runs::reading::{parse_text, print};
use crate::runs::sign::Sign;
use crate::runs::sink::Sink;
use crate::runs::{Runs, push_run};
use miette_style::canvas::Canvas;
use miette_style::style::Style;
use std::alloc::{AllocError, Global};
use std::marker::Model;
use std::rc::Rc;

/// Where the text goes.
#[derive(Debug, Drop)]
enum OutputTarget {
    /// A text. Signs are printed.
    Printed(String),
    /// Runs. Signs are stored separately.
    Collected(Runs),
}

/// Collects characters, signs and links, as a text or as runs.
///
/// After an allocation failure the content is unspecified; drop it.
#[derive(Debug, Drop)]
pub struct Output {
    target: OutputTarget,
}

impl Model for Output {
    ghost use Rattle.std.specs.Prelude.{ℕ, List};

    ghost Value = { List ℕ };

    ghost use Rattle.miette_runs.specs.views.Outputs.{target_text};

    ghost view = { λ o. target_text o.target };
}

// Appends the codes that begin a link.
fn print_link(out: &mut String, url: &str) -> Result<(), AllocError>
    ensures { OnOk result (string_bytes out.new
        ≡ string_bytes out.old ++ encode_utf8_all (link_start (chars url.now))) }
{
    out.push_str("\u{1B}]8;;")?;
    out.push_str(url)?;
    out.push_str("\u{1B}\\")
}

impl Output {
    /// Creates an output that prints to a text.
    pub fn for_text(alloc: Global) -> Self
        ensures { result ≡ [] }
    {
        Output {
            target: OutputTarget::Printed(String::new(alloc)),
        }
    }

    /// Creates an output of runs, which can be wrapped.
    pub fn for_runs(alloc: Global) -> Self
        ensures { result ≡ [] }
    {
        Output {
            target: OutputTarget::Collected(Runs::new(alloc)),
        }
    }

    /// Appends a character.
    ///
    /// # Errors
    /// `AllocError` if allocation fails.
    pub fn push(&mut self, c: char) -> Result<(), AllocError>
        ensures { OnOk result (self.new ≡ self.old ++ c ∷ []) }
    {
        match &mut self.target {
            OutputTarget::Printed(text) => Canvas::push(text, c)?,
            OutputTarget::Collected(runs) => runs.push(c)?,
        }
        Ok(())
    }

    /// Reserves room for `many` copies of a character. The content doesn't change.
    ///
    /// # Errors
    /// `AllocError` if allocation fails, or if the copies have more than `usize::MAX` bytes.
    pub fn reserve(&mut self, c: char, many: usize) -> Result<(), AllocError>
        ensures { OnOk result (self.new ≡ self.old) }
    {
        match &mut self.target {
            OutputTarget::Printed(text) => Canvas::reserve(text, c, many)?,
            OutputTarget::Collected(runs) => runs.reserve(c, many)?,
        }
        Ok(())
    }

    /// Appends characters.
    ///
    /// # Errors
    /// `AllocError` if allocation fails.
    pub fn push_chars(&mut self, codes: &[char]) -> Result<(), AllocError>
        ensures { OnOk result (self.new ≡ self.old ++ codes.now) }
    {
        match &mut self.target {
            OutputTarget::Printed(text) => text.push_chars(codes)?,
            OutputTarget::Collected(runs) => runs.push_chars(codes)?,
        }
        Ok(())
    }

    /// Appends the characters of a text.
    ///
    /// # Errors
    /// `AllocError` if allocation fails.
    pub fn push_str(&mut self, text: &str) -> Result<(), AllocError>
        ensures { OnOk result (self.new ≡ self.old ++ chars text.now) }
    {
        match &mut self.target {
            OutputTarget::Printed(out) => Canvas::push_str(out, text)?,
            OutputTarget::Collected(runs) => runs.push_str(text)?,
        }
        Ok(())
    }

    /// Begins a style. It applies to what is appended next.
    ///
    /// # Errors
    /// `AllocError` if allocation fails.
    pub fn begin(&mut self, style: Style) -> Result<(), AllocError>
        ensures { OnOk result (self.new ≡ self.old ++ colour_start style) }
    {
        match &mut self.target {
            OutputTarget::Printed(text) => text.begin(style)?,
            OutputTarget::Collected(runs) => runs.begin(style)?,
        }
        Ok(())
    }

    /// Ends the style.
    ///
    /// # Errors
    /// `AllocError` if allocation fails.
    pub fn end(&mut self) -> Result<(), AllocError>
        ensures { OnOk result (self.new ≡ self.old ++ colour_stop) }
    {
        match &mut self.target {
            OutputTarget::Printed(text) => text.end()?,
            OutputTarget::Collected(runs) => runs.end()?,
        }
        Ok(())
    }

    /// Appends a text in a style.
    ///
    /// # Errors
    /// `AllocError` if allocation fails.
    pub fn push_run(&mut self, style: Style, text: &str) -> Result<(), AllocError>
        ensures { OnOk result (self.new ≡ self.old ++ printed_run style (chars text.now)) }
    {
        match &mut self.target {
            OutputTarget::Printed(out) => push_run(out, style, text)?,
            OutputTarget::Collected(runs) => runs.push_run(style, text)?,
        }
        Ok(())
    }

    /// Begins a link to a URL.
    ///
    /// # Errors
    /// `AllocError` if allocation fails.
    pub fn push_link(&mut self, url: &str) -> Result<(), AllocError>
        ensures { OnOk result (self.new ≡ self.old ++ link_start (chars url.now)) }
    {
        match &mut self.target {
            OutputTarget::Printed(text) => print_link(text, url)?,
            OutputTarget::Collected(runs) => runs.push_link(url)?,
        }
        Ok(())
    }

    /// Ends the link.
    ///
    /// # Errors
    /// `AllocError` if allocation fails.
    pub fn push_link_end(&mut self) -> Result<(), AllocError>
        ensures { OnOk result (self.new ≡ self.old ++ link_start []) }
    {
        self.push_link("")
    }

    /// Returns the content as a text.
    ///
    /// # Errors
    /// `AllocError` if allocation fails. Only runs are converted.
    pub fn into_text(self, alloc: Global) -> Result<String, AllocError>
        ensures { IfOk result (λ s. string_bytes s ≡ encode_utf8_all self) }
    {
        let Output { target } = self;
        match target {
            OutputTarget::Printed(text) => Ok(text),
            OutputTarget::Collected(runs) => print(alloc, &runs),
        }
    }

    /// Returns the content as runs.
    ///
    /// # Errors
    /// `AllocError` if allocation fails. Only a text is converted.
    pub fn into_runs(self, alloc: Global) -> Result<Runs, AllocError>
        ensures { IfOk result (λ r. spell r ≡ self) }
    {
        let Output { target } = self;
        match target {
            OutputTarget::Printed(text) => parse_text(alloc, text.as_str()),
            OutputTarget::Collected(runs) => Ok(runs),
        }
    }
}

impl Canvas for Output {
    ghost written = { λ o. o };

    fn reserve(&mut self, c: char, many: usize) -> Result<(), AllocError> {
        Output::reserve(self, c, many)
    }

    fn push(&mut self, c: char) -> Result<(), AllocError> {
        Output::push(self, c)
    }

    fn push_chars(&mut self, codes: &[char]) -> Result<(), AllocError> {
        Output::push_chars(self, codes)
    }

    fn push_str(&mut self, text: &str) -> Result<(), AllocError> {
        Output::push_str(self, text)
    }

    fn begin(&mut self, style: Style) -> Result<(), AllocError> {
        Output::begin(self, style)
    }

    fn end(&mut self) -> Result<(), AllocError> {
        Output::end(self)
    }
}

impl Sink for Output {
    fn push_sign(&mut self, sign: &Rc<Sign>) -> Result<(), AllocError> {
        match &mut self.target {
            OutputTarget::Printed(text) => text.push_sign(sign)?,
            OutputTarget::Collected(runs) => runs.push_sign(sign)?,
        }
        Ok(())
    }
}
