//! Runs: styled text. Style changes, links and other escape sequences are stored separately from the characters until
//! they are printed.

ghost use Rattle.std.specs.Prelude.{◌≡◌, ◌++◌, ◌∷◌, [], List, IfOk, OnOk, chars, map, true};
ghost use Rattle.miette_runs.specs.rules.Runs.{link_start, printed_run};
ghost use Rattle.miette_style.specs.rules.Codes.{colour_start, colour_stop};
ghost use Rattle.miette_runs.specs.rules.Sequences.{Character, Sequence, Token, is_whole, spell};
ghost use Rattle.miette_runs.specs.views.Interleaving.{sign_text, interleaving};

pub mod cells;
pub mod codes;
pub mod columns;
mod cut;
pub mod output;
pub mod reading;
mod sequences;
pub mod sign;
pub mod sink;
pub mod tags;
pub mod trimming;

use crate::runs::sequences::sequence_at;
use crate::runs::sign::{Sign, Tag, shared_sign};
use crate::runs::sink::Sink;
use miette_style::canvas::Canvas;
use miette_style::codes::style_of_codes;
use miette_style::style::Style;
use std::alloc::{AllocError, Global};
use std::marker::Model;
use std::rc::Rc;

/// A list of characters, and the signs between them, in order. A sign is a style change or an escape sequence; it has
/// an index into the characters.
///
/// A run is the text between the sign that begins a style and the one that ends it. After an allocation failure the
/// content is unspecified; drop it.
#[derive(Debug, Drop)]
pub struct Runs {
    codes: Vec<char>,
    tags: Vec<Tag>,
}

impl Model for Runs {
    ghost use Rattle.std.specs.Prelude.{List, length};
    ghost use Rattle.miette_runs.specs.rules.Sequences.{Token};
    ghost use Rattle.miette_runs.specs.views.Interleaving.{AreWithin, interleaving};

    ghost Value = { List Token };

    ghost view = { λ r. interleaving 0 r.codes.items r.tags.items };

    ghost invariant = { λ r. AreWithin (length r.codes.items) r.tags.items };
}

impl Runs {
    /// Creates empty runs.
    pub fn new(alloc: Global) -> Self
        ensures { result ≡ [] }
    {
        Runs {
            codes: Vec::new(alloc),
            tags: Vec::new(alloc),
        }
    }

    /// Creates runs of characters without signs.
    pub(crate) fn of_characters(alloc: Global, codes: Vec<char>) -> Self
        ensures { result ≡ map Character codes.items }
    {
        Runs {
            codes,
            tags: Vec::new(alloc),
        }
    }

    /// Appends a character.
    ///
    /// # Errors
    /// `AllocError` if allocation fails.
    pub fn push(&mut self, c: char) -> Result<(), AllocError>
        ensures tokens { OnOk result (self.new ≡ self.old ++ Character c ∷ []) }
        ensures text { OnOk result (spell self.new ≡ spell self.old ++ c ∷ []) }
    {
        self.codes.push(c)?;
        Ok(())
    }

    /// Appends characters.
    ///
    /// # Errors
    /// `AllocError` if allocation fails.
    pub fn push_chars(&mut self, codes: &[char]) -> Result<(), AllocError>
        ensures tokens { OnOk result (self.new ≡ self.old ++ map Character codes.now) }
        ensures text { OnOk result (spell self.new ≡ spell self.old ++ codes.now) }
    {
        self.codes.extend_from_slice(codes)
    }

    /// Appends the characters of a text.
    ///
    /// # Errors
    /// `AllocError` if allocation fails.
    pub fn push_str(&mut self, text: &str) -> Result<(), AllocError>
        ensures tokens { OnOk result (self.new ≡ self.old ++ map Character (chars text.now)) }
        ensures text { OnOk result (spell self.new ≡ spell self.old ++ chars text.now) }
    {
        for c in text.chars() {
            self.push(c)?;
        }
        Ok(())
    }

    // Appends a sign after the last character.
    fn push_tag(&mut self, sign: Rc<Sign>) -> Result<(), AllocError>
        ensures tokens { OnOk result (self.new ≡ self.old ++ Sequence (sign_text sign.value) ∷ []) }
        ensures text { OnOk result (spell self.new ≡ spell self.old ++ sign_text sign.value) }
    {
        let at = self.codes.len();
        self.tags.push(Tag { at, sign })?;
        Ok(())
    }

    // Appends a sign that isn't shared yet.
    fn push_own(&mut self, sign: Sign) -> Result<(), AllocError>
        ensures tokens { OnOk result (self.new ≡ self.old ++ Sequence (sign_text sign) ∷ []) }
        ensures text { OnOk result (spell self.new ≡ spell self.old ++ sign_text sign) }
    {
        let shared = shared_sign(*self.codes.allocator(), &self.tags, sign)?;
        self.push_tag(shared)
    }

    /// Appends a sign of other runs, which both share afterwards.
    pub(crate) fn push_sign(&mut self, sign: &Rc<Sign>) -> Result<(), AllocError>
        ensures tokens { OnOk result (self.new ≡ self.old ++ Sequence (sign_text sign.now.value) ∷ []) }
        ensures text { OnOk result (spell self.new ≡ spell self.old ++ sign_text sign.now.value) }
    {
        let shared = sign.clone()?;
        self.push_tag(shared)
    }

    /// Appends codes as a single sign.
    pub(crate) fn push_codes_as_sign(&mut self, codes: &[char]) -> Result<(), AllocError>
        ensures tokens { OnOk result (self.new ≡ self.old ++ Sequence codes.now ∷ []) }
        ensures text { OnOk result (spell self.new ≡ spell self.old ++ codes.now) }
    {
        if is_end(codes) {
            return self.push_own(Sign::End);
        }
        if let Some(style) = style_of_codes(codes) {
            return self.push_own(Sign::Begin(style));
        }
        let alloc = *self.codes.allocator();
        let copy = Vec::from_slice(alloc, codes)?;
        self.push_own(Sign::Sequence(copy))
    }

    /// Begins a style. It applies to what is appended next.
    ///
    /// # Errors
    /// `AllocError` if allocation fails.
    pub fn begin(&mut self, style: Style) -> Result<(), AllocError>
        ensures tokens { OnOk result (self.new ≡ self.old ++ Sequence (colour_start style) ∷ []) }
        ensures text { OnOk result (spell self.new ≡ spell self.old ++ colour_start style) }
    {
        self.push_own(Sign::Begin(style))
    }

    /// Ends the style.
    ///
    /// # Errors
    /// `AllocError` if allocation fails.
    pub fn end(&mut self) -> Result<(), AllocError>
        ensures tokens { OnOk result (self.new ≡ self.old ++ Sequence colour_stop ∷ []) }
        ensures text { OnOk result (spell self.new ≡ spell self.old ++ colour_stop) }
    {
        self.push_own(Sign::End)
    }

    /// Appends a text in a style.
    ///
    /// # Errors
    /// `AllocError` if allocation fails.
    pub fn push_run(&mut self, style: Style, text: &str) -> Result<(), AllocError>
        ensures text { OnOk result (spell self.new ≡ spell self.old ++ printed_run style (chars text.now)) }
    {
        push_run(self, style, text)
    }

    /// Appends characters in a style.
    ///
    /// # Errors
    /// `AllocError` if allocation fails.
    pub fn push_run_chars(&mut self, style: Style, text: &[char]) -> Result<(), AllocError>
        ensures text { OnOk result (spell self.new ≡ spell self.old ++ printed_run style text.now) }
    {
        if text.is_empty() || style.is_plain() {
            return self.push_chars(text);
        }
        self.begin(style)?;
        self.push_chars(text)?;
        self.end()
    }

    // Appends an escape sequence as a sign, or as characters if it isn't complete.
    fn push_sequence(&mut self, codes: Vec<char>) -> Result<(), AllocError>
        ensures text { OnOk result (spell self.new ≡ spell self.old ++ codes.items) }
    {
        if is_whole(&codes) {
            self.push_own(Sign::Sequence(codes))
        } else {
            self.push_chars(&codes)
        }
    }

    /// Begins a link to a URL.
    ///
    /// # Errors
    /// `AllocError` if allocation fails.
    pub fn push_link(&mut self, url: &str) -> Result<(), AllocError>
        ensures text { OnOk result (spell self.new ≡ spell self.old ++ link_start (chars url.now)) }
    {
        let alloc = *self.codes.allocator();
        self.push_sequence(link_codes(alloc, url)?)
    }

    /// Ends the link.
    ///
    /// # Errors
    /// `AllocError` if allocation fails.
    pub fn push_link_end(&mut self) -> Result<(), AllocError>
        ensures text { OnOk result (spell self.new ≡ spell self.old ++ link_start []) }
    {
        self.push_link("")
    }

    /// Appends other runs.
    ///
    /// # Errors
    /// `AllocError` if allocation fails.
    pub fn append(&mut self, more: &Runs) -> Result<(), AllocError>
        ensures tokens { OnOk result (self.new ≡ self.old ++ more.now) }
        ensures text { OnOk result (spell self.new ≡ spell self.old ++ spell more.now) }
    {
        let parts = more.parts();
        let mut start: usize = 0;
        for tag in parts.tags {
            let rest = &parts.codes[start..];
            let gap = tag.at.saturating_sub(start).min(rest.len());
            self.push_chars(&rest[..gap])?;
            self.push_sign(&tag.sign)?;
            start += gap;
        }
        self.push_chars(&parts.codes[start..])
    }

    /// Returns the characters and signs.
    pub fn parts(&self) -> RunsSlice<'_>
        ensures { interleaving 0 result.codes.now result.tags.now ≡ self.now }
    {
        RunsSlice {
            codes: self.codes.as_slice(),
            tags: self.tags.as_slice(),
        }
    }
}

/// Appends a text in a style.
pub(crate) fn push_run<C: Canvas>(out: &mut C, style: Style, text: &str) -> Result<(), AllocError>
    ensures { OnOk result (C.written out.new ≡ C.written out.old ++ printed_run style (chars text.now)) }
{
    if text.is_empty() || style.is_plain() {
        return out.push_str(text);
    }
    out.begin(style)?;
    out.push_str(text)?;
    out.end()
}

impl Canvas for Runs {
    ghost written = { λ runs. spell runs };

    fn reserve(&mut self, _c: char, many: usize) -> Result<(), AllocError> {
        self.codes.reserve(many)
    }

    fn push(&mut self, c: char) -> Result<(), AllocError> {
        Runs::push(self, c)
    }

    fn push_chars(&mut self, codes: &[char]) -> Result<(), AllocError> {
        Runs::push_chars(self, codes)
    }

    fn push_str(&mut self, text: &str) -> Result<(), AllocError> {
        Runs::push_str(self, text)
    }

    fn begin(&mut self, style: Style) -> Result<(), AllocError> {
        Runs::begin(self, style)
    }

    fn end(&mut self) -> Result<(), AllocError> {
        Runs::end(self)
    }
}

impl Sink for Runs {
    fn push_sign(&mut self, sign: &Rc<Sign>) -> Result<(), AllocError> {
        Runs::push_sign(self, sign)
    }
}

// Returns the codes that begin a link.
fn link_codes(alloc: Global, url: &str) -> Result<Vec<char>, AllocError>
    ensures { IfOk result (λ v. v.items ≡ link_start (chars url.now)) }
{
    let mut codes = Vec::from_slice(alloc, &['\u{1B}', ']', '8', ';', ';'])?;
    for c in url.chars() {
        codes.push(c)?;
    }
    codes.extend_from_slice(&['\u{1B}', '\\'])?;
    Ok(codes)
}

// Whether codes end a style.
fn is_end(codes: &[char]) -> bool
    ensures { result ≡ true → codes.now ≡ colour_stop }
{
    match codes {
        [a, b, c, d] => *a == '\u{1B}' && *b == '[' && *c == '0' && *d == 'm',
        _ => false,
    }
}

/// Whether codes are exactly one complete escape sequence.
pub(crate) fn is_whole(codes: &[char]) -> bool
    ensures { result ≡ is_whole codes.now }
{
    !codes.is_empty() && sequence_at(codes, 0, false) == codes.len()
}

/// Borrowed characters and signs of runs.
#[derive(Clone, Copy)]
pub struct RunsSlice<'a> {
    /// The characters.
    pub codes: &'a [char],
    /// The signs, in order.
    pub tags: &'a [Tag],
}
