//! What a program knows about its terminal, from variables and streams.

ghost use Rattle.std.specs.Prelude.{◌≡◌, ℕ, List, Bool, Option, IfOk, OnOk, Some, option_map, string_bytes};
ghost use Rattle.miette_style.specs.rules.Themes.{refuses_colours};
ghost use Rattle.miette.specs.declared.terminal.Stream.{Stream};
ghost use Rattle.miette.specs.rules.Detection.{AreLookedUp, IsDetected, IsToldBy, IsWidth, colours_of, draws_unicode};
ghost use Rattle.miette.specs.rules.Detection.{forced_colours, goes_to_terminal, has_many_colours, is_dumb};
ghost use Rattle.miette.specs.rules.Detection.{is_linking_kind, is_linking_program, is_set_to, is_utf8_locale};
ghost use Rattle.miette.specs.rules.Detection.{lacks_colours, names_utf8, own_colours, shows_links};

use miette_style::theme::Terminal;
use std::alloc::AllocError;
use std::env;
use std::env::{Env, VarError};
use std::io::{IsTerminal, Write};
use std::rt::{Stderr, Stdout};

/// A stream that text is printed to.
#[derive(Clone, Copy, Debug, PartialEq, Eq)]
pub enum Stream {
    /// Standard output.
    Stdout,
    /// Standard error.
    Stderr,
}

/// A handle with standard output and standard error.
pub trait Streams {
    /// Standard output.
    type Out: Write + IsTerminal + Drop;
    /// Standard error.
    type Faults: Write + IsTerminal + Drop;

    /// Possible answers of the system: whether a stream goes to a terminal.
    ghost terminal_may_be: { Self → Stream → Bool → Type 0 };

    /// Standard output.
    fn output(&self) -> Self::Out;

    /// Standard error.
    fn faults(&self) -> Self::Faults;

    /// Whether a stream goes to a terminal.
    fn goes_to_terminal(&self, stream: Stream) -> bool
        ensures { terminal_may_be self.now stream result };
}

/// The program's own streams. No clause says whether they go to terminals: the system decides.
impl Streams for HostRuntime {
    type Out = Stdout;

    type Faults = Stderr;

    ghost terminal_may_be = { λ _ _ _. Unit {0} };

    fn output(&self) -> Stdout {
        self.stdout()
    }

    fn faults(&self) -> Stderr {
        self.stderr()
    }

    fn goes_to_terminal(&self, stream: Stream) -> bool {
        match stream {
            Stream::Stdout => self.stdout().is_terminal(),
            Stream::Stderr => self.stderr().is_terminal(),
        }
    }
}

/// A handle that looks up environment variables.
pub trait Lookup {
    /// Possible answers of the system: the text of a variable, or `None` if it isn't set.
    ghost variable_may_be: { Self → List ℕ → Option (List ℕ) → Type 0 };

    /// Returns the variable with this name, if it is set. A variable that is not UTF-8 counts as not set.
    ///
    /// # Errors
    /// `AllocError` if allocation fails.
    fn variable(&self, name: &str) -> Result<Option<String>, AllocError>
        ensures { IfOk result (λ text. variable_may_be self.now name.now (option_map string_bytes text)) };
}

/// The program's own variables. No clause says what they are: the system decides.
impl<R: Env + AllocGlobal> Lookup for R {
    ghost variable_may_be = { λ _ _ _. Unit {0} };

    fn variable(&self, name: &str) -> Result<Option<String>, AllocError> {
        match env::var(self, name) {
            Ok(text) => Ok(Some(text)),
            Err(VarError::OutOfMemory) => Err(AllocError),
            Err(VarError::NotPresent | VarError::NotUnicode) => Ok(None),
        }
    }
}

/// Variables that describe a terminal, each if it is set, and which streams go to one.
#[derive(Debug, Default, Drop)]
pub struct Variables {
    /// `FORCE_COLOR`: `0` and `false` turn colors off, `3` means 16 million colors, anything else some. It takes
    /// precedence.
    pub force_color: Option<String>,
    /// `NO_COLOR`: anything except `0` turns colors off.
    pub no_color: Option<String>,
    /// `CLICOLOR`: `0` turns colors off.
    pub clicolor: Option<String>,
    /// `COLORTERM`: `truecolor` and `24bit` mean 16 million colors.
    pub colorterm: Option<String>,
    /// `TERM`, the kind of the terminal. There are no colors if it is missing or `dumb`.
    pub term: Option<String>,
    /// `TERM_PROGRAM`, the name of the terminal. Some terminals are known to support links.
    pub term_program: Option<String>,
    /// `VTE_VERSION`. Links are supported if it, or one of the next two, is set.
    pub vte_version: Option<String>,
    /// `KONSOLE_VERSION`.
    pub konsole_version: Option<String>,
    /// `WT_SESSION`.
    pub wt_session: Option<String>,
    /// `LC_ALL`: a locale that ends in `UTF-8` supports Unicode. Of this variable and the next two, the first one that
    /// is set counts.
    pub lc_all: Option<String>,
    /// `LC_CTYPE`.
    pub lc_ctype: Option<String>,
    /// `LANG`.
    pub lang: Option<String>,
    /// `COLUMNS`: the width, at least 1.
    pub columns: Option<String>,
    /// `NO_GRAPHICS`: `0` asks for graphical reports, anything else for narrated ones.
    pub no_graphics: Option<String>,
    /// Whether standard output goes to a terminal.
    pub stdout_terminal: bool,
    /// Whether standard error goes to a terminal.
    pub stderr_terminal: bool,
}

/// Returns what is known about the terminal that this stream goes to.
///
/// # Errors
/// `AllocError` if allocation for the variables fails.
pub fn detect_terminal<R: Lookup + Streams>(rt: &R, stream: Stream) -> Result<Terminal, AllocError>
    ensures { IfOk result (λ it. (v : _) × IsToldBy (R.variable_may_be rt.now) (R.terminal_may_be rt.now) v
        × IsDetected v stream it) }
{
    let output = rt.goes_to_terminal(Stream::Stdout);
    let faults = rt.goes_to_terminal(Stream::Stderr);
    Ok(Variables::read(rt, output, faults)?.terminal(stream))
}

impl Variables {
    /// Looks up each variable by its name. A program passes its `HostRuntime`, and whether its two streams go to
    /// terminals.
    ///
    /// # Errors
    /// `AllocError` if allocation fails.
    pub fn read<L: Lookup>(
        lookup: &L,
        stdout_terminal: bool,
        stderr_terminal: bool,
    ) -> Result<Variables, AllocError>
        ensures variables { IfOk result (AreLookedUp (L.variable_may_be lookup.now)) }
        ensures output { IfOk result (λ it. it.stdout_terminal ≡ stdout_terminal) }
        ensures faults { IfOk result (λ it. it.stderr_terminal ≡ stderr_terminal) }
    {
        let mut it = Variables::default();
        it.stdout_terminal = stdout_terminal;
        it.stderr_terminal = stderr_terminal;
        it.read_all(lookup)?;
        Ok(it)
    }

    fn read_all<L: Lookup>(&mut self, lookup: &L) -> Result<(), AllocError>
        ensures variables { OnOk result (AreLookedUp (L.variable_may_be lookup.now) self.new) }
        ensures output { self.new.stdout_terminal ≡ self.old.stdout_terminal }
        ensures faults { self.new.stderr_terminal ≡ self.old.stderr_terminal }
    {
        fill(lookup, "FORCE_COLOR", &mut self.force_color)?;
        fill(lookup, "NO_COLOR", &mut self.no_color)?;
        fill(lookup, "CLICOLOR", &mut self.clicolor)?;
        fill(lookup, "COLORTERM", &mut self.colorterm)?;
        fill(lookup, "TERM", &mut self.term)?;
        fill(lookup, "TERM_PROGRAM", &mut self.term_program)?;
        fill(lookup, "VTE_VERSION", &mut self.vte_version)?;
        fill(lookup, "KONSOLE_VERSION", &mut self.konsole_version)?;
        fill(lookup, "WT_SESSION", &mut self.wt_session)?;
        fill(lookup, "LC_ALL", &mut self.lc_all)?;
        fill(lookup, "LC_CTYPE", &mut self.lc_ctype)?;
        fill(lookup, "LANG", &mut self.lang)?;
        fill(lookup, "COLUMNS", &mut self.columns)?;
        fill(lookup, "NO_GRAPHICS", &mut self.no_graphics)
    }

    /// Returns the terminal that the variables describe, for output to this stream. It doesn't allocate.
    pub fn terminal(self, stream: Stream) -> Terminal
        ensures { IsDetected self stream result }
    {
        Terminal {
            width: self.width(),
            color: self.colours(stream),
            unicode: self.draws_unicode(),
            hyperlinks: self.shows_links(stream),
            stdout_terminal: self.stdout_terminal,
            stderr_terminal: self.stderr_terminal,
            no_graphics: self.no_graphics,
            no_color: self.no_color,
        }
    }

    fn goes_to_terminal(&self, stream: Stream) -> bool
        ensures { result ≡ goes_to_terminal self.now stream }
    {
        match stream {
            Stream::Stdout => self.stdout_terminal,
            Stream::Stderr => self.stderr_terminal,
        }
    }

    fn colours(&self, stream: Stream) -> Option<bool>
        ensures { result ≡ colours_of self.now stream }
    {
        match &self.force_color {
            Some(text) => forced_colours(text.as_str()),
            None => self.own_colours(stream),
        }
    }

    fn own_colours(&self, stream: Stream) -> Option<bool>
        ensures { result ≡ own_colours self.now stream }
    {
        if self.lacks_colours(stream) {
            return None;
        }
        Some(self.has_many_colours())
    }

    fn lacks_colours(&self, stream: Stream) -> bool
        ensures { result ≡ lacks_colours self.now stream }
    {
        self.refuses_colours()
            || !self.goes_to_terminal(stream)
            || is_set_to(&self.clicolor, "0")
            || is_dumb(&self.term)
    }

    fn refuses_colours(&self) -> bool
        ensures { result ≡ refuses_colours (option_map string_bytes self.now.no_color) }
    {
        match &self.no_color {
            Some(text) => text.as_str() != "0",
            None => false,
        }
    }

    fn has_many_colours(&self) -> bool
        ensures { result ≡ has_many_colours self.now }
    {
        is_set_to(&self.colorterm, "truecolor") || is_set_to(&self.colorterm, "24bit")
    }

    fn draws_unicode(&self) -> bool
        ensures { result ≡ draws_unicode self.now }
    {
        if is_set_to(&self.term, "linux") {
            return false;
        }
        match (&self.lc_all, &self.lc_ctype) {
            (Some(text), _) => names_utf8(text.as_str()),
            (None, Some(text)) => names_utf8(text.as_str()),
            (None, None) => is_utf8_locale(&self.lang),
        }
    }

    fn shows_links(&self, stream: Stream) -> bool
        ensures { result ≡ shows_links self.now stream }
    {
        self.goes_to_terminal(stream)
            && (is_linking_program(&self.term_program)
                || is_linking_kind(&self.term)
                || self.vte_version.is_some()
                || self.konsole_version.is_some()
                || self.wt_session.is_some())
    }

    fn width(&self) -> Option<usize>
        ensures { IsWidth (option_map string_bytes self.now.columns) result }
    {
        match &self.columns {
            Some(text) => width_of(text.as_str()),
            None => None,
        }
    }
}

// Stores the variable with this name in a slot.
fn fill<L: Lookup>(lookup: &L, name: &str, slot: &mut Option<String>) -> Result<(), AllocError>
    ensures { OnOk result (L.variable_may_be lookup.now name.now (option_map string_bytes slot.new)) }
{
    *slot = lookup.variable(name)?;
    Ok(())
}

fn is_set_to(variable: &Option<String>, wanted: &str) -> bool
    ensures { result ≡ is_set_to variable.now wanted.now }
{
    match variable {
        Some(text) => text.as_str() == wanted,
        None => false,
    }
}

// The colors that a value of `FORCE_COLOR` asks for.
fn forced_colours(text: &str) -> Option<bool>
    ensures { result ≡ forced_colours text.now }
{
    if text == "0" || text == "false" {
        None
    } else {
        Some(text == "3")
    }
}

fn is_dumb(term: &Option<String>) -> bool
    ensures { result ≡ is_dumb term.now }
{
    match term {
        Some(text) => text.as_str() == "dumb",
        None => true,
    }
}

fn names_utf8(text: &str) -> bool
    ensures { result ≡ names_utf8 text.now }
{
    let bytes = text.as_bytes();
    bytes.ends_with(b"UTF-8")
        || bytes.ends_with(b"utf-8")
        || bytes.ends_with(b"UTF8")
        || bytes.ends_with(b"utf8")
}

fn is_utf8_locale(locale: &Option<String>) -> bool
    ensures { result ≡ is_utf8_locale locale.now }
{
    match locale {
        Some(text) => names_utf8(text.as_str()),
        None => false,
    }
}

fn is_linking_program(name: &Option<String>) -> bool
    ensures { result ≡ is_linking_program name.now }
{
    is_set_to(name, "iTerm.app")
        || is_set_to(name, "WezTerm")
        || is_set_to(name, "vscode")
        || is_set_to(name, "Hyper")
        || is_set_to(name, "ghostty")
        || is_set_to(name, "zed")
}

fn is_linking_kind(kind: &Option<String>) -> bool
    ensures { result ≡ is_linking_kind kind.now }
{
    is_set_to(kind, "xterm-kitty")
        || is_set_to(kind, "alacritty")
        || is_set_to(kind, "xterm-ghostty")
}

// The width that a text of digits states, at least 1.
fn width_of(text: &str) -> Option<usize>
    ensures { IsWidth (Some text.now) result }
{
    if text.starts_with('+') {
        return None;
    }
    match text.parse() {
        Ok(0) => None,
        Ok(width) => Some(width),
        Err(_) => None,
    }
}
