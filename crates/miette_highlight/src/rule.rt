//! Rules: a pattern and a style.

ghost use Rattle.std.specs.Prelude.{◌≡◌, true, false, IfOk, None, Some, map};
ghost use Rattle.miette_highlight.specs.rules.Patterns.{IsWords, AreDelimiters};

use miette_style::style::Style;
use std::alloc::{AllocError, Global};

/// The delimiters of a part of a text, for example of a string or a comment.
#[derive(Clone, Debug, Drop)]
pub struct Delimiters {
    /// The opening delimiter.
    pub opens: String,
    /// The closing delimiter. A part without one ends with its line.
    pub closes: String,
    /// An escape byte, for example a backslash. A delimiter that follows it doesn't count.
    pub escape: Option<u8>,
    /// Whether a part that isn't closed continues on the next line.
    pub over_lines: bool,
}

impl Delimiters {
    /// Creates delimiters without an escape, of parts that end with their line. If `closes` is empty, a part is the
    /// opening delimiter only.
    ///
    /// # Errors
    /// `AllocError` if allocation fails.
    pub fn new(alloc: Global, opens: &str, closes: &str) -> Result<Self, AllocError>
        ensures { IfOk result (λ it. AreDelimiters opens.now closes.now None false it) }
    {
        Ok(Delimiters {
            opens: String::from_str(alloc, opens)?,
            closes: String::from_str(alloc, closes)?,
            escape: None,
            over_lines: false,
        })
    }

    /// Sets the escape byte.
    pub fn escaped_by(mut self, escape: u8) -> Self
        ensures { result ≡ record self { escape = Some escape } }
    {
        self.escape = Some(escape);
        self
    }

    /// Lets parts continue on the next line.
    pub fn over_lines(mut self) -> Self
        ensures { result ≡ record self { over_lines = true } }
    {
        self.over_lines = true;
        self
    }
}

/// What a rule matches at a position of a line. A word is a longest run of ASCII letters and digits, `_`, and non-ASCII
/// characters.
#[derive(Clone, Debug, Drop)]
pub enum Pattern {
    /// One of these words.
    Words(Vec<String>),
    /// A word, or another character, whose first byte is between these two, inclusive.
    From(u8, u8),
    /// A part between two delimiters, including them.
    Between(Delimiters),
    /// One character between two delimiters, including them; or an escape between them. An escape is the escape byte,
    /// any character, and then word characters and braces only, as in `'\u{10_FFFF}'`.
    Character(Delimiters),
    /// A byte and the word after it.
    Prefixed(u8),
    /// A raw string: this prefix, any number of hashes, and a quoted text that ends at the next quote followed by as
    /// many hashes. It may continue on the next line.
    Raw(String),
}

impl Pattern {
    /// Creates a pattern of words.
    ///
    /// # Errors
    /// `AllocError` if allocation fails.
    pub fn words(alloc: Global, words: &[&str]) -> Result<Self, AllocError>
        ensures { IfOk result (λ it. IsWords (map (λ word. word.now) words.now) it) }
    {
        let mut owned = Vec::new(alloc);
        for word in words {
            owned.push(String::from_str(alloc, word)?)?;
        }
        Ok(Pattern::Words(owned))
    }
}

/// A pattern and the style of its matches.
#[derive(Clone, Debug, Drop)]
pub struct Rule {
    /// What the rule matches.
    pub pattern: Pattern,
    /// The style of a match.
    pub style: Style,
}
