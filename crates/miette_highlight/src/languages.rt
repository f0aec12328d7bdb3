//! Rules for languages. Strings are green, numbers cyan, values yellow, keywords magenta, comments dimmed.

ghost use Rattle.std.specs.Prelude.{◌≡◌, ◌++◌, ◌∷◌, [], IfOk, OnOk, None, map};
ghost use Rattle.miette_highlight.specs.rules.Languages.{beginning, of_words, pattern_text, prefixed, rule_texts};
ghost use Rattle.miette_highlight.specs.rules.Languages.{raw_text, values, json_rules, rust_rules, toml_rules};
ghost use Rattle.miette_highlight.specs.rules.Patterns.{AreDelimiters};
ghost use Rattle.miette_highlight.specs.steps.LanguageParts.{escape_of, part_rule, part_text};
ghost use Rattle.miette_style.specs.declared.style.Style.{Style};
ghost use Rattle.miette_style.specs.rules.Styles.{coloured_style};

use crate::patterns::{Delimiters, Pattern, PatternHighlighter, Rule};
use miette_style::style::{Color, Style};
use std::alloc::{AllocError, Global};

impl PatternHighlighter {
    /// Creates a highlighter for JSON.
    ///
    /// # Errors
    /// `AllocError` if allocation fails.
    pub fn json(alloc: Global) -> Result<Self, AllocError>
        ensures rules { IfOk result (λ it. rule_texts it.rules.items ≡ json_rules) }
        ensures closed { IfOk result (λ it. it.left_open ≡ None) }
    {
        let rules = rules_of(alloc, &JSON_PARTS)?;
        with_values(alloc, rules, &["true", "false", "null"])
    }

    /// Creates a highlighter for TOML. Keys are plain, but keys in quotes count as strings.
    ///
    /// # Errors
    /// `AllocError` if allocation fails.
    pub fn toml(alloc: Global) -> Result<Self, AllocError>
        ensures rules { IfOk result (λ it. rule_texts it.rules.items ≡ toml_rules) }
        ensures closed { IfOk result (λ it. it.left_open ≡ None) }
    {
        let rules = rules_of(alloc, &TOML_PARTS)?;
        with_values(alloc, rules, &["true", "false", "inf", "nan"])
    }

    /// Creates a highlighter for Rust. A block comment ends at the first `*/`.
    ///
    /// # Errors
    /// `AllocError` if allocation fails.
    pub fn rust(alloc: Global) -> Result<Self, AllocError>
        ensures rules { IfOk result (λ it. rule_texts it.rules.items ≡ rust_rules) }
        ensures closed { IfOk result (λ it. it.left_open ≡ None) }
    {
        let mut rules = rules_of(alloc, &RUST_PARTS)?;
        push_raw(&mut rules, alloc, "r")?;
        push_raw(&mut rules, alloc, "br")?;
        push_raw(&mut rules, alloc, "cr")?;
        push_prefixed(&mut rules, b'\'', Color::Magenta)?;
        push_words(&mut rules, alloc, &RUST_WORDS, Color::Magenta)?;
        with_values(alloc, rules, &["true", "false"])
    }
}

/// A delimited part: a comment, a string or a character.
struct DelimitedPart {
    opens: &'static str,
    closes: &'static str,
    /// Whether a backslash escapes the next character.
    escapes: bool,
    /// Whether the part may continue on the next line.
    goes_on: bool,
    is_comment: bool,
    /// Whether the part is a single character.
    is_character: bool,
}

const TEXT: DelimitedPart = DelimitedPart {
    opens: "\"",
    closes: "\"",
    escapes: false,
    goes_on: false,
    is_comment: false,
    is_character: false,
};

static JSON_PARTS: [DelimitedPart; 1] = [DelimitedPart {
    escapes: true,
    ..TEXT
}];

static TOML_PARTS: [DelimitedPart; 5] = [
    DelimitedPart {
        opens: "#",
        closes: "\n",
        is_comment: true,
        ..TEXT
    },
    DelimitedPart {
        opens: "\"\"\"",
        closes: "\"\"\"",
        escapes: true,
        goes_on: true,
        ..TEXT
    },
    DelimitedPart {
        opens: "'''",
        closes: "'''",
        goes_on: true,
        ..TEXT
    },
    DelimitedPart {
        escapes: true,
        ..TEXT
    },
    DelimitedPart {
        opens: "'",
        closes: "'",
        ..TEXT
    },
];

// A character in quotes.
const CHARACTER: DelimitedPart = DelimitedPart {
    closes: "'",
    escapes: true,
    is_character: true,
    ..TEXT
};

static RUST_PARTS: [DelimitedPart; 7] = [
    DelimitedPart {
        opens: "//",
        closes: "\n",
        is_comment: true,
        ..TEXT
    },
    DelimitedPart {
        opens: "/*",
        closes: "*/",
        goes_on: true,
        is_comment: true,
        ..TEXT
    },
    DelimitedPart {
        opens: "'",
        ..CHARACTER
    },
    DelimitedPart {
        opens: "b'",
        ..CHARACTER
    },
    DelimitedPart {
        escapes: true,
        goes_on: true,
        ..TEXT
    },
    DelimitedPart {
        opens: "b\"",
        escapes: true,
        goes_on: true,
        ..TEXT
    },
    DelimitedPart {
        opens: "c\"",
        escapes: true,
        goes_on: true,
        ..TEXT
    },
];

const RUST_WORDS: [&str; 37] = [
    "as", "async", "await", "break", "const", "continue", "crate", "dyn", "else", "enum", "extern",
    "fn", "for", "if", "impl", "in", "let", "loop", "match", "mod", "move", "mut", "pub", "ref",
    "return", "self", "Self", "static", "struct", "super", "trait", "type", "unsafe", "use",
    "where", "while", "yield",
];

// Returns the delimiters of such a part.
fn delimiters_of(alloc: Global, part: &DelimitedPart) -> Result<Delimiters, AllocError>
    ensures { IfOk result (λ it.
        AreDelimiters part.now.opens.now part.now.closes.now (escape_of part.now.escapes) part.now.goes_on it) }
{
    let mut delimiters = Delimiters::new(alloc, part.opens, part.closes)?;
    if part.escapes {
        delimiters = delimiters.escaped_by(b'\\');
    }
    if part.goes_on {
        delimiters = delimiters.over_lines();
    }
    Ok(delimiters)
}

// Returns the pattern of such a part.
fn pattern_of(alloc: Global, part: &DelimitedPart) -> Result<Pattern, AllocError>
    ensures { IfOk result (λ it. (style : Style) → pattern_text it style ≡ part_text part.now style) }
{
    let delimiters = delimiters_of(alloc, part)?;
    if part.is_character {
        return Ok(Pattern::Character(delimiters));
    }
    Ok(Pattern::Between(delimiters))
}

// Returns the rules of these parts. Strings and characters are green, comments dimmed.
fn rules_of(alloc: Global, parts: &[DelimitedPart]) -> Result<Vec<Rule>, AllocError>
    ensures { IfOk result (λ rules. rule_texts rules.items ≡ map part_rule parts.now) }
{
    let mut rules = Vec::new(alloc);
    for part in parts {
        let style = if part.is_comment {
            Style::new().dimmed()
        } else {
            Style::new().color(Color::Green)
        };
        let pattern = pattern_of(alloc, part)?;
        rules.push(Rule { pattern, style })?;
    }
    Ok(rules)
}

// Appends a rule that colours these words.
fn push_words(
    rules: &mut Vec<Rule>,
    alloc: Global,
    words: &[&str],
    color: Color,
) -> Result<(), AllocError>
    ensures { OnOk result (rule_texts rules.new.items ≡ rule_texts rules.old.items
        ++ of_words (map (λ word. word.now) words.now) (coloured_style color) ∷ []) }
{
    let style = Style::new().color(color);
    let pattern = Pattern::words(alloc, words)?;
    rules.push(Rule { pattern, style })?;
    Ok(())
}

// Appends a rule that colours raw strings with this prefix green.
fn push_raw(rules: &mut Vec<Rule>, alloc: Global, prefix: &str) -> Result<(), AllocError>
    ensures { OnOk result (rule_texts rules.new.items ≡ rule_texts rules.old.items ++ raw_text prefix.now ∷ []) }
{
    let style = Style::new().color(Color::Green);
    let pattern = Pattern::Raw(String::from_str(alloc, prefix)?);
    rules.push(Rule { pattern, style })?;
    Ok(())
}

// Appends a rule that colours a byte and the word after it.
fn push_prefixed(rules: &mut Vec<Rule>, byte: u8, color: Color) -> Result<(), AllocError>
    ensures { OnOk result (rule_texts rules.new.items ≡ rule_texts rules.old.items
        ++ prefixed byte (coloured_style color) ∷ []) }
{
    let style = Style::new().color(color);
    let pattern = Pattern::Prefixed(byte);
    rules.push(Rule { pattern, style })?;
    Ok(())
}

// Creates a highlighter with these rules, a rule for these words, and one for words that begin with a digit.
fn with_values(
    alloc: Global,
    mut rules: Vec<Rule>,
    words: &[&str],
) -> Result<PatternHighlighter, AllocError>
    ensures rules { IfOk result (λ it. rule_texts it.rules.items
        ≡ rule_texts rules.items ++ values (map (λ word. word.now) words.now)) }
    ensures closed { IfOk result (λ it. it.left_open ≡ None) }
{
    push_words(&mut rules, alloc, words, Color::Yellow)?;
    let style = Style::new().color(Color::Cyan);
    let pattern = Pattern::From(b'0', b'9');
    rules.push(Rule { pattern, style })?;
    Ok(PatternHighlighter::new(rules))
}
