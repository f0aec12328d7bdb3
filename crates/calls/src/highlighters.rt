//! Calls of highlighters made of rules.

use crate::fixtures::list_of;
use crate::rows::{CallResult, REFUSED, Rows};
use miette::highlight::Highlighter;
use miette::style::{Color, Style};
use miette_highlight::highlight::{Delimiters, Pattern, PatternHighlighter, Rule, style_each_char};
use std::alloc::{AllocError, Global};

/// The calls of this module.
#[derive(Clone, Copy)]
pub enum HighlighterCall {
    ByChar,
    NewDelimiters,
    DelimitersClones,
    Words,
    PatternClones,
    RuleClones,
    Json,
    Toml,
    Rust,
    Clones,
    Line,
}

/// Makes a call and prints its row.
///
/// # Errors
/// If allocating the call's arguments fails.
pub fn make(alloc: Global, call: HighlighterCall, row: &mut Rows) -> CallResult {
    match call {
        HighlighterCall::ByChar => row.answer(style_each_char(alloc, "a1", digits_in_cyan)),
        HighlighterCall::NewDelimiters => row.answer(Delimiters::new(alloc, "/*", "*/")),
        HighlighterCall::DelimitersClones => return row.clones(Delimiters::new(alloc, "/*", "*/")),
        HighlighterCall::Words => row.answer(Pattern::words(alloc, &["let", "in"])),
        HighlighterCall::PatternClones => return row.clones(Pattern::words(alloc, &["let", "in"])),
        HighlighterCall::RuleClones => return row.clones(rule(alloc)),
        HighlighterCall::Json => {
            pieces(
                alloc,
                row,
                "{\"a\": [1, true]}",
                PatternHighlighter::json(alloc),
            )
        }
        HighlighterCall::Toml => {
            pieces(alloc, row, "a = 'x' # c", PatternHighlighter::toml(alloc))
        }
        HighlighterCall::Rust => {
            pieces(
                alloc,
                row,
                "let s = \"x\"; // c",
                PatternHighlighter::rust(alloc),
            )
        }
        HighlighterCall::Clones => return row.clones(highlighter_by_rule(alloc)),
        HighlighterCall::Line => open_comment(alloc, row, highlighter_by_rule(alloc)?),
    }
    Ok(())
}

/// Returns cyan for digits, and no style otherwise.
fn digits_in_cyan(c: char) -> Style {
    if c.is_ascii_digit() {
        Style::new().color(Color::Cyan)
    } else {
        Style::new()
    }
}

/// Prints the pieces of a line by a highlighter.
fn pieces(alloc: Global, row: &mut Rows, line: &str, made: Result<PatternHighlighter, AllocError>) {
    row.value(&line);
    match made {
        Ok(mut highlighter) => row.answer(highlighter.highlight_line(alloc, line)),
        Err(AllocError) => row.refused(),
    }
}

/// Returns a rule that dims comments over several lines.
fn rule(alloc: Global) -> Result<Rule, AllocError> {
    let delimiters = Delimiters::new(alloc, "/*", "*/")?.escaped_by(b'\\');
    Ok(Rule {
        pattern: Pattern::Between(delimiters.over_lines()),
        style: Style::new().dimmed(),
    })
}

fn highlighter_by_rule(alloc: Global) -> Result<PatternHighlighter, AllocError> {
    Ok(PatternHighlighter::new(list_of(alloc, rule(alloc))?))
}

/// Prints the pieces of a line with an open comment, and the highlighter after it. If allocation fails, the highlighter
/// is unchanged.
fn open_comment(alloc: Global, row: &mut Rows, mut highlighter: PatternHighlighter) {
    row.value(&highlighter);
    match highlighter.highlight_line(alloc, "a /*b") {
        Ok(pieces) => {
            row.value(&pieces);
            row.value(&highlighter);
        }
        Err(AllocError) => row.part(REFUSED, &highlighter),
    }
}
