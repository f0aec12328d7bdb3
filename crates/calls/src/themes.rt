//! Calls of themes and of highlighters in boxes.

use crate::rows::{CallResult, Rows};
use miette::highlight::{BlankHighlighter, Highlighter};
use miette::theme::{GraphicalTheme, Terminal, ThemeCharacters, ThemeStyles};
use std::alloc::{AllocError, Global};

/// The calls of this module.
#[derive(Clone, Copy)]
pub enum ThemeCall {
    UnicodeCharacters,
    EmojiCharacters,
    AsciiCharacters,
    CharactersClones,
    RgbStyles,
    AnsiStyles,
    NoStyles,
    StylesClones,
    Ascii,
    Unicode,
    UnicodeWithoutColour,
    NoTheme,
    ForTerminal,
    Clones,
    BlankLine,
    BoxedLine,
}

/// Makes a call and prints its row.
///
/// # Errors
/// If allocating the call's arguments fails.
pub fn make(alloc: Global, call: ThemeCall, row: &mut Rows) -> CallResult {
    match call {
        ThemeCall::UnicodeCharacters => row.answer(ThemeCharacters::unicode(alloc)),
        ThemeCall::EmojiCharacters => row.answer(ThemeCharacters::emoji(alloc)),
        ThemeCall::AsciiCharacters => row.answer(ThemeCharacters::ascii(alloc)),
        ThemeCall::CharactersClones => return row.clones(ThemeCharacters::emoji(alloc)),
        ThemeCall::RgbStyles => row.answer(ThemeStyles::rgb(alloc)),
        ThemeCall::AnsiStyles => row.answer(ThemeStyles::ansi(alloc)),
        ThemeCall::NoStyles => row.answer(ThemeStyles::none(alloc)),
        ThemeCall::StylesClones => return row.clones(ThemeStyles::rgb(alloc)),
        ThemeCall::Ascii => row.answer(GraphicalTheme::ascii(alloc)),
        ThemeCall::Unicode => row.answer(GraphicalTheme::unicode(alloc)),
        ThemeCall::UnicodeWithoutColour => row.answer(GraphicalTheme::unicode_nocolor(alloc)),
        ThemeCall::NoTheme => row.answer(GraphicalTheme::none(alloc)),
        ThemeCall::Clones => return row.clones(GraphicalTheme::unicode(alloc)),
        ThemeCall::ForTerminal => {
            let terminal = terminal(alloc)?;
            row.value(&terminal);
            row.answer(GraphicalTheme::for_terminal(alloc, &terminal));
        }
        ThemeCall::BlankLine => {
            let mut highlighter = BlankHighlighter;
            row.answer(highlighter.highlight_line(alloc, "let x = 1;"));
        }
        ThemeCall::BoxedLine => {
            let mut highlighter: Box<dyn Highlighter> = Box::new(alloc, BlankHighlighter)?;
            row.answer(highlighter.highlight_line(alloc, "let x = 1;"));
        }
    }
    Ok(())
}

/// Returns a terminal whose user doesn't want colors.
///
/// # Errors
/// If allocation fails.
pub fn terminal(alloc: Global) -> Result<Terminal, AllocError> {
    Ok(Terminal {
        width: Some(40),
        color: Some(true),
        unicode: true,
        hyperlinks: true,
        stdout_terminal: true,
        stderr_terminal: true,
        no_graphics: None,
        no_color: Some(String::from_str(alloc, "1")?),
    })
}
