//! The characters and styles of graphical reports.

use crate::style::{Color, Style};
use crate::styles::{ANSI_HIGHLIGHTS, CYAN, DIMMED, NO_HIGHLIGHTS, PLAIN, RGB_HIGHLIGHTS};
use std::alloc::{AllocError, Global};

/// The characters of a graphical report, and the icon of each severity.
#[derive(Debug, PartialEq, Eq, Drop)]
pub struct ThemeCharacters {
    /// The line of frames and arrows, and from a corner to a label text.
    pub hbar: char,
    /// The bar after a line number, beside a multi-line label, down to label texts, and below icons and arrows.
    pub vbar: char,
    /// Not used.
    pub xbar: char,
    /// Replaces `vbar` in the gutter of rows that have no line number.
    pub vbar_break: char,
    /// The pointer of an empty label.
    pub uarrow: char,
    /// The head of arrows.
    pub rarrow: char,
    /// The upper corner of a frame, and the start of a multi-line label.
    pub ltop: char,
    /// Not used.
    pub mtop: char,
    /// Not used.
    pub rtop: char,
    /// The lower corner of a frame, the end of a multi-line label, and the corner before a label text. Also the corner
    /// of the arrow to the last cause or related report.
    pub lbot: char,
    /// Not used.
    pub rbot: char,
    /// Not used.
    pub mbot: char,
    /// Not used.
    pub lbox: char,
    /// Not used.
    pub rbox: char,
    /// The corner of the other arrows, and of the last line of a multi-line label whose text is below.
    pub lcross: char,
    /// Precedes the first line of a label text with several lines.
    pub rcross: char,
    /// The pointer of a label that has a text and isn't empty.
    pub underbar: char,
    /// The underline of all other columns of a label.
    pub underline: char,
    /// The icon of an error, also used without a severity.
    pub error: String,
    /// The icon of a warning.
    pub warning: String,
    /// The icon of an advice.
    pub advice: String,
}

impl ThemeCharacters {
    ghost use Rattle.std.specs.Prelude.{◌≡◌, IfOk};
    ghost use Rattle.miette_style.specs.rules.Themes.{ascii_characters, characters_of, emoji_characters};
    ghost use Rattle.miette_style.specs.rules.Themes.{unicode_characters};

    /// Unicode lines and arrows.
    ///
    /// # Errors
    /// `AllocError` if allocation fails.
    #[tactic(auto, using(crate::proofs::Icons::icons))]
    pub fn unicode(alloc: Global) -> Result<Self, AllocError>
        ensures { IfOk result (λ it. characters_of it ≡ unicode_characters) }
    {
        Ok(ThemeCharacters {
            hbar: '─',
            vbar: '│',
            xbar: '┼',
            vbar_break: '·',
            uarrow: '▲',
            rarrow: '▶',
            ltop: '╭',
            mtop: '┬',
            rtop: '╮',
            lbot: '╰',
            rbot: '╯',
            mbot: '┴',
            lbox: '[',
            rbox: ']',
            lcross: '├',
            rcross: '┤',
            underbar: '┬',
            underline: '─',
            error: String::from_str(alloc, "×")?,
            warning: String::from_str(alloc, "⚠")?,
            advice: String::from_str(alloc, "☞")?,
        })
    }

    /// Like `unicode`, with emoji as icons.
    ///
    /// # Errors
    /// `AllocError` if allocation fails.
    #[tactic(auto, using(crate::proofs::Icons::icons))]
    pub fn emoji(alloc: Global) -> Result<Self, AllocError>
        ensures { IfOk result (λ it. characters_of it ≡ emoji_characters) }
    {
        Ok(ThemeCharacters {
            error: String::from_str(alloc, "💥")?,
            warning: String::from_str(alloc, "⚠\u{fe0f}")?,
            advice: String::from_str(alloc, "💡")?,
            ..ThemeCharacters::unicode(alloc)?
        })
    }

    /// ASCII characters.
    ///
    /// # Errors
    /// `AllocError` if allocation fails.
    #[tactic(auto, using(crate::proofs::Icons::icons))]
    pub fn ascii(alloc: Global) -> Result<Self, AllocError>
        ensures { IfOk result (λ it. characters_of it ≡ ascii_characters) }
    {
        Ok(ThemeCharacters {
            hbar: '-',
            vbar: '|',
            xbar: '+',
            vbar_break: ':',
            uarrow: '^',
            rarrow: '>',
            ltop: ',',
            mtop: 'v',
            rtop: '.',
            lbot: '`',
            rbot: '\'',
            mbot: '^',
            lbox: '[',
            rbox: ']',
            lcross: '|',
            rcross: '|',
            underbar: '|',
            underline: '^',
            error: String::from_str(alloc, "x")?,
            warning: String::from_str(alloc, "!")?,
            advice: String::from_str(alloc, ">")?,
        })
    }
}

// Written by hand, so that one contract states what a clone keeps.
impl Clone for ThemeCharacters {
    ghost use Rattle.std.specs.Prelude.{◌≡◌};
    ghost use Rattle.miette_style.specs.rules.Themes.{characters_of};

    ghost is_clone = { λ it made. characters_of made ≡ characters_of it };

    fn clone(&self) -> Result<Self, AllocError> {
        Ok(ThemeCharacters {
            error: self.error.clone()?,
            warning: self.warning.clone()?,
            advice: self.advice.clone()?,
            ..*self
        })
    }
}

/// The styles of a graphical report. Labels, sorted by offset, take the styles of `highlights` in turn.
#[derive(Debug, Drop)]
pub struct ThemeStyles {
    /// The code, icon, bars and arrows of an error, also used without a severity; and the first words of the row of a
    /// label that could not be read.
    pub error: Style,
    /// The same for a warning; and the name of the reason in that row.
    pub warning: Style,
    /// The same for an advice.
    pub advice: Style,
    /// The text before a help text: `  help: `.
    pub help: Style,
    /// The text of a link, a printed URL, the name and position in a frame; and the text, offset and length in the row
    /// of a label that could not be read.
    pub link: Style,
    /// A line number with its padding.
    pub linum: Style,
    /// The gutters, underlines and texts of labels. If the list is empty, they are plain.
    pub highlights: Vec<Style>,
}

impl ThemeStyles {
    ghost use Rattle.std.specs.Prelude.{◌≡◌, IfOk};
    ghost use Rattle.miette_style.specs.rules.Themes.{ansi_styles, no_styles, rgb_styles, styles_of};

    /// RGB colours, for terminals with 16 million colours.
    ///
    /// # Errors
    /// `AllocError` if allocation fails.
    pub fn rgb(alloc: Global) -> Result<Self, AllocError>
        ensures { IfOk result (λ it. styles_of it ≡ rgb_styles) }
    {
        Ok(ThemeStyles {
            error: Style {
                fg: Some(Color::Rgb(255, 30, 30)),
                ..PLAIN
            },
            warning: Style {
                fg: Some(Color::Rgb(244, 191, 117)),
                ..PLAIN
            },
            advice: Style {
                fg: Some(Color::Rgb(106, 159, 181)),
                ..PLAIN
            },
            help: Style {
                fg: Some(Color::Rgb(106, 159, 181)),
                ..PLAIN
            },
            link: Style {
                fg: Some(Color::Rgb(92, 157, 255)),
                bold: true,
                underline: true,
                ..PLAIN
            },
            linum: DIMMED,
            highlights: Vec::from_slice(alloc, &RGB_HIGHLIGHTS)?,
        })
    }

    /// The terminal's own colours.
    ///
    /// # Errors
    /// `AllocError` if allocation fails.
    pub fn ansi(alloc: Global) -> Result<Self, AllocError>
        ensures { IfOk result (λ it. styles_of it ≡ ansi_styles) }
    {
        Ok(ThemeStyles {
            error: Style {
                fg: Some(Color::Red),
                ..PLAIN
            },
            warning: Style {
                fg: Some(Color::Yellow),
                ..PLAIN
            },
            advice: CYAN,
            help: CYAN,
            link: Style {
                bold: true,
                underline: true,
                ..CYAN
            },
            linum: DIMMED,
            highlights: Vec::from_slice(alloc, &ANSI_HIGHLIGHTS)?,
        })
    }

    /// Plain styles.
    ///
    /// # Errors
    /// `AllocError` if allocation fails.
    pub fn none(alloc: Global) -> Result<Self, AllocError>
        ensures { IfOk result (λ it. styles_of it ≡ no_styles) }
    {
        Ok(ThemeStyles {
            error: PLAIN,
            warning: PLAIN,
            advice: PLAIN,
            help: PLAIN,
            link: PLAIN,
            linum: PLAIN,
            highlights: Vec::from_slice(alloc, &NO_HIGHLIGHTS)?,
        })
    }
}

impl Clone for ThemeStyles {
    ghost use Rattle.std.specs.Prelude.{◌≡◌};
    ghost use Rattle.miette_style.specs.rules.Themes.{styles_of};

    ghost is_clone = { λ it made. styles_of made ≡ styles_of it };

    fn clone(&self) -> Result<Self, AllocError> {
        Ok(ThemeStyles {
            highlights: self.highlights.clone()?,
            ..*self
        })
    }
}

/// What is known about the terminal, and what the user asks for.
#[derive(Debug, Drop)]
pub struct Terminal {
    /// The width in columns, if known.
    pub width: Option<usize>,
    /// Whether the terminal has 16 million colours; `None` if it has no colours.
    pub color: Option<bool>,
    /// Whether the terminal draws Unicode characters.
    pub unicode: bool,
    /// Whether the terminal shows links.
    pub hyperlinks: bool,
    /// Whether standard output is a terminal.
    pub stdout_terminal: bool,
    /// Whether standard error is a terminal.
    pub stderr_terminal: bool,
    /// The value of `NO_GRAPHICS`, if set; `0` asks for graphics.
    pub no_graphics: Option<String>,
    /// The value of `NO_COLOR`, if set; any value except `0` turns colours off.
    pub no_color: Option<String>,
}

/// The look of a graphical report: its characters and styles.
#[derive(Debug, Drop)]
pub struct GraphicalTheme {
    /// The characters of lines, arrows and underlines, and the icons.
    pub characters: ThemeCharacters,
    /// The styles of the parts of a report and of its labels.
    pub styles: ThemeStyles,
}

impl GraphicalTheme {
    ghost use Rattle.std.specs.Prelude.{◌≡◌, IfOk};
    ghost use Rattle.miette_style.specs.rules.Themes.{ansi_styles, ascii_characters, no_styles, terminal_theme};
    ghost use Rattle.miette_style.specs.rules.Themes.{theme_of, unicode_characters};

    fn new(characters: ThemeCharacters, styles: ThemeStyles) -> Self
        ensures { result ≡ record { characters = characters; styles = styles } }
    {
        GraphicalTheme { characters, styles }
    }

    /// ASCII characters in the terminal's own colours.
    ///
    /// # Errors
    /// `AllocError` if allocation fails.
    pub fn ascii(alloc: Global) -> Result<Self, AllocError>
        ensures { IfOk result (λ it. theme_of it ≡ record { characters = ascii_characters; styles = ansi_styles }) }
    {
        Ok(Self::new(ThemeCharacters::ascii(alloc)?, ThemeStyles::ansi(alloc)?))
    }

    /// Unicode characters in the terminal's own colours.
    ///
    /// # Errors
    /// `AllocError` if allocation fails.
    pub fn unicode(alloc: Global) -> Result<Self, AllocError>
        ensures { IfOk result (λ it. theme_of it ≡ record { characters = unicode_characters; styles = ansi_styles }) }
    {
        Ok(Self::new(ThemeCharacters::unicode(alloc)?, ThemeStyles::ansi(alloc)?))
    }

    /// Unicode characters without colours.
    ///
    /// # Errors
    /// `AllocError` if allocation fails.
    pub fn unicode_nocolor(alloc: Global) -> Result<Self, AllocError>
        ensures { IfOk result (λ it. theme_of it ≡ record { characters = unicode_characters; styles = no_styles }) }
    {
        Ok(Self::new(ThemeCharacters::unicode(alloc)?, ThemeStyles::none(alloc)?))
    }

    /// ASCII characters without colours.
    ///
    /// # Errors
    /// `AllocError` if allocation fails.
    pub fn none(alloc: Global) -> Result<Self, AllocError>
        ensures { IfOk result (λ it. theme_of it ≡ record { characters = ascii_characters; styles = no_styles }) }
    {
        Ok(Self::new(ThemeCharacters::ascii(alloc)?, ThemeStyles::none(alloc)?))
    }

    /// Returns the theme for a terminal: `none` if standard output or standard error isn't a terminal, else
    /// `unicode_nocolor` if the user turned colours off, else `unicode`.
    ///
    /// # Errors
    /// `AllocError` if allocation fails.
    pub fn for_terminal(alloc: Global, terminal: &Terminal) -> Result<Self, AllocError>
        ensures { IfOk result (λ it. theme_of it ≡ terminal_theme terminal.now) }
    {
        if !terminal.stdout_terminal || !terminal.stderr_terminal {
            return Self::none(alloc);
        }
        match &terminal.no_color {
            Some(text) if text.as_str() != "0" => Self::unicode_nocolor(alloc),
            _ => Self::unicode(alloc),
        }
    }
}

impl Clone for GraphicalTheme {
    ghost use Rattle.std.specs.Prelude.{◌≡◌};
    ghost use Rattle.miette_style.specs.rules.Themes.{theme_of};

    ghost is_clone = { λ it made. theme_of made ≡ theme_of it };

    fn clone(&self) -> Result<Self, AllocError> {
        Ok(GraphicalTheme {
            characters: self.characters.clone()?,
            styles: self.styles.clone()?,
        })
    }
}
