//! Colours and styles.

ghost use Rattle.std.specs.Prelude.{◌≡◌, Some, true};
ghost use Rattle.miette_style.specs.rules.Codes.{style_codes};
ghost use Rattle.miette_lines.specs.rules.Lists.{is_nil};

/// A foreground colour: one of the terminal's own, or RGB. The codes are those between `ESC [` and `m`.
#[derive(Clone, Copy, Debug, PartialEq, Eq)]
pub enum Color {
    /// The terminal's red: code 31.
    Red,
    /// The terminal's green: code 32.
    Green,
    /// The terminal's yellow: code 33.
    Yellow,
    /// The terminal's blue: code 34.
    Blue,
    /// The terminal's magenta: code 35.
    Magenta,
    /// The terminal's cyan: code 36.
    Cyan,
    /// Red, green and blue: codes `38;2;R;G;B`.
    Rgb(u8, u8, u8),
}

/// How a text is printed. By default nothing is set; such a style is plain.
#[derive(Clone, Copy, Debug, PartialEq, Eq)]
pub struct Style {
    /// The colour of the characters; `None` is the terminal's default.
    pub fg: Option<Color>,
    /// Bold: code 1.
    pub bold: bool,
    /// Dimmed: code 2.
    pub dimmed: bool,
    /// Italic: code 3.
    pub italic: bool,
    /// Underlined: code 4.
    pub underline: bool,
}

impl Style {
    ghost use Rattle.miette_style.specs.rules.Styles.{plain};

    /// Returns the plain style.
    pub fn new() -> Self
        ensures { result ≡ plain }
    {
        Style {
            fg: None,
            bold: false,
            dimmed: false,
            italic: false,
            underline: false,
        }
    }

    /// Whether nothing is set. Text in a plain style is printed without escape sequences.
    pub fn is_plain(self) -> bool
        ensures { result ≡ is_nil (style_codes self) }
    {
        self.fg.is_none() && !self.bold && !self.dimmed && !self.italic && !self.underline
    }

    /// Sets the colour.
    pub fn color(self, color: Color) -> Self
        ensures { result ≡ record self { fg = Some color } }
    {
        Style {
            fg: Some(color),
            ..self
        }
    }

    /// Makes the style bold.
    pub fn bold(self) -> Self
        ensures { result ≡ record self { bold = true } }
    {
        Style { bold: true, ..self }
    }

    /// Makes the style dimmed.
    pub fn dimmed(self) -> Self
        ensures { result ≡ record self { dimmed = true } }
    {
        Style {
            dimmed: true,
            ..self
        }
    }

    /// Makes the style italic.
    pub fn italic(self) -> Self
        ensures { result ≡ record self { italic = true } }
    {
        Style {
            italic: true,
            ..self
        }
    }

    /// Makes the style underlined.
    pub fn underline(self) -> Self
        ensures { result ≡ record self { underline = true } }
    {
        Style {
            underline: true,
            ..self
        }
    }
}
