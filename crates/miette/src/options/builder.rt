//! The options of a handler.

ghost use Rattle.std.specs.Prelude.{◌≡◌, ◌↔◌, ◌≤◌, IsTrue, None, Some, false, string_bytes, true};
ghost use Rattle.miette_style.specs.rules.Themes.{theme_of};
ghost use Rattle.miette.specs.rules.Options.{no_options};

mod choice;

use crate::handlers::BriefForm;
use miette_graphical_rules::settings::Wrapping;
use miette_highlight::highlight::Highlighter;
use miette_snippet_rules::options::{LayoutOptions, SetLayout};
use miette_style::theme::GraphicalTheme;
use miette_text::wrap::{WordSeparator, WordSplitter};
use std::marker::Model;

/// Which colors reports use, if they use any.
#[derive(Clone, Copy, Debug, PartialEq, Eq, Default)]
pub enum RgbColors {
    /// RGB colors, on every terminal.
    Always,
    /// RGB colors if the terminal has 16 million colors, else the terminal's own colors.
    Preferred,
    /// The terminal's own colours.
    #[default]
    Never,
}

/// Two values of `RgbColors` are equal exactly if they are the same, a clone is the same, and the default is `Never`.
pub fn rgb_colors_law()
    ensures equal { (a b : RgbColors) → IsTrue (⟦<RgbColors as PartialEq>⟧.eq a b) ↔ (a ≡ b) }
    ensures cloned { (a b : RgbColors) → ⟦<RgbColors as Clone>⟧.is_clone a b → b ≡ a }
    ensures default { (it : RgbColors) → ⟦<RgbColors as Default>⟧.is_default it → it ≡ RgbColors.Never }
{}

/// Options of a handler. If an option is set twice, the last value counts. If an option that depends on the terminal
/// isn't set, the terminal decides. Other options default to the handler's defaults.
///
/// Users write `MietteHandlerOpts`; the parameter is the type of the highlighter that is used. All calls but `build`
/// take no memory. `SetLayout` has further setters.
#[derive(Drop)]
pub struct MietteHandlerOpts<H = Box<dyn Highlighter>> {
    force_brief: bool,
    brief_form: BriefForm,
    force_narrated: Option<bool>,
    force_graphical: Option<bool>,
    theme: Option<GraphicalTheme>,
    unicode: Option<bool>,
    color: Option<bool>,
    rgb_colors: RgbColors,
    layout: LayoutOptions,
    fit_lines: bool,
    wrapping: Wrapping,
    width: Option<usize>,
    links: Option<bool>,
    cause_chain: bool,
    related_as_nested: bool,
    footer: Option<String>,
    highlighter: Option<H>,
}

impl<H> Model for MietteHandlerOpts<H> {
    ghost use Rattle.std.specs.Prelude.{◌≤◌, option_map, string_bytes};
    ghost use Rattle.miette_style.specs.rules.Themes.{theme_of};
    ghost use Rattle.miette.specs.rules.Options.{Options};

    ghost Value = { Options H };

    ghost view = { λ it. record {
      brief = it.force_brief;
      brief_form = it.brief_form;
      narrated = it.force_narrated;
      graphical = it.force_graphical;
      theme = option_map theme_of it.theme;
      unicode = it.unicode;
      color = it.color;
      rgb = it.rgb_colors;
      layout = it.layout;
      fit_lines = it.fit_lines;
      wrapping = it.wrapping;
      width = it.width;
      links = it.links;
      cause_chain = it.cause_chain;
      related_as_nested = it.related_as_nested;
      footer = option_map string_bytes it.footer;
      highlighter = it.highlighter;
    } };

    ghost invariant = { λ it. 1 ≤ it.layout.tab_width };
}

impl<H> Default for MietteHandlerOpts<H> {
    ghost use Rattle.std.specs.Prelude.{◌≡◌};
    ghost use Rattle.miette.specs.rules.Options.{no_options};

    ghost is_default = { λ it. it ≡ no_options };

    fn default() -> Self {
        MietteHandlerOpts {
            force_brief: false,
            brief_form: BriefForm::Gcc,
            force_narrated: None,
            force_graphical: None,
            theme: None,
            unicode: None,
            color: None,
            rgb_colors: RgbColors::Never,
            layout: LayoutOptions::default(),
            fit_lines: false,
            wrapping: Wrapping::default(),
            width: None,
            links: None,
            cause_chain: true,
            related_as_nested: false,
            footer: None,
            highlighter: None,
        }
    }
}

impl MietteHandlerOpts {
    /// Default options.
    pub fn new() -> Self
        ensures { result ≡ no_options }
    {
        Self::default()
    }
}

impl<H: Highlighter> MietteHandlerOpts<H> {
    /// Whether a url becomes a link on the code. If false, the url is printed after the code. By default the terminal
    /// decides.
    pub fn terminal_links(mut self, links: bool) -> Self
        ensures { result ≡ record self { links = Some links } }
    {
        self.links = Some(links);
        self
    }

    /// Sets the theme of graphical reports, regardless of the options for colors and Unicode.
    pub fn graphical_theme(mut self, theme: GraphicalTheme) -> Self
        ensures { result ≡ record self { theme = Some (theme_of theme) } }
    {
        self.theme = Some(theme);
        self
    }

    /// Highlights source lines in graphical reports, if they have colors.
    pub fn with_syntax_highlighting(mut self, highlighter: H) -> Self
        ensures { result ≡ record self { highlighter = Some highlighter } }
    {
        self.highlighter = Some(highlighter);
        self
    }

    /// Turns highlighting of source lines off.
    pub fn without_syntax_highlighting(mut self) -> Self
        ensures { result ≡ record self { highlighter = None } }
    {
        self.highlighter = None;
        self
    }

    /// Sets the width of wrapped text in columns. The default is the terminal's width, or 80. A width of 0 puts each
    /// character on its own line.
    pub fn width(mut self, width: usize) -> Self
        ensures { result ≡ record self { width = Some width } }
    {
        self.width = Some(width);
        self
    }

    /// Whether lines are wrapped at the width.
    pub fn wrap_lines(mut self, wrap_lines: bool) -> Self
        ensures { result ≡ record self { wrapping = record self.wrapping { wrap_lines = wrap_lines } } }
    {
        self.wrapping.wrap_lines = wrap_lines;
        self
    }

    /// Whether a word that is wider than its line is broken.
    pub fn break_words(mut self, break_words: bool) -> Self
        ensures { result ≡ record self { wrapping = record self.wrapping { break_words = break_words } } }
    {
        self.wrapping.break_words = break_words;
        self
    }

    /// Sets how words are separated: at spaces (the default), or at Unicode line breaks.
    pub fn word_separator(mut self, word_separator: WordSeparator) -> Self
        ensures { result ≡ record self { wrapping = record self.wrapping { word_separator = word_separator } } }
    {
        self.wrapping.word_separator = word_separator;
        self
    }

    /// Sets where words may be broken.
    pub fn word_splitter(mut self, word_splitter: WordSplitter) -> Self
        ensures { result ≡ record self { wrapping = record self.wrapping { word_splitter = word_splitter } } }
    {
        self.wrapping.word_splitter = word_splitter;
        self
    }

    /// Prints the causes of the report, in every handler.
    pub fn with_cause_chain(mut self) -> Self
        ensures { result ≡ record self { cause_chain = true } }
    {
        self.cause_chain = true;
        self
    }

    /// Leaves out the causes of the report, in every handler.
    pub fn without_cause_chain(mut self) -> Self
        ensures { result ≡ record self { cause_chain = false } }
    {
        self.cause_chain = false;
        self
    }

    /// Prints related reports one after another.
    pub fn show_related_errors_as_siblings(mut self) -> Self
        ensures { result ≡ record self { related_as_nested = false } }
    {
        self.related_as_nested = false;
        self
    }

    /// Prints related reports below arrows, like causes.
    pub fn show_related_errors_as_nested(mut self) -> Self
        ensures { result ≡ record self { related_as_nested = true } }
    {
        self.related_as_nested = true;
        self
    }

    /// Whether graphical reports have colors. By default the terminal decides.
    pub fn color(mut self, color: bool) -> Self
        ensures { result ≡ record self { color = Some color } }
    {
        self.color = Some(color);
        self
    }

    /// Sets which colors graphical reports use, if they use any.
    pub fn rgb_colors(mut self, colors: RgbColors) -> Self
        ensures { result ≡ record self { rgb = colors } }
    {
        self.rgb_colors = colors;
        self
    }

    /// Whether graphical reports use Unicode characters. If false, they use ASCII only. By default the terminal
    /// decides.
    pub fn unicode(mut self, unicode: bool) -> Self
        ensures { result ≡ record self { unicode = Some unicode } }
    {
        self.unicode = Some(unicode);
        self
    }

    /// Whether reports are graphical or narrated, regardless of the user's `NO_GRAPHICS`.
    pub fn force_graphical(mut self, force: bool) -> Self
        ensures { result ≡ record self { graphical = Some force } }
    {
        self.force_graphical = Some(force);
        self
    }

    /// Sets the format of brief reports. The default is that of GCC.
    pub fn brief_form(mut self, form: BriefForm) -> Self
        ensures { result ≡ record self { brief_form = form } }
    {
        self.brief_form = form;
        self
    }

    /// Whether reports are brief: one line for each part. If true, it takes precedence over the options for graphical
    /// and narrated reports. If false, it has no effect.
    pub fn force_brief(mut self, force: bool) -> Self
        ensures { result ≡ record self { brief = force } }
    {
        self.force_brief = force;
        self
    }

    /// Whether reports are narrated or graphical. It takes precedence over all other options except `force_brief`.
    /// False asks for graphical reports even if the user's `NO_GRAPHICS` refuses them.
    pub fn force_narrated(mut self, force: bool) -> Self
        ensures { result ≡ record self { narrated = Some force } }
    {
        self.force_narrated = Some(force);
        self
    }

    /// Sets a text that is printed below each outermost report, in graphical and narrated reports.
    pub fn footer(mut self, footer: String) -> Self
        ensures { result ≡ record self { footer = Some (string_bytes footer) } }
    {
        self.footer = Some(footer);
        self
    }

    /// Sets the number of context lines around labels that have no number of their own, in graphical and narrated
    /// reports.
    pub fn context_lines(mut self, lines: usize) -> Self
        ensures { result ≡ record self { layout = record self.layout { context_lines = lines } } }
    {
        self.layout.context_lines = lines;
        self
    }

    /// Tabs go on to the next multiple of `width` columns. At least 1 is the caller's condition.
    pub fn tab_width(mut self, width: usize) -> Self
        requires { 1 ≤ width }
        ensures { result ≡ record self { layout = record self.layout { tab_width = width } } }
    {
        self.layout.tab_width = width;
        self
    }

    /// Sets whether source lines are cut at the width. Without `line_columns`, graphical reports cut a line whose text
    /// has more columns than the width.
    pub fn fit_lines(mut self, fit: bool) -> Self
        ensures { result ≡ record self { fit_lines = fit } }
    {
        self.fit_lines = fit;
        self
    }
}

impl<H: Highlighter> SetLayout for MietteHandlerOpts<H> {
    ghost layout_of = { λ it. it.layout };

    ghost laid_out = { λ it layout. record it { layout = layout } };

    fn layout(&self) -> LayoutOptions {
        self.layout
    }

    fn with_layout(mut self, layout: LayoutOptions) -> Self {
        self.layout = layout;
        self
    }
}
