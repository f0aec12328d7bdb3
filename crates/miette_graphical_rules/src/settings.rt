//! The settings of graphical reports.

ghost use Rattle.std.specs.Prelude.{◌≡◌, chars, option_map};
ghost use Rattle.miette_graphical_rules.specs.rules.GraphicalSettings.{default_settings, icon, severity_style};
ghost use Rattle.miette_graphical_rules.specs.views.GraphicalSettings.{handler_settings};
ghost use Rattle.miette_style.specs.rules.Themes.{theme_of};

use miette_protocol::protocol::Severity;
use miette_snippet_rules::options::LayoutOptions;
use miette_style::style::Style;
use miette_style::theme::GraphicalTheme;
use miette_text::options::{WordSeparator, WordSplitter};

/// How a URL is shown.
#[derive(Clone, Copy, Debug, PartialEq, Eq)]
pub enum UrlMode {
    /// As a link around the code.
    Links,
    /// As text after the code.
    Text,
    /// Not at all.
    Hidden,
}

/// How texts are wrapped.
#[derive(Clone, Copy, Debug, PartialEq, Eq)]
pub struct Wrapping {
    /// Whether text is wrapped to the width.
    pub wrap_lines: bool,
    /// Whether a word longer than a row is broken.
    pub break_words: bool,
    /// How words are separated.
    pub word_separator: WordSeparator,
    /// Where words may be split.
    pub word_splitter: WordSplitter,
}

impl Default for Wrapping {
    ghost use Rattle.std.specs.Prelude.{◌≡◌};
    ghost use Rattle.miette_graphical_rules.specs.rules.GraphicalSettings.{default_wrapping};

    ghost is_default = { λ it. it ≡ default_wrapping };

    fn default() -> Self {
        Wrapping {
            wrap_lines: true,
            break_words: true,
            word_separator: WordSeparator::AsciiSpace,
            word_splitter: WordSplitter::HyphenSplitter,
        }
    }
}

/// The settings of a graphical handler.
#[derive(Drop)]
pub struct GraphicalSettings {
    /// The characters and styles.
    pub theme: GraphicalTheme,
    /// The layout of snippets.
    pub layout: LayoutOptions,
    /// How texts are wrapped.
    pub wrapping: Wrapping,
    /// The width of wrapped text in columns.
    pub width: usize,
    /// How URLs are shown.
    pub urls: UrlMode,
    /// The text of a link; `(link)` if `None`.
    pub link_display_text: Option<String>,
    /// Whether causes are shown.
    pub cause_chain: bool,
    /// Whether related reports are nested under arrows, as causes are, or follow one another.
    pub related_as_nested: bool,
    /// The text below the outermost report.
    pub footer: Option<String>,
}

impl GraphicalSettings {
    /// The default settings with this theme: links, 200 columns, the default layout and wrapping, causes shown, related
    /// reports one after another.
    pub fn new(theme: GraphicalTheme) -> Self
        ensures { handler_settings result ≡ default_settings (theme_of theme) }
    {
        GraphicalSettings {
            theme,
            layout: LayoutOptions::default(),
            wrapping: Wrapping::default(),
            width: 200,
            urls: UrlMode::Links,
            link_display_text: None,
            cause_chain: true,
            related_as_nested: false,
            footer: None,
        }
    }

    /// The text of a link.
    pub fn link_text(&self) -> &str
        ensures { chars result.now ≡ (handler_settings self.now).link_text }
    {
        match &self.link_display_text {
            Some(text) => text.as_str(),
            None => "(link)",
        }
    }

    /// The text below the outermost report.
    pub fn footer(&self) -> Option<&str>
        ensures { option_map (λ t. chars t.now) result ≡ (handler_settings self.now).footer }
    {
        match &self.footer {
            Some(text) => Some(text.as_str()),
            None => None,
        }
    }
}

/// Returns the style of a severity; `None` counts as an error.
pub fn severity_style(settings: &GraphicalSettings, severity: Option<Severity>) -> Style
    ensures { result ≡ severity_style (handler_settings settings.now) severity }
{
    let styles = &settings.theme.styles;
    match severity {
        Some(Severity::Advice) => styles.advice,
        Some(Severity::Warning) => styles.warning,
        _ => styles.error,
    }
}

/// Returns the icon of a severity; `None` counts as an error.
pub fn icon<'a>(settings: &'a GraphicalSettings, severity: Option<Severity>) -> &'a str
    ensures { chars result.now ≡ icon (handler_settings settings.now) severity }
{
    let characters = &settings.theme.characters;
    match severity {
        Some(Severity::Advice) => characters.advice.as_str(),
        Some(Severity::Warning) => characters.warning.as_str(),
        _ => characters.error.as_str(),
    }
}
