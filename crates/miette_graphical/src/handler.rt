//! The graphical handler and its setters.

ghost use Rattle.std.specs.Prelude.{◌≡◌, ◌≤◌, Some, IfOk, false, true, chars, string_bytes};
ghost use Rattle.miette_graphical_rules.specs.views.HandlerState.{laid_out, without_highlighter, wrapped_by};
ghost use Rattle.miette_graphical_rules.specs.views.GraphicalSettings.{handler_settings};
ghost use Rattle.miette_graphical_rules.specs.rules.GraphicalSettings.{default_settings, links_shown, urls_shown};
ghost use Rattle.miette_style.specs.rules.Themes.{terminal_theme, theme_of};

mod rendering;

use miette_graphical_rules::settings::{GraphicalSettings, UrlMode};
use miette_highlight::highlight::Highlighter;
use miette_snippet_rules::options::LayoutOptions;
pub use miette_snippet_rules::options::SetLayout;
use miette_style::theme::{GraphicalTheme, Terminal};
use miette_text::options::{WordSeparator, WordSplitter};
use std::alloc::{AllocError, Global};
use std::marker::Model;

/// Prints graphical reports: messages with icons, causes under arrows, and source lines in frames with labels under
/// them.
///
/// Users write `GraphicalReportHandler`; the parameter is the type of the highlighter that is used. All calls but
/// `new`, `render_report`, `debug` and `display` take no memory. `SetLayout` has further setters.
#[derive(Drop)]
pub struct GraphicalReportHandler<H = Box<dyn Highlighter>> {
    settings: GraphicalSettings,
    highlighter: Option<H>,
}

impl<H> Model for GraphicalReportHandler<H> {
    ghost use Rattle.std.specs.Prelude.{◌≤◌};
    ghost use Rattle.miette_graphical_rules.specs.views.HandlerState.{HandlerState};
    ghost use Rattle.miette_graphical_rules.specs.views.GraphicalSettings.{handler_settings};

    ghost Value = { HandlerState H };

    ghost view = { λ it. record { settings = handler_settings it.settings; highlighter = it.highlighter } };

    ghost invariant = { λ it. 1 ≤ it.settings.layout.tab_width };
}

impl GraphicalReportHandler {
    /// A handler with the theme that fits a terminal, otherwise as made by `new_themed`.
    ///
    /// # Errors
    /// `AllocError` if allocation fails.
    pub fn new(alloc: Global, terminal: &Terminal) -> Result<Self, AllocError>
        ensures settings { IfOk result (λ it.
            it ≡ without_highlighter (default_settings (terminal_theme terminal.now))) }
    {
        Ok(Self::new_themed(GraphicalTheme::for_terminal(alloc, terminal)?))
    }

    /// A handler with this theme and the default settings: links, 200 columns, one line of context, tabs of four
    /// columns, causes shown, text wrapped, long words broken. Frames show where the primary label begins. Labels at
    /// the end of a source aren't drawn, and related reports follow one another.
    pub fn new_themed(theme: GraphicalTheme) -> Self
        ensures { result
            ≡ without_highlighter (default_settings (theme_of theme)) }
    {
        Self::themed(theme)
    }
}

impl<H: Highlighter> GraphicalReportHandler<H> {
    /// As `new_themed`, for highlighters of any type.
    pub fn themed(theme: GraphicalTheme) -> Self
        ensures { result
            ≡ without_highlighter (default_settings (theme_of theme)) }
    {
        GraphicalReportHandler {
            settings: GraphicalSettings::new(theme),
            highlighter: None,
        }
    }

    /// A handler with these settings and this highlighter. The caller must choose a tab width of at least 1.
    pub fn with_settings(settings: GraphicalSettings, highlighter: Option<H>) -> Self
        requires { 1 ≤ settings.layout.tab_width }
        ensures { result ≡ record { settings = handler_settings settings; highlighter = highlighter } }
    {
        GraphicalReportHandler {
            settings,
            highlighter,
        }
    }

    /// Sets the tab width in columns, which must be at least 1.
    pub fn tab_width(mut self, width: usize) -> Self
        requires { 1 ≤ width }
        ensures { result ≡ laid_out self (record self.settings.layout { tab_width = width }) }
    {
        self.settings.layout.tab_width = width;
        self
    }

    /// Sets whether a URL is a link around the code or text after it.
    pub fn with_links(mut self, links: bool) -> Self
        ensures { result ≡ record self { settings = record self.settings { urls = links_shown links } } }
    {
        self.settings.urls = if links { UrlMode::Links } else { UrlMode::Text };
        self
    }

    /// Sets whether URLs are shown. If they were hidden, they become links.
    pub fn with_urls(mut self, urls: bool) -> Self
        ensures { result ≡ record self {
          settings = record self.settings { urls = urls_shown urls self.settings.urls };
        } }
    {
        self.settings.urls = match (urls, self.settings.urls) {
            (false, _) => UrlMode::Hidden,
            (true, UrlMode::Hidden) => UrlMode::Links,
            (true, shown) => shown,
        };
        self
    }

    /// Shows the causes of the report.
    pub fn with_cause_chain(mut self) -> Self
        ensures { result ≡ record self { settings = record self.settings { cause_chain = true } } }
    {
        self.settings.cause_chain = true;
        self
    }

    /// Hides the causes of the report.
    pub fn without_cause_chain(mut self) -> Self
        ensures { result ≡ record self { settings = record self.settings { cause_chain = false } } }
    {
        self.settings.cause_chain = false;
        self
    }

    /// Shows in a frame where its primary label begins.
    pub fn with_primary_span_start(mut self) -> Self
        ensures { result ≡ laid_out self (record self.settings.layout { primary_start = true }) }
    {
        self.settings.layout.primary_start = true;
        self
    }

    /// Doesn't show in a frame where its primary label begins.
    pub fn without_primary_span_start(mut self) -> Self
        ensures { result ≡ laid_out self (record self.settings.layout { primary_start = false }) }
    {
        self.settings.layout.primary_start = false;
        self
    }

    /// Draws with this theme.
    pub fn with_theme(mut self, theme: GraphicalTheme) -> Self
        ensures { result ≡ record self { settings = record self.settings { theme = theme_of theme } } }
    {
        self.settings.theme = theme;
        self
    }

    /// Sets the width of wrapped text in columns.
    pub fn with_width(mut self, width: usize) -> Self
        ensures { result ≡ record self { settings = record self.settings { width = width } } }
    {
        self.settings.width = width;
        self
    }

    /// Sets whether text is wrapped to the width.
    pub fn with_wrap_lines(mut self, wrap_lines: bool) -> Self
        ensures { result ≡ wrapped_by self (record self.settings.wrapping { wrap_lines = wrap_lines }) }
    {
        self.settings.wrapping.wrap_lines = wrap_lines;
        self
    }

    /// Sets whether a word longer than a row is broken.
    pub fn with_break_words(mut self, break_words: bool) -> Self
        ensures { result ≡ wrapped_by self (record self.settings.wrapping { break_words = break_words }) }
    {
        self.settings.wrapping.break_words = break_words;
        self
    }

    /// Sets how words are separated: by spaces, the default, or by Unicode line breaks.
    pub fn with_word_separator(mut self, word_separator: WordSeparator) -> Self
        ensures { result ≡ wrapped_by self (record self.settings.wrapping { word_separator = word_separator }) }
    {
        self.settings.wrapping.word_separator = word_separator;
        self
    }

    /// Sets where words may be split.
    pub fn with_word_splitter(mut self, word_splitter: WordSplitter) -> Self
        ensures { result ≡ wrapped_by self (record self.settings.wrapping { word_splitter = word_splitter }) }
    {
        self.settings.wrapping.word_splitter = word_splitter;
        self
    }

    /// Sets the text below each outermost report.
    pub fn with_footer(mut self, footer: String) -> Self
        ensures { result ≡ record self {
          settings = record self.settings { footer = Some (chars (string_bytes footer)) };
        } }
    {
        self.settings.footer = Some(footer);
        self
    }

    /// Sets the number of context lines around a label that doesn't set its own.
    pub fn with_context_lines(mut self, lines: usize) -> Self
        ensures { result ≡ laid_out self (record self.settings.layout { context_lines = lines }) }
    {
        self.settings.layout.context_lines = lines;
        self
    }

    /// Whether related reports stand under arrows, as causes do, or one after another.
    pub fn with_show_related_as_nested(mut self, nested: bool) -> Self
        ensures { result ≡ record self { settings = record self.settings { related_as_nested = nested } } }
    {
        self.settings.related_as_nested = nested;
        self
    }

    /// Sets the text of a link, by default `(link)`.
    pub fn with_link_display_text(mut self, text: String) -> Self
        ensures { result ≡ record self { settings = record self.settings { link_text = chars (string_bytes text) } } }
    {
        self.settings.link_display_text = Some(text);
        self
    }

    /// Highlights source lines with this highlighter.
    pub fn with_syntax_highlighting(mut self, highlighter: H) -> Self
        ensures { result ≡ record self { highlighter = Some highlighter } }
    {
        self.highlighter = Some(highlighter);
        self
    }

    /// Doesn't highlight source lines.
    pub fn without_syntax_highlighting(mut self) -> Self
        ensures { result ≡ record self { highlighter = None } }
    {
        self.highlighter = None;
        self
    }
}

impl<H: Highlighter> SetLayout for GraphicalReportHandler<H> {
    ghost use Rattle.miette_graphical_rules.specs.views.HandlerState.{laid_out};

    ghost layout_of = { λ it. it.settings.layout };

    ghost laid_out = { laid_out };

    fn layout(&self) -> LayoutOptions {
        self.settings.layout
    }

    fn with_layout(mut self, layout: LayoutOptions) -> Self {
        self.settings.layout = layout;
        self
    }
}
