//! Builds a handler from options and a terminal.

ghost use Rattle.std.specs.Prelude.{◌≡◌, IfOk, None};
ghost use Rattle.miette_graphical_rules.specs.views.GraphicalSettings.{handler_settings};
ghost use Rattle.miette_style.specs.rules.Themes.{characters_of, styles_of, theme_of};
ghost use Rattle.miette.specs.rules.Choice.{IsChosen, IsDrawing, brief_settings, chosen_highlighter, chosen_theme};
ghost use Rattle.miette.specs.rules.Choice.{chosen_line_columns, chosen_urls, chosen_width};
ghost use Rattle.miette.specs.rules.Choice.{coloured_styles, fitting_theme, is_graphical, narration_settings};
ghost use Rattle.miette.specs.rules.Choice.{picture_settings, takes_colours};

use crate::handlers::{BriefReportHandler, GraphicalReportHandler, NarratableReportHandler};
use crate::options::builder::{MietteHandlerOpts, RgbColors};
use crate::options::handler::MietteHandler;
use miette_graphical_rules::settings::{GraphicalSettings, UrlMode};
use miette_highlight::highlight::Highlighter;
use miette_snippet_rules::options::LayoutOptions;
use miette_style::theme::{GraphicalTheme, Terminal, ThemeCharacters, ThemeStyles};
use std::alloc::{AllocError, Global};

impl<H: Highlighter> MietteHandlerOpts<H> {
    /// Builds the handler that these options and a terminal choose. Options that aren't set keep the handler's
    /// defaults.
    ///
    /// # Errors
    /// `AllocError` if allocation for the theme fails.
    pub fn build(self, alloc: Global, terminal: &Terminal) -> Result<MietteHandler<H>, AllocError>
        ensures { IfOk result (IsChosen self terminal.now) }
    {
        if self.is_graphical(terminal) {
            Ok(MietteHandler::Graphical(self.graphical_handler(alloc, terminal)?))
        } else if self.force_brief {
            Ok(MietteHandler::Brief(self.brief_handler()))
        } else {
            Ok(MietteHandler::Narrated(self.narrated_handler()))
        }
    }

    fn graphical_handler(
        mut self,
        alloc: Global,
        terminal: &Terminal,
    ) -> Result<GraphicalReportHandler<H>, AllocError>
        ensures { IfOk result (IsDrawing self terminal.now) }
    {
        let theme = self.take_theme(alloc, terminal)?;
        let highlighter = self.take_highlighter(terminal);
        let settings = self.picture_settings(theme, terminal);
        Ok(GraphicalReportHandler::with_settings(settings, highlighter))
    }

    /// The settings of graphical reports, with this theme.
    fn picture_settings(self, theme: GraphicalTheme, terminal: &Terminal) -> GraphicalSettings
        ensures settings { handler_settings result
            ≡ record (picture_settings self terminal.now) { theme = theme_of theme } }
        ensures tabs { result.layout.tab_width ≡ self.layout.tab_width }
    {
        let width = self.chosen_width(terminal);
        let urls = self.chosen_urls(terminal);
        let line_columns = self.chosen_line_columns(terminal);
        let MietteHandlerOpts {
            layout,
            wrapping,
            cause_chain,
            related_as_nested,
            footer,
            ..
        } = self;
        GraphicalSettings {
            theme,
            layout: LayoutOptions {
                line_columns,
                ..layout
            },
            wrapping,
            width,
            urls,
            link_display_text: None,
            cause_chain,
            related_as_nested,
            footer,
        }
    }

    fn is_graphical(&self, terminal: &Terminal) -> bool
        ensures { result ≡ is_graphical self.now terminal.now }
    {
        match (
            self.force_brief,
            self.force_narrated,
            self.force_graphical,
            &terminal.no_graphics,
        ) {
            (true, _, _, _) => false,
            (false, Some(narrated), _, _) => !narrated,
            (false, None, Some(graphical), _) => graphical,
            (false, None, None, Some(text)) => text.as_str() == "0",
            (false, None, None, None) => true,
        }
    }

    fn narrated_handler(self) -> NarratableReportHandler
        ensures { result ≡ narration_settings self }
    {
        let MietteHandlerOpts {
            layout,
            cause_chain,
            footer,
            ..
        } = self;
        let handler = NarratableReportHandler::new().with_context_lines(layout.context_lines);
        let handler = if cause_chain {
            handler.with_cause_chain()
        } else {
            handler.without_cause_chain()
        };
        match footer {
            Some(footer) => handler.with_footer(footer),
            None => handler,
        }
    }

    fn brief_handler(&self) -> BriefReportHandler
        ensures { result ≡ brief_settings self.now }
    {
        let telling = BriefReportHandler::new().with_form(self.brief_form);
        if self.cause_chain {
            telling.with_cause_chain()
        } else {
            telling.without_cause_chain()
        }
    }

    /// Takes the theme that was set, or creates the one that fits the terminal.
    fn take_theme(
        &mut self,
        alloc: Global,
        terminal: &Terminal,
    ) -> Result<GraphicalTheme, AllocError>
        ensures theme { IfOk result (λ it. theme_of it ≡ chosen_theme self.old terminal.now) }
        ensures rest { self.new ≡ record self.old { theme = None } }
    {
        match self.theme.take() {
            Some(theme) => Ok(theme),
            None => self.fitting_theme(alloc, terminal),
        }
    }

    fn fitting_theme(
        &self,
        alloc: Global,
        terminal: &Terminal,
    ) -> Result<GraphicalTheme, AllocError>
        ensures { IfOk result (λ it. theme_of it ≡ fitting_theme self.now terminal.now) }
    {
        let characters = self.fitting_characters(alloc, terminal)?;
        let styles = self.fitting_styles(alloc, terminal)?;
        Ok(GraphicalTheme { characters, styles })
    }

    fn fitting_characters(
        &self,
        alloc: Global,
        terminal: &Terminal,
    ) -> Result<ThemeCharacters, AllocError>
        ensures { IfOk result (λ it. characters_of it ≡ (fitting_theme self.now terminal.now).characters) }
    {
        if self.unicode.unwrap_or(terminal.unicode) {
            ThemeCharacters::unicode(alloc)
        } else {
            ThemeCharacters::ascii(alloc)
        }
    }

    fn fitting_styles(&self, alloc: Global, terminal: &Terminal) -> Result<ThemeStyles, AllocError>
        ensures { IfOk result (λ it. styles_of it ≡ (fitting_theme self.now terminal.now).styles) }
    {
        if self.takes_colours(terminal) {
            coloured_styles(alloc, self.rgb_colors, terminal.color.unwrap_or(false))
        } else {
            ThemeStyles::none(alloc)
        }
    }

    fn chosen_width(&self, terminal: &Terminal) -> usize
        ensures { result ≡ chosen_width self.now terminal.now }
    {
        match (self.width, terminal.width) {
            (Some(width), _) => width,
            (None, Some(width)) => width,
            (None, None) => 80,
        }
    }

    /// The width at which source lines are cut, if they are.
    fn chosen_line_columns(&self, terminal: &Terminal) -> Option<usize>
        ensures { result ≡ chosen_line_columns self.now terminal.now }
    {
        let set = self.layout.line_columns;
        if !self.fit_lines {
            return set;
        }
        Some(set.unwrap_or(self.chosen_width(terminal)))
    }

    fn chosen_urls(&self, terminal: &Terminal) -> UrlMode
        ensures { result ≡ chosen_urls self.now terminal.now }
    {
        if self.links.unwrap_or(terminal.hyperlinks) {
            UrlMode::Links
        } else {
            UrlMode::Text
        }
    }

    /// Takes the highlighter that was set, if reports have colors.
    fn take_highlighter(&mut self, terminal: &Terminal) -> Option<H>
        ensures chosen { result ≡ chosen_highlighter self.old terminal.now }
        ensures rest { self.new ≡ record self.old { highlighter = None } }
    {
        let highlighter = self.highlighter.take();
        if self.takes_colours(terminal) {
            highlighter
        } else {
            None
        }
    }

    fn takes_colours(&self, terminal: &Terminal) -> bool
        ensures { result ≡ takes_colours self.now terminal.now }
    {
        self.color.unwrap_or(terminal.color.is_some())
    }
}

/// The styles of reports with colors. `many` says whether the terminal has 16 million colors.
fn coloured_styles(alloc: Global, rgb: RgbColors, many: bool) -> Result<ThemeStyles, AllocError>
    ensures { IfOk result (λ it. styles_of it ≡ coloured_styles rgb many) }
{
    match rgb {
        RgbColors::Always => ThemeStyles::rgb(alloc),
        RgbColors::Preferred if many => ThemeStyles::rgb(alloc),
        RgbColors::Preferred | RgbColors::Never => ThemeStyles::ansi(alloc),
    }
}
