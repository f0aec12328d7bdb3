//! The options of the snippet layout.

ghost use Rattle.std.specs.Prelude.{◌≡◌, ◌≤◌, Some};

use miette_style::theme::GraphicalTheme;
use std::alloc::Global;

/// How snippets are laid out.
#[derive(Clone, Copy, Debug, PartialEq, Eq, Drop)]
pub struct LayoutOptions {
    /// A tab advances to the next multiple of `tab_width` columns. At 0, tabs have no width.
    pub tab_width: usize,
    /// The number of lines shown before and after a label that doesn't set its own number.
    pub context_lines: usize,
    /// Whether the top of a frame shows where the primary label begins, as in `[name:2:3]`.
    pub primary_start: bool,
    /// Whether the frame of a one-line snippet shows this position even if the source has no name.
    pub one_line_start: bool,
    /// Whether labels at the end of a source are drawn, after the text of its last line.
    pub end_labels: bool,
    /// A label over more lines than this is folded: only the lines around its first and its last line are shown.
    pub label_lines: Option<usize>,
    /// A line with more columns than this is cut around its labels. Values below 8 count as 8.
    pub line_columns: Option<usize>,
}

impl Default for LayoutOptions {
    ghost use Rattle.std.specs.Prelude.{◌≡◌};
    ghost use Rattle.miette_snippet_rules.specs.rules.Defaults.{default_layout};

    ghost is_default = { λ it. it ≡ default_layout };

    fn default() -> Self {
        LayoutOptions {
            tab_width: 4,
            context_lines: 1,
            primary_start: true,
            one_line_start: false,
            end_labels: false,
            label_lines: None,
            line_columns: None,
        }
    }
}

/// Setters of the layout, shared by handlers and by the options that build them.
pub trait SetLayout: Sized {
    ghost use Rattle.miette_snippet_rules.specs.declared.options.LayoutOptions.{LayoutOptions};

    /// The layout.
    ghost layout_of: { Self → LayoutOptions };

    /// The same with another layout.
    ghost laid_out: { Self → LayoutOptions → Self };

    /// The layout. Its tabs have columns.
    fn layout(&self) -> LayoutOptions
        ensures layout { result ≡ layout_of self.now }
        ensures tabs { 1 ≤ result.tab_width };

    /// Draws by this layout, in place of all that was set of it. A tab width of at least 1 is the caller's condition.
    fn with_layout(self, layout: LayoutOptions) -> Self
        requires { 1 ≤ layout.tab_width }
        ensures { result ≡ laid_out self layout };

    /// Whether a label at the end of a source that isn't empty is drawn, after the text of the last line; by default it
    /// isn't. Where no lines are shown around labels, those over that source have one then.
    fn end_labels(self, drawn: bool) -> Self
        ensures { result ≡ laid_out self (record (layout_of self) { end_labels = drawn }) }
    {
        let layout = self.layout();
        self.with_layout(LayoutOptions {
            end_labels: drawn,
            ..layout
        })
    }

    /// Folds labels that have more lines than this. Only the lines around the first and the last line of a folded label
    /// are shown. A row of dots replaces two or more lines between them.
    fn label_lines(self, lines: usize) -> Self
        ensures { result ≡ laid_out self (record (layout_of self) { label_lines = Some lines }) }
    {
        let layout = self.layout();
        self.with_layout(LayoutOptions {
            label_lines: Some(lines),
            ..layout
        })
    }

    /// Cuts source lines that are wider than `columns`. A cut line shows the parts around its labels, as many as fit,
    /// and dots in place of the rest. A limit below 8 counts as 8.
    fn line_columns(self, columns: usize) -> Self
        ensures { result ≡ laid_out self (record (layout_of self) { line_columns = Some columns }) }
    {
        let layout = self.layout();
        self.with_layout(LayoutOptions {
            line_columns: Some(columns),
            ..layout
        })
    }
}

/// What snippets are drawn with: where memory comes from, a theme's characters and styles, and the layout.
#[derive(Clone, Copy)]
pub struct SnippetSettings<'a> {
    /// Where memory comes from.
    pub alloc: Global,
    /// The characters and styles.
    pub theme: &'a GraphicalTheme,
    /// The layout.
    pub layout: &'a LayoutOptions,
}
