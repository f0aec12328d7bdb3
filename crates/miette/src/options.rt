//! The options of a handler, and the handler that they choose.

mod builder;
mod handler;

pub use crate::options::builder::{MietteHandlerOpts, RgbColors, rgb_colors_law};
pub use crate::options::handler::MietteHandler;
pub use miette_snippet_rules::options::{LayoutOptions, SetLayout};
pub use miette_style::theme::Terminal;
