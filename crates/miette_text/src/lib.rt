//! Wraps text under indents. Re-exports styles, highlighters and runs.
#![tactic(auto)]

pub mod laws;
pub mod options;
pub mod word_laws;
pub mod wrap;
pub mod wrap_laws;
pub mod wrapping;

pub use miette_highlight::highlight;
pub use miette_runs::runs;
pub use miette_style::{style, theme};
