//! The snippets of a diagnostic: which labels share a snippet, how its lines are numbered and underlined, and where
//! label texts go. If a label is out of bounds, one row replaces the snippets.
#![tactic(auto)]

mod highlighting;
pub mod laws;
mod line;
mod snippet;
pub mod snippets;
mod source_end;

pub use miette_snippet_rules::options;
pub use miette_style::page;
