//! The graphical handler: renders a tree of reports as text.
#![tactic(auto)]

pub mod appending;
mod body;
mod diagnostic;
mod fixes;
pub mod handler;
mod header;
mod indents;
pub mod outermost;
mod painter;
mod report;
mod sources;

pub use miette_graphical_rules::{laws, settings};
