//! Styles and themes, and how styled text is printed.
#![tactic(auto)]

pub mod canvas;
pub mod codes;
pub mod laws;
pub mod page;
pub mod style;
mod styles;
pub mod theme;
