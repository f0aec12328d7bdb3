//! The handlers, by the names that users know.
#![tactic(auto)]

pub mod handlers;

pub use miette_brief::laws as brief_laws;
pub use miette_graphical::laws;
pub use miette_json::laws as json_laws;
