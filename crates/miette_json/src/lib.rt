//! JSON text written part by part, and the JSON report: its text, and the value that the text represents.
#![tactic(auto)]

pub mod handler;
mod labels;
pub mod laws;
mod report;
mod snippets_and_fixes;
pub mod text;
pub mod writer;
