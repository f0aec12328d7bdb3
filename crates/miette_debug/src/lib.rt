//! The debug report: the fields of a report, for people who debug their tool.
#![tactic(auto)]

mod debug_text;
pub mod handler;
