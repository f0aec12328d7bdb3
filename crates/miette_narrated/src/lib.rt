//! The narrated report: plain sentences for people who use a screen reader.
#![tactic(auto)]

mod characters;
mod edit_places;
mod fixes;
pub mod handler;
mod label_order;
mod label_rows;
mod label_sweep;
pub mod laws;
mod lines;
mod narrated_line;
mod report;
mod rows;
mod sections;
mod settings;
mod snippets;
