//! Reads the JSON diagnostics of GCC as reports.
#![tactic(auto)]

mod diagnostic_annotations;
mod diagnostic_parts;
mod fixits;
pub mod gcc;
pub mod laws;
mod lines;
mod points;
