//! The brief report: one line for each part of a report, as editors and build logs read it.
#![tactic(auto)]

mod commands;
mod escapes;
mod file_locations;
mod fix_its;
mod fixes;
pub mod form;
mod github;
pub mod handler;
pub mod laws;
mod located_labels;
mod locations;
mod one_line;
mod primary;
mod report;
mod rows;
mod whole_source;
