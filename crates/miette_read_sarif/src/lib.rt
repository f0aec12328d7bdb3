//! Reads SARIF 2.1.0 logs as reports.
#![tactic(auto)]

mod bases;
mod context;
mod counted_results;
mod descriptors;
mod drafts;
mod file_annotations;
pub mod laws;
mod line_tables;
mod lines;
mod locations;
mod messages;
pub mod names;
mod newline_sequences;
mod newlines;
mod notifications;
mod proposals;
mod regions;
mod result_annotations;
mod result_parts;
pub mod sarif;
mod uris;
mod whole_file_suggestions;
