//! Reads the JSON messages of rustc and cargo as reports, and has what all readers of tools share.
#![tactic(auto)]

pub mod advice;
mod annotation_spans;
mod closing;
pub mod edit_message;
mod file_labels;
pub mod files;
pub mod format;
pub mod kept_laws;
mod label_lists;
pub mod laws;
pub mod line_starts;
pub mod lists;
pub mod location;
pub mod members;
pub mod message_list;
mod message_parts;
pub mod names;
pub mod reports;
pub mod rows;
pub mod rustc;
pub mod rustc_suggestions;
pub mod spans;
mod suggestion_help;
pub mod suggestions;
pub mod table;
mod user_span;
