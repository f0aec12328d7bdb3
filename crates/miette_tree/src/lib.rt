//! Reports: errors with messages, labels, sources, causes and related reports.
#![tactic(auto)]

mod attach;
mod attachments;
mod cause_texts;
mod chain;
mod constructors;
mod innermost;
pub mod laws;
pub mod macros;
mod messages;
mod owned;
pub mod parts;
pub mod report;
pub mod report_handler;
pub mod text_handler;
mod tree;
mod wrap_err;
