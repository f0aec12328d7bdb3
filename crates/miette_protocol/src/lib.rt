//! Spans, labels, sources, diagnostics and errors. Offsets and lengths are in bytes. Line and column numbers are
//! zero-based.
#![tactic(auto)]

mod contents;
mod context_lines;
pub mod diagnostic;
pub mod error;
mod find;
mod label;
pub mod laws;
mod named_source;
mod named_source_traits;
pub mod protocol;
pub mod source;
mod source_code;
mod span;
