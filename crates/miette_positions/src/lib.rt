//! Converts byte offsets to lines and columns in code units, as editors and SARIF count them, and back.
#![tactic(auto)]

pub mod index;
pub mod laws;
mod plain;
pub mod position;
mod sampled_source;
pub mod spans;
mod stops;
