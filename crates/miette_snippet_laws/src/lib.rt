//! Theorems about the lines that snippets show and about their rows, and examples.
#![tactic(auto)]

pub mod range_laws;
pub mod row_laws;
pub mod worked;
