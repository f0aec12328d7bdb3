//! Reads the JSON comments of ShellCheck as reports.
#![tactic(auto)]

mod columns;
mod comment_locations;
mod comment_parts;
pub mod laws;
mod replacements;
pub mod shellcheck;
