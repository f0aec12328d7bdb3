//! A linter of lines: its findings, its proposed fixes, and the fixed text.
#![tactic(auto)]

mod blanks;
pub mod coded;
pub mod combined;
mod endings;
pub mod findings;
pub mod fixed;
pub mod laws;
pub mod proposals;
mod remaining;
mod spaces;
