//! Fixes: edits of a source that a tool suggests, and how they are applied.
#![tactic(auto)]

mod applicability;
pub mod apply;
mod apply_all;
mod edit;
mod edit_starts;
mod error;
pub mod fix;
mod fix_builder;
pub mod laws;
mod order;
