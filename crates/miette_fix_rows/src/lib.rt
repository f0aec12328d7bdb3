//! The rules of a fix's diff: what the fix changes in a source, shown as a diff in frames.
#![tactic(auto)]

mod blocks;
pub mod changes;
pub mod diff_laws;
mod line_lists;
pub mod row_laws;
pub mod worked;
