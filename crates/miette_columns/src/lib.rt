//! Widths: the bytes and columns of characters and texts, with tabs.
#![tactic(auto)]

pub mod cells;
mod checkpoints;
mod overlap;
pub mod plain;
mod split_points;
pub mod text_columns;
mod trails;
