//! Labels: how they are read, grouped into snippets, and assigned to lines.
#![tactic(auto)]

mod data_spans;
pub mod drawn_labels;
pub mod groups;
pub mod line_sweep;
pub mod order;
pub mod placed;
pub mod primary;
pub mod reading;
mod spans;
pub mod sweep;
