//! Folding labels that span many lines: which of their lines are left out.
#![tactic(auto)]

pub mod extent_index;
pub mod fold_index;
pub mod folds;
pub mod gaps;
pub mod label_extents;
pub mod left_out;
pub mod snippet_size;
