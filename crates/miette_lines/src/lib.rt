//! Lines of bytes: finding and counting them. Also decimal numbers and checked sums.
#![tactic(auto)]

pub mod find;
pub mod indexed;
pub mod laws;
mod line_ends;
pub mod lines;
pub mod near;
mod newlines;
pub mod numbers;
pub mod scan;
pub mod sums;
