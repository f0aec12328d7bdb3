//! Further theorems about graphical reports.
#![tactic(auto)]

pub mod laws;
