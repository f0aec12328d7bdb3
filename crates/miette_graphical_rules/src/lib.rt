//! The rules of graphical reports, their settings, and theorems about both.
#![tactic(auto)]

pub mod laws;
pub mod settings;
