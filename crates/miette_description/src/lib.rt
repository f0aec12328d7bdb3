//! Builds reports from JSON descriptions.
#![tactic(auto)]

mod diagnosis;
pub mod error;
mod json_values;
pub mod laws;
mod members;
mod numbers;
mod parts;
mod reading;
pub mod report;
mod source;
