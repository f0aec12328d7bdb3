//! The SARIF report: a log of static analysis results (OASIS, version 2.1.0), its text, and the value that the text
//! represents.
#![tactic(auto)]

pub mod artifacts;
mod edits;
pub mod examples;
pub mod finding;
pub mod gather;
pub mod handler;
mod labels;
pub mod laws;
mod log;
mod message;
mod places;
mod report_texts;
mod results;
mod rules;
mod snapshots;
pub mod texts;
pub mod uri;
mod whole;
