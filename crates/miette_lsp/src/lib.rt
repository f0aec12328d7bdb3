//! Diagnostics of the Language Server Protocol (3.17): their text, and the value that it represents.
#![tactic(auto)]

pub mod diagnostic;
pub mod documents;
pub mod edits;
pub mod examples;
pub mod handler;
pub mod logs;
mod message;
pub mod places;
