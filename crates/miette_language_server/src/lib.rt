//! A language server that reports the findings of `lint` to an editor, over any reader and writer.
#![tactic(auto)]

mod actions;
mod changes;
pub mod client;
mod diagnostics;
pub mod documents;
pub mod frames;
mod header_fields;
pub mod laws;
mod members;
mod messages;
mod methods;
mod objects;
pub mod serve;
pub mod session;
mod values;
