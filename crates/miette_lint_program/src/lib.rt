//! The work of `lint`: graphical and brief reports of its findings, logs, fixed texts, and the language server.
#![tactic(auto)]

pub mod lint;
mod lint_reports;
mod lint_request;
pub mod lint_server;

pub use miette_devices::{device, fault, whole, words};
