//! Diagnostics that a program can print: spans and labels, reports with causes and sources, and handlers that render
//! them. This crate re-exports what its users need from the crates below.
#![tactic(auto)]

pub mod handlers;
pub mod host;
pub mod input;
pub mod laws;
pub mod options;
pub mod pieces;
pub mod prelude;
pub mod print;
pub mod reporter;
pub mod source_text;
pub mod terminal;

pub use miette_fixes::fix;
pub use miette_highlight::highlight;
pub use miette_protocol::{diagnostic, error, protocol, source};
pub use miette_text::{style, theme, wrap};
pub use miette_tree::report::{Report as ErrReport, Report as Error};
pub use miette_tree::report_handler::ReportHandler as EyreContext;
pub use miette_tree::{bail, diagnostic, ensure, miette, report};
