//! The work of `job` and `bench`: from the description of a report to its rendered text.
#![tactic(auto)]

mod applied_fixes;
pub mod bench;
pub mod fix;
pub mod job;
pub mod job_laws;
pub mod job_log;
pub mod laws;
mod pipeline;
pub mod request;

pub use miette_description::laws as description_laws;
pub use miette_devices::{device, fault, whole, words};
pub use miette_draw::draw;
pub use miette_lint_program::lint;
pub use miette_lsp::logs;
pub use miette_program::{job_handler, language};
