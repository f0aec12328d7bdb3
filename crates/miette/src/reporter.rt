//! Prints the reports of a session one after another in one form. The exit code says whether one was an error.

mod all;
mod arguments;
mod counts;
mod form;
mod handler;
mod run;
mod start;

pub use crate::reporter::arguments::ReportArguments;
pub use crate::reporter::counts::Counts;
pub use crate::reporter::form::Form;
pub use crate::reporter::handler::FormHandler;
pub use crate::reporter::run::Reporter;
