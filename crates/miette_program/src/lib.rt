//! The arguments of `job` and `bench`, and the handler that they choose.
#![tactic(auto)]

pub mod arguments;
pub mod job_handler;
pub mod language;
pub mod option_words;
