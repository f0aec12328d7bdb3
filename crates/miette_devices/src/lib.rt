//! What all programs share: readers and writers that remember failures, errors with their messages and exit codes,
//! arguments, output forms.
#![tactic(auto)]

pub mod device;
pub mod fault;
pub mod output_form;
pub mod whole;
pub mod words;
