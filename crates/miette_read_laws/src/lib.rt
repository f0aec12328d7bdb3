//! Theorems on the reports that are read from GCC, ShellCheck and SARIF logs.
#![tactic(auto)]

pub mod laws;
pub mod log_laws;
pub mod position_laws;
