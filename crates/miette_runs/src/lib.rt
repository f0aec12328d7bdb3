//! Runs: styled text with links and escape sequences, read from texts, appended and printed.
#![tactic(auto)]

pub mod runs;
