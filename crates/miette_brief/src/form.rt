//! The output formats of brief reports.

/// The output format of a brief report.
#[derive(Clone, Copy, Debug, PartialEq, Eq, Drop)]
pub enum BriefForm {
    /// The format of GCC and clang, for editors and build logs: one line for each part of a report.
    Gcc,
    /// GitHub workflow commands, which GitHub shows beside the lines of a file: one line for each diagnostic.
    Github,
}
