//! The printer of a report's parts.

use miette_graphical_rules::settings::GraphicalSettings;
use miette_runs::runs::output::Output;
use std::alloc::Global;

/// Prints the parts of a report, one after another. What stands under an arrow is printed in a smaller width, and is
/// collected apart, in runs.
#[derive(Drop)]
pub struct Painter<'a, H> {
    /// Where memory comes from.
    pub alloc: Global,
    /// The handler's settings.
    pub settings: &'a GraphicalSettings,
    /// The width of wrapped text in columns.
    pub width: usize,
    /// The highlighter, if there is one.
    pub highlighter: &'a mut Option<H>,
    /// The output so far.
    pub out: Output,
}
