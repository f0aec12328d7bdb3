//! Kinds of line break opportunities.

/// A line break opportunity between two characters.
#[derive(Clone, Copy, Debug, PartialEq, Eq)]
pub enum BreakOpportunity {
    /// A line must end here.
    Mandatory,
    /// A line may end here.
    Allowed,
}
