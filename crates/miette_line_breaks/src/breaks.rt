//! Finds the line break opportunities of a text.

ghost use Rattle.std.specs.Prelude.{◌≡◌};
ghost use Rattle.miette_line_breaks.specs.rules.Rules.{breaks_of};
ghost use Rattle.miette_line_breaks.specs.views.Left.{breaks_left};

pub use crate::opportunity::BreakOpportunity;
pub use crate::remaining::LineBreaks;
pub use crate::state::BreakState;

/// Returns where a text can be broken into lines, by UAX #14 for Unicode 15.0. Items are byte offsets, with whether a
/// line must end there. The end of a nonempty text is always a mandatory break.
pub fn line_breaks(text: &str) -> LineBreaks<'_>
    ensures { breaks_left result ≡ breaks_of text.now }
{
    LineBreaks::new(text)
}
