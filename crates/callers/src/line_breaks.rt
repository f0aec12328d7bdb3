//! Line break opportunities.

ghost use Rattle.std.specs.Prelude.{◌≡◌, slice_get};
ghost use Rattle.miette_line_breaks.specs.rules.Rules.{breaks_of};

use miette_line_breaks::breaks::{BreakOpportunity, line_breaks};

/// Returns the first break opportunity, with its offset in bytes.
pub fn first_break(text: &str) -> Option<(usize, BreakOpportunity)>
    ensures { result ≡ slice_get (breaks_of text.now) 0 }
{
    line_breaks(text).next()
}
