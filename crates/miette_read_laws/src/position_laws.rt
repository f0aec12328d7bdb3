//! Theorems on positions: where a source can be cut.

ghost use Rattle.std.specs.Prelude.{ℕ, List};
ghost use Rattle.miette_positions.specs.declared.position.PositionEncoding.{PositionEncoding};
ghost use Rattle.miette_read_laws.specs.laws.Boundaries.{AreStops};

/// Each end of a character is a stop, but between CR and LF. So is the start of the source. The stop's line counts the
/// line ends before it, and its column the code units since the last one.
pub fn boundaries_are_stops()
    ensures { (e : PositionEncoding) (source : List ℕ) → AreStops e source }
{}
