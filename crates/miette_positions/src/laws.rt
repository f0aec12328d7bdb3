//! Theorems about positions. The functions do nothing; their contracts are the theorems.

ghost use Rattle.std.specs.Prelude.{◌≡◌, ℕ, ◌<◌, List, slice_get, Option, Some, None, false};
ghost use Rattle.miette_positions.specs.rules.Regions.{offset_of, stop_after, stop_at, stop_before};
ghost use Rattle.miette_positions.specs.rules.Stops.{is_until, stops_of};
ghost use Rattle.miette_positions.specs.declared.position.Position.{Position};
ghost use Rattle.miette_positions.specs.declared.position.PositionEncoding.{PositionEncoding};
ghost use Rattle.miette_positions.specs.declared.position.Stop.{Stop};

/// The stops of a source have ascending offsets and positions. Each stop is found by its offset and by its position,
/// and the position converts to that offset. A position that has an offset belongs to a stop.
pub fn stop_laws()
    ensures rise { (e : PositionEncoding) (source : List ℕ) (i j : ℕ) (s t : Stop) → i < j →
        slice_get (stops_of e source) i ≡ Some s → slice_get (stops_of e source) j ≡ Some t →
        (s.offset < t.offset) × (is_until t.position s.position ≡ false) }
    ensures back { (e : PositionEncoding) (source : List ℕ) (k : ℕ) (s : Stop) →
        slice_get (stops_of e source) k ≡ Some s → (stop_before e source s.offset ≡ s)
        × (stop_after e source s.offset ≡ s) × (stop_at e source s.position ≡ s)
        × (offset_of e source s.position ≡ Some s.offset) }
    ensures only { (e : PositionEncoding) (source : List ℕ) (p : Position) (at : ℕ) → offset_of e source p ≡ Some at →
        stop_before e source at ≡ record { offset = at; position = p } }
{}
