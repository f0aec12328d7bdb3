//! Spans as editors give positions.

ghost use Rattle.std.specs.Prelude.{◌≡◌, IfOk, map};
ghost use Rattle.miette_positions.specs.rules.Regions.{region_of};
ghost use Rattle.miette_positions.specs.declared.position.PositionEncoding.TheVariants.{Utf16};

use miette_positions::index::PositionIndex;
use miette_positions::position::{PositionEncoding, Region};
use miette_protocol::protocol::SourceSpan;
use std::alloc::{AllocError, Global};

/// Returns the region of each span, in UTF-16 code units.
pub fn regions(
    alloc: Global,
    source: &[u8],
    spans: &[SourceSpan],
) -> Result<Vec<Option<Region>>, AllocError>
    ensures { IfOk result (λ regions. regions.items ≡ map (region_of Utf16 source.now) spans.now) }
{
    let index = PositionIndex::new(alloc, source, PositionEncoding::Utf16)?;
    let mut regions = Vec::with_capacity(alloc, spans.len())?;
    for span in spans {
        regions.push(index.region(*span))?;
    }
    Ok(regions)
}
