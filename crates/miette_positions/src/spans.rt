//! Converts single spans, by a search from the start of the source. Use `PositionIndex` for many spans of one source.

ghost use Rattle.std.specs.Prelude.{◌≡◌};
ghost use Rattle.miette_positions.specs.rules.Regions.{region_of, span_of, stop_at};

use crate::position::{Position, PositionEncoding, Region};
use crate::sampled_source::{self, SampledSource};
use miette_protocol::protocol::SourceSpan;

// Returns a source without an index.
fn unmarked(source: &[u8], encoding: PositionEncoding) -> SampledSource<'_>
    ensures encoding { result.encoding ≡ encoding }
    ensures source { result.source.now ≡ source.now }
{
    SampledSource {
        encoding,
        source,
        samples: &[],
    }
}

/// Returns the region of a span: its start rounded down, its end rounded up. Both ends of an empty span are rounded
/// down. Returns `None` if the span is out of bounds.
pub fn region_of(span: SourceSpan, source: &[u8], encoding: PositionEncoding) -> Option<Region>
    ensures { result ≡ region_of encoding source.now span }
{
    sampled_source::region_of(&unmarked(source, encoding), span)
}

/// Returns the span of a region. Returns `None` if one of its positions has no offset (after a line's text, inside a
/// character, on a missing line), or if the end precedes the start.
pub fn span_of(region: Region, source: &[u8], encoding: PositionEncoding) -> Option<SourceSpan>
    ensures { result ≡ span_of encoding source.now region }
{
    sampled_source::span_of(&unmarked(source, encoding), region)
}

/// Returns the offset of a position. A position after a line's text gives the end of the text; one inside a character,
/// its start; one after the last line, the end of the source.
pub fn clamped_offset(position: Position, source: &[u8], encoding: PositionEncoding) -> usize
    ensures { result ≡ (stop_at encoding source.now position).offset }
{
    sampled_source::stop_at(&unmarked(source, encoding), position).offset
}
