//! A source with an index for converting positions.

ghost use Rattle.std.specs.Prelude.{◌≡◌, ◌∷◌, ◌++◌, [], All, IfOk, OnOk};
ghost use Rattle.miette_positions.specs.rules.Regions.{offset_of, region_of, span_of, stop_after, stop_at, stop_before};
ghost use Rattle.miette_positions.specs.rules.Regions.{stretch_of};
ghost use Rattle.miette_positions.specs.steps.Samples.{IsSample};

use crate::plain::after_plain;
use crate::position::{Position, PositionEncoding, Region, Stop, Stretch};
use crate::sampled_source::{self, SampledSource};
use crate::stops::{first_of_all, next_stop};
use miette_protocol::protocol::SourceSpan;
use std::alloc::{AllocError, Global};
use std::marker::Model;

/// The minimal distance of two indexed stops, in bytes.
const APART: usize = 256;

/// A source with an index. Each call reads only a few bytes of the source, however long its lines are.
#[derive(Drop)]
pub struct PositionIndex<'a> {
    encoding: PositionEncoding,
    source: &'a [u8],
    samples: Vec<Stop>,
    ghost sampled_source: { All (IsSample encoding source.now) samples.items },
}

impl<'a> Model for PositionIndex<'a> {
    ghost use Rattle.miette_positions.specs.rules.Regions.{EncodedSource};

    ghost Value = { EncodedSource };

    ghost view = { λ it. record { source = it.source.now; encoding = it.encoding } };
}

// Returns some stops of a source, at a minimal distance from each other.
fn sample_stops(
    alloc: Global,
    source: &[u8],
    encoding: PositionEncoding,
) -> Result<Vec<Stop>, AllocError>
    ensures { IfOk result (λ samples. All (IsSample encoding source.now) samples.items) }
{
    let mut samples = Vec::new(alloc);
    let mut here = first_of_all();
    let mut last = 0;
    while let Some(next) = next_stop(encoding, source, here) {
        here = after_plain(source, next, APART);
        if here.offset - last >= APART {
            samples.push(here)?;
            last = here.offset;
        }
    }
    Ok(samples)
}

impl<'a> PositionIndex<'a> {
    /// Builds an index in one pass over the source, with a stop about every 256 bytes.
    ///
    /// # Errors
    /// `AllocError` if allocation fails.
    pub fn new(
        alloc: Global,
        source: &'a [u8],
        encoding: PositionEncoding,
    ) -> Result<Self, AllocError>
        ensures { IfOk result (λ it. it ≡ record { source = source.now; encoding = encoding }) }
    {
        let samples = sample_stops(alloc, source, encoding)?;
        Ok(PositionIndex {
            encoding,
            source,
            samples,
        })
    }

    // Returns the source with its indexed stops.
    fn sampled_source(&self) -> SampledSource<'_>
        ensures encoding { result.encoding ≡ self.now.encoding }
        ensures source { result.source.now ≡ self.now.source }
    {
        SampledSource {
            encoding: self.encoding,
            source: self.source,
            samples: self.samples.as_slice(),
        }
    }

    /// Returns the source.
    pub fn source(&self) -> &[u8]
        ensures { result.now ≡ self.now.source }
    {
        self.source
    }

    /// Returns the code units in which columns are counted.
    pub fn encoding(&self) -> PositionEncoding
        ensures { result ≡ self.now.encoding }
    {
        self.encoding
    }

    /// Returns the last stop at or before an offset.
    pub fn stop_before(&self, offset: usize) -> Stop
        ensures { result ≡ stop_before self.now.encoding self.now.source offset }
    {
        sampled_source::stop_before(&self.sampled_source(), offset)
    }

    /// Returns the first stop at or after an offset, or the end of the source if there is none.
    pub fn stop_after(&self, offset: usize) -> Stop
        ensures { result ≡ stop_after self.now.encoding self.now.source offset }
    {
        sampled_source::stop_after(&self.sampled_source(), offset)
    }

    /// Returns the stops of a span: its start rounded down, its end rounded up. Both ends of an empty span are rounded
    /// down. Returns `None` if the span is out of bounds.
    pub fn stretch(&self, span: SourceSpan) -> Option<Stretch>
        ensures { result ≡ stretch_of self.now.encoding self.now.source span }
    {
        sampled_source::stretch_of(&self.sampled_source(), span)
    }

    /// Returns the region of a span, rounded like `stretch`. Returns `None` if the span is out of bounds.
    pub fn region(&self, span: SourceSpan) -> Option<Region>
        ensures { result ≡ region_of self.now.encoding self.now.source span }
    {
        sampled_source::region_of(&self.sampled_source(), span)
    }

    /// Returns the offset of a position. Returns `None` for a position after a line's text, inside a character, or on a
    /// line that doesn't exist.
    pub fn offset(&self, position: Position) -> Option<usize>
        ensures { result ≡ offset_of self.now.encoding self.now.source position }
    {
        sampled_source::offset_of(&self.sampled_source(), position)
    }

    /// Returns the span of a region. Returns `None` if one of its positions has no offset, or if the end precedes the
    /// start.
    pub fn span(&self, region: Region) -> Option<SourceSpan>
        ensures { result ≡ span_of self.now.encoding self.now.source region }
    {
        sampled_source::span_of(&self.sampled_source(), region)
    }

    /// Returns the offset of a position. A position after a line's text gives the end of the text; one inside a
    /// character, its start; one after the last line, the end of the source.
    pub fn clamped_offset(&self, position: Position) -> usize
        ensures { result ≡ (stop_at self.now.encoding self.now.source position).offset }
    {
        sampled_source::stop_at(&self.sampled_source(), position).offset
    }
}
