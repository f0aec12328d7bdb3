//! Searches for stops, given a source and some of its stops.

ghost use Rattle.std.specs.Prelude.{◌≡◌, ◌≤◌, ℕ, All, Option, true, nat_le};
ghost use Rattle.miette_protocol.specs.rules.Reading.{is_in_bounds};
ghost use Rattle.miette_positions.specs.rules.Regions.{clamped_end, first_stop, is_same, last_stop, offset_of};
ghost use Rattle.miette_positions.specs.rules.Regions.{region_of};
ghost use Rattle.miette_positions.specs.rules.Regions.{span_between, span_of, stop_after, stop_at, stop_before};
ghost use Rattle.miette_positions.specs.rules.Regions.{stretch};
ghost use Rattle.miette_positions.specs.rules.Regions.{stretch_of};
ghost use Rattle.miette_positions.specs.rules.Stops.{is_until, stops_from};
ghost use Rattle.miette_positions.specs.steps.Samples.{IsSample, IsWithin, is_reached, stop_for};
ghost use Rattle.miette_positions.specs.steps.Onward.{onward};

use crate::plain::after_plain;
use crate::position::{Position, PositionEncoding, Region, Stop, Stretch};
use crate::stops::{first_of_all, next_stop};
use miette_protocol::protocol::SourceSpan;
use std::marker::Model;

/// What to search for: the last stop at or before an offset or position.
#[derive(Clone, Copy, Drop)]
pub(crate) enum SearchTarget {
    ToOffset(usize),
    ToPosition(Position),
}

/// A source, and some of its stops, sorted by offset. The closer they are, the shorter are the searches.
#[derive(Clone, Copy, Drop)]
pub(crate) struct SampledSource<'a> {
    pub(crate) encoding: PositionEncoding,
    pub(crate) source: &'a [u8],
    pub(crate) samples: &'a [Stop],
    ghost sampled_source: { All (IsSample encoding source.now) samples.now },
}

// Whether a position is equal to another one or precedes it.
fn is_until(position: Position, other: Position) -> bool
    ensures { result ≡ is_until position other }
{
    position.line < other.line || (position.line == other.line && position.column <= other.column)
}

// Whether a stop isn't after the target.
fn is_reached(target: SearchTarget, stop: Stop) -> bool
    ensures { result ≡ is_reached target stop }
{
    match target {
        SearchTarget::ToOffset(at) => stop.offset <= at,
        SearchTarget::ToPosition(position) => is_until(stop.position, position),
    }
}

// Returns a number of columns that can be skipped from a stop without passing the target.
fn columns_before(target: SearchTarget, stop: Stop) -> usize
    requires { is_reached target stop ≡ true }
    ensures { (n : ℕ) → n ≤ result → is_reached target (onward n stop) ≡ true }
{
    match target {
        SearchTarget::ToOffset(at) => at - stop.offset,
        SearchTarget::ToPosition(position) => {
            if stop.position.line < position.line {
                usize::MAX
            } else {
                position.column - stop.position.column
            }
        }
    }
}

// Returns the last stop, starting with `from`, that isn't after the target.
fn last_from(encoding: PositionEncoding, source: &[u8], from: Stop, target: SearchTarget) -> Stop
    requires { IsWithin source.now from }
    ensures stop { result ≡ last_stop (is_reached target) from (stops_from encoding source.now from) }
    ensures within { IsWithin source.now result }
{
    let mut here = from;
    while let Some(next) = next_stop(encoding, source, here) {
        if !is_reached(target, next) {
            return here;
        }
        here = after_plain(source, next, columns_before(target, next));
    }
    here
}

// Returns the first stop, starting with `from`, at or after an offset, or else the last stop of the source.
fn first_from(encoding: PositionEncoding, source: &[u8], from: Stop, at: usize) -> Stop
    requires { IsWithin source.now from }
    ensures { result ≡ first_stop (λ s. nat_le at s.offset) from (stops_from encoding source.now from) }
{
    let mut here = from;
    while here.offset < at {
        let Some(next) = next_stop(encoding, source, here) else {
            return here;
        };
        here = after_plain(source, next, at.saturating_sub(next.offset));
    }
    here
}

// Returns where the search begins: the last sampled stop that isn't after the target, found by binary search, or else
// the start.
fn nearest_sample(
    encoding: PositionEncoding,
    source: &[u8],
    samples: &[Stop],
    target: SearchTarget,
) -> Stop
    requires { All (IsSample encoding source.now) samples.now }
    ensures mark { IsSample encoding source.now result }
    ensures reached { is_reached target result ≡ true }
{
    let mut found = first_of_all();
    let mut low = 0;
    let mut high = samples.len();
    while low < high {
        let middle = low + (high - low) / 2;
        let mark = samples[middle];
        if is_reached(target, mark) {
            found = mark;
            low = middle + 1;
        } else {
            high = middle;
        }
    }
    found
}

// Returns the last stop that isn't after the target.
fn stop_for(sampled_source: &SampledSource<'_>, target: SearchTarget) -> Stop
    ensures stop { result ≡ stop_for sampled_source.now.encoding sampled_source.now.source.now target }
    ensures within { IsWithin sampled_source.now.source.now result }
{
    let from = nearest_sample(
        sampled_source.encoding,
        sampled_source.source,
        sampled_source.samples,
        target,
    );
    last_from(sampled_source.encoding, sampled_source.source, from, target)
}

/// Returns the first stop at or after an offset.
pub(crate) fn stop_after(sampled_source: &SampledSource<'_>, at: usize) -> Stop
    ensures { result ≡ stop_after sampled_source.now.encoding sampled_source.now.source.now at }
{
    let from = nearest_sample(
        sampled_source.encoding,
        sampled_source.source,
        sampled_source.samples,
        SearchTarget::ToOffset(at),
    );
    first_from(sampled_source.encoding, sampled_source.source, from, at)
}

// Returns where a span ends, cut to the end of the source.
fn clamped_end(source: &[u8], span: SourceSpan) -> usize
    ensures { result ≡ clamped_end source.now span }
{
    if span.offset() > source.len() || source.len() - span.offset() < span.len() {
        return source.len();
    }
    span.offset() + span.len()
}

// Whether a span is in bounds.
fn is_in_bounds(source: &[u8], span: SourceSpan) -> bool
    ensures { result ≡ is_in_bounds source.now span }
{
    span.offset() <= source.len() && span.len() <= source.len() + 1 - span.offset()
}

// Whether two positions are equal.
fn is_same(position: Position, other: Position) -> bool
    ensures { result ≡ is_same position other }
{
    position.line == other.line && position.column == other.column
}

// Returns the span between two offsets, if both exist and the second doesn't precede the first.
fn span_between(from: Option<usize>, to: Option<usize>) -> Option<SourceSpan>
    ensures { result ≡ span_between from to }
{
    let (Some(from), Some(to)) = (from, to) else {
        return None;
    };
    if to < from {
        return None;
    }
    Some(SourceSpan::from((from, to - from)))
}

/// Returns the last stop at or before an offset.
pub(crate) fn stop_before(sampled_source: &SampledSource<'_>, at: usize) -> Stop
    ensures { result ≡ stop_before sampled_source.now.encoding sampled_source.now.source.now at }
{
    stop_for(sampled_source, SearchTarget::ToOffset(at))
}

/// Returns the last stop at or before a position.
pub(crate) fn stop_at(sampled_source: &SampledSource<'_>, position: Position) -> Stop
    ensures { result ≡ stop_at sampled_source.now.encoding sampled_source.now.source.now position }
{
    stop_for(sampled_source, SearchTarget::ToPosition(position))
}

/// Returns the stops of an in-bounds span: its start rounded down, its end rounded up. Both ends of an empty span are
/// rounded down.
pub(crate) fn stretch_of(sampled_source: &SampledSource<'_>, span: SourceSpan) -> Option<Stretch>
    ensures { result ≡ stretch_of sampled_source.now.encoding sampled_source.now.source.now span }
{
    if !is_in_bounds(sampled_source.source, span) {
        return None;
    }
    let start = stop_before(sampled_source, span.offset());
    let to = clamped_end(sampled_source.source, span);
    let end = if to <= span.offset() {
        start
    } else {
        stop_after(sampled_source, to)
    };
    Some(Stretch { start, end })
}

/// Returns the region of an in-bounds span.
pub(crate) fn region_of(sampled_source: &SampledSource<'_>, span: SourceSpan) -> Option<Region>
    ensures { result ≡ region_of sampled_source.now.encoding sampled_source.now.source.now span }
{
    let Some(stretch) = stretch_of(sampled_source, span) else {
        return None;
    };
    Some(Region {
        start: stretch.start.position,
        end: stretch.end.position,
    })
}

/// Returns the offset of a position, if it has one.
pub(crate) fn offset_of(sampled_source: &SampledSource<'_>, position: Position) -> Option<usize>
    ensures { result ≡ offset_of sampled_source.now.encoding sampled_source.now.source.now position }
{
    let stop = stop_at(sampled_source, position);
    if !is_same(stop.position, position) {
        return None;
    }
    Some(stop.offset)
}

/// Returns the span of a region, if both positions have offsets and the end doesn't precede the start.
pub(crate) fn span_of(sampled_source: &SampledSource<'_>, region: Region) -> Option<SourceSpan>
    ensures { result ≡ span_of sampled_source.now.encoding sampled_source.now.source.now region }
{
    span_between(
        offset_of(sampled_source, region.start),
        offset_of(sampled_source, region.end),
    )
}
