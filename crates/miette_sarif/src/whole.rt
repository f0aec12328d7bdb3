//! The text of a source that was read as a whole.

ghost use Rattle.std.specs.Prelude.{◌≡◌, IfOk, slice_range, if◌then◌else◌, Some, None};
ghost use Rattle.std.specs.Option.{option_copied, option_map};
ghost use Rattle.miette_positions.specs.declared.position.PositionEncoding.TheVariants.{Utf16};
ghost use Rattle.miette_positions.specs.rules.Regions.{stop_after, stop_before};
ghost use Rattle.miette_sarif.specs.rules.Marks.{area_in, shows_snippet, text_of};
ghost use Rattle.miette_sarif.specs.views.Findings.{area_of};

use crate::finding::SarifRegion;
use miette_positions::index::PositionIndex;
use miette_positions::position::{PositionEncoding, Stop, Stretch};
use miette_protocol::protocol::SourceSpan;
use std::alloc::{AllocError, Global};
use std::marker::Model;
use std::str;

/// The text of a source, with an index of its positions. Contracts see its bytes.
#[derive(Drop)]
pub(crate) struct WholeText<'a> {
    bytes: &'a [u8],
    index: PositionIndex<'a>,
}

impl<'a> Model for WholeText<'a> {
    ghost use Rattle.std.specs.Prelude.{◌≡◌, List, ℕ};
    ghost use Rattle.miette_positions.specs.declared.position.PositionEncoding.TheVariants.{Utf16};

    ghost Value = { List ℕ };

    ghost view = { λ it. it.bytes.now };

    ghost invariant = { λ it. it.index ≡ record { source = it.bytes.now; encoding = Utf16 } };
}

/// The bytes between two offsets, cut to the end.
pub(crate) fn between(bytes: &[u8], from: usize, to: usize) -> &[u8]
    ensures { result.now ≡ slice_range bytes.now from to }
{
    let end = to.min(bytes.len());
    if from < end { &bytes[from..end] } else { &[] }
}

// The text of a region, if it is on one line, not empty, and UTF-8.
fn snippet_of<'a>(bytes: &'a [u8], stretch: Stretch) -> Option<&'a str>
    ensures { option_copied result
        ≡ (if shows_snippet bytes.now stretch then Some (text_of bytes.now stretch) else None) }
{
    let part = between(bytes, stretch.start.offset, stretch.end.offset);
    if stretch.start.position.line != stretch.end.position.line || part.is_empty() {
        return None;
    }
    match str::from_utf8(part) {
        Ok(text) => Some(text),
        Err(_) => None,
    }
}

impl<'a> WholeText<'a> {
    /// Creates the index of a source's positions.
    pub(crate) fn new(alloc: Global, bytes: &'a [u8]) -> Result<WholeText<'a>, AllocError>
        ensures { IfOk result (λ it. it ≡ bytes.now) }
    {
        let index = PositionIndex::new(alloc, bytes, PositionEncoding::Utf16)?;
        Ok(WholeText { bytes, index })
    }

    /// The bytes.
    pub(crate) fn bytes(&self) -> &'a [u8]
        ensures { result.now ≡ self.now }
    {
        self.bytes
    }

    /// The last position at or before an offset at which the source may be split.
    pub(crate) fn stop_before(&self, offset: usize) -> Stop
        ensures { result ≡ stop_before Utf16 self.now offset }
    {
        self.index.stop_before(offset)
    }

    /// The first such position at or after an offset.
    pub(crate) fn stop_after(&self, offset: usize) -> Stop
        ensures { result ≡ stop_after Utf16 self.now offset }
    {
        self.index.stop_after(offset)
    }

    /// The region of a span, or `None` if the span is refused.
    pub(crate) fn area(&self, span: SourceSpan) -> Option<SarifRegion<'a>>
        ensures { option_map area_of result ≡ area_in self.now span }
    {
        let stretch = self.index.stretch(span)?;
        Some(SarifRegion {
            stretch,
            snippet: snippet_of(self.bytes, stretch),
        })
    }
}
