//! Theorems about lines and reads. The functions do nothing; their contracts are the theorems.

ghost use Rattle.std.specs.Prelude.{◌≡◌, ◌↔◌, ℕ, ◌+◌, ◌<◌, ◌≤◌, min, length, slice_range};
ghost use Rattle.miette_protocol.specs.rules.Context.{first_line, last_line};
ghost use Rattle.miette_lines.specs.rules.Lines.{lines_of, lines_from, line_of, line_start, line_end};
ghost use Rattle.miette_protocol.specs.rules.Reading.{Span, Source, Contents, IsInBounds, contents_of};

use crate::error::RenderError;
use crate::protocol::{LengthOverflow, Severity, SourceOffset, SourceSpan};
use crate::source::MietteSpanContents;
pub use miette_lines::laws::lines_cut_the_source;

/// With at least one context line before and after, the data of a read are whole lines. Split into lines, they are the
/// source's lines from the first to the last line of the context. The number of terminators before their end is the
/// number up to the last line of the context. No other line of the source is in the data's span.
#[tactic(auto, using(crate::proofs::Wholes::lines, crate::proofs::Wholes::count, crate::proofs::Wholes::numbers))]
pub fn data_are_whole_lines()
    ensures lines { (source : Source) → (span : Span) → (before after : ℕ) → 1 ≤ before → 1 ≤ after →
        lines_from (contents_of source span before after).span.offset (contents_of source span before after).bytes
        ≡ slice_range (lines_of source.bytes) (first_line source.bytes span before)
        (last_line source.bytes span after + 1) }
    ensures count { (source : Source) → (span : Span) → (before after : ℕ) → 1 ≤ before → 1 ≤ after →
        (contents_of source span before after).line + (contents_of source span before after).line_count
        ≡ min (last_line source.bytes span after + 1) (line_of source.bytes (length source.bytes)) }
    ensures numbers { (source : Source) → (span : Span) → (before after k : ℕ) → 1 ≤ before → 1 ≤ after →
        k < length (lines_of source.bytes) →
        (((contents_of source span before after).span.offset ≤ line_start source.bytes k)
        × (line_end source.bytes k ≤ (contents_of source span before after).span.offset
        + (contents_of source span before after).span.len))
        ↔ ((first_line source.bytes span before ≤ k) × (k ≤ last_line source.bytes span after)) }
{}

/// The end of an in-bounds span, cut to the end of the source, equals its end cut to the end of the data, for any
/// number of context lines.
#[tactic(auto, using(crate::proofs::Wholes::shown_end))]
pub fn data_reach_the_span()
    ensures { (source : Source) → (span : Span) → (before after : ℕ) → IsInBounds source.bytes span →
        min (span.offset + span.len) (length source.bytes)
        ≡ min (span.offset + span.len) ((contents_of source span before after).span.offset
        + (contents_of source span before after).span.len) }
{}

/// Cloning offsets, spans, severities, contents and errors without text never fails.
pub fn clones_take_no_memory<'a>()
    ensures offsets { (it : ℕ) → ⟦<SourceOffset as Clone>⟧.is_infallible it }
    ensures spans { (it : Span) → ⟦<SourceSpan as Clone>⟧.is_infallible it }
    ensures severities { (it : Severity) → ⟦<Severity as Clone>⟧.is_infallible it }
    ensures contents { (it : Contents) → ⟦<MietteSpanContents<'a> as Clone>⟧.is_infallible it }
    ensures overflows { (it : LengthOverflow) → ⟦<LengthOverflow as Clone>⟧.is_infallible it }
    ensures render_errors { (it : RenderError) → ⟦<RenderError as Clone>⟧.is_infallible it }
{}
