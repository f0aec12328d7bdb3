//! The spans that edits delete from the source or insert into the applied text.

ghost use Rattle.std.specs.Prelude.{◌≡◌, ◌+◌, ◌≤◌, ℕ, List, nat_le, nat_lt};
ghost use Rattle.std.specs.List.{filter, list_any};
ghost use Rattle.miette_columns.specs.rules.Cells.{Cell as TextCell};
ghost use Rattle.miette_columns.specs.views.Walking.{cell_of};
ghost use Rattle.miette_style.specs.declared.style.Style.{Style};
ghost use Rattle.miette_fix_rows.specs.rules.DiffTexts.{holds_byte, is_on, parts_in};
ghost use Rattle.miette_fix_drawing.specs.steps.Spans.{AreApart};

use miette_columns::cells::Cell;
use miette_protocol::protocol::SourceSpan;

// Returns whether a span ends at the offset or before it.
fn ends_by(span: &SourceSpan, offset: usize) -> bool
    ensures { result ≡ nat_le (span.now.offset + span.now.len) offset }
{
    span.offset() <= offset && span.len() <= offset - span.offset()
}

// Returns whether a span has a byte of the cell.
fn holds_byte(cell: &Cell, span: &SourceSpan) -> bool
    ensures { result ≡ holds_byte (cell_of cell.now) span.now }
{
    span.len() > 0
        && (cell.start < span.offset() || cell.start - span.offset() < span.len())
        && span.offset() < cell.after
}

/// Skips the first spans as long as they end at the offset or before it.
pub fn spans_ending_after(spans: &[SourceSpan], offset: usize) -> &[SourceSpan]
    requires { AreApart spans.now }
    ensures apart { AreApart result.now }
    ensures same { (cell : TextCell) → offset ≤ cell.start →
        list_any (holds_byte cell) result.now ≡ list_any (holds_byte cell) spans.now }
{
    let mut i = 0;
    while i < spans.len() {
        if !ends_by(&spans[i], offset) {
            return &spans[i..];
        }
        i += 1;
    }
    &[]
}

/// Returns whether one of the spans has a byte of the cell.
#[tactic(auto, using(crate::proofs::Apart::any_at, crate::proofs::Apart::held_at, crate::proofs::Apart::none_at))]
pub fn some_holds_byte(spans: &[SourceSpan], cell: &Cell) -> bool
    requires { AreApart spans.now }
    ensures { result ≡ list_any (holds_byte (cell_of cell.now)) spans.now }
{
    for span in spans {
        if cell.after <= span.offset() {
            return false;
        }
        if holds_byte(cell, span) {
            return true;
        }
    }
    false
}

// Returns whether a span ends before the offset.
fn ends_before(span: &SourceSpan, offset: usize) -> bool
    ensures { result ≡ nat_lt (span.now.offset + span.now.len) offset }
{
    span.offset() < offset && span.len() < offset - span.offset()
}

/// Skips the first spans as long as they end before the offset, at which a line begins.
pub fn spans_not_ending_before(spans: &[SourceSpan], offset: usize) -> &[SourceSpan]
    requires { AreApart spans.now }
    ensures apart { AreApart result.now }
    ensures held { (cell : TextCell) → offset ≤ cell.start →
        list_any (holds_byte cell) result.now ≡ list_any (holds_byte cell) spans.now }
    ensures parts { (bytes : ℕ) (style : Style) →
        parts_in offset bytes style result.now ≡ parts_in offset bytes style spans.now }
    ensures on { (line : List ℕ) → filter (is_on offset line) result.now ≡ filter (is_on offset line) spans.now }
{
    let many = spans.partition_point(|span| ends_before(span, offset));
    if many > 0 && many <= spans.len() && ends_before(&spans[many - 1], offset) {
        return &spans[many..];
    }
    spans
}
