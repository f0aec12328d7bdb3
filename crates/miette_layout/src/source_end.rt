//! Labels at the end of a source, which may need its last line to be shown.

ghost use Rattle.std.specs.Prelude.{◌≡◌};
ghost use Rattle.std.specs.List.{list_any};
ghost use Rattle.miette_layout.specs.views.SourceEnds.{AsksForEnd, TellsEnd, asks_at, last_offset};

use miette_protocol::protocol::{LabeledSpan, SourceOffset, SourceSpan};
use miette_protocol::source::SourceCode;

// Returns the largest offset of the labels, or 0.
fn last_offset(labels: &[LabeledSpan]) -> usize
    ensures { result ≡ last_offset labels.now }
{
    let mut last = 0;
    for label in labels {
        last = label.offset().max(last);
    }
    last
}

// Returns whether a label begins at this offset and has at least one line of context, as far as it sets its own number.
fn asks_at(offset: usize, label: &LabeledSpan) -> bool
    ensures { result ≡ asks_at offset label.now }
{
    label.offset() == offset && label.context_lines().unwrap_or(1) > 0
}

// Returns whether one of the labels does.
fn some_asks(offset: usize, labels: &[LabeledSpan]) -> bool
    ensures { result ≡ list_any (asks_at offset) labels.now }
{
    labels.iter().any(|label| asks_at(offset, label))
}

// Returns whether a nonempty source ends at an offset. A read there with one line of context must give bytes before the
// offset and none after it. If the read fails, returns false.
fn ends_at<S: SourceCode>(source: &S, offset: usize) -> bool
    ensures { TellsEnd (S.source source.now) offset result }
{
    let place = SourceSpan::new(SourceOffset::from(offset), 0);
    match source.read_span(&place, 1, 1) {
        Ok(contents) => {
            let span = contents.span();
            let before = offset.saturating_sub(span.offset());
            before > 0 && before == span.len()
        }
        Err(_) => false,
    }
}

/// Returns whether a label at the end of the source needs the last line to be shown, and no label begins after the end.
/// If the end can't be read, returns false.
pub(crate) fn asks_for_end<S: SourceCode>(source: &S, labels: &[LabeledSpan]) -> bool
    ensures { AsksForEnd (S.source source.now) labels.now result }
{
    let last = last_offset(labels);
    if !ends_at(source, last) {
        return false;
    }
    some_asks(last, labels)
}
