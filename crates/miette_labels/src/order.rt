//! Sorts labels by offset.

ghost use Rattle.std.specs.Prelude.{◌≡◌, ◌<◌, length, IfOk};
ghost use Rattle.std.specs.List.{All};
ghost use Rattle.miette_labels.specs.views.ProgramLabels.{label_at};
ghost use Rattle.miette_labels.specs.views.Turns.{ordered_labels};
ghost use Rattle.miette_labels.specs.rules.Groups.{in_order};

use miette_protocol::protocol::LabeledSpan;
use std::alloc::{AllocError, Global};

/// A label in sorted order: its index in the given list, and its offset.
#[derive(Clone, Copy, Debug, PartialEq, Eq, Drop)]
pub struct OrderedLabel {
    /// The zero-based index of the label in the given list.
    pub index: usize,
    /// The offset of the label in bytes.
    pub offset: usize,
}

// Returns the labels in the given order.
fn turns(alloc: Global, labels: &[LabeledSpan]) -> Result<Vec<OrderedLabel>, AllocError>
    ensures labels { IfOk result (λ v. ordered_labels labels.now v.items ≡ labels.now) }
    ensures offsets { IfOk result (λ v. All (λ turn. turn.offset ≡ (label_at labels.now turn.index).span.offset)
        v.items) }
    ensures inside { IfOk result (λ v. All (λ turn. turn.index < length labels.now) v.items) }
{
    let mut turns = Vec::new(alloc);
    for (index, label) in labels.iter().enumerate() {
        let offset = label.offset();
        turns.push(OrderedLabel { index, offset })?;
    }
    Ok(turns)
}

/// Sorts labels by offset; equal offsets keep their order. Returns `AllocError` if allocation fails.
pub fn order_by_offset(
    alloc: Global,
    labels: &[LabeledSpan],
) -> Result<Vec<OrderedLabel>, AllocError>
    ensures order { IfOk result (λ v. ordered_labels labels.now v.items ≡ in_order labels.now) }
    ensures inside { IfOk result (λ v. All (λ turn. turn.index < length labels.now) v.items) }
{
    let mut turns = turns(alloc, labels)?;
    turns.sort_by_key(|turn| turn.offset)?;
    Ok(turns)
}
