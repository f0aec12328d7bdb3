//! Serializes and deserializes the number of context lines of a label.

ghost use Rattle.std.specs.Prelude.{◌≡◌, IfOk, OnOk};
ghost use Rattle.std.specs.Option.{option_map};
ghost use Rattle.std.specs.Int.NonZero.{non_zero_usize_get};
ghost use Rattle.miette_protocol.specs.steps.ContextLines.{ReadsLines, WritesLines};
ghost use Rattle.miette_protocol.specs.views.Meaning.{context_count};

use serde::{Deserialize, Deserializer, Format, Serialize, Serializer};
use std::alloc::Global;
use std::num::NonZeroUsize;

/// Writes the number.
pub(crate) fn serialize<S: Serializer>(
    lines: &Option<NonZeroUsize>,
    out: &mut S,
) -> Result<(), S::Error>
    ensures { OnOk result (WritesLines (option_map non_zero_usize_get lines.now) (S.written out.old)
        (S.written out.new)) }
{
    match lines {
        Some(number) => number.get().serialize(out),
        None => out.unit(),
    }
}

/// Reads a number. `null` and 0 become `None`.
pub(crate) fn deserialize<F: Format>(
    alloc: Global,
    from: &mut Deserializer<'_, '_, F>,
) -> Result<Option<NonZeroUsize>, F::Error>
    ensures { IfOk result (λ o. ReadsLines F.gives F.stays from.old (option_map non_zero_usize_get o) from.new) }
{
    if from.take_none()? {
        return Ok(None);
    }
    let number = usize::deserialize(alloc, from)?;
    Ok(context_count(number))
}

/// Returns the number, or `None` for 0.
fn context_count(number: usize) -> Option<NonZeroUsize>
    ensures { option_map non_zero_usize_get result ≡ context_count (Some number) }
{
    NonZeroUsize::new(number)
}
