//! Finds the labels of each line by one pass over all labels, sorted by offset.

ghost use Rattle.std.specs.Prelude.{◌≡◌, OnOk, drop, suc};
ghost use Rattle.std.specs.List.{filter};
ghost use Rattle.miette_narrated.specs.steps.LabelSweep.{reaches, IsSweptTo, BeginsFrom};

use crate::label_order::LabelOrder;
use miette_labels::placed::PlacedLabel;
use std::alloc::{AllocError, Global};

/// The state of the pass: the offset it has reached, how many labels it has visited, and the visited labels that don't
/// end before the offset.
#[derive(Debug, Drop)]
pub(crate) struct ReachSweep<'a> {
    pub(crate) at: usize,
    pub(crate) next: usize,
    pub(crate) running: Vec<PlacedLabel<'a>>,
}

/// The sorted labels of a source, and a pass over them.
#[derive(Drop)]
pub(crate) struct LabelWalk<'a> {
    pub(crate) order: LabelOrder<'a>,
    pub(crate) sweep: ReachSweep<'a>,
}

/// Removes the labels that end before an offset.
fn keep_reaching(running: &mut Vec<PlacedLabel<'_>>, place: usize)
    ensures { running.new.items ≡ filter (reaches place) running.old.items }
{
    running.retain(|label| place <= label.after);
}

/// Adds the labels that begin at `last` or before, unless they end before the pass's offset.
fn take_labels_to<'a>(
    labels: &[PlacedLabel<'a>],
    last: usize,
    sweep: &mut ReachSweep<'a>,
) -> Result<(), AllocError>
    requires { IsSweptTo labels.now sweep.old.at sweep.old.next sweep.old.running.items }
    ensures place { sweep.new.at ≡ sweep.old.at }
    ensures at { OnOk result (IsSweptTo labels.now sweep.new.at sweep.new.next sweep.new.running.items) }
    ensures end { OnOk result (BeginsFrom (suc last) (drop sweep.new.next labels.now)) }
{
    while let Some(label) = labels.get(sweep.next) {
        if last < label.start {
            return Ok(());
        }
        if sweep.at <= label.after {
            sweep.running.push(*label)?;
        }
        sweep.next += 1;
    }
    Ok(())
}

/// Moves the pass to a line that begins at `place`. Afterwards `running` has the labels that begin at `last` or before
/// and don't end before `place`.
pub(crate) fn advance_to<'a>(
    alloc: Global,
    labels: &[PlacedLabel<'a>],
    place: usize,
    last: usize,
    sweep: &mut ReachSweep<'a>,
) -> Result<(), AllocError>
    requires { IsSweptTo labels.now sweep.old.at sweep.old.next sweep.old.running.items }
    ensures place { OnOk result (sweep.new.at ≡ place) }
    ensures at { OnOk result (IsSweptTo labels.now sweep.new.at sweep.new.next sweep.new.running.items) }
    ensures end { OnOk result (BeginsFrom (suc last) (drop sweep.new.next labels.now)) }
{
    if place < sweep.at {
        sweep.running = Vec::new(alloc);
        sweep.next = 0;
        sweep.at = place;
        return take_labels_to(labels, last, sweep);
    }
    keep_reaching(&mut sweep.running, place);
    sweep.at = place;
    take_labels_to(labels, last, sweep)
}
