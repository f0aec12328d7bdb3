//! Finds the labels of each line by one sweep over labels that are sorted by offset.

ghost use Rattle.std.specs.Prelude.{◌≡◌, ◌<◌, [], OnOk, IfOk};
ghost use Rattle.std.specs.List.{filter};
ghost use Rattle.miette_labels.specs.views.Sweeping.{passes, is_one, IsAt, IsOn, AreSorted};
ghost use Rattle.miette_lines.specs.views.Walking.{line_of_text};

use crate::placed::PlacedLabel;
use miette_lines::lines::LineOfText;
use std::alloc::{AllocError, Global};

/// The state of a sweep between two lines.
#[derive(Debug, Drop)]
pub struct Sweep<'a> {
    /// The labels that began before this position and continue past it, sorted by offset.
    pub running: Vec<PlacedLabel<'a>>,
    /// How many labels began before this position. It is the index of the next label.
    pub next: usize,
    /// The labels that are on the last line only, sorted by offset.
    pub alone: Vec<PlacedLabel<'a>>,
}

// Whether a label continues past an offset.
fn goes_past(label: &PlacedLabel<'_>, place: usize) -> bool
    ensures { result ≡ passes place label.now }
{
    if label.start == label.after {
        label.start >= place
    } else {
        label.after > place
    }
}

impl<'a> Sweep<'a> {
    /// Creates a sweep before the first label.
    pub fn new(alloc: Global) -> Self
        ensures next { result.next ≡ 0 }
        ensures running { result.running.items ≡ [] }
    {
        Sweep {
            running: Vec::new(alloc),
            next: 0,
            alone: Vec::new(alloc),
        }
    }

    /// Returns a sweep at the same position that has not entered a line yet. Returns `AllocError` if allocation fails.
    pub fn copy(&self, alloc: Global) -> Result<Sweep<'a>, AllocError>
        ensures next { IfOk result (λ copy. copy.next ≡ self.now.next) }
        ensures running { IfOk result (λ copy. copy.running.items ≡ self.now.running.items) }
    {
        Ok(Sweep {
            running: copy_of(alloc, &self.running)?,
            next: self.next,
            alone: Vec::new(alloc),
        })
    }

    /// Returns to the position of another sweep over the same labels.
    pub fn return_to(&mut self, place: Sweep<'a>)
        ensures next { self.new.next ≡ place.entry.next }
        ensures running { self.new.running.items ≡ place.entry.running.items }
    {
        self.running = place.running;
        self.next = place.next;
    }

    /// Advances to the next line. Afterwards `running` has the multi-line labels on it, and `alone` the labels that are
    /// on this line only. Returns `AllocError` if allocation fails; the position is then unspecified.
    pub fn enter(&mut self, labels: &[PlacedLabel<'a>], line: &LineOfText) -> Result<(), AllocError>
        requires sorted { AreSorted labels.now }
        requires some { line.now.start < line.now.end }
        requires at { IsAt labels.now line.now.start self.old.next self.old.running.items }
        ensures alone { OnOk result (self.new.alone.items ≡ filter (is_one (line_of_text line.now)) labels.now) }
        ensures on { OnOk result (IsOn labels.now (line_of_text line.now) self.new.next self.new.running.items) }
    {
        self.alone.clear();
        let mut next = self.next;
        while next < labels.len() && labels[next].start < line.end {
            let label = labels[next];
            if goes_past(&label, line.end) {
                self.running.push(label)?;
            } else {
                self.alone.push(label)?;
            }
            next += 1;
        }
        self.next = next;
        Ok(())
    }

    /// Leaves the line that ends at `after`. Keeps the labels in `running` that continue past it.
    pub fn leave(&mut self, after: usize)
        ensures next { self.new.next ≡ self.old.next }
        ensures running { self.new.running.items ≡ filter (passes after) self.old.running.items }
    {
        self.running.retain(|label| goes_past(label, after));
    }
}

fn copy_of<'a>(
    alloc: Global,
    labels: &[PlacedLabel<'a>],
) -> Result<Vec<PlacedLabel<'a>>, AllocError>
    ensures { IfOk result (λ copy. copy.items ≡ labels.now) }
{
    let mut copy = Vec::with_capacity(alloc, labels.len())?;
    for label in labels {
        copy.push(*label)?;
    }
    Ok(copy)
}
