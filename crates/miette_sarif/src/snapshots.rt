//! Sources as they were read. Each source is read once, as a whole.

ghost use Rattle.std.specs.Prelude.{◌≡◌, ◌+◌, None, IfOk, OnOk, length, map};
ghost use Rattle.std.specs.Option.{option_map};
ghost use Rattle.miette_tree.specs.rules.Tree.{source_of};
ghost use Rattle.miette_tree.specs.views.Attachments.{section_of};
ghost use Rattle.miette_tree.specs.views.Owned.{ref_source};
ghost use Rattle.miette_tree.specs.views.Report.{tree_of};
ghost use Rattle.miette_sarif.specs.rules.Marks.{area_over, place_in};
ghost use Rattle.miette_sarif.specs.rules.SourceSnapshot.{count_own};
ghost use Rattle.miette_sarif.specs.steps.SnapshotReads.{IsSnapshot, AreFurtherSnapshots, IsOwnSnapshot, seen_first};
ghost use Rattle.miette_sarif.specs.views.Findings.{area_of, source_name_of, place_of};
ghost use Rattle.miette_sarif.specs.views.Sources.{over_of, snapshot_of};

use crate::finding::{PhysicalLocation, SarifRegion, SourceId};
use crate::whole::WholeText;
use miette_lines::sums::sum;
use miette_protocol::protocol::{Diagnostic, SourceSpan};
use miette_protocol::source::SourceCode;
use miette_tree::report::{Report, Snippets, SourceRef};
use std::alloc::{AllocError, Global};

/// A source that was read. If the read failed, it has no name and no text.
#[derive(Drop)]
pub(crate) struct SourceSnapshot<'a> {
    pub(crate) source: SourceId<'a>,
    pub(crate) text: Option<WholeText<'a>>,
}

// Reads a source. `number` sources were read before it.
fn take_snapshot<'a, S: SourceCode>(
    alloc: Global,
    number: usize,
    source: SourceRef<'a, S>,
) -> Result<SourceSnapshot<'a>, AllocError>
    ensures { IfOk result (λ it. IsSnapshot number (ref_source S.source source.entry) (snapshot_of it)) }
{
    match source.read_span(&SourceSpan::from(0), 0, usize::MAX) {
        Ok(contents) => {
            let text = WholeText::new(alloc, contents.data())?;
            let name = contents.name().unwrap_or("");
            Ok(SourceSnapshot {
                source: SourceId { name, number },
                text: Some(text),
            })
        }
        Err(_) => Ok(SourceSnapshot {
            source: SourceId { name: "", number },
            text: None,
        }),
    }
}

// Reads a source and increments the count.
fn take_next_snapshot<'a, S: SourceCode>(
    alloc: Global,
    sources: &mut usize,
    source: SourceRef<'a, S>,
) -> Result<SourceSnapshot<'a>, AllocError>
    ensures seen { IfOk result (λ it. IsSnapshot sources.old (ref_source S.source source.entry) (snapshot_of it)) }
    ensures counted { OnOk result (sources.new ≡ sources.old + 1) }
{
    let next = sum(*sources, 1)?;
    let seen = take_snapshot(alloc, *sources, source)?;
    *sources = next;
    Ok(seen)
}

/// Reads the source of a report, if it has one.
pub(crate) fn take_own_snapshot<'a, D: Diagnostic, S: SourceCode>(
    alloc: Global,
    sources: &mut usize,
    report: &'a Report<D, S>,
) -> Result<Option<SourceSnapshot<'a>>, AllocError>
    ensures seen { IfOk result (λ it. IsOwnSnapshot sources.old (source_of (tree_of D.meaning S.source report.now))
        (option_map snapshot_of it)) }
    ensures counted { OnOk result (sources.new
        ≡ sources.old + count_own (source_of (tree_of D.meaning S.source report.now))) }
{
    match report.source_code() {
        Some(source) => {
            let seen = take_next_snapshot(alloc, sources, source)?;
            Ok(Some(seen))
        }
        None => Ok(None),
    }
}

/// Returns the report's own source, else the inherited one.
pub(crate) fn own_or<'s, 'a>(
    own: &'s Option<SourceSnapshot<'a>>,
    inherited: Option<&'s SourceSnapshot<'a>>,
) -> Option<&'s SourceSnapshot<'a>>
    ensures { over_of result ≡ seen_first (option_map snapshot_of own.now) (over_of inherited.entry) }
{
    match own {
        Some(own) => Some(own),
        None => inherited,
    }
}

/// Reads further sources.
pub(crate) fn take_further_snapshots<'a, S: SourceCode>(
    alloc: Global,
    sources: &mut usize,
    sections: &'a [Snippets<S>],
) -> Result<Vec<SourceSnapshot<'a>>, AllocError>
    ensures seen { IfOk result (λ list. AreFurtherSnapshots sources.old (map (section_of S.source) sections.now)
        (map snapshot_of list.items)) }
    ensures counted { OnOk result (sources.new ≡ sources.old + length sections.now) }
{
    let mut list = Vec::with_capacity(alloc, sections.len())?;
    for section in sections {
        let seen = take_next_snapshot(alloc, sources, section.source())?;
        list.push(seen)?;
    }
    Ok(list)
}

// Region of a span in a text, or `None` without a text.
fn area_over<'a>(text: &Option<WholeText<'a>>, span: SourceSpan) -> Option<SarifRegion<'a>>
    ensures { option_map area_of result ≡ area_over text.now span }
{
    match text {
        Some(text) => text.area(span),
        None => None,
    }
}

impl<'a> SourceSnapshot<'a> {
    /// Location of a span.
    pub(crate) fn place(&self, span: SourceSpan) -> PhysicalLocation<'a>
        ensures { place_of result ≡ place_in (snapshot_of self.now) span }
    {
        PhysicalLocation {
            source: self.source,
            area: area_over(&self.text, span),
        }
    }

    /// Location of the source without a region.
    pub(crate) fn without_region(&self) -> PhysicalLocation<'a>
        ensures { place_of result ≡ record { source = source_name_of self.now.source; area = None } }
    {
        PhysicalLocation {
            source: self.source,
            area: None,
        }
    }
}
