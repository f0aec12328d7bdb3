//! Collects the findings of reports and of their related reports, depth first.

ghost use Rattle.std.specs.Prelude.{◌≡◌, ◌+◌, ◌++◌, ◌∷◌, [], IfOk, OnOk, length, map};
ghost use Rattle.std.specs.Option.{option_map};
ghost use Rattle.miette_tree.specs.rules.Tree.{cause_of, head, source_of, trees};
ghost use Rattle.miette_tree.specs.views.Report.{tree_of};
ghost use Rattle.miette_sarif.specs.rules.FindingList.{AreFindingsOf};
ghost use Rattle.miette_sarif.specs.rules.Marks.{group_over, source_labels_of};
ghost use Rattle.miette_sarif.specs.rules.Proposals.{proposal_over};
ghost use Rattle.miette_sarif.specs.rules.SourceSnapshot.{count_causes, count_own};
ghost use Rattle.miette_sarif.specs.steps.Gathering.{AddsFindings, AddsAllFindings, AddsCause, AddsCauses, AddsMarks};
ghost use Rattle.miette_sarif.specs.steps.Gathering.{AddsOver};
ghost use Rattle.miette_sarif.specs.steps.Gathering.{IsFindingOf, with_fix, with_fixes};
ghost use Rattle.miette_sarif.specs.views.FindingParts.{collected_of, gathered_of};
ghost use Rattle.miette_sarif.specs.views.Findings.{finding_of, sarif_findings_of, mark_of};
ghost use Rattle.miette_sarif.specs.views.Grouped.{groups_in, labels_in};
ghost use Rattle.miette_sarif.specs.views.Sources.{over_of, snapshot_of};

use crate::edits::proposal_over;
use crate::finding::{Finding, Proposal, SarifLocation};
use crate::labels::{SourceLabels, primary_or, push_groups, sort, take_primary};
use crate::report_texts::report_texts_of;
use crate::snapshots::{SourceSnapshot, own_or, take_further_snapshots, take_own_snapshot};
use miette_fixes::fix::Fix;
use miette_protocol::protocol::{Diagnostic, LabeledSpan};
use miette_protocol::source::SourceCode;
use miette_tree::parts::labels_of;
use miette_tree::report::{Cause, Report};
use std::alloc::{AllocError, Global};

// Findings, and the number of sources that were read for them.
#[derive(Drop)]
struct FindingList<'a> {
    findings: Vec<Finding<'a>>,
    sources: usize,
}

// Locations and fixes of a report and its causes.
#[derive(Drop)]
struct FindingParts<'a> {
    locations: Vec<SarifLocation<'a>>,
    fixes: Vec<Proposal<'a>>,
    unapplied: Vec<&'a str>,
}

// Returns references to labels, in the given order.
fn listed<'a>(alloc: Global, labels: &'a [LabeledSpan]) -> Result<Vec<&'a LabeledSpan>, AllocError>
    ensures { IfOk result (λ list. labels_in list.items ≡ labels.now) }
{
    let mut list = Vec::with_capacity(alloc, labels.len())?;
    for label in labels {
        list.push(label)?;
    }
    Ok(list)
}

// Appends the labels of a source (or of none), sorted by offset.
fn push_labels<'s, 'a>(
    groups: &mut Vec<SourceLabels<'s, 'a>>,
    alloc: Global,
    seen: Option<&'s SourceSnapshot<'a>>,
    labels: &'a [LabeledSpan],
) -> Result<(), AllocError>
    ensures { OnOk result (groups_in groups.new.items ≡ groups_in groups.old.items
        ++ group_over (over_of seen.entry) labels.now ∷ []) }
{
    let mut labels = listed(alloc, labels)?;
    sort(&mut labels)?;
    groups.push(SourceLabels { seen, labels })?;
    Ok(())
}

// Returns the labels of a report: those of its source, then those of each further one, each sorted by offset.
fn source_labels_of<'s, 'a, D: Diagnostic, S: SourceCode>(
    alloc: Global,
    report: &'a Report<D, S>,
    seen: Option<&'s SourceSnapshot<'a>>,
    further: &'s [SourceSnapshot<'a>],
) -> Result<Vec<SourceLabels<'s, 'a>>, AllocError>
    ensures { IfOk result (λ groups. groups_in groups.items ≡ source_labels_of (over_of seen.entry)
        (map snapshot_of further.now) (head (tree_of D.meaning S.source report.now))) }
{
    let sections = report.further_snippets();
    let mut groups = Vec::with_capacity(alloc, sections.len())?;
    push_labels(&mut groups, alloc, seen, labels_of(report))?;
    let mut left = further;
    for section in sections {
        let [seen, rest @ ..] = left else {
            return Ok(groups);
        };
        push_labels(&mut groups, alloc, Some(seen), section.labels())?;
        left = rest;
    }
    Ok(groups)
}

// Appends a fix, or its message if it can't be applied.
fn push_fix<'a>(
    collected: &mut FindingParts<'a>,
    alloc: Global,
    fix: &'a Fix,
    seen: Option<&SourceSnapshot<'a>>,
) -> Result<(), AllocError>
    ensures { OnOk result (collected_of collected.new
        ≡ with_fix (proposal_over (over_of seen.entry) fix.now) fix.now.message (collected_of collected.old)) }
{
    match proposal_over(alloc, fix, seen)? {
        Some(proposal) => collected.fixes.push(proposal)?,
        None => collected.unapplied.push(fix.message())?,
    }
    Ok(())
}

// Appends fixes, and the messages of those that can't be applied.
fn push_fixes<'a>(
    collected: &mut FindingParts<'a>,
    alloc: Global,
    fixes: &'a [Fix],
    seen: Option<&SourceSnapshot<'a>>,
) -> Result<(), AllocError>
    ensures { OnOk result (collected_of collected.new
        ≡ with_fixes (over_of seen.entry) fixes.now (collected_of collected.old)) }
{
    for fix in fixes {
        push_fix(collected, alloc, fix, seen)?;
    }
    Ok(())
}

// Adds the labels and fixes of a cause over this source.
fn push_cause<'a, D: Diagnostic, S: SourceCode>(
    collected: &mut FindingParts<'a>,
    alloc: Global,
    cause: &'a Report<D, S>,
    seen: Option<&SourceSnapshot<'a>>,
    sources: &mut usize,
) -> Result<(), AllocError>
    ensures added { OnOk result (AddsOver (over_of seen.entry) sources.old
        (head (tree_of D.meaning S.source cause.now)) (collected_of collected.old) (collected_of collected.new)) }
    ensures counted { OnOk result (sources.new
        ≡ sources.old + length (head (tree_of D.meaning S.source cause.now)).snippets) }
{
    let further = take_further_snapshots(alloc, sources, cause.further_snippets())?;
    let groups = source_labels_of(alloc, cause, seen, &further)?;
    push_groups(&mut collected.locations, groups)?;
    push_fixes(collected, alloc, cause.fixes(), seen)
}

// Adds the labels and fixes of a cause. It uses its own source, else `seen`.
fn push_own_cause<'a, D: Diagnostic, S: SourceCode>(
    collected: &mut FindingParts<'a>,
    alloc: Global,
    cause: &'a Report<D, S>,
    seen: Option<&SourceSnapshot<'a>>,
    sources: &mut usize,
) -> Result<(), AllocError>
    ensures added { OnOk result (AddsCause (over_of seen.entry) sources.old (tree_of D.meaning S.source cause.now)
        (collected_of collected.old) (collected_of collected.new)) }
    ensures counted { OnOk result (sources.new ≡ sources.old
        + count_own (source_of (tree_of D.meaning S.source cause.now))
        + length (head (tree_of D.meaning S.source cause.now)).snippets) }
{
    let own = take_own_snapshot(alloc, sources, cause)?;
    let over = own_or(&own, seen);
    push_cause(collected, alloc, cause, over, sources)
}

// Adds the labels and fixes of all causes of a report. Each uses its own source, else `seen`.
fn push_causes<'a, D: Diagnostic, S: SourceCode>(
    collected: &mut FindingParts<'a>,
    alloc: Global,
    report: &'a Report<D, S>,
    seen: Option<&SourceSnapshot<'a>>,
    sources: &mut usize,
) -> Result<(), AllocError>
    ensures added { OnOk result (AddsCauses (over_of seen.entry) sources.old
        (cause_of (tree_of D.meaning S.source report.now)) (collected_of collected.old)
        (collected_of collected.new)) }
    ensures counted { OnOk result (sources.new
        ≡ sources.old + count_causes (cause_of (tree_of D.meaning S.source report.now))) }
{
    let mut at = report;
    while let Cause::Diagnostic(cause) = at.cause() {
        push_own_cause(collected, alloc, cause, seen, sources)?;
        at = cause;
    }
    Ok(())
}

// Appends the locations of a report's labels, without the primary one. Returns the primary location.
fn push_own_marks<'a, D: Diagnostic, S: SourceCode>(
    locations: &mut Vec<SarifLocation<'a>>,
    alloc: Global,
    report: &'a Report<D, S>,
    seen: Option<&SourceSnapshot<'a>>,
    sources: &mut usize,
) -> Result<Option<SarifLocation<'a>>, AllocError>
    ensures added { IfOk result (λ primary. AddsMarks (over_of seen.entry) sources.old
        (head (tree_of D.meaning S.source report.now)) (option_map mark_of primary)
        (map mark_of locations.old.items) (map mark_of locations.new.items)) }
    ensures counted { OnOk result (sources.new
        ≡ sources.old + length (head (tree_of D.meaning S.source report.now)).snippets) }
{
    let further = take_further_snapshots(alloc, sources, report.further_snippets())?;
    let mut groups = source_labels_of(alloc, report, seen, &further)?;
    let primary = primary_or(take_primary(&mut groups), seen);
    push_groups(locations, groups)?;
    Ok(primary)
}

// Returns the finding of a report with this source.
fn finding_of<'a, D: Diagnostic, S: SourceCode>(
    alloc: Global,
    report: &'a Report<D, S>,
    seen: Option<&SourceSnapshot<'a>>,
    sources: &mut usize,
) -> Result<Finding<'a>, AllocError>
    ensures found { IfOk result (λ it. IsFindingOf (over_of seen.entry) sources.old
        (tree_of D.meaning S.source report.now) (finding_of it)) }
    ensures counted { OnOk result (sources.new
        ≡ sources.old + length (head (tree_of D.meaning S.source report.now)).snippets
        + count_causes (cause_of (tree_of D.meaning S.source report.now))) }
{
    let mut collected = FindingParts {
        locations: Vec::new(alloc),
        fixes: Vec::new(alloc),
        unapplied: Vec::new(alloc),
    };
    let primary = push_own_marks(&mut collected.locations, alloc, report, seen, sources)?;
    push_fixes(&mut collected, alloc, report.fixes(), seen)?;
    push_causes(&mut collected, alloc, report, seen, sources)?;
    let report_texts = report_texts_of(alloc, report)?;
    let FindingParts {
        locations,
        fixes,
        unapplied,
    } = collected;
    Ok(Finding {
        report_texts,
        primary,
        locations,
        fixes,
        unapplied,
    })
}

// Adds the findings of a report and its related reports. `inherited` is the source of the report above.
#[cycle(related)]
fn gather<'a, D: Diagnostic, S: SourceCode>(
    gathered: &mut FindingList<'a>,
    alloc: Global,
    report: &'a Report<D, S>,
    inherited: Option<&SourceSnapshot<'a>>,
) -> Result<(), AllocError>
    ensures { OnOk result (AddsFindings (over_of inherited.entry) (tree_of D.meaning S.source report.now)
        (gathered_of gathered.old) (gathered_of gathered.new)) }
{
    let own = take_own_snapshot(alloc, &mut gathered.sources, report)?;
    let seen = own_or(&own, inherited);
    let finding = finding_of(alloc, report, seen, &mut gathered.sources)?;
    gathered.findings.push(finding)?;
    gather_all(gathered, alloc, report.related(), seen)
}

// Adds the findings of reports and their related reports. `inherited` is the source of the report above.
#[cycle(related)]
fn gather_all<'a, D: Diagnostic, S: SourceCode>(
    gathered: &mut FindingList<'a>,
    alloc: Global,
    reports: &'a [Report<D, S>],
    inherited: Option<&SourceSnapshot<'a>>,
) -> Result<(), AllocError>
    ensures { OnOk result (AddsAllFindings (over_of inherited.entry)
        (trees (map (tree_of D.meaning S.source) reports.now))
        (gathered_of gathered.old) (gathered_of gathered.new)) }
{
    for report in reports {
        gather(gathered, alloc, report, inherited)?;
    }
    Ok(())
}

/// Returns the findings of reports and their related reports, depth first.
pub fn sarif_findings_of<'a, D: Diagnostic, S: SourceCode>(
    alloc: Global,
    reports: &'a [Report<D, S>],
) -> Result<Vec<Finding<'a>>, AllocError>
    ensures { IfOk result (λ list. AreFindingsOf (trees (map (tree_of D.meaning S.source) reports.now))
        (sarif_findings_of list.items)) }
{
    let mut gathered = FindingList {
        findings: Vec::new(alloc),
        sources: 0,
    };
    gather_all(&mut gathered, alloc, reports, None)?;
    Ok(gathered.findings)
}

/// Returns the findings of one report and its related reports, depth first.
pub fn sarif_findings_of_one<'a, D: Diagnostic, S: SourceCode>(
    alloc: Global,
    report: &'a Report<D, S>,
) -> Result<Vec<Finding<'a>>, AllocError>
    ensures { IfOk result (λ list. AreFindingsOf (trees (tree_of D.meaning S.source report.now ∷ []))
        (sarif_findings_of list.items)) }
{
    let mut gathered = FindingList {
        findings: Vec::new(alloc),
        sources: 0,
    };
    gather(&mut gathered, alloc, report, None)?;
    Ok(gathered.findings)
}
