//! Reports that a log leaves out because they have no location, and the notes on them.

ghost use Rattle.std.specs.Prelude.{◌≡◌, ◌↔◌, ◌⊎◌, ◌++◌, ◌==◌, Err, IfOk, IsTrue, OnErr, OnOk, false, filter, map};
ghost use Rattle.std.specs.Prelude.{string_bytes};
ghost use Rattle.std.specs.List.{before_first, flat_map};
ghost use Rattle.std.specs.Io.KnownBytes.{Appends};
ghost use Rattle.miette_devices.specs.views.Device.{TakesBeginning};
ghost use Rattle.miette_tree.specs.views.Report.{tree_of};
ghost use Rattle.miette_show.specs.rules.Logging.{is_unplaced, is_logged, unplaced_note, unplaced_row};
ghost use Rattle.miette_show.specs.rules.Logging.{said_beside};

use crate::rows::pass_on;
use miette_devices::device::Device;
use miette_devices::fault::ProgramError;
use miette_devices::whole::write_whole;
use miette_protocol::protocol::Diagnostic;
use miette_protocol::source::SourceCode;
use miette_show_rows::verdict::RowKind;
use miette_tree::report::Report;
use std::alloc::{AllocError, Global};
use std::io::Write;

/// A part of the input.
#[derive(Clone, Copy)]
pub(crate) struct InputPart<'r> {
    /// The number of its first line, one-based.
    pub number: u64,
    /// Its kind.
    pub kind: RowKind,
    /// The bytes of its lines, with their ends.
    pub bytes: &'r [u8],
}

/// Returns whether a log leaves out a report: it has no location, and the log needs one (`placed`).
fn is_unplaced<D: Diagnostic, S: SourceCode>(placed: bool, report: &Report<D, S>) -> bool
    ensures { result ≡ is_unplaced placed (tree_of D.meaning S.source report.now) }
{
    match report.source_code() {
        Some(_) => false,
        None => placed,
    }
}

/// Returns the first line of a text.
fn first_row(text: &str) -> &str
    ensures { result.now ≡ before_first (λ b. b == 10) text.now }
{
    match text.split_once('\n') {
        Some((row, _)) => row,
        None => text,
    }
}

/// Returns the note on a report that is left out.
fn unplaced_row(alloc: Global, number: u64, message: &str) -> Result<String, AllocError>
    ensures { IfOk result (λ text. string_bytes text ≡ unplaced_row number message.now) }
{
    let row = first_row(message);
    format!(in alloc; "show: row {number}: not in the log, it has no place: {row}\n")
}

/// Appends the note on a report, if it is left out.
fn push_note<D: Diagnostic, S: SourceCode>(
    notes: &mut String,
    alloc: Global,
    placed: bool,
    number: u64,
    report: &Report<D, S>,
) -> Result<(), AllocError>
    ensures { OnOk result (string_bytes notes.new ≡ string_bytes notes.old
        ++ unplaced_note placed number (tree_of D.meaning S.source report.now)) }
{
    if !is_unplaced(placed, report) {
        return Ok(());
    }
    let row = unplaced_row(alloc, number, report.message())?;
    notes.push_str(row.as_str())
}

/// Returns the notes on all reports that are left out.
fn unplaced_notes<D: Diagnostic, S: SourceCode>(
    alloc: Global,
    placed: bool,
    number: u64,
    reports: &[Report<D, S>],
) -> Result<String, AllocError>
    ensures { IfOk result (λ text. string_bytes text
        ≡ flat_map (unplaced_note placed number) (map (tree_of D.meaning S.source) reports.now)) }
{
    let mut notes = String::new(alloc);
    for report in reports {
        push_note(&mut notes, alloc, placed, number, report)?;
    }
    Ok(notes)
}

/// Copies a part without messages to the error stream, and writes notes on the reports that are left out.
pub(crate) fn tell<D: Diagnostic, S: SourceCode, E: Write>(
    alloc: Global,
    faults: &mut Device<E>,
    placed: bool,
    part: InputPart<'_>,
    reports: &[Report<D, S>],
) -> Result<(), ProgramError>
    requires sound { faults.old.failed ≡ false }
    ensures told { OnOk result (Appends (E.contents faults.old.inner) (E.contents faults.new.inner)
        (said_beside placed part.entry.number part.entry.kind part.entry.bytes.now
        (map (tree_of D.meaning S.source) reports.now))) }
    ensures beginning { OnErr result (TakesBeginning (E.contents faults.old.inner) (E.contents faults.new.inner)
        (said_beside placed part.entry.number part.entry.kind part.entry.bytes.now
        (map (tree_of D.meaning S.source) reports.now))) }
    ensures failed { IsTrue faults.new.failed ↔ (result ≡ Err ProgramError.Write) }
    ensures others { OnErr result ((result ≡ Err ProgramError.Memory) ⊎ (result ≡ Err ProgramError.Write)) }
{
    let notes = unplaced_notes(alloc, placed, part.number, reports)?;
    pass_on(alloc, faults, part.number, part.kind, part.bytes)?;
    write_whole(faults, notes.as_bytes())
}

/// Returns the reports that aren't left out.
fn kept<D: Diagnostic, S: SourceCode>(placed: bool, reports: Vec<Report<D, S>>) -> Vec<Report<D, S>>
    ensures { map (tree_of D.meaning S.source) result.items
        ≡ filter (is_logged placed) (map (tree_of D.meaning S.source) reports.items) }
{
    let mut list = reports;
    list.retain(|it| !is_unplaced(placed, it));
    list
}

/// Appends all items.
fn push_all<T: Drop>(list: &mut Vec<T>, more: Vec<T>) -> Result<(), AllocError>
    ensures { OnOk result (list.new.items ≡ list.old.items ++ more.items) }
{
    let mut more = more;
    list.append(&mut more)
}

/// Appends the reports that aren't left out.
pub(crate) fn push_logged<D: Diagnostic, S: SourceCode>(
    list: &mut Vec<Report<D, S>>,
    placed: bool,
    reports: Vec<Report<D, S>>,
) -> Result<(), AllocError>
    ensures { OnOk result (map (tree_of D.meaning S.source) list.new.items
        ≡ map (tree_of D.meaning S.source) list.old.items
        ++ filter (is_logged placed) (map (tree_of D.meaning S.source) reports.items)) }
{
    push_all(list, kept(placed, reports))
}
