//! The reports of all parts of the input, in order.

ghost use Rattle.std.specs.Prelude.{◌≡◌, ◌↔◌, ◌⊎◌, ◌+◌, Err, IfOk, IfSome, IsTrue, OnErr, OnOk, false, map};
ghost use Rattle.std.specs.List.{All, list_any};
ghost use Rattle.std.specs.Io.KnownBytes.{Appends};
ghost use Rattle.miette_devices.specs.views.Device.{TakesBeginning};
ghost use Rattle.miette_tree.specs.rules.Reads.{AlwaysReads};
ghost use Rattle.miette_tree.specs.views.Report.{tree_of};
ghost use Rattle.miette_show.specs.rules.Logging.{IsRowTrees};
ghost use Rattle.miette_show_rows.specs.rules.Looking.{Goes};
ghost use Rattle.miette_show_rows.specs.rules.Parts.{count_row_ends, parts_of};
ghost use Rattle.miette_show.specs.rules.ShownRow.{is_error_tree};
ghost use Rattle.miette_show.specs.views.LoggedRow.{AreKnown, AreLogged, AreLoggedFirst};
ghost use Rattle.miette_show_rows.specs.views.Reading.{left_of};

use crate::rows::{InputRow, either, is_error};
use crate::unplaced_reports::{InputPart, push_logged, tell};
use crate::value_kinds::{begins_message, is_missing, reports_of_value, value_kind};
use crate::words::Format;
use miette_devices::device::Device;
use miette_devices::fault::ProgramError;
use miette_protocol::diagnostic::MietteDiagnostic;
use miette_protocol::protocol::Diagnostic;
use miette_protocol::source::SourceCode;
use miette_read::files::{BorrowedFile, Files};
use miette_read::lists::push_item;
use miette_read::rustc::ReadError;
use miette_show_rows::loader::{FileLoader, load_named_files};
use miette_show_rows::parts::count_row_ends;
use miette_show_rows::row_reader::RowReader;
use miette_show_rows::value::parse_value;
use miette_show_rows::verdict::{RowKind, Verdict};
use miette_tree::report::Report;
use std::alloc::Global;
use std::io::{Read, Write};

/// The parts of the input.
#[derive(Drop)]
pub struct InputParts {
    /// The input format.
    pub from: Format,
    /// Whether the log leaves out reports without a location.
    pub placed: bool,
    /// The bytes of each part, with the ends of its lines.
    pub parts: Vec<Vec<u8>>,
}

/// Reads all remaining parts.
pub fn read_parts<R: Read>(
    alloc: Global,
    rows: &mut RowReader<R>,
) -> Result<Vec<Vec<u8>>, ProgramError>
    requires sound { rows.old.failed ≡ false }
    ensures parts { IfOk result (λ list. IfSome (left_of R.remaining rows.old)
        (λ bytes. map (λ part. part.items) list.items ≡ parts_of bytes)) }
    ensures failed { IsTrue rows.new.failed ↔ (result ≡ Err ProgramError.Read) }
    ensures others { OnErr result ((result ≡ Err ProgramError.Read) ⊎ (result ≡ Err ProgramError.Memory)) }
{
    let mut row = Vec::new(alloc);
    let mut parts = Vec::new(alloc);
    for _ in 0..u64::MAX {
        let mut part = Vec::new(alloc);
        rows.next_part(1, &mut row, &mut part)?;
        if part.is_empty() {
            return Ok(parts);
        }
        push_item(&mut parts, part)?;
    }
    Err(ProgramError::Memory)
}

/// Looks up all files that a part names.
fn load_part<F: FileLoader>(
    alloc: Global,
    files: &mut F,
    row: InputRow<'_>,
) -> Result<(), ProgramError>
    ensures known { OnOk result (AreKnown row.entry.from (F.knows files.new) row.entry.bytes.now) }
    ensures goes { Goes (F.found files.old) (F.knows files.old) (F.found files.new) (F.knows files.new) }
    ensures others { OnErr result (result ≡ Err ProgramError.Memory) }
{
    if !begins_message(row.from, row.bytes) {
        return Ok(());
    }
    match parse_value(alloc, row.bytes)? {
        Some(value) => Ok(load_named_files(alloc, files, &value)?),
        None => Ok(()),
    }
}

/// Looks up all files that the parts name.
pub fn load_part_files<F: FileLoader>(
    alloc: Global,
    files: &mut F,
    held: &InputParts,
) -> Result<(), ProgramError>
    ensures known { OnOk result (All (AreKnown held.now.from (F.knows files.new))
        (map (λ part. part.items) held.now.parts.items)) }
    ensures goes { Goes (F.found files.old) (F.knows files.old) (F.found files.new) (F.knows files.new) }
    ensures others { OnErr result (result ≡ Err ProgramError.Memory) }
{
    for part in held.parts.as_slice() {
        let row = InputRow {
            from: held.from,
            bytes: part.as_slice(),
        };
        load_part(alloc, files, row)?;
    }
    Ok(())
}

/// Returns whether one of these reports is an error.
fn any_error<D: Diagnostic, S: SourceCode>(reports: &[Report<D, S>]) -> bool
    ensures { result ≡ list_any is_error_tree (map (tree_of D.meaning S.source) reports.now) }
{
    reports.iter().any(|it| is_error(it.severity()))
}

/// Returns the kind of a part and its reports.
fn part_reports<'f, F: Files>(
    alloc: Global,
    files: &'f F,
    row: InputRow<'_>,
) -> Result<(RowKind, Vec<Report<MietteDiagnostic, BorrowedFile<'f>>>), ProgramError>
    ensures trees { IfOk result (λ it. IsRowTrees row.entry.from (F.found files.now) row.entry.bytes.now it.0
        (map (tree_of ⟦<MietteDiagnostic as Diagnostic>⟧.meaning
        ⟦<BorrowedFile<'f> as SourceCode>⟧.source) it.1.items)) }
    ensures reads { IfOk result (λ it. All AlwaysReads
        (map (tree_of ⟦<MietteDiagnostic as Diagnostic>⟧.meaning
        ⟦<BorrowedFile<'f> as SourceCode>⟧.source) it.1.items)) }
    ensures others { OnErr result (result ≡ Err ProgramError.Memory) }
{
    if !begins_message(row.from, row.bytes) {
        return Ok((RowKind::Passed, Vec::new(alloc)));
    }
    let Some(value) = parse_value(alloc, row.bytes)? else {
        return Ok((RowKind::Unread, Vec::new(alloc)));
    };
    match reports_of_value(alloc, row.from, files, &value) {
        Ok(reports) => {
            let grave = any_error(reports.as_slice());
            Ok((value_kind(row.from, &value, grave), reports))
        }
        Err(ReadError::NoMessage) => Ok((RowKind::Unread, Vec::new(alloc))),
        Err(ReadError::Memory) => Err(ProgramError::Memory),
    }
}

/// Returns the number of the line after a part. `number` is that of the part's first line.
fn number_after(number: u64, part: &[u8]) -> Result<u64, ProgramError>
    ensures value { IfOk result (λ following. following ≡ number + count_row_ends part.now) }
    ensures others { OnErr result (result ≡ Err ProgramError.Memory) }
{
    number
        .checked_add(count_row_ends(part))
        .ok_or(ProgramError::Memory)
}

/// Returns the verdict, and the reports that go to a log, in order. Copies other lines to the error stream, and writes
/// notes on reports that are left out.
pub fn reports_of_parts<'f, F: Files, E: Write>(
    alloc: Global,
    files: &'f F,
    faults: &mut Device<E>,
    held: &InputParts,
) -> Result<(Verdict, Vec<Report<MietteDiagnostic, BorrowedFile<'f>>>), ProgramError>
    requires sound { faults.old.failed ≡ false }
    ensures ok { IfOk result (λ it. AreLogged held.now.from held.now.placed (F.found files.now)
        (map (λ part. part.items) held.now.parts.items) (λ ts notes.
        (map (tree_of ⟦<MietteDiagnostic as Diagnostic>⟧.meaning ⟦<BorrowedFile<'f> as SourceCode>⟧.source) it.1.items
        ≡ ts)
        × Appends (E.contents faults.old.inner) (E.contents faults.new.inner) notes) it.0) }
    ensures reads { IfOk result (λ it. All AlwaysReads
        (map (tree_of ⟦<MietteDiagnostic as Diagnostic>⟧.meaning
        ⟦<BorrowedFile<'f> as SourceCode>⟧.source) it.1.items)) }
    // After an error, the error stream has the start of that.
    ensures beginning { OnErr result (AreLoggedFirst held.now.from held.now.placed (F.found files.now)
        (map (λ part. part.items) held.now.parts.items)
        (TakesBeginning (E.contents faults.old.inner) (E.contents faults.new.inner))) }
    ensures failed { IsTrue faults.new.failed ↔ (result ≡ Err ProgramError.Write) }
    ensures others { OnErr result ((result ≡ Err ProgramError.Memory) ⊎ (result ≡ Err ProgramError.Write)) }
{
    let mut list = Vec::new(alloc);
    let mut verdict = Verdict::none();
    let mut seen = false;
    let mut number: u64 = 1;
    for part in held.parts.as_slice() {
        let row = InputRow {
            from: held.from,
            bytes: part.as_slice(),
        };
        let (kind, reports) = part_reports(alloc, files, row)?;
        let told = InputPart {
            number,
            kind,
            bytes: row.bytes,
        };
        tell(alloc, faults, held.placed, told, reports.as_slice())?;
        push_logged(&mut list, held.placed, reports)?;
        verdict = verdict.with(kind);
        seen = either(seen, kind.is_read());
        let following = number_after(number, row.bytes)?;
        number = following;
    }
    Ok((verdict.with_missing(is_missing(held.from, seen)), list))
}
