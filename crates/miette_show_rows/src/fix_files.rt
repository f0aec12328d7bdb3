//! The program `show --fix`, over any reader, writers and files.

ghost use Rattle.std.specs.Prelude.{◌≡◌, ◌⊎◌, ◌↔◌, ◌++◌, List, Option, Err, IfOk, IfSome, IsTrue, OnErr, false};
ghost use Rattle.std.specs.Prelude.{option_to_list, true};
ghost use Rattle.std.specs.List.{flat_map};
ghost use Rattle.std.specs.Io.KnownBytes.{Appends};
ghost use Rattle.miette_devices.specs.views.Device.{TakesBeginning};
ghost use Rattle.miette_show_rows.specs.rules.ApplicableFixes.{RowFixes};
ghost use Rattle.miette_show_rows.specs.rules.Looking.{Goes, IsFoundBy};
ghost use Rattle.miette_show_rows.specs.rules.FixesFiles.{LinesGiveFixes, FirstLinesGiveFixes, IsGiving, FixesFiles};
ghost use Rattle.miette_show_rows.specs.rules.FixesFiles.{FixesFirstFiles, are_all_written};
ghost use Rattle.miette_show_rows.specs.rules.FixesFiles.{change_faults, change_row, written_by_change};
ghost use Rattle.miette_show_rows.specs.rules.Statuses.{status_of};
ghost use Rattle.miette_show_rows.specs.views.Reading.{left_of};
ghost use Rattle.miette_show_rows.specs.views.Writing.{Writes};

use crate::applicable_fixes::machine_applicable_fixes;
use crate::loader::{FileLoader, load_listed_files, load_named_files};
use crate::rewrite::write_selected;
use crate::row_fixes::RowFixes;
use crate::row_reader::RowReader;
use crate::selected_fixes::SelectedFixes;
use crate::store::FileStore;
use crate::streams::{ShowStreams, note_unread_row};
use crate::value::{begins_object, parse_value};
use crate::verdict::{RowKind, Verdict};
use miette_devices::device::Device;
use miette_devices::fault::{Program, ProgramError};
use miette_read::files::Files;
use miette_read::lists::push_item;
use miette_read::rustc::ReadError;
use std::alloc::Global;
use std::io::{Read, Write};

/// Appends the fixes of a part. Returns the kind of the part.
fn gather_row<F: FileLoader>(
    held: &mut Vec<RowFixes>,
    alloc: Global,
    files: &mut F,
    row: &[u8],
) -> Result<RowKind, ProgramError>
    ensures given { IfOk result (λ kind. (gives : Option RowFixes)
        × IsGiving (IsFoundBy F.found F.knows files.old) (record { row = row.now; kind = kind; gives = gives })
        × (held.new.items ≡ held.old.items ++ option_to_list gives)) }
    ensures others { OnErr result (result ≡ Err ProgramError.Memory) }
    ensures goes { Goes (F.found files.old) (F.knows files.old) (F.found files.new) (F.knows files.new) }
{
    if !begins_object(row) {
        return Ok(RowKind::Passed);
    }
    let Some(value) = parse_value(alloc, row)? else {
        return Ok(RowKind::Unread);
    };
    load_named_files(alloc, files, &value)?;
    match machine_applicable_fixes(alloc, files, &value) {
        Ok(Some(fixes)) => {
            let grave = fixes.is_error_message();
            push_item(held, fixes)?;
            Ok(RowKind::Messages(grave))
        }
        Ok(None) => Ok(RowKind::Messages(false)),
        Err(ReadError::NoMessage) => Ok(RowKind::Unread),
        Err(ReadError::Memory) => Err(ProgramError::Memory),
    }
}

/// Appends the fixes of all remaining parts.
fn gather_rows<F: FileLoader, R: Read, E: Write>(
    held: &mut Vec<RowFixes>,
    alloc: Global,
    files: &mut F,
    rows: &mut RowReader<R>,
    faults: &mut Device<E>,
) -> Result<Verdict, ProgramError>
    requires rows_sound { rows.old.failed ≡ false }
    requires faults_sound { faults.old.failed ≡ false }
    ensures ok { IfOk result (λ verdict. IfSome (left_of R.remaining rows.old) (λ bytes.
        LinesGiveFixes (IsFoundBy F.found F.knows files.old) bytes (λ rows notes.
        (held.new.items ≡ held.old.items ++ rows)
        × Appends (E.contents faults.old.inner) (E.contents faults.new.inner) notes) verdict)) }
    // After an error, the writer has the notes on the first lines. The last note may be incomplete.
    ensures beginning { OnErr result (IfSome (left_of R.remaining rows.old) (λ bytes.
        FirstLinesGiveFixes (IsFoundBy F.found F.knows files.old) bytes
        (TakesBeginning (E.contents faults.old.inner) (E.contents faults.new.inner)))) }
    ensures read_failed { IsTrue rows.new.failed ↔ (result ≡ Err ProgramError.Read) }
    ensures write_failed { IsTrue faults.new.failed ↔ (result ≡ Err ProgramError.Write) }
    ensures others { OnErr result ((result ≡ Err ProgramError.Read)
        ⊎ ((result ≡ Err ProgramError.Write) ⊎ (result ≡ Err ProgramError.Memory))) }
    ensures goes { Goes (F.found files.old) (F.knows files.old) (F.found files.new) (F.knows files.new) }
{
    let mut row = Vec::new(alloc);
    let mut part = Vec::new(alloc);
    let mut verdict = Verdict::none();
    let mut number: u64 = 1;
    for _ in 0..u64::MAX {
        let following = rows.next_part(number, &mut row, &mut part)?;
        if part.is_empty() {
            return Ok(verdict);
        }
        let kind = gather_row(held, alloc, files, part.as_slice())?;
        note_unread_row(alloc, faults, number, kind)?;
        verdict = verdict.with(kind);
        number = following;
    }
    Err(ProgramError::Memory)
}

/// Reads all remaining lines, then applies rustc's machine-applicable fixes to their files. Fixes of packages that have
/// errors are applied only if `broken` is set. No file is written before all lines are read.
///
/// Returns the verdict on all lines. The flag says whether all files were written and none had changed since it was
/// compiled.
///
/// # Errors
/// `Read` if and only if a call of the reader failed. `Write` if and only if a call of a writer failed. `Memory` if
/// allocation fails.
pub fn fix_files_on<F: FileLoader, S: FileStore, R: Read, W: Write, E: Write>(
    alloc: Global,
    broken: bool,
    files: &mut F,
    store: &mut S,
    streams: &mut ShowStreams<R, W, E>,
) -> Result<(Verdict, bool), ProgramError>
    requires rows_sound { streams.old.rows.failed ≡ false }
    requires writer_sound { streams.old.writer.failed ≡ false }
    requires faults_sound { streams.old.faults.failed ≡ false }
    // Each file with selected fixes was written, or its line says that it can't be. No other file was written. Lines
    // about skipped fixes come first.
    ensures ok { IfOk result (λ it. IfSome (left_of R.remaining streams.old.rows) (λ bytes.
        FixesFiles (IsFoundBy F.found F.knows files.old) S.refuses broken bytes (λ changes left notes.
        (it.1 ≡ are_all_written changes left)
        × Writes (S.written store.old) (S.written store.new) (flat_map written_by_change changes)
        × Appends (W.contents streams.old.writer.inner) (W.contents streams.new.writer.inner)
        (flat_map change_row changes)
        × Appends (E.contents streams.old.faults.inner) (E.contents streams.new.faults.inner)
        (notes ++ change_faults changes left)) it.0)) }
    ensures read_failed { IsTrue streams.new.rows.failed ↔ (result ≡ Err ProgramError.Read) }
    ensures write_failed { (IsTrue streams.new.writer.failed ⊎ IsTrue streams.new.faults.failed)
        ↔ (result ≡ Err ProgramError.Write) }
    ensures unwritten { (result ≡ Err ProgramError.Read) → store.new ≡ store.old }
    // After an error, the first files were written, and some first part of their lines. Or no file was written, and the
    // notes on the first lines were written.
    ensures first { OnErr result (((store.new ≡ store.old) × (streams.new.writer ≡ streams.old.writer)
        × IfSome (left_of R.remaining streams.old.rows) (λ bytes.
        FirstLinesGiveFixes (IsFoundBy F.found F.knows files.old) bytes
        (TakesBeginning (E.contents streams.old.faults.inner) (E.contents streams.new.faults.inner))))
        ⊎ IfSome (left_of R.remaining streams.old.rows) (λ bytes.
        FixesFirstFiles (IsFoundBy F.found F.knows files.old) S.refuses broken bytes (λ changes left notes.
        Writes (S.written store.old) (S.written store.new) (flat_map written_by_change changes)
        × TakesBeginning (W.contents streams.old.writer.inner) (W.contents streams.new.writer.inner)
        (flat_map change_row changes)
        × TakesBeginning (E.contents streams.old.faults.inner) (E.contents streams.new.faults.inner)
        (notes ++ change_faults changes left)))) }
{
    let mut held = Vec::new(alloc);
    let verdict = gather_rows(
        &mut held,
        alloc,
        files,
        &mut streams.rows,
        &mut streams.faults,
    )?;
    let those = SelectedFixes::of(alloc, broken, held)?;
    load_listed_files(alloc, files, those.fixes.names())?;
    let all = write_selected(alloc, files, store, &those, streams)?;
    Ok((verdict, all))
}

/// Runs `show --fix` and returns the exit code.
///
/// - 2 after any error, which is reported to `faults`
/// - 2 if a file can't be written, or changed since it was compiled
/// - 3 if a line can't be read
/// - 1 if a message is an error
/// - 0 otherwise
pub fn fix_files_with<F, S, R, W, E>(
    alloc: Global,
    broken: bool,
    files: &mut F,
    store: &mut S,
    streams: ShowStreams<R, W, E>,
) -> u8
where
    F: FileLoader,
    S: FileStore,
    R: Read + Drop,
    W: Write + Drop,
    E: Write + Drop,
    requires rows_sound { streams.rows.failed ≡ false }
    requires writer_sound { streams.writer.failed ≡ false }
    requires faults_sound { streams.faults.failed ≡ false }
    // The code is 2 after an error, or if a file changed or wasn't written. Otherwise it depends on the lines, and each
    // file with selected fixes was written.
    ensures status { (result ≡ 2) ⊎ IfSome (left_of R.remaining streams.rows) (λ bytes. (verdict : Verdict)
        × (result ≡ status_of verdict) × FixesFiles (IsFoundBy F.found F.knows files.old) S.refuses broken bytes
        (λ changes left notes. (are_all_written changes left ≡ true)
        × Writes (S.written store.old) (S.written store.new) (flat_map written_by_change changes)) verdict) }
    // In any case, only files with fixes were written, each with its fixes applied.
    ensures first { (store.new ≡ store.old) ⊎ IfSome (left_of R.remaining streams.rows) (λ bytes.
        FixesFirstFiles (IsFoundBy F.found F.knows files.old) S.refuses broken bytes
        (λ changes left notes. Writes (S.written store.old) (S.written store.new) (flat_map written_by_change changes))) }
{
    let mut streams = streams;
    match fix_files_on(alloc, broken, files, store, &mut streams) {
        Ok((verdict, all)) => { if all { verdict.status() } else { 2 } }
        Err(fault) => {
            let mut faults = streams.faults.into_inner();
            Program::Show.fail(fault, &mut faults).status
        }
    }
}
