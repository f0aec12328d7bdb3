//! Writes files with their fixes applied.

ghost use Rattle.std.specs.Prelude.{◌≡◌, ◌⊎◌, ◌↔◌, ◌&&◌, ℕ, List, [], Err, IfOk, IsTrue, OnErr, false, is_some, map};
ghost use Rattle.std.specs.Prelude.{string_bytes};
ghost use Rattle.std.specs.List.{count_by, flat_map, list_all};
ghost use Rattle.std.specs.Option.{option_map};
ghost use Rattle.std.specs.Io.KnownBytes.{Appends};
ghost use Rattle.miette_devices.specs.views.Device.{TakesBeginning};
ghost use Rattle.miette_show_rows.specs.views.SelectedFixes.{skipped_in};
ghost use Rattle.miette_show_rows.specs.views.Holding.{fixes_at};
ghost use Rattle.miette_show_rows.specs.rules.Looking.{begins_up, goes_up, leads_out};
ghost use Rattle.miette_show_rows.specs.rules.FixesFiles.{Changes, ChangesFirst, IsOutcome, are_all_written, fixed_row};
ghost use Rattle.miette_show_rows.specs.rules.FixesFiles.{fault_if_unwritten};
ghost use Rattle.miette_show_rows.specs.rules.FixesFiles.{change_fault, unwritable_row, change_faults, is_written};
ghost use Rattle.miette_show_rows.specs.rules.FixesFiles.{row_if_written, change_row};
ghost use Rattle.miette_show_rows.specs.rules.FixesFiles.{written_as, written_by_change};
ghost use Rattle.miette_show_rows.specs.views.Writing.{Writes};

use crate::fixes_by_file::{FixesByFile, text_after_fixes};
use crate::selected_fixes::SelectedFixes;
use crate::skipped_fixes::write_skipped;
use crate::store::FileStore;
use crate::streams::ShowStreams;
use miette_devices::fault::ProgramError;
use miette_devices::whole::write_whole;
use miette_read::files::Files;
use std::alloc::{AllocError, Global};
use std::io::Write;

/// Returns how many flags are set.
fn count(taken: &[bool]) -> usize
    ensures { result ≡ count_by (λ b. b) taken.now }
{
    let mut number = 0;
    for it in taken {
        if *it {
            number += 1;
        }
    }
    number
}

/// Returns the line for a file that was written.
fn fixed_row(alloc: Global, name: &str, taken: &[bool]) -> Result<String, AllocError>
    ensures { IfOk result (λ row. string_bytes row ≡ fixed_row name.now taken.now) }
{
    let (some, all) = (count(taken), taken.len());
    format!(in alloc; "fixed {name}: {some} of {all} fixes\n")
}

/// Returns the line for a file that can't be written.
fn unwritable_row(alloc: Global, name: &str) -> Result<String, AllocError>
    ensures { IfOk result (λ row. string_bytes row ≡ unwritable_row name.now) }
{
    format!(in alloc; "show: {name}: can't be written\n")
}

/// Returns whether the bytes start with `/../`.
fn begins_up(rest: &[u8]) -> bool
    ensures { result ≡ begins_up rest.now }
{
    rest.starts_with(b"/../")
}

/// Returns whether a name contains `/../`.
fn goes_up(name: &[u8]) -> bool
    ensures { result ≡ goes_up name.now }
{
    let mut rest = name;
    while let Some((_, more)) = rest.split_first() {
        if begins_up(rest) {
            return true;
        }
        rest = more;
    }
    false
}

/// Returns whether a file name leads out of its folder: it starts with `/` or `../`, or has a component `..`.
fn leads_out(name: &[u8]) -> bool
    ensures { result ≡ leads_out name.now }
{
    name.starts_with(b"/") || name.starts_with(b"../") || goes_up(name)
}

/// Writes a file with its fixes applied, and returns which fixes were taken. Returns `None` if the
/// file isn't there, leads out of the folder, or is refused.
fn write_fixed_file<F: Files, S: FileStore>(
    alloc: Global,
    files: &F,
    store: &mut S,
    gathered: &FixesByFile,
    name: &str,
) -> Result<Option<Vec<bool>>, AllocError>
    ensures ok { IfOk result (λ o. (text : List ℕ)
        × IsOutcome (F.found files.now name.now) (S.refuses name.now) (leads_out name.now)
        (fixes_at gathered.now.fixes name.now) text (option_map (λ list. list.items) o)
        × Writes (S.written store.old) (S.written store.new)
        (written_as name.now text (option_map (λ list. list.items) o))) }
    ensures unwritten { OnErr result (Writes (S.written store.old) (S.written store.new) []) }
{
    if leads_out(name.as_bytes()) {
        return Ok(None);
    }
    let Some(file) = files.find(name) else {
        return Ok(None);
    };
    let applied = text_after_fixes(alloc, file.bytes(), gathered.fixes(name))?;
    if store.write(alloc, name, file.bytes(), applied.text.as_slice())? {
        Ok(Some(applied.taken))
    } else {
        Ok(None)
    }
}

/// Writes the line for a file. Returns whether the file was written.
fn write_change<R, W: Write, E: Write>(
    alloc: Global,
    name: &str,
    taken: &Option<Vec<bool>>,
    streams: &mut ShowStreams<R, W, E>,
) -> Result<bool, ProgramError>
    requires writer_sound { streams.old.writer.failed ≡ false }
    requires faults_sound { streams.old.faults.failed ≡ false }
    ensures done { IfOk result (λ done. done ≡ is_some (option_map (λ list. list.items) taken.now)) }
    ensures said { IfOk result (λ done. Appends (W.contents streams.old.writer.inner)
        (W.contents streams.new.writer.inner) (row_if_written name.now (option_map (λ list. list.items) taken.now))) }
    ensures noted { IfOk result (λ done. Appends (E.contents streams.old.faults.inner)
        (E.contents streams.new.faults.inner) (fault_if_unwritten name.now (option_map (λ list. list.items) taken.now))) }
    // After an error, the start of the line was written.
    ensures beginning { OnErr result (TakesBeginning (W.contents streams.old.writer.inner)
        (W.contents streams.new.writer.inner) (row_if_written name.now (option_map (λ list. list.items) taken.now))
        × TakesBeginning (E.contents streams.old.faults.inner) (E.contents streams.new.faults.inner)
        (fault_if_unwritten name.now (option_map (λ list. list.items) taken.now))) }
    ensures rows { streams.new.rows ≡ streams.old.rows }
    ensures write_failed { (IsTrue streams.new.writer.failed ⊎ IsTrue streams.new.faults.failed)
        ↔ (result ≡ Err ProgramError.Write) }
    ensures others { OnErr result ((result ≡ Err ProgramError.Memory) ⊎ (result ≡ Err ProgramError.Write)) }
{
    match taken {
        Some(taken) => {
            let row = fixed_row(alloc, name, taken.as_slice())?;
            write_whole(&mut streams.writer, row.as_bytes())?;
            Ok(true)
        }
        None => {
            let row = unwritable_row(alloc, name)?;
            write_whole(&mut streams.faults, row.as_bytes())?;
            Ok(false)
        }
    }
}

/// Returns whether both flags are set.
fn both(one: bool, other: bool) -> bool
    ensures { result ≡ (one && other) }
{
    one && other
}

/// Writes all files that have fixes. Returns whether all were written.
fn write_fixed_files<F: Files, S: FileStore, R, W: Write, E: Write>(
    alloc: Global,
    files: &F,
    store: &mut S,
    gathered: &FixesByFile,
    streams: &mut ShowStreams<R, W, E>,
) -> Result<bool, ProgramError>
    requires writer_sound { streams.old.writer.failed ≡ false }
    requires faults_sound { streams.old.faults.failed ≡ false }
    ensures ok { IfOk result (λ all. Changes (F.found files.now) S.refuses (fixes_at gathered.now.fixes)
        (map string_bytes gathered.now.names.items) (λ changes. (all ≡ list_all is_written changes)
        × Writes (S.written store.old) (S.written store.new) (flat_map written_by_change changes)
        × Appends (W.contents streams.old.writer.inner) (W.contents streams.new.writer.inner)
        (flat_map change_row changes)
        × Appends (E.contents streams.old.faults.inner) (E.contents streams.new.faults.inner)
        (flat_map change_fault changes))) }
    // After an error, the first files were written, and some first part of their lines.
    ensures first { OnErr result (ChangesFirst (F.found files.now) S.refuses (fixes_at gathered.now.fixes)
        (map string_bytes gathered.now.names.items) (λ changes.
        Writes (S.written store.old) (S.written store.new) (flat_map written_by_change changes)
        × TakesBeginning (W.contents streams.old.writer.inner) (W.contents streams.new.writer.inner)
        (flat_map change_row changes)
        × TakesBeginning (E.contents streams.old.faults.inner) (E.contents streams.new.faults.inner)
        (flat_map change_fault changes))) }
    ensures rows { streams.new.rows ≡ streams.old.rows }
    ensures write_failed { (IsTrue streams.new.writer.failed ⊎ IsTrue streams.new.faults.failed)
        ↔ (result ≡ Err ProgramError.Write) }
    ensures others { OnErr result ((result ≡ Err ProgramError.Memory) ⊎ (result ≡ Err ProgramError.Write)) }
{
    let mut all = true;
    for entry in gathered.names() {
        let name = entry.as_str();
        let taken = write_fixed_file(alloc, files, store, gathered, name)?;
        let done = write_change(alloc, name, &taken, streams)?;
        all = both(all, done);
    }
    Ok(all)
}

/// Writes the lines about skipped fixes, then all files that have fixes. Returns whether all files were written and
/// none had changed since it was compiled.
pub(crate) fn write_selected<F: Files, S: FileStore, R, W: Write, E: Write>(
    alloc: Global,
    files: &F,
    store: &mut S,
    counted: &SelectedFixes,
    streams: &mut ShowStreams<R, W, E>,
) -> Result<bool, ProgramError>
    requires writer_sound { streams.old.writer.failed ≡ false }
    requires faults_sound { streams.old.faults.failed ≡ false }
    ensures ok { IfOk result (λ all. Changes (F.found files.now) S.refuses (fixes_at counted.now.fixes.fixes)
        (map string_bytes counted.now.fixes.names.items) (λ changes. (all ≡ are_all_written changes
        (skipped_in counted.now))
        × Writes (S.written store.old) (S.written store.new) (flat_map written_by_change changes)
        × Appends (W.contents streams.old.writer.inner) (W.contents streams.new.writer.inner)
        (flat_map change_row changes)
        × Appends (E.contents streams.old.faults.inner) (E.contents streams.new.faults.inner)
        (change_faults changes (skipped_in counted.now)))) }
    // After an error, the first files were written, and some first part of their lines.
    ensures first { OnErr result (ChangesFirst (F.found files.now) S.refuses (fixes_at counted.now.fixes.fixes)
        (map string_bytes counted.now.fixes.names.items) (λ changes.
        Writes (S.written store.old) (S.written store.new) (flat_map written_by_change changes)
        × TakesBeginning (W.contents streams.old.writer.inner) (W.contents streams.new.writer.inner)
        (flat_map change_row changes)
        × TakesBeginning (E.contents streams.old.faults.inner) (E.contents streams.new.faults.inner)
        (change_faults changes (skipped_in counted.now)))) }
    ensures rows { streams.new.rows ≡ streams.old.rows }
    ensures write_failed { (IsTrue streams.new.writer.failed ⊎ IsTrue streams.new.faults.failed)
        ↔ (result ≡ Err ProgramError.Write) }
    ensures others { OnErr result ((result ≡ Err ProgramError.Memory) ⊎ (result ≡ Err ProgramError.Write)) }
{
    write_skipped(alloc, counted, &mut streams.faults)?;
    let all = write_fixed_files(alloc, files, store, &counted.fixes, streams)?;
    Ok(both(all, counted.files.as_slice().is_empty()))
}
