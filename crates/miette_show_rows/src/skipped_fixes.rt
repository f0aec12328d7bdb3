//! The lines about skipped fixes, which are written before any file.

ghost use Rattle.std.specs.Prelude.{◌≡◌, ◌↔◌, ◌⊎◌, ◌++◌, ℕ, List, Err, IfOk, IsTrue, OnErr, OnOk, false, map};
ghost use Rattle.std.specs.Prelude.{string_bytes};
ghost use Rattle.std.specs.List.{flat_map};
ghost use Rattle.std.specs.Io.KnownBytes.{Appends};
ghost use Rattle.miette_devices.specs.views.Device.{TakesBeginning};
ghost use Rattle.miette_show_rows.specs.views.SelectedFixes.{skipped_in};
ghost use Rattle.miette_show_rows.specs.rules.FixesFiles.{skipped_package_row, skipped_rows, package_name};
ghost use Rattle.miette_show_rows.specs.rules.FixesFiles.{outdated_file_row};

use crate::selected_fixes::SelectedFixes;
use miette_devices::device::Device;
use miette_devices::fault::ProgramError;
use miette_devices::whole::write_whole;
use std::alloc::{AllocError, Global};
use std::io::Write;

/// Returns the name of a package, or a phrase for lines without one.
fn package_name(name: &str) -> &str
    ensures { result.now ≡ package_name name.now }
{
    if name.is_empty() {
        "what was compiled"
    } else {
        name
    }
}

/// Returns the line for a package that has errors.
fn skipped_package_row(alloc: Global, name: &str) -> Result<String, AllocError>
    ensures { IfOk result (λ row. string_bytes row ≡ skipped_package_row name.now) }
{
    let it = package_name(name);
    format!(in alloc; "show: {it} has errors: not fixed (--broken-code fixes it)\n")
}

/// Returns the line for a file that changed since it was compiled.
fn outdated_file_row(alloc: Global, name: &str) -> Result<String, AllocError>
    ensures { IfOk result (λ row. string_bytes row ≡ outdated_file_row name.now) }
{
    format!(in alloc; "show: {name}: isn't what was compiled\n")
}

/// Appends the lines for packages that have errors.
fn push_packages(text: &mut String, alloc: Global, packages: &[String]) -> Result<(), AllocError>
    ensures { OnOk result (string_bytes text.new
        ≡ string_bytes text.old ++ flat_map skipped_package_row (map string_bytes packages.now)) }
{
    for name in packages {
        let row = skipped_package_row(alloc, name.as_str())?;
        text.push_str(row.as_str())?;
    }
    Ok(())
}

/// Appends the lines for files that changed since they were compiled.
fn push_files(text: &mut String, alloc: Global, names: &[String]) -> Result<(), AllocError>
    ensures { OnOk result (string_bytes text.new
        ≡ string_bytes text.old ++ flat_map outdated_file_row (map string_bytes names.now)) }
{
    for name in names {
        let row = outdated_file_row(alloc, name.as_str())?;
        text.push_str(row.as_str())?;
    }
    Ok(())
}

/// Returns the lines for everything that is skipped.
fn skipped_rows(alloc: Global, counted: &SelectedFixes) -> Result<String, AllocError>
    ensures { IfOk result (λ text. string_bytes text ≡ skipped_rows (skipped_in counted.now)) }
{
    let mut text = String::new(alloc);
    push_packages(&mut text, alloc, counted.packages.as_slice())?;
    push_files(&mut text, alloc, counted.files.as_slice())?;
    Ok(text)
}

/// Writes the lines for everything that is skipped.
///
/// # Errors
/// `Write` if and only if a call of the writer failed or wrote nothing. `Memory` if allocation fails.
pub(crate) fn write_skipped<E: Write>(
    alloc: Global,
    counted: &SelectedFixes,
    faults: &mut Device<E>,
) -> Result<(), ProgramError>
    requires sound { faults.old.failed ≡ false }
    ensures said { OnOk result (Appends (E.contents faults.old.inner) (E.contents faults.new.inner)
        (skipped_rows (skipped_in counted.now))) }
    ensures beginning { OnErr result (TakesBeginning (E.contents faults.old.inner) (E.contents faults.new.inner)
        (skipped_rows (skipped_in counted.now))) }
    ensures failed { IsTrue faults.new.failed ↔ (result ≡ Err ProgramError.Write) }
    ensures others { OnErr result ((result ≡ Err ProgramError.Memory) ⊎ (result ≡ Err ProgramError.Write)) }
{
    let text = skipped_rows(alloc, counted)?;
    write_whole(faults, text.as_bytes())
}
