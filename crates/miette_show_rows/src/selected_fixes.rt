//! Selects the fixes that `show --fix` applies.

ghost use Rattle.std.specs.Prelude.{◌≡◌, ◌∷◌, [], ℕ, List, IfOk, OnOk, map, string_bytes};
ghost use Rattle.miette_show_rows.specs.rules.Packages.{broken_packages, selected_fixes, skipped_fixes};
ghost use Rattle.miette_show_rows.specs.views.FixSelection.{AddsNames, SelectsFixes, HasNames};
ghost use Rattle.miette_show_rows.specs.views.Holding.{AddsFixes, HoldsAll};
ghost use Rattle.miette_show_rows.specs.views.SelectedFixes.{skipped_in};

use crate::fixes_by_file::FixesByFile;
use crate::names::Names;
use crate::row_fixes::{FileFixes, RowFixes};
use std::alloc::{AllocError, Global};

/// The selected fixes, and what is skipped.
#[derive(Drop)]
pub struct SelectedFixes {
    /// The selected fixes by file.
    pub fixes: FixesByFile,
    /// Packages whose fixes are skipped because they have errors.
    pub packages: Vec<String>,
    /// Files whose fixes are skipped because they changed since they were compiled.
    pub files: Vec<String>,
}

// The selection while lines are added.
#[derive(Drop)]
struct FixSelection {
    fixes: FixesByFile,
    packages: Names,
    files: Names,
}

/// Returns the packages that have errors.
fn broken_packages(alloc: Global, rows: &[RowFixes]) -> Result<Names, AllocError>
    ensures { IfOk result (λ names. HasNames names (broken_packages rows.now)) }
{
    let mut names = Names::new(alloc);
    for row in rows {
        if row.grave {
            names.add(alloc, row.package_id.as_str())?;
        }
    }
    Ok(names)
}

/// Adds fixes by file.
fn add_fixes(
    gathered: &mut FixesByFile,
    alloc: Global,
    more: Vec<FileFixes>,
) -> Result<(), AllocError>
    ensures { OnOk result (AddsFixes gathered.old gathered.new more.items) }
{
    for it in more {
        let FileFixes { name, fixes } = it;
        gathered.add(alloc, name.as_str(), fixes)?;
    }
    Ok(())
}

/// Adds names.
fn add_names(names: &mut Names, alloc: Global, more: &[String]) -> Result<(), AllocError>
    ensures { OnOk result (AddsNames names.old names.new (map string_bytes more.now)) }
{
    for name in more {
        names.add(alloc, name.as_str())?;
    }
    Ok(())
}

impl FixSelection {
    /// Starts without lines.
    fn new(alloc: Global) -> FixSelection
        ensures fixes { HoldsAll result.fixes [] }
        ensures packages { HasNames result.packages [] }
        ensures files { HasNames result.files [] }
    {
        FixSelection {
            fixes: FixesByFile::new(alloc),
            packages: Names::new(alloc),
            files: Names::new(alloc),
        }
    }

    /// Adds the selected fixes of a line.
    fn count(&mut self, alloc: Global, row: RowFixes) -> Result<(), AllocError>
        ensures fixes { OnOk result (AddsFixes self.old.fixes self.new.fixes row.fixes) }
        ensures files { OnOk result (AddsNames self.old.files self.new.files row.stale) }
        ensures packages { self.new.packages ≡ self.old.packages }
    {
        add_names(&mut self.files, alloc, row.stale.as_slice())?;
        add_fixes(&mut self.fixes, alloc, row.fixes)
    }

    /// Adds a line. `packages` have errors.
    fn add(
        &mut self,
        alloc: Global,
        broken: bool,
        packages: &Names,
        row: RowFixes,
    ) -> Result<(), AllocError>
        ensures { OnOk result ((names : List (List ℕ)) → HasNames packages.now names
            → SelectsFixes self.old self.new broken names (row ∷ [])) }
    {
        if broken || !packages.has(row.package_id.as_str()) {
            return self.count(alloc, row);
        }
        if row.fixes.is_empty() {
            return Ok(());
        }
        self.packages.add(alloc, row.package_id.as_str())
    }

    /// Adds lines. `packages` have errors.
    fn add_all(
        &mut self,
        alloc: Global,
        broken: bool,
        packages: &Names,
        rows: Vec<RowFixes>,
    ) -> Result<(), AllocError>
        ensures { OnOk result ((names : List (List ℕ)) → HasNames packages.now names
            → SelectsFixes self.old self.new broken names rows.items) }
    {
        for row in rows {
            self.add(alloc, broken, packages, row)?;
        }
        Ok(())
    }

    /// Returns the selection.
    fn finish(self) -> SelectedFixes
        ensures fixes { result.fixes ≡ self.fixes }
        ensures packages { result.packages.items ≡ self.packages.table.names.items }
        ensures files { result.files.items ≡ self.files.table.names.items }
    {
        SelectedFixes {
            fixes: self.fixes,
            packages: self.packages.into_list(),
            files: self.files.into_list(),
        }
    }
}

impl SelectedFixes {
    /// Selects fixes. Fixes of packages that have errors are selected only if `broken` is set.
    ///
    /// # Errors
    /// `AllocError` if allocation fails.
    pub fn of(alloc: Global, broken: bool, rows: Vec<RowFixes>) -> Result<SelectedFixes, AllocError>
        ensures fixes { IfOk result (λ it. HoldsAll it.fixes (selected_fixes broken rows.items)) }
        ensures left { IfOk result (λ it. skipped_in it ≡ skipped_fixes broken rows.items) }
    {
        let packages = broken_packages(alloc, rows.as_slice())?;
        let mut counting = FixSelection::new(alloc);
        counting.add_all(alloc, broken, &packages, rows)?;
        Ok(counting.finish())
    }
}
