//! Sets of names in order.

ghost use Rattle.std.specs.Prelude.{◌≡◌, ◌∷◌, [], OnOk, is_some};
ghost use Rattle.std.specs.HashMap.{get_by_text};
ghost use Rattle.miette_show_rows.specs.views.FixSelection.{AddsNames, HasNames};

use crate::fixes_by_file::FixesByFile;
use std::alloc::{AllocError, Global};

/// Names in the order of first appearance, each once.
#[derive(Drop)]
pub(crate) struct Names {
    table: FixesByFile,
}

impl Names {
    /// Returns an empty set.
    pub(crate) fn new(alloc: Global) -> Names
        ensures { HasNames result [] }
    {
        Names {
            table: FixesByFile::new(alloc),
        }
    }

    /// Returns whether a name is in the set.
    pub(crate) fn has(&self, name: &str) -> bool
        ensures { result ≡ is_some (get_by_text self.now.table.fixes name.now) }
    {
        self.table.has(name)
    }

    /// Appends a name, unless it is in the set.
    pub(crate) fn add(&mut self, alloc: Global, name: &str) -> Result<(), AllocError>
        ensures { OnOk result (AddsNames self.old self.new (name.now ∷ [])) }
    {
        self.table.add(alloc, name, Vec::new(alloc))
    }

    /// Returns the names as a list.
    pub(crate) fn into_list(self) -> Vec<String>
        ensures { result.items ≡ self.table.names.items }
    {
        self.table.into_names()
    }
}
