//! Fixes grouped by file.

ghost use Rattle.std.specs.Prelude.{◌≡◌, ◌++◌, ◌∷◌, [], IfOk, OnOk, is_some, length, map};
ghost use Rattle.std.specs.HashMap.{get_by_text};
ghost use Rattle.miette_fixes.specs.rules.ApplyingAll.{taken};
ghost use Rattle.miette_show_rows.specs.rules.FixesByFile.{text_after_fixes};
ghost use Rattle.miette_show_rows.specs.rules.ApplicableFixes.{FileFixes};
ghost use Rattle.miette_show_rows.specs.views.Holding.{AddsFixes, HoldsAll, Puts, fixes_at};

use miette_fixes::fix::{Applied, Fix, apply_all};
use miette_read::lists::push_item;
use std::alloc::{AllocError, Global};
use std::collections::HashMap;

/// Fixes by file, in the order in which they were added.
#[derive(Drop)]
pub struct FixesByFile {
    names: Vec<String>,
    fixes: HashMap<String, Vec<Fix>>,
}

/// Appends fixes.
fn push_all(list: &mut Vec<Fix>, more: Vec<Fix>) -> Result<(), AllocError>
    ensures { OnOk result (list.new.items ≡ list.old.items ++ more.items) }
{
    let mut more = more;
    list.append(&mut more)
}

impl FixesByFile {
    /// Returns an empty table.
    pub fn new(alloc: Global) -> FixesByFile
        ensures { HoldsAll result [] }
    {
        FixesByFile {
            names: Vec::new(alloc),
            fixes: HashMap::new(alloc),
        }
    }

    /// Returns the file names, each once, in the order of first appearance.
    pub fn names(&self) -> &[String]
        ensures { result.now ≡ self.now.names.items }
    {
        self.names.as_slice()
    }

    /// Returns the file names.
    pub(crate) fn into_names(self) -> Vec<String>
        ensures { result ≡ self.names }
    {
        self.names
    }

    /// Returns whether a file has an entry.
    pub(crate) fn has(&self, name: &str) -> bool
        ensures { result ≡ is_some (get_by_text self.now.fixes name.now) }
    {
        self.fixes.get(name).is_some()
    }

    /// Returns the fixes of a file.
    pub fn fixes(&self, name: &str) -> &[Fix]
        ensures { result.now ≡ fixes_at self.now.fixes name.now }
    {
        match self.fixes.get(name) {
            Some(list) => list.as_slice(),
            None => &[],
        }
    }

    /// Replaces the fixes of a file.
    fn put(&mut self, alloc: Global, name: &str, fixes: Vec<Fix>) -> Result<(), AllocError>
        ensures names { self.new.names ≡ self.old.names }
        ensures puts { OnOk result (Puts self.old.fixes self.new.fixes name.now fixes) }
    {
        let key = String::from_str(alloc, name)?;
        self.fixes.insert(key, fixes)?;
        Ok(())
    }

    /// Appends fixes to those of a file.
    ///
    /// # Errors
    /// `AllocError` if allocation fails.
    pub fn add(&mut self, alloc: Global, name: &str, fixes: Vec<Fix>) -> Result<(), AllocError>
        ensures { OnOk result (AddsFixes self.old self.new (record { name = name.now; fixes = fixes.items } ∷ [])) }
    {
        match self.fixes.remove(name) {
            Some(list) => {
                let mut list = list;
                push_all(&mut list, fixes)?;
                self.put(alloc, name, list)
            }
            None => {
                push_item(&mut self.names, String::from_str(alloc, name)?)?;
                self.put(alloc, name, fixes)
            }
        }
    }
}

/// Returns the text of a file after all fixes that are taken (`text`), and which fixes these are.
///
/// # Errors
/// `AllocError` if allocation fails.
pub fn text_after_fixes(alloc: Global, source: &[u8], fixes: &[Fix]) -> Result<Applied, AllocError>
    ensures text { IfOk result (λ it. it.text.items ≡ text_after_fixes source.now fixes.now) }
    ensures taken { IfOk result (λ it. it.taken.items
        ≡ taken (length source.now) [] (map (λ fix. fix.edits) fixes.now)) }
{
    let mut list = Vec::new(alloc);
    for fix in fixes {
        push_item(&mut list, fix)?;
    }
    apply_all(alloc, source, list.as_slice())
}
