//! The fixes of one message.

ghost use Rattle.std.specs.Prelude.{◌≡◌};

use miette_fixes::fix::Fix;
use std::marker::Model;

/// The fixes of one file.
#[derive(Drop)]
pub struct FileFixes {
    pub(crate) name: String,
    pub(crate) fixes: Vec<Fix>,
}

/// The fixes of a message of rustc: its package, whether it is an error, the fixes by file, and the files that changed
/// since they were compiled.
#[derive(Drop)]
pub struct RowFixes {
    pub(crate) package_id: String,
    pub(crate) grave: bool,
    pub(crate) fixes: Vec<FileFixes>,
    pub(crate) stale: Vec<String>,
}

impl Model for FileFixes {
    ghost use Rattle.std.specs.Prelude.{string_bytes};
    ghost use Rattle.miette_show_rows.specs.rules.ApplicableFixes as sure;

    ghost Value = { sure.FileFixes };

    ghost view = { λ it. record { name = string_bytes it.name; fixes = it.fixes.items } };
}

impl Model for RowFixes {
    ghost use Rattle.std.specs.Prelude.{map, string_bytes};
    ghost use Rattle.miette_show_rows.specs.rules.ApplicableFixes as sure;

    ghost Value = { sure.RowFixes };

    ghost view = { λ it. record {
      package_id = string_bytes it.package_id;
      grave = it.grave;
      fixes = it.fixes.items;
      stale = map string_bytes it.stale.items;
    } };
}

impl RowFixes {
    /// Returns whether the message is an error.
    pub fn is_error_message(&self) -> bool
        ensures { result ≡ self.now.grave }
    {
        self.grave
    }
}
