//! A store of files that can be replaced.

ghost use Rattle.std.specs.Prelude.{◌≡◌, ℕ, List, [], Option, IfOk, Ok, OnErr, false};
ghost use Rattle.miette_show_rows.specs.views.Writing.{IsWritten, Writes};

use std::alloc::{AllocError, Global};

/// Replaces files.
pub trait FileStore {
    ghost use Rattle.std.specs.Prelude.{◌≡◌, ℕ, List, [], Option, IfOk, Ok, OnErr, false};
    ghost use Rattle.miette_show_rows.specs.views.Writing.{IsWritten, Writes};

    /// The names and texts that were written, in order, if the store says so.
    ghost written: { Self → Option (List (List ℕ × List ℕ)) };

    /// The store may refuse to write a file with this name.
    ghost refuses: { List ℕ → Type 0 };

    /// Replaces the file with this name by the text, completely or not at all. Returns whether it did. It may refuse if
    /// the file's bytes aren't `bytes` any more.
    ///
    /// # Errors
    /// `AllocError` if allocation fails. Nothing was written then.
    fn write(
        &mut self,
        alloc: Global,
        name: &str,
        bytes: &[u8],
        text: &[u8],
    ) -> Result<bool, AllocError>
        ensures written { IfOk result (λ done. IsWritten (written self.old) (written self.new) done name.now text.now) }
        ensures refused { (result ≡ Ok false) → refuses name.now }
        ensures unwritten { OnErr result (Writes (written self.old) (written self.new) []) };
}
