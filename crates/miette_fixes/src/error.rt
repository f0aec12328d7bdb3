//! Why a fix cannot be applied.

ghost use Rattle.std.specs.Prelude.{◌≡◌};

use std::alloc::AllocError;
use std::error::Error;
use std::fmt;

/// Why a fix cannot be applied. Edits are given by their indices in the fix's list, in the order in which they were
/// added.
#[derive(Clone, Copy, Debug, PartialEq, Eq)]
pub enum FixError {
    /// An edit ends after the end of the source.
    OutOfBounds {
        /// The first such edit in the list.
        edit: usize,
    },
    /// Two edits overlap. If several pairs do, these are the first two by offset, then by length.
    Overlap {
        /// The edit that begins first. If several have its span, this is the first of them in the list.
        first: usize,
        /// The edit that begins before the end of the first one. If several have its span, this is the first of them
        /// in the list, except for `first` itself.
        second: usize,
    },
    /// Allocation failed.
    Memory,
}

/// Allocation failure becomes `Memory`.
impl From<AllocError> for FixError {
    ghost use Rattle.std.specs.Prelude.{◌≡◌};
    ghost use Rattle.miette_fixes.specs.declared.error.FixError.TheVariants.{Memory};

    ghost from_gives = { λ _ it. it ≡ Memory };

    fn from(_: AllocError) -> Self {
        FixError::Memory
    }
}

/// Prints which edits are wrong, like `edits[0] and edits[2] overlap`.
impl fmt::Display for FixError {
    ghost use Rattle.std.specs.Prelude.{Some};
    ghost use Rattle.miette_fixes.specs.rules.Texts.{fix_error_text};

    ghost output = { λ it. Some (fix_error_text it) };

    fn fmt<W: fmt::Write>(&self, f: &mut fmt::Formatter<W>) -> fmt::Result {
        match *self {
            FixError::OutOfBounds { edit } => {
                write!(f, "edits[{edit}] ends after the end of the source")
            }
            FixError::Overlap { first, second } => {
                write!(f, "edits[{first}] and edits[{second}] overlap")
            }
            FixError::Memory => f.write_str("memory allocation failed"),
        }
    }
}

impl Error for FixError {}
