//! Why a description gives no report.

ghost use Rattle.std.specs.Prelude.{◌≡◌};
ghost use Rattle.miette_description.specs.declared.error.BuildError.TheVariants.{Memory, Description};

use json::Invalid;
use std::alloc::AllocError;

/// Why no report could be built.
#[derive(Clone, Copy, Debug, PartialEq, Eq)]
pub enum BuildError {
    /// Allocation failed.
    Memory,
    /// The bytes don't describe a report.
    Description,
}

/// The result of building a part.
pub(crate) type BuildResult<T> = Result<T, BuildError>;

impl From<AllocError> for BuildError {
    ghost from_gives = { λ _ e. e ≡ Memory };

    fn from(_refused: AllocError) -> BuildError {
        BuildError::Memory
    }
}

impl From<Invalid> for BuildError {
    ghost from_gives = { λ _ e. e ≡ Description };

    fn from(_invalid: Invalid) -> BuildError {
        BuildError::Description
    }
}
