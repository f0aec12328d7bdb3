//! The public types: fixes, edits, and how to apply them.

pub use crate::applicability::Applicability;
pub use crate::apply_all::{Applied, apply_all};
pub use crate::edit::Edit;
pub use crate::error::FixError;
pub use crate::fix_builder::Fix;
