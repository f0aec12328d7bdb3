//! Sources, and how spans of them are read.

pub use crate::contents::{MietteSpanContents, contents_clone_law};
pub use crate::named_source::NamedSource;
pub use crate::named_source_traits::{
    named_source_equality_law, named_source_hash_law, named_source_order_law,
};
pub use crate::source_code::{ReadResult, SourceCode};
pub use miette_lines::indexed::IndexedSource;
pub use miette_lines::lines::{LineOfText, Lines};
pub use miette_lines::near::{KnownLine, KnownLines, START};
