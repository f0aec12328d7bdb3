//! Calls of sources.

use crate::rows::{CallResult, Rows};
use miette::protocol::{SourceOffset, SourceSpan};
use miette::report::OwnedSource;
use miette::source::{IndexedSource, NamedSource, SourceCode};
use std::alloc::{AllocError, Global};

/// The calls of this module.
#[derive(Clone, Copy)]
pub enum SourceCall {
    Indexed,
    Named,
    NamedWithLanguage,
    NamedClones,
    Owned,
    OwnedUnindexed,
    OwnedNamed,
    OwnedNamedUnindexed,
}

/// Three lines, the last without a line feed.
pub const README: &[u8] = b"source\n  text\n    here";

/// Makes a call and prints its row.
///
/// # Errors
/// If allocating the call's arguments fails.
pub fn make(alloc: Global, call: SourceCall, row: &mut Rows) -> CallResult {
    let bytes = README.to_vec(alloc)?;
    match call {
        SourceCall::Indexed => read(row, IndexedSource::new(alloc, bytes)),
        SourceCall::Named => read(row, NamedSource::new(alloc, "bad_file.rs", bytes)),
        SourceCall::Owned => read(row, OwnedSource::new(alloc, bytes)),
        SourceCall::OwnedUnindexed => read(row, OwnedSource::unindexed(alloc, bytes)),
        SourceCall::OwnedNamed => read(
            row,
            OwnedSource::named(alloc, "bad_file.rs", Some("rust"), bytes),
        ),
        SourceCall::OwnedNamedUnindexed => read(
            row,
            OwnedSource::named_unindexed(alloc, "bad_file.rs", Some("rust"), bytes),
        ),
        SourceCall::NamedWithLanguage | SourceCall::NamedClones => return named(
            alloc, call, row, bytes,
        ),
    }
    Ok(())
}

fn named(alloc: Global, call: SourceCall, row: &mut Rows, bytes: Vec<u8>) -> CallResult {
    let named = NamedSource::new(alloc, "bad_file.rs", bytes)?;
    if let SourceCall::NamedWithLanguage = call {
        row.value(&named);
        read(row, named.with_language(alloc, "rust"));
        return Ok(());
    }
    let named = named.with_language(alloc, "rust")?;
    row.value(&named);
    read(row, named.clone());
    read(row, named.clone());
    Ok(())
}

/// Prints a read of the source with one line of context.
fn read<S: SourceCode>(row: &mut Rows, answer: Result<S, AllocError>) {
    match answer {
        Ok(source) => {
            let span = SourceSpan::new(SourceOffset::from(9), 4);
            row.value(&source.read_span(&span, 1, 1));
        }
        Err(AllocError) => row.refused(),
    }
}
