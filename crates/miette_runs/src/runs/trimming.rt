//! Removes line feeds at an end of a text, given as runs.

ghost use Rattle.std.specs.Prelude.{◌≡◌, IfOk};
ghost use Rattle.miette_runs.specs.rules.Cutting.{trim_leading_feeds, trim_trailing_feeds};
ghost use Rattle.miette_runs.specs.rules.Sequences.{spell, tokens};

use crate::runs::Runs;
use crate::runs::reading::{is_canonical, reparse};
use std::alloc::{AllocError, Global};

// Returns the runs that the printed text reads as. These are mostly the given ones.
fn canonicalize(alloc: Global, runs: Runs) -> Result<Runs, AllocError>
    ensures { IfOk result (λ r. r ≡ tokens (spell runs)) }
{
    if is_canonical(runs.parts()) {
        Ok(runs)
    } else {
        reparse(alloc, &runs)
    }
}

/// Removes the line feeds at the beginning. Colours before and between them stay.
///
/// # Errors
/// `AllocError` if allocation fails. The runs are then dropped.
pub fn trim_leading_feeds(alloc: Global, runs: Runs) -> Result<Runs, AllocError>
    ensures { IfOk result (λ r. spell r ≡ trim_leading_feeds (spell runs)) }
{
    let mut found = canonicalize(alloc, runs)?;
    found.cut_front();
    Ok(found)
}

/// Removes the line feeds at the end. Colours after and between them stay.
///
/// # Errors
/// `AllocError` if allocation fails. The runs are then dropped.
pub fn trim_trailing_feeds(alloc: Global, runs: Runs) -> Result<Runs, AllocError>
    ensures { IfOk result (λ r. spell r ≡ trim_trailing_feeds (spell runs)) }
{
    let mut found = canonicalize(alloc, runs)?;
    found.cut_end();
    Ok(found)
}
