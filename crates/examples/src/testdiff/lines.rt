//! Compares two texts line by line.

use miette::prelude::{LabeledSpan, Piece};
use std::alloc::{AllocError, Global};

/// Returns a label on each line that differs from the expected text. For each missing line, it
/// adds a label on the last byte.
///
/// # Errors
/// `AllocError` if allocation fails.
pub fn differences(
    alloc: Global,
    expected: &str,
    actual: &str,
) -> Result<Vec<LabeledSpan>, AllocError> {
    let mut labels = Vec::new(alloc);
    let mut wanted = expected.lines();
    for line in Piece::lines(actual) {
        if let Some(why) = told_of(alloc, wanted.next(), line.text)? {
            labels.push(LabeledSpan::new_with_span(Some(why), line))?;
        }
    }
    for line in wanted {
        let why = format!(in alloc; "missing: {line}")?;
        labels.push(LabeledSpan::new(Some(why), actual.len().saturating_sub(1), 1))?;
    }
    Ok(labels)
}

/// Returns the text of the label on a line, or `None` if the line is as expected.
fn told_of(alloc: Global, wanted: Option<&str>, found: &str) -> Result<Option<String>, AllocError> {
    match wanted {
        Some(same) if same == found => Ok(None),
        Some(other) => Ok(Some(format!(in alloc; "expected: {other}")?)),
        None => Ok(Some(String::from_str(alloc, "nothing more was expected")?)),
    }
}
