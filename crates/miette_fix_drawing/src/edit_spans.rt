//! The spans that edits delete from the source and insert into the applied text.

ghost use Rattle.std.specs.Prelude.{◌≡◌, IfOk};
ghost use Rattle.miette_fixes.specs.views.Ordered.{edits_of};
ghost use Rattle.miette_fix_rows.specs.rules.DiffTexts.{deleted_spans, inserted_spans};

use miette_fixes::fix::Edit;
use miette_lines::sums::sum;
use miette_protocol::protocol::SourceSpan;
use std::alloc::{AllocError, Global};

/// Returns the spans that edits, in order, delete from the source.
pub(crate) fn deleted_spans(alloc: Global, edits: &[&Edit]) -> Result<Vec<SourceSpan>, AllocError>
    ensures { IfOk result (λ spans. spans.items ≡ deleted_spans (edits_of edits.now)) }
{
    let mut list = Vec::new(alloc);
    for edit in edits {
        list.push(*edit.span())?;
    }
    Ok(list)
}

/// Returns the spans of the applied text that edits, in order, insert.
pub(crate) fn inserted_spans(alloc: Global, edits: &[&Edit]) -> Result<Vec<SourceSpan>, AllocError>
    ensures { IfOk result (λ spans. spans.items ≡ inserted_spans (edits_of edits.now)) }
{
    let mut list = Vec::new(alloc);
    let mut old: usize = 0;
    let mut new: usize = 0;
    for edit in edits {
        let offset = sum(new, edit.offset().saturating_sub(old))?;
        let size = edit.text().len();
        list.push(SourceSpan::new(offset.into(), size))?;
        old = sum(edit.offset(), edit.len())?;
        new = sum(offset, size)?;
    }
    Ok(list)
}
