//! Sources for workflow commands. Each is read once, as a whole.

ghost use Rattle.std.specs.Prelude.{◌≡◌, IfOk, Some, unwrap_or};
ghost use Rattle.miette_tree.specs.rules.Tree.{source_of};
ghost use Rattle.miette_tree.specs.views.Owned.{ref_source};
ghost use Rattle.miette_tree.specs.views.Report.{tree_of};
ghost use Rattle.miette_brief.specs.steps.WholeSources.{IsOwn, IsWholeSource};

use miette_positions::index::PositionIndex;
use miette_positions::position::PositionEncoding;
use miette_protocol::protocol::{Diagnostic, SourceOffset, SourceSpan};
use miette_protocol::source::SourceCode;
use miette_tree::report::{Report, SourceRef};
use std::alloc::{AllocError, Global};

/// A source that was read as a whole: its name, and an index of its positions in UTF-16.
#[derive(Drop)]
pub(crate) struct NamedPositions<'a> {
    pub(crate) name: Option<&'a str>,
    pub(crate) index: PositionIndex<'a>,
}

/// The source of a diagnostic: none, one that can't be read as a whole, or one that was.
#[derive(Drop)]
pub(crate) enum WholeSource<'a> {
    Nowhere,
    Unread,
    Read(NamedPositions<'a>),
}

/// Reads a source as a whole.
fn read_whole_source<'a, S: SourceCode>(
    alloc: Global,
    source: SourceRef<'a, S>,
) -> Result<WholeSource<'a>, AllocError>
    ensures { IfOk result (λ it. IsWholeSource (Some (ref_source S.source source.entry)) it) }
{
    let begin = SourceSpan::new(SourceOffset::from(0), 0);
    match source.read_span(&begin, 1, usize::MAX) {
        Ok(contents) => {
            let index = PositionIndex::new(alloc, contents.data(), PositionEncoding::Utf16)?;
            Ok(WholeSource::Read(NamedPositions {
                name: contents.name(),
                index,
            }))
        }
        Err(_) => Ok(WholeSource::Unread),
    }
}

/// Reads the report's own source as a whole, if it has one.
pub(crate) fn read_own_source<'a, D: Diagnostic, S: SourceCode>(
    alloc: Global,
    report: &'a Report<D, S>,
) -> Result<Option<WholeSource<'a>>, AllocError>
    ensures { IfOk result (λ own. IsOwn (source_of (tree_of D.meaning S.source report.now)) own) }
{
    let Some(source) = report.source_code() else {
        return Ok(None);
    };
    let whole = read_whole_source(alloc, source)?;
    Ok(Some(whole))
}

/// The source of a report: its own, else the inherited one.
pub(crate) fn own_or_inherited<'w, 'a>(
    own: &'w Option<WholeSource<'a>>,
    inherited: &'w WholeSource<'a>,
) -> &'w WholeSource<'a>
    ensures { result.now ≡ unwrap_or own.now inherited.now }
{
    match own {
        Some(own) => own,
        None => inherited,
    }
}
