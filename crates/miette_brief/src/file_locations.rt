//! Locations of diagnostics for workflow commands.

ghost use Rattle.std.specs.Prelude.{◌≡◌, IfOk, Some, None, false, true, map, option_copied};
ghost use Rattle.std.specs.Option.{option_map};
ghost use Rattle.miette_positions.specs.declared.position.PositionEncoding.TheVariants.{Utf16};
ghost use Rattle.miette_positions.specs.rules.Regions.{region_of};
ghost use Rattle.miette_tree.specs.views.Owned.{ref_source, opt_ref_source};
ghost use Rattle.miette_brief.specs.rules.Github.{named_file_location};
ghost use Rattle.miette_brief.specs.steps.CommandParts.{located_label_of, file_location_of};
ghost use Rattle.miette_brief.specs.steps.PrimaryLabels.{IsPrimaryFileLocation, IsSourceFileLocation, span_at};
ghost use Rattle.miette_brief.specs.steps.PrimaryLabels.{span_of_label};
ghost use Rattle.miette_brief.specs.steps.Reads.{IsSpanUnread};
ghost use Rattle.miette_brief.specs.steps.WholeSources.{AreOver, IsWholeSource, file_location_over};

use crate::commands::FileLocation;
use crate::located_labels::LocatedLabel;
use crate::locations::source_location;
use crate::whole_source::WholeSource;
use miette_positions::position::{PositionEncoding, Region};
use miette_positions::spans::region_of;
use miette_protocol::error::RenderError;
use miette_protocol::protocol::{SourceOffset, SourceSpan};
use miette_protocol::source::SourceCode;
use miette_tree::report::SourceRef;

/// A file location, or `None` without a name or with an empty one.
fn named_file_location<'a>(
    name: Option<&'a str>,
    region: Option<Region>,
) -> Option<FileLocation<'a>>
    ensures { option_map file_location_of result ≡ named_file_location (option_copied name.entry) region }
{
    match name {
        Some(file) if !file.is_empty() => Some(FileLocation { file, region }),
        _ => None,
    }
}

/// The region of a span, in UTF-16 code units.
fn whole_region(span: SourceSpan, source: &[u8]) -> Option<Region>
    ensures { result ≡ region_of Utf16 source.now span }
{
    region_of(span, source, PositionEncoding::Utf16)
}

/// The name of a source, without a region.
fn source_file_location<'a, S: SourceCode>(
    source: Option<SourceRef<'a, S>>,
) -> Option<FileLocation<'a>>
    ensures { IsSourceFileLocation (opt_ref_source S.source source.entry) (option_map file_location_of result) }
{
    named_file_location(source_location(source).name, None)
}

/// Location of a span in a source. Returns `Refused` if the source can't be read as a whole.
fn span_file_location<'a, S: SourceCode>(
    source: SourceRef<'a, S>,
    span: &SourceSpan,
) -> Result<Option<FileLocation<'a>>, RenderError>
    ensures site { IfOk result (λ site. option_map file_location_of site
        ≡ named_file_location (ref_source S.source source.entry).name
        (region_of Utf16 (ref_source S.source source.entry).bytes span.now)) }
    ensures refused { (result ≡ Err RenderError.Refused) → (ref_source S.source source.entry).always_reads ≡ false }
{
    let begin = SourceSpan::new(SourceOffset::from(0), 0);
    match source.read_span(&begin, 1, usize::MAX) {
        Ok(contents) => {
            let region = whole_region(*span, contents.data());
            Ok(named_file_location(contents.name(), region))
        }
        Err(_) => Err(RenderError::Refused),
    }
}

/// Location of a label. A label without a source is at the name of `source`. Returns `Refused` if a source can't be
/// read.
fn label_file_location<'a, S: SourceCode>(
    source: Option<SourceRef<'a, S>>,
    mark: &LocatedLabel<'a, S>,
) -> Result<Option<FileLocation<'a>>, RenderError>
    ensures site { IfOk result (λ site. IsPrimaryFileLocation (opt_ref_source S.source source.entry)
        (span_of_label (located_label_of S.source mark.now)) (option_map file_location_of site)) }
    ensures refused { (result ≡ Err RenderError.Refused) → IsSpanUnread (span_of_label
        (located_label_of S.source mark.now)) }
{
    match mark.source {
        Some(own) => span_file_location(own, mark.label.inner()),
        None => Ok(source_file_location(source)),
    }
}

/// Location of a span in a source that was read as a whole. Returns `Refused` if that read failed.
fn file_location_over<'a>(
    whole: &WholeSource<'a>,
    span: SourceSpan,
) -> Result<Option<FileLocation<'a>>, RenderError>
    ensures site { IfOk result (λ site. Some (option_map file_location_of site) ≡ file_location_over whole.now span) }
    ensures refused { (result ≡ Err RenderError.Refused) → file_location_over whole.now span ≡ None }
{
    match whole {
        WholeSource::Nowhere => Ok(None),
        WholeSource::Unread => Err(RenderError::Refused),
        WholeSource::Read(text) => Ok(named_file_location(text.name, text.index.region(span))),
    }
}

/// Location of a label in a source that was read as a whole. Returns `Refused` if that read failed.
fn file_location_in_whole<'a, S: SourceCode>(
    whole: &WholeSource<'a>,
    mark: &LocatedLabel<'a, S>,
) -> Result<Option<FileLocation<'a>>, RenderError>
    requires { IsWholeSource (located_label_of S.source mark.now).source whole.now }
    ensures site { IfOk result (λ site. IsPrimaryFileLocation (located_label_of S.source mark.now).source
        (span_of_label (located_label_of S.source mark.now)) (option_map file_location_of site)) }
    ensures refused { (result ≡ Err RenderError.Refused) → IsSpanUnread (span_of_label
        (located_label_of S.source mark.now)) }
{
    let span = *mark.label.inner();
    file_location_over(whole, span)
}

/// Location of a label, in the source that was read as a whole or in another one. Returns `Refused` if its source can't
/// be read.
fn file_location_of_label<'a, S: SourceCode>(
    source: Option<SourceRef<'a, S>>,
    whole: &WholeSource<'a>,
    is_own: bool,
    mark: &LocatedLabel<'a, S>,
) -> Result<Option<FileLocation<'a>>, RenderError>
    requires whole { IsWholeSource (opt_ref_source S.source source) whole.now }
    requires own { is_own ≡ true → (located_label_of S.source mark.now).source ≡ opt_ref_source S.source source }
    ensures site { IfOk result (λ site. IsPrimaryFileLocation (opt_ref_source S.source source.entry)
        (span_of_label (located_label_of S.source mark.now)) (option_map file_location_of site)) }
    ensures refused { (result ≡ Err RenderError.Refused) → IsSpanUnread (span_of_label
        (located_label_of S.source mark.now)) }
{
    if is_own {
        file_location_in_whole(whole, mark)
    } else {
        label_file_location(source, mark)
    }
}

/// Location of a diagnostic: that of its primary label at index `at`, else the name of its source. The first `own`
/// labels are over the source that was read as a whole. Returns `Refused` if a source can't be read.
pub(crate) fn primary_file_location<'a, S: SourceCode>(
    source: Option<SourceRef<'a, S>>,
    whole: &WholeSource<'a>,
    own: usize,
    marks: &[LocatedLabel<'a, S>],
    at: Option<usize>,
) -> Result<Option<FileLocation<'a>>, RenderError>
    requires whole { IsWholeSource (opt_ref_source S.source source) whole.now }
    requires own { AreOver (opt_ref_source S.source source) own (map (located_label_of S.source) marks.now) }
    ensures site { IfOk result (λ site. IsPrimaryFileLocation (opt_ref_source S.source source.entry)
        (span_at at (map (located_label_of S.source) marks.now)) (option_map file_location_of site)) }
    ensures refused { (result ≡ Err RenderError.Refused) →
        IsSpanUnread (span_at at (map (located_label_of S.source) marks.now)) }
{
    let Some(at) = at else {
        return Ok(source_file_location(source));
    };
    match marks.get(at) {
        Some(mark) => file_location_of_label(source, whole, at < own, mark),
        None => Ok(source_file_location(source)),
    }
}
