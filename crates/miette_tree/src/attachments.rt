//! What a report stores besides its diagnostic: labels over further sources, and fixes.
ghost use Rattle.std.specs.Prelude.{◌≡◌, IfOk};
ghost use Rattle.miette_tree.specs.views.Attachments.{snippets_in, fixes_in};

use crate::owned::{OwnedSource, ReportSource, SourceRef};
use miette_fixes::fix::Fix;
use miette_protocol::protocol::LabeledSpan;
use miette_protocol::source::SourceCode;
use std::alloc::{AllocError, Global};

/// Labels of a report over a further source.
#[derive(Drop)]
pub struct Snippets<S = Box<dyn SourceCode>> {
    place: ReportSource<S>,
    labels: Vec<LabeledSpan>,
}

impl<S: SourceCode> Snippets<S> {
    ghost use Rattle.miette_tree.specs.views.Attachments.{section_of};
    ghost use Rattle.miette_tree.specs.views.Owned.{owned_source, ref_source};

    /// Creates labels over a boxed source. Does not allocate.
    pub fn over(source: S, labels: Vec<LabeledSpan>) -> Snippets<S>
        ensures { section_of S.source result ≡ record { source = S.source source; labels = labels.items } }
    {
        Snippets {
            place: ReportSource::Boxed(source),
            labels,
        }
    }

    /// Creates labels over an owned source. Does not allocate.
    pub fn over_owned(source: OwnedSource, labels: Vec<LabeledSpan>) -> Snippets<S>
        ensures { section_of S.source result ≡ record { source = owned_source source; labels = labels.items } }
    {
        Snippets {
            place: ReportSource::Owned(source),
            labels,
        }
    }

    /// Returns the source.
    pub fn source(&self) -> SourceRef<'_, S>
        ensures { ref_source S.source result ≡ (section_of S.source self.now).source }
    {
        SourceRef::to(&self.place)
    }

    /// Returns the labels over that source.
    pub fn labels(&self) -> &[LabeledSpan]
        ensures { result.now ≡ (section_of S.source self.now).labels }
    {
        self.labels.as_slice()
    }
}

/// The labels over further sources and the fixes of a report. They are boxed, so that a report without them is small.
#[derive(Drop)]
pub(crate) struct Attachments<S> {
    pub(crate) snippets: Vec<Snippets<S>>,
    pub(crate) fixes: Vec<Fix>,
}

/// Returns the given attachments, or a new empty box if there are none.
pub(crate) fn attachments_or_new<S: Drop>(
    alloc: Global,
    kept: Option<Box<Attachments<S>>>,
) -> Result<Box<Attachments<S>>, AllocError>
    ensures snippets { IfOk result (λ b. b.value.snippets.items ≡ snippets_in kept) }
    ensures fixes { IfOk result (λ b. b.value.fixes.items ≡ fixes_in kept) }
{
    if let Some(kept) = kept {
        return Ok(kept);
    }
    let nothing = Attachments {
        snippets: Vec::new(alloc),
        fixes: Vec::new(alloc),
    };
    match Box::new(alloc, nothing) {
        Ok(place) => Ok(place),
        Err(_) => Err(AllocError),
    }
}
