//! All snippets of a diagnostic.

ghost use Rattle.std.specs.Prelude.{◌≡◌, Some, None, map, IfOk, MatchResult, if◌then◌else◌};
ghost use Rattle.std.specs.List.{All};
ghost use Rattle.miette_labels.specs.views.Placing.{source_end_from_reads};
ghost use Rattle.miette_labels.specs.views.Reads.{IsRead, reason_name as name_of_reason};
ghost use Rattle.miette_layout.specs.views.PrintedSnippets.{GivesAround, MayGive, RefusesWith, snippet_printing};
ghost use Rattle.miette_layout.specs.views.SourceEnds.{AreEndLines};
ghost use Rattle.miette_snippet_rules.specs.views.SnippetSettings.{settings_of};
ghost use Rattle.miette_labels.specs.views.ProgramLabels.{label_at};
ghost use Rattle.miette_labels.specs.rules.Groups.{in_order};
ghost use Rattle.miette_snippet_rules.specs.rules.Highlighting.{leaves_plain};

use crate::snippet::{Snippet, SnippetDrawing, SweepPosition, push_snippet};
use crate::source_end::asks_for_end;
use miette_highlight::highlight::Highlighter;
use miette_labels::drawn_labels::{place_labels, source_end_from_reads};
use miette_labels::groups::groups;
use miette_labels::order::order_by_offset;
use miette_labels::primary::{primary_location_of, reads_in_span};
use miette_labels::reading::{ReadLabel, ReadLabels, RefusalReason, any_own_context, read_labels};
use miette_labels::sweep::Sweep;
use miette_protocol::error::RenderError;
use miette_protocol::protocol::LabeledSpan;
use miette_protocol::source::SourceCode;
use miette_snippet_folds::label_extents::label_extents;
use miette_snippet_frames::frame::{Frame, push_refused_label};
use miette_snippet_rules::options::{LayoutOptions, SnippetSettings};
use miette_style::canvas::Canvas;
use miette_style::page::RowPrinter;
use std::alloc::AllocError;

// Returns the name of a refusal.
fn reason_name(refusal: RefusalReason) -> &'static str
    ensures { result.now ≡ name_of_reason refusal }
{
    match refusal {
        RefusalReason::IoError => "IoError",
        RefusalReason::OutOfBounds => "OutOfBounds",
    }
}

// Returns the end of the source, if it is wanted and known from the reads of the labels.
fn end_wanted(wanted: bool, reads: &[ReadLabel<'_>]) -> Result<Option<usize>, AllocError>
    ensures { IfOk result (λ end. end ≡ (if wanted then source_end_from_reads reads.now else None)) }
{
    if !wanted {
        return Ok(None);
    }
    source_end_from_reads(reads)
}

// Labels and their reads, sorted by offset.
#[derive(Clone, Copy)]
struct LabelReads<'a, 'b, 'c> {
    labels: &'b [LabeledSpan],
    reads: &'c [ReadLabel<'a>],
}

// Prints the snippets of labels that were read. Returns `None` if a group or a position can't be read.
fn read_snippets<'a, 'b, S: SourceCode, H: Highlighter, O: Canvas + Drop>(
    page: RowPrinter<O>,
    highlighter: &mut Option<H>,
    settings: &SnippetSettings<'b>,
    source: &'a S,
    given: &LabelReads<'a, 'b, '_>,
) -> Result<Option<RowPrinter<O>>, AllocError>
    requires order { map (λ read. label_at given.now.labels.now read.index) given.now.reads.now
        ≡ in_order given.now.labels.now }
    requires each { All (IsRead settings.now.layout.now.context_lines (S.source source.now) given.now.labels.now)
        given.now.reads.now }
    ensures gives { IfOk result (λ made. GivesAround
        (snippet_printing H.is_blank H.may_follow (settings_of settings.now) highlighter.old highlighter.new)
        (S.source source.now) given.now.labels.now page made) }
    ensures stays { leaves_plain H.is_blank highlighter.new ≡ leaves_plain H.is_blank highlighter.old }
{
    let alloc = settings.alloc;
    let labels = given.labels;
    let reads = given.reads;
    let end = end_wanted(settings.layout.end_labels, reads)?;
    let placed = place_labels(alloc, &settings.theme.styles.highlights, end, labels, reads)?;
    let Some(groups) = groups(alloc, source, settings.layout.context_lines, labels, reads)? else {
        return Ok(None);
    };
    let label_extents = label_extents(settings, labels, reads)?;
    let own = any_own_context(labels);
    let drawing = SnippetDrawing {
        settings: *settings,
        placed: &placed,
        label_extents: &label_extents,
    };
    let mut page = page;
    let mut position = SweepPosition {
        sweep: Sweep::new(alloc),
        at: 0,
    };
    for group in &groups {
        let near = reads_in_span(own, &group.span, reads)?;
        let place = primary_location_of(source, own, group.contents.known(), &group.span, near)?;
        if place.is_unread() {
            return Ok(None);
        }
        let snippet = Snippet {
            contents: &group.contents,
            place: place.begins(),
        };
        push_snippet(&mut page, &drawing, highlighter, &mut position, &snippet)?;
    }
    Ok(Some(page))
}

// Prints all snippets with the context lines of these settings, or the one row of a label that is out of bounds.
// Returns `None` if a group or a position can't be read.
fn snippets_around<'b, S: SourceCode, H: Highlighter, O: Canvas + Drop>(
    page: RowPrinter<O>,
    highlighter: &mut Option<H>,
    settings: &SnippetSettings<'b>,
    source: &S,
    labels: &'b [LabeledSpan],
) -> Result<Option<RowPrinter<O>>, AllocError>
    ensures gives { IfOk result (λ made. GivesAround
        (snippet_printing H.is_blank H.may_follow (settings_of settings.now) highlighter.old highlighter.new)
        (S.source source.now) labels.now page made) }
    ensures stays { leaves_plain H.is_blank highlighter.new ≡ leaves_plain H.is_blank highlighter.old }
{
    let order = order_by_offset(settings.alloc, labels)?;
    match read_labels(
        settings.alloc,
        source,
        settings.layout.context_lines,
        labels,
        &order,
    )? {
        ReadLabels::All(reads) => {
            let given = LabelReads {
                labels,
                reads: &reads,
            };
            read_snippets(page, highlighter, settings, source, &given)
        }
        ReadLabels::Refused(index, refusal) => {
            let frame = Frame {
                settings: *settings,
                number_width: 0,
            };
            let mut page = page;
            push_refused_label(&mut page, &frame, &labels[index], reason_name(refusal))?;
            Ok(Some(page))
        }
    }
}

// Returns how many context lines the labels have. If labels at the end are drawn and there would be no context, the end
// of the source is read.
fn end_lines<S: SourceCode>(layout: &LayoutOptions, source: &S, labels: &[LabeledSpan]) -> usize
    ensures { AreEndLines layout.now (S.source source.now) labels.now result }
{
    let lines = layout.context_lines;
    if !layout.end_labels {
        return lines;
    }
    if lines > 0 {
        return lines;
    }
    if asks_for_end(source, labels) {
        return 1;
    }
    0
}

// Prints all snippets, with a line of context if labels at the end of the source need it.
fn all_snippets<'b, S: SourceCode, H: Highlighter, O: Canvas + Drop>(
    page: RowPrinter<O>,
    highlighter: &mut Option<H>,
    settings: &SnippetSettings<'b>,
    source: &S,
    labels: &'b [LabeledSpan],
) -> Result<Option<RowPrinter<O>>, AllocError>
    ensures gives { IfOk result (λ made. MayGive
        (snippet_printing H.is_blank H.may_follow (settings_of settings.now) highlighter.old highlighter.new)
        (S.source source.now) labels.now page made) }
    ensures stays { leaves_plain H.is_blank highlighter.new ≡ leaves_plain H.is_blank highlighter.old }
{
    let context_lines = end_lines(settings.layout, source, labels);
    let layout = LayoutOptions {
        context_lines,
        ..*settings.layout
    };
    let settings = SnippetSettings {
        layout: &layout,
        ..*settings
    };
    snippets_around(page, highlighter, &settings, source, labels)
}

/// Prints the snippets of a diagnostic after what is on the page: frames, numbered lines, underlines and label texts.
/// If a label is out of bounds, prints one row about the first such label instead.
///
/// The highlighter is restarted for each snippet with the contents of its read. Then it gets the decoded text of each
/// line, in order. If labels at the end of the source are drawn and one of them needs the last line, labels without
/// their own number get at least one line of context.
///
/// # Errors
/// - `Refused` if the source refuses the position of a label, or a group of labels with their own numbers of context
/// lines. A source that always reads never does.
/// - `Memory` if allocation fails, also in the highlighter.
pub fn snippets<'b, S: SourceCode, H: Highlighter, O: Canvas + Drop>(
    page: RowPrinter<O>,
    highlighter: &mut Option<H>,
    settings: &SnippetSettings<'b>,
    source: &S,
    labels: &'b [LabeledSpan],
) -> Result<RowPrinter<O>, RenderError>
    ensures gives { MatchResult result
        (λ made. MayGive
        (snippet_printing H.is_blank H.may_follow (settings_of settings.now) highlighter.old highlighter.new)
        (S.source source.now) labels.now page (Some made))
        (λ e. RefusesWith
        (snippet_printing H.is_blank H.may_follow (settings_of settings.now) highlighter.old highlighter.new)
        (S.source source.now) labels.now page e) }
    ensures stays { leaves_plain H.is_blank highlighter.new ≡ leaves_plain H.is_blank highlighter.old }
{
    match all_snippets(page, highlighter, settings, source, labels) {
        Ok(Some(page)) => Ok(page),
        Ok(None) => Err(RenderError::Refused),
        Err(_) => Err(RenderError::Memory),
    }
}
