//! The annotations of a GCC diagnostic.

ghost use Rattle.std.specs.Prelude.{◌≡◌, ◌++◌, ◌∷◌, [], IfOk, OnOk, false, map, string_bytes};
ghost use Rattle.std.specs.List.{flat_map};
ghost use Rattle.std.specs.Option.{option_copied};
ghost use Rattle.serde_json.specs.View.{view};
ghost use Rattle.miette_read.specs.rules.Rustc.{maybe_row};
ghost use Rattle.miette_read.specs.views.Values.{values_behind};
ghost use Rattle.miette_read_gcc.specs.rules.Gcc.{event_row, event_annotation, event_annotations, location_annotation};
ghost use Rattle.miette_read_gcc.specs.rules.Gcc.{location_annotations};
ghost use Rattle.miette_read_gcc.specs.rules.Gcc.{message_of, note_annotations, diagnostic_annotations};
ghost use Rattle.miette_read_gcc.specs.views.GccContexts.{gcc_context};

use crate::points::GccContext;
use miette_lines::numbers::push_number;
use miette_read::files::Files;
use miette_read::lists::push_item;
use miette_read::location::{Annotation, ToolLocation};
use miette_read::members::{member_nonempty_text, member_objects, member_text};
use miette_read::rows::push_row_copy;
use serde_json::Value;
use std::alloc::{AllocError, Global};

/// Returns the text of a diagnostic or note, or an empty text.
pub(crate) fn message_of(value: &Value) -> &str
    ensures { result.now ≡ message_of (view value.now) }
{
    member_text(value, "message").unwrap_or("")
}

/// Appends a copy of a line, if there is one.
fn push_maybe(rows: &mut Vec<String>, alloc: Global, row: Option<&str>) -> Result<(), AllocError>
    ensures { OnOk result (map string_bytes rows.new.items
        ≡ map string_bytes rows.old.items ++ maybe_row (option_copied row.entry)) }
{
    match row {
        Some(row) => push_row_copy(rows, alloc, row),
        None => Ok(()),
    }
}

/// Returns the annotation of a location. A note's first location has the note's message before its label.
fn location_annotation<'v, F: Files>(
    alloc: Global,
    context: &GccContext<'_, F>,
    note: Option<&str>,
    first: bool,
    location: &'v Value,
) -> Result<Annotation<'v>, AllocError>
    ensures { IfOk result (λ it. it ≡ location_annotation (gcc_context F.found context.now)
        (option_copied note.entry) first (view location.now)) }
{
    let mut rows = Vec::new(alloc);
    if first {
        push_maybe(&mut rows, alloc, note)?;
    }
    push_maybe(&mut rows, alloc, member_nonempty_text(location, "label"))?;
    Ok(Annotation {
        rows,
        place: Some(context.caret_location(location)),
        primary: first,
        own: note.is_none(),
    })
}

/// Appends the annotations of locations. The first one is primary.
fn push_locations<'v, F: Files>(
    list: &mut Vec<Annotation<'v>>,
    alloc: Global,
    context: &GccContext<'_, F>,
    note: Option<&str>,
    locations: &[&'v Value],
) -> Result<(), AllocError>
    ensures { OnOk result (list.new.items ≡ list.old.items
        ++ location_annotations (gcc_context F.found context.now) (option_copied note.entry)
        (values_behind locations.now)) }
{
    let Some((first, rest)) = locations.split_first() else {
        return Ok(());
    };
    let told = location_annotation(alloc, context, note, true, *first)?;
    push_item(list, told)?;
    for location in rest {
        let told = location_annotation(alloc, context, note, false, *location)?;
        push_item(list, told)?;
    }
    Ok(())
}

/// Returns the text of an event, like `(1) entry to 'f'`.
fn event_row(alloc: Global, number: usize, event: &Value) -> Result<String, AllocError>
    ensures { IfOk result (λ row. string_bytes row ≡ event_row number (view event.now)) }
{
    let mut row = String::from_str(alloc, "(")?;
    push_number(&mut row, number)?;
    row.push_str(") ")?;
    row.push_str(member_text(event, "description").unwrap_or(""))?;
    Ok(row)
}

/// Returns an annotation of one line that isn't the diagnostic's own.
fn row_annotation<'v>(
    alloc: Global,
    row: &str,
    place: Option<ToolLocation<'v>>,
) -> Result<Annotation<'v>, AllocError>
    ensures { IfOk result (λ it. it
        ≡ record { rows = row.now ∷ []; place = place.entry; primary = false; own = false }) }
{
    let mut rows = Vec::new(alloc);
    push_row_copy(&mut rows, alloc, row)?;
    Ok(Annotation {
        rows,
        place,
        primary: false,
        own: false,
    })
}

/// Appends the numbered events of a path.
fn push_events<'v, F: Files>(
    list: &mut Vec<Annotation<'v>>,
    alloc: Global,
    context: &GccContext<'_, F>,
    events: &[&'v Value],
) -> Result<(), AllocError>
    ensures { OnOk result (list.new.items
        ≡ list.old.items ++ event_annotations (gcc_context F.found context.now) 1 (values_behind events.now)) }
{
    let mut number = 1;
    for event in events {
        let row = event_row(alloc, number, *event)?;
        let told = row_annotation(alloc, row.as_str(), Some(context.event_location(*event)))?;
        push_item(list, told)?;
        number += 1;
    }
    Ok(())
}

/// Appends the annotations of a note. A note without locations is an annotation without a location.
fn push_note<'v, F: Files>(
    list: &mut Vec<Annotation<'v>>,
    alloc: Global,
    context: &GccContext<'_, F>,
    note: &'v Value,
) -> Result<(), AllocError>
    ensures { OnOk result (list.new.items
        ≡ list.old.items ++ note_annotations (gcc_context F.found context.now) (view note.now)) }
{
    let locations = member_objects(alloc, note, "locations")?;
    if locations.is_empty() {
        let told = row_annotation(alloc, message_of(note), None)?;
        return push_item(list, told);
    }
    push_locations(
        list,
        alloc,
        context,
        Some(message_of(note)),
        locations.as_slice(),
    )
}

/// Appends the annotations of notes.
fn push_notes<'v, F: Files>(
    list: &mut Vec<Annotation<'v>>,
    alloc: Global,
    context: &GccContext<'_, F>,
    notes: &[&'v Value],
) -> Result<(), AllocError>
    ensures { OnOk result (list.new.items
        ≡ list.old.items ++ flat_map (note_annotations (gcc_context F.found context.now)) (values_behind notes.now)) }
{
    for note in notes {
        push_note(list, alloc, context, *note)?;
    }
    Ok(())
}

/// Returns all annotations of a diagnostic: its own locations, the events of its path, and its notes.
pub(crate) fn diagnostic_annotations<'v, F: Files>(
    alloc: Global,
    context: &GccContext<'_, F>,
    diagnostic: &'v Value,
) -> Result<Vec<Annotation<'v>>, AllocError>
    ensures { IfOk result (λ list. list.items ≡ diagnostic_annotations (gcc_context F.found context.now)
        (view diagnostic.now)) }
{
    let locations = member_objects(alloc, diagnostic, "locations")?;
    let events = member_objects(alloc, diagnostic, "path")?;
    let notes = member_objects(alloc, diagnostic, "children")?;
    let mut list = Vec::new(alloc);
    push_locations(&mut list, alloc, context, None, locations.as_slice())?;
    push_events(&mut list, alloc, context, events.as_slice())?;
    push_notes(&mut list, alloc, context, notes.as_slice())?;
    Ok(list)
}
