//! Positions and ranges of the protocol: lines and UTF-16 code units, both from 0.

ghost use Rattle.std.specs.Prelude.{◌≡◌, OnOk};
ghost use Rattle.std.specs.Option.{option_map};
ghost use Rattle.miette_json.specs.rules.Writing.{with_value};
ghost use Rattle.miette_lsp.specs.rules.Diagnostics.{area_range, location_value, origin, lsp_position_value};
ghost use Rattle.miette_lsp.specs.rules.Diagnostics.{primary_area};
ghost use Rattle.miette_lsp.specs.rules.Diagnostics.{place_area, lsp_range_value, stretch_range};
ghost use Rattle.miette_sarif.specs.views.Findings.{area_of, mark_of, place_of};

use miette_json::writer::JsonWriter;
use miette_positions::position::{Position, Stretch};
use miette_sarif::finding::{PhysicalLocation, SarifLocation, SarifRegion};
use std::alloc::AllocError;

// `{"line": 1,"character": 2}`
fn push_position(json: &mut JsonWriter, at: Position) -> Result<(), AllocError>
    ensures { OnOk result (json.new ≡ with_value (lsp_position_value at) json.old) }
{
    json.begin_object()?;
    json.number_member("line", at.line)?;
    json.number_member("character", at.column)?;
    json.end_object()
}

/// Writes `{"start": {..},"end": {..}}`.
///
/// # Errors
/// `AllocError` if allocation fails.
pub fn push_range(json: &mut JsonWriter, start: Position, end: Position) -> Result<(), AllocError>
    ensures { OnOk result (json.new ≡ with_value (lsp_range_value start end) json.old) }
{
    json.begin_object()?;
    json.key("start")?;
    push_position(json, start)?;
    json.key("end")?;
    push_position(json, end)?;
    json.end_object()
}

/// Writes the range of a span in a source.
pub(crate) fn push_stretch_range(json: &mut JsonWriter, stretch: &Stretch) -> Result<(), AllocError>
    ensures { OnOk result (json.new ≡ with_value (stretch_range stretch.now) json.old) }
{
    push_range(json, stretch.start.position, stretch.end.position)
}

// The beginning of a source.
fn origin() -> Position
    ensures { result ≡ origin }
{
    Position { line: 0, column: 0 }
}

/// Writes the range of a region. If the region is unknown, it is the empty range at the beginning.
pub(crate) fn push_area_range(
    json: &mut JsonWriter,
    area: Option<SarifRegion<'_>>,
) -> Result<(), AllocError>
    ensures { OnOk result (json.new ≡ with_value (area_range (option_map area_of area.entry)) json.old) }
{
    match area {
        Some(area) => push_stretch_range(json, &area.stretch),
        None => push_range(json, origin(), origin()),
    }
}

// The region of a location, if it is known.
fn place_area<'a>(place: &Option<PhysicalLocation<'a>>) -> Option<SarifRegion<'a>>
    ensures { option_map area_of result ≡ place_area (option_map place_of place.now) }
{
    match place {
        Some(place) => place.area,
        None => None,
    }
}

/// The region of the primary label, if it is known.
pub(crate) fn primary_area<'a>(primary: &Option<SarifLocation<'a>>) -> Option<SarifRegion<'a>>
    ensures { option_map area_of result ≡ primary_area (option_map mark_of primary.now) }
{
    match primary {
        Some(mark) => place_area(&mark.place),
        None => None,
    }
}

/// Writes `{"uri": "b.rs","range": {..}}`.
pub(crate) fn push_location(
    json: &mut JsonWriter,
    uri: &str,
    area: Option<SarifRegion<'_>>,
) -> Result<(), AllocError>
    ensures { OnOk result (json.new
        ≡ with_value (location_value uri.now (option_map area_of area.entry)) json.old) }
{
    json.begin_object()?;
    json.string_member("uri", uri)?;
    json.key("range")?;
    push_area_range(json, area)?;
    json.end_object()
}
