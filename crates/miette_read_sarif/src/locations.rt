//! Locations of results, with file names decoded from URIs.

ghost use Rattle.std.specs.Prelude.{◌≡◌, IfOk, map, option_map, string_bytes};
ghost use Rattle.serde_json.specs.View.{view};
ghost use Rattle.miette_read.specs.rules.Rustc.{maybe_row};
ghost use Rattle.miette_read_sarif.specs.rules.Results.{file_at, file_by, file_of, location_of, physical};
ghost use Rattle.miette_read_sarif.specs.rules.Results.{region_location};
ghost use Rattle.miette_read_sarif.specs.rules.Results.{region_of, with_begin, with_uri};
ghost use Rattle.miette_read_sarif.specs.rules.Regions.{start_column, start_line};
ghost use Rattle.miette_read_sarif.specs.views.RunContexts.{run_context};

use crate::context::RunContext;
use crate::descriptors::item_at;
use crate::lines::FileLines;
use crate::regions::{has_begin, region_range, start_column, start_line};
use miette_read::files::Files;
use miette_read::location::{Annotation, ByteRange, ToolLocation};
use miette_read::members::{member_number, member_object, member_text};
use miette_read::rows::push_row_copy;
use serde_json::Value;
use std::alloc::{AllocError, Global};
use std::marker::Model;

/// A location that owns its file name.
#[derive(Drop)]
pub(crate) struct OwnedLocation {
    pub(crate) name: String,
    pub(crate) stretch: Option<ByteRange>,
    pub(crate) line: u64,
    pub(crate) column: u64,
}

/// An annotation that owns its text: at most one line, and a location if it has one.
#[derive(Drop)]
pub(crate) struct OwnedAnnotation {
    pub(crate) row: Option<String>,
    pub(crate) place: Option<OwnedLocation>,
    pub(crate) primary: bool,
    pub(crate) own: bool,
}

impl Model for OwnedLocation {
    ghost use Rattle.std.specs.Prelude.{string_bytes};
    ghost use Rattle.miette_read.specs.rules.Places as places;

    ghost Value = { places.ToolLocation };

    ghost view = { λ it. record {
      name = string_bytes it.name;
      stretch = it.stretch;
      line = it.line;
      column = it.column;
    } };
}

impl Model for OwnedAnnotation {
    ghost use Rattle.std.specs.Prelude.{option_map, string_bytes};
    ghost use Rattle.miette_read.specs.rules.Places as places;
    ghost use Rattle.miette_read.specs.rules.Rustc.{maybe_row};

    ghost Value = { places.Annotation };

    ghost view = { λ it. record {
      rows = maybe_row (option_map string_bytes it.row);
      place = it.place;
      primary = it.primary;
      own = it.own;
    } };
}

impl OwnedLocation {
    /// Borrows the location.
    pub(crate) fn borrowed(&self) -> ToolLocation<'_>
        ensures { result ≡ self.now }
    {
        ToolLocation {
            name: self.name.as_str(),
            stretch: self.stretch,
            line: self.line,
            column: self.column,
        }
    }
}

/// Returns a list with the line, if there is one.
fn rows_of(alloc: Global, row: &Option<String>) -> Result<Vec<String>, AllocError>
    ensures { IfOk result (λ rows. map string_bytes rows.items ≡ maybe_row (option_map string_bytes row.now)) }
{
    let mut rows = Vec::new(alloc);
    if let Some(row) = row {
        push_row_copy(&mut rows, alloc, row.as_str())?;
    }
    Ok(rows)
}

impl OwnedAnnotation {
    /// Borrows the annotation's file name, and copies its text.
    pub(crate) fn told(&self, alloc: Global) -> Result<Annotation<'_>, AllocError>
        ensures { IfOk result (λ it. it ≡ self.now) }
    {
        let rows = rows_of(alloc, &self.row)?;
        let place = match &self.place {
            Some(place) => Some(place.borrowed()),
            None => None,
        };
        Ok(Annotation {
            rows,
            place,
            primary: self.primary,
            own: self.own,
        })
    }
}

/// Returns a location that has a URI.
fn with_uri(location: &Value) -> Option<&Value>
    ensures { option_map (λ v. view v.now) result ≡ with_uri (view location.now) }
{
    if member_text(location, "uri").is_some() {
        Some(location)
    } else {
        None
    }
}

/// Returns the location of an artifact.
fn location_of(artifact: &Value) -> Option<&Value>
    ensures { option_map (λ v. view v.now) result ≡ location_of (view artifact.now) }
{
    with_uri(member_object(artifact, "location")?)
}

/// Returns the physical location of a location.
fn physical(location: &Value) -> Option<&Value>
    ensures { option_map (λ v. view v.now) result ≡ physical (view location.now) }
{
    member_object(location, "physicalLocation")
}

/// Returns a region that has a start.
fn with_begin(region: &Value) -> Option<&Value>
    ensures { option_map (λ v. view v.now) result ≡ with_begin (view region.now) }
{
    if has_begin(region) {
        Some(region)
    } else {
        None
    }
}

/// Returns the region of a location.
pub(crate) fn region_of(location: &Value) -> Option<&Value>
    ensures { option_map (λ v. view v.now) result ≡ region_of (view location.now) }
{
    with_begin(member_object(physical(location)?, "region")?)
}

/// Returns the location of a region whose byte range is known.
pub(crate) fn location_with_range(
    name: String,
    stretch: Option<ByteRange>,
    region: &Value,
) -> OwnedLocation
    ensures { result ≡ record {
      name = string_bytes name;
      stretch = stretch;
      line = start_line (view region.now);
      column = start_column (view region.now);
    } }
{
    OwnedLocation {
        name,
        stretch,
        line: start_line(region),
        column: start_column(region),
    }
}

impl<'f, 'l, 'v, F: Files> RunContext<'f, 'l, 'v, F> {
    /// Returns the location itself if it has a URI, or else that of the artifact with its index.
    fn file_by(&self, location: &'v Value) -> Option<&'v Value>
        ensures { option_map (λ v. view v.now) result ≡ file_by (run_context F.found self.now) (view location.now) }
    {
        match with_uri(location) {
            Some(location) => Some(location),
            None => location_of(item_at(
                self.lists.artifacts.as_slice(),
                member_number(location, "index"),
            )?),
        }
    }

    /// Returns the file location of a physical location or artifact change.
    pub(crate) fn file_at(&self, value: &'v Value) -> Option<&'v Value>
        ensures { option_map (λ v. view v.now) result ≡ file_at (run_context F.found self.now) (view value.now) }
    {
        self.file_by(member_object(value, "artifactLocation")?)
    }

    /// Returns the file location of a location.
    pub(crate) fn file_of(&self, location: &'v Value) -> Option<&'v Value>
        ensures { option_map (λ v. view v.now) result ≡ file_of (run_context F.found self.now) (view location.now) }
    {
        self.file_at(physical(location)?)
    }

    /// Returns the byte range of a region, if its file is found.
    pub(crate) fn region_range_in_file(&self, name: &str, region: &Value) -> Option<ByteRange>
        ensures { result ≡ (region_location (run_context F.found self.now) name.now (view region.now)).stretch }
    {
        match self.files.find(name) {
            Some(file) => {
                let lines = FileLines {
                    ends: &self.lists.ends,
                    bytes: file.bytes(),
                    starts: self.starts_at(name),
                };
                region_range(self.encoding, &lines, region)
            }
            None => None,
        }
    }

    /// Returns the location of a region in a file.
    pub(crate) fn region_location(&self, name: String, region: &Value) -> OwnedLocation
        ensures { result ≡ region_location (run_context F.found self.now) (string_bytes name) (view region.now) }
    {
        let stretch = self.region_range_in_file(name.as_str(), region);
        location_with_range(name, stretch, region)
    }
}
