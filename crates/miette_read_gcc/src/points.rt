//! Points and locations of GCC's diagnostics.

ghost use Rattle.std.specs.Prelude.{◌≡◌, option_map};
ghost use Rattle.serde_json.specs.View.{view};
ghost use Rattle.miette_protocol.specs.rules.Reading.{Source};
ghost use Rattle.miette_read_gcc.specs.rules.Gcc.{before_column, end_at, event_location, caret_location, offset_of};
ghost use Rattle.miette_read_gcc.specs.rules.Gcc.{location_between, point_at, point_by, shared_file, range_between};
ghost use Rattle.miette_read_gcc.specs.rules.GccReport.{fixit_location};
ghost use Rattle.miette_read_gcc.specs.views.GccContexts.{gcc_context};

use crate::lines::offset_at;
use miette_protocol::source::IndexedSource;
use miette_read::files::{BorrowedFile, Files};
use miette_read::location::{ByteRange, ToolLocation};
use miette_read::members::{member_number, member_object, member_text};
use serde_json::Value;
use std::marker::Model;

/// What locations are looked up with: the files, and the number of a line's first column.
#[derive_where(Clone, Copy)]
pub(crate) struct GccContext<'f, F> {
    pub(crate) files: &'f F,
    pub(crate) origin: u64,
}

/// A point in a file: its line, the bytes before it on that line, and its column as GCC shows it.
#[derive(Drop)]
pub(crate) struct Point<'v> {
    file: &'v str,
    line: Option<u64>,
    before: Option<u64>,
    column: u64,
}

impl<'v> Model for Point<'v> {
    ghost use Rattle.miette_read_gcc.specs.rules.Gcc as gcc;

    ghost Value = { gcc.Point };

    ghost view = { λ it. record {
      file = it.file.now;
      line = it.line;
      before = it.before;
      column = it.column;
    } };
}

/// Returns the number of bytes before a column. Returns `None` if the column is before the line's first one.
fn before_column(origin: u64, column: Option<u64>) -> Option<u64>
    ensures { result ≡ before_column origin column }
{
    let column = column?;
    if origin <= column {
        Some(column - origin)
    } else {
        None
    }
}

/// Returns the point of a value, or one without a file and a line.
fn point_by<'v>(origin: u64, told: Option<&'v Value>) -> Point<'v>
    ensures { result ≡ point_by origin (option_map (λ v. view v.now) told.entry) }
{
    match told {
        Some(point) => Point {
            file: member_text(point, "file").unwrap_or(""),
            line: member_number(point, "line"),
            before: before_column(origin, member_number(point, "byte-column")),
            column: member_number(point, "column").unwrap_or(0),
        },
        None => Point {
            file: "",
            line: None,
            before: None,
            column: 0,
        },
    }
}

/// Returns the point at a key.
pub(crate) fn point_at<'v>(origin: u64, key: &str, value: &'v Value) -> Point<'v>
    ensures { result ≡ point_at origin key.now (view value.now) }
{
    point_by(origin, member_object(value, key))
}

/// Returns the point at a key of a location, or else its caret.
fn end_at<'v>(origin: u64, key: &str, location: &'v Value) -> Point<'v>
    ensures { result ≡ end_at origin key.now (view location.now) }
{
    match member_object(location, key) {
        Some(point) => point_by(origin, Some(point)),
        None => point_at(origin, "caret", location),
    }
}

impl<'v> Point<'v> {
    /// Returns the offset `further` bytes after the point, on its line.
    fn offset(&self, source: &IndexedSource, further: u64) -> Option<usize>
        ensures { result ≡ offset_of source.now further self.now }
    {
        offset_at(source, self.line?, self.before?, further)
    }
}

/// Returns the range from `start` up to `further` bytes after `end`.
fn range_between(
    further: u64,
    start: &Point<'_>,
    end: &Point<'_>,
    file: &BorrowedFile<'_>,
) -> Option<ByteRange>
    ensures { result ≡ range_between further start.now end.now file.now }
{
    let start = start.offset(file.indexed(), 0)?;
    let end = end.offset(file.indexed(), further)?;
    Some(ByteRange { start, end })
}

/// Returns the file of two points, if both are in the same one.
fn shared_file<'f, F: Files>(
    files: &'f F,
    start: &Point<'_>,
    end: &Point<'_>,
) -> Option<BorrowedFile<'f>>
    ensures { result ≡ shared_file (F.found files.now) start.now end.now }
{
    if start.file == end.file {
        files.find(start.file)
    } else {
        None
    }
}

/// Returns the location from `start` up to `further` bytes after `end`.
pub(crate) fn location_between<'v, F: Files>(
    files: &F,
    further: u64,
    start: &Point<'v>,
    end: &Point<'_>,
) -> ToolLocation<'v>
    ensures { result ≡ location_between (F.found files.now) further start.now end.now }
{
    let stretch = match shared_file(files, start, end) {
        Some(file) => range_between(further, start, end, &file),
        None => None,
    };
    ToolLocation {
        name: start.file,
        stretch,
        line: start.line.unwrap_or(0),
        column: start.column,
    }
}

impl<'f, F: Files> GccContext<'f, F> {
    /// Returns a location's range, including the byte at its end point.
    pub(crate) fn caret_location<'v>(&self, location: &'v Value) -> ToolLocation<'v>
        ensures { result ≡ caret_location (gcc_context F.found self.now) (view location.now) }
    {
        let start = end_at(self.origin, "start", location);
        let finish = end_at(self.origin, "finish", location);
        location_between(self.files, 1, &start, &finish)
    }

    /// Returns the location of an event.
    pub(crate) fn event_location<'v>(&self, event: &'v Value) -> ToolLocation<'v>
        ensures { result ≡ event_location (gcc_context F.found self.now) (view event.now) }
    {
        let point = point_at(self.origin, "location", event);
        location_between(self.files, 1, &point, &point)
    }

    /// Returns the location of a fix-it.
    pub(crate) fn fixit_location<'v>(&self, fixit: &'v Value) -> ToolLocation<'v>
        ensures { result ≡ fixit_location (gcc_context F.found self.now) (view fixit.now) }
    {
        let start = point_at(self.origin, "start", fixit);
        let next = point_at(self.origin, "next", fixit);
        location_between(self.files, 0, &start, &next)
    }
}
