//! The labels that annotations become, and their lists.

ghost use Rattle.std.specs.Prelude.{◌≡◌, OnOk, map};
ghost use Rattle.std.specs.Option.{option_copied};
ghost use Rattle.miette_read.specs.rules.AnnotationLabels.{is_label_around, is_label_at, main_file_name};
ghost use Rattle.miette_read.specs.rules.AnnotationLabels.{with_more_rows};

use crate::files::BorrowedFile;
use crate::location::{Annotation, ByteRange};
use crate::rows::push_rows_once;
use std::alloc::{AllocError, Global};
use std::marker::Model;

/// A label over a file: its lines of text, and the number of its list.
#[derive(Drop)]
pub(crate) struct FileLabel<'v> {
    pub(crate) name: &'v str,
    pub(crate) stretch: ByteRange,
    pub(crate) primary: bool,
    pub(crate) rows: Vec<String>,
    pub(crate) list: usize,
}

/// The labels so far, the file of each list, and the texts without a location.
#[derive(Drop)]
pub(crate) struct LabelLists<'f, 'v> {
    pub(crate) marks: Vec<FileLabel<'v>>,
    pub(crate) files: Vec<BorrowedFile<'f>>,
    pub(crate) texts: Vec<String>,
}

/// A range in bounds of its file.
#[derive(Drop)]
pub(crate) struct FileRange<'f> {
    pub(crate) file: BorrowedFile<'f>,
    pub(crate) stretch: ByteRange,
}

impl<'v> Model for FileLabel<'v> {
    ghost use Rattle.std.specs.Prelude.{map, string_bytes};
    ghost use Rattle.miette_read.specs.rules.AnnotationLabels as file_labels;

    ghost Value = { file_labels.FileLabel };

    ghost view = { λ it. record {
      name = it.name.now;
      stretch = it.stretch;
      primary = it.primary;
      rows = map string_bytes it.rows.items;
      list = it.list;
    } };
}

impl<'f, 'v> Model for LabelLists<'f, 'v> {
    ghost use Rattle.std.specs.Prelude.{map, string_bytes};
    ghost use Rattle.miette_read.specs.rules.AnnotationLabels as file_labels;

    ghost Value = { file_labels.LabelLists };

    ghost view = { λ it. record {
      marks = it.marks.items;
      files = it.files.items;
      texts = map string_bytes it.texts.items;
    } };
}

impl<'f> Model for FileRange<'f> {
    ghost use Rattle.miette_protocol.specs.rules.Reading.{Source};
    ghost use Rattle.miette_read.specs.rules.Places as places;

    ghost Value = { Source × places.ByteRange };

    ghost view = { λ it. (it.file, it.stretch) };
}

impl<'v> FileLabel<'v> {
    /// Returns whether the label has exactly this range of this file.
    pub(crate) fn is_label_at(&self, name: &str, stretch: ByteRange) -> bool
        ensures { result ≡ is_label_at name.now stretch self.now }
    {
        self.name == name && self.stretch.is_same(stretch)
    }

    /// Returns whether the label contains this range of this file.
    pub(crate) fn is_label_around(&self, name: &str, stretch: ByteRange) -> bool
        ensures { result ≡ is_label_around name.now stretch self.now }
    {
        self.name == name && self.stretch.holds(stretch)
    }

    /// Adds the lines of an annotation if it has the label's range.
    fn add_rows(
        &mut self,
        alloc: Global,
        name: &str,
        stretch: ByteRange,
        told: &Annotation<'_>,
    ) -> Result<(), AllocError>
        ensures { OnOk result (self.new ≡ with_more_rows name.now stretch told.now self.old) }
    {
        if !self.is_label_at(name, stretch) {
            return Ok(());
        }
        push_rows_once(&mut self.rows, alloc, told.rows.as_slice())?;
        self.primary = self.primary || (told.primary && told.own);
        Ok(())
    }
}

/// Returns the file name of the first label, which is that of the first list.
pub(crate) fn first_file_name<'v>(marks: &[FileLabel<'v>]) -> Option<&'v str>
    ensures { option_copied result ≡ main_file_name marks.now }
{
    match marks.first() {
        Some(mark) => Some(mark.name),
        None => None,
    }
}

/// Adds the lines of an annotation to the labels with its range.
pub(crate) fn add_rows_to_all(
    marks: &mut [FileLabel<'_>],
    alloc: Global,
    name: &str,
    stretch: ByteRange,
    told: &Annotation<'_>,
) -> Result<(), AllocError>
    ensures { OnOk result (marks.new ≡ map (with_more_rows name.now stretch told.now) marks.old) }
{
    for mark in marks.iter_mut() {
        mark.add_rows(alloc, name, stretch, told)?;
    }
    Ok(())
}
