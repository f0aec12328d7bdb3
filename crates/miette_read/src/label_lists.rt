//! Turns annotations into labels, in lists over files, and into texts without a location.

ghost use Rattle.std.specs.Prelude.{◌≡◌, IfOk, OnOk, [], length, map, option_map, string_bytes};
ghost use Rattle.std.specs.List.{list_any};
ghost use Rattle.miette_read.specs.rules.Places.{join_rows};
ghost use Rattle.miette_read.specs.rules.AnnotationLabels.{clashes_in_list, first_accepting, file_range};
ghost use Rattle.miette_read.specs.rules.AnnotationLabels.{is_label_around, is_label_at, accepts_label};
ghost use Rattle.miette_read.specs.rules.AnnotationLabels.{with_labeled, maybe_text, meets, new_label, with_new_label};
ghost use Rattle.miette_read.specs.rules.AnnotationLabels.{label_lists};
ghost use Rattle.miette_read.specs.rules.AnnotationLabels.{no_label_lists, with_located, with_annotation};
ghost use Rattle.miette_read.specs.rules.AnnotationLabels.{with_file_label, with_rows};
ghost use Rattle.miette_read.specs.rules.AnnotationLabels.{with_text};

use crate::file_labels::{FileLabel, FileRange, LabelLists, add_rows_to_all};
use crate::files::{BorrowedFile, Files};
use crate::lists::push_item;
use crate::location::{Annotation, ByteRange, ToolLocation, join_rows};
use crate::rows::{push_row_once, push_rows_once};
use std::alloc::{AllocError, Global};

/// Returns the file and range of a location, if the range is in bounds.
pub(crate) fn file_range<'f, F: Files>(
    files: &'f F,
    place: &ToolLocation<'_>,
) -> Option<FileRange<'f>>
    ensures { result ≡ file_range (F.found files.now) place.now }
{
    let file = files.find(place.name)?;
    let stretch = place.stretch?;
    if stretch.is_within(file.bytes()) {
        Some(FileRange { file, stretch })
    } else {
        None
    }
}

/// Returns whether a label has exactly this range.
fn any_at(marks: &[FileLabel<'_>], name: &str, stretch: ByteRange) -> bool
    ensures { result ≡ list_any (is_label_at name.now stretch) marks.now }
{
    marks.iter().any(|mark| mark.is_label_at(name, stretch))
}

/// Returns whether a label contains this range.
fn any_around(marks: &[FileLabel<'_>], name: &str, stretch: ByteRange) -> bool
    ensures { result ≡ list_any (is_label_around name.now stretch) marks.now }
{
    marks.iter().any(|mark| mark.is_label_around(name, stretch))
}

/// A label that isn't in a list yet.
#[derive(Drop)]
struct NewLabel<'a> {
    name: &'a str,
    bytes: &'a [u8],
    stretch: ByteRange,
    own: bool,
}

impl<'a> NewLabel<'a> {
    /// Returns whether this label in `list` lets the new one join: they are of one file, and near or the message's own.
    fn meets(&self, list: usize, mark: &FileLabel<'_>) -> bool
        ensures { result ≡ meets self.now.name.now self.now.bytes.now self.now.stretch self.now.own list
            mark.now }
    {
        mark.list == list
            && (mark.name == self.name
                && (self.own || mark.stretch.is_near(self.stretch, self.bytes)))
    }

    /// Returns whether the new label clashes with this label in `list`.
    fn clashes(&self, list: usize, mark: &FileLabel<'_>) -> bool
        ensures { result ≡ clashes_in_list self.now.bytes.now self.now.stretch list mark.now }
    {
        mark.list == list && mark.stretch.clashes(self.stretch, self.bytes)
    }

    /// Returns whether one of these labels in `list` lets the new one join.
    fn meets_any(&self, list: usize, marks: &[FileLabel<'_>]) -> bool
        ensures { result ≡ list_any (meets self.now.name.now self.now.bytes.now self.now.stretch self.now.own list)
            marks.now }
    {
        marks.iter().any(|mark| self.meets(list, mark))
    }

    /// Returns whether the new label clashes with one of these labels in `list`.
    fn clashes_with_any(&self, list: usize, marks: &[FileLabel<'_>]) -> bool
        ensures { result ≡ list_any (clashes_in_list self.now.bytes.now self.now.stretch list) marks.now }
    {
        marks.iter().any(|mark| self.clashes(list, mark))
    }

    /// Returns whether the new label may join a list.
    fn may_join(&self, list: usize, marks: &[FileLabel<'_>]) -> bool
        ensures { result ≡ accepts_label marks.now self.now.name.now self.now.bytes.now self.now.stretch
            self.now.own list }
    {
        self.meets_any(list, marks) && !self.clashes_with_any(list, marks)
    }

    /// Returns the first list that the label may join, or `count` for a new list.
    fn list(&self, count: usize, marks: &[FileLabel<'_>]) -> usize
        ensures { result ≡ first_accepting (accepts_label marks.now self.now.name.now self.now.bytes.now
            self.now.stretch
            self.now.own) 0 count }
    {
        for list in 0..count {
            if self.may_join(list, marks) {
                return list;
            }
        }
        count
    }
}

impl<'f, 'v> LabelLists<'f, 'v> {
    /// Starts without labels.
    fn new(alloc: Global) -> LabelLists<'f, 'v>
        ensures { result ≡ no_label_lists }
    {
        LabelLists {
            marks: Vec::new(alloc),
            files: Vec::new(alloc),
            texts: Vec::new(alloc),
        }
    }

    /// Adds a text without a location, unless it is there already.
    fn push_text(&mut self, alloc: Global, text: &str) -> Result<(), AllocError>
        ensures { OnOk result (self.new ≡ with_text self.old text.now) }
    {
        push_row_once(&mut self.texts, alloc, text)
    }

    /// Adds a label over a file. It starts a new list if its list number is new.
    fn push_file_label(
        &mut self,
        file: BorrowedFile<'f>,
        mark: FileLabel<'v>,
    ) -> Result<(), AllocError>
        ensures { OnOk result (self.new ≡ with_file_label self.old file.entry mark.entry) }
    {
        if mark.list == self.files.len() {
            push_item(&mut self.files, file)?;
        }
        push_item(&mut self.marks, mark)
    }

    /// Adds a new label for an annotation.
    fn add_new_label(
        &mut self,
        alloc: Global,
        name: &'v str,
        found: FileRange<'f>,
        told: &Annotation<'v>,
    ) -> Result<(), AllocError>
        ensures { OnOk result (self.new
            ≡ with_new_label self.old name.now found.entry.0 found.entry.1 told.now) }
    {
        let FileRange { file, stretch } = found;
        let count = self.files.len();
        let asked = NewLabel {
            name,
            bytes: file.bytes(),
            stretch,
            own: told.own,
        };
        let list = asked.list(count, self.marks.as_slice());
        let mut rows = Vec::new(alloc);
        push_rows_once(&mut rows, alloc, told.rows.as_slice())?;
        let mark = FileLabel {
            name,
            stretch,
            primary: told.primary && (told.own || list == count),
            rows,
            list,
        };
        self.push_file_label(file, mark)
    }

    /// Adds an annotation whose location is found: to a label with the same range, or as a new label. One without text
    /// is dropped if a label contains it.
    fn mark(
        &mut self,
        alloc: Global,
        name: &'v str,
        found: FileRange<'f>,
        told: &Annotation<'v>,
    ) -> Result<(), AllocError>
        ensures { OnOk result (self.new ≡ with_labeled self.old name.now found.entry.0 found.entry.1 told.now) }
    {
        if any_at(self.marks.as_slice(), name, found.stretch) {
            return add_rows_to_all(&mut self.marks, alloc, name, found.stretch, told);
        }
        if told.rows.is_empty() && any_around(self.marks.as_slice(), name, found.stretch) {
            return Ok(());
        }
        self.add_new_label(alloc, name, found, told)
    }

    /// Adds the lines as a text without a location, if there are any.
    fn push_joined(&mut self, alloc: Global, rows: &[String]) -> Result<(), AllocError>
        ensures { OnOk result (self.new ≡ maybe_text self.old (join_rows (map string_bytes rows.now))) }
    {
        match join_rows(alloc, rows)? {
            Some(text) => self.push_text(alloc, text.as_str()),
            None => Ok(()),
        }
    }

    /// Adds an annotation.
    fn add_annotation<F: Files>(
        &mut self,
        alloc: Global,
        files: &'f F,
        told: &Annotation<'v>,
    ) -> Result<(), AllocError>
        ensures { OnOk result (self.new ≡ with_annotation (F.found files.now) self.old told.now) }
    {
        let Some(place) = &told.place else {
            return self.push_joined(alloc, told.rows.as_slice());
        };
        match file_range(files, place) {
            Some(found) => self.mark(alloc, place.name, found, told),
            None => {
                let text = place.text(alloc, told.rows.as_slice())?;
                self.push_text(alloc, text.as_str())
            }
        }
    }
}

/// Returns the labels and texts of all annotations.
pub(crate) fn label_lists<'f, 'v, F: Files>(
    alloc: Global,
    files: &'f F,
    told: &[Annotation<'v>],
) -> Result<LabelLists<'f, 'v>, AllocError>
    ensures { IfOk result (λ it. it ≡ label_lists (F.found files.now) told.now) }
{
    let mut done = LabelLists::new(alloc);
    for one in told {
        done.add_annotation(alloc, files, one)?;
    }
    Ok(done)
}
