//! Locations without a region, which are whole files, and the source of a report.

ghost use Rattle.std.specs.Prelude.{◌≡◌, ℕ, List, [], ◌++◌, Some, true, IfOk, OnOk, find, map, option_and_then};
ghost use Rattle.std.specs.Prelude.{option_map, string_bytes};
ghost use Rattle.std.specs.List.{cons_option, filter_map, flat_map};
ghost use Rattle.std.specs.Option.{option_copied};
ghost use Rattle.serde_json.specs.View.{view};
ghost use Rattle.miette_protocol.specs.rules.Reading.{Source};
ghost use Rattle.miette_read.specs.views.Values.{values_behind};
ghost use Rattle.miette_read_sarif.specs.rules.Results.{unlocated_text};
ghost use Rattle.miette_read_sarif.specs.rules.Wholes.{all_annotations, bare_file, file_named, found_file, is_found};
ghost use Rattle.miette_read_sarif.specs.rules.Wholes.{is_other};
ghost use Rattle.miette_read_sarif.specs.rules.Wholes.{is_there, file_name_annotation, notification_file_annotations};
ghost use Rattle.miette_read_sarif.specs.rules.Wholes.{annotated_file, result_file_annotations};
ghost use Rattle.miette_read_sarif.specs.rules.Wholes.{whole_file, own_whole_file};
ghost use Rattle.miette_read_sarif.specs.views.RunContexts.{run_context};
ghost use denote.Ref.{Bor};

use crate::bases::file_name;
use crate::context::RunContext;
use crate::locations::{OwnedAnnotation, region_of};
use crate::result_annotations::row_of;
use miette_read::files::{BorrowedFile, Files};
use miette_read::lists::push_item;
use miette_read::location::Annotation;
use miette_read::members::member_objects;
use miette_read::rows::push_row_copy;
use miette_read::suggestions::FileEdit;
use serde_json::Value;
use std::alloc::{AllocError, Global};
use std::marker::Model;

/// The annotations of a result, the names of its whole files, and the names of whole files without text.
#[derive(Drop)]
pub(crate) struct FileAnnotations {
    told: Vec<OwnedAnnotation>,
    wholes: Vec<String>,
    bares: Vec<String>,
}

impl Model for FileAnnotations {
    ghost use Rattle.std.specs.Prelude.{map, string_bytes};
    ghost use Rattle.miette_read_sarif.specs.rules.Wholes as told_files;

    ghost Value = { told_files.FileAnnotations };

    ghost view = { λ it. record {
      told = it.told.items;
      wholes = map string_bytes it.wholes.items;
      bares = map string_bytes it.bares.items;
    } };
}

/// Appends a name, if there is one.
fn push_name(list: &mut Vec<String>, name: Option<String>) -> Result<(), AllocError>
    ensures { OnOk result (map string_bytes list.new.items
        ≡ map string_bytes list.old.items ++ cons_option (option_map string_bytes name) []) }
{
    match name {
        Some(name) => push_item(list, name),
        None => Ok(()),
    }
}

impl<'f, 'l, 'v, F: Files> RunContext<'f, 'l, 'v, F> {
    /// Returns the file name of a location without a region.
    fn whole_file(&self, alloc: Global, location: &'v Value) -> Result<Option<String>, AllocError>
        ensures { IfOk result (λ name. option_map string_bytes name
            ≡ whole_file (run_context F.found self.now) (view location.now)) }
    {
        if region_of(location).is_some() {
            return Ok(None);
        }
        match self.file_of(location) {
            Some(file) => Ok(Some(file_name(alloc, self.bases, file)?)),
            None => Ok(None),
        }
    }

    /// Returns that file name, if the location has no text.
    fn bare_file(&self, alloc: Global, location: &'v Value) -> Result<Option<String>, AllocError>
        ensures { IfOk result (λ name. option_map string_bytes name
            ≡ bare_file (run_context F.found self.now) (view location.now)) }
    {
        match row_of(alloc, self.strings, location)? {
            Some(_) => Ok(None),
            None => self.whole_file(alloc, location),
        }
    }

    /// Returns the names of the whole files.
    fn whole_files(&self, alloc: Global, locations: &[&'v Value]) -> Result<Vec<String>, AllocError>
        ensures { IfOk result (λ list. map string_bytes list.items
            ≡ filter_map (whole_file (run_context F.found self.now)) (values_behind locations.now)) }
    {
        let mut list = Vec::new(alloc);
        for location in locations {
            let name = self.whole_file(alloc, *location)?;
            push_name(&mut list, name)?;
        }
        Ok(list)
    }

    /// Appends the names of the whole files without text.
    fn push_bare(
        &self,
        list: &mut Vec<String>,
        alloc: Global,
        locations: &[&'v Value],
    ) -> Result<(), AllocError>
        ensures { OnOk result (map string_bytes list.new.items ≡ map string_bytes list.old.items
            ++ filter_map (bare_file (run_context F.found self.now)) (values_behind locations.now)) }
    {
        for location in locations {
            let name = self.bare_file(alloc, *location)?;
            push_name(list, name)?;
        }
        Ok(())
    }

    /// Returns the annotations and whole files of a result.
    pub(crate) fn result_file_annotations(
        &self,
        alloc: Global,
        finding: &'v Value,
    ) -> Result<FileAnnotations, AllocError>
        ensures { IfOk result (λ it. it ≡ result_file_annotations (run_context F.found self.now) (view finding.now)) }
    {
        let own = member_objects(alloc, finding, "locations")?;
        let related = member_objects(alloc, finding, "relatedLocations")?;
        let told = self.result_annotations(alloc, finding)?;
        let wholes = self.whole_files(alloc, own.as_slice())?;
        let mut bares = Vec::new(alloc);
        self.push_bare(&mut bares, alloc, own.as_slice())?;
        self.push_bare(&mut bares, alloc, related.as_slice())?;
        Ok(FileAnnotations {
            told,
            wholes,
            bares,
        })
    }

    /// Returns the annotations and whole files of a notification.
    pub(crate) fn notification_file_annotations(
        &self,
        alloc: Global,
        notice: &'v Value,
    ) -> Result<FileAnnotations, AllocError>
        ensures { IfOk result (λ it. it ≡ notification_file_annotations (run_context F.found self.now)
            (view notice.now)) }
    {
        let own = member_objects(alloc, notice, "locations")?;
        let told = self.own_annotations(alloc, own.as_slice())?;
        let wholes = self.whole_files(alloc, own.as_slice())?;
        let mut bares = Vec::new(alloc);
        self.push_bare(&mut bares, alloc, own.as_slice())?;
        Ok(FileAnnotations {
            told,
            wholes,
            bares,
        })
    }
}

// ---- the source of a report

/// Returns whether an annotation's location is found.
fn is_found<F: Files>(files: &F, spot: &OwnedAnnotation) -> bool
    ensures { result ≡ is_found (F.found files.now) spot.now }
{
    match &spot.place {
        Some(place) => FileEdit::found(files, &place.borrowed(), "").is_some(),
        None => false,
    }
}

/// Returns the file name of an annotation's location.
fn annotated_file(spot: &OwnedAnnotation) -> Option<&str>
    ensures { option_copied result ≡ annotated_file spot.now }
{
    match &spot.place {
        Some(place) => Some(place.name.as_str()),
        None => None,
    }
}

/// Returns the first annotation whose location is found.
fn first_found<'t, F: Files>(files: &F, told: &'t [OwnedAnnotation]) -> Option<&'t OwnedAnnotation>
    ensures { option_copied result ≡ find (is_found (F.found files.now)) told.now }
{
    told.iter().find(|spot| is_found(files, spot))
}

/// Returns the file name of the first annotation whose location is found. It gets a label.
fn found_file<'t, F: Files>(files: &F, telling: &'t FileAnnotations) -> Option<&'t str>
    ensures { option_copied result ≡ found_file (F.found files.now) telling.now }
{
    annotated_file(first_found(files, telling.told.as_slice())?)
}

/// Returns whether a file is found.
fn is_there<F: Files>(files: &F, name: &str) -> bool
    ensures { result ≡ is_there (F.found files.now) name.now }
{
    files.find(name).is_some()
}

/// Returns the first of these files that is found.
fn first_there<'t, F: Files>(files: &F, names: &'t [String]) -> Option<&'t str>
    ensures { option_copied result ≡ find (is_there (F.found files.now)) (map string_bytes names.now) }
{
    for name in names {
        if is_there(files, name.as_str()) {
            return Some(name.as_str());
        }
    }
    None
}

/// Returns the first whole file that is found, if no annotation's location is.
fn own_whole_file<'t, F: Files>(files: &F, telling: &'t FileAnnotations) -> Option<&'t str>
    ensures { option_copied result ≡ own_whole_file (F.found files.now) telling.now }
{
    if found_file(files, telling).is_some() {
        return None;
    }
    first_there(files, telling.wholes.as_slice())
}

/// Returns that file with its name.
pub(crate) fn found_whole_file<'t, 'f, F: Files>(
    files: &'f F,
    telling: &'t FileAnnotations,
) -> Option<(&'t str, BorrowedFile<'f>)>
    ensures { option_map (λ (it : Bor (List ℕ) × Source). (it.0.now, it.1)) result
        ≡ option_and_then (file_named (F.found files.now)) (own_whole_file (F.found files.now) telling.now) }
{
    let name = own_whole_file(files, telling)?;
    let file = files.find(name)?;
    Some((name, file))
}

// ---- texts

/// Returns whether a file isn't that of the first label.
fn is_other(main: Option<&str>, name: &str) -> bool
    ensures { result ≡ is_other (option_copied main.entry) name.now }
{
    match main {
        Some(main) => main != name,
        None => true,
    }
}

/// Returns the file name as an annotation without a location.
fn name_alone<'t>(alloc: Global, name: &str) -> Result<Annotation<'t>, AllocError>
    ensures { IfOk result (λ told. told ≡ unlocated_text (Some name.now) true) }
{
    let mut rows = Vec::new(alloc);
    push_row_copy(&mut rows, alloc, name)?;
    Ok(Annotation {
        rows,
        place: None,
        primary: false,
        own: true,
    })
}

/// Appends a file name, unless the first label is over that file.
fn push_file_name(
    list: &mut Vec<Annotation<'_>>,
    alloc: Global,
    main: Option<&str>,
    name: &str,
) -> Result<(), AllocError>
    ensures { OnOk result (list.new.items ≡ list.old.items ++ file_name_annotation (option_copied main.entry) name.now) }
{
    if !is_other(main, name) {
        return Ok(());
    }
    let told = name_alone(alloc, name)?;
    push_item(list, told)
}

/// Appends the file names, except that of the first label's file.
fn push_file_names(
    list: &mut Vec<Annotation<'_>>,
    alloc: Global,
    main: Option<&str>,
    names: &[String],
) -> Result<(), AllocError>
    ensures { OnOk result (list.new.items ≡ list.old.items
        ++ flat_map (file_name_annotation (option_copied main.entry)) (map string_bytes names.now)) }
{
    for name in names {
        push_file_name(list, alloc, main, name.as_str())?;
    }
    Ok(())
}

/// Returns the annotations with borrowed file names.
fn borrowed(alloc: Global, spots: &[OwnedAnnotation]) -> Result<Vec<Annotation<'_>>, AllocError>
    ensures { IfOk result (λ list. list.items ≡ spots.now) }
{
    let mut list = Vec::new(alloc);
    for spot in spots {
        let told = spot.told(alloc)?;
        push_item(&mut list, told)?;
    }
    Ok(list)
}

/// Returns all annotations, followed by the names of whole files without text.
pub(crate) fn all_annotations<'t, F: Files>(
    alloc: Global,
    files: &F,
    telling: &'t FileAnnotations,
) -> Result<Vec<Annotation<'t>>, AllocError>
    ensures { IfOk result (λ list. list.items ≡ all_annotations (F.found files.now) telling.now) }
{
    let main = found_file(files, telling);
    let mut list = borrowed(alloc, telling.told.as_slice())?;
    push_file_names(&mut list, alloc, main, telling.bares.as_slice())?;
    Ok(list)
}
