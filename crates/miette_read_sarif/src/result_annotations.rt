//! The annotations of a result.

ghost use Rattle.std.specs.Prelude.{◌≡◌, ◌++◌, IfOk, OnOk, codes, map, option_map, string_bytes};
ghost use Rattle.std.specs.List.{flat_map};
ghost use Rattle.serde_json.specs.View.{view};
ghost use Rattle.miette_read.specs.rules.Members.{member_objects, nonempty_text};
ghost use Rattle.miette_read.specs.views.Values.{values_behind};
ghost use Rattle.miette_read_sarif.specs.rules.Results.{file_of, file_row, flow_annotations, located_annotation};
ghost use Rattle.miette_read_sarif.specs.rules.Results.{message_in};
ghost use Rattle.miette_read_sarif.specs.rules.Results.{own_annotations, region_of, related_annotations};
ghost use Rattle.miette_read_sarif.specs.rules.Results.{unlocated_text, step_row};
ghost use Rattle.miette_read_sarif.specs.rules.Results.{step_annotation, step_annotations, thread_annotations};
ghost use Rattle.miette_read_sarif.specs.rules.Results.{annotation_in_file, result_annotations};
ghost use Rattle.miette_read_sarif.specs.rules.Results.{whole_row};
ghost use Rattle.miette_read_sarif.specs.views.RunContexts.{run_context};

use crate::bases::file_name;
use crate::context::RunContext;
use crate::locations::{OwnedAnnotation, location_with_range, region_of};
use crate::regions::has_line;
use crate::result_parts::{message_in, nonempty_text};
use miette_lines::numbers::push_number;
use miette_read::files::Files;
use miette_read::lists::push_item;
use miette_read::members::{member_object, member_objects};
use serde_json::Value;
use std::alloc::{AllocError, Global};

/// Returns the text of a location, if it isn't empty.
pub(crate) fn row_of(
    alloc: Global,
    strings: Option<&Value>,
    location: &Value,
) -> Result<Option<String>, AllocError>
    ensures { IfOk result (λ o. option_map string_bytes o
        ≡ nonempty_text (message_in (option_map (λ v. view v.now) strings.entry) (view location.now))) }
{
    Ok(nonempty_text(message_in(alloc, strings, location)?))
}

/// Returns an annotation without a location.
fn unlocated_text(row: Option<String>, own: bool) -> OwnedAnnotation
    ensures { result ≡ unlocated_text (option_map string_bytes row) own }
{
    OwnedAnnotation {
        row,
        place: None,
        primary: false,
        own,
    }
}

/// Returns the file name, followed by the text if there is one.
fn file_row(name: String, text: Option<String>) -> Result<String, AllocError>
    ensures { IfOk result (λ row. string_bytes row
        ≡ file_row (string_bytes name) (option_map string_bytes text)) }
{
    let mut row = name;
    if let Some(text) = text {
        row.push_str(": ")?;
        row.push_str(text.as_str())?;
    }
    Ok(row)
}

/// Returns a text about a whole file, if there is one.
fn whole_row(name: String, text: Option<String>) -> Result<Option<String>, AllocError>
    ensures { IfOk result (λ row. option_map string_bytes row
        ≡ whole_row (string_bytes name) (option_map string_bytes text)) }
{
    match text {
        Some(text) => Ok(Some(file_row(name, Some(text))?)),
        None => Ok(None),
    }
}

/// Returns the number of a step, and its text if it has one.
fn step_row(alloc: Global, number: usize, text: Option<String>) -> Result<String, AllocError>
    ensures { IfOk result (λ row. string_bytes row ≡ step_row number (option_map string_bytes text)) }
{
    let mut row = String::from_str(alloc, "(")?;
    push_number(&mut row, number)?;
    row.push_str(")")?;
    if let Some(text) = text {
        row.push_str(" ")?;
        row.push_str(text.as_str())?;
    }
    Ok(row)
}

impl<'f, 'l, 'v, F: Files> RunContext<'f, 'l, 'v, F> {
    /// Returns the annotation of a text: at the location's region, or else the file name and text, or else the text.
    fn annotation_in_file(
        &self,
        alloc: Global,
        row: Option<String>,
        primary: bool,
        own: bool,
        location: &'v Value,
    ) -> Result<OwnedAnnotation, AllocError>
        ensures { IfOk result (λ it. it ≡ annotation_in_file (run_context F.found self.now)
            (option_map string_bytes row) primary own
            (file_of (run_context F.found self.now) (view location.now)) (region_of (view location.now))) }
    {
        let Some(file) = self.file_of(location) else {
            return Ok(unlocated_text(row, own));
        };
        let name = file_name(alloc, self.bases, file)?;
        let Some(region) = region_of(location) else {
            return Ok(unlocated_text(whole_row(name, row)?, own));
        };
        let stretch = self.region_range_in_file(name.as_str(), region);
        if stretch.is_none() && !has_line(region) {
            return Ok(unlocated_text(Some(file_row(name, row)?), own));
        }
        Ok(OwnedAnnotation {
            row,
            place: Some(location_with_range(name, stretch, region)),
            primary,
            own,
        })
    }

    /// Returns the annotation of a location.
    fn located_annotation(
        &self,
        alloc: Global,
        primary: bool,
        own: bool,
        location: &'v Value,
    ) -> Result<OwnedAnnotation, AllocError>
        ensures { IfOk result (λ it. it
            ≡ located_annotation (run_context F.found self.now) primary own (view location.now)) }
    {
        let row = row_of(alloc, self.strings, location)?;
        self.annotation_in_file(alloc, row, primary, own, location)
    }

    /// Appends the annotations of locations.
    fn push_told(
        &self,
        list: &mut Vec<OwnedAnnotation>,
        alloc: Global,
        primary: bool,
        own: bool,
        locations: &[&'v Value],
    ) -> Result<(), AllocError>
        ensures { OnOk result (list.new.items ≡ list.old.items
            ++ map (located_annotation (run_context F.found self.now) primary own) (values_behind locations.now)) }
    {
        for location in locations {
            let spot = self.located_annotation(alloc, primary, own, *location)?;
            push_item(list, spot)?;
        }
        Ok(())
    }

    /// Returns the annotations of a result's own locations. The first one is primary.
    pub(crate) fn own_annotations(
        &self,
        alloc: Global,
        locations: &[&'v Value],
    ) -> Result<Vec<OwnedAnnotation>, AllocError>
        ensures { IfOk result (λ list. list.items
            ≡ own_annotations (run_context F.found self.now) (values_behind locations.now)) }
    {
        let mut list = Vec::new(alloc);
        let Some((first, rest)) = locations.split_first() else {
            return Ok(list);
        };
        let spot = self.located_annotation(alloc, true, true, *first)?;
        push_item(&mut list, spot)?;
        self.push_told(&mut list, alloc, false, true, rest)?;
        Ok(list)
    }

    /// Returns the annotation of a step. A step without a location has no text.
    fn step_annotation(
        &self,
        alloc: Global,
        number: usize,
        step: &'v Value,
    ) -> Result<OwnedAnnotation, AllocError>
        ensures { IfOk result (λ it. it ≡ step_annotation (run_context F.found self.now) number (view step.now)) }
    {
        let Some(location) = member_object(step, "location") else {
            return Ok(unlocated_text(None, false));
        };
        let text = row_of(alloc, self.strings, location)?;
        let row = step_row(alloc, number, text)?;
        self.annotation_in_file(alloc, Some(row), false, false, location)
    }

    /// Appends the annotations of the numbered steps of a thread.
    fn push_steps(
        &self,
        list: &mut Vec<OwnedAnnotation>,
        alloc: Global,
        steps: &[&'v Value],
    ) -> Result<(), AllocError>
        ensures { OnOk result (list.new.items ≡ list.old.items
            ++ step_annotations (run_context F.found self.now) 1 (values_behind steps.now)) }
    {
        let mut number = 1;
        for step in steps {
            let spot = self.step_annotation(alloc, number, *step)?;
            push_item(list, spot)?;
            number += 1;
        }
        Ok(())
    }

    /// Appends the annotations of a thread.
    fn push_thread(
        &self,
        list: &mut Vec<OwnedAnnotation>,
        alloc: Global,
        thread: &'v Value,
    ) -> Result<(), AllocError>
        ensures { OnOk result (list.new.items ≡ list.old.items
            ++ thread_annotations (run_context F.found self.now) (view thread.now)) }
    {
        let steps = member_objects(alloc, thread, "locations")?;
        self.push_steps(list, alloc, steps.as_slice())
    }

    /// Appends the annotations of a flow's threads.
    fn push_flow(
        &self,
        list: &mut Vec<OwnedAnnotation>,
        alloc: Global,
        flow: &'v Value,
    ) -> Result<(), AllocError>
        ensures { OnOk result (list.new.items ≡ list.old.items
            ++ flow_annotations (run_context F.found self.now) (view flow.now)) }
    {
        let threads = member_objects(alloc, flow, "threadFlows")?;
        for thread in threads.as_slice() {
            self.push_thread(list, alloc, *thread)?;
        }
        Ok(())
    }

    /// Appends the annotations of flows.
    fn push_flows(
        &self,
        list: &mut Vec<OwnedAnnotation>,
        alloc: Global,
        flows: &[&'v Value],
    ) -> Result<(), AllocError>
        ensures { OnOk result (list.new.items ≡ list.old.items
            ++ flat_map (flow_annotations (run_context F.found self.now)) (values_behind flows.now)) }
    {
        for flow in flows {
            self.push_flow(list, alloc, *flow)?;
        }
        Ok(())
    }

    /// Returns the annotations of a result's own locations, then of its related locations, which count as notes.
    fn own_and_related(
        &self,
        alloc: Global,
        finding: &'v Value,
    ) -> Result<Vec<OwnedAnnotation>, AllocError>
        ensures { IfOk result (λ list. list.items
            ≡ own_annotations (run_context F.found self.now) (member_objects (codes "locations") (view finding.now))
            ++ related_annotations (run_context F.found self.now) (view finding.now)) }
    {
        let own = member_objects(alloc, finding, "locations")?;
        let related = member_objects(alloc, finding, "relatedLocations")?;
        let mut list = self.own_annotations(alloc, own.as_slice())?;
        self.push_told(&mut list, alloc, true, false, related.as_slice())?;
        Ok(list)
    }

    /// Returns all annotations of a result: those of its locations, and the steps of its flows.
    pub(crate) fn result_annotations(
        &self,
        alloc: Global,
        finding: &'v Value,
    ) -> Result<Vec<OwnedAnnotation>, AllocError>
        ensures { IfOk result (λ list. list.items ≡ result_annotations (run_context F.found self.now)
            (view finding.now)) }
    {
        let flows = member_objects(alloc, finding, "codeFlows")?;
        let mut list = self.own_and_related(alloc, finding)?;
        self.push_flows(&mut list, alloc, flows.as_slice())?;
        Ok(list)
    }
}
