//! The suggestions of a result before their locations are looked up.

ghost use Rattle.std.specs.Prelude.{◌≡◌, ◌++◌, IfOk, OnOk, map, option_map, string_bytes, unwrap_or};
ghost use Rattle.std.specs.List.{flat_map};
ghost use Rattle.serde_json.specs.View.{view};
ghost use Rattle.miette_read.specs.views.Values.{values_behind};
ghost use Rattle.miette_read_sarif.specs.rules.Proposals.{change_edits, change_name, description, suggestion_draft};
ghost use Rattle.miette_read_sarif.specs.rules.Proposals.{suggestion_drafts, draft_edits, inserted_content};
ghost use Rattle.miette_read_sarif.specs.rules.Proposals.{region_location_or_none};
ghost use Rattle.miette_read_sarif.specs.rules.Proposals.{replacement_in, default_message};
ghost use Rattle.miette_read_sarif.specs.views.RunContexts.{run_context};

use crate::bases::file_name;
use crate::context::RunContext;
use crate::locations::OwnedLocation;
use crate::result_parts::{message_text, nonempty_text};
use miette_read::edit_message::edit_message;
use miette_read::files::Files;
use miette_read::lists::push_item;
use miette_read::members::{member_object, member_objects, member_text};
use serde_json::Value;
use std::alloc::{AllocError, Global};
use std::marker::Model;

/// The text that replaces a location.
#[derive(Drop)]
pub(crate) struct OwnedEdit<'v> {
    pub(crate) place: OwnedLocation,
    pub(crate) text: &'v str,
}

/// A suggestion: its message and its edits.
#[derive(Drop)]
pub(crate) struct SuggestionDraft<'v> {
    pub(crate) words: String,
    pub(crate) edits: Vec<OwnedEdit<'v>>,
}

impl<'v> Model for OwnedEdit<'v> {
    ghost use Rattle.std.specs.Prelude.{ℕ, List};
    ghost use Rattle.miette_read.specs.rules.Places as places;

    ghost Value = { places.ToolLocation × List ℕ };

    ghost view = { λ it. (it.place, it.text.now) };
}

impl<'v> Model for SuggestionDraft<'v> {
    ghost use Rattle.std.specs.Prelude.{string_bytes};
    ghost use Rattle.miette_read_sarif.specs.rules.Proposals as proposals;

    ghost Value = { proposals.SuggestionDraft };

    ghost view = { λ it. record { words = string_bytes it.words; edits = it.edits.items } };
}

/// Returns the text that replaces a region.
fn inserted_content(replacement: &Value) -> &str
    ensures { result.now ≡ inserted_content (view replacement.now) }
{
    match member_object(replacement, "insertedContent") {
        Some(content) => member_text(content, "text").unwrap_or(""),
        None => "",
    }
}

/// Returns the message of a fix without a description.
fn default_message(alloc: Global, edits: &[OwnedEdit<'_>]) -> Result<String, AllocError>
    ensures { IfOk result (λ words. string_bytes words ≡ default_message edits.now) }
{
    let Some((first, rest)) = edits.split_first() else {
        return Ok(String::new(alloc));
    };
    if rest.is_empty() {
        edit_message(alloc, first.text)
    } else {
        String::from_str(alloc, "make these changes")
    }
}

/// Returns the description of a fix, if it isn't empty.
fn description(
    alloc: Global,
    strings: Option<&Value>,
    proposal: &Value,
) -> Result<Option<String>, AllocError>
    ensures { IfOk result (λ o. option_map string_bytes o
        ≡ description (option_map (λ v. view v.now) strings.entry) (view proposal.now)) }
{
    match member_object(proposal, "description") {
        Some(message) => Ok(nonempty_text(message_text(alloc, strings, message)?)),
        None => Ok(None),
    }
}

impl<'f, 'l, 'v, F: Files> RunContext<'f, 'l, 'v, F> {
    /// Returns the location of a region. Without a region, returns one that is never found.
    fn region_location_or_none(&self, name: String, region: Option<&Value>) -> OwnedLocation
        ensures { result ≡ region_location_or_none (run_context F.found self.now) (string_bytes name)
            (option_map (λ v. view v.now) region.entry) }
    {
        match region {
            Some(region) => self.region_location(name, region),
            None => OwnedLocation {
                name,
                stretch: None,
                line: 0,
                column: 0,
            },
        }
    }

    /// Returns the edit of a replacement in a file.
    fn replacement_in(
        &self,
        alloc: Global,
        name: &str,
        replacement: &'v Value,
    ) -> Result<OwnedEdit<'v>, AllocError>
        ensures { IfOk result (λ it. it
            ≡ replacement_in (run_context F.found self.now) name.now (view replacement.now)) }
    {
        let name = String::from_str(alloc, name)?;
        Ok(OwnedEdit {
            place: self.region_location_or_none(name, member_object(replacement, "deletedRegion")),
            text: inserted_content(replacement),
        })
    }

    /// Returns the file name of an artifact change.
    fn change_name(&self, alloc: Global, change: &'v Value) -> Result<String, AllocError>
        ensures { IfOk result (λ name. string_bytes name
            ≡ change_name (run_context F.found self.now) (view change.now)) }
    {
        match self.file_at(change) {
            Some(file) => file_name(alloc, self.bases, file),
            None => Ok(String::new(alloc)),
        }
    }

    /// Appends the edits of an artifact change.
    fn push_change(
        &self,
        list: &mut Vec<OwnedEdit<'v>>,
        alloc: Global,
        change: &'v Value,
    ) -> Result<(), AllocError>
        ensures { OnOk result (list.new.items ≡ list.old.items
            ++ change_edits (run_context F.found self.now) (view change.now)) }
    {
        let name = self.change_name(alloc, change)?;
        let replacements = member_objects(alloc, change, "replacements")?;
        for replacement in replacements.as_slice() {
            let edit = self.replacement_in(alloc, name.as_str(), *replacement)?;
            push_item(list, edit)?;
        }
        Ok(())
    }

    /// Returns the edits of a fix.
    fn draft_edits(
        &self,
        alloc: Global,
        proposal: &'v Value,
    ) -> Result<Vec<OwnedEdit<'v>>, AllocError>
        ensures { IfOk result (λ list. list.items
            ≡ draft_edits (run_context F.found self.now) (view proposal.now)) }
    {
        let changes = member_objects(alloc, proposal, "artifactChanges")?;
        let mut list = Vec::new(alloc);
        for change in changes.as_slice() {
            self.push_change(&mut list, alloc, *change)?;
        }
        Ok(list)
    }

    /// Returns the message of a fix.
    fn draft_message(
        &self,
        alloc: Global,
        proposal: &Value,
        edits: &[OwnedEdit<'_>],
    ) -> Result<String, AllocError>
        ensures { IfOk result (λ words. string_bytes words
            ≡ unwrap_or (description (run_context F.found self.now).strings (view proposal.now))
            (default_message edits.now)) }
    {
        match description(alloc, self.strings, proposal)? {
            Some(text) => Ok(text),
            None => default_message(alloc, edits),
        }
    }

    /// Returns the suggestion of a fix.
    fn suggestion_draft(
        &self,
        alloc: Global,
        proposal: &'v Value,
    ) -> Result<SuggestionDraft<'v>, AllocError>
        ensures { IfOk result (λ it. it ≡ suggestion_draft (run_context F.found self.now) (view proposal.now)) }
    {
        let edits = self.draft_edits(alloc, proposal)?;
        let words = self.draft_message(alloc, proposal, edits.as_slice())?;
        Ok(SuggestionDraft { words, edits })
    }

    /// Returns the suggestions of a result.
    pub(crate) fn suggestion_drafts(
        &self,
        alloc: Global,
        finding: &'v Value,
    ) -> Result<Vec<SuggestionDraft<'v>>, AllocError>
        ensures { IfOk result (λ list. list.items
            ≡ suggestion_drafts (run_context F.found self.now) (view finding.now)) }
    {
        let proposals = member_objects(alloc, finding, "fixes")?;
        let mut list = Vec::new(alloc);
        for proposal in proposals.as_slice() {
            let draft = self.suggestion_draft(alloc, *proposal)?;
            push_item(&mut list, draft)?;
        }
        Ok(list)
    }
}
