//! What the results of a run are read with.

ghost use Rattle.std.specs.Prelude.{◌≡◌, IfOk, codes, map, option_map};
ghost use Rattle.serde_json.specs.View.{view};
ghost use Rattle.miette_read.specs.rules.Members.{member_objects};
ghost use Rattle.miette_read.specs.views.Values.{values_behind, texts};
ghost use Rattle.miette_read_sarif.specs.rules.Logs.{driver_of, extensions_by, run_context_of, rules_by, run_tool};
ghost use Rattle.miette_read_sarif.specs.rules.Newlines.{newlines_of};
ghost use Rattle.miette_read_sarif.specs.rules.Results.{result_context, rule_of, strings_of};
ghost use Rattle.miette_read_sarif.specs.views.Seen.{value_lists_behind};
ghost use Rattle.miette_read_sarif.specs.views.Tables.{AreTables};

use crate::bases::bases_of;
use crate::descriptors::{rule_at, rule_id, rule_named};
use crate::line_tables::{LineTable, table_with, tables_of};
use crate::newline_sequences::{NewlineSequences, newline_sequences_of};
use crate::newlines::newlines_of;
use crate::regions::encoding_of;
use miette_positions::position::PositionEncoding;
use miette_read::files::Files;
use miette_read::lists::push_item;
use miette_read::members::{member_object, member_objects};
use serde_json::Value;
use std::alloc::{AllocError, Global};

/// The lists of a run: rules of the tool's driver and extensions, artifacts, newline sequences, and tables of line
/// starts.
#[derive(Drop)]
pub(crate) struct RunLists<'v> {
    pub(crate) rules: Vec<&'v Value>,
    pub(crate) extensions: Vec<Vec<&'v Value>>,
    pub(crate) artifacts: Vec<&'v Value>,
    pub(crate) ends: NewlineSequences<'v>,
    pub(crate) tables: Vec<LineTable>,
}

/// What the results of a run are read with: files, column unit, lists, bases, and the message strings of a result's
/// rule.
#[derive(Drop)]
pub(crate) struct RunContext<'f, 'l, 'v, F: Files> {
    pub(crate) files: &'f F,
    pub(crate) encoding: PositionEncoding,
    pub(crate) lists: &'l RunLists<'v>,
    pub(crate) bases: Option<&'v Value>,
    pub(crate) strings: Option<&'v Value>,
    ghost tabled: { AreTables (F.found files.now) (texts lists.now.ends.newlines.items) lists.now.tables.items },
}

/// Returns the tool of a run.
fn run_tool(run: &Value) -> Option<&Value>
    ensures { option_map (λ v. view v.now) result ≡ run_tool (view run.now) }
{
    member_object(run, "tool")
}

/// Returns the driver of a run's tool.
fn driver_of(run: &Value) -> Option<&Value>
    ensures { option_map (λ v. view v.now) result ≡ driver_of (view run.now) }
{
    member_object(run_tool(run)?, "driver")
}

/// Returns the rules of the driver.
fn rules_of<'v>(alloc: Global, run: &'v Value) -> Result<Vec<&'v Value>, AllocError>
    ensures { IfOk result (λ list. values_behind list.items ≡ rules_by (driver_of (view run.now))) }
{
    match driver_of(run) {
        Some(driver) => member_objects(alloc, driver, "rules"),
        None => Ok(Vec::new(alloc)),
    }
}

/// Returns the rules of each extension.
fn rules_of_each<'v>(
    alloc: Global,
    extensions: &[&'v Value],
) -> Result<Vec<Vec<&'v Value>>, AllocError>
    ensures { IfOk result (λ lists. value_lists_behind lists.items ≡ map (member_objects (codes "rules"))
        (values_behind extensions.now)) }
{
    let mut lists = Vec::new(alloc);
    for extension in extensions {
        let rules = member_objects(alloc, *extension, "rules")?;
        push_item(&mut lists, rules)?;
    }
    Ok(lists)
}

/// Returns the rules of each extension of a run's tool.
fn extensions_of<'v>(alloc: Global, run: &'v Value) -> Result<Vec<Vec<&'v Value>>, AllocError>
    ensures { IfOk result (λ lists. value_lists_behind lists.items ≡ extensions_by (run_tool (view run.now))) }
{
    match run_tool(run) {
        Some(tool) => {
            let extensions = member_objects(alloc, tool, "extensions")?;
            rules_of_each(alloc, extensions.as_slice())
        }
        None => Ok(Vec::new(alloc)),
    }
}

/// Reads the lists of a run.
pub(crate) fn run_lists<'v, F: Files>(
    alloc: Global,
    files: &F,
    run: &'v Value,
) -> Result<RunLists<'v>, AllocError>
    ensures rules { IfOk result (λ it. values_behind it.rules.items ≡ rules_by (driver_of (view run.now))) }
    ensures extensions { IfOk result (λ it. value_lists_behind it.extensions.items
        ≡ extensions_by (run_tool (view run.now))) }
    ensures artifacts { IfOk result (λ it. values_behind it.artifacts.items
        ≡ member_objects (codes "artifacts") (view run.now)) }
    ensures newlines { IfOk result (λ it. texts it.ends.newlines.items ≡ newlines_of (view run.now)) }
    ensures tables { IfOk result (λ it. AreTables (F.found files.now) (texts it.ends.newlines.items) it.tables.items) }
{
    let rules = rules_of(alloc, run)?;
    let extensions = extensions_of(alloc, run)?;
    let artifacts = member_objects(alloc, run, "artifacts")?;
    let newlines = newlines_of(alloc, run)?;
    let ends = newline_sequences_of(newlines);
    let tables = tables_of(alloc, files, &ends, run)?;
    Ok(RunLists {
        rules,
        extensions,
        artifacts,
        ends,
        tables,
    })
}

impl<'f, 'l, 'v, F: Files> RunContext<'f, 'l, 'v, F> {
    ghost use Rattle.std.specs.Option.{ForSome};
    ghost use Rattle.miette_read_sarif.specs.views.RunContexts.{run_context};
    ghost use Rattle.miette_read_sarif.specs.views.Tables.{AreStarts};

    /// Returns the context of a run.
    pub(crate) fn of(
        files: &'f F,
        lists: &'l RunLists<'v>,
        run: &'v Value,
    ) -> RunContext<'f, 'l, 'v, F>
        requires rules { values_behind lists.now.rules.items ≡ rules_by (driver_of (view run.now)) }
        requires extensions { value_lists_behind lists.now.extensions.items ≡ extensions_by (run_tool (view run.now)) }
        requires artifacts { values_behind lists.now.artifacts.items ≡ member_objects (codes "artifacts") (view run.now) }
        requires newlines { texts lists.now.ends.newlines.items ≡ newlines_of (view run.now) }
        requires tables { AreTables (F.found files.now) (texts lists.now.ends.newlines.items) lists.now.tables.items }
        ensures { run_context F.found result ≡ run_context_of (F.found files.now) (view run.now) }
    {
        RunContext {
            files,
            encoding: encoding_of(run),
            lists,
            bases: bases_of(run),
            strings: None,
        }
    }

    /// Returns the line starts of a file, if there is a table of it.
    pub(crate) fn starts_at(&self, name: &str) -> Option<&'l [usize]>
        ensures { ForSome result (λ starts. ForSome (F.found self.now.files.now name.now) (λ source.
            AreStarts (texts self.now.lists.now.ends.newlines.items) source.bytes 0 starts.now)) }
    {
        match table_with(self.lists.tables.as_slice(), name) {
            Some(table) => Some(table.starts.as_slice()),
            None => None,
        }
    }

    /// Returns the rule of a result: by index, or else by id.
    pub(crate) fn rule_of(&self, finding: &Value) -> Option<&'v Value>
        ensures { option_map (λ v. view v.now) result ≡ rule_of (run_context F.found self.now) (view finding.now) }
    {
        let (rules, extensions) = (
            self.lists.rules.as_slice(),
            self.lists.extensions.as_slice(),
        );
        match rule_at(rules, extensions, finding) {
            Some(rule) => Some(rule),
            None => rule_named(rules, extensions, rule_id(finding)),
        }
    }

    /// Returns the message strings of a result's rule.
    fn strings_of(&self, finding: &Value) -> Option<&'v Value>
        ensures { option_map (λ v. view v.now) result ≡ strings_of (run_context F.found self.now) (view finding.now) }
    {
        member_object(self.rule_of(finding)?, "messageStrings")
    }

    /// Returns the context of one result.
    pub(crate) fn result_context(&self, finding: &Value) -> RunContext<'f, 'l, 'v, F>
        ensures { run_context F.found result ≡ result_context (run_context F.found self.now) (view finding.now) }
    {
        RunContext {
            files: self.files,
            encoding: self.encoding,
            lists: self.lists,
            bases: self.bases,
            strings: self.strings_of(finding),
        }
    }
}
