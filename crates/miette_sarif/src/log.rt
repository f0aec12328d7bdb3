//! The log: one run of a tool, with its rules, artifacts and results.

ghost use Rattle.std.specs.Prelude.{◌≡◌, ◌++◌, IfOk, OnOk, codes, string_bytes};
ghost use Rattle.std.specs.Option.{option_copied, option_map};
ghost use Rattle.miette_json.specs.rules.Json.{json_text, string};
ghost use Rattle.miette_json.specs.rules.Writing.{with_value};
ghost use Rattle.miette_sarif.specs.rules.Artifacts.{all_named, artifacts_in};
ghost use Rattle.miette_sarif.specs.rules.Log.{log, newlines, run, run_with, tool_of};
ghost use Rattle.miette_sarif.specs.rules.Objects.{optional_text_pairs, pair};
ghost use Rattle.miette_sarif.specs.rules.Uris.{address_uri};
ghost use Rattle.miette_sarif.specs.steps.Members.{with_pairs};
ghost use Rattle.miette_sarif.specs.views.Artifacts.{artifacts_view};
ghost use Rattle.miette_sarif.specs.views.Findings.{sarif_findings_of};
ghost use Rattle.miette_sarif.specs.views.Rules.{rules_view};
ghost use Rattle.miette_sarif.specs.views.Tool.{tool_view};

use crate::artifacts::{Artifacts, artifacts_in};
use crate::finding::Finding;
use crate::results::push_results;
use crate::rules::{Rules, rules_in};
use crate::uri::address_uri;
use miette_json::writer::JsonWriter;
use std::alloc::{AllocError, Global};

/// Address of the JSON schema of SARIF 2.1.0.
const SCHEMA: &str =
    "https://docs.oasis-open.org/sarif/sarif/v2.1.0/errata01/os/schemas/sarif-schema-2.1.0.json";

/// Name, version and address of the tool.
#[derive(Clone, Copy)]
pub(crate) struct Tool<'a> {
    pub(crate) name: &'a str,
    pub(crate) version: Option<&'a str>,
    pub(crate) information: Option<&'a str>,
}

// `"informationUri": "https://x.org/lint"`, or nothing without an address.
fn push_information(json: &mut JsonWriter, address: Option<&str>) -> Result<(), AllocError>
    ensures { OnOk result (json.new ≡ with_pairs (optional_text_pairs (codes "informationUri")
        (option_map address_uri (option_copied address.entry))) json.old) }
{
    match address {
        Some(address) => {
            let uri = address_uri(json.allocator(), address)?;
            json.string_member("informationUri", uri.as_str())
        }
        None => Ok(()),
    }
}

// `{"driver": {"name": "lint","rules": [..]}}`
fn push_tool(json: &mut JsonWriter, tool: &Tool<'_>, rules: &Rules<'_>) -> Result<(), AllocError>
    ensures { OnOk result (json.new ≡ with_value (tool_of (tool_view tool.now) (rules_view rules.now)) json.old) }
{
    json.begin_object()?;
    json.key("driver")?;
    json.begin_object()?;
    json.string_member("name", tool.name)?;
    json.optional_string_member("version", tool.version)?;
    push_information(json, tool.information)?;
    rules.push_all(json)?;
    json.end_object()?;
    json.end_object()
}

// `"columnKind": "utf16CodeUnits","newlineSequences": ["\r\n","\n","\r"]`: the unit of columns, and the line
// terminators. By default SARIF doesn't count CR as one.
fn push_units(json: &mut JsonWriter) -> Result<(), AllocError>
    ensures { OnOk result (json.new ≡ with_pairs (pair (codes "columnKind") (string (codes "utf16CodeUnits"))
        ++ pair (codes "newlineSequences") newlines) json.old) }
{
    json.string_member("columnKind", "utf16CodeUnits")?;
    json.key("newlineSequences")?;
    json.begin_list()?;
    json.string("\r\n")?;
    json.string("\n")?;
    json.string("\r")?;
    json.end_list()
}

// Writes a run with these rules and artifacts.
fn push_run_with(
    json: &mut JsonWriter,
    tool: &Tool<'_>,
    rules: &Rules<'_>,
    artifacts: &Artifacts,
    findings: &[Finding<'_>],
) -> Result<(), AllocError>
    ensures { OnOk result (json.new ≡ with_value (run_with (tool_view tool.now) (rules_view rules.now)
        (artifacts_view artifacts.now) (sarif_findings_of findings.now)) json.old) }
{
    json.begin_object()?;
    json.key("tool")?;
    push_tool(json, tool, rules)?;
    push_units(json)?;
    artifacts.push_all(json)?;
    json.key("results")?;
    push_results(json, rules, artifacts, findings)?;
    json.end_object()
}

// Writes a run with these rules and the artifacts of its findings.
fn push_run_of(
    json: &mut JsonWriter,
    tool: &Tool<'_>,
    rules: &Rules<'_>,
    findings: &[Finding<'_>],
) -> Result<(), AllocError>
    ensures { OnOk result (json.new ≡ with_value (run_with (tool_view tool.now) (rules_view rules.now)
        (artifacts_in (all_named (sarif_findings_of findings.now))) (sarif_findings_of findings.now)) json.old) }
{
    let artifacts = artifacts_in(json.allocator(), findings)?;
    push_run_with(json, tool, rules, &artifacts, findings)
}

// Writes the run of these findings.
fn push_run(
    json: &mut JsonWriter,
    tool: &Tool<'_>,
    findings: &[Finding<'_>],
) -> Result<(), AllocError>
    ensures { OnOk result (json.new
        ≡ with_value (run (tool_view tool.now) (sarif_findings_of findings.now)) json.old) }
{
    let rules = rules_in(json.allocator(), findings)?;
    push_run_of(json, tool, &rules, findings)
}

// Writes the log of these findings.
fn push_log(
    json: &mut JsonWriter,
    tool: &Tool<'_>,
    findings: &[Finding<'_>],
) -> Result<(), AllocError>
    ensures { OnOk result (json.new
        ≡ with_value (log (tool_view tool.now) (sarif_findings_of findings.now)) json.old) }
{
    json.begin_object()?;
    json.string_member("$schema", SCHEMA)?;
    json.string_member("version", "2.1.0")?;
    json.key("runs")?;
    json.begin_list()?;
    push_run(json, tool, findings)?;
    json.end_list()?;
    json.end_object()
}

/// Returns the log of findings as text.
pub(crate) fn log_text(
    alloc: Global,
    tool: &Tool<'_>,
    findings: &[Finding<'_>],
) -> Result<String, AllocError>
    ensures { IfOk result (λ text. string_bytes text
        ≡ json_text (log (tool_view tool.now) (sarif_findings_of findings.now))) }
{
    let mut json = JsonWriter::new(alloc);
    push_log(&mut json, tool, findings)?;
    Ok(json.into_text())
}
