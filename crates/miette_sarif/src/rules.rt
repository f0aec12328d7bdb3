//! The rules of a log: one for each code, in the order of the first result with that code.

ghost use Rattle.std.specs.Prelude.{◌≡◌, ◌++◌, ℕ, List, IfOk, OnOk, codes, if◌then◌else◌};
ghost use Rattle.std.specs.Option.{option_copied};
ghost use Rattle.std.specs.Str.{bytes_eq};
ghost use Rattle.indexmap.specs.IndexSet.{insert_key};
ghost use Rattle.miette_lines.specs.rules.Lists.{is_nil};
ghost use Rattle.miette_json.specs.rules.Json.{string};
ghost use Rattle.miette_json.specs.rules.Writing.{with_value};
ghost use Rattle.miette_sarif.specs.rules.Codes.{absolute_uri, codes_after, first_or, has_code, help_uri};
ghost use Rattle.miette_sarif.specs.rules.Codes.{is_uri_of_rule, rule_pairs};
ghost use Rattle.miette_sarif.specs.rules.Objects.{array_of, listed, optional_text_pairs, pair};
ghost use Rattle.miette_sarif.specs.steps.Members.{with_pairs};
ghost use Rattle.miette_sarif.specs.rules.Codes.{rule_value, rule_values, rule_values_of, rules_in};
ghost use Rattle.miette_sarif.specs.views.Findings.{finding_of, sarif_findings_of};
ghost use Rattle.miette_sarif.specs.views.Rules.{codes_seen, option_text, rules_view, uri_at};

use crate::finding::Finding;
use crate::uri::{address_uri, is_absolute_uri};
use indexmap::{IndexMap, IndexSet};
use miette_json::writer::JsonWriter;
use std::alloc::{AllocError, Global};

/// The codes, and the help address of each as a URI. The address is the first absolute url of a result with that code.
#[derive(Drop)]
pub(crate) struct Rules<'a> {
    codes: IndexSet<&'a str>,
    uris: IndexMap<&'a str, String>,
}

// Converts a url to a URI, if it is absolute.
fn absolute_uri(alloc: Global, url: Option<&str>) -> Result<Option<String>, AllocError>
    ensures { IfOk result (λ uri. option_text uri ≡ absolute_uri (option_copied url.entry)) }
{
    let Some(url) = url else {
        return Ok(None);
    };
    if !is_absolute_uri(url) {
        return Ok(None);
    }
    Ok(Some(address_uri(alloc, url)?))
}

// Adds a code, unless it is empty.
fn note_code<'a>(codes: &mut IndexSet<&'a str>, code: &'a str) -> Result<(), AllocError>
    ensures { OnOk result (codes_seen codes.new.keys
        ≡ (if is_nil code.now then codes_seen codes.old.keys
        else insert_key bytes_eq (codes_seen codes.old.keys) code.now)) }
{
    if code.is_empty() {
        return Ok(());
    }
    codes.insert(code)?;
    Ok(())
}

// Adds the codes of findings.
fn note_codes<'a>(codes: &mut IndexSet<&'a str>, findings: &[Finding<'a>]) -> Result<(), AllocError>
    ensures { OnOk result (codes_seen codes.new.keys
        ≡ codes_after (codes_seen codes.old.keys) (sarif_findings_of findings.now)) }
{
    for finding in findings {
        note_code(codes, finding.report_texts.code)?;
    }
    Ok(())
}

// Adds the url of a finding to its code, if it is the first absolute one.
fn note_uri<'a>(
    uris: &mut IndexMap<&'a str, String>,
    alloc: Global,
    code: &'a str,
    url: Option<&str>,
) -> Result<(), AllocError>
    ensures { OnOk result ((other : List ℕ) → uri_at uris.new other ≡ (if has_code other code.now
        then first_or (uri_at uris.old other) (absolute_uri (option_copied url.entry)) else uri_at uris.old other)) }
{
    if code.is_empty() {
        return Ok(());
    }
    if uris.contains_key(code) {
        return Ok(());
    }
    let Some(uri) = absolute_uri(alloc, url)? else {
        return Ok(());
    };
    uris.insert(code, uri)?;
    Ok(())
}

// Adds the urls of findings to their codes: the first absolute one of each.
fn note_uris<'a>(
    uris: &mut IndexMap<&'a str, String>,
    alloc: Global,
    findings: &[Finding<'a>],
) -> Result<(), AllocError>
    ensures { OnOk result ((code : List ℕ) → uri_at uris.new code
        ≡ first_or (uri_at uris.old code) (help_uri code (sarif_findings_of findings.now))) }
{
    for finding in findings {
        note_uri(
            uris,
            alloc,
            finding.report_texts.code,
            finding.report_texts.url,
        )?;
    }
    Ok(())
}

/// Returns the rules of findings.
pub(crate) fn rules_in<'a>(alloc: Global, findings: &[Finding<'a>]) -> Result<Rules<'a>, AllocError>
    ensures { IfOk result (λ rules. rules_view rules ≡ rules_in (sarif_findings_of findings.now)) }
{
    let mut codes = IndexSet::new(alloc);
    note_codes(&mut codes, findings)?;
    let mut uris = IndexMap::new(alloc);
    note_uris(&mut uris, alloc, findings)?;
    Ok(Rules { codes, uris })
}

// `"helpUri": "https://x.org/oops"`, or nothing without an address.
fn push_uri(json: &mut JsonWriter, uri: Option<&String>) -> Result<(), AllocError>
    ensures { OnOk result (json.new
        ≡ with_pairs (optional_text_pairs (codes "helpUri") (option_text (option_copied uri.entry))) json.old) }
{
    match uri {
        Some(uri) => json.string_member("helpUri", uri.as_str()),
        None => Ok(()),
    }
}

// `{"id": "oops","helpUri": "https://x.org/oops"}`
fn push_rule(json: &mut JsonWriter, code: &str, uri: Option<&String>) -> Result<(), AllocError>
    ensures { OnOk result (json.new
        ≡ with_value (rule_value code.now (option_text (option_copied uri.entry))) json.old) }
{
    json.begin_object()?;
    json.string_member("id", code)?;
    push_uri(json, uri)?;
    json.end_object()
}

// Writes the list of rules, one for each code.
fn push_rules(
    json: &mut JsonWriter,
    codes: &[&str],
    uris: &IndexMap<&str, String>,
) -> Result<(), AllocError>
    ensures { OnOk result (json.new
        ≡ with_value (array_of (rule_values_of (codes_seen codes.now) (uri_at uris.now))) json.old) }
{
    json.begin_list()?;
    for code in codes {
        push_rule(json, code, uris.get(*code))?;
    }
    json.end_list()
}

impl<'a> Rules<'a> {
    /// Writes rule and level of a result: `"ruleId": "oops","ruleIndex": 0,"level": "error"`. Without a code there is
    /// only the level.
    pub(crate) fn push_result_start(
        &self,
        json: &mut JsonWriter,
        code: &str,
        level: &str,
    ) -> Result<(), AllocError>
        ensures { OnOk result (json.new ≡ with_pairs
            (rule_pairs (rules_view self.now) code.now ++ pair (codes "level") (string level.now)) json.old) }
    {
        if code.is_empty() {
            return json.string_member("level", level);
        }
        let index = self.codes.get_index_of(code).unwrap_or(0);
        json.string_member("ruleId", code)?;
        json.number_member("ruleIndex", index)?;
        json.string_member("level", level)
    }

    /// Whether a url is the help address of a code's rule.
    pub(crate) fn has_uri(&self, alloc: Global, code: &str, url: &str) -> Result<bool, AllocError>
        ensures { IfOk result (λ is. is ≡ is_uri_of_rule ((rules_view self.now).uri code.now) url.now) }
    {
        let Some(uri) = self.uris.get(code) else {
            return Ok(false);
        };
        Ok(is_absolute_uri(url) && address_uri(alloc, url)? == *uri)
    }

    /// Writes `"rules": [{"id": "oops","helpUri": "https://x.org/oops"}]`, or nothing without rules.
    pub(crate) fn push_all(&self, json: &mut JsonWriter) -> Result<(), AllocError>
        ensures { OnOk result (json.new
            ≡ with_pairs (listed (codes "rules") (rule_values (rules_view self.now))) json.old) }
    {
        let codes = self.codes.as_slice();
        if codes.is_empty() {
            return Ok(());
        }
        json.key("rules")?;
        push_rules(json, codes, &self.uris)
    }
}
