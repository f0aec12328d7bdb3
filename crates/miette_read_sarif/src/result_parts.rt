//! The own parts of a result: text, code, severity, help and URL.

ghost use Rattle.std.specs.Prelude.{◌≡◌, [], IfOk, codes, option_and_then, option_map, string_bytes, unwrap_or};
ghost use Rattle.std.specs.Option.{option_copied};
ghost use Rattle.serde_json.specs.View.{view};
ghost use Rattle.miette_read.specs.rules.Members.{member_items, nonempty_text};
ghost use Rattle.miette_read.specs.views.Values.{viewed};
ghost use Rattle.miette_read_sarif.specs.rules.Results.{result_code, default_level, has_failed, level_by, result_level};
ghost use Rattle.miette_read_sarif.specs.rules.Results.{message_in, message_text, rule_of, result_parts};
ghost use Rattle.miette_read_sarif.specs.rules.Results.{sarif_severity};
ghost use Rattle.miette_read_sarif.specs.rules.Results.{string_named, string_of, url_of};
ghost use Rattle.miette_read_sarif.specs.views.RunContexts.{run_context};

use crate::context::RunContext;
use crate::descriptors::rule_id;
use crate::messages::message_shown;
use miette_protocol::protocol::Severity;
use miette_read::files::Files;
use miette_read::members::{copy_text, member_items, member_object, member_text};
use miette_read::reports::MessageParts;
use serde_json::Value;
use std::alloc::{AllocError, Global};

/// Returns the message string with this id.
fn string_named<'v>(strings: Option<&'v Value>, id: &str) -> Option<&'v str>
    ensures { option_copied result ≡ string_named (option_map (λ v. view v.now) strings.entry) id.now }
{
    member_text(member_object(strings?, id)?, "text")
}

/// Returns the message's own text, or else the message string of its id.
fn string_of<'v>(strings: Option<&'v Value>, message: &'v Value) -> Option<&'v str>
    ensures { option_copied result ≡ string_of (option_map (λ v. view v.now) strings.entry) (view message.now) }
{
    match member_text(message, "text") {
        Some(text) => Some(text),
        None => string_named(strings, member_text(message, "id")?),
    }
}

/// Returns the arguments of a message.
fn arguments_of(message: &Value) -> &[Value]
    ensures { viewed result.now ≡ member_items (codes "arguments") (view message.now) }
{
    member_items(message, "arguments")
}

/// Returns the shown text of a message, or its id if that has no message string.
pub(crate) fn message_text(
    alloc: Global,
    strings: Option<&Value>,
    message: &Value,
) -> Result<Option<String>, AllocError>
    ensures { IfOk result (λ o. option_map string_bytes o
        ≡ message_text (option_map (λ v. view v.now) strings.entry) (view message.now)) }
{
    match string_of(strings, message) {
        Some(text) => Ok(Some(message_shown(alloc, arguments_of(message), text)?)),
        None => copy_text(alloc, member_text(message, "id")),
    }
}

/// Returns the text of the message of a result or location.
pub(crate) fn message_in(
    alloc: Global,
    strings: Option<&Value>,
    value: &Value,
) -> Result<Option<String>, AllocError>
    ensures { IfOk result (λ o. option_map string_bytes o
        ≡ message_in (option_map (λ v. view v.now) strings.entry) (view value.now)) }
{
    match member_object(value, "message") {
        Some(message) => message_text(alloc, strings, message),
        None => Ok(None),
    }
}

/// Returns the text, if it isn't empty.
pub(crate) fn nonempty_text(text: Option<String>) -> Option<String>
    ensures { option_map string_bytes result ≡ nonempty_text (option_map string_bytes text) }
{
    let text = text?;
    if text.is_empty() { None } else { Some(text) }
}

/// Returns the text, or an empty one.
pub(crate) fn or_empty(alloc: Global, text: Option<String>) -> String
    ensures { string_bytes result ≡ unwrap_or (option_map string_bytes text) [] }
{
    match text {
        Some(text) => text,
        None => String::new(alloc),
    }
}

/// Returns whether a result is one of a failed rule.
fn has_failed(finding: &Value) -> bool
    ensures { result ≡ has_failed (view finding.now) }
{
    member_text(finding, "kind").unwrap_or("fail") == "fail"
}

/// Returns the default level of a rule.
fn level_by(rule: &Value) -> Option<&str>
    ensures { option_copied result ≡ level_by (view rule.now) }
{
    member_text(member_object(rule, "defaultConfiguration")?, "level")
}

/// Returns the severity of a level.
fn sarif_severity(level: &str) -> Severity
    ensures { result ≡ sarif_severity level.now }
{
    match level {
        "error" => Severity::Error,
        "warning" => Severity::Warning,
        _ => Severity::Advice,
    }
}

impl<'f, 'l, 'v, F: Files> RunContext<'f, 'l, 'v, F> {
    /// Returns the code of a result: the id of its rule.
    fn result_code(&self, finding: &'v Value) -> Option<&'v str>
        ensures { option_copied result ≡ result_code (run_context F.found self.now) (view finding.now) }
    {
        match rule_id(finding) {
            Some(id) => Some(id),
            None => member_text(self.rule_of(finding)?, "id"),
        }
    }

    /// Returns the help URL of the result's rule.
    fn url_of(&self, finding: &Value) -> Option<&'v str>
        ensures { option_copied result ≡ url_of (run_context F.found self.now) (view finding.now) }
    {
        member_text(self.rule_of(finding)?, "helpUri")
    }

    /// Returns the default level of the result's rule.
    fn rule_level(&self, finding: &Value) -> Option<&'v str>
        ensures { option_copied result
            ≡ option_and_then level_by (rule_of (run_context F.found self.now) (view finding.now)) }
    {
        level_by(self.rule_of(finding)?)
    }

    /// Returns the level of a result that has none.
    fn default_level(&self, finding: &Value) -> &'v str
        ensures { result.now ≡ default_level (run_context F.found self.now) (view finding.now) }
    {
        if has_failed(finding) {
            self.rule_level(finding).unwrap_or("warning")
        } else {
            "none"
        }
    }

    /// Returns the level of a result.
    fn result_level(&self, finding: &'v Value) -> &'v str
        ensures { result.now ≡ result_level (run_context F.found self.now) (view finding.now) }
    {
        match member_text(finding, "level") {
            Some(level) => level,
            None => self.default_level(finding),
        }
    }

    /// Returns the own parts of a result, with this help.
    pub(crate) fn result_parts(
        &self,
        alloc: Global,
        help: Option<String>,
        finding: &'v Value,
    ) -> Result<MessageParts, AllocError>
        ensures { IfOk result (λ it. it ≡ result_parts (run_context F.found self.now)
            (option_map string_bytes help) (view finding.now)) }
    {
        let message = or_empty(alloc, message_in(alloc, self.strings, finding)?);
        let code = copy_text(alloc, self.result_code(finding))?;
        let url = copy_text(alloc, self.url_of(finding))?;
        Ok(MessageParts {
            message,
            code,
            severity: sarif_severity(self.result_level(finding)),
            help,
            url,
        })
    }
}
