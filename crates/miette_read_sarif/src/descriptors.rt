//! The rule of a result.

ghost use Rattle.std.specs.Prelude.{◌≡◌, map, option_map, slice_get};
ghost use Rattle.std.specs.List.{fold};
ghost use Rattle.std.specs.Option.{option_copied};
ghost use Rattle.serde_json.specs.View.{view};
ghost use Rattle.miette_read.specs.views.Values.{values_behind};
ghost use Rattle.miette_read_sarif.specs.rules.Descriptors.{closer, closest, rule_component, ends_there, id_size};
ghost use Rattle.miette_read_sarif.specs.rules.Descriptors.{rule_index, is_closer, is_for, item_at, rule_at, rule_by};
ghost use Rattle.miette_read_sarif.specs.rules.Descriptors.{rule_id, rule_named, rule_reference};
ghost use Rattle.miette_read_sarif.specs.views.Seen.{value_lists_behind};

use crate::uris::after_front;
use miette_read::members::{member_number, member_object, member_text};
use serde_json::Value;

// ---- the result's reference to its rule

/// Returns the result's reference to its rule.
fn rule_reference(finding: &Value) -> Option<&Value>
    ensures { option_map (λ v. view v.now) result ≡ rule_reference (view finding.now) }
{
    member_object(finding, "rule")
}

/// Returns the rule id of a result.
pub(crate) fn rule_id(finding: &Value) -> Option<&str>
    ensures { option_copied result ≡ rule_id (view finding.now) }
{
    match member_text(finding, "ruleId") {
        Some(id) => Some(id),
        None => member_text(rule_reference(finding)?, "id"),
    }
}

/// Returns the rule index of a result.
fn rule_index(finding: &Value) -> Option<u64>
    ensures { result ≡ rule_index (view finding.now) }
{
    match member_number(finding, "ruleIndex") {
        Some(index) => Some(index),
        None => member_number(rule_reference(finding)?, "index"),
    }
}

/// Returns the tool component in the reference.
fn rule_component(finding: &Value) -> Option<&Value>
    ensures { option_map (λ v. view v.now) result ≡ rule_component (view finding.now) }
{
    member_object(rule_reference(finding)?, "toolComponent")
}

// ---- by its index

/// Returns the item at an index.
fn item<'v>(items: &[&'v Value], index: usize) -> Option<&'v Value>
    ensures { option_map (λ v. view v.now) result ≡ slice_get (values_behind items.now) index }
{
    match items.get(index) {
        Some(item) => Some(*item),
        None => None,
    }
}

/// Returns the item at an index, if both are there.
pub(crate) fn item_at<'v>(items: &[&'v Value], index: Option<u64>) -> Option<&'v Value>
    ensures { option_map (λ v. view v.now) result ≡ item_at (values_behind items.now) index }
{
    match index {
        Some(index) => item(items, index as usize),
        None => None,
    }
}

/// Returns the rule at an index of an extension.
fn extension_rule<'v>(
    extensions: &[Vec<&'v Value>],
    extension: usize,
    index: Option<u64>,
) -> Option<&'v Value>
    ensures { option_map (λ v. view v.now) result ≡ rule_by index (slice_get (value_lists_behind extensions.now)
        extension) }
{
    match extensions.get(extension) {
        Some(rules) => item_at(rules.as_slice(), index),
        None => None,
    }
}

/// Returns the rule at the result's index, of the driver or of the extension in the reference.
pub(crate) fn rule_at<'v>(
    rules: &[&'v Value],
    extensions: &[Vec<&'v Value>],
    finding: &Value,
) -> Option<&'v Value>
    ensures { option_map (λ v. view v.now) result
        ≡ rule_at (values_behind rules.now) (value_lists_behind extensions.now) (view finding.now) }
{
    let index = rule_index(finding);
    match rule_component(finding) {
        Some(component) => {
            let extension = member_number(component, "index")?;
            extension_rule(extensions, extension as usize, index)
        }
        None => item_at(rules, index),
    }
}

// ---- by its id

/// Returns whether the rest of an id is empty or starts with `/`.
fn ends_there(rest: Option<&str>) -> bool
    ensures { result ≡ ends_there (option_copied rest.entry) }
{
    match rest {
        Some(rest) => match rest.as_bytes().first() {
            Some(byte) => *byte == b'/',
            None => true,
        },
        None => false,
    }
}

/// Returns whether a rule's id equals this one, or is a prefix of it before a `/`.
fn is_for(rule: &Value, id: &str) -> bool
    ensures { result ≡ is_for id.now (view rule.now) }
{
    match member_text(rule, "id") {
        Some(its) => ends_there(after_front(id, its)),
        None => false,
    }
}

/// Returns the length of a rule's id, in bytes.
fn id_size(rule: &Value) -> usize
    ensures { result ≡ id_size (view rule.now) }
{
    member_text(rule, "id").unwrap_or("").len()
}

/// Returns whether a rule's id is longer than that of the rule found so far.
fn is_closer(found: Option<&Value>, rule: &Value) -> bool
    ensures { result ≡ is_closer (option_map (λ v. view v.now) found.entry) (view rule.now) }
{
    match found {
        Some(other) => id_size(other) < id_size(rule),
        None => true,
    }
}

/// Returns this rule if it matches and has a longer id, or else the rule found so far.
fn closer<'v>(id: &str, found: Option<&'v Value>, rule: &'v Value) -> Option<&'v Value>
    ensures { option_map (λ v. view v.now) result
        ≡ closer id.now (option_map (λ v. view v.now) found.entry) (view rule.now) }
{
    if is_for(rule, id) && is_closer(found, rule) {
        Some(rule)
    } else {
        found
    }
}

/// Returns the matching rule with the longest id.
fn closest<'v>(id: &str, found: Option<&'v Value>, rules: &[&'v Value]) -> Option<&'v Value>
    ensures { option_map (λ v. view v.now) result
        ≡ closest id.now (option_map (λ v. view v.now) found.entry) (values_behind rules.now) }
{
    let mut best = found;
    for rule in rules {
        best = closer(id, best, *rule);
    }
    best
}

/// Returns the matching rule with the longest id in any of these extensions.
fn closest_of_all<'v>(
    id: &str,
    found: Option<&'v Value>,
    extensions: &[Vec<&'v Value>],
) -> Option<&'v Value>
    ensures { option_map (λ v. view v.now) result
        ≡ fold (closest id.now) (option_map (λ v. view v.now) found.entry) (value_lists_behind extensions.now) }
{
    let mut best = found;
    for rules in extensions {
        best = closest(id, best, rules.as_slice());
    }
    best
}

/// Returns the rule for an id.
pub(crate) fn rule_named<'v>(
    rules: &[&'v Value],
    extensions: &[Vec<&'v Value>],
    id: Option<&str>,
) -> Option<&'v Value>
    ensures { option_map (λ v. view v.now) result
        ≡ rule_named (values_behind rules.now) (value_lists_behind extensions.now) (option_copied id.entry) }
{
    match id {
        Some(id) => closest_of_all(id, closest(id, None, rules), extensions),
        None => None,
    }
}
