//! Which results of a run are reported.

ghost use Rattle.std.specs.Prelude.{◌≡◌, IfOk};
ghost use Rattle.std.specs.List.{list_all};
ghost use Rattle.serde_json.specs.View.{view};
ghost use Rattle.miette_read.specs.views.Values.{values_behind};
ghost use Rattle.miette_read_sarif.specs.rules.Counting.{are_accepted, is_counted, has_passed, is_absent, is_accepted};
ghost use Rattle.miette_read_sarif.specs.rules.Counting.{is_suppressed, results_of, says};

use miette_read::lists::push_item;
use miette_read::members::{member_objects, member_text};
use serde_json::Value;
use std::alloc::{AllocError, Global};

/// Returns whether the text at a key equals this one.
pub(crate) fn says(value: &Value, key: &str, text: &str) -> bool
    ensures { result ≡ says key.now text.now (view value.now) }
{
    member_text(value, key).unwrap_or("") == text
}

/// Returns whether a suppression has no status other than `accepted`.
fn is_accepted(suppression: &Value) -> bool
    ensures { result ≡ is_accepted (view suppression.now) }
{
    member_text(suppression, "status").unwrap_or("accepted") == "accepted"
}

/// Returns whether all of these suppressions are accepted.
fn all_accepted(suppressions: &[&Value]) -> bool
    ensures { result ≡ list_all is_accepted (values_behind suppressions.now) }
{
    for suppression in suppressions {
        if !is_accepted(*suppression) {
            return false;
        }
    }
    true
}

/// Returns whether there are suppressions, and all are accepted.
fn are_accepted(suppressions: &[&Value]) -> bool
    ensures { result ≡ are_accepted (values_behind suppressions.now) }
{
    !suppressions.is_empty() && all_accepted(suppressions)
}

/// Returns whether a result is suppressed.
fn is_suppressed(alloc: Global, finding: &Value) -> Result<bool, AllocError>
    ensures { IfOk result (λ it. it ≡ is_suppressed (view finding.now)) }
{
    let suppressions = member_objects(alloc, finding, "suppressions")?;
    Ok(are_accepted(suppressions.as_slice()))
}

/// Returns whether a result was in an earlier run and is gone.
fn is_absent(finding: &Value) -> bool
    ensures { result ≡ is_absent (view finding.now) }
{
    says(finding, "baselineState", "absent")
}

/// Returns whether a result's rule passed or didn't apply.
fn has_passed(finding: &Value) -> bool
    ensures { result ≡ has_passed (view finding.now) }
{
    says(finding, "kind", "pass") || says(finding, "kind", "notApplicable")
}

/// Returns whether a result is reported.
fn is_counted(alloc: Global, finding: &Value) -> Result<bool, AllocError>
    ensures { IfOk result (λ it. it ≡ is_counted (view finding.now)) }
{
    let suppressed = is_suppressed(alloc, finding)?;
    Ok(!(suppressed || is_absent(finding) || has_passed(finding)))
}

/// Returns the results of a run that are reported.
pub(crate) fn results_of<'v>(alloc: Global, run: &'v Value) -> Result<Vec<&'v Value>, AllocError>
    ensures { IfOk result (λ list. values_behind list.items ≡ results_of (view run.now)) }
{
    let findings = member_objects(alloc, run, "results")?;
    let mut list = Vec::new(alloc);
    for finding in findings.as_slice() {
        let finding = *finding;
        let counted = is_counted(alloc, finding)?;
        if counted {
            push_item(&mut list, finding)?;
        }
    }
    Ok(list)
}
