//! Builds the report of a description.

ghost use Rattle.std.specs.Prelude.{◌≡◌, [], Option, Some, None, IfOk, OnOk, IfSome, IsSome, IsUtf8, false};
ghost use Rattle.std.specs.Prelude.{option_and_then, option_map, unwrap_or, map, string_bytes, codes};
ghost use Rattle.json.specs.Value.{value_view};
ghost use Rattle.serde_json.specs.Find.{as_str};
ghost use Rattle.serde_json.specs.Read.{read, of_json};
ghost use Rattle.serde_json.specs.Written.{has_float};
ghost use Rattle.miette_description.specs.steps.ParsedValues.{value_data, list_data};
ghost use Rattle.miette_tree.specs.rules.Tree.{Tree, Trees, cause_of, texts, trees, with_cause};
ghost use Rattle.miette_tree.specs.views.Report.{tree_of};
ghost use Rattle.miette_tree.specs.rules.Reads.{AlwaysReads};
ghost use Rattle.miette_description.specs.rules.Members.{optional_value, at_key, all_items, list_of, described_source};
ghost use Rattle.miette_description.specs.rules.Members.{diagnosis_in};
ghost use Rattle.miette_tree.specs.views.Owned.{owned_source};
ghost use Rattle.miette_description.specs.rules.Description.{one_cause, wrapped_in, tree_of_parts, report_in};
ghost use Rattle.miette_description.specs.rules.Description.{described_tree, report_from, reports_in, tree_of_bytes};
ghost use Rattle.miette_description.specs.steps.OptionalParts.{diagnosis_of_parts, maybe_sourced, maybe_related};

use crate::diagnosis::{DiagnosisParts, parse_diagnosis, report_of_diagnosis};
use crate::error::{BuildError, BuildResult};
use crate::json_values::{list_in, member_at};
use crate::numbers::{is_whole, value_has_float};
use crate::parts::{push_texts, texts_at};
use crate::reading::read_value;
use crate::source::source_at;
use json::{Reader, Scratch, Value};
use miette_protocol::protocol::Diagnostic;
use miette_protocol::source::SourceCode;
use miette_tree::parts::cause_texts;
use miette_tree::report::{OwnedSource, Report};
use std::alloc::Global;

// The greatest nesting depth of the JSON text.
const DEPTH: usize = 127;

/// Parses a text with at most 127 levels.
fn value_of<'a>(alloc: Global, text: &'a str, scratch: &'a mut Scratch) -> BuildResult<Value<'a>>
    ensures ok { IfOk result (λ v. read text.now ≡ of_json (value_view v)) }
    ensures description { (result ≡ Err BuildError.Description) → read text.now ≡ None }
{
    let mut reader = Reader::new(text, scratch)?;
    let value = read_value(alloc, &mut reader, DEPTH)?;
    match reader.next() {
        None => Ok(value),
        Some(_) => Err(BuildError::Description),
    }
}

/// Whether the JSON value of a text has a number that is neither a `u64` nor an `i64`.
fn text_has_float(alloc: Global, text: &str) -> BuildResult<bool>
    ensures ok { IfOk result (λ b. IfSome (read text.now) (λ d. b ≡ has_float d)) }
    ensures some { OnOk result (IsSome (read text.now)) }
    ensures description { (result ≡ Err BuildError.Description) → read text.now ≡ None }
{
    match serde_json::Value::from_str(alloc, text) {
        Ok(value) => Ok(value_has_float(&value)),
        Err(e) => {
            if e.is_memory() {
                Err(BuildError::Memory)
            } else {
                Err(BuildError::Description)
            }
        }
    }
}

/// Returns an error if a text contains a number that is neither a `u64` nor an `i64`. If all parsed numbers are `u64`,
/// nothing else is needed. Otherwise the text is parsed again as a whole value: the parsed text may contain numbers
/// that a later member with the same key replaces.
fn refuse_float(alloc: Global, text: &str, value: &Value<'_>) -> BuildResult<()>
    requires { read text.now ≡ of_json (value_view value.now) }
    ensures ok { OnOk result ((read text.now ≡ Some (value_data value.now))
        × (has_float (value_data value.now) ≡ false)) }
    ensures description { (result ≡ Err BuildError.Description) →
        option_and_then described_tree (read text.now) ≡ None }
{
    if is_whole(value) {
        return Ok(());
    }
    if text_has_float(alloc, text)? {
        return Err(BuildError::Description);
    }
    Ok(())
}

/// Builds the report that a JSON text describes, for boxes of any type. Its sources never fail to read.
///
/// # Errors
/// `Description` if the bytes aren't UTF-8 or don't describe a report. `Memory` if allocation fails.
pub fn report_from_json<D: Diagnostic, S: SourceCode>(
    alloc: Global,
    bytes: &[u8],
) -> Result<Report<D, S>, BuildError>
    ensures ok { IfOk result (λ r. IsUtf8 bytes.now × (tree_of_bytes bytes.now ≡ Some (tree_of D.meaning S.source r))) }
    ensures sources { IfOk result (λ r. AlwaysReads (tree_of D.meaning S.source r)) }
    ensures description { (result ≡ Err BuildError.Description) → IsUtf8 bytes.now → tree_of_bytes bytes.now ≡ None }
{
    let Ok(text) = str::from_utf8(bytes) else {
        return Err(BuildError::Description);
    };
    let mut scratch = Scratch::new(alloc);
    let value = value_of(alloc, text, &mut scratch)?;
    refuse_float(alloc, text, &value)?;
    let report = report_from(alloc, &value)?;
    Ok(Box::into_inner(report))
}

/// The cause of a description: a description, or texts. Both together are an error.
struct Causes<D: Diagnostic, S: SourceCode> {
    one: Option<Box<Report<D, S>>>,
    several: Option<Vec<String>>,
}

/// Adds the cause to a report: a report or texts, but not both.
fn report_with_cause<D: Diagnostic, S: SourceCode>(
    alloc: Global,
    report: Report<D, S>,
    causes: Causes<D, S>,
) -> BuildResult<Report<D, S>>
    requires { cause_of (tree_of D.meaning S.source report) ≡ texts [] }
    ensures ok { IfOk result (λ r.
        let value = tree_of D.meaning S.source in
        option_map (λ c. with_cause c (value report))
        (one_cause (option_map (λ b. value b.value) causes.one)
        (option_map (λ v. map string_bytes v.items) causes.several))
        ≡ Some (value r)) }
    ensures description { (result ≡ Err BuildError.Description) →
        one_cause (option_map (λ b. tree_of D.meaning S.source b.value) causes.one)
        (option_map (λ v. map string_bytes v.items) causes.several) ≡ None }
{
    let Causes { one, several } = causes;
    match one {
        None => match several {
            None => Ok(report),
            Some(list) => Ok(report.with_cause_texts(list)),
        },
        Some(cause) => match several {
            Some(_) => Err(BuildError::Description),
            None => match report.with_diagnostic_cause(alloc, Box::into_inner(cause)) {
                Ok(made) => Ok(made),
                Err(_) => Err(BuildError::Memory),
            },
        },
    }
}

/// Puts each context in front, in order: the last one becomes the message, and the others become causes at once, before
/// the old chain.
fn report_under<D: Diagnostic, S: SourceCode>(
    alloc: Global,
    report: Report<D, S>,
    contexts: Option<Vec<String>>,
) -> BuildResult<Report<D, S>>
    ensures ok { IfOk result (λ r.
        let value = tree_of D.meaning S.source in
        value r ≡ wrapped_in (unwrap_or (option_map (λ v. map string_bytes v.items) contexts) []) (value report)) }
    ensures memory { (result ≡ Err BuildError.Description) → ⊥ }
{
    let Some(contexts) = contexts else {
        return Ok(report);
    };
    let mut list = contexts;
    let Some(last) = list.pop() else {
        return Ok(report);
    };
    let Ok(made) = report.wrap_err(alloc, last.as_str()) else {
        return Err(BuildError::Memory);
    };
    list.reverse();
    push_texts(&mut list, alloc, cause_texts(&made))?;
    Ok(made.with_cause_texts(list))
}

/// Sets the source, if there is one.
fn report_with_source<D: Diagnostic, S: SourceCode>(
    report: Report<D, S>,
    source: Option<OwnedSource>,
) -> Report<D, S>
    ensures { tree_of D.meaning S.source result
        ≡ maybe_sourced (option_map owned_source source) (tree_of D.meaning S.source report) }
{
    match source {
        Some(source) => report.with_owned_source(source),
        None => report,
    }
}

/// Sets the related reports, if there are any.
fn report_with_related<D: Diagnostic, S: SourceCode>(
    report: Report<D, S>,
    list: Option<Vec<Report<D, S>>>,
) -> Report<D, S>
    ensures { tree_of D.meaning S.source result
        ≡ maybe_related (option_map (λ v. trees (map (tree_of D.meaning S.source) v.items)) list)
        (tree_of D.meaning S.source report) }
{
    match list {
        Some(list) => report.with_related(list),
        None => report,
    }
}

/// Moves a report to the heap.
fn box_of<D: Diagnostic, S: SourceCode>(
    alloc: Global,
    report: Report<D, S>,
) -> BuildResult<Box<Report<D, S>>>
    ensures ok { IfOk result (λ b. b.value ≡ report) }
    ensures memory { (result ≡ Err BuildError.Description) → ⊥ }
{
    match Box::new(alloc, report) {
        Ok(boxed) => Ok(boxed),
        Err(_) => Err(BuildError::Memory),
    }
}

/// The parts of a description except its diagnostic cause and its related reports.
struct OwnParts<S> {
    said: DiagnosisParts<S>,
    source: Option<OwnedSource>,
    several: Option<Vec<String>>,
    contexts: Option<Vec<String>>,
}

/// Reads these parts.
fn own_parts<S: SourceCode>(alloc: Global, value: &Value<'_>) -> BuildResult<OwnParts<S>>
    ensures said { IfOk result (λ p. diagnosis_in (value_data value.now) ≡ Some (diagnosis_of_parts S.source p.said)) }
    ensures source { IfOk result (λ p. optional_value described_source (at_key (codes "source") (value_data value.now))
        ≡ Some (option_map owned_source p.source)) }
    ensures several { IfOk result (λ p. optional_value (list_of as_str) (at_key (codes "causes") (value_data value.now))
        ≡ Some (option_map (λ v. map string_bytes v.items) p.several)) }
    ensures contexts { IfOk result (λ p.
        optional_value (list_of as_str) (at_key (codes "contexts") (value_data value.now))
        ≡ Some (option_map (λ v. map string_bytes v.items) p.contexts)) }
    ensures description { (result ≡ Err BuildError.Description) → (one : Option Tree) (related : Option Trees) →
        report_from (Some one) (Some related) (value_data value.now) ≡ None }
{
    let said = parse_diagnosis(alloc, value)?;
    let source = source_at(alloc, value, "source")?;
    let several = texts_at(alloc, value, "causes")?;
    let contexts = texts_at(alloc, value, "contexts")?;
    Ok(OwnParts {
        said,
        source,
        several,
        contexts,
    })
}

/// Builds the report of all parts.
fn report_of_parts<D: Diagnostic, S: SourceCode>(
    alloc: Global,
    parts: OwnParts<S>,
    one: Option<Box<Report<D, S>>>,
    list: Option<Vec<Report<D, S>>>,
) -> BuildResult<Report<D, S>>
    ensures ok { IfOk result (λ r.
        tree_of_parts (diagnosis_of_parts S.source parts.said) (option_map owned_source parts.source)
        (option_map (λ b. tree_of D.meaning S.source b.value) one)
        (option_map (λ v. map string_bytes v.items) parts.several)
        (option_map (λ v. trees (map (tree_of D.meaning S.source) v.items)) list)
        (option_map (λ v. map string_bytes v.items) parts.contexts) ≡ Some (tree_of D.meaning S.source r)) }
    ensures description { (result ≡ Err BuildError.Description) →
        tree_of_parts (diagnosis_of_parts S.source parts.said) (option_map owned_source parts.source)
        (option_map (λ b. tree_of D.meaning S.source b.value) one)
        (option_map (λ v. map string_bytes v.items) parts.several)
        (option_map (λ v. trees (map (tree_of D.meaning S.source) v.items)) list)
        (option_map (λ v. map string_bytes v.items) parts.contexts) ≡ None }
{
    let OwnParts {
        said,
        source,
        several,
        contexts,
    } = parts;
    let made = report_of_diagnosis(alloc, said)?;
    let report = report_with_source(made, source);
    let report = report_with_cause(alloc, report, Causes { one, several })?;
    report_under(alloc, report_with_related(report, list), contexts)
}

/// Builds the report of a description whose cause and related reports are built already. It releases its stack before
/// the next level is read.
#[inline(never)]
fn report_with<D: Diagnostic, S: SourceCode>(
    alloc: Global,
    value: &Value<'_>,
    one: Option<Box<Report<D, S>>>,
    list: Option<Vec<Report<D, S>>>,
) -> BuildResult<Box<Report<D, S>>>
    ensures ok { IfOk result (λ made.
        report_from (Some (option_map (λ b. tree_of D.meaning S.source b.value) one))
        (Some (option_map (λ v. trees (map (tree_of D.meaning S.source) v.items)) list)) (value_data value.now)
        ≡ Some (tree_of D.meaning S.source made.value)) }
    ensures description { (result ≡ Err BuildError.Description) →
        report_from (Some (option_map (λ b. tree_of D.meaning S.source b.value) one))
        (Some (option_map (λ v. trees (map (tree_of D.meaning S.source) v.items)) list)) (value_data value.now) ≡ None }
{
    let parts = own_parts(alloc, value)?;
    let report = report_of_parts(alloc, parts, one, list)?;
    box_of(alloc, report)
}

/// Builds the report of a description. Nested descriptions are built first, and each report is on the heap, so a level
/// needs little stack.
#[cycle(description)]
fn report_from<D: Diagnostic, S: SourceCode>(
    alloc: Global,
    value: &Value<'_>,
) -> BuildResult<Box<Report<D, S>>>
    ensures ok { IfOk result (λ b. report_in (value_data value.now) ≡ Some (tree_of D.meaning S.source b.value)) }
    ensures description { (result ≡ Err BuildError.Description) → report_in (value_data value.now) ≡ None }
{
    let one = cause_in(alloc, value)?;
    let list = related_in(alloc, value)?;
    report_with(alloc, value, one, list)
}

/// Builds the cause if it is a description.
#[cycle(description)]
fn cause_in<D: Diagnostic, S: SourceCode>(
    alloc: Global,
    value: &Value<'_>,
) -> BuildResult<Option<Box<Report<D, S>>>>
    ensures ok { IfOk result (λ o. optional_value report_in (at_key (codes "cause") (value_data value.now))
        ≡ Some (option_map (λ b. tree_of D.meaning S.source b.value) o)) }
    ensures description { (result ≡ Err BuildError.Description) →
        optional_value report_in (at_key (codes "cause") (value_data value.now)) ≡ None }
{
    let Some(found) = member_at(value, "cause") else {
        return Ok(None);
    };
    Ok(Some(report_from(alloc, found)?))
}

/// Builds the related reports, if there are any.
#[cycle(description)]
fn related_in<D: Diagnostic, S: SourceCode>(
    alloc: Global,
    value: &Value<'_>,
) -> BuildResult<Option<Vec<Report<D, S>>>>
    ensures ok { IfOk result (λ o.
        optional_value reports_in (at_key (codes "related") (value_data value.now))
        ≡ Some (option_map (λ v. trees (map (tree_of D.meaning S.source) v.items)) o)) }
    ensures description { (result ≡ Err BuildError.Description) →
        optional_value reports_in (at_key (codes "related") (value_data value.now)) ≡ None }
{
    let Some(found) = member_at(value, "related") else {
        return Ok(None);
    };
    let Some(list) = list_in(found) else {
        return Err(BuildError::Description);
    };
    Ok(Some(reports_from(alloc, list)?))
}

#[cycle(description)]
fn reports_from<D: Diagnostic, S: SourceCode>(
    alloc: Global,
    list: &[Value<'_>],
) -> BuildResult<Vec<Report<D, S>>>
    ensures ok { IfOk result (λ v. all_items report_in (list_data list.now)
        ≡ Some (map (tree_of D.meaning S.source) v.items)) }
    ensures description { (result ≡ Err BuildError.Description) → all_items report_in (list_data list.now) ≡ None }
{
    let mut reports = Vec::new(alloc);
    for value in list {
        let report = report_from(alloc, value)?;
        if reports.push(Box::into_inner(report)).is_err() {
            return Err(BuildError::Memory);
        }
    }
    Ok(reports)
}
