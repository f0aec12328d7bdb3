//! The lines of a brief report, and their parts.

ghost use Rattle.std.specs.Prelude.{◌≡◌, ◌++◌, ◌∷◌, [], Some, None, OnOk, string_bytes, option_copied};
ghost use Rattle.miette_brief.specs.rules.Rows.{position_after_colon, location_text, code_text, kind_text};
ghost use Rattle.miette_brief.specs.rules.Rows.{finding, told, brief_rows_text};
ghost use Rattle.miette_brief.specs.steps.Conversions.{brief_location_of, row_kind_of};

use crate::fix_its::{LineColumn, push_position};
use crate::one_line::push_one_line;
use miette_protocol::protocol::Severity;
use miette_tree::parts::severity_name;
use std::alloc::AllocError;

/// The name of a source and a position in it, each if known.
#[derive(Clone, Copy)]
pub(crate) struct BriefLocation<'a> {
    pub(crate) name: Option<&'a str>,
    pub(crate) position: Option<LineColumn>,
}

/// The kind of a line: a diagnostic with severity and code, a label, a cause, help, a fix, or the reason why a fix
/// can't be applied.
#[derive(Clone, Copy)]
pub(crate) enum RowKind<'a> {
    Finding(Option<Severity>, Option<&'a str>),
    Note,
    Cause,
    Help,
    Fix,
    Failure,
}

/// `:2:3`
fn push_after_colon(out: &mut String, position: Option<LineColumn>) -> Result<(), AllocError>
    ensures { OnOk result (string_bytes out.new ≡ string_bytes out.old ++ position_after_colon position) }
{
    let Some(at) = position else {
        return Ok(());
    };
    out.push_str(":")?;
    push_position(out, at)
}

/// `bad_file.rs:2:3: `
fn push_named(out: &mut String, name: &str, position: Option<LineColumn>) -> Result<(), AllocError>
    ensures { OnOk result (string_bytes out.new ≡ string_bytes out.old ++ location_text (Some name.now) position) }
{
    push_one_line(out, name)?;
    push_after_colon(out, position)?;
    out.push_str(": ")
}

/// `2:3: `
fn push_nameless(out: &mut String, position: Option<LineColumn>) -> Result<(), AllocError>
    ensures { OnOk result (string_bytes out.new ≡ string_bytes out.old ++ location_text None position) }
{
    let Some(at) = position else {
        return Ok(());
    };
    push_position(out, at)?;
    out.push_str(": ")
}

/// Appends a location: name and position, each if known.
fn push_location(out: &mut String, place: BriefLocation<'_>) -> Result<(), AllocError>
    ensures { OnOk result (string_bytes out.new
        ≡ string_bytes out.old ++ location_text (option_copied place.entry.name) place.entry.position) }
{
    match place.name {
        Some(name) => push_named(out, name, place.position),
        None => push_nameless(out, place.position),
    }
}

/// `[oops::my::bad]`
fn push_code(out: &mut String, code: Option<&str>) -> Result<(), AllocError>
    ensures { OnOk result (string_bytes out.new ≡ string_bytes out.old ++ code_text (option_copied code.entry)) }
{
    let Some(code) = code else {
        return Ok(());
    };
    out.push_str("[")?;
    push_one_line(out, code)?;
    out.push_str("]")
}

/// `error[oops::my::bad]: `
fn push_severity_and_code(
    out: &mut String,
    severity: Option<Severity>,
    code: Option<&str>,
) -> Result<(), AllocError>
    ensures { OnOk result (string_bytes out.new
        ≡ string_bytes out.old ++ kind_text (finding severity (option_copied code.entry))) }
{
    out.push_str(severity_name(severity))?;
    push_code(out, code)?;
    out.push_str(": ")
}

/// Appends the words for the kind of a line.
fn push_kind(out: &mut String, kind: RowKind<'_>) -> Result<(), AllocError>
    ensures { OnOk result (string_bytes out.new ≡ string_bytes out.old ++ kind_text (row_kind_of kind.entry)) }
{
    match kind {
        RowKind::Finding(severity, code) => push_severity_and_code(out, severity, code),
        RowKind::Note => out.push_str("note: "),
        RowKind::Cause => out.push_str("note: caused by: "),
        RowKind::Help => out.push_str("help: "),
        RowKind::Fix => out.push_str("fix: "),
        RowKind::Failure => out.push_str("note: failed to apply fix: "),
    }
}

/// Appends a line: location, kind, text, and a line feed.
pub(crate) fn push_row(
    out: &mut String,
    place: BriefLocation<'_>,
    kind: RowKind<'_>,
    text: &str,
) -> Result<(), AllocError>
    ensures { OnOk result (string_bytes out.new ≡ string_bytes out.old
        ++ brief_rows_text (told (record {
          place = brief_location_of place.entry;
          kind = row_kind_of kind.entry;
          text = text.now;
        }) ∷ [])) }
{
    push_location(out, place)?;
    push_kind(out, kind)?;
    push_one_line(out, text)?;
    out.push_str("\n")
}
