//! GitHub workflow commands, part by part.

ghost use Rattle.std.specs.Prelude.{◌≡◌, ◌==◌, ◌++◌, codes, max, OnOk, string_bytes, option_copied, decimal};
ghost use Rattle.std.specs.List.{flat_map};
ghost use Rattle.std.specs.Option.{option_map};
ghost use Rattle.miette_brief.specs.rules.Commands.{columns, command_name, further_property, one_line_columns};
ghost use Rattle.miette_brief.specs.rules.Commands.{properties_text};
ghost use Rattle.miette_brief.specs.rules.Commands.{region_properties, message_row_text, file_properties};
ghost use Rattle.miette_brief.specs.rules.Commands.{title_properties};
ghost use Rattle.miette_brief.specs.steps.CommandParts.{file_location_of, title_property_text};

use crate::escapes::{CommandPart, push_escaped};
use miette_lines::numbers::push_number;
use miette_lines::sums::sum;
use miette_positions::position::Region;
use miette_protocol::protocol::Severity;
use std::alloc::AllocError;

/// The file that a command names, and the region in it, if one is given.
#[derive(Clone, Copy)]
pub(crate) struct FileLocation<'a> {
    pub(crate) file: &'a str,
    pub(crate) region: Option<Region>,
}

/// `,line=2`
fn push_keyed(out: &mut String, key: &str, number: usize) -> Result<(), AllocError>
    ensures { OnOk result (string_bytes out.new
        ≡ string_bytes out.old ++ (codes "," ++ (key.now ++ (codes "=" ++ decimal number)))) }
{
    out.push_str(",")?;
    out.push_str(key)?;
    out.push_str("=")?;
    push_number(out, number)
}

/// Appends `,key=number`.
fn push_numbered(out: &mut String, key: &str, number: usize) -> Result<(), AllocError>
    ensures { OnOk result (string_bytes out.new
        ≡ string_bytes out.old ++ further_property (record { key = key.now; value = decimal number })) }
{
    push_keyed(out, key, number)
}

/// Returns the greater of two numbers.
fn greater(first: usize, second: usize) -> usize
    ensures { result ≡ max first second }
{
    first.max(second)
}

/// `,col=3,endColumn=6`
fn push_line_columns(out: &mut String, region: Region) -> Result<(), AllocError>
    ensures { OnOk result (string_bytes out.new
        ≡ string_bytes out.old ++ flat_map further_property (one_line_columns region)) }
{
    let first = sum(region.start.column, 1)?;
    let last = greater(first, region.end.column);
    push_numbered(out, "col", first)?;
    push_numbered(out, "endColumn", last)
}

/// Whether a region is on one line.
fn is_on_one_line(region: Region) -> bool
    ensures { result ≡ (region.start.line == region.end.line) }
{
    region.start.line == region.end.line
}

/// Appends `,col=3,endColumn=6` if the region is on one line.
fn push_columns(out: &mut String, region: Region) -> Result<(), AllocError>
    ensures { OnOk result (string_bytes out.new
        ≡ string_bytes out.old ++ flat_map further_property (columns region)) }
{
    if is_on_one_line(region) {
        return push_line_columns(out, region);
    }
    Ok(())
}

/// `,line=2,endLine=2,col=3,endColumn=6`
fn push_region(out: &mut String, region: Option<Region>) -> Result<(), AllocError>
    ensures { OnOk result (string_bytes out.new
        ≡ string_bytes out.old ++ flat_map further_property (region_properties region)) }
{
    let Some(region) = region else {
        return Ok(());
    };
    push_numbered(out, "line", sum(region.start.line, 1)?)?;
    push_numbered(out, "endLine", sum(region.end.line, 1)?)?;
    push_columns(out, region)
}

/// ` file=bad_file.rs,line=2,endLine=2`
fn push_file_location(out: &mut String, site: Option<FileLocation<'_>>) -> Result<(), AllocError>
    ensures { OnOk result (string_bytes out.new
        ≡ string_bytes out.old ++ properties_text (file_properties (option_map file_location_of site.entry))) }
{
    let Some(site) = site else {
        return Ok(());
    };
    out.push_str(" file=")?;
    push_escaped(out, CommandPart::Property, site.file)?;
    push_region(out, site.region)
}

/// `,title=oops%3A%3Amy%3A%3Abad`. It begins with a space instead of the comma if there is no file.
fn push_title(
    out: &mut String,
    site: Option<FileLocation<'_>>,
    title: Option<&str>,
) -> Result<(), AllocError>
    ensures { OnOk result (string_bytes out.new
        ≡ string_bytes out.old ++ title_property_text (option_map file_location_of site.entry)
        (option_copied title.entry)) }
{
    let Some(title) = title else {
        return Ok(());
    };
    out.push_str(if site.is_some() { ",title=" } else { " title=" })?;
    push_escaped(out, CommandPart::Property, title)
}

/// Appends all properties of a command.
fn push_properties(
    out: &mut String,
    site: Option<FileLocation<'_>>,
    title: Option<&str>,
) -> Result<(), AllocError>
    ensures { OnOk result (string_bytes out.new
        ≡ string_bytes out.old ++ properties_text (file_properties (option_map file_location_of site.entry)
        ++ title_properties (option_copied title.entry))) }
{
    push_file_location(out, site)?;
    push_title(out, site, title)
}

/// The command for a severity. It is `error` without one.
fn command_name(severity: Option<Severity>) -> &'static str
    ensures { result.now ≡ command_name severity }
{
    match severity {
        Some(Severity::Advice) => "notice",
        Some(Severity::Warning) => "warning",
        _ => "error",
    }
}

/// `::error file=bad_file.rs,line=2,endLine=2::`
pub(crate) fn push_head(
    out: &mut String,
    severity: Option<Severity>,
    site: Option<FileLocation<'_>>,
    title: Option<&str>,
) -> Result<(), AllocError>
    ensures { OnOk result (string_bytes out.new ≡ string_bytes out.old
        ++ (codes "::" ++ (command_name severity
        ++ (properties_text (file_properties (option_map file_location_of site.entry)
        ++ title_properties (option_copied title.entry)) ++ codes "::")))) }
{
    out.push_str("::")?;
    out.push_str(command_name(severity))?;
    push_properties(out, site, title)?;
    out.push_str("::")
}

/// `%0Ahelp: try it`
pub(crate) fn push_message_row(out: &mut String, title: &str, text: &str) -> Result<(), AllocError>
    ensures { OnOk result (string_bytes out.new
        ≡ string_bytes out.old ++ message_row_text (record { title = title.now; text = text.now })) }
{
    out.push_str("%0A")?;
    push_escaped(out, CommandPart::Message, title)?;
    push_escaped(out, CommandPart::Message, text)
}
