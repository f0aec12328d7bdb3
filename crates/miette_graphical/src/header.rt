//! Headers: a code, with its URL as a link or as text.

ghost use Rattle.std.specs.Prelude.{◌≡◌, ◌++◌, IfOk, OnOk, not, option_map};
ghost use Rattle.miette_runs.specs.rules.Runs.{print};
ghost use Rattle.miette_lines.specs.rules.Lists.{is_nil};
ghost use Rattle.miette_graphical_rules.specs.rules.DiagnosticText as parts;
ghost use Rattle.miette_graphical.specs.views.Painting.{PrintsOnly, settings_of};

use crate::painter::Painter;
use miette_graphical_rules::settings::UrlMode;
use miette_runs::runs::output::Output;
use miette_style::page::PLAIN;
use miette_style::style::Style;
use std::alloc::AllocError;

/// Prints the end of the row and a blank row.
fn push_blank_row(out: &mut Output) -> Result<(), AllocError>
    ensures { OnOk result (out.new ≡ out.old ++ print parts.blank_row) }
{
    out.push_chars(&['\n', '\n'])
}

/// Prints the code in a link and a space.
fn push_linked_code(out: &mut Output, style: Style, code: &str) -> Result<(), AllocError>
    ensures { OnOk result (out.new ≡ out.old ++ print (parts.linked_code style (Some code.now))) }
{
    if style == PLAIN {
        out.push_str(code)?;
        return out.push(' ');
    }
    out.begin(style)?;
    out.push_str(code)?;
    out.push(' ')?;
    out.end()
}

fn push_link_header<H>(
    painter: &mut Painter<'_, H>,
    style: Style,
    url: &str,
    code: Option<&str>,
) -> Result<(), AllocError>
    ensures text { OnOk result (painter.new.out ≡ painter.old.out ++ print
        (parts.link_header (settings_of painter.old) style url.now (option_map (λ t. t.now) code.entry))) }
    ensures stays { PrintsOnly painter.old painter.new }
{
    let settings = painter.settings;
    painter.out.push_link(url)?;
    if let Some(code) = code {
        push_linked_code(&mut painter.out, style, code)?;
    }
    painter
        .out
        .push_run(settings.theme.styles.link, settings.link_text())?;
    painter.out.push_link_end()?;
    push_blank_row(&mut painter.out)
}

/// Prints a URL in parentheses.
fn push_url_after<H>(painter: &mut Painter<'_, H>, url: &str) -> Result<(), AllocError>
    ensures text { OnOk result (painter.new.out ≡ painter.old.out
        ++ print (parts.url_after (settings_of painter.old) (Some url.now))) }
    ensures stays { PrintsOnly painter.old painter.new }
{
    let style = painter.settings.theme.styles.link;
    painter.out.push_chars(&[' ', '('])?;
    painter.out.push_run(style, url)?;
    painter.out.push(')')
}

fn push_code_header<H>(
    painter: &mut Painter<'_, H>,
    style: Style,
    url: Option<&str>,
    code: &str,
) -> Result<(), AllocError>
    ensures text { OnOk result (painter.new.out ≡ painter.old.out ++ print
        (parts.code_header style (Some code.now)
        (parts.url_after (settings_of painter.old) (option_map (λ t. t.now) url.entry)))) }
    ensures stays { PrintsOnly painter.old painter.new }
{
    painter.out.push_run(style, code)?;
    if let Some(url) = url {
        push_url_after(painter, url)?;
    }
    push_blank_row(&mut painter.out)
}

/// Prints a header. Returns whether there is one.
pub fn push_header<H>(
    painter: &mut Painter<'_, H>,
    style: Style,
    url: Option<&str>,
    code: Option<&str>,
) -> Result<bool, AllocError>
    ensures text { OnOk result (painter.new.out ≡ painter.old.out
        ++ print (parts.header_by (settings_of painter.old).urls (settings_of painter.old) style
        (option_map (λ t. t.now) url.entry) (option_map (λ t. t.now) code.entry))) }
    ensures shown { IfOk result (λ shown. shown
        ≡ not (is_nil (parts.header_by (settings_of painter.old).urls (settings_of painter.old) style
        (option_map (λ t. t.now) url.entry) (option_map (λ t. t.now) code.entry)))) }
    ensures stays { PrintsOnly painter.old painter.new }
{
    let after = match painter.settings.urls {
        UrlMode::Links => {
            if let Some(url) = url {
                push_link_header(painter, style, url, code)?;
                return Ok(true);
            }
            None
        }
        UrlMode::Text => url,
        UrlMode::Hidden => None,
    };
    let Some(code) = code else {
        return Ok(false);
    };
    push_code_header(painter, style, after, code)?;
    Ok(true)
}
