//! Printing text without tabs as it is, and printable ASCII with tabs run by run.

ghost use Rattle.std.specs.Prelude.{◌≡◌, ◌-◌, ◌%◌, true, false, IfSome, IsNone, OnOk};
ghost use Rattle.std.specs.Str.{IsUtf8, IsAscii};
ghost use Rattle.std.specs.List.{list_all};
ghost use Rattle.miette_style.specs.views.Printouts.{◌⊕◌};
ghost use Rattle.miette_style.specs.views.Tokens.{text_tokens};
ghost use Rattle.miette_snippet_rules.specs.steps.Tabs.{is_untabbed, is_tabbed, tabbed_codes};

use memchr::memchr;
use miette_lines::sums::sum;
use miette_style::canvas::Canvas;
use miette_style::page::RowPrinter;
use std::alloc::AllocError;
use std::str;

/// Returns the bytes as text if they are UTF-8 without a tab.
pub(crate) fn text_without_tabs(bytes: &[u8]) -> Option<&str>
    ensures same { IfSome result (λ text. text.now ≡ bytes.now) }
    ensures utf8 { IfSome result (λ text. IsUtf8 bytes.now) }
    ensures untabbed { IfSome result (λ text. list_all is_untabbed bytes.now ≡ true) }
    ensures none { IsNone result → IsUtf8 bytes.now → list_all is_untabbed bytes.now ≡ false }
{
    if memchr(b'\t', bytes).is_some() {
        return None;
    }
    str::from_utf8(bytes).ok()
}

/// Returns whether each byte is a printable ASCII character or a tab.
pub(crate) fn all_tabbed(bytes: &[u8]) -> bool
    ensures { result ≡ list_all is_tabbed bytes.now }
{
    for byte in bytes {
        if (*byte < 0x20 || *byte > 0x7e) && *byte != b'\t' {
            return false;
        }
    }
    true
}

// Returns the width of a tab that begins at a column.
fn tab_columns(tab: usize, column: usize) -> usize
    ensures { result ≡ tab - column % tab }
{
    if tab == 0 { 0 } else { tab - column % tab }
}

/// Prints ASCII bytes as they are.
pub(crate) fn push_ascii<O: Canvas>(
    page: &mut RowPrinter<O>,
    bytes: &[u8],
) -> Result<(), AllocError>
    requires { IsAscii bytes.now }
    ensures { OnOk result (page.new ≡ page.old ⊕ text_tokens bytes.now) }
{
    if bytes.is_empty() {
        return Ok(());
    }
    let Ok(text) = str::from_utf8(bytes) else {
        unreachable!();
    };
    page.push_str(text)
}

/// Prints ASCII text that begins at column 0. Each tab becomes spaces up to the next multiple of the tab width.
/// `AllocError` if allocation fails or a column exceeds `usize::MAX`.
pub(crate) fn push_tabbed<O: Canvas>(
    page: &mut RowPrinter<O>,
    text: &[u8],
    tab: usize,
) -> Result<(), AllocError>
    requires { IsAscii text.now }
    ensures { OnOk result (page.new ≡ page.old ⊕ text_tokens (tabbed_codes tab 0 text.now)) }
{
    let mut rest = text;
    let mut column: usize = 0;
    while let Some(size) = memchr(b'\t', rest) {
        push_ascii(page, &rest[..size])?;
        let until = sum(column, size)?;
        let spaces = tab_columns(tab, until);
        page.push_copies(' ', spaces)?;
        let next = sum(until, spaces)?;
        column = next;
        rest = &rest[size + 1..];
    }
    push_ascii(page, rest)
}
