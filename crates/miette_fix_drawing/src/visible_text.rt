//! Lines that look alike: they differ, but print the same visible text.

ghost use Rattle.std.specs.Prelude.{◌≡◌, ◌++◌, replicate, IfOk, OnOk};
ghost use Rattle.std.specs.Option.{option_map};
ghost use Rattle.std.specs.Str.{bytes_eq};
ghost use Rattle.miette_columns.specs.views.Walking.{cell_of};
ghost use Rattle.miette_snippet_rules.specs.views.SnippetSettings.{settings_of};
ghost use Rattle.miette_fix_rows.specs.rules.DiffTexts.{look, look_alike, seen, without_blanks};
ghost use Rattle.miette_fix_drawing.specs.steps.Looks.{seen_of_cell};

use crate::texts::strip_terminator;
use miette_columns::cells::{Cell, CellWalk};
use miette_columns::plain::all_printable;
use miette_snippet_rules::options::SnippetSettings;
use std::alloc::{AllocError, Global};

// Appends `many` spaces.
fn push_spaces(seen: &mut Vec<char>, many: usize) -> Result<(), AllocError>
    ensures { OnOk result (seen.new.items ≡ seen.old.items ++ replicate many 32) }
{
    let mut left = many;
    while left > 0 {
        seen.push(' ')?;
        left -= 1;
    }
    Ok(())
}

// Appends what is visible of a character: white space as spaces, nothing for a character without columns.
fn push_seen(seen: &mut Vec<char>, cell: &Cell) -> Result<(), AllocError>
    ensures { OnOk result (seen.new.items ≡ seen.old.items ++ seen_of_cell (cell_of cell.now)) }
{
    if cell.code == '\t' || cell.code.is_whitespace() {
        return push_spaces(seen, cell.until.saturating_sub(cell.from));
    }
    if cell.from != cell.until {
        seen.push(cell.code)?;
    }
    Ok(())
}

// Returns what is visible of a walk over characters.
fn seen_of(alloc: Global, walk: CellWalk<'_>) -> Result<Vec<char>, AllocError>
    ensures { IfOk result (λ made. made.items ≡ seen walk.entry) }
{
    let mut walk = walk;
    let mut made = Vec::new(alloc);
    while let Some(cell) = walk.next()? {
        push_seen(&mut made, &cell)?;
    }
    Ok(made)
}

// Drops spaces at the end.
fn without_blanks(seen: &[char]) -> &[char]
    ensures { result.now ≡ without_blanks seen.now }
{
    let mut len = seen.len();
    while len > 0 && seen[len - 1] == ' ' {
        len -= 1;
    }
    &seen[..len]
}

// Returns what is visible of a line, including spaces at the end.
fn seen_of_line(settings: &SnippetSettings, line: &[u8]) -> Result<Vec<char>, AllocError>
    ensures { IfOk result (λ made. without_blanks made.items ≡ look (settings_of settings.now) line.now) }
{
    let walk = CellWalk::new(strip_terminator(line), 0, settings.layout.tab_width);
    seen_of(settings.alloc, walk)
}

// Returns whether two lines have the same bytes.
fn same_bytes(line: &[u8], other: &[u8]) -> bool
    ensures { result ≡ bytes_eq line.now other.now }
{
    line == other
}

// Returns whether two visible texts are equal.
fn same_characters(look: &[char], other: &[char]) -> bool
    ensures { result ≡ bytes_eq look.now other.now }
{
    look == other
}

// Returns a text without spaces at its end.
fn without_spaces(text: &[u8]) -> &[u8]
    ensures { result.now ≡ without_blanks text.now }
{
    let mut len = text.len();
    while len > 0 && text[len - 1] == b' ' {
        len -= 1;
    }
    &text[..len]
}

// Returns whether two lines look alike. Printable ASCII is compared byte by byte.
fn are_seen_alike(settings: &SnippetSettings, line: &[u8], other: &[u8]) -> Result<bool, AllocError>
    ensures { IfOk result (λ alike. alike
        ≡ bytes_eq (look (settings_of settings.now) line.now) (look (settings_of settings.now) other.now)) }
{
    let text = strip_terminator(line);
    let paired_text = strip_terminator(other);
    if all_printable(text) && all_printable(paired_text) {
        return Ok(same_bytes(without_spaces(text), without_spaces(paired_text)));
    }
    let seen = seen_of_line(settings, line)?;
    let other_seen = seen_of_line(settings, other)?;
    Ok(same_characters(without_blanks(&seen), without_blanks(&other_seen)))
}

/// Returns whether a line and its counterpart differ but look alike. `AllocError` if allocation fails or a column
/// exceeds `usize::MAX`.
pub fn look_alike(
    settings: &SnippetSettings,
    line: &[u8],
    other: Option<&[u8]>,
) -> Result<bool, AllocError>
    ensures { IfOk result (λ alike. alike
        ≡ look_alike (settings_of settings.now) line.now (option_map (λ bytes. bytes.now) other.entry)) }
{
    let Some(other) = other else {
        return Ok(false);
    };
    if same_bytes(line, other) {
        return Ok(false);
    }
    are_seen_alike(settings, line, other)
}
