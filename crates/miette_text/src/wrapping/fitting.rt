//! Texts that fit into one line.

ghost use Rattle.std.specs.Prelude.{◌≡◌, ◌++◌, ℕ, List, IfOk, chars, false, true};
ghost use Rattle.miette_runs.specs.rules.Sequences.{spell};
ghost use Rattle.miette_text.specs.rules.Fitting.{fits, has_ink, is_line};
ghost use Rattle.miette_text.specs.rules.Wrapping.{WrapPlan, wrapped_text};
ghost use Rattle.miette_text.specs.steps.Fitting.{fits_row, is_shown};

use crate::wrapping::printable::is_printable;
use memchr::memchr2;
use miette_runs::runs::Runs;
use miette_runs::runs::cells::push_runs_slice;
use miette_runs::runs::columns::{char_columns, token_columns};
use miette_runs::runs::output::Output;
use miette_runs::runs::reading::is_canonical;
use std::alloc::AllocError;

// Whether a text is a line without escape sequences that fits and doesn't end with a space. Checks each character.
fn walk_fits(room: usize, text: &str) -> bool
    ensures { result ≡ fits_row room (chars text.now) }
{
    let mut left = room;
    let mut bare = true;
    for c in text.chars() {
        let columns = char_columns(c);
        if c == '\u{1B}' || c == '\n' || left < columns {
            return false;
        }
        left -= columns;
        bare = c != ' ';
    }
    bare
}

// Whether a text begins with more printable ASCII than fits.
fn is_wider(room: usize, text: &str) -> bool
    ensures { result ≡ true → fits_row room (chars text.now) ≡ false }
{
    let bytes = text.as_bytes();
    if bytes.len() <= room {
        return false;
    }
    is_printable(&bytes[..room + 1])
}

// Like the function above, but fast for printable ASCII, whose columns are its bytes.
fn fits_row(room: usize, text: &str) -> bool
    ensures { result ≡ fits_row room (chars text.now) }
{
    if is_wider(room, text) {
        return false;
    }
    let bytes = text.as_bytes();
    if room < bytes.len() || !is_printable(bytes) {
        return walk_fits(room, text);
    }
    match bytes {
        [] => true,
        [.., last] => *last != b' ',
    }
}

// Whether no byte is an escape or a line feed.
fn is_line(bytes: &[u8]) -> bool
    ensures { result ≡ is_line bytes.now }
{
    memchr2(b'\x1B', b'\n', bytes).is_none()
}

// Whether a character isn't white space.
fn has_ink(text: &str) -> bool
    ensures { result ≡ has_ink (chars text.now) }
{
    for c in text.chars() {
        if !c.is_whitespace() {
            return true;
        }
    }
    false
}

// Whether a text is a line without escape sequences that isn't white space.
fn is_shown(text: &str) -> bool
    ensures { result ≡ is_shown (chars text.now) }
{
    is_line(text.as_bytes()) && has_ink(text)
}

// Whether a text fits into one line after an indent, both unchanged.
fn fits(wrap_lines: bool, width: usize, first: &Runs, text: &str) -> Result<bool, AllocError>
    ensures when { IfOk result (λ found. found ≡ fits wrap_lines width first.now (chars text.now)) }
    ensures same { IfOk result (λ found. found ≡ true → (p : WrapPlan (List ℕ)) →
        p.wrap_lines ≡ wrap_lines → p.room ≡ width → p.first ≡ spell first.now →
        wrapped_text p (chars text.now) ≡ spell first.now ++ chars text.now) }
{
    let indent = first.parts();
    if !is_canonical(indent) {
        return Ok(false);
    }
    if !wrap_lines {
        return Ok(is_shown(text));
    }
    let columns = token_columns(indent)?;
    let Some(room) = width.checked_sub(columns) else {
        return Ok(false);
    };
    Ok(fits_row(room, text))
}

/// Appends a text after an indent if both fit into one line unchanged, and returns whether they do. Otherwise nothing
/// is appended. The result is the one that `wrap` gives for any plan with this width and first indent. Allocates only
/// for `out`.
///
/// They fit if the text has no escape and no line feed, the indent's escape sequences are complete, and
///
/// - if lines are wrapped, both together have at most `width` columns, and the text doesn't end with a space
/// - otherwise, the text has a character that isn't white space
/// - if not, a character of the text isn't white
///
/// # Errors
/// `AllocError` if allocation fails, or if the indent has more than `usize::MAX` columns. The content of `out` is then
/// unspecified.
pub fn push_if_fits(
    out: &mut Output,
    wrap_lines: bool,
    width: usize,
    first: &Runs,
    text: &str,
) -> Result<bool, AllocError>
    ensures when { IfOk result (λ found. found ≡ fits wrap_lines width first.now (chars text.now)) }
    ensures fits { IfOk result (λ found. found ≡ true → (p : WrapPlan (List ℕ)) →
        p.wrap_lines ≡ wrap_lines → p.room ≡ width → p.first ≡ spell first.now →
        out.new ≡ out.old ++ wrapped_text p (chars text.now)) }
    ensures otherwise { IfOk result (λ found. found ≡ false → out.new ≡ out.old) }
{
    let fits = fits(wrap_lines, width, first, text)?;
    if fits {
        push_runs_slice(out, first.parts())?;
        out.push_str(text)?;
    }
    Ok(fits)
}
