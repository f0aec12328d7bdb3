//! Wraps text under indents.
//!
//!     one two-three         a line of the text
//!     one␣|two-three        words: each has the spaces after it
//!     one␣|two-|three       parts: a word is split after a hyphen, or broken if it is too wide
//!     × one two-            lines: as many parts as fit after the indent,
//!       three               without trailing spaces; further lines have an indent of their own
//!
//! | Stage | Function |
//! |---|---|
//! | use a text as it is if it is ASCII without escapes | `Ascii` |
//! | or else read it as runs, which separate escape sequences from characters | `parse_text`, `reparse` |
//! | split it at line feeds | `line_len` |
//! | find the next part and the spaces after it: words separated by spaces | `SpaceWords` |
//! | or words separated where Unicode allows a line break | `UnicodeWords` |
//! | find the letters of the part | `first_part` |
//! | count how many characters fit into a line | `row_len` |
//! | print the lines, with the escape sequences between their characters | `push_filled` |
//! | or, without wrapping, print lines whole | `push_whole` |
//! | shorten the indent of a line that shows nothing | `first_line` |
//!
//! `wrap_text` wraps a text under runs, `wrap` wraps runs, and `fill` wraps a text under texts. `push_if_fits` appends
//! a text that fits into one line, without any of these stages; callers try it first.
//! `trimming` of `miette_runs` trims line feeds at either end of runs.

ghost use Rattle.std.specs.Prelude.{◌≡◌, ◌++◌, [], MatchOption, OnOk, chars, true};
ghost use Rattle.std.specs.Str.{IsNotAscii};
ghost use Rattle.miette_style.specs.rules.Escapes.{no_escape};
ghost use Rattle.miette_runs.specs.rules.Sequences.{spell, tokens};
ghost use Rattle.miette_runs.specs.views.Interleaving.{interleaving};
ghost use Rattle.miette_text.specs.rules.Wrapping.{filled_text, wrapped_text, wrapped_tokens};
ghost use Rattle.miette_text.specs.views.Plans.{printed_plan, runs_plan};

mod blank_lines;
pub mod fitting;
mod line_feeds;
mod lines;
mod printable;
mod unicode_words;
mod unwrapped;
mod word_parts;

use crate::options::{WordSeparator, WrapPlan};
use crate::wrapping::lines::{LineCodes, RowIndents, TaggedCodes, push_filled};
use crate::wrapping::unicode_words::UnicodeWords;
use crate::wrapping::unwrapped::push_whole;
use crate::wrapping::word_parts::{Cuts, SpaceWords};
use memchr::memchr;
use miette_runs::runs::Runs;
use miette_runs::runs::cells::push_runs_slice;
use miette_runs::runs::codes::{Ascii, Characters};
use miette_runs::runs::columns::token_columns;
use miette_runs::runs::output::Output;
use miette_runs::runs::reading::{is_canonical, parse_text, print, reparse};
use miette_runs::runs::sink::Sink;
use std::alloc::{AllocError, Global};

fn push_filled_under<S: Sink, C: LineCodes>(
    out: &mut S,
    plan: WrapPlan<'_>,
    text: TaggedCodes<'_, C>,
) -> Result<(), AllocError>
    ensures { OnOk result (S.written out.new ≡ S.written out.old ++ spell (filled_text (runs_plan plan.entry)
        (interleaving 0 (C.codes text.entry.codes) text.entry.tags.now))) }
{
    let first = plan.first.parts();
    let further = plan.further.parts();
    let first_columns = token_columns(first)?;
    let further_columns = token_columns(further)?;
    let room = plan.width.saturating_sub(first_columns);
    let further_room = plan.width.saturating_sub(further_columns);
    let narrow = room.min(further_room);
    let cuts = Cuts {
        split_hyphens: plan.split_hyphens,
        break_words: plan.break_words,
        narrow,
    };
    let under = RowIndents {
        room,
        further,
        further_room,
    };
    push_runs_slice(out, first)?;
    match plan.separator {
        WordSeparator::AsciiSpace => push_filled::<S, SpaceWords, C>(out, cuts, under, text),
        WordSeparator::UnicodeBreakProperties => {
            push_filled::<S, UnicodeWords, C>(out, cuts, under, text)
        }
    }
}

// Wraps runs, with the indents' signs unchanged.
fn push_filled_runs<S: Sink>(out: &mut S, plan: WrapPlan<'_>, text: &Runs) -> Result<(), AllocError>
    ensures { OnOk result (S.written out.new ≡ S.written out.old
        ++ spell (filled_text (runs_plan plan.entry) text.now)) }
{
    let parts = text.parts();
    let codes = Characters { list: parts.codes };
    let tags = parts.tags;
    push_filled_under(out, plan, TaggedCodes { codes, tags })
}

fn has_no_escape(bytes: &[u8]) -> bool
    ensures { result ≡ no_escape bytes.now }
{
    memchr(b'\x1B', bytes).is_none()
}

// Returns the text as ASCII if it has no escape; its characters are then all that is read.
fn plain(text: &str) -> Option<Ascii<'_>>
    ensures { MatchOption result (no_escape text.now ≡ true → IsNotAscii text.now)
        (λ it. interleaving 0 it.text.now [] ≡ tokens (chars text.now)) }
{
    if !has_no_escape(text.as_bytes()) {
        return None;
    }
    Ascii::of(text)
}

/// Appends a text, wrapped, with the indents' signs unchanged. ASCII text without escapes is not copied.
///
/// # Errors
/// `AllocError` if allocation fails, or if a line has more than `usize::MAX` columns. The content of `out` is then
/// unspecified.
pub fn push_wrapped<S: Sink>(
    out: &mut S,
    alloc: Global,
    plan: WrapPlan<'_>,
    text: &str,
) -> Result<(), AllocError>
    ensures { OnOk result (S.written out.new ≡ S.written out.old
        ++ spell (wrapped_tokens (runs_plan plan.entry) (tokens (chars text.now)))) }
{
    if !plan.wrap_lines {
        return push_whole(out, alloc, plan.first.parts(), plan.further.parts(), text);
    }
    if let Some(codes) = plain(text) {
        // Most indents need less than a quarter of the text's length.
        out.reserve(' ', text.len() + text.len() / 4)?;
        return push_filled_under(out, plan, TaggedCodes { codes, tags: &[] });
    }
    let read = parse_text(alloc, text)?;
    push_filled_runs(out, plan, &read)
}

// Whether the printed indents read as the same characters and signs again.
fn are_canonical(plan: WrapPlan<'_>) -> bool
    ensures first { result ≡ true → tokens (spell plan.entry.first.now) ≡ plan.entry.first.now }
    ensures further { result ≡ true → tokens (spell plan.entry.further.now) ≡ plan.entry.further.now }
{
    is_canonical(plan.first.parts()) && is_canonical(plan.further.parts())
}

/// Appends a text, wrapped.
///
/// # Errors
/// `AllocError` if allocation fails, or if a row has more than `usize::MAX` columns. The content of `out` is then
/// unspecified.
pub fn wrap_text(
    out: &mut Output,
    alloc: Global,
    plan: WrapPlan<'_>,
    text: &str,
) -> Result<(), AllocError>
    ensures { OnOk result (out.new ≡ out.old ++ wrapped_text (printed_plan plan.entry) (chars text.now)) }
{
    if are_canonical(plan) {
        return push_wrapped(out, alloc, plan, text);
    }
    let first = reparse(alloc, plan.first)?;
    let further = reparse(alloc, plan.further)?;
    let read = WrapPlan {
        first: &first,
        further: &further,
        ..plan
    };
    push_wrapped(out, alloc, read, text)
}

/// Appends runs, wrapped like the text that they print.
///
/// # Errors
/// `AllocError` if allocation fails, or if a row has more than `usize::MAX` columns. The content of `out` is then
/// unspecified.
pub fn wrap(
    out: &mut Output,
    alloc: Global,
    plan: WrapPlan<'_>,
    text: &Runs,
) -> Result<(), AllocError>
    ensures { OnOk result (out.new ≡ out.old ++ wrapped_text (printed_plan plan.entry) (spell text.now)) }
{
    if plan.wrap_lines && are_canonical(plan) && is_canonical(text.parts()) {
        return push_filled_runs(out, plan, text);
    }
    let text = print(alloc, text)?;
    wrap_text(out, alloc, plan, text.as_str())
}
