//! Text under indents, not wrapped.

ghost use Rattle.std.specs.Prelude.{◌≡◌, ◌++◌, ◌<◌, ◌∷◌, [], IfOk, IfSome, OnOk, chars, length, string_bytes};
ghost use Rattle.std.specs.Prelude.{take, true};
ghost use Rattle.std.specs.List.{prefix_len};
ghost use Rattle.miette_runs.specs.rules.Sequences.{spell, tokens};
ghost use Rattle.miette_runs.specs.views.Interleaving.{interleaving};
ghost use Rattle.miette_text.specs.rules.Wrapping.{text_lines, trimmed_row, whole_lines};
ghost use Rattle.miette_text.specs.steps.WholeText.{ArePrinted, IsFirstLine, are_passed, indent_before, is_in_row};
ghost use Rattle.miette_text.specs.steps.WholeText.{last_under};

use crate::wrapping::blank_lines::{first_line, is_passed};
use crate::wrapping::word_parts::bare_len;
use miette_runs::runs::RunsSlice;
use miette_runs::runs::cells::push_runs_slice;
use miette_runs::runs::codes::Characters;
use miette_runs::runs::sink::Sink;
use std::alloc::{AllocError, Global};

// ---- indents

// Returns an indent without its trailing spaces. Its signs stay.
fn trim_end(indent: RunsSlice<'_>) -> RunsSlice<'_>
    ensures { interleaving 0 result.codes.now result.tags.now
        ≡ trimmed_row (interleaving 0 indent.entry.codes.now indent.entry.tags.now) }
{
    let bare = bare_len(Characters { list: indent.codes });
    RunsSlice {
        codes: &indent.codes[..bare],
        tags: indent.tags,
    }
}

// Returns the indent of a line, without trailing spaces if the line shows nothing.
fn indent_before<'a>(indent: RunsSlice<'a>, is_white: bool) -> RunsSlice<'a>
    ensures { interleaving 0 result.codes.now result.tags.now
        ≡ indent_before is_white (interleaving 0 indent.entry.codes.now indent.entry.tags.now) }
{
    if is_white { trim_end(indent) } else { indent }
}

// An upper limit of the bytes that most indents print, with colours.
const ROOM: usize = 16;

// Prints an indent to a string.
fn printed_text(alloc: Global, indent: RunsSlice<'_>) -> Result<String, AllocError>
    ensures { IfOk result (λ s. chars (string_bytes s)
        ≡ spell (interleaving 0 indent.entry.codes.now indent.entry.tags.now)) }
{
    let mut text = String::with_capacity(alloc, ROOM)?;
    push_runs_slice(&mut text, indent)?;
    Ok(text)
}

/// A printed indent, and the same without trailing spaces.
#[derive(Clone, Copy)]
struct PrintedIndent<'a> {
    whole: &'a str,
    bare: &'a str,
}

// Appends the indent of a line: its printed form if given, else the runs.
fn push_indent<S: Sink>(
    out: &mut S,
    indent: RunsSlice<'_>,
    printed: Option<PrintedIndent<'_>>,
    is_white: bool,
) -> Result<(), AllocError>
    requires { IfSome printed (λ it. ArePrinted it.whole.now it.bare.now
        (interleaving 0 indent.codes.now indent.tags.now)) }
    ensures { OnOk result (S.written out.new ≡ S.written out.old ++ spell
        (indent_before is_white (interleaving 0 indent.entry.codes.now indent.entry.tags.now))) }
{
    let Some(printed) = printed else {
        return push_runs_slice(out, indent_before(indent, is_white));
    };
    if is_white {
        return out.push_str(printed.bare);
    }
    out.push_str(printed.whole)
}

// ---- lines

// Splits a text after its first line feed, which follows `len` bytes.
fn cut_line(text: &str, len: usize) -> (&str, &str)
    requires len { len ≡ prefix_len is_in_row text.now }
    requires more { len < length text.now }
    ensures fed { chars result.0.now ≡ chars (take len text.now) ++ 10 ∷ [] }
    ensures line { IsFirstLine (chars text.now) (chars (take len text.now)) (chars result.1.now) }
    ensures shorter { length result.1.now < length text.now }
{
    (&text[..len + 1], &text[len + 1..])
}

// Appends what follows the last line feed. It has no indent if it has no character.
fn push_last<S: Sink>(
    out: &mut S,
    indent: RunsSlice<'_>,
    is_white: bool,
    line: &str,
) -> Result<(), AllocError>
    requires { is_white ≡ are_passed true (tokens (chars line.now)) }
    ensures { OnOk result (S.written out.new ≡ S.written out.old
        ++ last_under (interleaving 0 indent.entry.codes.now indent.entry.tags.now) (chars line.now)) }
{
    if is_passed(line, false) {
        return out.push_str(line);
    }
    push_indent(out, indent, None, is_white)?;
    out.push_str(line)
}

// Appends the lines of a text, each whole under an indent, given its printed form if known.
fn push_further<S: Sink>(
    out: &mut S,
    indent: RunsSlice<'_>,
    printed: Option<PrintedIndent<'_>>,
    text: &str,
) -> Result<(), AllocError>
    requires { IfSome printed (λ it. ArePrinted it.whole.now it.bare.now
        (interleaving 0 indent.codes.now indent.tags.now)) }
    ensures { let under = interleaving 0 indent.entry.codes.now indent.entry.tags.now in
        OnOk result (S.written out.new ≡ S.written out.old
        ++ spell (whole_lines under under (text_lines (tokens (chars text.now))))) }
{
    let mut rest = text;
    'lines: loop {
        let line = first_line(rest);
        let len = line.len;
        if len == rest.len() {
            return push_last(out, indent, line.is_white, rest);
        }
        let (fed, after) = cut_line(rest, len);
        push_indent(out, indent, printed, line.is_white)?;
        out.push_str(fed)?;
        rest = after;
    }
}

// From this length on, the indent is printed once for all lines of a text.
const LONG: usize = 256;

// Like the function above. For a long text the indent is printed only once.
fn push_printed<S: Sink>(
    out: &mut S,
    alloc: Global,
    indent: RunsSlice<'_>,
    text: &str,
) -> Result<(), AllocError>
    ensures { let under = interleaving 0 indent.entry.codes.now indent.entry.tags.now in
        OnOk result (S.written out.new ≡ S.written out.old
        ++ spell (whole_lines under under (text_lines (tokens (chars text.now))))) }
{
    if text.len() < LONG {
        return push_further(out, indent, None, text);
    }
    let whole = printed_text(alloc, indent)?;
    let bare = printed_text(alloc, trim_end(indent))?;
    let both = PrintedIndent {
        whole: whole.as_str(),
        bare: bare.as_str(),
    };
    push_further(out, indent, Some(both), text)
}

/// Appends the lines of a text, each whole under its indent. A line that shows nothing has the indent without trailing
/// spaces. After the last line feed there is an indent only if a character follows.
pub(crate) fn push_whole<S: Sink>(
    out: &mut S,
    alloc: Global,
    first: RunsSlice<'_>,
    further: RunsSlice<'_>,
    text: &str,
) -> Result<(), AllocError>
    ensures { OnOk result (S.written out.new ≡ S.written out.old
        ++ spell (whole_lines (interleaving 0 first.entry.codes.now first.entry.tags.now)
        (interleaving 0 further.entry.codes.now further.entry.tags.now) (text_lines (tokens (chars text.now))))) }
{
    let line = first_line(text);
    let len = line.len;
    if len == text.len() {
        return push_last(out, first, line.is_white, text);
    }
    // Most indents need less than half of the text's length.
    out.reserve(' ', text.len() + text.len() / 2 + ROOM)?;
    let (fed, after) = cut_line(text, len);
    push_indent(out, first, None, line.is_white)?;
    out.push_str(fed)?;
    push_printed(out, alloc, further, after)
}
