//! Reads a span of bytes, given a way to find lines.

ghost use Rattle.std.specs.Prelude.{◌≡◌, ◌≤◌, ◌+◌, ◌-◌, ◌==◌, if◌then◌else◌, MatchBool, min, length};
ghost use Rattle.miette_lines.specs.rules.Lines.{line_of, column_of};
ghost use Rattle.miette_protocol.specs.rules.Reading.{IsInBounds, reading_end, data_start, data_end, plain_source};
ghost use Rattle.miette_protocol.specs.rules.Outcome.{Answers};

use crate::contents::MietteSpanContents;
use crate::error::MietteError;
use crate::protocol::{SourceOffset, SourceSpan};
use miette_lines::find::{FindLines, column_from};

/// The start of a read's data: its offset, line and column, and the line of the span.
#[derive(Clone, Copy)]
struct DataStart {
    at: usize,
    line: usize,
    column: usize,
    own: usize,
}

/// Whether a span is in bounds.
fn is_in_bounds(bytes: &[u8], span: &SourceSpan) -> bool
    ensures { MatchBool result (IsInBounds bytes.now span.now) (¬ IsInBounds bytes.now span.now) }
{
    span.offset() <= bytes.len() && span.len() <= bytes.len() - span.offset() + 1
}

/// Returns where the read of a span ends, cut to the end of the bytes.
fn reading_end(bytes: &[u8], span: &SourceSpan) -> usize
    requires { IsInBounds bytes.now span.now }
    ensures end { result ≡ min (length bytes.now) (reading_end bytes.now span.now) }
    ensures after { span.now.offset ≤ result }
    ensures within { result ≤ length bytes.now }
{
    let end = (span.offset() + span.len()).max(1);
    if end < bytes.len() && bytes[end - 1] == b'\r' && bytes[end] == b'\n' {
        end + 1
    } else {
        end.min(bytes.len())
    }
}

/// Returns where the data of a read end, and the line number there. The caller passes the line number of the span's
/// offset.
#[tactic(auto, using(crate::proofs::LineFacts::reads))]
fn data_end<L: FindLines>(
    lines: &L,
    bytes: &[u8],
    span: &SourceSpan,
    line: usize,
    after: usize,
) -> (usize, usize)
    requires bytes { L.text lines.now ≡ bytes.now }
    requires accepted { IsInBounds bytes.now span.now }
    requires line { line ≡ line_of bytes.now span.now.offset }
    ensures end { result.0 ≡ data_end bytes.now span.now after }
    ensures line { result.1 ≡ line_of bytes.now result.0 }
    ensures order { span.now.offset ≤ result.0 }
    ensures within { result.0 ≤ length bytes.now }
{
    let end = reading_end(bytes, span);
    let last = lines.line_from(span.offset(), line, end);
    if after == 0 {
        (end, last)
    } else {
        lines.end_after(end, last, after)
    }
}

/// Returns where the data of a read begin, with line and column, and the line number of the span's offset.
#[tactic(auto, using(crate::proofs::LineFacts::reads))]
fn data_start<L: FindLines>(lines: &L, bytes: &[u8], span: &SourceSpan, before: usize) -> DataStart
    requires bytes { L.text lines.now ≡ bytes.now }
    requires accepted { IsInBounds bytes.now span.now }
    ensures start { result.at ≡ data_start bytes.now span.now before }
    ensures own { result.own ≡ line_of bytes.now span.now.offset }
    ensures line { result.line ≡ line_of bytes.now span.now.offset - before }
    ensures same { result.line ≡ line_of bytes.now result.at }
    ensures column { result.column ≡ (if before == 0 then column_of bytes.now span.now.offset else 0) }
    ensures order { result.at ≤ span.now.offset }
{
    let offset = span.offset();
    let (start, own) = lines.start_before(offset, before);
    if before == 0 {
        let column = column_from(bytes, start, offset);
        DataStart {
            at: offset,
            line: own,
            column,
            own,
        }
    } else {
        let line = own.saturating_sub(before);
        DataStart {
            at: start,
            line,
            column: 0,
            own,
        }
    }
}

/// Reads a span. It searches backwards over the context lines before the span, counts the lines before these once, and
/// searches forwards to the end of the data.
#[tactic(auto, using(crate::proofs::LineFacts::reads))]
pub(crate) fn read<'a, L: FindLines>(
    lines: &L,
    bytes: &'a [u8],
    span: &SourceSpan,
    before: usize,
    after: usize,
) -> Result<MietteSpanContents<'a>, MietteError>
    requires { L.text lines.now ≡ bytes.now }
    ensures { Answers (plain_source bytes.now) span.now before after result }
{
    if !is_in_bounds(bytes, span) {
        return Err(MietteError::OutOfBounds);
    }
    let from = data_start(lines, bytes, span, before);
    let (to, last) = data_end(lines, bytes, span, from.own, after);
    Ok(MietteSpanContents::new(
        &bytes[from.at..to],
        SourceSpan::new(SourceOffset::from(from.at), to - from.at),
        from.line,
        from.column,
        last - from.line,
    ))
}
