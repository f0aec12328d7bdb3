//! The first and the last lines of some bytes.

ghost use Rattle.std.specs.Prelude.{◌≡◌, ◌≤◌, ◌-◌, length, nat_le, take};
ghost use Rattle.miette_fix_rows.specs.rules.Blocks.{bytes_of, line_texts};

use miette_lines::lines::first_line;
use miette_lines::scan::start_before;

/// Returns the number of bytes of the first `many` lines.
#[tactic(auto, using(crate::proofs::LineCounts::no_bytes, crate::proofs::LineCounts::no_lines))]
pub fn len_of_first_lines(bytes: &[u8], many: usize) -> usize
    ensures size { result ≡ bytes_of (take many (line_texts bytes.now)) }
    ensures within { result ≤ length bytes.now }
{
    let mut rest = bytes;
    let mut size = 0;
    let mut left = many;
    while left > 0 {
        if rest.is_empty() {
            return size;
        }
        let line = first_line(rest, 0);
        rest = &rest[line.end..];
        size += line.end;
        left -= 1;
    }
    size
}

/// Returns the offset at which the last `many` lines begin, searching from the end.
pub fn last_lines_start(bytes: &[u8], many: usize) -> usize
    ensures size { result ≡ bytes_of (take (length (line_texts bytes.now) - many) (line_texts bytes.now)) }
    ensures within { result ≤ length bytes.now }
{
    if many == 0 || bytes.is_empty() {
        return bytes.len();
    }
    start_before(bytes, bytes.len() - 1, many - 1).0
}

/// Returns whether the bytes have at most `many` lines. Reads no more than that, from the end.
pub fn has_at_most_lines(bytes: &[u8], many: usize) -> bool
    ensures { result ≡ nat_le (length (line_texts bytes.now)) many }
{
    last_lines_start(bytes, many) == 0
}
