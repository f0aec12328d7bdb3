//! Skips printable ASCII characters. Each is one byte and one code unit, so many are skipped at once.

ghost use Rattle.std.specs.Prelude.{◌≡◌, ◌≤◌, ◌+◌, drop, length, take, true};
ghost use Rattle.std.specs.List.{list_all};
ghost use Rattle.miette_columns.specs.views.Printable.{is_printable};
ghost use Rattle.miette_positions.specs.steps.Samples.{IsWithin};
ghost use Rattle.miette_positions.specs.steps.Onward.{IsOnward};

use crate::position::{Position, Stop};
use crate::stops::rest_from;
use miette_columns::plain::plain_len;

// Counts the printable ASCII characters after a stop, up to `most`.
fn plain_at(source: &[u8], from: Stop, most: usize) -> usize
    requires { IsWithin source.now from }
    ensures few { result ≤ most }
    ensures within { from.offset + result ≤ length source.now }
    ensures printable { list_all is_printable (take result (drop from.offset source.now)) ≡ true }
{
    let rest = rest_from(source, from.offset);
    plain_len(&rest[..rest.len().min(most)])
}

/// Returns the stop after the printable ASCII characters that follow, up to `most`.
pub(crate) fn after_plain(source: &[u8], from: Stop, most: usize) -> Stop
    requires { IsWithin source.now from }
    ensures passed { IsOnward source.now most from result }
    ensures within { IsWithin source.now result }
    ensures order { from.offset ≤ result.offset }
{
    let many = plain_at(source, from, most);
    Stop {
        offset: from.offset + many,
        position: Position {
            line: from.position.line,
            column: from.position.column + many,
        },
    }
}
