//! Highlighting the lines of a snippet.

ghost use Rattle.std.specs.Prelude.{◌≡◌, ℕ, List, [], ◌∷◌, true, map, IfOk, if◌then◌else◌};
ghost use Rattle.miette_snippet_rules.specs.rules.Highlighting.{AreCallsOn, ArePieces, decoded_text};
ghost use Rattle.miette_snippet_rules.specs.rules.Highlighting.{highlight_of, leaves_plain, follows};
ghost use Rattle.miette_highlight.specs.rules.HighlighterCalls.{Call, Leads, asked, listed_pieces, restarted};
ghost use Rattle.miette_highlight.specs.rules.Pieces.{CutsLine, plain_pieces};

use bstr::ByteSlice;
use miette_highlight::highlight::Highlighter;
use miette_protocol::source::MietteSpanContents;
use miette_style::laws::comparison_laws;
use miette_style::page::PLAIN;
use miette_style::style::Style;
use std::alloc::{AllocError, Global};

/// Restarts the highlighter, since a new snippet begins.
pub(crate) fn restart<H: Highlighter>(
    highlighter: &mut Option<H>,
    contents: &MietteSpanContents<'_>,
)
    ensures calls { AreCallsOn H.may_follow highlighter.old highlighter.new (restarted contents.now ∷ []) }
    ensures stays { leaves_plain H.is_blank highlighter.new ≡ leaves_plain H.is_blank highlighter.old }
{
    match highlighter {
        Some(highlighter) => highlighter.restart(contents),
        None => {}
    }
}

// Returns the highlighter's pieces for a line. The highlighter gets the decoded text.
fn line_pieces<H: Highlighter>(
    alloc: Global,
    highlighter: &mut H,
    text: &[u8],
) -> Result<Vec<(usize, Style)>, AllocError>
    ensures cut { IfOk result (λ pieces. CutsLine (decoded_text text.now) pieces.items) }
    ensures plain { H.is_blank highlighter.old ≡ true →
        IfOk result (λ pieces. pieces.items ≡ plain_pieces (decoded_text text.now)) }
    ensures calls { IfOk result (λ pieces. Leads (H.may_follow highlighter.old)
        (asked (decoded_text text.now) (listed_pieces pieces.items) ∷ []) (H.may_follow highlighter.new)) }
    ensures stays { H.is_blank highlighter.new ≡ H.is_blank highlighter.old }
{
    let line = text.to_str_lossy(alloc)?;
    highlighter.highlight_line(alloc, line.as_str())
}

// Returns whether the pieces leave the line plain.
fn is_plain(pieces: &[(usize, Style)]) -> bool
    ensures plain { (line : List ℕ) → pieces.now ≡ plain_pieces line → result ≡ true }
    ensures counts { listed_pieces pieces.now ≡ (if result then [] else pieces.now) }
{
    comparison_laws();
    match pieces {
        [piece] => piece.1 == PLAIN,
        _ => false,
    }
}

/// Returns the highlighter's pieces for a line, or none if the line stays plain or there is no highlighter. Each piece
/// is a length in bytes of the decoded text and a style. `AllocError` if allocation fails, also in the highlighter.
pub(crate) fn pieces_of<H: Highlighter>(
    alloc: Global,
    highlighter: &mut Option<H>,
    text: &[u8],
) -> Result<Vec<(usize, Style)>, AllocError>
    ensures pieces { IfOk result (λ pieces. ArePieces (leaves_plain H.is_blank highlighter.old) (decoded_text text.now)
        (map highlight_of pieces.items)) }
    ensures calls { IfOk result (λ pieces. AreCallsOn H.may_follow highlighter.old highlighter.new
        (asked (decoded_text text.now) pieces.items ∷ [])) }
    ensures stays { leaves_plain H.is_blank highlighter.new ≡ leaves_plain H.is_blank highlighter.old }
{
    match highlighter {
        Some(highlighter) => {
            let pieces = line_pieces(alloc, highlighter, text)?;
            if is_plain(&pieces) {
                return Ok(Vec::new(alloc));
            }
            Ok(pieces)
        }
        None => Ok(Vec::new(alloc)),
    }
}

/// Returns whether the lines after a line that is left out may be skipped. A highlighter needs to see them.
pub(crate) fn may_pass<H: Highlighter>(highlighter: &Option<H>, left_out: bool) -> bool
    ensures out { result ≡ true → left_out ≡ true }
    ensures free { result ≡ true → (calls : List Call) → follows H.may_follow highlighter.now calls }
{
    match highlighter {
        Some(_) => false,
        None => left_out,
    }
}
