//! The trait of highlighters.

ghost use Rattle.std.specs.Prelude.{◌≡◌, ℕ, Bool, true, false, IsTrue, IfOk, List, [], ◌∷◌, length, All};
ghost use Rattle.std.specs.Str.{IsCharBoundary};
ghost use Rattle.miette_highlight.specs.rules.HighlighterCalls.{AnsweredBy, Call, Leads, asked};
ghost use Rattle.miette_highlight.specs.rules.HighlighterCalls.{listed_pieces, restarted};
ghost use Rattle.miette_highlight.specs.rules.Pieces.{CutsLine, StyledPiece, ends_from, plain_pieces, total_length};

use miette_protocol::source::MietteSpanContents;
use miette_style::style::Style;
use std::alloc::{AllocError, Global};

/// Styles the lines of a source. A highlighter is restarted before each snippet, with the contents of the snippet's
/// read. It then receives the text of each line, in order, without terminator and with tabs unchanged.
///
/// An implementation may keep state from one line to the next.
/// An implementation may carry a state from one line to the next.
pub trait Highlighter: Drop {
    // Whether each line is a single plain piece, whatever came before.
    ghost is_blank: { Self → Bool } = { λ _. false };

    // Whether these calls, with these results, may come next. By default any may.
    ghost may_follow: { Self → List Call → Type 0 } = { λ _ _. Unit {0} };

    /// Begins a new snippet.
    fn restart(&mut self, contents: &MietteSpanContents<'_>)
        ensures follows { Leads (may_follow self.old) (restarted contents.now ∷ []) (may_follow self.new) }
        ensures stays { is_blank self.new ≡ is_blank self.old };

    /// Returns the pieces of the next line: their lengths in bytes and their styles. The lengths add up to the line's
    /// length, and each piece ends at a character boundary. A piece of length 0 prints nothing.
    ///
    /// # Errors
    /// `AllocError` if allocation fails.
    fn highlight_line(
        &mut self,
        alloc: Global,
        line: &str,
    ) -> Result<Vec<(usize, Style)>, AllocError>
        ensures cuts { IfOk result (λ pieces. CutsLine line.now pieces.items) }
        ensures blank { IsTrue (is_blank self.old) → IfOk result (λ pieces. pieces.items ≡ plain_pieces line.now) }
        ensures follows { IfOk result (λ pieces.
            Leads (may_follow self.old) (asked line.now (listed_pieces pieces.items) ∷ []) (may_follow self.new)) }
        ensures stays { is_blank self.new ≡ is_blank self.old };
}

/// The pieces of a line have the line's length in total, and each ends at a character boundary.
pub fn pieces_law()
    ensures lengths { (line : List ℕ) (pieces : List StyledPiece) → CutsLine line pieces → total_length pieces
        ≡ length line }
    ensures boundaries { (line : List ℕ) (pieces : List StyledPiece) → CutsLine line pieces →
        All (IsCharBoundary line) (ends_from 0 pieces) }
{}

/// A highlighter that leaves each line plain.
#[derive(Clone, Copy, Debug, Default)]
pub struct BlankHighlighter;

impl Highlighter for BlankHighlighter {
    ghost is_blank = { λ _. true };

    ghost may_follow = { λ _. AnsweredBy plain_pieces };

    fn restart(&mut self, _contents: &MietteSpanContents<'_>) {}

    fn highlight_line(
        &mut self,
        alloc: Global,
        line: &str,
    ) -> Result<Vec<(usize, Style)>, AllocError> {
        Ok(vec![in alloc; (line.len(), Style::new())]?)
    }
}

/// Forwards to the boxed highlighter.
impl Highlighter for Box<dyn Highlighter> {
    ghost is_blank = { λ it. (Highlighter-box it).is_blank it.value };

    ghost may_follow = { λ it. (Highlighter-box it).may_follow it.value };

    fn restart(&mut self, contents: &MietteSpanContents<'_>) {
        (**self).restart(contents);
    }

    fn highlight_line(
        &mut self,
        alloc: Global,
        line: &str,
    ) -> Result<Vec<(usize, Style)>, AllocError> {
        (**self).highlight_line(alloc, line)
    }
}
