//! A highlighter made of rules, for languages that can be read line by line.

ghost use Rattle.std.specs.Prelude.{◌≡◌, false, IsTrue, IfOk, None};
ghost use Rattle.miette_highlight.specs.rules.FollowingCalls.{FollowTokens};
ghost use Rattle.miette_highlight.specs.rules.Tokens.{AreTokens};
ghost use Rattle.miette_highlight.specs.rules.Pieces.{CutsLine, plain_pieces};

use crate::highlighter::Highlighter;
pub use crate::rule::{Delimiters, Delimiters as Marks, Pattern, Rule};
pub use crate::tokens::OpenPart;
use crate::tokens::pieces_of;
use miette_protocol::source::MietteSpanContents;
use miette_style::style::Style;
use std::alloc::{AllocError, Global};

/// Applies rules to each line. At the start of a line and after each piece, the first rule that matches determines the
/// next piece. If none matches, the next word, or the next character, is plain. A match has at least one character.
#[derive(Clone, Debug, Drop)]
pub struct PatternHighlighter {
    /// The rules; earlier ones take precedence.
    pub rules: Vec<Rule>,
    /// The part that the previous line left open, for example a block comment.
    pub left_open: Option<OpenPart>,
}

impl PatternHighlighter {
    /// Creates a highlighter with these rules, at the start of a text.
    pub fn new(rules: Vec<Rule>) -> Self
        ensures { result ≡ record { rules = rules; left_open = None } }
    {
        PatternHighlighter {
            rules,
            left_open: None,
        }
    }
}

impl Highlighter for PatternHighlighter {
    ghost is_blank = { λ it. false };

    ghost may_follow = { λ it. FollowTokens it.rules.items it.left_open };

    fn restart(&mut self, _contents: &MietteSpanContents<'_>)
        ensures blank { false ≡ false }
        ensures closed { self.new ≡ record self.old { left_open = None } }
    {
        self.left_open = None;
    }

    fn highlight_line(
        &mut self,
        alloc: Global,
        line: &str,
    ) -> Result<Vec<(usize, Style)>, AllocError>
        ensures blank { IsTrue false → IfOk result (λ pieces. pieces.items ≡ plain_pieces line.now) }
        ensures cuts { IfOk result (λ pieces. CutsLine line.now pieces.items) }
        ensures stays { false ≡ false }
        ensures tokens { IfOk result (λ pieces.
            AreTokens self.old.rules.items self.old.left_open line.now pieces.items self.new.left_open) }
        ensures rules { self.new.rules ≡ self.old.rules }
    {
        let (pieces, left_open) = pieces_of(alloc, &self.rules, self.left_open, line)?;
        self.left_open = left_open;
        Ok(pieces)
    }
}
