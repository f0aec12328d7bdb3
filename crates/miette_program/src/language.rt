//! Languages by name, and their highlighters.

ghost use Rattle.std.specs.Prelude.{◌≡◌, IfOk, None, false};
ghost use Rattle.miette_highlight.specs.rules.FollowingCalls.{FollowTokens};
ghost use Rattle.miette_highlight.specs.rules.Languages.{rule_texts};
ghost use Rattle.miette_program.specs.rules.LanguageRules.{language_rules};

use miette::highlight::{Highlighter, PatternHighlighter};
use miette::source::MietteSpanContents;
use miette::style::Style;
use std::alloc::{AllocError, Global};

/// A language that has a highlighter.
#[derive(Clone, Copy, Debug, PartialEq, Eq)]
pub enum Language {
    /// TOML.
    Toml,
    /// JSON.
    Json,
    /// Rust.
    Rust,
}

/// The pattern highlighter of a language.
#[derive(Drop)]
pub struct LanguageHighlighter {
    /// The language.
    pub language: Language,
    /// Its rules, and what the previous line left open.
    pub patterns: PatternHighlighter,
}

impl LanguageHighlighter {
    /// Creates the highlighter of a language, at the start of a text.
    ///
    /// # Errors
    /// `AllocError` if allocation for its rules fails.
    pub fn new(alloc: Global, language: Language) -> Result<Self, AllocError>
        ensures language { IfOk result (λ it. it.language ≡ language) }
        ensures rules { IfOk result (λ it. rule_texts it.patterns.rules.items ≡ language_rules language) }
        ensures closed { IfOk result (λ it. it.patterns.left_open ≡ None) }
    {
        let patterns = match language {
            Language::Toml => PatternHighlighter::toml(alloc)?,
            Language::Json => PatternHighlighter::json(alloc)?,
            Language::Rust => PatternHighlighter::rust(alloc)?,
        };
        Ok(LanguageHighlighter { language, patterns })
    }
}

impl Highlighter for LanguageHighlighter {
    ghost may_follow = { λ it. FollowTokens it.patterns.rules.items it.patterns.left_open };

    fn restart(&mut self, contents: &MietteSpanContents<'_>)
        ensures stays { false ≡ false }
        // Forgets what the previous text left open.
        ensures closed { self.new ≡ record self.old { patterns = record self.old.patterns { left_open = None } } }
    {
        self.patterns.restart(contents);
    }

    fn highlight_line(
        &mut self,
        alloc: Global,
        line: &str,
    ) -> Result<Vec<(usize, Style)>, AllocError> {
        self.patterns.highlight_line(alloc, line)
    }
}
