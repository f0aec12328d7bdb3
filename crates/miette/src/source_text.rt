//! Texts that a program reads, shared as the source of its reports.

ghost use Rattle.std.specs.Prelude.{◌≡◌, IsUtf8, IfOk, IfErr, Some, string_bytes};
ghost use Rattle.std.specs.Option.{option_copied};
ghost use Rattle.miette_protocol.specs.rules.Reading.{named_source, plain_source};
ghost use Rattle.miette_tree.specs.views.Owned.{owned_source};
ghost use Rattle.miette_tree.specs.views.Report.{tree_of};
ghost use Rattle.miette.specs.rules.Inputs.{GivesNoText, shown_name};
ghost use Rattle.miette.specs.rules.Texts.{IsTextSource};

use crate::input::{input_name, read_text};
use miette_protocol::protocol::{Diagnostic, SourceOffset, SourceSpan};
use miette_protocol::source::SourceCode;
use miette_tree::report::{DefaultBoxes, OwnedSource, Report};
use std::alloc::{AllocError, Global};
use std::fs::Files;
use std::io::Input;
use std::marker::Model;
use std::str;

/// A text in memory, shared by all reports over it.
#[derive(Drop)]
pub struct SourceText {
    source: OwnedSource,
}

impl Model for SourceText {
    ghost use Rattle.miette_protocol.specs.rules.Reading.{Source};
    ghost use Rattle.miette_tree.specs.views.Owned.{owned_source};
    ghost use Rattle.miette.specs.rules.Texts.{IsTextSource};

    ghost Value = { Source };

    ghost view = { λ it. owned_source it.source };

    ghost invariant = { λ it. IsTextSource (owned_source it.source) };
}

impl SourceText {
    /// Reads a file, or standard input for `-`. A highlighter takes the text for this language.
    ///
    /// # Errors
    /// Those of `read_text`: a report that says why the input can't be read, or isn't text.
    pub fn read<R: Files + Input + AllocGlobal, D: Diagnostic, S: SourceCode>(
        rt: &R,
        word: &str,
        language: Option<&str>,
    ) -> Result<SourceText, Report<D, S>>
    where
        Report<D, S>: DefaultBoxes,
        ensures name { IfOk result (λ it. it.name ≡ Some (shown_name word.now)) }
        ensures language { IfOk result (λ it. it.language ≡ option_copied language.entry) }
        ensures err { IfErr result (λ r. GivesNoText (shown_name word.now) (tree_of D.meaning S.source r)) }
    {
        let text = read_text(rt, word)?;
        let named = SourceText::named(rt.alloc(), input_name(word), language, text)?;
        Ok(named)
    }

    /// Creates a source from a text, with a name and optionally a language.
    ///
    /// # Errors
    /// `AllocError` if allocation for the index of lines or the name fails; the text is dropped.
    pub fn named(
        alloc: Global,
        name: &str,
        language: Option<&str>,
        text: String,
    ) -> Result<SourceText, AllocError>
        ensures { IfOk result (λ it. it
            ≡ named_source (plain_source (string_bytes text)) name.now (option_copied language.entry)) }
    {
        let source = OwnedSource::named(alloc, name, language, text.into_bytes())?;
        Ok(SourceText { source })
    }

    /// Returns the text. Each call checks again that it is UTF-8.
    pub fn text(&self) -> &str
        ensures { result.now ≡ self.now.bytes }
    {
        text_in(&self.source)
    }

    /// Returns another handle of the same text, for `with_owned_source` of a report or `Snippets::over_owned`. It
    /// doesn't allocate: `AllocError` only means that there are too many handles to count.
    pub fn source(&self) -> Result<OwnedSource, AllocError>
        ensures { IfOk result (λ it. owned_source it ≡ self.now) }
    {
        self.source.share()
    }
}

// The text of a source.
fn text_in(source: &OwnedSource) -> &str
    requires { IsTextSource (owned_source source.now) }
    ensures { result.now ≡ (owned_source source.now).bytes }
{
    let begin = SourceSpan::new(SourceOffset::from(0), 0);
    match source.read_span(&begin, 1, usize::MAX) {
        Ok(contents) => text_of(contents.data()),
        Err(_) => "",
    }
}

// Bytes as text.
fn text_of(bytes: &[u8]) -> &str
    requires { IsUtf8 bytes.now }
    ensures { result.now ≡ bytes.now }
{
    match str::from_utf8(bytes) {
        Ok(text) => text,
        Err(_) => "",
    }
}
