//! The arguments of `job`, one by one.

ghost use Rattle.std.specs.Prelude.{◌≡◌, ◌<◌, length, IfSome, IsNone, map, string_bytes};
ghost use Rattle.std.specs.Option.{option_and_then};
ghost use Rattle.miette_style.specs.rules.Themes.{theme_of};
ghost use Rattle.miette_program.specs.rules.OptionWords as table;
ghost use Rattle.miette_program.specs.rules.OptionWords.{JobRequest, with_words, with_words_after};
ghost use Rattle.miette_program.specs.steps.ParsedArguments.{IsGiven, with_argument, with_named};

use crate::language::{Language, LanguageHighlighter};
use miette::options::RgbColors;
use miette::theme::GraphicalTheme;
use miette::wrap::WordSeparator;
use miette_devices::fault::ProgramError;
use miette_devices::output_form::OutputForm;
use std::alloc::Global;

/// One argument, with its value if it takes one.
#[derive(Clone, Copy)]
pub(crate) enum Argument<'a> {
    /// A form of the report, which takes no value.
    Form(OutputForm),
    /// Any other argument, and its value.
    Value(&'a str, &'a str),
}

/// Splits off the first argument and its value. Returns `None` if the value is missing.
pub(crate) fn split_argument<'a>(words: &'a [String]) -> Option<(Argument<'a>, &'a [String])>
    ensures fewer { IfSome result (λ first. length first.1.now < length words.now) }
    ensures some { IfSome result (λ first. (r : JobRequest) → with_words (map string_bytes words.now) r
        ≡ option_and_then (with_words (map string_bytes first.1.now)) (with_argument first.0 r)) }
    ensures none { IsNone result → 0 < length words.now → (r : JobRequest) →
        with_words (map string_bytes words.now) r ≡ None }
{
    let [word, rest @ ..] = words else {
        return None;
    };
    if let Some(form) = OutputForm::named(word.as_str()) {
        return Some((Argument::Form(form), rest));
    }
    take_value(word.as_str(), rest)
}

/// Takes the next word as the value. Returns `None` if there is none.
fn take_value<'a>(word: &'a str, words: &'a [String]) -> Option<(Argument<'a>, &'a [String])>
    ensures fewer { IfSome result (λ first. length first.1.now < length words.now) }
    ensures some { IfSome result (λ first. (r : JobRequest) → with_words_after word.now (map string_bytes words.now) r
        ≡ option_and_then (with_words (map string_bytes first.1.now)) (with_argument first.0 r)) }
    ensures none { IsNone result → (r : JobRequest) →
        with_words_after word.now (map string_bytes words.now) r ≡ None }
{
    let (value, rest) = words.split_first()?;
    Some((Argument::Value(word, value.as_str()), rest))
}

/// The meaning of an argument whose value is a name.
#[derive(Drop)]
pub(crate) enum NamedValue {
    Theme(GraphicalTheme),
    Rgb(RgbColors),
    Separator(WordSeparator),
    Highlighter(LanguageHighlighter),
    Color(Option<bool>),
}

/// Looks up the name after an argument.
///
/// # Errors
/// `Usage` for an unknown argument or name. `Memory` if allocation for a theme or a highlighter fails.
pub(crate) fn read_named(alloc: Global, word: &str, name: &str) -> Result<NamedValue, ProgramError>
    ensures { (r : JobRequest) →
        IsGiven (λ it. with_named it r) (table.with_name word.now name.now r) result }
{
    match word {
        "--theme" => Ok(NamedValue::Theme(theme_named(alloc, name)?)),
        "--rgb" => Ok(NamedValue::Rgb(rgb_named(name).ok_or(ProgramError::Usage)?)),
        "--separator" => Ok(NamedValue::Separator(separator_named(name).ok_or(
            ProgramError::Usage,
        )?)),
        "--highlight" => {
            let language = language_named(name).ok_or(ProgramError::Usage)?;
            Ok(NamedValue::Highlighter(LanguageHighlighter::new(alloc, language)?))
        }
        "--term-color" => Ok(NamedValue::Color(color_named(name).ok_or(ProgramError::Usage)?)),
        _ => Err(ProgramError::Usage),
    }
}

/// Returns the theme with this name.
///
/// # Errors
/// `Usage` for an unknown name. `Memory` if allocation fails.
pub(crate) fn theme_named(alloc: Global, name: &str) -> Result<GraphicalTheme, ProgramError>
    ensures { IsGiven theme_of (table.theme_named name.now) result }
{
    match name {
        "ascii" => Ok(GraphicalTheme::ascii(alloc)?),
        "unicode" => Ok(GraphicalTheme::unicode(alloc)?),
        "unicode_nocolor" => Ok(GraphicalTheme::unicode_nocolor(alloc)?),
        "none" => Ok(GraphicalTheme::none(alloc)?),
        _ => Err(ProgramError::Usage),
    }
}

/// Returns when RGB colors are used.
pub(crate) fn rgb_named(name: &str) -> Option<RgbColors>
    ensures { result ≡ table.rgb_named name.now }
{
    match name {
        "always" => Some(RgbColors::Always),
        "preferred" => Some(RgbColors::Preferred),
        "never" => Some(RgbColors::Never),
        _ => None,
    }
}

/// Returns how texts are split into words.
pub(crate) fn separator_named(name: &str) -> Option<WordSeparator>
    ensures { result ≡ table.separator_named name.now }
{
    match name {
        "ascii" => Some(WordSeparator::AsciiSpace),
        "unicode" => Some(WordSeparator::UnicodeBreakProperties),
        _ => None,
    }
}

/// Returns a terminal's colors: whether it has RGB colors, or `None` if it has no colors.
pub(crate) fn color_named(name: &str) -> Option<Option<bool>>
    ensures { result ≡ table.color_named name.now }
{
    match name {
        "none" => Some(None),
        "ansi" => Some(Some(false)),
        "rgb" => Some(Some(true)),
        _ => None,
    }
}

/// Returns the language with this name.
pub(crate) fn language_named(name: &str) -> Option<Language>
    ensures { result ≡ table.language_named name.now }
{
    match name {
        "toml" => Some(Language::Toml),
        "json" => Some(Language::Json),
        "rust" => Some(Language::Rust),
        _ => None,
    }
}
