//! The properties of a character that the rules use.

ghost use Rattle.std.specs.Prelude.{◌≡◌};
ghost use Rattle.ucd_category.specs.GeneralCategory.{general_category};
ghost use Rattle.ucd_east_asian.specs.EastAsianWidth.{east_asian_width};
ghost use Rattle.ucd_emoji.specs.Binary.{is_extended_pictographic};
ghost use Rattle.miette_line_breaks.specs.rules.Characters.{character_of, lone_mark, resolved};
ghost use Rattle.miette_line_breaks.specs.rules.Characters.{is_combining, is_unassigned, is_wide};

use crate::ascii::CLASSES;
use ucd_breaks::LineBreak;
use ucd_category::GeneralCategory;
use ucd_east_asian::EastAsianWidth;
use ucd_emoji::is_extended_pictographic;

/// The class of a character after LB1, whether its East Asian width is F, W or H, and whether it is an unassigned code
/// point reserved for emoji.
#[derive(Clone, Copy, Debug, PartialEq, Eq)]
pub(crate) struct Character {
    pub(crate) class: LineBreak,
    pub(crate) is_wide: bool,
    pub(crate) is_future_emoji: bool,
}

impl Character {
    pub(crate) const LONE_MARK: Character = Character {
        class: LineBreak::Alphabetic,
        is_wide: false,
        is_future_emoji: false,
    };

    pub(crate) fn of(c: char) -> Character
        ensures { result ≡ character_of c }
    {
        let code = c as usize;
        if code < 128 {
            return Character {
                class: CLASSES[code],
                is_wide: false,
                is_future_emoji: false,
            };
        }
        Character {
            class: resolved(c, LineBreak::for_char(c)),
            is_wide: is_wide(EastAsianWidth::for_char(c)),
            is_future_emoji: is_unassigned(GeneralCategory::for_char(c))
                && is_extended_pictographic(c),
        }
    }
}

fn is_combining(category: GeneralCategory) -> bool
    ensures { result ≡ is_combining category }
{
    matches!(
        category,
        GeneralCategory::NonspacingMark | GeneralCategory::SpacingMark
    )
}

fn is_unassigned(category: GeneralCategory) -> bool
    ensures { result ≡ is_unassigned category }
{
    matches!(category, GeneralCategory::Unassigned)
}

fn is_wide(width: EastAsianWidth) -> bool
    ensures { result ≡ is_wide width }
{
    matches!(
        width,
        EastAsianWidth::Fullwidth | EastAsianWidth::Wide | EastAsianWidth::Halfwidth
    )
}

/// LB1: replaces the classes that the rules don't mention. Classes that Unicode 15.0 didn't have are replaced by the
/// class that their characters had then.
fn resolved(c: char, class: LineBreak) -> LineBreak
    ensures { result ≡ resolved c class }
{
    match class {
        LineBreak::Ambiguous
        | LineBreak::Surrogate
        | LineBreak::Unknown
        | LineBreak::Aksara
        | LineBreak::AksaraPrebase => LineBreak::Alphabetic,
        LineBreak::AksaraStart => match GeneralCategory::for_char(c) {
            GeneralCategory::DecimalNumber => LineBreak::Numeric,
            _ => LineBreak::Alphabetic,
        },
        LineBreak::Virama | LineBreak::ViramaFinal => LineBreak::CombiningMark,
        LineBreak::UnambiguousHyphen => LineBreak::BreakAfter,
        LineBreak::ConditionalJapaneseStarter => LineBreak::Nonstarter,
        LineBreak::ComplexContext => {
            if is_combining(GeneralCategory::for_char(c)) {
                LineBreak::CombiningMark
            } else {
                LineBreak::Alphabetic
            }
        }
        class => class,
    }
}
