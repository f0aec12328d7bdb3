//! Sets of line break classes that the rules of UAX #14 use.

ghost use Rattle.std.specs.Prelude.{◌≡◌};
ghost use Rattle.miette_line_breaks.specs.rules.Classes.{is_carriage_return, is_line_feed, is_hard, is_space_class};
ghost use Rattle.miette_line_breaks.specs.rules.Classes.{is_zero_width_space, is_joiner, is_mark, is_word_joiner};
ghost use Rattle.miette_line_breaks.specs.rules.Classes.{is_glue, is_closing, is_opening, is_quotation};
ghost use Rattle.miette_line_breaks.specs.rules.Classes.{is_bracket_end, is_parenthesis_end, is_nonstarter, is_dash};
ghost use Rattle.miette_line_breaks.specs.rules.Classes.{is_contingent, is_hyphen_class, is_plain_hyphen};
ghost use Rattle.miette_line_breaks.specs.rules.Classes.{is_break_before};
ghost use Rattle.miette_line_breaks.specs.rules.Classes.{is_slash, is_infix, is_inseparable, is_letter, is_hebrew};
ghost use Rattle.miette_line_breaks.specs.rules.Classes.{is_numeric, is_prefix, is_postfix, is_affix, is_ideograph};
ghost use Rattle.miette_line_breaks.specs.rules.Classes.{is_emoji_base, is_emoji_modifier, is_regional, is_hangul};
ghost use Rattle.miette_line_breaks.specs.rules.Classes.{is_leading_jamo, joins_leading_jamo, is_open_syllable};
ghost use Rattle.miette_line_breaks.specs.rules.Classes.{joins_open_syllable, is_closed_syllable, is_trailing_jamo};

use ucd_breaks::LineBreak;

/// Carriage return: CR.
#[inline(always)]
pub(crate) fn is_carriage_return(class: LineBreak) -> bool
    ensures { result ≡ is_carriage_return class }
{
    matches!(class, LineBreak::CarriageReturn)
}

/// Line feed: LF.
#[inline(always)]
pub(crate) fn is_line_feed(class: LineBreak) -> bool
    ensures { result ≡ is_line_feed class }
{
    matches!(class, LineBreak::LineFeed)
}

/// Mandatory breaks: BK, CR, LF, NL.
#[inline(always)]
pub(crate) fn is_hard(class: LineBreak) -> bool
    ensures { result ≡ is_hard class }
{
    matches!(
        class,
        LineBreak::MandatoryBreak
            | LineBreak::CarriageReturn
            | LineBreak::LineFeed
            | LineBreak::NextLine
    )
}

/// Space: SP.
#[inline(always)]
pub(crate) fn is_space_class(class: LineBreak) -> bool
    ensures { result ≡ is_space_class class }
{
    matches!(class, LineBreak::Space)
}

/// Zero width space: ZW.
#[inline(always)]
pub(crate) fn is_zero_width_space(class: LineBreak) -> bool
    ensures { result ≡ is_zero_width_space class }
{
    matches!(class, LineBreak::ZWSpace)
}

/// Zero width joiner: ZWJ.
#[inline(always)]
pub(crate) fn is_joiner(class: LineBreak) -> bool
    ensures { result ≡ is_joiner class }
{
    matches!(class, LineBreak::Zwj)
}

/// Combining marks: CM, ZWJ.
#[inline(always)]
pub(crate) fn is_mark(class: LineBreak) -> bool
    ensures { result ≡ is_mark class }
{
    matches!(class, LineBreak::CombiningMark | LineBreak::Zwj)
}

/// Word joiner: WJ.
#[inline(always)]
pub(crate) fn is_word_joiner(class: LineBreak) -> bool
    ensures { result ≡ is_word_joiner class }
{
    matches!(class, LineBreak::WordJoiner)
}

/// Non-breaking: GL.
#[inline(always)]
pub(crate) fn is_glue(class: LineBreak) -> bool
    ensures { result ≡ is_glue class }
{
    matches!(class, LineBreak::Glue)
}

/// No line begins with these, even after spaces: CL, CP, EX, IS, SY.
#[inline(always)]
pub(crate) fn is_closing(class: LineBreak) -> bool
    ensures { result ≡ is_closing class }
{
    matches!(
        class,
        LineBreak::ClosePunctuation
            | LineBreak::CloseParenthesis
            | LineBreak::Exclamation
            | LineBreak::InfixNumeric
            | LineBreak::BreakSymbols
    )
}

/// Opening bracket: OP.
#[inline(always)]
pub(crate) fn is_opening(class: LineBreak) -> bool
    ensures { result ≡ is_opening class }
{
    matches!(class, LineBreak::OpenPunctuation)
}

/// Quotation mark: QU.
#[inline(always)]
pub(crate) fn is_quotation(class: LineBreak) -> bool
    ensures { result ≡ is_quotation class }
{
    matches!(class, LineBreak::Quotation)
}

/// Closing brackets: CL, CP.
#[inline(always)]
pub(crate) fn is_bracket_end(class: LineBreak) -> bool
    ensures { result ≡ is_bracket_end class }
{
    matches!(
        class,
        LineBreak::ClosePunctuation | LineBreak::CloseParenthesis
    )
}

/// Closing parenthesis: CP.
#[inline(always)]
pub(crate) fn is_parenthesis_end(class: LineBreak) -> bool
    ensures { result ≡ is_parenthesis_end class }
{
    matches!(class, LineBreak::CloseParenthesis)
}

/// Nonstarter: NS.
#[inline(always)]
pub(crate) fn is_nonstarter(class: LineBreak) -> bool
    ensures { result ≡ is_nonstarter class }
{
    matches!(class, LineBreak::Nonstarter)
}

/// Dash with breaks allowed on both sides: B2.
#[inline(always)]
pub(crate) fn is_dash(class: LineBreak) -> bool
    ensures { result ≡ is_dash class }
{
    matches!(class, LineBreak::BreakBoth)
}

/// Contingent break: CB.
#[inline(always)]
pub(crate) fn is_contingent(class: LineBreak) -> bool
    ensures { result ≡ is_contingent class }
{
    matches!(class, LineBreak::ContingentBreak)
}

/// Break allowed after: BA, HY.
#[inline(always)]
pub(crate) fn is_hyphen_class(class: LineBreak) -> bool
    ensures { result ≡ is_hyphen_class class }
{
    matches!(class, LineBreak::BreakAfter | LineBreak::Hyphen)
}

/// Hyphen: HY.
#[inline(always)]
pub(crate) fn is_plain_hyphen(class: LineBreak) -> bool
    ensures { result ≡ is_plain_hyphen class }
{
    matches!(class, LineBreak::Hyphen)
}

/// Break allowed before: BB.
#[inline(always)]
pub(crate) fn is_break_before(class: LineBreak) -> bool
    ensures { result ≡ is_break_before class }
{
    matches!(class, LineBreak::BreakBefore)
}

/// Symbol with a break allowed after it: SY.
#[inline(always)]
pub(crate) fn is_slash(class: LineBreak) -> bool
    ensures { result ≡ is_slash class }
{
    matches!(class, LineBreak::BreakSymbols)
}

/// Separator in numbers: IS.
#[inline(always)]
pub(crate) fn is_infix(class: LineBreak) -> bool
    ensures { result ≡ is_infix class }
{
    matches!(class, LineBreak::InfixNumeric)
}

/// Inseparable leaders: IN.
#[inline(always)]
pub(crate) fn is_inseparable(class: LineBreak) -> bool
    ensures { result ≡ is_inseparable class }
{
    matches!(class, LineBreak::Inseparable)
}

/// Letters: AL, HL.
#[inline(always)]
pub(crate) fn is_letter(class: LineBreak) -> bool
    ensures { result ≡ is_letter class }
{
    matches!(class, LineBreak::Alphabetic | LineBreak::HebrewLetter)
}

/// Hebrew letter: HL.
#[inline(always)]
pub(crate) fn is_hebrew(class: LineBreak) -> bool
    ensures { result ≡ is_hebrew class }
{
    matches!(class, LineBreak::HebrewLetter)
}

/// Digit: NU.
#[inline(always)]
pub(crate) fn is_numeric(class: LineBreak) -> bool
    ensures { result ≡ is_numeric class }
{
    matches!(class, LineBreak::Numeric)
}

/// Prefix of a number: PR.
#[inline(always)]
pub(crate) fn is_prefix(class: LineBreak) -> bool
    ensures { result ≡ is_prefix class }
{
    matches!(class, LineBreak::PrefixNumeric)
}

/// Postfix of a number: PO.
#[inline(always)]
pub(crate) fn is_postfix(class: LineBreak) -> bool
    ensures { result ≡ is_postfix class }
{
    matches!(class, LineBreak::PostfixNumeric)
}

/// Prefix or postfix of a number: PR, PO.
#[inline(always)]
pub(crate) fn is_affix(class: LineBreak) -> bool
    ensures { result ≡ is_affix class }
{
    matches!(class, LineBreak::PrefixNumeric | LineBreak::PostfixNumeric)
}

/// Ideographs and emoji: ID, EB, EM.
#[inline(always)]
pub(crate) fn is_ideograph(class: LineBreak) -> bool
    ensures { result ≡ is_ideograph class }
{
    matches!(
        class,
        LineBreak::Ideographic | LineBreak::EBase | LineBreak::EModifier
    )
}

/// Emoji that takes a modifier: EB.
#[inline(always)]
pub(crate) fn is_emoji_base(class: LineBreak) -> bool
    ensures { result ≡ is_emoji_base class }
{
    matches!(class, LineBreak::EBase)
}

/// Emoji modifier: EM.
#[inline(always)]
pub(crate) fn is_emoji_modifier(class: LineBreak) -> bool
    ensures { result ≡ is_emoji_modifier class }
{
    matches!(class, LineBreak::EModifier)
}

/// Regional indicator: RI.
#[inline(always)]
pub(crate) fn is_regional(class: LineBreak) -> bool
    ensures { result ≡ is_regional class }
{
    matches!(class, LineBreak::RegionalIndicator)
}

/// Hangul jamo and syllables: JL, JV, JT, H2, H3.
#[inline(always)]
pub(crate) fn is_hangul(class: LineBreak) -> bool
    ensures { result ≡ is_hangul class }
{
    matches!(
        class,
        LineBreak::Jl | LineBreak::Jv | LineBreak::Jt | LineBreak::H2 | LineBreak::H3
    )
}

/// Leading jamo: JL.
#[inline(always)]
pub(crate) fn is_leading_jamo(class: LineBreak) -> bool
    ensures { result ≡ is_leading_jamo class }
{
    matches!(class, LineBreak::Jl)
}

/// Continues a leading jamo: JL, JV, H2, H3.
#[inline(always)]
pub(crate) fn joins_leading_jamo(class: LineBreak) -> bool
    ensures { result ≡ joins_leading_jamo class }
{
    matches!(
        class,
        LineBreak::Jl | LineBreak::Jv | LineBreak::H2 | LineBreak::H3
    )
}

/// Vowel jamo, or syllable that ends with one: JV, H2.
#[inline(always)]
pub(crate) fn is_open_syllable(class: LineBreak) -> bool
    ensures { result ≡ is_open_syllable class }
{
    matches!(class, LineBreak::Jv | LineBreak::H2)
}

/// Continues a vowel: JV, JT.
#[inline(always)]
pub(crate) fn joins_open_syllable(class: LineBreak) -> bool
    ensures { result ≡ joins_open_syllable class }
{
    matches!(class, LineBreak::Jv | LineBreak::Jt)
}

/// Trailing jamo, or syllable that ends with one: JT, H3.
#[inline(always)]
pub(crate) fn is_closed_syllable(class: LineBreak) -> bool
    ensures { result ≡ is_closed_syllable class }
{
    matches!(class, LineBreak::Jt | LineBreak::H3)
}

/// Trailing jamo: JT.
#[inline(always)]
pub(crate) fn is_trailing_jamo(class: LineBreak) -> bool
    ensures { result ≡ is_trailing_jamo class }
{
    matches!(class, LineBreak::Jt)
}
