//! Where a text can be split so that the widths of both parts add up to its width.

ghost use Rattle.std.specs.Prelude.{◌≡◌};
ghost use Rattle.std.specs.Int.{is_in_range};
ghost use Rattle.miette_columns.specs.steps.SplitPoints.{joins_nothing_after, is_joining, joins_only_by_joiner};
ghost use Rattle.miette_columns.specs.steps.SplitPoints.{may_split, may_split_flags};
ghost use Rattle.miette_columns.specs.steps.SplitPoints.{is_keeping, opens, end_overlap, overlap_between};
ghost use Rattle.unicode_width.specs.Width.{is_indicator};

use crate::cells::char_width;
use crate::overlap::Overlap;
use ucd_emoji::is_emoji_variation_base;

fn in_range(character: char, low: u32, high: u32) -> bool
    ensures { result ≡ is_in_range low high character }
{
    let code = character as u32;
    low <= code && code <= high
}

// Whether a character is in one of some ranges of codes.
macro_rules! lies_in {
    ($c:ident in $low:literal..=$high:literal $(, $next_low:literal..=$next_high:literal)*) => {
        in_range($c, $low, $high) $(|| in_range($c, $next_low, $next_high))*
    };
}

/// Whether a character never joins with what follows it: ASCII and letters.
fn joins_nothing_after(character: char) -> bool
    ensures { result ≡ joins_nothing_after character }
{
    lies_in!(character in
        0x20..=0x22, 0x24..=0x29, 0x2b..=0x2f, 0x3a..=0x7e, 0xaf..=0x2ff, 0x391..=0x482,
        0x48a..=0x52f, 0x621..=0x643, 0x1780..=0x17b3, 0x3001..=0x3029, 0x3041..=0x3096,
        0x30a0..=0x30ff, 0x3400..=0x4dbf, 0x4e00..=0x9fff, 0xac00..=0xd7a3
    )
}

/// Whether a character is in a range with letters and signs that may join others.
fn is_joining(character: char) -> bool
    ensures { result ≡ is_joining character }
{
    lies_in!(character in
        0x338..=0x338, 0x5dc..=0x5dc, 0x622..=0x627, 0x671..=0x675, 0x773..=0x774, 0x870..=0x882,
        0x1780..=0x17d8, 0x1a10..=0x1a10, 0x2d31..=0x2d7f, 0xa4fc..=0xa4fd, 0xfb3c..=0xfb3c,
        0xfe00..=0xfe0f, 0x10c03..=0x10c03, 0x16d67..=0x16d68, 0x1f1e6..=0x1f1ff, 0x1f3fb..=0x1f3ff
    )
}

/// Whether a character joins with what precedes it only after a joiner, whatever follows.
fn joins_only_by_joiner(character: char) -> bool
    ensures { result ≡ joins_only_by_joiner character }
{
    if character as u32 <= 0xa0 {
        character != '\n'
    } else {
        char_width(character) > 0 && !is_joining(character)
    }
}

/// Whether a text can be split between two neighbours.
fn may_split(last: char, next: char) -> bool
    ensures { result ≡ may_split last next }
{
    joins_nothing_after(last) || joins_only_by_joiner(next) && last != '\u{200d}'
}

/// Whether a character is a regional indicator. Two of them are a flag.
pub(crate) fn is_indicator(character: char) -> bool
    ensures { result ≡ is_indicator character }
{
    in_range(character, 0x1f1e6, 0x1f1ff)
}

/// Whether a text can be split between two regional indicators. `is_half` says that the first one begins a flag.
fn may_split_flags(last: char, is_half: bool, next: char) -> bool
    ensures { result ≡ may_split_flags last is_half next }
{
    !is_half && is_indicator(last) && is_indicator(next)
}

/// Whether a character is a skin tone, or a letter that joins only with what precedes it.
fn is_keeping(character: char) -> bool
    ensures { result ≡ is_keeping character }
{
    lies_in!(character in
        0x5dc..=0x5dc, 0x671..=0x675, 0x773..=0x774, 0x870..=0x882, 0x1a10..=0x1a10,
        0xa4fc..=0xa4fd, 0xfb3c..=0xfb3c, 0x10c03..=0x10c03, 0x1f3fb..=0x1f3ff
    )
}

/// Whether a character is neither a selector nor a skin tone.
fn opens(character: char) -> bool
    ensures { result ≡ opens character }
{
    !lies_in!(character in 0xfe00..=0xfe0f, 0x1f3fb..=0x1f3ff)
}

// Returns the overlap if the width after it depends only on the last characters.
fn end_overlap(before: char, last: char) -> Option<Overlap>
    ensures { result ≡ end_overlap before last }
{
    if joins_only_by_joiner(last) || is_keeping(last) {
        Some(Overlap::One(last))
    } else if last == '\u{fe0f}' && is_emoji_variation_base(before) {
        Some(Overlap::Selected(before))
    } else {
        None
    }
}

/// Returns the overlap of a checkpoint between two neighbours, if one is possible: nothing if the text can be split
/// there, else its last characters.
pub(crate) fn overlap_between(
    before: char,
    last: char,
    is_half: bool,
    next: char,
) -> Option<Overlap>
    ensures { result ≡ overlap_between before last is_half next }
{
    if may_split(last, next) || may_split_flags(last, is_half, next) {
        Some(Overlap::Nothing)
    } else if opens(next) {
        end_overlap(before, last)
    } else {
        None
    }
}
