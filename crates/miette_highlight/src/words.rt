//! Words at the start of a text.

ghost use Rattle.std.specs.Prelude.{◌≡◌, ◌≤◌, length};
ghost use Rattle.miette_highlight.specs.rules.Patterns.{is_listed_word, is_word_byte, word_end};

/// Whether a byte is part of a word.
pub(crate) fn is_word_byte(byte: u8) -> bool
    ensures { result ≡ is_word_byte byte }
{
    byte.is_ascii_alphanumeric() || byte == b'_' || 128 <= byte
}

/// Returns the length in bytes of the word at the front of a text.
pub(crate) fn word_end(text: &[u8]) -> usize
    ensures end { result ≡ word_end 0 text.now }
    ensures within { result ≤ length text.now }
{
    let mut at = 0;
    let mut rest = text;
    while let Some((byte, tail)) = rest.split_first() {
        if !is_word_byte(*byte) {
            return at;
        }
        rest = tail;
        at += 1;
    }
    at
}

/// Whether a word is in a list.
pub(crate) fn is_listed_word(words: &[String], word: &[u8]) -> bool
    ensures { result ≡ is_listed_word words.now word.now }
{
    let mut rest = words;
    while let Some((first, tail)) = rest.split_first() {
        if first.as_bytes() == word {
            return true;
        }
        rest = tail;
    }
    false
}
