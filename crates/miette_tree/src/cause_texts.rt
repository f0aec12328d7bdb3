//! The cause texts of a report, with spare room in front.
ghost use Rattle.std.specs.Prelude.{◌≡◌, ◌+◌, ◌<◌, ◌≤◌, [], ◌∷◌, ◌++◌, length, map, string_bytes};
ghost use Rattle.std.specs.Prelude.{vec_len, vec_capacity, IfOk, OnOk, OnErr};
ghost use Rattle.std.specs.List.{All};

use miette_lines::sums::sum;
use std::alloc::{AllocError, Global};

/// Texts, the nearest cause first. The list begins with `start` empty texts. A text that is pushed in front replaces
/// the last of them, so no other text moves.
#[derive(Drop)]
pub(crate) struct CauseTexts {
    list: Vec<String>,
    start: usize,
    ghost within: { start ≤ length list.items },
}

impl CauseTexts {
    ghost use Rattle.miette_tree.specs.rules.CauseTexts.{texts_in};

    /// Creates the list of these texts, without room in front.
    pub(crate) fn new(list: Vec<String>) -> CauseTexts
        ensures { texts_in result ≡ map string_bytes list.items }
    {
        CauseTexts { list, start: 0 }
    }

    /// Returns the texts.
    pub(crate) fn as_slice(&self) -> &[String]
        ensures { map string_bytes result.now ≡ texts_in self.now }
    {
        &self.list[self.start..]
    }

    /// Pushes a text in front. If there is no room, all texts move once and the list doubles, so a push takes constant
    /// time on average. Returns `AllocError` if allocation fails; the texts are then unchanged.
    pub(crate) fn push_front(&mut self, alloc: Global, text: String) -> Result<(), AllocError>
        ensures ok { OnOk result (texts_in self.new ≡ string_bytes text ∷ texts_in self.old) }
        ensures err { OnErr result (self.new ≡ self.old) }
    {
        if self.start == 0 {
            self.make_room(alloc)?;
        }
        self.start -= 1;
        self.list[self.start] = text;
        Ok(())
    }

    // Makes room in front for one text more than there are.
    fn make_room(&mut self, alloc: Global) -> Result<(), AllocError>
        requires none { self.old.start ≡ 0 }
        ensures ok { OnOk result (texts_in self.new ≡ texts_in self.old) }
        ensures room { OnOk result (0 < self.new.start) }
        ensures err { OnErr result (self.new ≡ self.old) }
    {
        let count = self.list.len();
        let mut list = empty_texts(alloc, count + 1, count)?;
        if list.append(&mut self.list).is_err() {
            unreachable!();
        }
        self.list = list;
        self.start = count + 1;
        Ok(())
    }
}

// Returns `count` empty texts, with capacity for `more` after them.
fn empty_texts(alloc: Global, count: usize, more: usize) -> Result<Vec<String>, AllocError>
    ensures count { IfOk result (λ list. vec_len list ≡ count) }
    ensures empty { IfOk result (λ list. All (λ text. string_bytes text ≡ []) list.items) }
    ensures room { IfOk result (λ list. count + more ≤ vec_capacity list) }
{
    let mut list = Vec::with_capacity(alloc, sum(count, more)?)?;
    for _ in 0..count {
        list.push(String::new(alloc))?;
    }
    Ok(list)
}

/// Appends a copy of a text to a list. Returns `AllocError` if allocation fails.
pub(crate) fn push_copy(list: &mut Vec<String>, alloc: Global, text: &str) -> Result<(), AllocError>
    ensures { OnOk result (map string_bytes list.new.items ≡ map string_bytes list.old.items ++ text.now ∷ []) }
{
    let copy = String::from_str(alloc, text)?;
    list.push(copy)?;
    Ok(())
}

/// Appends copies of texts to a list. Returns `AllocError` if allocation fails.
pub(crate) fn push_copies(
    list: &mut Vec<String>,
    alloc: Global,
    texts: &[String],
) -> Result<(), AllocError>
    ensures { OnOk result (map string_bytes list.new.items
        ≡ map string_bytes list.old.items ++ map string_bytes texts.now) }
{
    for text in texts {
        push_copy(list, alloc, text.as_str())?;
    }
    Ok(())
}
