//! The line terminator of a source.

ghost use Rattle.std.specs.Prelude.{◌≡◌, ◌⊎◌, ◌∷◌, []};
ghost use Rattle.miette_lines.specs.rules.Lines.{LF, CR};
ghost use Rattle.miette_lint.specs.rules.Fixes.{ending_of};

use miette_lines::lines::Lines;

// A terminator as a text.
fn ending_text(terminator: &[u8]) -> &'static str
    requires { (terminator.now ≡ LF ∷ []) ⊎ (terminator.now ≡ CR ∷ LF ∷ []) ⊎ (terminator.now ≡ CR ∷ []) }
    ensures { result.now ≡ terminator.now }
{
    match terminator {
        [b'\r', _] => "\r\n",
        [b'\r'] => "\r",
        _ => "\n",
    }
}

/// The terminator of the first line, or LF if it has none.
pub(crate) fn ending_of(source: &[u8]) -> &'static str
    ensures { result.now ≡ ending_of source.now }
{
    let mut lines = Lines::new(source, 0);
    match lines.next() {
        Some(line) if line.text_end < line.end => ending_text(&source[line.text_end..line.end]),
        _ => "\n",
    }
}
