//! Theorems about lines. The functions do nothing; their contracts are the theorems.

ghost use Rattle.std.specs.Prelude.{◌≡◌, ℕ, List, length};
ghost use Rattle.miette_lines.specs.rules.Cutting.{AreLines};
ghost use Rattle.miette_lines.specs.rules.Lines.{Line, IsCut, lines_of};

/// The lines of a source are consecutive pieces, each a text without CR and LF and its terminator. A terminator is LF,
/// CRLF, a CR that no LF follows, or nothing at the end of the source. Only one list of lines has this property, and
/// every byte is in exactly one line.
#[tactic(auto, using(crate::proofs::Cuts::lines_cut, crate::proofs::AreLines::lines_are, crate::proofs::Only::lines))]
pub fn lines_cut_the_source()
    ensures pieces { (bytes : List ℕ) → AreLines 0 (lines_of bytes) bytes }
    ensures only { (bytes : List ℕ) → (ls : List Line) → AreLines 0 ls bytes → ls ≡ lines_of bytes }
    ensures cover { (bytes : List ℕ) → IsCut 0 (lines_of bytes) (length bytes) }
{}
