//! Theorems about comparing and cloning small values. Each is the contract of an empty function.
ghost use Rattle.std.specs.Prelude.{◌≡◌, ◌↔◌, IsTrue};

use crate::options::RgbColors;
use crate::print::PrintError;
use crate::terminal::Stream;
use miette_style::style::{Color, Style};
use miette_text::wrap::{WordSeparator, WordSplitter};

/// Print errors and streams are equal exactly if they are the same. A clone is the same.
pub fn comparison_laws()
    ensures equal_print_errors { (a b : PrintError) → IsTrue (⟦<PrintError as PartialEq>⟧.eq a b) ↔ (a ≡ b) }
    ensures equal_streams { (a b : Stream) → IsTrue (⟦<Stream as PartialEq>⟧.eq a b) ↔ (a ≡ b) }
    ensures cloned_print_errors { (a b : PrintError) → ⟦<PrintError as Clone>⟧.is_clone a b → b ≡ a }
    ensures cloned_streams { (a b : Stream) → ⟦<Stream as Clone>⟧.is_clone a b → b ≡ a }
{}

/// Cloning colors, styles, word separators and splitters, `RgbColors`, print errors and streams never allocates, so it
/// never fails.
pub fn clones_take_no_memory()
    ensures colours { (it : Color) → ⟦<Color as Clone>⟧.is_infallible it }
    ensures styles { (it : Style) → ⟦<Style as Clone>⟧.is_infallible it }
    ensures separators { (it : WordSeparator) → ⟦<WordSeparator as Clone>⟧.is_infallible it }
    ensures splitters { (it : WordSplitter) → ⟦<WordSplitter as Clone>⟧.is_infallible it }
    ensures rgb_colors { (it : RgbColors) → ⟦<RgbColors as Clone>⟧.is_infallible it }
    ensures print_errors { (it : PrintError) → ⟦<PrintError as Clone>⟧.is_infallible it }
    ensures streams { (it : Stream) → ⟦<Stream as Clone>⟧.is_infallible it }
{}
