//! Theorems about comparing and cloning. The functions do nothing; their contracts are the theorems.
ghost use Rattle.std.specs.Prelude.{◌≡◌, ◌↔◌, IsTrue};
ghost use Rattle.miette_style.specs.rules.Themes.{characters_of, styles_of, theme_of};

use crate::options::{WordSeparator, WordSplitter};
use miette_style::laws as styles;
use miette_style::style::{Color, Style};
use miette_style::theme::{GraphicalTheme, ThemeCharacters, ThemeStyles};

/// Values are equal if all their fields are, and a clone has equal fields. Texts are compared by their characters,
/// lists by their items.
pub fn comparison_laws()
    ensures equal_separators { (a b : WordSeparator)
        → IsTrue (⟦<WordSeparator as PartialEq>⟧.eq a b) ↔ (a ≡ b) }
    ensures equal_colours { (a b : Color) → IsTrue (⟦<Color as PartialEq>⟧.eq a b) ↔ (a ≡ b) }
    ensures equal_splitters { (a b : WordSplitter)
        → IsTrue (⟦<WordSplitter as PartialEq>⟧.eq a b) ↔ (a ≡ b) }
    ensures equal_styles { (a b : Style) → IsTrue (⟦<Style as PartialEq>⟧.eq a b) ↔ (a ≡ b) }
    ensures equal_characters { (a b : ThemeCharacters)
        → IsTrue (⟦<ThemeCharacters as PartialEq>⟧.eq a b) ↔ (characters_of a ≡ characters_of b) }
    ensures cloned_colours { (a b : Color) → ⟦<Color as Clone>⟧.is_clone a b → b ≡ a }
    ensures cloned_separators { (a b : WordSeparator)
        → ⟦<WordSeparator as Clone>⟧.is_clone a b → b ≡ a }
    ensures cloned_styles { (a b : Style) → ⟦<Style as Clone>⟧.is_clone a b → b ≡ a }
    ensures cloned_characters { (a b : ThemeCharacters)
        → ⟦<ThemeCharacters as Clone>⟧.is_clone a b → characters_of b ≡ characters_of a }
    ensures cloned_splitters { (a b : WordSplitter)
        → ⟦<WordSplitter as Clone>⟧.is_clone a b → b ≡ a }
    ensures cloned_theme_styles { (a b : ThemeStyles)
        → ⟦<ThemeStyles as Clone>⟧.is_clone a b → styles_of b ≡ styles_of a }
    ensures cloned_themes { (a b : GraphicalTheme)
        → ⟦<GraphicalTheme as Clone>⟧.is_clone a b → theme_of b ≡ theme_of a }
{
    styles::comparison_laws();
}
