//! How certain a fix is.

ghost use Rattle.std.specs.Prelude.{◌≡◌};

use serde::{Deserialize, Serialize};
use std::fmt;

/// How certain a fix is, in rustc's terms.
#[derive(Clone, Copy, Debug, PartialEq, Eq, Default, Serialize, Deserialize)]
#[serde(rename_all = "kebab-case")]
pub enum Applicability {
    /// The fix is what was meant. It may be applied without review.
    MachineApplicable,
    /// The fix may be what was meant.
    MaybeIncorrect,
    /// The text has placeholders that somebody has to fill in.
    HasPlaceholders,
    /// Nothing is known.
    #[default]
    Unspecified,
}

impl Applicability {
    ghost use Rattle.miette_fixes.specs.rules.Edits.{is_machine_applicable};
    ghost use Rattle.miette_fixes.specs.rules.Texts.{applicability_name};

    /// Whether the fix may be applied without review.
    pub fn is_machine_applicable(self) -> bool
        ensures { result ≡ is_machine_applicable self }
    {
        match self {
            Applicability::MachineApplicable => true,
            Applicability::MaybeIncorrect
            | Applicability::HasPlaceholders
            | Applicability::Unspecified => false,
        }
    }

    /// Returns the name used in descriptions and JSON, for example `machine-applicable`. Does not allocate.
    pub fn name(&self) -> &'static str
        ensures { result.now ≡ applicability_name self.now }
    {
        match self {
            Applicability::MachineApplicable => "machine-applicable",
            Applicability::MaybeIncorrect => "maybe-incorrect",
            Applicability::HasPlaceholders => "has-placeholders",
            Applicability::Unspecified => "unspecified",
        }
    }
}

/// Prints the name.
impl fmt::Display for Applicability {
    ghost use Rattle.std.specs.Prelude.{Some};
    ghost use Rattle.miette_fixes.specs.rules.Texts.{applicability_name};

    ghost output = { λ it. Some (applicability_name it) };

    fn fmt<W: fmt::Write>(&self, f: &mut fmt::Formatter<W>) -> fmt::Result {
        f.write_str(self.name())
    }
}
