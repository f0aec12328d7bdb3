//! Theorems about comparing and cloning small values, and about the source of `job --fix`. Each is the contract of an
//! empty function.
ghost use Rattle.std.specs.Prelude.{◌≡◌, ◌<◌, ◌^◌, ◌↔◌, IsTrue, length};
ghost use Rattle.miette_protocol.specs.rules.Reading.{Source};
ghost use Rattle.miette_report.specs.rules.AppliedFixes.{whole_text};

use crate::job::Choice;
use miette_devices::fault::{Program, ProgramError};
use miette_program::language::Language;

/// Errors, programs, languages and choices of a handler are equal exactly if they are the same. A clone is the same.
pub fn job_comparison_laws()
    ensures equal_faults { (a b : ProgramError) → IsTrue (⟦<ProgramError as PartialEq>⟧.eq a b) ↔ (a ≡ b) }
    ensures equal_programs { (a b : Program) → IsTrue (⟦<Program as PartialEq>⟧.eq a b) ↔ (a ≡ b) }
    ensures equal_languages { (a b : Language) → IsTrue (⟦<Language as PartialEq>⟧.eq a b) ↔ (a ≡ b) }
    ensures equal_choices { (a b : Choice) → IsTrue (⟦<Choice as PartialEq>⟧.eq a b) ↔ (a ≡ b) }
    ensures cloned_faults { (a b : ProgramError) → ⟦<ProgramError as Clone>⟧.is_clone a b → b ≡ a }
    ensures cloned_programs { (a b : Program) → ⟦<Program as Clone>⟧.is_clone a b → b ≡ a }
    ensures cloned_languages { (a b : Language) → ⟦<Language as Clone>⟧.is_clone a b → b ≡ a }
    ensures cloned_choices { (a b : Choice) → ⟦<Choice as Clone>⟧.is_clone a b → b ≡ a }
{}

/// Cloning errors, programs, languages and choices never allocates, so it never fails.
pub fn job_clones_take_no_memory()
    ensures faults { (it : ProgramError) → ⟦<ProgramError as Clone>⟧.is_infallible it }
    ensures programs { (it : Program) → ⟦<Program as Clone>⟧.is_infallible it }
    ensures languages { (it : Language) → ⟦<Language as Clone>⟧.is_infallible it }
    ensures choices { (it : Choice) → ⟦<Choice as Clone>⟧.is_infallible it }
{}

/// `job --fix` reads all of a source, unless it has more bytes than a `usize` counts.
pub fn job_fixes_see_the_whole_source()
    ensures { (source : Source) → length source.bytes < 2 ^ 64 → whole_text source ≡ source.bytes }
{}
