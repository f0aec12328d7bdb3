//! The arguments of a program.

ghost use Rattle.std.specs.Prelude.{◌≡◌, ◌⊎◌, OnErr};
ghost use Rattle.miette_devices.specs.rules.Words.{IsReadAs};

use crate::fault::ProgramError;
pub use crate::fault::ProgramError as WordsFault;
use std::env;
use std::env::Env;
use std::io::ErrorKind;

/// Returns the arguments after the program's name.
///
/// # Errors
/// `Usage` if an argument isn't UTF-8. `Memory` if allocation fails.
pub fn program_arguments(rt: &(impl Env + AllocGlobal)) -> Result<Vec<String>, ProgramError>
    ensures others { OnErr result ((result ≡ Err ProgramError.Usage) ⊎ (result ≡ Err ProgramError.Memory)) }
{
    match env::args(rt) {
        Ok(words) => words
            .skip(1)
            .collect(rt.alloc())
            .map_err(|_| ProgramError::Memory),
        Err(error) => match error.kind() {
            ErrorKind::InvalidData => Err(ProgramError::Usage),
            _ => Err(ProgramError::Memory),
        },
    }
}

/// Parses a number: one or more decimal digits and nothing else. Returns `None` for anything else, for example a sign,
/// or if the number doesn't fit a `usize`.
pub fn number(word: &str) -> Option<usize>
    ensures { IsReadAs word.now result }
{
    if word.starts_with('+') {
        return None;
    }
    word.parse().ok()
}
