//! Errors of programs, their messages and exit codes.

ghost use Rattle.std.specs.Prelude.{◌≡◌, OnOk};
ghost use Rattle.std.specs.Option.{option_map};
ghost use Rattle.std.specs.Io.KnownBytes.{Appends};
ghost use Rattle.miette_devices.specs.rules.Faults.{end_status, error_line, program_name, error_reason, status_of};
ghost use Rattle.miette_devices.specs.rules.Faults.{usage_of};
ghost use Rattle.miette_devices.specs.views.Endings.{IsFailure};

use std::alloc::AllocError;
use std::io;
use std::io::Write;

/// Why a program failed.
#[derive(Clone, Copy, Debug, PartialEq, Eq)]
pub enum ProgramError {
    /// The arguments are invalid.
    Usage,
    /// Allocation failed.
    Memory,
    /// The reader failed.
    Read,
    /// The writer failed. It has written a beginning of the text.
    Write,
    /// The input doesn't describe a report.
    Description,
    /// The handler returned `Refused`.
    Refused,
}

impl From<AllocError> for ProgramError {
    ghost use Rattle.std.specs.Prelude.{◌≡◌};
    ghost use Rattle.miette_devices.specs.declared.fault.ProgramError.TheVariants.{Memory};

    ghost from_gives = { λ _ fault. fault ≡ Memory };

    fn from(_refused: AllocError) -> ProgramError {
        ProgramError::Memory
    }
}

/// One of the programs.
#[derive(Clone, Copy, Debug, PartialEq, Eq)]
pub enum Program {
    /// Draws one label on a source.
    Draw,
    /// Prints the report of a description.
    Job,
    /// Renders one report many times.
    Bench,
    /// Reports findings in the lines of a source.
    Lint,
    /// Draws the messages of compilers.
    Show,
}

/// How a program ended.
#[derive(Debug, Drop)]
pub struct ProgramExit {
    /// Its exit code.
    pub status: u8,
    /// Whether the error message could be written. `Ok` if there is no message.
    pub told: io::Result<()>,
}

impl ProgramExit {
    /// The program succeeded with this exit code.
    pub fn done(status: u8) -> ProgramExit
        ensures { result.status ≡ status }
    {
        ProgramExit {
            status,
            told: Ok(()),
        }
    }
}

/// Returns the text of an error. Usage errors have none.
fn reason(fault: ProgramError) -> Option<&'static str>
    ensures { option_map (λ it. it.now) result ≡ error_reason fault }
{
    match fault {
        ProgramError::Usage => None,
        ProgramError::Memory => Some("out of memory"),
        ProgramError::Read => Some("read fault"),
        ProgramError::Write => Some("write fault"),
        ProgramError::Description => Some("bad description"),
        ProgramError::Refused => Some("report refused"),
    }
}

impl Program {
    /// Returns the program's name and its usage text.
    fn name_and_usage(self) -> (&'static str, &'static str)
        ensures name { result.0.now ≡ program_name self }
        ensures usage { result.1.now ≡ usage_of self }
    {
        match self {
            Program::Draw => ("draw", "NAME OFFSET LENGTH LABEL MESSAGE"),
            Program::Job => ("job", "[OPTIONS]"),
            Program::Bench => ("bench", "N [OPTIONS]"),
            Program::Lint => (
                "lint",
                "[--brief | --github | --fix | --diff | --sarif [--tool TOOL]] NAME WIDTH | --lsp WIDTH",
            ),
            Program::Show => (
                "show",
                "[--from auto|rustc|gcc|sarif|shellcheck] [--root DIR] [--fix [--broken-code] | OPTIONS]",
            ),
        }
    }

    /// Returns the exit code for an error. `lint` and `show` always return 2, because 1 means that there are findings
    /// or errors.
    fn status(self, fault: ProgramError) -> u8
        ensures { result ≡ status_of self fault }
    {
        match (self, fault) {
            (Program::Lint | Program::Show, _) | (_, ProgramError::Usage) => 2,
            (_, ProgramError::Memory | ProgramError::Read | ProgramError::Write) => 1,
            (_, ProgramError::Description) => 3,
            (_, ProgramError::Refused) => 4,
        }
    }

    /// Writes the error message.
    fn tell<F: Write>(self, fault: ProgramError, faults: &mut F) -> io::Result<()>
        ensures row { OnOk result (Appends (F.contents faults.old) (F.contents faults.new) (error_line self fault)) }
    {
        let (name, usage) = self.name_and_usage();
        match reason(fault) {
            None => writeln!(faults, "usage: {name} {usage}"),
            Some(reason) => writeln!(faults, "{name}: {reason}"),
        }
    }

    /// Writes the error message. Returns the exit code, and whether the message was written completely.
    pub fn fail<F: Write>(self, fault: ProgramError, faults: &mut F) -> ProgramExit
        ensures { IsFailure self result (F.contents faults.old) (F.contents faults.new) fault }
    {
        ProgramExit {
            status: self.status(fault),
            told: self.tell(fault, faults),
        }
    }

    /// Writes the error message and returns the exit code. Errors of `faults` are ignored.
    pub fn end<F: Write + Drop>(self, fault: ProgramError, mut faults: F) -> u8
        ensures { result ≡ status_of self fault }
    {
        self.fail(fault, &mut faults).status
    }

    /// Returns 0 if the work succeeded. Otherwise writes the error message and returns its exit code.
    pub fn finish<F: Write + Drop>(self, work: Result<(), ProgramError>, faults: F) -> u8
        ensures { result ≡ end_status (status_of self) work }
    {
        match work {
            Ok(()) => 0,
            Err(fault) => self.end(fault, faults),
        }
    }
}
