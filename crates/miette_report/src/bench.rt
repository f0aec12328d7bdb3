//! The program `bench`: renders one report many times, to measure speed.

ghost use Rattle.std.specs.Prelude.{◌≡◌, ◌↔◌, ◌⊎◌, ◌++◌, false, IfOk, IfSome, IsTrue, OnErr, OnOk, None};
ghost use Rattle.std.specs.Prelude.{codes, decimal, drop, map, string_bytes};
ghost use Rattle.std.specs.Io.KnownBytes.{Appends};
ghost use Rattle.miette_devices.specs.views.Device.{TakesBeginning};
ghost use Rattle.miette_program.specs.rules.OptionWords.{parsed_arguments, AreParsed};
ghost use Rattle.miette_report.specs.rules.Job.{IsDescription, IsNoDescription, IsRefused, Writes};
ghost use Rattle.miette_program.specs.rules.JobText.{IsTelling};
ghost use Rattle.miette_report.specs.rules.JobCalls.{AreBenchWords, CallMeasures, IsNoBenchCall, IsJobEnd, IsJobStatus};
ghost use Rattle.miette_report.specs.rules.JobCalls.{Measures};

use crate::pipeline::rendered_length;
use miette_devices::device::Device;
use miette_devices::fault::{Program, ProgramError};
use miette_devices::whole::{read_whole, write_whole};
use miette_devices::words::number;
use miette_highlight::highlight::Highlighter;
use miette_program::arguments::Arguments;
use miette_program::language::LanguageHighlighter;
use std::alloc::{AllocError, Global};
use std::io::{Read, Write};

/// Runs `bench` and returns the exit code, which has the meaning of `job`'s. It reads a description, builds the report
/// once, renders it N times, and writes the number of bytes of one rendering and a line feed. It writes 0 if N is 0.
/// The arguments are N and those of `job`. An error's text and a line feed go to `faults`. Errors of `faults` itself
/// are ignored.
pub fn bench_with<R, W, F>(alloc: Global, words: &[String], reader: R, writer: W, faults: F) -> u8
where
    R: Read + Drop,
    W: Write + Drop,
    F: Write + Drop,
    ensures status { IsJobStatus (IsNoBenchCall (map string_bytes words.now)) (drop 1 (map string_bytes words.now))
        (R.remaining reader) result }
{
    let mut reader = Device::new(reader);
    let mut writer = Device::new(writer);
    let work = run_bench(alloc, words, &mut reader, &mut writer);
    Program::Bench.finish(work, faults)
}

/// Checks the arguments before anything is read, then measures.
///
/// # Errors
/// `Usage` if the first argument is no number or the others are not those of `job`. Otherwise those of `job::run`.
pub fn run_bench<R: Read, W: Write>(
    alloc: Global,
    words: &[String],
    reader: &mut Device<R>,
    writer: &mut Device<W>,
) -> Result<(), ProgramError>
    requires reader_sound { reader.old.failed ≡ false }
    requires writer_sound { writer.old.failed ≡ false }
    // All remaining input is a description. The writer got the length of the text that the arguments ask for.
    ensures ok { OnOk result (IfSome (R.remaining reader.old.inner) (λ bytes.
        CallMeasures ⟦<LanguageHighlighter as Highlighter>⟧.is_blank (map string_bytes words.now) bytes
        (Appends (W.contents writer.old.inner) (W.contents writer.new.inner)))) }
    ensures end { IsJobEnd (IsNoBenchCall (map string_bytes words.now)) (drop 1 (map string_bytes words.now))
        (R.remaining reader.old.inner) result }
    // If the arguments are wrong, nothing is read.
    ensures unread { IsNoBenchCall (map string_bytes words.now) → reader.new ≡ reader.old }
    ensures read_failed { IsTrue reader.new.failed ↔ (result ≡ Err ProgramError.Read) }
    ensures write_failed { IsTrue writer.new.failed ↔ (result ≡ Err ProgramError.Write) }
    // After a write error the writer has a beginning of the length.
    ensures beginning { (result ≡ Err ProgramError.Write) → IfSome (R.remaining reader.old.inner) (λ bytes.
        CallMeasures ⟦<LanguageHighlighter as Highlighter>⟧.is_blank (map string_bytes words.now) bytes
        (TakesBeginning (W.contents writer.old.inner) (W.contents writer.new.inner))) }
    // After any other error nothing was written.
    ensures untouched { OnErr result ((result ≡ Err ProgramError.Write) ⊎ (writer.new ≡ writer.old)) }
{
    let (times, settings) = read_words(alloc, words)?;
    measure(alloc, reader, writer, times, settings)
}

/// The number of renderings, and the settings.
fn read_words(alloc: Global, words: &[String]) -> Result<(usize, Arguments), ProgramError>
    ensures times { IfOk result (λ it. AreBenchWords (map string_bytes words.now) it.0
        (drop 1 (map string_bytes words.now))) }
    ensures table { IfOk result (λ it. AreParsed (drop 1 (map string_bytes words.now)) it.1.choice it.1.options
        it.1.terminal) }
    ensures usage { (result ≡ Err ProgramError.Usage) → IsNoBenchCall (map string_bytes words.now) }
    ensures others { OnErr result ((result ≡ Err ProgramError.Usage) ⊎ (result ≡ Err ProgramError.Memory)) }
{
    let [times, options @ ..] = words else {
        return Err(ProgramError::Usage);
    };
    let Some(times) = number(times.as_str()) else {
        return Err(ProgramError::Usage);
    };
    Ok((times, Arguments::read(alloc, options)?))
}

/// Reads all input, renders `times` times, and writes the length of one rendering.
fn measure<R: Read, W: Write>(
    alloc: Global,
    reader: &mut Device<R>,
    writer: &mut Device<W>,
    times: usize,
    settings: Arguments,
) -> Result<(), ProgramError>
    requires reader_sound { reader.old.failed ≡ false }
    requires writer_sound { writer.old.failed ≡ false }
    ensures ok { OnOk result (IfSome (R.remaining reader.old.inner) (λ bytes. Measures times
        (Writes ⟦<LanguageHighlighter as Highlighter>⟧.is_blank settings.choice settings.options settings.terminal
        bytes) (Appends (W.contents writer.old.inner) (W.contents writer.new.inner)))) }
    ensures described { OnOk result (IfSome (R.remaining reader.old.inner) IsDescription) }
    ensures description { (result ≡ Err ProgramError.Description) →
        IfSome (R.remaining reader.old.inner) IsNoDescription }
    ensures refused { (result ≡ Err ProgramError.Refused) →
        IsTelling settings.choice settings.options settings.terminal
        × IfSome (R.remaining reader.old.inner) IsRefused }
    ensures called { ¬ (result ≡ Err ProgramError.Usage) }
    ensures read_failed { IsTrue reader.new.failed ↔ (result ≡ Err ProgramError.Read) }
    ensures write_failed { IsTrue writer.new.failed ↔ (result ≡ Err ProgramError.Write) }
    ensures beginning { (result ≡ Err ProgramError.Write) → IfSome (R.remaining reader.old.inner)
        (λ bytes. Measures times
        (Writes ⟦<LanguageHighlighter as Highlighter>⟧.is_blank settings.choice settings.options settings.terminal
        bytes) (TakesBeginning (W.contents writer.old.inner) (W.contents writer.new.inner))) }
    ensures untouched { OnErr result ((result ≡ Err ProgramError.Write) ⊎ (writer.new ≡ writer.old)) }
{
    let bytes = read_whole(alloc, reader)?;
    let length = rendered_length(alloc, bytes.as_slice(), times, settings)?;
    let text = length_text(alloc, length)?;
    write_whole(writer, text.as_bytes())
}

/// The length in decimal, and a line feed.
fn length_text(alloc: Global, length: usize) -> Result<String, AllocError>
    ensures { IfOk result (λ text. string_bytes text ≡ decimal length ++ codes "\n") }
{
    format!(in alloc; "{length}\n")
}
