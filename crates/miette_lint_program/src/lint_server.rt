//! `lint --lsp`: findings for an editor while the user types.

ghost use Rattle.std.specs.Prelude.{◌≡◌, ◌⊎◌, ◌<◌, IfOk, IfSome, OnErr};
ghost use Rattle.std.specs.Io.Buffered.{reader_remaining};
ghost use Rattle.miette_language_server.specs.rules.Serving.{served};
ghost use Rattle.miette_language_server.specs.views.ClientState.{IsOpen};
ghost use Rattle.miette_devices.specs.views.Endings.{IsFailure};
ghost use Rattle.miette_lint_program.specs.views.Service.{BeginsService, IsServerFault, IsService};

use miette_devices::fault::{Program, ProgramError, ProgramExit};
use miette_language_server::client::Client;
use miette_language_server::serve::serve;
use std::alloc::Global;
use std::io::{BufReader, Read, Write};

// Puts a buffer in front of a reader. Nothing is read yet.
fn buffered<R: Read + Drop>(alloc: Global, reader: R) -> Result<BufReader<R>, ProgramError>
    ensures whole { IfOk result (λ it. reader_remaining R.remaining it ≡ R.remaining reader) }
    ensures others { OnErr result (result ≡ Err ProgramError.Memory) }
{
    match BufReader::new(alloc, reader) {
        Ok(made) => Ok(made),
        Err(_) => Err(ProgramError::Memory),
    }
}

/// Like `lint_serve_with`, over a client and a `faults` that the caller keeps. Also returns whether `faults` took the
/// error message.
pub fn serve_on<R: Read, W: Write, F: Write>(
    alloc: Global,
    width: usize,
    client: &mut Client<R, W>,
    faults: &mut F,
) -> ProgramExit
    requires { IsOpen client.old }
    ensures status { result.status < 3 }
    // Either the client got what a language server writes for all that was read and nothing else, no stream failed, and
    // `faults` got nothing. Or the reader, the writer or allocation failed: then the error says exactly which, the
    // client got a beginning of that text, and `faults` gets the error message.
    ensures service { (IsService width (R.remaining client.old.reader.inner) (W.contents client.old.writer.inner)
        (W.contents client.new.writer.inner) result.status × IsOpen client.new × (faults.new ≡ faults.old))
        ⊎ ((fault : ProgramError) × IsFailure Program.Lint result (F.contents faults.old) (F.contents faults.new) fault
        × IsServerFault client.new.reader.failed client.new.writer.failed fault
        × BeginsService width (R.remaining client.old.reader.inner) (W.contents client.old.writer.inner)
        (W.contents client.new.writer.inner)) }
{
    match serve(alloc, width, client) {
        Ok(status) => ProgramExit {
            status,
            told: Ok(()),
        },
        Err(fault) => Program::Lint.fail(fault, faults),
    }
}

/// Runs `lint --lsp`: serves an editor over the Language Server Protocol until the editor ends the server.
///
/// The exit code is 0 if the editor ends the server after `shutdown`, and 1 if it ends it before. It is 2 if the frames
/// end or one is broken, and if allocation, the reader or the writer failed. Then the error message goes to `faults`.
/// Errors of `faults` itself are ignored.
pub fn lint_serve_with<R, W, F>(alloc: Global, width: usize, reader: R, writer: W, faults: F) -> u8
where
    R: Read + Drop,
    W: Write + Drop,
    F: Write + Drop,
    ensures status { result < 3 }
    ensures ended { result < 2 → IfSome (R.remaining reader) (λ bytes. result ≡ (served width bytes).status) }
{
    let mut faults = faults;
    match buffered(alloc, reader) {
        Ok(front) => {
            let mut client = Client::new(front, writer);
            serve_on(alloc, width, &mut client, &mut faults).status
        }
        Err(fault) => Program::Lint.fail(fault, &mut faults).status,
    }
}
