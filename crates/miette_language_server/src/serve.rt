//! The server's loop, over any reader and writer.

ghost use Rattle.std.specs.Prelude.{◌≡◌, ◌↔◌, ◌⊎◌, ◌<◌, IfOk, IfSome, IsTrue, OnErr, OnOk, false, true};
ghost use Rattle.std.specs.Io.KnownBytes.{Appends};
ghost use Rattle.serde_json.specs.View.{view};
ghost use Rattle.serde_json.specs.Written.{compact_text, has_float};
ghost use Rattle.miette_devices.specs.views.Device.{TakesBeginning};
ghost use Rattle.miette_language_server.specs.rules.Frames.{framed};
ghost use Rattle.miette_language_server.specs.rules.Serving.{served};
ghost use Rattle.miette_language_server.specs.views.ClientState.{IsOpen};
ghost use Rattle.miette_language_server.specs.views.Served.{IsServiceBegun, IsTurn, moment};

use crate::client::Client;
use crate::frames::{read_frame, write_frame};
use crate::session::{ServerOutcome, Session};
use miette_devices::fault::ProgramError;
use serde_json::Value;
use std::alloc::Global;
use std::io::{Read, Write};

// Writes a message in a frame. The message has no fractions.
fn write_message<R, W: Write>(
    alloc: Global,
    client: &mut Client<R, W>,
    message: &Value,
) -> Result<(), ProgramError>
    requires whole { has_float (view message.now) ≡ false }
    requires sound { client.old.writer.failed ≡ false }
    ensures ok { OnOk result (Appends (W.contents client.old.writer.inner) (W.contents client.new.writer.inner)
        (framed (compact_text (view message.now)))) }
    ensures err { OnErr result (TakesBeginning (W.contents client.old.writer.inner)
        (W.contents client.new.writer.inner) (framed (compact_text (view message.now)))) }
    ensures failed { IsTrue client.new.writer.failed ↔ (result ≡ Err ProgramError.Write) }
    ensures others { OnErr result ((result ≡ Err ProgramError.Write) ⊎ (result ≡ Err ProgramError.Memory)) }
    ensures sent { OnOk result (client.new.writer.is_sent ≡ true) }
    ensures reader { client.new.reader ≡ client.old.reader }
{
    let text = message.to_string(alloc)?;
    write_frame(alloc, client, text.as_bytes())
}

// Handles one frame. Returns the exit code if the server ends.
fn turn<R: Read, W: Write>(
    alloc: Global,
    session: &mut Session,
    client: &mut Client<R, W>,
) -> Result<Option<u8>, ProgramError>
    requires { IsOpen client.old }
    ensures served { IfOk result (IsTurn
        (moment session.old (R.remaining client.old.reader.inner) (W.contents client.old.writer.inner))
        (moment session.new (R.remaining client.new.reader.inner) (W.contents client.new.writer.inner))) }
    ensures begun { OnErr result (IsServiceBegun session.old (R.remaining client.old.reader.inner)
        (W.contents client.old.writer.inner) (W.contents client.new.writer.inner)) }
    ensures read_failed { IsTrue client.new.reader.failed ↔ (result ≡ Err ProgramError.Read) }
    ensures write_failed { IsTrue client.new.writer.failed ↔ (result ≡ Err ProgramError.Write) }
    ensures others { OnErr result ((result ≡ Err ProgramError.Memory) ⊎ (result ≡ Err ProgramError.Read)
        ⊎ (result ≡ Err ProgramError.Write)) }
    ensures sent { OnOk result (client.new.writer.is_sent ≡ true) }
    ensures status { IfOk result (λ it. IfSome it (λ status. status < 3)) }
{
    let frame = read_frame(alloc, client)?;
    let body = match frame {
        Some(body) => body,
        None => return Ok(Some(2)),
    };
    let outcome = session.step(alloc, body.as_slice())?;
    match outcome {
        ServerOutcome::Nothing => Ok(None),
        ServerOutcome::Ended(status) => Ok(Some(status)),
        ServerOutcome::Written(message) => {
            write_message(alloc, client, &message)?;
            Ok(None)
        }
    }
}

/// Serves a client until it ends the server or its input ends. Lines may have `width` columns. Returns the exit code:
/// 0, 1 or 2.
///
/// The output depends only on the input bytes: see `served`. The reader is called only after everything written was
/// flushed (`Client`).
///
/// # Errors
/// `Read` or `Write` exactly if a call of the reader or writer failed, and `Memory` if allocation fails. The writer
/// then has a beginning of `served`.
pub fn serve<R: Read, W: Write>(
    alloc: Global,
    width: usize,
    client: &mut Client<R, W>,
) -> Result<u8, ProgramError>
    requires { IsOpen client.old }
    ensures served { IfOk result (λ status. IfSome (R.remaining client.old.reader.inner) (λ bytes.
        Appends (W.contents client.old.writer.inner) (W.contents client.new.writer.inner) (served width bytes).output
        × (status ≡ (served width bytes).status))) }
    ensures begun { OnErr result (IfSome (R.remaining client.old.reader.inner) (λ bytes.
        TakesBeginning (W.contents client.old.writer.inner) (W.contents client.new.writer.inner)
        (served width bytes).output)) }
    ensures read_failed { IsTrue client.new.reader.failed ↔ (result ≡ Err ProgramError.Read) }
    ensures write_failed { IsTrue client.new.writer.failed ↔ (result ≡ Err ProgramError.Write) }
    ensures others { OnErr result ((result ≡ Err ProgramError.Memory) ⊎ (result ≡ Err ProgramError.Read)
        ⊎ (result ≡ Err ProgramError.Write)) }
    ensures sent { OnOk result (client.new.writer.is_sent ≡ true) }
    ensures status { IfOk result (λ status. status < 3) }
{
    let mut session = Session::new(alloc, width);
    for _ in 0..u64::MAX {
        let told = turn(alloc, &mut session, client)?;
        match told {
            Some(status) => return Ok(status),
            None => {}
        }
    }
    Err(ProgramError::Memory)
}
