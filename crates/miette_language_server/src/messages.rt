//! Messages that the server writes: responses, errors and notifications of JSON-RPC 2.0.

ghost use Rattle.std.specs.Prelude.{◌≡◌, IfOk, codes};
ghost use Rattle.serde_json.specs.Data.{object, put as with_member, string};
ghost use Rattle.serde_json.specs.View.{members_view, view};
ghost use Rattle.miette_language_server.specs.rules.Messages.{actions_kinds, success_response, capabilities, code_of};
ghost use Rattle.miette_language_server.specs.rules.Messages.{error_value};
ghost use Rattle.miette_language_server.specs.rules.Messages.{diagnostics_notification, reason_of, error_response};
ghost use Rattle.miette_language_server.specs.rules.Messages.{initialize_result};
ghost use Rattle.miette_language_server.specs.rules.Messages.{sync_value};

use crate::objects::{object_with, object_with_text, with_text, with_value};
use serde_json::{Map, Value, json};
use std::alloc::{AllocError, Global};

/// Why a request is refused.
#[derive(Clone, Copy)]
pub enum Refusal {
    /// The message is not JSON.
    NotJson,
    /// The request comes before `initialize`.
    NotInitialized,
    /// The request comes after `shutdown`, or is a second `initialize`.
    NotNow,
    /// The method is unknown.
    Unknown,
}

impl Refusal {
    // The error code of the protocol.
    fn code(self) -> i64
        ensures { result ≡ code_of self }
    {
        match self {
            Refusal::NotJson => -32700,
            Refusal::NotInitialized => -32002,
            Refusal::NotNow => -32600,
            Refusal::Unknown => -32601,
        }
    }

    // The error message.
    fn reason(self) -> &'static str
        ensures { result.now ≡ reason_of self }
    {
        match self {
            Refusal::NotJson => "the message is no JSON",
            Refusal::NotInitialized => "the server is not initialized",
            Refusal::NotNow => "this request is not one for now",
            Refusal::Unknown => "the server knows no such request",
        }
    }
}

// Completes a response to the request with this id.
fn with_id(alloc: Global, members: Map<String, Value>, id: &Value) -> Result<Value, AllocError>
    ensures { IfOk result (λ value. view value ≡ object (with_member (codes "id") (view id.now)
        (with_member (codes "jsonrpc") (string (codes "2.0")) (members_view members.entries)))) }
{
    let it = with_text(alloc, members, "jsonrpc", "2.0")?;
    let id = id.clone()?;
    object_with(alloc, it, "id", id)
}

/// Returns the response to the request with this id.
pub(crate) fn success_response(alloc: Global, id: &Value, given: Value) -> Result<Value, AllocError>
    ensures { IfOk result (λ value. view value ≡ success_response (view id.now) (view given)) }
{
    let it = with_value(alloc, Map::new(alloc), "result", given)?;
    with_id(alloc, it, id)
}

// Returns an error object.
fn error_value(alloc: Global, why: Refusal) -> Result<Value, AllocError>
    ensures { IfOk result (λ value. view value ≡ error_value why) }
{
    let it = with_value(alloc, Map::new(alloc), "code", Value::from(why.code()))?;
    object_with_text(alloc, it, "message", why.reason())
}

/// Returns the error response to the request with this id.
pub(crate) fn error_response(alloc: Global, id: &Value, why: Refusal) -> Result<Value, AllocError>
    ensures { IfOk result (λ value. view value ≡ error_response (view id.now) why) }
{
    let error = error_value(alloc, why)?;
    let it = with_value(alloc, Map::new(alloc), "error", error)?;
    with_id(alloc, it, id)
}

/// Returns the notification that publishes diagnostics.
pub(crate) fn diagnostics_notification(alloc: Global, params: Value) -> Result<Value, AllocError>
    ensures { IfOk result (λ value. view value ≡ diagnostics_notification (view params)) }
{
    let it = with_value(alloc, Map::new(alloc), "params", params)?;
    let it = with_text(alloc, it, "jsonrpc", "2.0")?;
    object_with_text(alloc, it, "method", "textDocument/publishDiagnostics")
}

// The client sends documents when they are opened, closed and saved, and their whole text when they change.
fn sync_value(alloc: Global) -> Result<Value, AllocError>
    ensures { IfOk result (λ value. view value ≡ sync_value) }
{
    let it = with_value(alloc, Map::new(alloc), "openClose", Value::Bool(true))?;
    let it = with_value(alloc, it, "change", Value::from(1u8))?;
    object_with(alloc, it, "save", Value::Bool(true))
}

// The server offers quick fixes.
fn actions_kinds(alloc: Global) -> Result<Value, AllocError>
    ensures { IfOk result (λ value. view value ≡ actions_kinds) }
{
    let kinds = json!(in alloc; ["quickfix"])?;
    object_with(alloc, Map::new(alloc), "codeActionKinds", kinds)
}

// The capabilities of the server.
fn capabilities(alloc: Global) -> Result<Value, AllocError>
    ensures { IfOk result (λ value. view value ≡ capabilities) }
{
    let sync = sync_value(alloc)?;
    let it = with_value(alloc, Map::new(alloc), "textDocumentSync", sync)?;
    let actions = actions_kinds(alloc)?;
    let it = with_value(alloc, it, "codeActionProvider", actions)?;
    object_with_text(alloc, it, "positionEncoding", "utf-16")
}

/// Returns the result of `initialize`.
pub(crate) fn initialize_result(alloc: Global) -> Result<Value, AllocError>
    ensures { IfOk result (λ value. view value ≡ initialize_result) }
{
    let info = object_with_text(alloc, Map::new(alloc), "name", "lint")?;
    let it = with_value(alloc, Map::new(alloc), "serverInfo", info)?;
    let capabilities = capabilities(alloc)?;
    object_with(alloc, it, "capabilities", capabilities)
}
