//! Requests and notifications by the names of their methods.

ghost use Rattle.std.specs.Prelude.{◌≡◌};
ghost use Rattle.miette_language_server.specs.rules.Session.{notification_named, request_named};

/// A request.
#[derive(Clone, Copy)]
pub enum Request {
    /// Starts the session and asks for the server's capabilities.
    Initialize,
    /// Asks for quick fixes in a range.
    CodeAction,
    /// Prepares the end of the session.
    Shutdown,
    /// An unknown method.
    Other,
}

/// A notification.
#[derive(Clone, Copy)]
pub enum Notification {
    /// A document was opened.
    Opened,
    /// A document was changed.
    Changed,
    /// A document was saved.
    Saved,
    /// A document was closed.
    Closed,
    /// The server must exit.
    Exit,
    /// A notification that the server ignores.
    Ignored,
}

/// Returns the request with this method.
pub(crate) fn request_named(method: &str) -> Request
    ensures { result ≡ request_named method.now }
{
    match method {
        "initialize" => Request::Initialize,
        "shutdown" => Request::Shutdown,
        "textDocument/codeAction" => Request::CodeAction,
        _ => Request::Other,
    }
}

/// Returns the notification with this method.
pub(crate) fn notification_named(method: &str) -> Notification
    ensures { result ≡ notification_named method.now }
{
    match method {
        "exit" => Notification::Exit,
        "textDocument/didChange" => Notification::Changed,
        "textDocument/didClose" => Notification::Closed,
        "textDocument/didOpen" => Notification::Opened,
        "textDocument/didSave" => Notification::Saved,
        _ => Notification::Ignored,
    }
}
