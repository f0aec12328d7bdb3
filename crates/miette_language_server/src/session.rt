//! A session with a client, message by message.

ghost use Rattle.std.specs.Prelude.{◌≡◌, IfOk, option_map};
ghost use Rattle.serde_json.specs.View.{view};
ghost use Rattle.miette_language_server.specs.rules.Session.{request_before_initialize, asked_in};
ghost use Rattle.miette_language_server.specs.rules.Session.{request_while_running, called, first_state};
ghost use Rattle.miette_language_server.specs.rules.Session.{message_of, exit_alone, notification_while_running};
ghost use Rattle.miette_language_server.specs.rules.Session.{noticed_in, step, told};
ghost use Rattle.miette_language_server.specs.rules.Session.{actions_value, without_document, held};
ghost use Rattle.miette_language_server.specs.views.Answered.{IsStep, outcome_of};

use crate::actions::actions_in;
use crate::diagnostics::{diagnostics_of, publish_params};
use crate::documents::{
    Document, document_changed_in, document_in, document_opened_in, put_document, remove_document,
    uri_in,
};
use crate::members::{id_of, region_at, text_at};
use crate::messages::{
    Refusal, diagnostics_notification, error_response, initialize_result, success_response,
};
use crate::methods::{Notification, Request, notification_named, request_named};
use crate::objects::list_value;
use serde_json::Value;
use std::alloc::{AllocError, Global};
use std::marker::Model;

/// The phase of a session.
#[derive(Clone, Copy, Debug, PartialEq, Eq)]
pub enum Phase {
    /// Before `initialize`.
    Waiting,
    /// Between `initialize` and `shutdown`.
    Running,
    /// After `shutdown`.
    Stopping,
}

/// What the server does for a message.
#[derive(Drop)]
pub enum ServerOutcome {
    /// Nothing.
    Nothing,
    /// Write a message.
    Written(Value),
    /// Exit with this code.
    Ended(u8),
}

/// A session: its phase, and the open documents.
#[derive(Drop)]
pub struct Session {
    phase: Phase,
    width: usize,
    documents: Vec<Document>,
}

impl Model for Session {
    ghost use Rattle.miette_language_server.specs.rules.Session.{SessionState};

    ghost Value = { SessionState };

    ghost view = { λ it. record { phase = it.phase; width = it.width; documents = it.documents.items } };
}

// Parses the body of a frame. Returns `None` if it is not JSON.
fn message_of(alloc: Global, body: &[u8]) -> Result<Option<Value>, AllocError>
    ensures { IfOk result (λ it. option_map view it ≡ message_of body.now) }
{
    match Value::from_slice(alloc, body) {
        Ok(value) => Ok(Some(value)),
        Err(error) if error.is_memory() => Err(AllocError),
        Err(_) => Ok(None),
    }
}

// Handles a notification in a phase in which only `exit` has an effect.
fn exit_alone(status: u8, notification: Notification) -> ServerOutcome
    ensures { outcome_of result ≡ exit_alone status notification }
{
    match notification {
        Notification::Exit => ServerOutcome::Ended(status),
        Notification::Opened
        | Notification::Changed
        | Notification::Saved
        | Notification::Closed
        | Notification::Ignored => ServerOutcome::Nothing,
    }
}

impl Session {
    /// Creates a session before its first message. Lines may have `width` columns.
    pub fn new(alloc: Global, width: usize) -> Session
        ensures { result ≡ first_state width }
    {
        Session {
            phase: Phase::Waiting,
            width,
            documents: Vec::new(alloc),
        }
    }

    // Handles a request before `initialize`.
    fn request_before_initialize(
        &mut self,
        alloc: Global,
        id: &Value,
        request: Request,
    ) -> Result<ServerOutcome, AllocError>
        ensures { IfOk result (IsStep (request_before_initialize self.old (view id.now) request) self.new) }
    {
        match request {
            Request::Initialize => {
                let server = initialize_result(alloc)?;
                let written = success_response(alloc, id, server)?;
                self.phase = Phase::Running;
                Ok(ServerOutcome::Written(written))
            }
            Request::CodeAction | Request::Shutdown | Request::Other => {
                Ok(ServerOutcome::Written(error_response(alloc, id, Refusal::NotInitialized)?))
            }
        }
    }

    // Returns the quick fixes in the range that a request names.
    fn actions_value(&self, alloc: Global, message: &Value) -> Result<Value, AllocError>
        ensures { IfOk result (λ value. view value ≡ actions_value self.now (view message.now)) }
    {
        let document = document_in(self.documents.as_slice(), message);
        let region = region_at(message, "/params/range");
        let actions = actions_in(alloc, self.width, document, region)?;
        Ok(list_value(actions))
    }

    // Handles a request between `initialize` and `shutdown`.
    fn request_while_running(
        &mut self,
        alloc: Global,
        id: &Value,
        message: &Value,
        request: Request,
    ) -> Result<ServerOutcome, AllocError>
        ensures { IfOk result (IsStep (request_while_running self.old (view id.now) (view message.now) request)
            self.new) }
    {
        let written = match request {
            Request::Initialize => error_response(alloc, id, Refusal::NotNow)?,
            Request::CodeAction => {
                let actions = self.actions_value(alloc, message)?;
                success_response(alloc, id, actions)?
            }
            Request::Shutdown => {
                let written = success_response(alloc, id, Value::Null)?;
                self.phase = Phase::Stopping;
                written
            }
            Request::Other => error_response(alloc, id, Refusal::Unknown)?,
        };
        Ok(ServerOutcome::Written(written))
    }

    // Handles a request.
    fn asked(
        &mut self,
        alloc: Global,
        id: &Value,
        message: &Value,
        request: Request,
    ) -> Result<ServerOutcome, AllocError>
        ensures { IfOk result
            (IsStep (asked_in self.old.phase self.old (view id.now) (view message.now) request) self.new) }
    {
        match self.phase {
            Phase::Waiting => self.request_before_initialize(alloc, id, request),
            Phase::Running => self.request_while_running(alloc, id, message, request),
            Phase::Stopping => Ok(ServerOutcome::Written(error_response(
                alloc,
                id,
                Refusal::NotNow,
            )?)),
        }
    }

    // Stores an open document and publishes its diagnostics.
    fn hold(&mut self, alloc: Global, document: Document) -> Result<ServerOutcome, AllocError>
        ensures { IfOk result (IsStep (held self.old document) self.new) }
    {
        let params = diagnostics_of(alloc, self.width, &document)?;
        let written = diagnostics_notification(alloc, params)?;
        put_document(&mut self.documents, document)?;
        Ok(ServerOutcome::Written(written))
    }

    // Removes a document and publishes that it has no diagnostics.
    fn close(&mut self, alloc: Global, uri: &str) -> Result<ServerOutcome, AllocError>
        ensures { IfOk result (IsStep (without_document self.old uri.now) self.new) }
    {
        let params = publish_params(alloc, uri, None, Vec::new(alloc))?;
        let written = diagnostics_notification(alloc, params)?;
        remove_document(&mut self.documents, uri);
        Ok(ServerOutcome::Written(written))
    }

    // A document was opened.
    fn open(&mut self, alloc: Global, message: &Value) -> Result<ServerOutcome, AllocError>
        ensures { IfOk result (IsStep (notification_while_running self.old (view message.now) Notification.Opened)
            self.new) }
    {
        match document_opened_in(alloc, message)? {
            Some(document) => self.hold(alloc, document),
            None => Ok(ServerOutcome::Nothing),
        }
    }

    // A document was changed.
    fn change(&mut self, alloc: Global, message: &Value) -> Result<ServerOutcome, AllocError>
        ensures { IfOk result (IsStep (notification_while_running self.old (view message.now) Notification.Changed)
            self.new) }
    {
        let Some(document) = document_in(self.documents.as_slice(), message) else {
            return Ok(ServerOutcome::Nothing);
        };
        let changed = document_changed_in(alloc, document, message)?;
        self.hold(alloc, changed)
    }

    // A document was saved.
    fn save(&self, alloc: Global, message: &Value) -> Result<ServerOutcome, AllocError>
        ensures { IfOk result (IsStep (notification_while_running self.now (view message.now) Notification.Saved)
            self.now) }
    {
        let Some(document) = document_in(self.documents.as_slice(), message) else {
            return Ok(ServerOutcome::Nothing);
        };
        let params = diagnostics_of(alloc, self.width, document)?;
        Ok(ServerOutcome::Written(diagnostics_notification(alloc, params)?))
    }

    // Handles a notification between `initialize` and `shutdown`.
    fn notification_while_running(
        &mut self,
        alloc: Global,
        message: &Value,
        notification: Notification,
    ) -> Result<ServerOutcome, AllocError>
        ensures { IfOk result (IsStep (notification_while_running self.old (view message.now) notification) self.new) }
    {
        match notification {
            Notification::Opened => self.open(alloc, message),
            Notification::Changed => self.change(alloc, message),
            Notification::Saved => self.save(alloc, message),
            Notification::Closed => match uri_in(message) {
                Some(uri) => self.close(alloc, uri),
                None => Ok(ServerOutcome::Nothing),
            },
            Notification::Exit => Ok(ServerOutcome::Ended(1)),
            Notification::Ignored => Ok(ServerOutcome::Nothing),
        }
    }

    // Handles a notification.
    fn notified(
        &mut self,
        alloc: Global,
        message: &Value,
        notification: Notification,
    ) -> Result<ServerOutcome, AllocError>
        ensures { IfOk result
            (IsStep (noticed_in self.old.phase self.old (view message.now) notification) self.new) }
    {
        match self.phase {
            Phase::Waiting => Ok(exit_alone(1, notification)),
            Phase::Running => self.notification_while_running(alloc, message, notification),
            Phase::Stopping => Ok(exit_alone(0, notification)),
        }
    }

    // Handles a message with a method.
    fn called(
        &mut self,
        alloc: Global,
        message: &Value,
        method: &str,
    ) -> Result<ServerOutcome, AllocError>
        ensures { IfOk result (IsStep (called self.old (view message.now) method.now) self.new) }
    {
        match id_of(message) {
            Some(id) => self.asked(alloc, id, message, request_named(method)),
            None => self.notified(alloc, message, notification_named(method)),
        }
    }

    // Handles a message.
    fn told(&mut self, alloc: Global, message: &Value) -> Result<ServerOutcome, AllocError>
        ensures { IfOk result (IsStep (told self.old (view message.now)) self.new) }
    {
        match text_at(message, "/method") {
            Some(method) => self.called(alloc, message, method),
            None => Ok(ServerOutcome::Nothing),
        }
    }

    /// Handles the body of a frame, and returns what the server does.
    ///
    /// # Errors
    /// `AllocError` if allocation fails. The set of open documents is then unspecified.
    pub fn step(&mut self, alloc: Global, body: &[u8]) -> Result<ServerOutcome, AllocError>
        ensures { IfOk result (IsStep (step self.old body.now) self.new) }
    {
        match message_of(alloc, body)? {
            Some(message) => self.told(alloc, &message),
            None => Ok(ServerOutcome::Written(error_response(
                alloc,
                &Value::Null,
                Refusal::NotJson,
            )?)),
        }
    }
}
