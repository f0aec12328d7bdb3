//! The open documents.

ghost use Rattle.std.specs.Prelude.{◌≡◌, ◌<◌, IfOk, IfSome, OnOk, bytes_eq, length, position};
ghost use Rattle.std.specs.Option.{option_copied};
ghost use Rattle.serde_json.specs.View.{view};
ghost use Rattle.miette_language_server.specs.rules.Documents.{document_changed_in, document_at, document_in};
ghost use Rattle.miette_language_server.specs.rules.Documents.{document_opened_in};
ghost use Rattle.miette_language_server.specs.rules.Documents.{uri_in, version_in, with_document, without};

use crate::changes::apply_changes;
use crate::members::{integer_at, items_at, text_at};
use serde_json::Value;
use std::alloc::{AllocError, Global};
use std::marker::Model;

/// An open document.
#[derive(Drop)]
pub struct Document {
    uri: String,
    version: Option<i64>,
    text: Vec<u8>,
}

impl Model for Document {
    ghost use Rattle.std.specs.Prelude.{string_bytes};
    ghost use Rattle.miette_language_server.specs.rules.Documents.{OpenDocument};

    ghost Value = { OpenDocument };

    ghost view = { λ it. record { uri = string_bytes it.uri; version = it.version; text = it.text.items } };
}

impl Document {
    /// The URI that the client uses for it.
    pub fn uri(&self) -> &str
        ensures { result.now ≡ self.now.uri }
    {
        self.uri.as_str()
    }

    /// Its version, if the client gave one.
    pub fn version(&self) -> Option<i64>
        ensures { result ≡ self.now.version }
    {
        self.version
    }

    /// Its text.
    pub fn text(&self) -> &[u8]
        ensures { result.now ≡ self.now.text }
    {
        self.text.as_slice()
    }
}

// The URI of the document in a message.
pub(crate) fn uri_in(message: &Value) -> Option<&str>
    ensures { option_copied result ≡ uri_in (view message.now) }
{
    text_at(message, "/params/textDocument/uri")
}

// The version of the document in a message.
fn version_in(message: &Value) -> Option<i64>
    ensures { result ≡ version_in (view message.now) }
{
    integer_at(message, "/params/textDocument/version")
}

// Index of the document with a URI.
fn place_of(documents: &[Document], uri: &str) -> Option<usize>
    ensures at { result ≡ position (λ d. bytes_eq d.uri uri.now) documents.now }
    ensures within { IfSome result (λ at. at < length documents.now) }
{
    documents.iter().position(|d| d.uri() == uri)
}

/// Returns the document with a URI, if it is open.
pub(crate) fn document_at<'d>(documents: &'d [Document], uri: &str) -> Option<&'d Document>
    ensures { option_copied result ≡ document_at documents.now uri.now }
{
    documents.iter().find(|d| d.uri() == uri)
}

/// Returns the document in a message, if it is open.
pub(crate) fn document_in<'d>(documents: &'d [Document], message: &Value) -> Option<&'d Document>
    ensures { option_copied result ≡ document_in documents.now (view message.now) }
{
    document_at(documents, uri_in(message)?)
}

/// Adds a document, or replaces the one with the same URI.
pub(crate) fn put_document(
    documents: &mut Vec<Document>,
    document: Document,
) -> Result<(), AllocError>
    ensures { OnOk result (documents.new.items ≡ with_document documents.old.items document) }
{
    match place_of(documents.as_slice(), document.uri()) {
        Some(at) => documents[at] = document,
        None => documents.push(document)?,
    }
    Ok(())
}

/// Removes the document with this URI.
pub(crate) fn remove_document(documents: &mut Vec<Document>, uri: &str)
    ensures { documents.new.items ≡ without documents.old.items uri.now }
{
    match place_of(documents.as_slice(), uri) {
        Some(at) => drop(documents.remove(at)),
        None => {}
    }
}

// Creates a document with copies of these texts.
fn document_of(
    alloc: Global,
    uri: &str,
    version: Option<i64>,
    text: &str,
) -> Result<Document, AllocError>
    ensures { IfOk result (λ it. it ≡ record { uri = uri.now; version = version; text = text.now }) }
{
    Ok(Document {
        uri: String::from_str(alloc, uri)?,
        version,
        text: Vec::from_slice(alloc, text.as_bytes())?,
    })
}

/// Returns the document that a message opens, if it has a URI and a text.
pub(crate) fn document_opened_in(
    alloc: Global,
    message: &Value,
) -> Result<Option<Document>, AllocError>
    ensures { IfOk result (λ it. it ≡ document_opened_in (view message.now)) }
{
    let Some(uri) = uri_in(message) else {
        return Ok(None);
    };
    let Some(text) = text_at(message, "/params/textDocument/text") else {
        return Ok(None);
    };
    let document = document_of(alloc, uri, version_in(message), text)?;
    Ok(Some(document))
}

/// Returns a document with the changes of a message.
pub(crate) fn document_changed_in(
    alloc: Global,
    document: &Document,
    message: &Value,
) -> Result<Document, AllocError>
    ensures { IfOk result (λ it. it ≡ document_changed_in document.now (view message.now)) }
{
    let changes = items_at(message, "/params/contentChanges");
    Ok(Document {
        uri: String::from_str(alloc, document.uri())?,
        version: version_in(message),
        text: apply_changes(alloc, document.text(), changes)?,
    })
}
