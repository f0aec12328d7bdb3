//! Writes JSON text part by part.

ghost use Rattle.std.specs.Prelude.{◌≡◌, ◌∷◌, [], ◌++◌, None, IfOk, OnOk, position, string_bytes};
ghost use Rattle.std.specs.Option.{option_copied};
ghost use Rattle.miette_json.specs.rules.Json.{escaped_text, number, string};
ghost use Rattle.miette_json.specs.rules.Writing.{closed, comma, empty_prefix, opened, with_key, with_optional_text};
ghost use Rattle.miette_json.specs.rules.Writing.{with_text, with_value, with_written};
ghost use Rattle.miette_json.specs.steps.EscapedBytes.{is_escaped};

use crate::text::push_json_string;
use miette_lines::numbers::push_number;
use std::alloc::{AllocError, Global};
use std::marker::Model;

/// Writes JSON text: values, and the parts of objects and lists one after another. The writer adds the commas.
///
/// A contract sees the text so far, and whether a comma is due before the next item or member. After an allocation
/// failure the text is unspecified; drop the writer.
#[derive(Drop)]
pub struct JsonWriter {
    text: String,
    is_comma_due: bool,
}

impl Model for JsonWriter {
    ghost use Rattle.std.specs.Prelude.{string_bytes};
    ghost use Rattle.miette_json.specs.rules.Writing.{JsonPrefix};

    ghost Value = { JsonPrefix };

    ghost view = { λ it. record { text = string_bytes it.text; comma_due = it.is_comma_due } };
}

/// The quotation mark of a key, after a comma if one is due.
#[inline(always)]
fn quote(is_comma_due: bool) -> &'static str
    ensures { result.now ≡ comma is_comma_due ++ 34 ∷ [] }
{
    if is_comma_due { ",\"" } else { "\"" }
}

/// Appends a comma if one is due.
#[inline(always)]
fn push_comma(out: &mut String, is_due: bool) -> Result<(), AllocError>
    ensures { OnOk result (string_bytes out.new ≡ string_bytes out.old ++ comma is_due) }
{
    if is_due {
        return out.push_str(",");
    }
    Ok(())
}

/// Appends a text after a comma if one is due.
#[inline(always)]
fn push_after_comma(out: &mut String, is_comma_due: bool, text: &str) -> Result<(), AllocError>
    ensures { OnOk result (string_bytes out.new ≡ string_bytes out.old ++ (comma is_comma_due ++ text.now)) }
{
    push_comma(out, is_comma_due)?;
    out.push_str(text)
}

/// Appends a key that needs no escapes and `: `, after a comma if one is due.
#[inline(always)]
fn push_key(out: &mut String, is_comma_due: bool, key: &str) -> Result<(), AllocError>
    requires { position is_escaped key.now ≡ None }
    ensures { OnOk result (string_bytes out.new
        ≡ string_bytes out.old ++ (comma is_comma_due ++ (34 ∷ (escaped_text key.now ++ 34 ∷ 58 ∷ 32 ∷ [])))) }
{
    out.push_str(quote(is_comma_due))?;
    out.push_str(key)?;
    out.push_str("\": ")
}

impl JsonWriter {
    /// Creates a writer.
    pub fn new(alloc: Global) -> Self
        ensures { result ≡ empty_prefix }
    {
        JsonWriter {
            text: String::new(alloc),
            is_comma_due: false,
        }
    }

    /// Creates a writer with room for this many bytes.
    pub fn with_capacity(alloc: Global, bytes: usize) -> Result<Self, AllocError>
        ensures { IfOk result (λ it. it ≡ empty_prefix) }
    {
        Ok(JsonWriter {
            text: String::with_capacity(alloc, bytes)?,
            is_comma_due: false,
        })
    }

    /// Returns the text.
    pub fn into_text(self) -> String
        ensures { string_bytes result ≡ self.text }
    {
        self.text
    }

    /// The allocator of the text.
    pub fn allocator(&self) -> Global {
        *self.text.allocator()
    }

    /// Begins an object.
    #[inline(always)]
    pub fn begin_object(&mut self) -> Result<(), AllocError>
        ensures { OnOk result (self.new ≡ opened 123 self.old) }
    {
        push_after_comma(&mut self.text, self.is_comma_due, "{")?;
        self.is_comma_due = false;
        Ok(())
    }

    /// Ends an object.
    #[inline(always)]
    pub fn end_object(&mut self) -> Result<(), AllocError>
        ensures { OnOk result (self.new ≡ closed 125 self.old) }
    {
        self.text.push_str("}")?;
        self.is_comma_due = true;
        Ok(())
    }

    /// Begins a list.
    #[inline(always)]
    pub fn begin_list(&mut self) -> Result<(), AllocError>
        ensures { OnOk result (self.new ≡ opened 91 self.old) }
    {
        push_after_comma(&mut self.text, self.is_comma_due, "[")?;
        self.is_comma_due = false;
        Ok(())
    }

    /// Ends a list.
    #[inline(always)]
    pub fn end_list(&mut self) -> Result<(), AllocError>
        ensures { OnOk result (self.new ≡ closed 93 self.old) }
    {
        self.text.push_str("]")?;
        self.is_comma_due = true;
        Ok(())
    }

    /// Writes the key of the next value. It must need no escapes.
    #[inline(always)]
    pub fn key(&mut self, key: &str) -> Result<(), AllocError>
        requires { position is_escaped key.now ≡ None }
        ensures { OnOk result (self.new ≡ with_key key.now self.old) }
    {
        push_key(&mut self.text, self.is_comma_due, key)?;
        self.is_comma_due = false;
        Ok(())
    }

    /// Writes a string.
    pub fn string(&mut self, text: &str) -> Result<(), AllocError>
        ensures { OnOk result (self.new ≡ with_value (string text.now) self.old) }
    {
        push_comma(&mut self.text, self.is_comma_due)?;
        push_json_string(&mut self.text, text)?;
        self.is_comma_due = true;
        Ok(())
    }

    /// Writes a number.
    pub fn number(&mut self, n: usize) -> Result<(), AllocError>
        ensures { OnOk result (self.new ≡ with_value (number n) self.old) }
    {
        push_comma(&mut self.text, self.is_comma_due)?;
        push_number(&mut self.text, n)?;
        self.is_comma_due = true;
        Ok(())
    }

    /// Writes a value by its JSON text.
    pub fn value_text(&mut self, text: &str) -> Result<(), AllocError>
        ensures { OnOk result (self.new ≡ with_text text.now self.old) }
    {
        push_after_comma(&mut self.text, self.is_comma_due, text)?;
        self.is_comma_due = true;
        Ok(())
    }

    /// Writes the items that another writer wrote. The list has just begun.
    pub fn items(&mut self, items: &JsonWriter) -> Result<(), AllocError>
        ensures { OnOk result (self.new ≡ with_written items.now self.old) }
    {
        self.text.push_str(items.text.as_str())?;
        self.is_comma_due = items.is_comma_due;
        Ok(())
    }

    /// Writes a string member. The key must need no escapes.
    #[inline(always)]
    pub fn string_member(&mut self, key: &str, text: &str) -> Result<(), AllocError>
        requires { position is_escaped key.now ≡ None }
        ensures { OnOk result (self.new ≡ with_value (string text.now) (with_key key.now self.old)) }
    {
        self.key(key)?;
        self.string(text)
    }

    /// Writes a string member if there is a text. The key must need no escapes.
    #[inline(always)]
    pub fn optional_string_member(
        &mut self,
        key: &str,
        text: Option<&str>,
    ) -> Result<(), AllocError>
        requires { position is_escaped key.now ≡ None }
        ensures { OnOk result (self.new ≡ with_optional_text key.now (option_copied text.entry) self.old) }
    {
        match text {
            Some(text) => self.string_member(key, text),
            None => Ok(()),
        }
    }

    /// Writes a member whose value is a number. The key must need no escapes.
    #[inline(always)]
    pub fn number_member(&mut self, key: &str, n: usize) -> Result<(), AllocError>
        requires { position is_escaped key.now ≡ None }
        ensures { OnOk result (self.new ≡ with_value (number n) (with_key key.now self.old)) }
    {
        self.key(key)?;
        self.number(n)
    }
}
