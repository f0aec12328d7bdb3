//! Parses JSON. Objects take no more memory than their members need.

ghost use Rattle.std.specs.Prelude.{◌≡◌, ◌<◌, length, Some, None, IfOk, OnOk};
ghost use Rattle.json.specs.Json.{value, items, members};
ghost use Rattle.json.specs.Value.{value_view, items_view, members_view};

use crate::error::{BuildError, BuildResult};
use json::{Reader, Token, Value};
use std::alloc::{AllocError, Global};

/// Shrinks a list to its length.
fn exact_list<T: Drop>(alloc: Global, list: Vec<T>) -> Result<Vec<T>, AllocError>
    ensures { IfOk result (λ made. made.items ≡ list.items) }
{
    if list.len() == list.capacity() {
        return Ok(list);
    }
    let mut list = list;
    let mut made = Vec::with_capacity(alloc, list.len())?;
    made.append(&mut list)?;
    Ok(made)
}

/// Parses the next value. Arrays and objects may be nested `depth` deep.
#[cycle(read)]
#[inline(always)]
pub(crate) fn read_value<'a>(
    alloc: Global,
    reader: &mut Reader<'a>,
    depth: usize,
) -> BuildResult<Value<'a>>
    ensures ok { IfOk result (λ v. value depth reader.old ≡ Some (value_view v, reader.new)) }
    ensures shorter { OnOk result (length reader.new < length reader.old) }
    ensures description { (result ≡ Err BuildError.Description) → value depth reader.old ≡ None }
{
    let Some(token) = reader.next() else {
        return Err(BuildError::Description);
    };
    match token {
        Token::String(text) => Ok(Value::String(text)),
        Token::Number(text) => Ok(Value::Number(text)),
        Token::Bool(b) => Ok(Value::Bool(b)),
        Token::Null => Ok(Value::Null),
        Token::EndObject | Token::EndArray | Token::Key(_) | Token::Bad => {
            Err(BuildError::Description)
        }
        Token::BeginArray => {
            if depth == 0 {
                return Err(BuildError::Description);
            }
            Ok(Value::Array(read_items(alloc, reader, depth - 1)?))
        }
        Token::BeginObject => {
            if depth == 0 {
                return Err(BuildError::Description);
            }
            Ok(Value::Object(read_members(alloc, reader, depth - 1)?))
        }
    }
}

#[cycle(read)]
#[inline(never)]
fn read_items<'a>(
    alloc: Global,
    reader: &mut Reader<'a>,
    depth: usize,
) -> BuildResult<Vec<Value<'a>>>
    ensures ok { IfOk result
        (λ v. items (value depth) (length reader.old) reader.old ≡ Some (items_view v.items, reader.new)) }
    ensures shorter { OnOk result (length reader.new < length reader.old) }
    ensures description { (result ≡ Err BuildError.Description) →
        items (value depth) (length reader.old) reader.old ≡ None }
{
    let mut found = Vec::new(alloc);
    while !reader.take_end_array() {
        let item = read_value(alloc, reader, depth)?;
        if found.push(item).is_err() {
            return Err(BuildError::Memory);
        }
    }
    Ok(found)
}

#[cycle(read)]
#[inline(never)]
fn read_members<'a>(
    alloc: Global,
    reader: &mut Reader<'a>,
    depth: usize,
) -> BuildResult<Vec<(&'a str, Value<'a>)>>
    ensures ok { IfOk result
        (λ v. members (value depth) (length reader.old) reader.old ≡ Some (members_view v.items, reader.new)) }
    ensures shorter { OnOk result (length reader.new < length reader.old) }
    ensures description { (result ≡ Err BuildError.Description) →
        members (value depth) (length reader.old) reader.old ≡ None }
{
    let mut found = Vec::new(alloc);
    while let Some(key) = reader.next_key()? {
        let member = read_value(alloc, reader, depth)?;
        if found.push((key, member)).is_err() {
            return Err(BuildError::Memory);
        }
    }
    match exact_list(alloc, found) {
        Ok(made) => Ok(made),
        Err(_) => Err(BuildError::Memory),
    }
}
