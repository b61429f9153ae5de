// Messages that come in.

ghost use Rattle.std.specs.Prelude.{◌≡◌, ◌↔◌, codes, option_map, string_bytes, IfOk};
ghost use Rattle.serde_json.specs.Find.{get};
ghost use Rattle.serde_json.specs.View.{view};
ghost use Rattle.editor_protocol.specs.Kinds.{IsReadAs, kind_read, kind_of, method_in, is_id};

use crate::messages::Code;
use serde_json::{Category, Value};
use std::alloc::{AllocError, Global};

/// A message that came in. The body is the whole value, in which the parameters are.
#[derive(Drop)]
pub enum Incoming {
    Request {
        id: Value,
        method: String,
        body: Value,
    },
    Notification {
        method: String,
        body: Value,
    },
    /// Neither, and why.
    Invalid(Code),
}

/// Whether a value may be an id: a number or a string.
fn is_id(value: &Value) -> bool
    ensures { result ≡ is_id (view value.now) }
{
    matches!(value, Value::Number(_) | Value::String(_))
}

/// The method of a message.
fn method_of(alloc: Global, body: &Value) -> Result<Option<String>, AllocError>
    ensures { IfOk result (λ method. option_map string_bytes method ≡ method_in (view body.now)) }
{
    match body.get("method").and_then(Value::as_str) {
        Some(method) => Ok(Some(String::from_str(alloc, method)?)),
        None => Ok(None),
    }
}

/// The id of a message.
fn id_of(body: &Value) -> Result<Option<Value>, AllocError>
    ensures { IfOk result (λ id. option_map view id ≡ get (codes "id") (view body.now)) }
{
    match body.get("id") {
        Some(id) => Ok(Some(id.clone()?)),
        None => Ok(None),
    }
}

/// What a value of JSON is.
fn told(alloc: Global, body: Value) -> Result<Incoming, AllocError>
    ensures { IfOk result (λ incoming. kind_read incoming ≡ kind_of (view body)) }
{
    let Some(method) = method_of(alloc, &body)? else {
        return Ok(Incoming::Invalid(Code::InvalidRequest));
    };
    match id_of(&body)? {
        Some(id) if is_id(&id) => Ok(Incoming::Request { id, method, body }),
        Some(_) => Ok(Incoming::Invalid(Code::InvalidRequest)),
        None => Ok(Incoming::Notification { method, body }),
    }
}

/// What a message is. Fails only where no host memory is left.
pub fn read(alloc: Global, message: &[u8]) -> Result<Incoming, AllocError>
    ensures { IfOk result (λ incoming. IsReadAs message.now (kind_read incoming)) }
{
    match Value::from_slice(alloc, message) {
        Ok(body) => told(alloc, body),
        Err(error) => match error.classify() {
            Category::Memory => Err(AllocError),
            _ => Ok(Incoming::Invalid(Code::ParseError)),
        },
    }
}
