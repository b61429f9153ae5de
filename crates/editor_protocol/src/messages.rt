// Messages that go out.

ghost use Rattle.std.specs.Prelude.{◌≡◌, ◌++◌, codes, decimal, length, string_bytes, IfOk};

use crate::json_text::JsonText;
use serde_json::Value;
use std::alloc::{AllocError, Global};

/// Why a request is refused, by the numbers of JSON-RPC and of the language server protocol.
#[derive(Clone, Copy)]
pub enum Code {
    /// The bytes are no JSON.
    ParseError,
    /// The value is no request, or comes behind the end.
    InvalidRequest,
    MethodNotFound,
    InvalidParams,
    /// It comes before the beginning.
    ServerNotInitialized,
}

impl Code {
    /// The number.
    fn number(self) -> i64 {
        match self {
            Code::ParseError => -32700,
            Code::InvalidRequest => -32600,
            Code::MethodNotFound => -32601,
            Code::InvalidParams => -32602,
            Code::ServerNotInitialized => -32002,
        }
    }

    /// What it means.
    fn words(self) -> &'static str {
        match self {
            Code::ParseError => "the message is no JSON",
            Code::InvalidRequest => "the message is no request that may be made now",
            Code::MethodNotFound => "the method is unknown",
            Code::InvalidParams => "the parameters are not those of the method",
            Code::ServerNotInitialized => "the server is not initialized",
        }
    }
}

/// What a request is answered: a value, as its text of JSON, or why it is refused.
#[derive(Drop)]
pub enum Outcome {
    Found(Vec<u8>),
    Refused(Code),
}

/// A message that goes out. The parameters of a notification are a text of JSON.
#[derive(Drop)]
pub enum Message {
    Response {
        id: Value,
        outcome: Outcome,
    },
    Notification {
        method: &'static str,
        params: Vec<u8>,
    },
}

/// The text of a response.
fn response_text(alloc: Global, id: &Value, outcome: &Outcome) -> Result<Vec<u8>, AllocError> {
    let mut text = JsonText::new(alloc);
    text.raw("{\"jsonrpc\":\"2.0\",\"id\":")?;
    let id = id.to_string(alloc)?;
    text.raw(id.as_str())?;
    match outcome {
        Outcome::Found(value) => {
            text.raw(",\"result\":")?;
            text.value(value)?;
        }
        Outcome::Refused(code) => {
            text.raw(",\"error\":{\"code\":")?;
            text.number(code.number())?;
            text.raw(",\"message\":\"")?;
            text.raw(code.words())?;
            text.raw("\"}")?;
        }
    }
    text.raw("}")?;
    Ok(text.into_bytes())
}

/// The text of a notification.
fn notification_text(alloc: Global, method: &str, params: &[u8]) -> Result<Vec<u8>, AllocError> {
    let mut text = JsonText::new(alloc);
    text.raw("{\"jsonrpc\":\"2.0\",\"method\":\"")?;
    text.raw(method)?;
    text.raw("\",\"params\":")?;
    text.value(params)?;
    text.raw("}")?;
    Ok(text.into_bytes())
}

/// A body behind its header.
fn framed(alloc: Global, body: &[u8]) -> Result<Vec<u8>, AllocError>
    ensures { IfOk result (λ frame. frame.items
        ≡ codes "Content-Length: " ++ decimal (length body.now) ++ codes "\r\n\r\n" ++ body.now) }
{
    let length = body.len();
    let header = format!(in alloc; "Content-Length: {length}\r\n\r\n")?;
    let mut frame = Vec::from_slice(alloc, header.as_bytes())?;
    frame.extend_from_slice(body)?;
    Ok(frame)
}

impl Message {
    /// The text, behind a header with its length.
    pub fn framed(&self, alloc: Global) -> Result<Vec<u8>, AllocError> {
        let text = match self {
            Message::Response { id, outcome } => response_text(alloc, id, outcome)?,
            Message::Notification { method, params } => notification_text(alloc, method, params)?,
        };
        framed(alloc, text.as_slice())
    }
}
