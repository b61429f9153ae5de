// What requests are answered.

use crate::actions::actions;
use crate::changes::position_of;
use crate::completion::completions;
use crate::documents::{Document, document_of, uri_in};
use crate::layouts::layout;
use crate::method::Method;
use crate::names::{definition, hover, may_be_named, references, renamed};
use crate::outlines::{folding, symbols};
use crate::pages::Page;
use crate::signatures::signature;
use crate::sources::{Source, Texts};
use editor_protocol::{Code, offset_at};
use serde_json::Value;
use std::alloc::{AllocError, Global};
use token_names::pieces;

/// What the server can do.
const CAPABILITIES: &str =
    r#"{"capabilities":{"positionEncoding":"utf-16","textDocumentSync":{"openClose":true,"change":2,"save":true},"hoverProvider":true,"definitionProvider":true,"referencesProvider":true,"renameProvider":true,"documentSymbolProvider":true,"foldingRangeProvider":true,"documentFormattingProvider":true,"codeActionProvider":{"codeActionKinds":["quickfix"]},"completionProvider":{"triggerCharacters":[".",">","`"]},"signatureHelpProvider":{"triggerCharacters":["(",","]}},"serverInfo":{"name":"cycc"}}"#;

/// A text of JSON as bytes of its own.
fn written(alloc: Global, text: &str) -> Result<Option<Vec<u8>>, AllocError> {
    Ok(Some(Vec::from_slice(alloc, text.as_bytes())?))
}

/// The offset in a source that a message asks about.
fn offset_in(body: &Value, source: &Source) -> Option<usize> {
    let position = body.pointer("/params/position").and_then(position_of)?;
    let within = offset_at(source.text_at(source.own), position);
    Some(source.begin_at(source.own).saturating_add(within))
}

/// Whether the declaration is asked for among the uses.
fn asks_declaration(body: &Value) -> bool {
    body.pointer("/params/context/includeDeclaration")
        .and_then(Value::as_bool)
        .unwrap_or(true)
}

/// Whether a client says that it takes the places that have to do with a fault.
fn takes_places(body: &Value) -> bool {
    body.pointer("/params/capabilities/textDocument/publishDiagnostics/relatedInformation")
        .and_then(Value::as_bool)
        .unwrap_or(false)
}

/// Whether the client takes these places, behind a request that was admitted or not: the first one says it.
pub fn relates_behind(relates: bool, admitted: Result<Method, Code>, body: &Value) -> bool {
    match admitted {
        Ok(Method::Initialize) => takes_places(body),
        _ => relates,
    }
}

/// The answer to a new name.
fn renamed_in(page: &Page<'_>, offset: usize, body: &Value) -> Result<Option<Vec<u8>>, AllocError> {
    match body.pointer("/params/newName").and_then(Value::as_str) {
        Some(name) if may_be_named(page, offset, name.as_bytes()) => {
            Ok(Some(renamed(page, offset, name.as_bytes())?))
        }
        _ => Ok(None),
    }
}

/// The answer to a request about a position.
fn found_at(page: &Page<'_>, method: Method, body: &Value) -> Result<Option<Vec<u8>>, AllocError> {
    let Some(offset) = offset_in(body, page.source) else {
        return Ok(None);
    };
    match method {
        Method::Definition => Ok(Some(definition(page, offset)?)),
        Method::References => Ok(Some(references(page, offset, asks_declaration(body))?)),
        Method::Completion => Ok(Some(completions(page, offset)?)),
        Method::Rename => renamed_in(page, offset, body),
        Method::Signature => Ok(Some(signature(page, offset)?)),
        _ => Ok(Some(hover(page, offset)?)),
    }
}

/// The answer to a request about a text.
fn found_on(page: &Page<'_>, method: Method, body: &Value) -> Result<Option<Vec<u8>>, AllocError> {
    match method {
        Method::Symbols => Ok(Some(symbols(page)?)),
        Method::Folds => Ok(Some(folding(page)?)),
        Method::Layout => Ok(Some(layout(page)?)),
        Method::Actions => actions(page, body),
        _ => found_at(page, method, body),
    }
}

/// What a request looks at: the text alone, or all of its source.
fn source_for(texts: Texts<'_>, document: &Document, method: Method) -> Result<Source, AllocError> {
    match method {
        Method::Symbols | Method::Folds | Method::Layout => Source::alone(texts.alloc, document),
        _ => texts.source_of(document),
    }
}

/// The answer to a request about one of these texts; none, where it isn't among them.
fn found_among(
    texts: Texts<'_>,
    method: Method,
    body: &Value,
) -> Result<Option<Vec<u8>>, AllocError> {
    let Some(uri) = uri_in(body) else {
        return Ok(None);
    };
    let Some(document) = document_of(texts.open, uri) else {
        return Ok(None);
    };
    let source = source_for(texts, document, method)?;
    let tokens = pieces(texts.alloc, source.text.as_slice())?;
    let page = Page {
        alloc: texts.alloc,
        document,
        source: &source,
        tokens: tokens.as_slice(),
    };
    found_on(&page, method, body)
}

/// The answer to a request, a text of JSON; none, where its parameters are wrong. Fails only where no host memory is left.
pub fn found_in(
    texts: Texts<'_>,
    method: Method,
    body: &Value,
) -> Result<Option<Vec<u8>>, AllocError> {
    match method {
        Method::Initialize => written(texts.alloc, CAPABILITIES),
        Method::Shutdown => written(texts.alloc, "null"),
        _ => found_among(texts, method, body),
    }
}
