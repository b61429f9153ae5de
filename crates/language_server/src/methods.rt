// Which requests there are, and when they may be made.

ghost use Rattle.std.specs.Prelude.{◌≡◌, map};
ghost use Rattle.language_server.specs.Methods.{find_method, methods, admission, phase_behind, ended, phase_told};
ghost use Rattle.cyc_lexer.specs.Reading.{same};

use editor_features::Method;
use editor_protocol::Code;

/// The requests, by their names.
static METHODS: [(Method, &[u8]); 12] = [
    (Method::Initialize, b"initialize"),
    (Method::Shutdown, b"shutdown"),
    (Method::Symbols, b"textDocument/documentSymbol"),
    (Method::Folds, b"textDocument/foldingRange"),
    (Method::Layout, b"textDocument/formatting"),
    (Method::Hover, b"textDocument/hover"),
    (Method::Definition, b"textDocument/definition"),
    (Method::References, b"textDocument/references"),
    (Method::Rename, b"textDocument/rename"),
    (Method::Completion, b"textDocument/completion"),
    (Method::Actions, b"textDocument/codeAction"),
    (Method::Signature, b"textDocument/signatureHelp"),
];

/// The notification that ends a session.
const EXIT: &[u8] = b"exit";

/// How far a session is.
#[derive(Clone, Copy)]
pub enum Phase {
    /// Nothing was asked for.
    Fresh,
    /// It is initialized.
    Ready,
    /// It was asked to end.
    Shut,
    /// It has ended, as was asked for before or not.
    Ended { as_asked: bool },
}

/// Whether these are the same bytes.
fn are_same(bytes: &[u8], others: &[u8]) -> bool
    ensures { result ≡ same bytes.now others.now }
{
    bytes == others
}

/// The first of these requests of a name.
fn find_method(methods: &[(Method, &[u8])], name: &[u8]) -> Option<Method>
    ensures { result ≡ find_method (map (λ e. (e.0, e.1.now)) methods.now) name.now }
{
    for (method, spelled) in methods {
        if are_same(name, spelled) {
            return Some(*method);
        }
    }
    None
}

/// The request of a name.
pub(crate) fn method_of(name: &str) -> Option<Method>
    ensures { result ≡ find_method methods name.now }
{
    find_method(&METHODS, name.as_bytes())
}

/// Whether a request may be made now, or why not: the first one initializes the server, which is done once.
pub(crate) fn admission(phase: Phase, method: Option<Method>) -> Result<Method, Code>
    ensures { result ≡ admission phase method }
{
    match (phase, method) {
        (Phase::Fresh, Some(Method::Initialize)) => Ok(Method::Initialize),
        (Phase::Fresh, _) => Err(Code::ServerNotInitialized),
        (Phase::Ready, Some(Method::Initialize)) => Err(Code::InvalidRequest),
        (Phase::Ready, Some(method)) => Ok(method),
        (Phase::Ready, None) => Err(Code::MethodNotFound),
        (Phase::Shut | Phase::Ended { .. }, _) => Err(Code::InvalidRequest),
    }
}

/// How far a session is behind a request that was admitted or not.
pub(crate) fn phase_behind(phase: Phase, admitted: Result<Method, Code>) -> Phase
    ensures { result ≡ phase_behind phase admitted }
{
    match admitted {
        Ok(Method::Initialize) => Phase::Ready,
        Ok(Method::Shutdown) => Phase::Shut,
        _ => phase,
    }
}

/// How far a session is that ends.
fn ended(phase: Phase) -> Phase
    ensures { result ≡ ended phase }
{
    let as_asked = matches!(phase, Phase::Shut);
    Phase::Ended { as_asked }
}

/// How far a session is behind a notification.
pub(crate) fn phase_told(phase: Phase, name: &str) -> Phase
    ensures { result ≡ phase_told phase name.now }
{
    if are_same(name.as_bytes(), EXIT) {
        ended(phase)
    } else {
        phase
    }
}
