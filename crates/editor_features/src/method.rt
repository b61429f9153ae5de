// The requests of an editor.

/// The requests that are known.
#[derive(Clone, Copy)]
pub enum Method {
    Initialize,
    Shutdown,
    Symbols,
    Folds,
    Layout,
    Hover,
    Definition,
    References,
    Rename,
    Completion,
    Actions,
    Signature,
}
