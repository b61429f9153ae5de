// Notifications of the faults of texts.

ghost use Rattle.std.specs.Prelude.{All, IfOk};
ghost use Rattle.language_server.specs.Messages.{IsNotification};

use editor_protocol::Message;
use std::alloc::{AllocError, Global};

/// The notifications with these parameters.
#[tactic(auto, using(crate::proofs::Growing::one_more))]
pub(crate) fn notifications(alloc: Global, told: &[Vec<u8>]) -> Result<Vec<Message>, AllocError>
    ensures { IfOk result (λ messages. All IsNotification messages.items) }
{
    let mut messages = Vec::new(alloc);
    for params in told {
        messages.push(Message::Notification {
            method: "textDocument/publishDiagnostics",
            params: Vec::from_slice(alloc, params.as_slice())?,
        })?;
    }
    Ok(messages)
}
