// The text in the one layout.

use crate::pages::{Page, Span, push_range};
use cyc_format::format;
use cyc_lexer::LexFault;
use editor_protocol::JsonText;
use std::alloc::AllocError;

/// Adds the edit that gives a text in place of all of the old one.
fn push_whole(json: &mut JsonText, page: &Page<'_>, new: &[u8]) -> Result<(), AllocError> {
    let end = u32::try_from(page.source.text.len()).unwrap_or(u32::MAX);
    json.raw("{\"range\":")?;
    push_range(json, page.source, Span { begin: 0, end })?;
    json.raw(",\"newText\":")?;
    json.string(new)?;
    json.raw("}")
}

/// The edits that lay a text out: one of all of it, or none where it is laid out already or has what is no token.
pub(crate) fn layout(page: &Page<'_>) -> Result<Vec<u8>, AllocError> {
    let text = page.source.text.as_slice();
    let mut json = JsonText::new(page.alloc);
    json.raw("[")?;
    match format(page.alloc, text) {
        Ok(new) => {
            if new.as_slice() != text {
                push_whole(&mut json, page, new.as_slice())?;
            }
        }
        Err(LexFault::Lex(_)) => {}
        Err(LexFault::Memory) => return Err(AllocError),
    }
    json.raw("]")?;
    Ok(json.into_bytes())
}
