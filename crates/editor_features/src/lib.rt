//! What an editor is told of texts: their faults with their reasons and warnings, and what is answered to each of its requests.
//!
//! `found_in` answers a request about texts that are open, and `check_due` tells the faults of those that changed. `Texts` are those with the files that
//! their sources name. Nothing of the rules is written here again: what is told are the checker's own judgements. Stands on `editor_protocol`,
//! `token_names`, `cyc_format`, `reasons`, `warnings` and `cycc_driver`.
//!
//! Each function that answers a `Result` fails only where no host memory is left.
#![tactic(auto)]

mod actions;
mod changes;
mod completion;
mod documents;
mod faults;
mod keys;
mod layouts;
mod method;
mod named_parts;
mod names;
mod outlines;
mod pages;
mod requests;
mod signatures;
mod sources;
mod told;
mod warned;

pub use changes::changed;
pub use documents::{
    Document, File, copies, document_of, is_later, uri_in, version_in, with_text, without_file,
    without_text,
};
pub use faults::faultless;
pub use keys::key_of;
pub use method::Method;
pub use requests::{found_in, relates_behind};
pub use sources::Texts;
pub use told::{check_due, closed, make_due};
