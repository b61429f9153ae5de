//! The image format: writing and loading.
//!
//! `write` gives the bytes of an image's parts, of version 2, and `load` accepts exactly the bytes
//! that are an image of some parts, of version 1 or 2, within the limits, and gives those parts.
//! Each refusal comes exactly where it is the first that applies. `one_text` and `one_meaning` are
//! laws of the format, which is in specs/Format.antt. Stands on std, and on `byteorder` for the
//! fields.
#![tactic(auto)]

mod checks;
mod fault;
mod image;
mod laws;
mod layout;
mod loading;
mod parts;
mod version;

pub use fault::ImageFault;
pub use image::Image;
pub use laws::{one_meaning, one_text};
pub use layout::{
    BLOCK_LIMIT, CODE_LIMIT, DATA_LIMIT, HEADER_LENGTH, PAGE_LIMIT, STACK_PAGE_LIMIT,
};
pub use loading::load;
pub use parts::{Parts, write};
