// From bytes to an image.

ghost use Rattle.std.specs.Prelude.{◌≡◌, ◌⊎◌, ◌↔◌, IfOk};
ghost use Rattle.cyc_image.specs.Format.{Contents, IsImage, IsShort, RefusedAsEntry, RefusedAsLimit, RefusedAsMagic, RefusedAsTrailing, RefusedAsVersion};
ghost use Rattle.cyc_image.specs.Format.{parts_of};
ghost use Rattle.cyc_image.specs.Refusal.{IsAccepted};

use crate::checks::refusal;
use crate::fault::ImageFault;
use crate::image::Image;
use crate::layout::{CODE_LENGTH_AT, ENTRY_AT, PAGES_AT, field_at};
use crate::version::{block_limit_of, header_length_of, stack_pages_of};
use std::alloc::{AllocError, Global};

/// The image that the bytes are.
///
/// `Short`, `Magic`, `Version`, `Limit`, `Entry` and `Trailing` come where the bytes are no image,
/// each exactly where none before it applies. `Memory` comes where they are one, and no memory is
/// left for it.
pub fn load(alloc: Global, bytes: &[u8]) -> Result<Image, ImageFault>
    // what is accepted is an image of the parts
    ensures found { IfOk result (λ image. IsImage bytes.now image) }

    // an image of some parts is accepted with those, unless memory runs out
    ensures all { (parts : Contents) → IsImage bytes.now parts →
        (result ≡ Ok parts) ⊎ (result ≡ Err ImageFault.Memory) }

    // each refusal comes exactly where it is the first that applies
    ensures short { (result ≡ Err ImageFault.Short) ↔ IsShort bytes.now }
    ensures magic { (result ≡ Err ImageFault.Magic) ↔ RefusedAsMagic bytes.now }
    ensures version { (result ≡ Err ImageFault.Version) ↔ RefusedAsVersion bytes.now }
    ensures limit { (result ≡ Err ImageFault.Limit) ↔ RefusedAsLimit bytes.now }
    ensures entry { (result ≡ Err ImageFault.Entry) ↔ RefusedAsEntry bytes.now }
    ensures trailing { (result ≡ Err ImageFault.Trailing) ↔ RefusedAsTrailing bytes.now }
{
    match refusal(bytes) {
        Some(fault) => Err(fault),
        None => Ok(image_of(alloc, bytes)?),
    }
}

/// The parts of the bytes, copied.
#[tactic(auto, using(crate::proofs::Images::accepted_version))]
fn image_of(alloc: Global, bytes: &[u8]) -> Result<Image, AllocError>
    requires { IsAccepted bytes.now }
    ensures { IfOk result (λ image. image ≡ parts_of bytes.now) }
{
    let code_start = header_length_of(bytes);
    let code_end = code_start + field_at(bytes, CODE_LENGTH_AT) as usize;
    let mut code = Vec::new(alloc);
    code.extend_from_slice(&bytes[code_start..code_end])?;
    let mut statics = Vec::new(alloc);
    statics.extend_from_slice(&bytes[code_end..])?;
    Ok(Image {
        entry: field_at(bytes, ENTRY_AT),
        code,
        statics,
        pages: field_at(bytes, PAGES_AT),
        stack_pages: stack_pages_of(bytes),
        block_limit: block_limit_of(bytes),
    })
}
