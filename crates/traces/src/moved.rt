// The words of an image that are addresses of its data or of its stack.
//
// Globals lie in the data in the order of the text. So behind one more global of a page all data lie a page further on, and the words that differ
// then are those that are addresses of the data.

use crate::points::Point;
use cyc_image::{Image, load};
use cycc_driver::{CompileFault, compile};
use rv32_machine::CODE_BASE;
use std::alloc::{AllocError, Global};

/// The bytes of the further global.
const PAGE: u32 = 4096;

/// Where the data begin.
const DATA_BASE: u32 = 0x0020_0000;

/// The addresses of instructions that form an address of the stack, of those that form one of the data, and of words of the data that are one.
#[derive(Drop)]
pub struct Moved {
    pub stack: Vec<u32>,
    pub data: Vec<u32>,
    pub pointers: Vec<u32>,
}

/// How many times the letter a stands in a row at most.
fn longest_run(text: &[u8]) -> usize {
    let mut longest = 0usize;
    let mut run = 0usize;
    for byte in text {
        run = if *byte == b'a' {
            run.saturating_add(1)
        } else {
            0
        };
        longest = longest.max(run);
    }
    longest
}

/// The text behind a global of a page, whose name it doesn't have.
fn behind_global(alloc: Global, text: &[u8]) -> Result<Vec<u8>, AllocError> {
    let mut bytes = Vec::new(alloc);
    bytes.extend_from_slice(b"char a")?;
    for _ in 0..longest_run(text) {
        bytes.push(b'a')?;
    }
    bytes.extend_from_slice(b"[4096]; ")?;
    bytes.extend_from_slice(text)?;
    Ok(bytes)
}

/// The image of a text whose data lie a page further on; none where the text or its data are too large then.
fn further(alloc: Global, text: &[u8]) -> Result<Option<Image>, AllocError> {
    let text = behind_global(alloc, text)?;
    let bytes = match compile(alloc, &text, 1, 1) {
        Ok(bytes) => bytes,
        Err(CompileFault::Memory) => return Err(AllocError),
        Err(_) => return Ok(None),
    };
    match load(alloc, &bytes) {
        Ok(image) => Ok(Some(image)),
        Err(_) => Err(AllocError),
    }
}

/// The word that begins some bytes.
fn word_of(bytes: &[u8]) -> Option<u32> {
    let (word, _) = bytes.split_first_chunk::<4>()?;
    Some(u32::from_le_bytes(*word))
}

/// Whether a word is another one a page further on: of an instruction that forms an address the upper bits alone.
fn is_further(one: Option<u32>, other: Option<u32>) -> bool {
    match (one, other) {
        (Some(one), Some(other)) => other == one.wrapping_add(PAGE),
        _ => false,
    }
}

/// The addresses of the words that differ, of bytes from a base on; none where one of them differs in another way.
fn differing(
    alloc: Global,
    base: u32,
    here: &[u8],
    there: &[u8],
) -> Result<Option<Vec<u32>>, AllocError> {
    let mut addresses = Vec::new(alloc);
    if here.len() != there.len() {
        return Ok(None);
    }
    let mut address = base;
    for (one, other) in here.chunks_exact(4).zip(there.chunks_exact(4)) {
        let (one, other) = (word_of(one), word_of(other));
        if one != other {
            if !is_further(one, other) {
                return Ok(None);
            }
            addresses.push(address)?;
        }
        address = address.wrapping_add(4);
    }
    Ok(Some(addresses))
}

/// The addresses of the instructions that form an address of the stack: the first one of all, and that of each function whose frame is large.
fn of_stack(alloc: Global, points: &[Point]) -> Result<Vec<u32>, AllocError> {
    let mut addresses = vec![in alloc; CODE_BASE; 1]?;
    for point in points {
        if point.is_large_test() {
            addresses.push(point.start())?;
        }
    }
    Ok(addresses)
}

impl Moved {
    /// Those of the image of a text, whose code has these points. None where they can't be told: where the text or its data are almost too large.
    pub fn of(
        alloc: Global,
        text: &[u8],
        image: &Image,
        points: &[Point],
    ) -> Result<Option<Moved>, AllocError> {
        let Some(further) = further(alloc, text)? else {
            return Ok(None);
        };
        let statics = further.statics().get(PAGE as usize..).unwrap_or(&[]);
        let data = differing(alloc, CODE_BASE, image.code(), further.code())?;
        let pointers = differing(alloc, DATA_BASE, image.statics(), statics)?;
        let stack = of_stack(alloc, points)?;
        match (data, pointers) {
            (Some(data), Some(pointers)) => Ok(Some(Moved {
                stack,
                data,
                pointers,
            })),
            _ => Ok(None),
        }
    }
}
