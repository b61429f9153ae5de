// An image byte by byte, and the parts that one may have.

use crate::texts::{number_of, parted};
use cyc_image::{Parts, write};
use std::alloc::{AllocError, Global};
use std::test::Fail;

// three words of code, no data, one page, and a stack of 256 pages
const IMAGE: [u8; 40] = [
    0x43, 0x59, 0x49, 0x31, 2, 0, 0, 0, 0, 0, 0, 0, 12, 0, 0, 0, 0, 0, 0, 0, 1, 0, 0, 0, 0, 1, 0,
    0, 0x93, 0x08, 0, 0, 0x13, 0x05, 0x70, 0, 0x73, 0, 0, 0,
];

// the same code, which begins at its second word, with three bytes of data, 4,096 pages, and a stack of one
const WITH_DATA: [u8; 43] = [
    0x43, 0x59, 0x49, 0x31, 2, 0, 0, 0, 4, 0, 0, 0, 12, 0, 0, 0, 3, 0, 0, 0, 0, 0x10, 0, 0, 1, 0,
    0, 0, 0x93, 0x08, 0, 0, 0x13, 0x05, 0x70, 0, 0x73, 0, 0, 0, 7, 8, 9,
];

/// Whether the code with an entry, data and pages of the arena and of the stack is written so.
fn is_written(
    alloc: Global,
    entry: u32,
    statics: &[u8],
    (pages, stack_pages): (u32, u32),
    wanted: &[u8],
) -> Result<bool, AllocError> {
    let parts = Parts {
        entry,
        code: &IMAGE[28..],
        statics,
        pages,
        stack_pages,
    };
    if parts.fits() {
        Ok(write(alloc, &parts)?.as_slice() == wanted)
    } else {
        Ok(false)
    }
}

#[test]
fn images_are_written(rt: HostRuntime) -> Result<(), Fail> {
    let are_right = is_written(rt.alloc(), 0, b"", (1, 256), IMAGE.as_slice())?
        && is_written(
            rt.alloc(),
            4,
            b"\x07\x08\x09",
            (4096, 1),
            WITH_DATA.as_slice(),
        )?;
    assert!(rt; are_right);
    Ok(())
}

/// Whether parts of these lengths fit, where code and data are taken from the start of these bytes.
fn do_fit(
    zeros: &[u8],
    entry: u32,
    (code, statics): (u32, u32),
    (pages, stack_pages): (u32, u32),
) -> Option<bool> {
    let parts = Parts {
        entry,
        code: zeros.get(..code as usize)?,
        statics: zeros.get(..statics as usize)?,
        pages,
        stack_pages,
    };
    Some(parts.fits())
}

/// Whether parts fit or don't as a row says. It has the entry, the bytes of the code and of the data, and the pages of the arena and of the stack.
pub fn are_limits(alloc: Global, row: &str) -> Result<bool, AllocError> {
    let (wanted, rest) = parted(row);
    let (entry, rest) = parted(rest);
    let (code, rest) = parted(rest);
    let (statics, rest) = parted(rest);
    let (pages, stack_pages) = parted(rest);
    let zeros = vec![in alloc; 0u8; 1_048_580]?;
    let lengths = (number_of(code), number_of(statics));
    let counts = (number_of(pages), number_of(stack_pages));
    let found = do_fit(&zeros, number_of(entry), lengths, counts);
    Ok(found == Some(wanted == "fit"))
}

/// The limits of the parts of an image.
pub const LIMITS: &str = "\
fit 0 4 0 1 1
unfit 0 0 0 1 4096
unfit 0 3 0 1 1
unfit 0 6 0 1 4096
fit 0 1048576 1048576 4096 1
fit 1048572 1048576 0 1 4096
unfit 0 1048580 0 1 1
unfit 0 4 1048577 1 4096
unfit 0 4 0 0 1
unfit 0 4 0 4097 4096
fit 4 8 0 1 1
unfit 2 8 0 1 4096
unfit 4 4 0 1 1
unfit 4294967295 4 0 1 4096
fit 0 4 0 1 256
unfit 0 4 0 1 0
unfit 0 4 0 1 4097
unfit 0 4 0 1 4294967295";
