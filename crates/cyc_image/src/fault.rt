// Why bytes are no image.

ghost use Rattle.std.specs.Prelude.{◌≡◌, Some};
ghost use Rattle.cyc_image.specs.Fault.{image_fault_name};
ghost use Rattle.cyc_image.specs.declared.fault.ImageFault.TheVariants.{Memory};

use std::alloc::AllocError;
use std::error::Error;
use std::fmt;

/// Why `load` refuses bytes, in the order in which it looks.
#[derive(Clone, Copy, Debug)]
pub enum ImageFault {
    /// Under 24 bytes, or fewer than the header and what it speaks of: the header is 28 bytes long
    /// where the version is 2, and else 24.
    Short,
    /// The first bytes are not `CYI1`.
    Magic,
    /// The version is neither 1 nor 2.
    Version,
    /// The code's length is 0, over 1,048,576 or no multiple of 4, the data's is over 1,048,576, the
    /// pages are not 1 to 4,096, or those of the stack in version 2.
    Limit,
    /// The entry is no multiple of 4, or not below the code's length.
    Entry,
    /// Bytes stand after the data.
    Trailing,
    /// No host memory is left.
    Memory,
}

/// Writes the name: `Short`, `Magic`, `Version`, `Limit`, `Entry`, `Trailing` or `Memory`.
impl fmt::Display for ImageFault {
    ghost output = { λ fault. Some (image_fault_name fault) };

    fn fmt<W: fmt::Write>(&self, f: &mut fmt::Formatter<W>) -> fmt::Result {
        f.write_str(name_of(*self))
    }
}

/// The name of a fault.
fn name_of(fault: ImageFault) -> &'static str
    ensures { result.now ≡ image_fault_name fault }
{
    match fault {
        ImageFault::Short => "Short",
        ImageFault::Magic => "Magic",
        ImageFault::Version => "Version",
        ImageFault::Limit => "Limit",
        ImageFault::Entry => "Entry",
        ImageFault::Trailing => "Trailing",
        ImageFault::Memory => "Memory",
    }
}

impl Error for ImageFault {}

/// `Memory`.
impl From<AllocError> for ImageFault {
    ghost from_gives = { λ _ fault. fault ≡ Memory };

    fn from(_error: AllocError) -> ImageFault {
        ImageFault::Memory
    }
}
