// Why a run stops early.

ghost use Rattle.std.specs.Prelude.{◌≡◌, Some};
ghost use Rattle.cyc_words.specs.Faults.{kind_name, machine_fault_name};

use std::fmt;

/// What a checked operation of the source raises.
#[derive(Clone, Copy, Debug)]
pub enum Kind {
    /// A null pointer was used.
    NullException,
    /// An index was out of its array's bounds.
    ArrayBounds,
}

/// Writes the name: `Null_Exception` or `Array_bounds`.
impl fmt::Display for Kind {
    ghost output = { λ kind. Some (kind_name kind) };

    fn fmt<W: fmt::Write>(&self, f: &mut fmt::Formatter<W>) -> fmt::Result {
        f.write_str(name_of_kind(*self))
    }
}

/// The name of what is raised.
fn name_of_kind(kind: Kind) -> &'static str
    ensures { result.now ≡ kind_name kind }
{
    match kind {
        Kind::NullException => "Null_Exception",
        Kind::ArrayBounds => "Array_bounds",
    }
}

/// Why the machine can't go on.
#[derive(Clone, Copy, Debug)]
pub enum MachineFault {
    /// The word is no instruction.
    Illegal,
    /// An access leaves its area, or a fetch the code.
    Access,
    /// An address is no multiple of the access's size, or a jump's target no multiple of 4.
    Misaligned,
    /// EBREAK.
    Break,
    /// An ECALL with an unknown number or with arguments out of order.
    BadCall,
}

/// Writes the name: `Illegal`, `Access`, `Misaligned`, `Break` or `BadCall`.
impl fmt::Display for MachineFault {
    ghost output = { λ fault. Some (machine_fault_name fault) };

    fn fmt<W: fmt::Write>(&self, f: &mut fmt::Formatter<W>) -> fmt::Result {
        f.write_str(name_of_fault(*self))
    }
}

/// The name of a fault.
fn name_of_fault(fault: MachineFault) -> &'static str
    ensures { result.now ≡ machine_fault_name fault }
{
    match fault {
        MachineFault::Illegal => "Illegal",
        MachineFault::Access => "Access",
        MachineFault::Misaligned => "Misaligned",
        MachineFault::Break => "Break",
        MachineFault::BadCall => "BadCall",
    }
}
