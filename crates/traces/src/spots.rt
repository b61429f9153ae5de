// Where the locals of functions live: in registers, or in their functions' frames.
//
// In a frame lie the return address, what is passed to callees, the temporaries, the registers that are saved, the temporary objects, and then the locals of
// blocks. Those of a block lie behind those of the blocks around it, each at a multiple of 4, and one with a register takes no bytes.

use cyc_core::{Cell, Function, Local, Statement};
use rv32_select::Labelled;
use std::alloc::{AllocError, Global};

/// Where a local lives.
#[derive(Clone, Copy)]
pub struct Spot {
    /// The number of its register; 0 where it lies in the frame.
    pub register: u8,
    /// Where in the frame it begins.
    pub offset: u32,
    /// What it is made for; none where it has several members or elements.
    pub cell: Option<Cell>,
}

/// Where the locals of a function live, in the order in which its text declares them.
#[derive(Drop)]
pub struct Spots {
    pub all: Vec<Spot>,
}

/// The bytes of a local.
fn bytes_of(local: &Local) -> u32 {
    match local {
        Local::Scalar(cell) => cell.bytes(),
        Local::Whole(layout, count) => count.wrapping_mul(layout.bytes),
    }
}

/// The spot of a local that lies behind an offset of the frame, or has a register.
fn spot_of(local: &Local, register: u8, low: u32) -> Spot {
    let cell = match local {
        Local::Scalar(cell) => Some(*cell),
        Local::Whole(_, _) => None,
    };
    Spot {
        register,
        offset: low.wrapping_add(3) / 4 * 4,
        cell,
    }
}

/// The walk over a function: the registers of its locals, and the spots so far, both by the numbers of the locals.
#[derive(Drop)]
struct Walk<'h> {
    registers: &'h [u8],
    spots: Vec<Spot>,
}

impl Walk<'_> {
    /// Lays the locals of a block behind an offset. Answers where they end.
    fn lay(&mut self, low: u32, locals: &[Local]) -> Result<u32, AllocError> {
        let mut end = low;
        for local in locals {
            let number = self.spots.len();
            let register = self.registers.get(number).copied().unwrap_or(0);
            let spot = spot_of(local, register, end);
            self.spots.push(spot)?;
            let bytes = if register == 0 { bytes_of(local) } else { 0 };
            end = spot.offset.wrapping_add(bytes);
        }
        Ok(end)
    }
}

/// Goes over a statement, whose blocks' locals lie behind an offset.
#[cycle(spots)]
fn pass(walk: &mut Walk<'_>, low: u32, statement: &Statement) -> Result<(), AllocError> {
    match statement {
        Statement::If(_, both) | Statement::While(_, both) => {
            pass_all(walk, low, &both.0)?;
            pass_all(walk, low, &both.1)
        }
        Statement::Block(block) => {
            let end = walk.lay(low, &block.0)?;
            pass_all(walk, end, &block.1)
        }
        Statement::Leave(body) => pass_all(walk, low, body),
        _ => Ok(()),
    }
}

/// The same of statements, one after the other.
#[cycle(spots)]
fn pass_all(walk: &mut Walk<'_>, low: u32, statements: &[Statement]) -> Result<(), AllocError> {
    'each: for statement in statements {
        pass(walk, low, statement)?;
    }
    Ok(())
}

/// The registers of a function's locals by the numbers of these, of those in the order of the text.
fn by_numbers(alloc: Global, order: &[usize], homes: &[u8]) -> Result<Vec<u8>, AllocError> {
    let mut registers = vec![in alloc; 0u8; order.len()]?;
    for (number, home) in order.iter().zip(homes) {
        if let Some(register) = registers.get_mut(*number) {
            *register = *home;
        }
    }
    Ok(registers)
}

/// Where a function's temporary objects begin: behind the words that are no objects.
fn first_of(function: &Function, homes: &[u8]) -> u32 {
    let mut words = function
        .passed
        .wrapping_add(function.temporaries)
        .wrapping_add(1);
    for home in homes {
        if *home != 0 {
            words = words.wrapping_add(1);
        }
    }
    words.wrapping_mul(4)
}

/// Where objects end that lie one behind the other from an offset on.
fn end_from(low: u32, objects: &[Local]) -> u32 {
    let mut end = low;
    for object in objects {
        let begin = end.wrapping_add(3) / 4 * 4;
        end = begin.wrapping_add(bytes_of(object));
    }
    end
}

/// Of these numbers of locals, in turn, the spots.
fn in_order(alloc: Global, order: &[usize], spots: &[Spot]) -> Result<Spots, AllocError> {
    let mut all = Vec::new(alloc);
    for number in order {
        if let Some(spot) = spots.get(*number) {
            all.push(*spot)?;
        }
    }
    Ok(Spots { all })
}

/// Those of a function with these registers, in the order of the text.
fn of_function(alloc: Global, function: &Function, homes: &[u8]) -> Result<Spots, AllocError> {
    let registers = by_numbers(alloc, &function.order, homes)?;
    let low = end_from(first_of(function, homes), &function.own);
    let mut walk = Walk {
        registers: &registers,
        spots: Vec::new(alloc),
    };
    pass_all(&mut walk, low, &function.body)?;
    in_order(alloc, &function.order, &walk.spots)
}

/// Those of each function in turn.
pub fn spots_of(
    alloc: Global,
    functions: &[Function],
    labelled: &Labelled,
) -> Result<Vec<Spots>, AllocError> {
    let mut all = Vec::new(alloc);
    for (number, function) in functions.iter().enumerate() {
        all.push(of_function(alloc, function, labelled.homes(number))?)?;
    }
    Ok(all)
}
