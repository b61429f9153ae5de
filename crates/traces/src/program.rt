// A text with its code: where in the text each instruction stands.

use crate::points::{Point, Points, Sight};
use crate::spots::{Spot, Spots, spots_of};
use crate::text::Text;
use cyc_core::Origin;
use cyc_tree::{Function, Item};
use cyc_words::Kind;
use cycc_driver::Place;
use lower_checks::lower;
use rv32_layout::{LayoutFault, Position, positions};
use rv32_machine::CODE_BASE;
use rv32_select::{Labelled, select};
use std::alloc::{AllocError, Global};

/// A function that is active, and where in the text its call stands; `main` is called from nowhere.
#[derive(Clone, Copy)]
pub struct Called {
    pub function: usize,
    pub call: Option<Place>,
}

/// An accepted text with its code: where in the code what stands in the text begins, and the functions, raises and calls of the code.
#[derive(Drop)]
pub struct Traced {
    text: Text,
    /// Where the locals of each function live.
    spots: Vec<Spots>,
    positions: Vec<Position>,
    points: Points,
    /// Where the functions begin, by their numbers.
    functions: Vec<u32>,
}

/// Where the functions among points begin.
fn starts_of(alloc: Global, points: &[Point]) -> Result<Vec<u32>, AllocError> {
    let mut starts = Vec::new(alloc);
    for point in points {
        if point.is_test() {
            starts.push(point.start())?;
        }
    }
    Ok(starts)
}

/// Where in its code a text's statements, raises and calls begin; none where the code would be too large.
fn positions_of(alloc: Global, labelled: &Labelled) -> Result<Option<Vec<Position>>, AllocError> {
    match positions(alloc, labelled) {
        Ok(positions) => Ok(Some(positions)),
        Err(LayoutFault::Memory) => Err(AllocError),
        Err(LayoutFault::TooLarge) => Ok(None),
    }
}

impl Traced {
    /// A text with its code. None where the text isn't accepted.
    pub fn of(alloc: Global, text: &[u8], code: &[u8]) -> Result<Option<Traced>, AllocError> {
        let Some(text) = Text::of(alloc, text)? else {
            return Ok(None);
        };
        let core = lower(alloc, text.checked())?;
        let labelled = select(alloc, &core)?;
        let Some(positions) = positions_of(alloc, &labelled)? else {
            return Ok(None);
        };
        let spots = spots_of(alloc, &core.functions, &labelled)?;
        let points = Points::of(alloc, code)?;
        let functions = starts_of(alloc, &points.all)?;
        Ok(Some(Traced {
            text,
            spots,
            positions,
            points,
            functions,
        }))
    }

    /// The functions, raises and calls of the code, in its order.
    pub fn points(&self) -> &[Point] {
        &self.points.all
    }

    /// Where in the code what stands in the text begins, in its order.
    pub fn positions(&self) -> &[Position] {
        &self.positions
    }

    /// Where in the text a position is.
    pub fn place(&self, position: Position) -> Place {
        self.text.place(position.origin)
    }

    /// Where in the text an offset is.
    pub fn place_of(&self, origin: Origin) -> Place {
        self.text.place(origin)
    }

    /// The address behind the code.
    pub fn end(&self) -> u32 {
        self.points.end
    }

    /// Where in the text the instruction at an address of the code stands; none of what is before the first function, which the text doesn't have.
    pub fn place_at(&self, address: u32) -> Option<Place> {
        Some(self.place(self.position_at(address)?))
    }

    /// The last position at an address of the code or before it.
    fn position_at(&self, address: u32) -> Option<Position> {
        let offset = address.checked_sub(CODE_BASE)?;
        let behind = self
            .positions
            .partition_point(|position| position.offset <= offset);
        self.positions.get(behind.checked_sub(1)?).copied()
    }

    /// The offset in the text of the instruction at an address of the code, by which names are in scope: 0 of what is before the first function, and where a
    /// function gives back its frame and the registers that it saved.
    pub fn offset_at(&self, function: usize, address: u32) -> u32 {
        if address >= self.epilogue(function) {
            return 0;
        }
        match self.position_at(address) {
            Some(position) => position.origin.0,
            None => 0,
        }
    }

    /// Whether a function's frame is large.
    fn has_large_frame(&self, start: u32) -> bool {
        self.points
            .all
            .iter()
            .any(|point| point.is_large_test() && point.start() == start)
    }

    /// Where in the code a function begins to give back its frame: it loads the registers that it saved and the return address, moves the stack pointer, by
    /// three instructions if the frame is large, and returns.
    fn epilogue(&self, function: usize) -> u32 {
        let start = self.functions.get(function).copied().unwrap_or(0);
        let next = function.wrapping_add(1);
        let end = self.functions.get(next).copied().unwrap_or(self.points.end);
        let mut words: u32 = if self.has_large_frame(start) { 5 } else { 3 };
        for spot in self.spots(function) {
            if spot.register != 0 {
                words = words.saturating_add(1);
            }
        }
        end.saturating_sub(words.saturating_mul(4))
    }

    /// The number of the function that an address of the code is in, and the offset in the text of the instruction there.
    pub fn within(&self, address: u32) -> Option<(usize, u32)> {
        let behind = self.functions.partition_point(|start| *start <= address);
        let position = self.position_at(address)?;
        Some((behind.checked_sub(1)?, position.origin.0))
    }

    /// Whether a point is the raise of a check against NULL at an offset of the text.
    fn is_null_check(&self, point: &Point, at: u32) -> bool {
        match (point.sight, self.position_at(point.address)) {
            (Sight::Raise(Kind::NullException), Some(position)) => position.origin.0 == at,
            _ => false,
        }
    }

    /// How many checks against NULL at an offset of the text raise before an address of the code, and how many there are.
    pub fn null_checks(&self, at: u32, address: u32) -> (usize, usize) {
        let mut before = 0usize;
        let mut all = 0usize;
        for point in &self.points.all {
            if self.is_null_check(point, at) {
                all = all.saturating_add(1);
                if point.address < address {
                    before = before.saturating_add(1);
                }
            }
        }
        (before, all)
    }

    /// The items of the text.
    pub fn items(&self) -> &[Item] {
        self.text.checked().program().items()
    }

    /// The function with a number.
    pub fn function(&self, number: usize) -> Option<&Function> {
        self.text.function(number)
    }

    /// Where a function's names live, in the order of the text.
    pub fn spots(&self, function: usize) -> &[Spot] {
        match self.spots.get(function) {
            Some(spots) => &spots.all,
            None => &[],
        }
    }

    /// The number of the function that begins at an address.
    pub fn function_at(&self, address: u32) -> Option<usize> {
        self.functions.binary_search(&address).ok()
    }

    /// The function that the call at an address of the code makes active.
    pub fn called(&self, address: u32) -> Option<Called> {
        let point = self.points.at(address)?;
        let Sight::Call(target) = point.sight else {
            return None;
        };
        Some(Called {
            function: self.function_at(target)?,
            call: self.place_at(address),
        })
    }

    /// The names of the functions, by their numbers.
    pub fn names(&self, alloc: Global) -> Result<Vec<&str>, AllocError> {
        self.text.names(alloc)
    }
}
