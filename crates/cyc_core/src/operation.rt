// Temporaries, locals, and the operations on them.

ghost use Rattle.std.specs.Prelude.{◌≡◌};
ghost use Rattle.cyc_core.specs.Trees.{cell_bytes, cell_width};

/// A temporary of a function: a word or a pointer, named by its number.
#[derive(Clone, Copy)]
pub struct Temporary(pub u32);

/// A local: how many blocks out its block is, and its number among that block's locals.
#[derive(Clone, Copy)]
pub struct Variable {
    /// How many blocks out the local's block is; 0 is the innermost one.
    pub out: usize,
    /// The number of the local in its block, from 0 on.
    pub index: usize,
}

/// How wide a local, a global or a part of an object is.
#[derive(Clone, Copy)]
pub enum Width {
    /// One byte.
    Byte,
    /// Four bytes, at an address that four divides.
    Word,
}

/// What a cell of a local, a global or a block is made for.
#[derive(Clone, Copy)]
pub enum Cell {
    /// A number of one byte.
    Byte,
    /// A number of four bytes.
    Word,
    /// A pointer, of four bytes.
    Pointer,
    /// A fat pointer, of three words: its first element, how many it has, and the index of the one that it leads to.
    Fat,
    /// The handle of a region, of four bytes.
    Handle,
    /// A tagged union none of whose members is a fat pointer: a word for the number of the member that it holds, and one for that member.
    Tagged,
    /// A tagged union with a fat pointer among its members: a word for the number of the member that it holds, and three for that member.
    TaggedFat,
}

impl Cell {
    /// How wide each of its parts is.
    pub fn width(self) -> Width
        ensures { result ≡ cell_width self }
    {
        match self {
            Cell::Byte => Width::Byte,
            Cell::Word
            | Cell::Pointer
            | Cell::Fat
            | Cell::Handle
            | Cell::Tagged
            | Cell::TaggedFat => Width::Word,
        }
    }

    /// How many bytes it takes.
    pub fn bytes(self) -> u32
        ensures { result ≡ cell_bytes self }
    {
        match self {
            Cell::Byte => 1,
            Cell::Word | Cell::Pointer | Cell::Handle => 4,
            Cell::Tagged => 8,
            Cell::Fat => 12,
            Cell::TaggedFat => 16,
        }
    }
}

/// Where a part lies from a pointer on.
#[derive(Clone, Copy)]
pub struct Distance {
    /// How many cells of its object lie between.
    pub cells: u32,
    /// How many bytes of its object lie between.
    pub bytes: u32,
    /// The number of the part in its cell: 0, of a fat pointer up to 2, and of a tagged union up to 3.
    pub part: u8,
    /// How wide the part is.
    pub width: Width,
}

impl Distance {
    /// Right where a pointer leads.
    pub fn at_once(width: Width) -> Self
        ensures { result ≡ record { cells = 0; bytes = 0; part = 0; width = width } }
    {
        Distance {
            cells: 0,
            bytes: 0,
            part: 0,
            width,
        }
    }
}

/// The temporaries of a value: one, or the three of a fat pointer, which are its first element, how many it has, and its index.
#[derive(Clone, Copy)]
pub enum Words {
    /// A value of one word.
    One(Temporary),
    /// A fat pointer.
    Three(Temporary, Temporary, Temporary),
}

/// An operation on two words.
#[derive(Clone, Copy)]
pub enum Binary {
    /// The sum, modulo 2^32.
    Add,
    /// The difference, modulo 2^32.
    Subtract,
    /// The lower word of the product.
    Multiply,
    /// The quotient of signed numbers, rounded towards zero; by zero all ones.
    Divide,
    /// The quotient of unsigned numbers; by zero all ones.
    DivideUnsigned,
    /// What the division of signed numbers leaves; by zero the first.
    Remainder,
    /// What the division of unsigned numbers leaves; by zero the first.
    RemainderUnsigned,
    /// The bits of both.
    And,
    /// The bits of either.
    Or,
    /// The bits of one and not of the other.
    Xor,
    /// The first shifted to the left by the second modulo 32.
    ShiftLeft,
    /// The first shifted to the right by the second modulo 32, filled with its sign.
    ShiftRight,
    /// The first shifted to the right by the second modulo 32, filled with zeros.
    ShiftRightUnsigned,
    /// 1 where both are equal, else 0.
    Equal,
    /// 0 where both are equal, else 1.
    NotEqual,
    /// 1 where the first is below the second, both signed, else 0.
    Less,
    /// 1 where the first is at most the second, both signed, else 0.
    LessEqual,
    /// 1 where the first is below the second, both unsigned, else 0.
    LessUnsigned,
    /// 1 where the first is at most the second, both unsigned, else 0.
    LessEqualUnsigned,
}

/// What is done in one go. The first temporary is the one that gets the result.
#[derive(Clone, Copy)]
pub enum Operation {
    /// The temporary gets the word.
    Constant(Temporary, u32),
    /// The temporary gets NULL.
    NullPointer(Temporary),
    /// The first temporary gets what the second holds.
    Move(Temporary, Temporary),
    /// The first temporary gets the lowest byte of the second's word.
    Narrow(Temporary, Temporary),
    /// The first temporary gets the operation's result on the two others.
    Apply(Binary, Temporary, Temporary, Temporary),
    /// The temporary gets a pointer to the local.
    LocalAddress(Temporary, Variable),
    /// The temporary gets a pointer to the function's temporary object with this number.
    OwnAddress(Temporary, usize),
    /// The temporary gets a pointer to the global with this number.
    DataAddress(Temporary, usize),
    /// The temporary gets what the local holds.
    Get(Width, Temporary, Variable),
    /// The local gets what the temporary holds, or the lowest byte of its word.
    Put(Width, Temporary, Variable),
    /// The first temporary gets the second one's pointer, moved by a number of cells and their bytes.
    Offset(Temporary, Temporary, u32, u32),
    /// The first temporary gets a pointer to the element with the number in the third one, where the second one's pointer leads to element 0.
    /// The numbers are the cells and the bytes of an element.
    Element(Temporary, Temporary, Temporary, u32, u32),
    /// The first temporary gets the part at the distance from where the second points.
    Load(Temporary, Temporary, Distance),
    /// The part at the distance from where the first temporary points gets what the second holds, or the lowest byte of its word.
    Store(Temporary, Distance, Temporary),
    /// The first temporary gets 1 where the second holds NULL, and 0 where it holds another pointer.
    IsNull(Temporary, Temporary),
    /// The first temporary gets 1 where the two others hold the same pointer, and 0 where they hold two.
    SamePlace(Temporary, Temporary, Temporary),
    /// The temporary gets the next byte of the input, or -1 at its end.
    Getchar(Temporary),
    /// The second temporary's lowest byte is written, and the first gets it.
    Putchar(Temporary, Temporary),
    /// The temporary gets the handle of the heap.
    HeapHandle(Temporary),
    /// The temporary gets the handle of a new region, which has no blocks yet.
    RegionNew(Temporary),
    /// The region whose handle the temporary holds is freed with all its blocks.
    RegionFree(Temporary),
    /// The unique block that the temporary points to is freed, with its region.
    UniqueFree(Temporary),
    /// The temporary gets the key of a new dynamic region, which is closed and has no blocks yet.
    KeyNew(Temporary),
    /// The closed region whose key the temporary holds is opened.
    KeyOpen(Temporary),
    /// The open region whose key the temporary holds is closed.
    KeyClose(Temporary),
    /// The closed region whose key the temporary holds is freed with all its blocks.
    KeyFree(Temporary),
}
