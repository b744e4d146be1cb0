/// The identity of an object: the board, or the seat that made it and its position among that seat's objects.
#[derive(Clone, Copy, Debug, PartialEq, Eq, PartialOrd, Ord)]
pub enum Id {
    Board,
    Made { seat: u8, count: u32 },
}

/// What a register or a cell holds. A number is below 2^30.
#[derive(Clone, Copy, Debug, PartialEq, Eq)]
pub enum Value {
    Nil,
    Number(u32),
    Object(Id),
}
