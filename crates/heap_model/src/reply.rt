use crate::id::{Id, Value};

/// The answer to a command. A stamp is 0 for a cell that was never set, and else says whose set it was, and which but for a multiple of 2^26.
#[derive(Clone, Copy, Debug, PartialEq, Eq)]
pub enum Reply {
    Made(Id),
    Got { value: Value, stamp: u32 },
    /// The stamp of the cell before it was set.
    Was(u32),
    /// The stamp of the cell that a cas found to be another one than it was given, and left as it is.
    Now(u32),
    Done,
    Yes,
    No,
    Length(u16),
    Phase(u64),
    Cycle(u64),
    Waits { seat: u8, answered: u64, phase: u64 },
    NoObject,
    NoField,
    Full { need: u32, found: u32 },
    SpineFull { need: u32, used: u32 },
}

/// What a compare and swap came to, where there was a field.
#[derive(Clone, Copy, Debug, PartialEq, Eq)]
pub enum Swapped {
    /// The field was as the register was seen, and has the new value; this was its stamp.
    Was(u32),
    /// The field had another value or another stamp, which is this, and was left as it is.
    Now(u32),
}

/// The answer to a command of the collector.
#[derive(Clone, Copy, Debug, PartialEq, Eq)]
pub enum TurnReply {
    Done,
    Cycle(u64),
    Waits { seat: u8, answered: u64, phase: u64 },
}
