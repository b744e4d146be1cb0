ghost use Rattle.std.specs.Prelude.{◌≡◌};
ghost use Rattle.fodderpause_c.specs.Replies.{made_with, made_shown, cell_with, cell_holding, cell_shown, swap_shown, number_shown, left_shown, sets_shown};

use crate::codes::{DONE, FULL, NO_FIELD, NO_OBJECT, SPINE_FULL, refusal_code};
use crate::refusal::Refusal;
use heap_model::{Id, Reply, Value};

/// What C is told of an allocation: the object, named by its seat and its number among that seat's; or what was needed and what was found.
#[repr(C)]
#[derive(Clone, Copy)]
pub struct Made {
    pub code: u32,
    pub seat: u32,
    pub count: u32,
    pub need: u32,
    pub found: u32,
}

/// What a cell holds: nil.
pub const NIL: u32 = 0;

/// A number.
pub const NUMBER: u32 = 1;

/// An object that a seat made.
pub const OBJECT: u32 = 2;

/// The board.
pub const BOARD: u32 = 3;

/// What C is told of a cell: what it holds, that number or the object's number, the object's seat, and the stamp.
#[repr(C)]
#[derive(Clone, Copy)]
pub struct Cell {
    pub code: u32,
    pub kind: u32,
    pub number: u32,
    pub seat: u32,
    pub stamp: u32,
}

/// What C is told of a compare and swap: whether it swapped, and the stamp that the cell had.
#[repr(C)]
#[derive(Clone, Copy)]
pub struct Swap {
    pub code: u32,
    pub swapped: u32,
    pub stamp: u32,
}

/// What C is told where that is one number: a stamp, a length, whether two values are the same, or how many objects are left.
#[repr(C)]
#[derive(Clone, Copy)]
pub struct Number {
    pub code: u32,
    pub number: u32,
}

/// What C is told of the sets that are left to a seat.
#[repr(C)]
#[derive(Clone, Copy)]
pub struct SetsLeft {
    pub code: u32,
    pub sets: u64,
}

impl Made {
    /// With this code alone.
    fn with(code: u32) -> Made
        ensures { result ≡ made_with code }
    {
        Made {
            code,
            seat: 0,
            count: 0,
            need: 0,
            found: 0,
        }
    }

    /// Of the reply to an allocation, or of why it wasn't made.
    pub fn of(answer: Result<Reply, Refusal>) -> Made
        ensures { result ≡ made_shown answer }
    {
        match answer {
            Ok(Reply::Made(Id::Made { seat, count })) => Made {
                seat: u32::from(seat),
                count,
                ..Made::with(DONE)
            },
            Ok(Reply::Full { need, found }) => Made {
                need,
                found,
                ..Made::with(FULL)
            },
            Ok(Reply::SpineFull { need, used }) => Made {
                need,
                found: used,
                ..Made::with(SPINE_FULL)
            },
            Ok(_) => Made::with(DONE),
            Err(refusal) => Made::with(refusal_code(refusal)),
        }
    }
}

impl Cell {
    /// With this code alone.
    fn with(code: u32) -> Cell
        ensures { result ≡ cell_with code }
    {
        Cell {
            code,
            kind: NIL,
            number: 0,
            seat: 0,
            stamp: 0,
        }
    }

    /// Of a value and a stamp.
    fn holding(value: Value, stamp: u32) -> Cell
        ensures { result ≡ cell_holding value stamp }
    {
        let bare = Cell {
            stamp,
            ..Cell::with(DONE)
        };
        match value {
            Value::Nil => bare,
            Value::Number(number) => Cell {
                kind: NUMBER,
                number,
                ..bare
            },
            Value::Object(Id::Made { seat, count }) => Cell {
                kind: OBJECT,
                number: count,
                seat: u32::from(seat),
                ..bare
            },
            Value::Object(Id::Board) => Cell {
                kind: BOARD,
                ..bare
            },
        }
    }

    /// Of the reply to a get, or of why it wasn't made.
    pub fn of(answer: Result<Reply, Refusal>) -> Cell
        ensures { result ≡ cell_shown answer }
    {
        match answer {
            Ok(Reply::Got { value, stamp }) => Cell::holding(value, stamp),
            Ok(Reply::NoObject) => Cell::with(NO_OBJECT),
            Ok(Reply::NoField) => Cell::with(NO_FIELD),
            Ok(_) => Cell::with(DONE),
            Err(refusal) => Cell::with(refusal_code(refusal)),
        }
    }
}

impl Swap {
    /// Of the reply to a compare and swap, or of why it wasn't made.
    pub fn of(answer: Result<Reply, Refusal>) -> Swap
        ensures { result ≡ swap_shown answer }
    {
        let (code, swapped, stamp) = match answer {
            Ok(Reply::Was(stamp)) => (DONE, 1, stamp),
            Ok(Reply::Now(stamp)) => (DONE, 0, stamp),
            Ok(Reply::NoObject) => (NO_OBJECT, 0, 0),
            Ok(Reply::NoField) => (NO_FIELD, 0, 0),
            Ok(_) => (DONE, 0, 0),
            Err(refusal) => (refusal_code(refusal), 0, 0),
        };
        Swap {
            code,
            swapped,
            stamp,
        }
    }
}

impl Number {
    /// Of a reply that is one number, or none, or of why the call wasn't made.
    pub fn of(answer: Result<Reply, Refusal>) -> Number
        ensures { result ≡ number_shown answer }
    {
        let (code, number) = match answer {
            Ok(Reply::Was(stamp)) => (DONE, stamp),
            Ok(Reply::Length(length)) => (DONE, u32::from(length)),
            Ok(Reply::Yes) => (DONE, 1),
            Ok(Reply::NoObject) => (NO_OBJECT, 0),
            Ok(Reply::NoField) => (NO_FIELD, 0),
            Ok(_) => (DONE, 0),
            Err(refusal) => (refusal_code(refusal), 0),
        };
        Number { code, number }
    }

    /// Of how many objects are left, or of why that isn't told.
    pub fn left(answer: Result<u32, Refusal>) -> Number
        ensures { result ≡ left_shown answer }
    {
        match answer {
            Ok(number) => Number { code: DONE, number },
            Err(refusal) => Number {
                code: refusal_code(refusal),
                number: 0,
            },
        }
    }
}

impl SetsLeft {
    /// Of how many are left, or of why that isn't told.
    pub fn of(answer: Result<u64, Refusal>) -> SetsLeft
        ensures { result ≡ sets_shown answer }
    {
        match answer {
            Ok(sets) => SetsLeft { code: DONE, sets },
            Err(refusal) => SetsLeft {
                code: refusal_code(refusal),
                sets: 0,
            },
        }
    }
}
