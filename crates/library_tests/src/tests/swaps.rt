//! Compare and swap on two seats of one heap: what tests of several layers have in common.

use heap_model::Command::{self, Cas, Copy, Get, Num};
use heap_model::Reply::{self, Done, Got, NoField, NoObject, Now, Was};
use heap_model::Value;

/// The first stamps of the two seats, and the second one's next.
pub(super) const FIRST: u32 = 0x400_0001;

pub(super) const OTHERS: u32 = 0x800_0001;

pub(super) const OTHERS_NEXT: u32 = 0x800_0002;

/// The board's field 3 is read into register 2.
pub(super) const READ: Command = Get { d: 2, r: 0, i: 3 };

/// The value of register 1 goes into the board's field 3, where that is as register `a` was read.
pub(super) fn swap(a: u8) -> Command {
    Cas {
        r: 0,
        i: 3,
        a,
        v: 1,
    }
}

/// Likewise into a field of what register `r` holds, where that is nil and was never set.
fn swap_in(r: u8, i: u32) -> Command {
    Cas { r, i, a: 5, v: 1 }
}

/// The reply to a get that finds a number.
pub(super) fn number(n: u32, stamp: u32) -> Reply {
    Got {
        value: Value::Number(n),
        stamp,
    }
}

/// What the seats of a heap of two are answered, one call after another.
pub(super) fn answers() -> [(u8, Command, Reply); 17] {
    [
        (0, Num { d: 1, n: 5 }, Done),
        (1, Num { d: 1, n: 6 }, Done),
        (0, swap(5), Was(0)),
        (1, swap(5), Now(FIRST)),
        (1, READ, number(5, FIRST)),
        (1, swap(2), Was(FIRST)),
        (0, READ, number(6, OTHERS)),
        // A copy is read as the register was, a number as none.
        (0, Copy { d: 3, r: 2 }, Done),
        (0, Num { d: 2, n: 6 }, Done),
        (0, swap(2), Now(OTHERS)),
        (0, swap(3), Was(OTHERS)),
        // A number is no object, and neither is nil.
        (1, swap_in(1, 0), NoObject),
        (1, swap_in(4, 4096), NoObject),
        (1, swap_in(0, 32), NoField),
        // What swaps nothing uses up no stamp.
        (1, swap_in(0, 31), Was(0)),
        (1, Get { d: 6, r: 0, i: 31 }, number(6, OTHERS_NEXT)),
        (1, swap_in(0, 31), Now(OTHERS_NEXT)),
    ]
}
