//! Boards of several sizes: what tests of several layers have in common.

ghost use Rattle.std.specs.Prelude.{IfSome};
ghost use Rattle.heap_model.specs.Heap.{IsHeap};

use super::swaps::{FIRST, number};
use heap_model::Command::{self, Get, Len, New, Num, Set};
use heap_model::Reply::{self, Done, Full, Length, Made, NoField, Was};
use heap_model::{Heap, Id};
use std::alloc::{AllocError, Global};

/// The fields of a board, its fragments, and the control word of its group when the heap opens: its fragments are the
/// group's first, taken and born. The first fragment has two fields, and each further one three.
pub(super) const BOARDS: [(u8, u8, u64); 8] = [
    (1, 1, 0x0001_0001),
    (2, 1, 0x0001_0001),
    (3, 2, 0x0003_0003),
    (5, 2, 0x0003_0003),
    (8, 3, 0x0007_0007),
    (32, 11, 0x07ff_07ff),
    (46, 16, 0xffff_ffff),
    (47, 16, 0xffff_ffff),
];

/// A heap of one group and one seat, whose board has so many fields.
pub(super) fn heap_of(fields: u8) -> Option<Heap>
    ensures { IfSome result IsHeap }
{
    Heap::make(1, 0, 1, fields)
}

/// What the seat is answered: the board's last field is there and none after it, and there is a record of one field in each
/// fragment that the board leaves, but no more of them.
pub(super) fn answers(
    alloc: Global,
    fields: u8,
    fragments: u8,
) -> Result<Vec<(Command, Reply)>, AllocError> {
    let past = u32::from(fields);
    let last = past.saturating_sub(1);
    let mut answers = Vec::from_array(
        alloc,
        [
            (Len { r: 0 }, Length(u16::from(fields))),
            (Num { d: 1, n: 7 }, Done),
            (
                Set {
                    r: 0,
                    i: last,
                    v: 1,
                },
                Was(0),
            ),
            (
                Get {
                    d: 2,
                    r: 0,
                    i: last,
                },
                number(7, FIRST),
            ),
            (
                Get {
                    d: 2,
                    r: 0,
                    i: past,
                },
                NoField,
            ),
            (
                Set {
                    r: 0,
                    i: past,
                    v: 1,
                },
                NoField,
            ),
        ],
    )?;
    let record = New { d: 3, fields: 1 };
    for count in 0..16u32.saturating_sub(u32::from(fragments)) {
        answers.push((record, Made(Id::Made { seat: 0, count })))?;
    }
    answers.push((record, Full { need: 1, found: 0 }))?;
    Ok(answers)
}
