//! The stamps under which registers were seen: what a get brings and a copy hands on, and what leaves none.

use super::{graph_of, grow};
use crate::tests::comparing::{holds, same};
use heap_model::Graph;
use std::process::Abort;
use std::test::Fail;

/// The first seat's first set, its second and its third.
const FIRST: u32 = 0x400_0001;

const SECOND: u32 = 0x400_0002;

const THIRD: u32 = 0x400_0003;

/// An entry, a seat and a register of it, and the stamp under which that was seen after the entry.
const ROWS: &[(&str, u8, u8, u32)] = &[
    ("0 new 1 2 = 0.0", 0, 1, 0),
    ("0 num 2 5 = ok", 0, 2, 0),
    ("0 get 3 1 0 = nil at -", 0, 3, 0),
    // A set gives its cell a stamp, and no register.
    ("0 set 1 0 2 = was -", 0, 2, 0),
    ("0 get 3 1 0 = number 5 at 0:1", 0, 3, FIRST),
    ("0 copy 4 3 = ok", 0, 4, FIRST),
    ("0 same 3 4 = yes", 0, 3, FIRST),
    // A cell that was set again takes no stamp back.
    ("0 set 1 0 1 = was 0:1", 0, 4, FIRST),
    ("0 get 5 1 0 = object 0.0 at 0:2", 0, 5, SECOND),
    // What no get brought was seen under none.
    ("0 num 3 5 = ok", 0, 3, 0),
    ("0 nil 4 = ok", 0, 4, 0),
    ("0 new 5 1 = 0.1", 0, 5, 0),
    ("0 get 5 1 0 = object 0.0 at 0:2", 0, 5, SECOND),
    ("0 array 5 1 = 0.2", 0, 5, 0),
    ("0 get 5 1 0 = object 0.0 at 0:2", 0, 5, SECOND),
    ("0 copy 5 2 = ok", 0, 5, 0),
    // A refused call leaves the register.
    ("0 get 5 1 0 = object 0.0 at 0:2", 0, 5, SECOND),
    ("0 get 5 1 2 = no field", 0, 5, SECOND),
    ("0 new 5 47 = full need 16 found 4", 0, 5, SECOND),
    // Another seat sees the same stamps.
    ("0 set 0 0 2 = was -", 1, 2, 0),
    ("1 get 2 0 0 = number 5 at 0:3", 1, 2, THIRD),
    ("0 leave = ok", 0, 5, 0),
    ("1 poll = 7", 1, 2, THIRD),
];

/// The register was seen under the stamp.
fn was_seen(rt: &impl Abort, graph: &Graph, seat: u8, register: u8, stamp: u32, line: &str) {
    let is_there = (seat as usize) < graph.seats() && register <= 15;
    holds(rt, is_there, &line);
    same(rt, &graph.seen(seat, register), &stamp, &line);
}

#[test]
fn keeps_the_stamp_of_the_cell_that_was_read(rt: HostRuntime) -> Result<(), Fail> {
    let mut graph = graph_of(rt.alloc(), 1, 0, 2)?;
    for &(line, seat, register, stamp) in ROWS {
        grow(rt.alloc(), &mut graph, line)?;
        was_seen(&rt, &graph, seat, register, stamp, line);
    }
    Ok(())
}
