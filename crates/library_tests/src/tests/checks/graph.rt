//! Entries that a graph accepts or refuses as it grows.

use super::entry_of;
use crate::tests::comparing::{holds, same};
use heap_model::{ApplyFault, Graph, Heap, Id, Value};
use std::alloc::Global;
use std::process::Abort;
use std::test::Fail;

mod reach;
mod seen;
mod swaps;
mod unwritten;

const FIRST: Id = Id::Made { seat: 0, count: 0 };

/// An entry, and whether it may stand after those above that may. The heap has two seats.
const ENTRIES: &[&str] = &[
    "0 new 1 2 = 0.1 => not legal",
    "0 new 1 2 = 1.0 => not legal",
    "0 new 1 2 = board => not legal",
    "0 new 1 2 = 0.0 => legal",
    "0 new 1 2 = 0.0 => not legal",
    "0 new 2 47 = full need 16 found 4 => legal",
    "0 array 2 4096 = spine need 12 used 0 => legal",
    "0 array 2 5 = full need 16 found 4 => legal",
    "0 len 2 = no object => legal",
    "0 array 2 5 = 0.1 => legal",
    "0 len 2 = 5 => legal",
    "0 len 2 = 4 => not legal",
    "0 len 2 = no object => not legal",
    "0 len 0 = 32 => legal",
    "0 len 3 = 0 => not legal",
    "0 num 3 1073741823 = ok => legal",
    "0 get 4 1 0 = nil at 0:1 => not legal",
    "0 get 4 1 0 = nil at - => legal",
    "0 set 1 0 3 = was 0:1 => not legal",
    "0 set 1 0 3 = was - => legal",
    "0 set 1 0 3 = was - => not legal",
    "0 get 4 1 0 = number 1073741823 at - => not legal",
    "0 get 4 1 0 = number 1073741823 at 0:1 => legal",
    "0 same 3 4 = no => not legal",
    "0 same 3 4 = yes => legal",
    "0 same 1 2 = yes => not legal",
    "0 same 1 2 = no => legal",
    "0 get 4 1 2 = no object => not legal",
    "0 get 4 1 2 = no field => legal",
    "0 get 4 3 4096 = no field => not legal",
    "0 get 4 3 4096 = no object => legal",
    "0 set 0 32 2 = no field => legal",
    "0 set 0 31 1 = was - => legal",
    "1 get 1 0 31 = object 0.0 at 0:2 => legal",
    "1 set 1 0 0 = was 0:1 => legal",
    "0 get 4 1 0 = object board at 1:1 => legal",
    "1 copy 2 1 = ok => legal",
    "1 nil 1 = ok => legal",
    "1 len 1 = no object => legal",
    "1 len 2 = 2 => legal",
    "1 poll = 7 => legal",
    "1 collect = cycle 1 => legal",
    "1 collect = waits 0 answered 1 phase 2 => legal",
    "2 poll = 7 => not legal",
    "0 leave = ok => legal",
    "0 leave = ok => not legal",
    "0 poll = 7 => not legal",
    // From here on the first seat has left.
    "0 takes 1 => not legal",
    "1 takes 1 => legal",
    "2 takes 1 => not legal",
    "0 gives back 1 => not legal",
    "1 gives back 1 => legal",
    "1 answers 1 => legal",
    "2 answers 1 => not legal",
    "c phase 1 => legal",
    "c frees 3 => legal",
    "c swings 0.1 => legal",
    "c ends 0 kept 14 => legal",
    "c cycle = cycle 0 => legal",
];

/// The graph of a heap that opens.
fn graph_of(alloc: Global, groups: u16, spine: u16, seats: u8) -> Result<Graph, Fail> {
    let heap = Heap::make(groups, spine, seats, 32).ok_or("the limits")?;
    Ok(Graph::new(alloc, heap)?)
}

/// The graph grows by the entry that the line is.
fn grow(alloc: Global, graph: &mut Graph, line: &str) -> Result<(), Fail> {
    graph.apply(&entry_of(alloc, line)?)?;
    Ok(())
}

/// What a graph answers to an entry with this verdict.
fn answer_of(verdict: &str) -> Result<(), ApplyFault> {
    if verdict == "legal" {
        Ok(())
    } else {
        Err(ApplyFault::NotLegal)
    }
}

/// The graph accepts the entry exactly if it may stand.
fn judges(rt: &(impl Abort + AllocGlobal), graph: &mut Graph, line: &str) -> Result<(), Fail> {
    let (entry, verdict) = line.split_once(" => ").ok_or("an entry has a verdict")?;
    let given = graph.apply(&entry_of(rt.alloc(), entry)?);
    same(rt, &given, &answer_of(verdict), &line);
    Ok(())
}

/// The graph of a heap of two seats, which accepts of these entries just those that may stand.
fn grown(rt: &(impl Abort + AllocGlobal), entries: &[&str]) -> Result<Graph, Fail> {
    let mut graph = graph_of(rt.alloc(), 1, 0, 2)?;
    for line in entries {
        judges(rt, &mut graph, line)?;
    }
    Ok(graph)
}

/// Seats and registers, and what these hold behind the entries.
const HELD: [(u8, u8, Value); 4] = [
    (0, 0, Value::Nil),
    (1, 0, Value::Object(Id::Board)),
    (1, 1, Value::Nil),
    (1, 2, Value::Object(FIRST)),
];

/// The register holds the value.
fn holds_value(rt: &impl Abort, graph: &Graph, seat: u8, register: u8, value: Value) {
    let is_there = (seat as usize) < graph.seats() && register <= 15;
    holds(rt, is_there, &seat);
    same(rt, &graph.value(seat, register), &value, &seat);
}

#[test]
fn accepts_what_a_growing_heap_says(rt: HostRuntime) -> Result<(), Fail> {
    let graph = grown(&rt, ENTRIES)?;
    for (seat, register, value) in HELD {
        holds_value(&rt, &graph, seat, register, value);
    }
    Ok(())
}
