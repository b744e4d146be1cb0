//! Worked logs: which of them have an order.

ghost use Rattle.heap_model.specs.Heap.{IsHeap};

use super::search::{End, searched};
use crate::tests::comparing::same;
use heap_model::{Entry, Heap, Memory};
use reply_text::read_history;
use std::alloc::Global;
use std::process::Abort;
use std::test::Fail;

/// Logs of two seats on a heap with five fragments more than the board's, before they leave; how many fragments the collector's one cycle frees behind that, if there is one; the
/// steps of the search; and what it comes to.
type Row = (&'static str, Option<u32>, u32, End);

/// What the collector tells behind the leaves up to its frees, and behind these.
const CYCLE: [&str; 2] = [
    "c phase 1\nc phase 2\nc phase 3\nc phase 4\nc phase 5\n",
    "c phase 6\nc ends 0 kept 0\n",
];

/// Seat 1 gets a field before and behind a set of seat 0.
const BETWEEN: &str =
    "0 num 1 5 = ok\n0 set 0 3 1 = was -\n1 get 2 0 3 = nil at -\n1 get 2 0 3 = number 5 at 0:1\n";

/// Seat 0 makes a record of all that is free, and so has to come behind seat 1, which gives that back.
const MAKES_LATE: &str = "0 takes 5\n0 new 1 14 = 0.0\n1 takes 5\n1 gives back 5\n";

/// The same with eight commands of each seat between, for which there are thousands of orders.
const MAKES_LATE_BESIDE_MUCH: &str = "0 takes 5\n\
    0 nil 1 = ok\n0 nil 1 = ok\n0 nil 1 = ok\n0 nil 1 = ok\n\
    0 nil 1 = ok\n0 nil 1 = ok\n0 nil 1 = ok\n0 nil 1 = ok\n\
    0 new 1 14 = 0.0\n\
    1 nil 1 = ok\n1 nil 1 = ok\n1 nil 1 = ok\n1 nil 1 = ok\n\
    1 nil 1 = ok\n1 nil 1 = ok\n1 nil 1 = ok\n1 nil 1 = ok\n\
    1 takes 5\n1 gives back 5\n";

/// The logs hold fourteen entries with leaves and cycle, so that fifteen steps find an order where none is taken back.
const ROWS: &[Row] = &[
    (BETWEEN, Some(11), 15, End::Found),
    (BETWEEN, Some(11), 4, End::RanOut),
    (MAKES_LATE, Some(16), 15, End::RanOut),
    (MAKES_LATE, Some(16), 1000, End::Found),
    (MAKES_LATE_BESIDE_MUCH, Some(16), 1000, End::Found),
    // A set that isn't there.
    (
        "0 num 1 5 = ok\n1 get 2 0 3 = nil at -\n1 get 2 0 3 = number 5 at 0:1\n",
        Some(11),
        1000,
        End::Nothing,
    ),
    // Both replace what the field opened with.
    (
        "0 set 0 3 0 = was -\n1 set 0 3 0 = was -\n",
        Some(11),
        1000,
        End::Nothing,
    ),
    // A phase that the seat hasn't answered, which is no matter of the graph.
    ("0 poll = 1\n", Some(11), 1000, End::Nothing),
    // More than is free, though another seat gives some back.
    (
        "0 takes 5\n0 gives back 5\n1 takes 6\n1 gives back 6\n",
        Some(11),
        1000,
        End::Nothing,
    ),
    // The board is in use at the end.
    ("", None, 1000, End::Nothing),
];

/// The entries of this seat, or of the collector.
fn log_of(alloc: Global, entries: &[Entry], party: Option<u8>) -> Result<Vec<Entry>, Memory> {
    let mut log = Vec::new(alloc);
    for entry in entries {
        if entry.seat() == party {
            log.push(*entry)?;
        }
    }
    Ok(log)
}

/// The logs of two seats, which leave, and of the collector, whose cycle frees so much, if there is one.
fn logs_of(alloc: Global, seats: &str, freed: Option<u32>) -> Result<Vec<Vec<Entry>>, Fail> {
    let [before, behind] = CYCLE;
    let cycle = match freed {
        Some(count) => format!(in alloc; "{before}c frees {count}\n{behind}")?,
        None => String::new(alloc),
    };
    let text = format!(in alloc;
        "history 1 run\nheap 1 0 2\n{seats}0 leave = ok\n1 leave = ok\n{cycle}end used 0\n"
    )?;
    let history = read_history(alloc, text.as_bytes())?;
    let mut logs = Vec::new(alloc);
    for party in [Some(0), Some(1), None] {
        logs.push(log_of(alloc, history.entries.as_slice(), party)?)?;
    }
    Ok(logs)
}

/// The search for an order of the row's logs comes to what it has to, and only an order that is found stands.
fn is_searched(rt: &impl Abort, alloc: Global, heap: Heap, row: &Row) -> Result<(), Fail>
    requires { IsHeap heap }
{
    let (seats, freed, steps, wanted) = *row;
    let logs = logs_of(alloc, seats, freed)?;
    let (end, stands) = searched(alloc, heap, &logs, &[], steps)?;
    same(rt, &end, &wanted, &seats);
    same(rt, &stands, &(end == End::Found), &seats);
    Ok(())
}

#[test]
fn finds_orders_of_worked_logs(rt: HostRuntime) -> Result<(), Fail> {
    let heap = Heap::make(1, 0, 2, 32).ok_or("the limits")?;
    for row in ROWS {
        is_searched(&rt, rt.alloc(), heap, row)?;
    }
    Ok(())
}
