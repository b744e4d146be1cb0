//! The seats of a table that opens, and the table's collector.

ghost use Rattle.std.specs.Prelude.{IfOk};
ghost use Rattle.heap_model.specs.Heap.{IsHeap};
ghost use Rattle.library_tests.specs.SameSeat.{IsOfTable};

use collector_turns::Collector;
use core_machine::{CountsEntries, Log, ShowsLast};
use heap_model::Heap;
use heap_table::{CollectorHolder, HeapTable};
use mutator_seat::Seat;
use std::alloc::Global;
use std::test::Fail;

/// The one seat of a heap of one group and six spine words that opens, and the heap's collector.
pub fn opening(alloc: Global) -> Result<(Seat, Collector), Fail> {
    let heap = Heap::make(1, 6, 1, 32).ok_or("the limits")?;
    lone_seat(alloc, heap)
}

/// A seat of a heap that opens, the last one, and the heap's collector.
pub fn lone_seat(alloc: Global, heap: Heap) -> Result<(Seat, Collector), Fail>
    requires { IsHeap heap }
{
    let (mut holders, collector) = HeapTable::make::<Log, Log>(alloc, heap)?;
    let Some(holder) = holders.pop() else {
        return Err(Fail::new("no seat"));
    };
    Ok((Seat::make(holder), Collector::make(collector)))
}

/// The two seats of a heap that opens, and the heap's collector.
pub fn two_seats<L: ShowsLast, C: CountsEntries>(
    alloc: Global,
    heap: Heap,
) -> Result<(Seat<L>, Seat<L>, CollectorHolder<L, C>), Fail>
    requires limits { IsHeap heap }
    ensures first { IfOk result (λ parties. IsOfTable parties.2 parties.0) }
    ensures second { IfOk result (λ parties. IsOfTable parties.2 parties.1) }
{
    let (mut holders, collector) = HeapTable::make::<L, C>(alloc, heap)?;
    let Some(second) = holders.pop() else {
        return Err(Fail::new("no seat"));
    };
    let Some(first) = holders.pop() else {
        return Err(Fail::new("one seat"));
    };
    Ok((Seat::make(first), Seat::make(second), collector))
}
