//! Tables that open, whose seats and collector are so taken out of their holders in one function for all tests.

ghost use Rattle.std.specs.Prelude.{◌≡◌, All, IfOk, None, map};
ghost use Rattle.std.specs.List.{range_with_len};
ghost use Rattle.heap_model.specs.Heap.{IsHeap};
ghost use Rattle.heap_table.specs.Opened.{IsOpened};

use collector_turns::Collector;
use core_machine::Log;
use heap_model::{Heap, Memory};
use heap_runs::seats_of;
use heap_table::HeapTable;
use mutator_seat::Seat;
use std::alloc::Global;

/// The seats of a table that opens, in the order of their numbers, and its collector.
pub fn opened(alloc: Global, heap: Heap) -> Result<(Vec<Seat>, Collector), Memory>
    requires { IsHeap heap }
    ensures numbers { IfOk result (λ made. map (λ seat. seat.number) made.0.items ≡ range_with_len 0 heap.seats) }
    ensures each { IfOk result (λ made. All (IsOpened made.1.holder.table heap) made.0.items) }
    ensures heap { IfOk result (λ made. made.1.holder.heap ≡ heap) }
    ensures fresh { IfOk result (λ made. made.1.last_turn ≡ None) }
{
    let (holders, collector) = HeapTable::make::<Log, Log>(alloc, heap)?;
    let seats = seats_of(alloc, holders)?;
    Ok((seats, Collector::make(collector)))
}
