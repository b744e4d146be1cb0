ghost use Rattle.std.specs.Prelude.{◌≡◌, ◌*◌, map, All, OnOk};
ghost use Rattle.std.specs.List.{range_with_len};
ghost use Rattle.heap_model.specs.Heap.{IsHeap};
ghost use Rattle.heap_model.specs.Limits.{group_fragments};
ghost use Rattle.heap_model.specs.Needs.{record_fragments};
ghost use Rattle.heap_runs.specs.CollectCall.{IsPresent};
ghost use Rattle.heap_runs.specs.SeatWork.{IsOfTable};
ghost use Rattle.heap_queue.specs.Opening.{AreRefused};
ghost use Rattle.heap_queue.specs.Running.{IsFaultOf};

use crate::leaving::leave_all;
use crate::queue_fault::QueueFault;
use collector_turns::Collector;
use heap_model::{Full, Memory};
use heap_runs::finish;
use mutator_seat::Seat;
use std::alloc::Global;
use std::sync::Wait;

/// Lets all seats leave, folds them in, makes a last cycle and closes the table. As none has taken a fragment, and the first seat found none, the board has them all.
fn close_unserved<R: Wait>(
    rt: &R,
    alloc: Global,
    seats: Vec<Seat>,
    collector: Collector,
    full: Full,
) -> Result<(), Memory>
    requires limits { IsHeap collector.holder.heap }
    requires numbered { map (λ seat. seat.number) seats.items ≡ range_with_len 0 collector.holder.heap.seats }
    requires of_table { All (IsOfTable collector.holder.table collector.holder.heap) seats.items }
    requires present { All IsPresent seats.items }
    requires refused { AreRefused seats.items full }
    ensures { OnOk result (group_fragments * collector.holder.heap.groups ≡ record_fragments collector.holder.heap.board) }
{
    let gone = leave_all(alloc, seats)?;
    finish(rt, alloc, collector, gone)?;
    Ok(())
}

/// Closes the table whose first seat was refused a node, and tells the refusal.
pub(crate) fn refuse<R: Wait>(
    rt: &R,
    alloc: Global,
    seats: Vec<Seat>,
    collector: Collector,
    full: Full,
) -> QueueFault
    requires limits { IsHeap collector.holder.heap }
    requires numbered { map (λ seat. seat.number) seats.items ≡ range_with_len 0 collector.holder.heap.seats }
    requires of_table { All (IsOfTable collector.holder.table collector.holder.heap) seats.items }
    requires present { All IsPresent seats.items }
    requires refused { AreRefused seats.items full }
    ensures { IsFaultOf collector.holder.heap result }
{
    match close_unserved(rt, alloc, seats, collector, full) {
        Ok(()) => QueueFault::Full {
            need: full.need,
            found: full.found,
        },
        Err(Memory) => QueueFault::Memory,
    }
}
