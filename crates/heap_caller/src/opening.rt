ghost use Rattle.std.specs.Prelude.{◌≡◌, IfOk};
ghost use Rattle.heap_model.specs.Heap.{IsHeap};
ghost use Rattle.heap_caller.specs.Parties.{IsOfTable};

use core_machine::Log;
use heap_model::{Heap, Memory};
use heap_table::{CollectorHolder, HeapTable};
use mutator_seat::Seat;
use std::alloc::Global;

/// Two seats of a table, and its collector.
#[derive(Drop)]
pub struct Parties {
    pub first: Seat,
    pub second: Seat,
    pub collector: CollectorHolder,
    ghost first_is_of_table: { IsOfTable collector first },
    ghost second_is_of_table: { IsOfTable collector second },
}

/// The parties of a heap that opens; none where it has another number of seats.
pub fn open(alloc: Global, heap: Heap) -> Result<Option<Parties>, Memory>
    requires { IsHeap heap }
{
    let (mut holders, collector) = HeapTable::make::<Log, Log>(alloc, heap)?;
    let Some(second) = holders.pop() else {
        return Ok(None);
    };
    let Some(first) = holders.pop() else {
        return Ok(None);
    };
    Ok(Some(Parties {
        first: Seat::make(first),
        second: Seat::make(second),
        collector,
    }))
}
