ghost use Rattle.std.specs.Prelude.{◌≡◌, map, All, IfOk};
ghost use Rattle.std.specs.List.{range_with_len};
ghost use Rattle.heap_model.specs.Heap.{IsHeap};
ghost use Rattle.heap_table.specs.Known.{opening_known};
ghost use Rattle.heap_table.specs.Opened.{IsOpened};

use crate::collector::CollectorHolder;
use crate::holder::Holder;
use core_machine::{CountedLog, CountsEntries, Entries, LastLog};
use heap_model::{Heap, Memory};
use std::alloc::Global;

/// One heap's words, shared by the holders of its seats and of its collector.
pub struct HeapTable;

impl HeapTable {
    /// The holders of a heap that opens: one for each seat, in the seats' order, and the collector's.
    pub fn make<L: Entries, C: CountsEntries>(
        alloc: Global,
        heap: Heap,
    ) -> Result<(Vec<Holder<L>>, CollectorHolder<L, C>), Memory>
        requires { IsHeap heap }
        ensures numbers { IfOk result (λ made. map (λ held. held.number) made.0.items ≡ range_with_len 0 heap.seats) }
        ensures each { IfOk result (λ made. All (IsOpened made.1.table heap) made.0.items) }
        ensures heap { IfOk result (λ made. made.1.heap ≡ heap) }
        ensures known { IfOk result (λ made. made.1.known ≡ record (opening_known heap) { handed = heap.seats }) }
        ensures turns { IfOk result (λ made. made.1.turns ≡ 0) }
    {
        let mut collector = CollectorHolder::opening(alloc, heap)?;
        let mut holders = Vec::new(alloc);
        for number in 0..heap.seats {
            let holder = collector.next_seat(alloc, number)?;
            holders.push(holder)?;
        }
        Ok((holders, collector))
    }

    /// The holders of a heap without logs, likewise: a seat keeps its last entry alone, and the collector counts its own.
    pub fn make_told(
        alloc: Global,
        heap: Heap,
    ) -> Result<(Vec<Holder<LastLog>>, CollectorHolder<LastLog, CountedLog>), Memory>
        requires { IsHeap heap }
        ensures numbers { IfOk result (λ made. map (λ held. held.number) made.0.items ≡ range_with_len 0 heap.seats) }
        ensures each { IfOk result (λ made. All (IsOpened made.1.table heap) made.0.items) }
        ensures heap { IfOk result (λ made. made.1.heap ≡ heap) }
        ensures known { IfOk result (λ made. made.1.known ≡ record (opening_known heap) { handed = heap.seats }) }
        ensures turns { IfOk result (λ made. made.1.turns ≡ 0) }
    {
        HeapTable::make::<LastLog, CountedLog>(alloc, heap)
    }
}
