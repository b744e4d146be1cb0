ghost use Rattle.std.specs.Prelude.{◌≡◌, map, fold, All, IfOk};
ghost use Rattle.std.specs.List.{range_with_len};
ghost use Rattle.heap_table.specs.Closed.{HasOneHistory, logs_known};
ghost use Rattle.heap_table.specs.Folded.{AllFolded};
ghost use Rattle.heap_runs.specs.Finishing.{HasGone, HasLogs, EndsUnused, folded_in};

use collector_turns::Collector;
use core_rule::law_sweep_exact;
use heap_model::Memory;
use heap_record::end_whole_cycle;
use heap_table::{Closed, CollectorHolder};
use mutator_seat::Seat;
use std::alloc::Global;
use std::sync::Wait;

/// Folds in the seats, which have all left.
fn fold_all(collector: &mut CollectorHolder, seats: Vec<Seat>)
    requires { All (HasGone collector.old.table collector.old.heap) seats.items }
    ensures { collector.new ≡ record collector.old { known = fold folded_in collector.old.known seats.items } }
{
    for seat in seats {
        collector.fold_in(seat.into_holder());
    }
}

/// Closes the table, all of whose seats were folded in.
fn close(alloc: Global, collector: CollectorHolder) -> Result<Closed, Memory>
    requires { AllFolded collector.heap collector.known.seats }
    ensures heap { IfOk result (λ closed. closed.heap ≡ collector.heap) }
    ensures logs { IfOk result (λ closed. closed.logs ≡ logs_known collector.known) }
    ensures folded { IfOk result (λ closed. closed.folded ≡ collector.known.folded) }
    ensures history { IfOk result HasOneHistory }
{
    let Ok(closed) = collector.close(alloc) else {
        return Err(Memory);
    };
    // What is true of every closed table is known from here on.
    let _ = closed.logs();
    Ok(closed)
}

/// Folds in the seats, which have all left, makes turns up to the end of the first cycle that begins not before the first of them, and closes the table.
pub fn finish<R: Wait>(
    rt: &R,
    alloc: Global,
    collector: Collector,
    seats: Vec<Seat>,
) -> Result<Closed, Memory>
    requires gone { All (HasGone collector.holder.table collector.holder.heap) seats.items }
    requires numbers { map (λ held. held.number) seats.items ≡ range_with_len 0 collector.holder.heap.seats }
    ensures heap { IfOk result (λ closed. closed.heap ≡ collector.holder.heap) }
    ensures logs { IfOk result (HasLogs seats.items collector.holder.known.collector.log) }
    ensures unused { IfOk result EndsUnused }
{
    law_sweep_exact();
    let mut holder = collector.into_holder();
    // What is true of every collector's slots is known from here on.
    let _ = holder.heap();
    fold_all(&mut holder, seats);
    let mut collector = Collector::make(holder);
    end_whole_cycle(rt, &mut collector)?;
    let closed = close(alloc, collector.into_holder())?;
    Ok(closed)
}
