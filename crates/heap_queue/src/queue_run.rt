ghost use Rattle.std.specs.Prelude.{◌≡◌, ◌*◌, ◌<◌, ◌≤◌, map, All, IfOk, IfErr};
ghost use Rattle.std.specs.List.{range_with_len};
ghost use Rattle.heap_model.specs.Limits.{group_fragments};
ghost use Rattle.heap_model.specs.Needs.{record_fragments};
ghost use Rattle.heap_queue.specs.Running.{MayRunQueue, IsQueueRan, IsFaultOf};
ghost use Rattle.heap_queue.specs.Working.{IsReadyToServe};

use crate::opening::open;
use crate::queue_command::QueueCommand;
use crate::queue_fault::QueueFault;
use crate::refusing::refuse;
use crate::workers::work_all;
use collector_turns::Collector;
use heap_model::{Gate, Memory};
use heap_runs::{Held, HeldName, finish};
use heap_table::Closed;
use mutator_seat::Seat;
use slack_pace::Pace;
use std::alloc::Global;
use std::marker::Brand;
use std::sync::{Mutex, Wait};
use std::thread::Threads;

/// What a run of a queue came to: the closed table.
#[derive(Drop)]
pub struct QueueRan {
    pub closed: Closed,
}

/// Lets each seat serve its script, once the first has made the queue, and closes the table.
fn serve_all<N: HeldName + Send + Sync, G: Gate, R: Threads + Wait + Sync>(
    rt: &R,
    alloc: Global,
    seats: Vec<Seat>,
    collector: Collector,
    scripts: &[Vec<QueueCommand>],
    pace: Box<dyn Pace>,
    gate: &G,
) -> Result<QueueRan, Memory>
    requires table { collector.holder.table ≡ N.table }
    requires heap { collector.holder.heap ≡ N.heap }
    requires before { collector.holder.known.collector.log ≡ N.before }
    requires some { 1 ≤ collector.holder.heap.seats }
    requires numbered { map (λ seat. seat.number) seats.items ≡ range_with_len 0 collector.holder.heap.seats }
    requires ready { All (IsReadyToServe N.table N.heap (map (λ script. script.items) scripts.now)) seats.items }
    ensures { IfOk result (IsQueueRan (map (λ script. script.items) scripts.now) collector) }
{
    let held = Mutex::new(Held::<N>::new(collector, pace));
    let seats = work_all(rt, alloc, &held, seats, scripts, gate)?;
    let Held { collector, .. } = held.into_inner();
    let closed = finish(rt, alloc, collector, seats)?;
    Ok(QueueRan { closed })
}

/// A run of a queue whose table and collector its name tells.
fn run_named<N: HeldName + Send + Sync, G: Gate, R: Threads + Wait + Sync>(
    rt: &R,
    alloc: Global,
    mut seats: Vec<Seat>,
    collector: Collector,
    scripts: &[Vec<QueueCommand>],
    pace: Box<dyn Pace>,
    gate: &G,
) -> Result<QueueRan, QueueFault>
    requires table { collector.holder.table ≡ N.table }
    requires heap { collector.holder.heap ≡ N.heap }
    requires before { collector.holder.known.collector.log ≡ N.before }
    requires may { MayRunQueue seats.items collector (map (λ script. script.items) scripts.now) }
    ensures ran { IfOk result (IsQueueRan (map (λ script. script.items) scripts.now) collector) }
    ensures full { IfErr result (IsFaultOf collector.holder.heap) }
    ensures room { IfOk result (λ ran. record_fragments collector.holder.heap.board < group_fragments * collector.holder.heap.groups) }
{
    // What is true of every collector's heap is known from here on.
    let _ = collector.heap();
    let refused = open::<N>(&mut seats)?;
    if let Some(full) = refused {
        return Err(refuse(rt, alloc, seats, collector, full));
    }
    let ran = serve_all::<N, G, R>(rt, alloc, seats, collector, scripts, pace, gate)?;
    Ok(ran)
}

/// Makes a queue on the first seat of one table, and then lets each seat serve its script of puts and takes and leave, each in a thread of its own, with the collector's slack turns, which the
/// pace asks for, on one more; no lock stands round a word of the heap. A seat passes the gate before each command. Then all seats are folded in, a last cycle is made, and the table is
/// closed. Where there is no fragment for the queue's first node all seats leave at once, and the table is closed likewise.
pub fn run_queue<G: Gate, R: Threads + Wait + Sync>(
    rt: &R,
    alloc: Global,
    seats: Vec<Seat>,
    collector: Collector,
    scripts: &[Vec<QueueCommand>],
    pace: Box<dyn Pace>,
    gate: &G,
) -> Result<QueueRan, QueueFault>
    requires may { MayRunQueue seats.items collector (map (λ script. script.items) scripts.now) }
    ensures ran { IfOk result (IsQueueRan (map (λ script. script.items) scripts.now) collector) }
    ensures full { IfErr result (IsFaultOf collector.holder.heap) }
    ensures room { IfOk result (λ ran. record_fragments collector.holder.heap.board < group_fragments * collector.holder.heap.groups) }
{
    run_named::<Brand, G, R>(rt, alloc, seats, collector, scripts, pace, gate)
}
