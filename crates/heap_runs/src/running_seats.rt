ghost use Rattle.std.specs.Prelude.{◌≡◌, ◌≤◌, ◌<◌, ◌^◌, length, map, All, IfOk};
ghost use Rattle.mutator_seat.specs.Resting.{IsBetweenCalls};
ghost use Rattle.heap_runs.specs.RunningSeats.{MayRun, IsRanOf};

use crate::finishing::finish;
use crate::role::{Held, HeldName};
use crate::workers::work_all;
use collector_turns::Collector;
use heap_model::{Command, Gate, Memory};
use heap_table::{Closed, Holder};
use mutator_seat::Seat;
use slack_pace::Pace;
use std::alloc::Global;
use std::marker::Brand;
use std::sync::{Mutex, Wait};
use std::thread::Threads;

/// What a run on a shared table came to: the closed table, and how often each seat has found another one behind, up to the largest number of 64 bits.
#[derive(Drop)]
pub struct Ran {
    pub closed: Closed,
    pub waits: Vec<u64>,
}

/// The seats of these holders, in their order.
pub fn seats_of(alloc: Global, holders: Vec<Holder>) -> Result<Vec<Seat>, Memory>
    requires { All IsBetweenCalls holders.items }
    ensures { IfOk result (λ seats. seats.items ≡ holders.items) }
{
    let mut seats = Vec::new(alloc);
    for holder in holders {
        seats.push(Seat::make(holder))?;
    }
    Ok(seats)
}

/// How often each seat has found another one behind.
fn waits_of(alloc: Global, seats: &[Seat]) -> Result<Vec<u64>, Memory>
    ensures { IfOk result (λ waits. waits.items ≡ map (λ seat. seat.seat.looks.waits) seats.now) }
{
    let mut waits = Vec::new(alloc);
    for seat in seats {
        waits.push(seat.waits())?;
    }
    Ok(waits)
}

/// The collector of a run, and the pace of its slack turns.
#[derive(Drop)]
struct PacedCollector {
    collector: Collector,
    pace: Box<dyn Pace>,
}

/// A run whose table and collector its name tells.
fn run_named<N: HeldName + Send + Sync, G: Gate, R: Threads + Wait + Sync>(
    rt: &R,
    alloc: Global,
    seats: Vec<Seat>,
    paced: PacedCollector,
    scripts: &[Vec<Command>],
    patience: u32,
    gate: &G,
) -> Result<Ran, Memory>
    requires table { paced.collector.holder.table ≡ N.table }
    requires heap { paced.collector.holder.heap ≡ N.heap }
    requires before { paced.collector.holder.known.collector.log ≡ N.before }
    requires may { MayRun seats.items paced.collector (map (λ script. script.items) scripts.now) }
    requires patience { 1 ≤ patience }
    ensures { IfOk result (IsRanOf patience (map (λ script. script.items) scripts.now) seats.items paced.collector) }
{
    let PacedCollector { collector, pace } = paced;
    let held = Mutex::new(Held::<N>::new(collector, pace));
    let seats = work_all(rt, alloc, &held, seats, scripts, patience, gate)?;
    let waits = waits_of(alloc, seats.as_slice())?;
    let Held { collector, .. } = held.into_inner();
    let closed = finish(rt, alloc, collector, seats)?;
    Ok(Ran { closed, waits })
}

/// Runs the scripts on the seats of one table, each seat's on a thread of its own, and the collector's slack turns, which the pace asks for, on one more; no lock stands round a word of
/// the heap. A seat passes the gate before each command. A collect answers that it waits once it has found another seat behind `patience` times. Then all seats are folded in, a last
/// cycle is made, and the table is closed. The only error is want of memory.
pub fn run_seats<G: Gate, R: Threads + Wait + Sync>(
    rt: &R,
    alloc: Global,
    seats: Vec<Seat>,
    collector: Collector,
    scripts: &[Vec<Command>],
    pace: Box<dyn Pace>,
    patience: u32,
    gate: &G,
) -> Result<Ran, Memory>
    requires may { MayRun seats.items collector (map (λ script. script.items) scripts.now) }
    requires patience { 1 ≤ patience }
    ensures { IfOk result (IsRanOf patience (map (λ script. script.items) scripts.now) seats.items collector) }
{
    let paced = PacedCollector { collector, pace };
    run_named::<Brand, G, R>(rt, alloc, seats, paced, scripts, patience, gate)
}
