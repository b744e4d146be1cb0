//! A collect of one seat on a table while nobody else steps.

ghost use Rattle.std.specs.Prelude.{◌≡◌, ◌≤◌, All, IfOk};
ghost use Rattle.heap_table.specs.Opened.{IsOpened};
ghost use Rattle.heap_runs.specs.CollectCall.{IsPresent};

use super::comparing::same;
use super::opened::opened;
use collector_turns::Collector;
use heap_model::{CollectReply, Heap, Memory, SeatCalls};
use heap_runs::{Held, HeldName, collect_call};
use mutator_seat::Seat;
use slack_pace::{Pace, Steady};
use std::alloc::Global;
use std::marker::Brand;
use std::sync::{Mutex, Wait};
use std::test::Fail;

/// A collect of the seat, on a table whose name is picked for it.
fn collect_named<N: HeldName, R: Wait>(
    rt: &R,
    collector: Collector,
    seat: &mut Seat,
    pace: Box<dyn Pace>,
    patience: u32,
) -> Result<CollectReply, Memory>
    requires table { (collector.holder.table ≡ N.table) × (seat.old.table ≡ N.table) }
    requires heap { (collector.holder.heap ≡ N.heap) × (seat.old.heap ≡ N.heap) }
    requires before { collector.holder.known.collector.log ≡ N.before }
    requires present { IsPresent seat.old }
    requires patience { 1 ≤ patience }
{
    let held = Mutex::new(Held::<N>::new(collector, pace));
    collect_call(rt, seat, &held, patience)
}

/// The table's seat 0, which hasn't left.
fn first_seat(collector: &Collector, seats: Vec<Seat>) -> Result<Seat, Fail>
    requires opened { All (IsOpened collector.now.holder.table collector.now.holder.heap) seats.items }
    ensures table { IfOk result (λ seat. seat.table ≡ collector.now.holder.table) }
    ensures heap { IfOk result (λ seat. seat.heap ≡ collector.now.holder.heap) }
    ensures present { IfOk result IsPresent }
{
    for seat in seats {
        if seat.number() == 0 && !seat.left() {
            return Ok(seat);
        }
    }
    Err(Fail::from("a seat"))
}

/// What a collect of the seat on its table is answered, and how often the seat has found others behind then.
fn collect_of<R: Wait>(
    rt: &R,
    collector: Collector,
    seat: &mut Seat,
    pace: Box<dyn Pace>,
    patience: u32,
) -> Result<(CollectReply, u64), Fail>
    requires table { seat.old.table ≡ collector.holder.table }
    requires heap { seat.old.heap ≡ collector.holder.heap }
    requires present { IsPresent seat.old }
    requires patience { 1 ≤ patience }
{
    let reply = collect_named::<Brand, R>(rt, collector, seat, pace, patience)?;
    Ok((reply, seat.waits()))
}

/// What a collect of the first of so many seats comes to on a table that opens.
fn first_collect<R: Wait>(
    rt: &R,
    alloc: Global,
    seats: u8,
    patience: u32,
) -> Result<(CollectReply, u64), Fail>
    requires { 1 ≤ patience }
{
    let heap = Heap::make(1, 0, seats, 32).ok_or("a heap")?;
    let pace = Box::new(alloc, Steady)?;
    let (seats, collector) = opened(alloc, heap)?;
    let mut seat = first_seat(&collector, seats)?;
    collect_of(rt, collector, &mut seat, pace, patience)
}

#[test]
fn a_seat_alone_sees_its_cycle_end(rt: HostRuntime) -> Result<(), Fail> {
    let came = first_collect(&rt, rt.alloc(), 1, 1)?;
    let wanted = (CollectReply::Cycle(0), 0);
    same(&rt, &came, &wanted, &"a seat alone");
    Ok(())
}

#[test]
fn a_seat_waits_for_one_that_never_polls(rt: HostRuntime) -> Result<(), Fail> {
    let came = first_collect(&rt, rt.alloc(), 2, 3)?;
    let waits = CollectReply::Waits {
        seat: 1,
        answered: 0,
        phase: 1,
    };
    same(&rt, &came, &(waits, 3), &"a seat that never polls");
    Ok(())
}
