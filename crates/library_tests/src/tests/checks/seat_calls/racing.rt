//! Two seats of one table swap a field of the board in threads of their own, beside the collector's turns: what all have told goes together.

ghost use Rattle.std.specs.Prelude.{IfOk};
ghost use Rattle.heap_model.specs.Heap.{IsHeap};
ghost use Rattle.library_tests.specs.SameSeat.{IsSameSeat, IsSameTable};

use super::calling::called;
use crate::tests::comparing::{holds, same};
use crate::tests::merges::accept;
use crate::tests::opening::two_seats;
use crate::tests::swaps::{READ, swap};
use crate::tests::table::close_two;
use core_machine::Log;
use heap_model::limits::{SET_LIMIT, STAMP_LIMIT};
use heap_model::{Command, Entry, Heap, Memory, Reply, SeatCalls, Turn};
use heap_table::{Closed, CollectorHolder};
use log_merge::{have_few_sets, merge};
use mutator_seat::Seat;
use std::alloc::Global;
use std::process::Abort;
use std::sync::atomic::{AtomicU64, Ordering};
use std::test::Fail;
use std::thread::{Threads, join, yield_now};

/// How often each seat reads the field and swaps it.
const PAIRS: usize = 1_000;

/// More entries than a call here adds.
const ROOM: usize = 100;

/// More turns than are made beside that.
const MANY: u32 = 1_000_000;

/// Puts a new record into the field so often, each time where the field is as it was just read, and polls.
fn swap_often(seat: &mut Seat) -> Result<(), Memory>
    ensures { IsSameSeat seat.old seat.new }
{
    for _ in 0..PAIRS {
        called(seat, &Command::New { d: 1, fields: 2 }, ROOM)?;
        called(seat, &READ, ROOM)?;
        called(seat, &swap(2), ROOM)?;
        called(seat, &Command::Poll, ROOM)?;
    }
    Ok(())
}

/// Swaps, and tells that one seat more is done.
fn work(seat: Seat, done: &AtomicU64) -> Result<Seat, Memory>
    ensures { IfOk result (IsSameSeat seat) }
{
    let mut seat = seat;
    let worked = swap_often(&mut seat);
    done.fetch_add(1, Ordering::SeqCst);
    worked?;
    Ok(seat)
}

/// Makes turns until both seats are done.
fn turn_beside(collector: CollectorHolder, done: &AtomicU64) -> Result<CollectorHolder, Memory>
    ensures { IfOk result (IsSameTable collector) }
{
    let mut collector = collector;
    for _ in 0..MANY {
        if done.load(Ordering::SeqCst) >= 2 {
            break;
        }
        collector.room(2)?;
        if let (_, Turn::Waits { .. }) = collector.turn() {
            yield_now();
        }
    }
    Ok(collector)
}

/// Both seats swap, in a thread each.
fn work_both<R: Threads>(
    rt: &R,
    first: Seat,
    second: Seat,
    done: &AtomicU64,
) -> Result<(Seat, Seat), Memory>
    ensures first { IfOk result (λ seats. IsSameSeat first seats.0) }
    ensures second { IfOk result (λ seats. IsSameSeat second seats.1) }
{
    let (first, second) = join(
        rt,
        move || -> Result<Seat, Memory>
            ensures { IfOk result (IsSameSeat first) }
        { work(first, done) },
        move || -> Result<Seat, Memory>
            ensures { IfOk result (IsSameSeat second) }
        { work(second, done) },
    );
    Ok((first?, second?))
}

/// Both seats swap, while one more thread makes the collector's turns: the seats that are left, and the collector.
fn race<R: Threads + Sync>(
    rt: &R,
    first: Seat,
    second: Seat,
    collector: CollectorHolder,
) -> Result<(Seat, Seat, CollectorHolder), Memory>
    ensures first { IfOk result (λ raced. IsSameSeat first raced.0) }
    ensures second { IfOk result (λ raced. IsSameSeat second raced.1) }
    ensures collector { IfOk result (λ raced. IsSameTable collector raced.2) }
{
    let done = AtomicU64::new(0);
    let (seats, collector) = join(
        rt,
        || work_both(rt, first, second, &done),
        || turn_beside(collector, &done),
    );
    let (first, second) = seats?;
    Ok((first, second, collector?))
}

/// How many sets the seat has done.
fn sets_done(seat: &Seat) -> u64 {
    SET_LIMIT - 1 - seat.sets_left()
}

/// Whether the stamp is that of the last swap of a seat, which has done so many. A stamp has the seat's number and one more.
fn is_last_of(stamp: u32, seat: u32, swaps: u64) -> bool {
    let count = u64::from(stamp % STAMP_LIMIT);
    stamp / STAMP_LIMIT == seat.saturating_add(1) && count == swaps % u64::from(STAMP_LIMIT)
}

/// How many of the entries are a cas and, among these, how many have swapped.
fn counts(log: &[Entry]) -> (usize, usize) {
    let mut tries: usize = 0;
    let mut swaps: usize = 0;
    for entry in log {
        if let Entry::Said {
            command: Command::Cas { .. },
            reply,
            ..
        } = entry
        {
            tries = tries.saturating_add(1);
            if matches!(reply, Reply::Was(_)) {
                swaps = swaps.saturating_add(1);
            }
        }
    }
    (tries, swaps)
}

/// A graph accepts the merged logs, whole.
fn go_together(rt: &impl Abort, alloc: Global, closed: &Closed) -> Result<(), Fail>
    requires { IsHeap closed.now.heap }
{
    let heap = closed.heap();
    if !have_few_sets(closed.logs()) {
        return Err("more sets than stamps".into());
    }
    let merged = merge(alloc, closed.logs(), heap)?;
    accept(alloc, heap, merged.as_slice())?;
    let mut told: usize = 0;
    for log in closed.logs() {
        told = told.saturating_add(log.len());
    }
    same(rt, &merged.len(), &told, &"the entries");
    Ok(())
}

/// Each of the seats has made its pairs, and has done a set for each swap.
fn have_swapped(rt: &impl Abort, closed: &Closed, done: &[u64]) {
    for (log, done) in closed.logs().iter().zip(done) {
        let wanted = (PAIRS, *done as usize);
        same(rt, &counts(log.as_slice()), &wanted, &"a seat");
    }
}

/// The field has the stamp of the last swap of one of the seats, which leave then: how many sets each has done.
fn end(rt: &impl Abort, first: &mut Seat, second: &mut Seat) -> Result<[u64; 2], Fail>
    ensures first { IsSameSeat first.old first.new }
    ensures second { IsSameSeat second.old second.new }
{
    let done = [sets_done(first), sets_done(second)];
    let Some(Reply::Got { stamp, .. }) = called(first, &READ, ROOM)? else {
        return Err("the field".into());
    };
    let last = is_last_of(stamp, 0, done[0]) || is_last_of(stamp, 1, done[1]);
    holds(rt, last, &"the field's stamp");
    called(first, &Command::Leave, ROOM)?;
    called(second, &Command::Leave, ROOM)?;
    Ok(done)
}

#[test]
fn two_seats_swap_one_field(rt: HostRuntime) -> Result<(), Fail> {
    let alloc = rt.alloc();
    let heap = Heap::make(16, 0, 2, 32).ok_or("the limits")?;
    let (first, second, collector) = two_seats::<Log, Log>(alloc, heap)?;
    let (mut first, mut second, collector) = race(&rt, first, second, collector)?;
    let done = end(&rt, &mut first, &mut second)?;
    let (first, second) = (first.into_holder(), second.into_holder());
    let Some(closed) = close_two(alloc, collector, first, second)? else {
        return Err("a seat hasn't left".into());
    };
    have_swapped(&rt, &closed, &done);
    go_together(&rt, alloc, &closed)
}
