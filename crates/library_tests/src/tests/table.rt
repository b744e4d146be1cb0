//! The table that threads share: two seats work in threads of their own, and when all is closed what they have told goes together.

ghost use Rattle.std.specs.Prelude.{IfOk, IfSome};
ghost use Rattle.heap_model.specs.Heap.{IsHeap};
ghost use Rattle.library_tests.specs.SameSeat.{IsOfTable, IsSameSeat, IsSameTable};

use super::call_steps::make_long_record;
use super::comparing::same;
use super::opening::two_seats;
use core_machine::Log;
use heap_model::{Command, Entry, Heap, Memory, Reply};
use heap_table::{Closed, CollectorHolder, Holder};
use std::alloc::Global;
use std::test::Fail;
use std::thread::{Threads, join};

/// More steps than a call here makes.
const MANY: u32 = 10_000;

/// Makes a whole call, step by step; none where it may not be begun.
fn call(holder: &mut Holder, command: Command) -> Result<(), Memory>
    ensures { IsSameSeat holder.old holder.new }
{
    if !holder.may_begin(&command) {
        return Ok(());
    }
    holder.begin(command);
    for _ in 0..MANY {
        let Some(step) = holder.due() else {
            break;
        };
        holder.room(2)?;
        holder.step(&step);
    }
    Ok(())
}

/// What a seat does before it leaves.
#[derive(Clone, Copy)]
pub(super) enum Task {
    /// So many records of two fields.
    Records(u32),
    /// One record of forty-seven, by the calls that it is made of.
    LongRecord,
}

/// Makes so many records of two fields.
fn make_records(holder: &mut Holder, records: u32) -> Result<(), Memory>
    ensures { IsSameSeat holder.old holder.new }
{
    for _ in 0..records {
        call(holder, Command::New { d: 1, fields: 2 })?;
    }
    Ok(())
}

/// Does its task, and leaves.
fn work(holder: Holder, task: Task) -> Result<Holder, Memory>
    ensures { IfOk result (IsSameSeat holder) }
{
    let mut holder = holder;
    match task {
        Task::Records(records) => make_records(&mut holder, records)?,
        Task::LongRecord => make_long_record(&mut holder)?,
    }
    call(&mut holder, Command::Leave)?;
    Ok(holder)
}

/// How many objects the entries tell to be made.
fn made(entries: &[Entry]) -> usize {
    entries
        .iter()
        .filter(|entry| {
            matches!(
                entry,
                Entry::Said {
                    reply: Reply::Made(_),
                    ..
                }
            )
        })
        .count()
}

/// Folds a seat in, if it has left.
fn fold(collector: &mut CollectorHolder, holder: Holder)
    requires { IsOfTable collector.old holder }
    ensures { IsSameTable collector.old collector.new }
{
    if holder.party().left() {
        collector.fold_in(holder);
    }
}

/// Two seats do the task, in a thread each.
fn in_two_threads<R: Threads>(
    rt: &R,
    first: Holder,
    second: Holder,
    task: Task,
) -> (Result<Holder, Memory>, Result<Holder, Memory>)
    ensures first { IfOk result.0 (IsSameSeat first) }
    ensures second { IfOk result.1 (IsSameSeat second) }
{
    join(
        rt,
        move || -> Result<Holder, Memory>
            ensures { IfOk result (IsSameSeat first) }
        { work(first, task) },
        move || -> Result<Holder, Memory>
            ensures { IfOk result (IsSameSeat second) }
        { work(second, task) },
    )
}

/// Closes the table of these two seats, if they have left.
pub(super) fn close_two(
    alloc: Global,
    collector: CollectorHolder,
    first: Holder,
    second: Holder,
) -> Result<Option<Closed>, Memory>
    requires first { IsOfTable collector first }
    requires second { IsOfTable collector second }
    ensures { IfOk result (λ closed. IfSome closed (λ table. IsHeap table.heap)) }
{
    let mut collector = collector;
    fold(&mut collector, first);
    fold(&mut collector, second);
    if !collector.all_folded() {
        return Ok(None);
    }
    // The heap's limits are known from here on.
    let _ = collector.heap();
    match collector.close(alloc) {
        Ok(closed) => Ok(Some(closed)),
        Err(_) => Err(Memory),
    }
}

/// Two seats of a heap work so; then all is closed.
pub(super) fn run_two<R: Threads>(
    rt: &R,
    alloc: Global,
    heap: Heap,
    task: Task,
) -> Result<Option<Closed>, Fail>
    requires { IsHeap heap }
{
    let (first, second, collector) = two_seats::<Log, Log>(alloc, heap)?;
    let (first, second) = (first.into_holder(), second.into_holder());
    let (one, other) = in_two_threads(rt, first, second, task);
    Ok(close_two(alloc, collector, one?, other?)?)
}

/// How many objects the logs tell to be made.
fn all_made(logs: &[Vec<Entry>]) -> usize {
    let mut all: usize = 0;
    for log in logs {
        all = all.saturating_add(made(log.as_slice()));
    }
    all
}

/// The bits of the first group's control word that are of taken fragments.
fn first_taken(words: &[u64]) -> Option<u64> {
    words.get(19).map(|word| word & 0xffff)
}

#[test]
fn two_threads_make_forty_records(rt: HostRuntime) -> Result<(), Fail> {
    let heap = Heap::make(8, 0, 2, 32).ok_or("the limits")?;
    let closed = run_two(&rt, rt.alloc(), heap, Task::Records(20))?.ok_or("a seat hasn't left")?;
    let logs = closed.logs();
    same(&rt, &logs.len(), &3, &"the logs");
    same(&rt, &all_made(logs), &40, &"the records");
    let words = closed.words();
    same(&rt, &words.len(), &(19 + 65 * 8), &"the words");
    same(&rt, &first_taken(words), &Some(0xffff), &"the first group");
    same(&rt, &closed.folded(), &0, &"the phase");
    Ok(())
}
