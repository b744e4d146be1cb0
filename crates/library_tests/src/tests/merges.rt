//! Logs that are merged.

ghost use Rattle.std.specs.Prelude.{◌≡◌, map, filter, IfOk, OnOk};
ghost use Rattle.heap_model.specs.Heap.{IsHeap};
ghost use Rattle.heap_model.specs.Logs.{logs_of};
ghost use Rattle.heap_model.specs.account.Effects.{is_of};
ghost use Rattle.heap_model.specs.account.Noting.{is_collectors};
ghost use Rattle.heap_model.specs.graph.Legal.{IsObjectLegal};

use super::comparing::same;
use super::swaps::{FIRST, READ, swap};
use heap_model::{Command, Entry, Graph, Heap, Memory, Reply, Value};
use log_merge::{have_few_sets, merge};
use reply_text::read_history;
use std::alloc::Global;
use std::process::Abort;
use std::test::Fail;

// The entries of the seat.
fn seat_log(alloc: Global, entries: &[Entry], number: u8) -> Result<Vec<Entry>, Memory>
    ensures { IfOk result (λ log. log.items ≡ filter (is_of number) entries.now) }
{
    let mut log = Vec::new(alloc);
    for entry in entries {
        match entry.seat() {
            Some(seat) if seat == number => log.push(*entry)?,
            _ => {}
        }
    }
    Ok(log)
}

// The entries of the collector.
fn collector_log(alloc: Global, entries: &[Entry]) -> Result<Vec<Entry>, Memory>
    ensures { IfOk result (λ log. log.items ≡ filter is_collectors entries.now) }
{
    let mut log = Vec::new(alloc);
    for entry in entries {
        if entry.seat().is_none() {
            log.push(*entry)?;
        }
    }
    Ok(log)
}

// The logs that the entries come from.
fn logs_of(alloc: Global, heap: Heap, entries: &[Entry]) -> Result<Vec<Vec<Entry>>, Memory>
    ensures { IfOk result (λ logs. map (λ log. log.items) logs.items ≡ logs_of heap entries.now) }
{
    let mut logs = Vec::new(alloc);
    for number in 0..heap.seats {
        logs.push(seat_log(alloc, entries, number)?)?;
    }
    logs.push(collector_log(alloc, entries)?)?;
    Ok(logs)
}

// Lets a graph grow by the entries, in this order.
pub(super) fn accept(alloc: Global, heap: Heap, entries: &[Entry]) -> Result<(), Fail>
    requires { IsHeap heap }
    ensures { OnOk result (IsObjectLegal heap entries.now) }
{
    let mut graph = Graph::new(alloc, heap)?;
    for entry in entries {
        graph.apply(entry)?;
    }
    Ok(())
}

// What the logs of the entries come to, which the graph accepts in the order in which they are given.
fn merged(alloc: Global, heap: Heap, entries: &[Entry]) -> Result<Vec<Entry>, Fail>
    requires { IsHeap heap }
{
    accept(alloc, heap, entries)?;
    let logs = logs_of(alloc, heap, entries)?;
    if !have_few_sets(logs.as_slice()) {
        return Err("more sets than stamps".into());
    }
    Ok(merge(alloc, logs.as_slice(), heap)?)
}

// Runs' entries in some order, and in that of the merge: a seat goes on until it has to wait; a get that finds another's
// set waits for it; a set waits for the gets of the stamp that it replaces; the collector comes last.
const MERGED: [(&str, &str); 3] = [
    (
        "history 1 run\nheap 1 0 2\n1 num 1 6 = ok\n0 num 1 5 = ok\n0 set 0 3 1 = was -\n1 set 0 3 1 = was 0:1\n1 get 2 0 3 = number 6 at 1:1\n0 get 2 0 3 = number 6 at 1:1\nend used 11\n",
        "history 1 run\nheap 1 0 2\n0 num 1 5 = ok\n0 set 0 3 1 = was -\n1 num 1 6 = ok\n1 set 0 3 1 = was 0:1\n0 get 2 0 3 = number 6 at 1:1\n1 get 2 0 3 = number 6 at 1:1\nend used 11\n",
    ),
    (
        "history 1 run\nheap 1 0 2\n1 num 1 7 = ok\n1 get 2 0 3 = nil at -\n1 nil 2 = ok\n0 num 1 5 = ok\n0 set 0 3 1 = was -\nend used 11\n",
        "history 1 run\nheap 1 0 2\n0 num 1 5 = ok\n1 num 1 7 = ok\n1 get 2 0 3 = nil at -\n0 set 0 3 1 = was -\n1 nil 2 = ok\nend used 11\n",
    ),
    (
        "history 1 run\nheap 1 0 1\nc phase 1\n0 num 1 5 = ok\n0 answers 1\n0 leave = ok\nend used 11\n",
        "history 1 run\nheap 1 0 1\n0 num 1 5 = ok\n0 answers 1\n0 leave = ok\nc phase 1\nend used 11\n",
    ),
];

// What the logs of the run come to that the text is.
fn merged_run(alloc: Global, text: &str) -> Result<Vec<Entry>, Fail> {
    let run = read_history(alloc, text.as_bytes())?;
    merged(alloc, run.heap, run.entries.as_slice())
}

// The run that is given comes to the one that is wanted.
fn comes_to(rt: &(impl Abort + AllocGlobal), given: &str, wanted: &str) -> Result<(), Fail> {
    let found = merged_run(rt.alloc(), given)?;
    let history = read_history(rt.alloc(), wanted.as_bytes())?;
    same(rt, &found.as_slice(), &history.entries.as_slice(), &given);
    Ok(())
}

#[test]
fn puts_first_what_is_ready(rt: HostRuntime) -> Result<(), Fail> {
    for (given, wanted) in MERGED {
        comes_to(&rt, given, wanted)?;
    }
    Ok(())
}

fn said(seat: u8, command: Command, reply: Reply) -> Entry {
    Entry::Said {
        seat,
        command,
        reply,
    }
}

// The seat's number in its register 1.
fn number(seat: u8, n: u32) -> Entry {
    said(seat, Command::Num { d: 1, n }, Reply::Done)
}

// The second seat finds the field as it opened.
fn got() -> Entry {
    let reply = Reply::Got {
        value: Value::Nil,
        stamp: 0,
    };
    said(1, READ, reply)
}

// Two orders of the same entries in turn: of a cas that left the field, of the get of it, and of the cas that then swapped it.
fn swaps() -> [([Entry; 6], [Entry; 6]); 2] {
    let (first, second) = (number(0, 5), number(1, 6));
    let left = said(1, swap(1), Reply::Now(0));
    let swapped = said(0, swap(5), Reply::Was(0));
    let later = said(1, swap(2), Reply::Now(FIRST));
    [
        (
            [second, left, got(), first, swapped, later],
            [first, second, left, got(), swapped, later],
        ),
        (
            [second, got(), left, first, swapped, later],
            [first, second, got(), left, swapped, later],
        ),
    ]
}

// A cas that swaps waits for those of other logs that found the field before it and left it, and for gets as a set does.
#[test]
fn puts_a_cas_that_left_the_field_first(rt: HostRuntime) -> Result<(), Fail> {
    let heap = Heap::make(1, 0, 2, 32).ok_or("the limits")?;
    for (given, wanted) in &swaps() {
        let found = merged(rt.alloc(), heap, given.as_slice())?;
        same(&rt, &found.as_slice(), &wanted.as_slice(), &"a cas");
    }
    Ok(())
}
