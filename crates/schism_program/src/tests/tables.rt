//! Which works leave the table that they ran on.

use super::comparing::holds;
use super::{ended_with, usual};
use heap_model::OpenGate;
use heap_table::Closed;
use io_edge::{NeverSink, NeverSource};
use std::alloc::Global;
use std::process::Abort;
use std::sync::Wait;
use std::test::Fail;
use std::thread::Threads;

/// Lines of words, one after another, the text that each is given, and whether a table is left: only a run without the lock that is done leaves one, a crew that had a job or whose
/// history was asked for, and a queue for which there was room; the next work takes away what the one before has left.
const WORKS: [(&str, &str, bool); 15] = [
    ("run", "schism 1\nheap 1 0 1\n0 new 1 2\n", true),
    ("run --locked", "schism 1\nheap 1 0 1\n0 new 1 2\n", false),
    ("run --patience 3", "schism 1\nheap 1 0 2\n1 poll\n", true),
    ("run", "schism 1\nheap 1 0 1\nc turns 2\n", false),
    ("run", "schism 1\nheap 1 0 1\n", true),
    ("play", "schism 1\nheap 1 0 1\n0 new 1 2\n", false),
    ("make 1 1 4", "", false),
    ("run", "schism 2\nheap 1 0 1 47\n0 new 1 2\n", true),
    ("migrate script", "schism 1\nheap 1 0 1\n", false),
    ("crew", "crew 1\nheap 1 0 2 3\n4 poll\n", true),
    ("crew", "crew 1\nheap 1 0 2 3\n", false),
    ("crew --history", "crew 1\nheap 1 0 2 3\n", true),
    ("queue", "queue 1\nheap 1 0 2 3\n1 take\n", true),
    ("queue", "queue 1\nheap 1 0 1 47\n", false),
    ("run again", "schism 1\nheap 1 0 1\n", false),
];

/// Lets the words of the line work on the text, and tells whether a table is left.
fn leaves(
    rt: &(impl Abort + Threads + Wait + Sync),
    alloc: Global,
    line: &str,
    text: &str,
    closed: &mut Option<Closed>,
) -> Result<bool, Fail> {
    let words: Vec<&str> = line.split(' ').collect(alloc)?;
    let source = &mut NeverSource::new(Vec::from_slice(alloc, text.as_bytes())?);
    let sink = &mut NeverSink::new(Vec::with_capacity(alloc, 4096)?);
    let paces = usual(alloc)?;
    ended_with(rt, alloc, &words, source, sink, &OpenGate, paces, closed);
    Ok(closed.is_some())
}

#[test]
fn leaves_the_table_of_a_run(rt: HostRuntime) -> Result<(), Fail> {
    let mut closed = None;
    for &(line, text, left) in &WORKS {
        let found = leaves(&rt, rt.alloc(), line, text, &mut closed)?;
        holds(&rt, found == left, &line);
    }
    Ok(())
}
