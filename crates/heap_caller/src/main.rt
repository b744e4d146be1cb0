//! The heap from Rust: two seats work in threads of their own beside the collector, the table is closed, and what all have told goes into one history.
#![tactic(auto)]

ghost use Rattle.heap_model.specs.Heap.{IsHeap};

mod closing;
mod opening;
mod working;

use heap_model::{Heap, Memory};
use log_merge::have_few_sets;
use opening::open;
use std::alloc::Global;
use std::io;
use std::thread::Threads;
use working::work_all;

/// How many objects were made, as the one history of the closed table tells; none where a seat hasn't left, or has set too often for its stamps to tell which set each is.
fn run<R: Threads + Sync>(rt: &R, alloc: Global, heap: Heap) -> Result<Option<usize>, Memory>
    requires { IsHeap heap }
{
    let Some(parties) = open(alloc, heap)? else {
        return Ok(None);
    };
    let parties = work_all(rt, parties)?;
    let Some(closed) = parties.close(alloc)? else {
        return Ok(None);
    };
    if !have_few_sets(closed.logs()) {
        return Ok(None);
    }
    let history = closing::merged(alloc, &closed)?;
    Ok(Some(closing::records(history.as_slice())))
}

fn main(rt: HostRuntime) -> io::Result<()> {
    let Some(heap) = Heap::make(8, 0, 2, 32) else {
        return println!(rt; "the sizes are out of their limits");
    };
    match run(&rt, rt.alloc(), heap) {
        Ok(Some(records)) => println!(rt; "one history has all of {records} records"),
        Ok(None) => println!(rt; "a seat hasn't left, or has set too often"),
        Err(Memory) => println!(rt; "memory is wanting"),
    }
}
