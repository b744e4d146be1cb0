//! Runs on a shared table whose logs a search puts into one order that graph and account accept.

ghost use Rattle.std.specs.Prelude.{◌≤◌};
ghost use Rattle.heap_model.specs.Heap.{IsHeap};
ghost use Rattle.script_text.specs.Made.{most_start};

use super::comparing::{holds, same};
use heap_model::{Entry, Heap, Reply};
use running::{Run, run_from};
use search::{End, searched};
use std::alloc::Global;
use std::process::Abort;
use std::sync::Wait;
use std::test::Fail;
use std::thread::Threads;

mod books;
mod order;
mod running;
mod scripts;
mod search;
mod together;
mod waiting;
mod worked;

/// The groups and spine words of the heaps.
const SIZES: [(u16, u16); 6] = [(1, 0), (2, 4), (3, 8), (4, 0), (1, 4), (2, 8)];

/// How many runs there are.
const RUNS: u32 = 100;

/// How many there are at most, where fewer bring too little, as on processors that are full with other work.
const MOST_RUNS: u32 = 1_000;

/// The most steps of a search. Nearly all take one for each entry and some more, but a few that go back far take tens of thousands.
const MOST_STEPS: u32 = 400_000;

/// How often things have come that these runs are to bring.
#[derive(Clone, Copy, Debug)]
struct Seen {
    full: u32,
    spine_full: u32,
    waits: u32,
    cycles: u32,
    shared: u32,
}

impl Seen {
    /// Counts the entry, if it is such a thing.
    fn note(&mut self, entry: &Entry) {
        let Entry::Said { seat, reply, .. } = *entry else {
            return;
        };
        let count = match reply {
            Reply::Full { .. } => &mut self.full,
            Reply::SpineFull { .. } => &mut self.spine_full,
            Reply::Waits { .. } => &mut self.waits,
            Reply::Cycle(_) => &mut self.cycles,
            Reply::Got { stamp, .. } if stamp > 0 && stamp >> 26 != u32::from(seat) + 1 =>
                &mut self.shared,
            _ => return,
        };
        *count = count.saturating_add(1);
    }

    /// Counts the entries that are such things.
    fn note_all(&mut self, log: &[Entry]) {
        for entry in log {
            self.note(entry);
        }
    }

    /// Whether each has come more than now and then.
    fn is_ample(&self) -> bool {
        self.full > 10
            && self.spine_full > 10
            && self.waits > 5
            && self.cycles > 5
            && self.shared > 5
    }
}

/// The logs of the run have an order, which is found and stands. What fails is told with them, as threads don't make them again.
fn has_order(rt: &impl Abort, alloc: Global, heap: Heap, run: &Run, start: u32) -> Result<(), Fail>
    requires { IsHeap heap }
{
    let logs = run.closed.logs();
    let (end, stands) = searched(alloc, heap, logs, &run.begun, MOST_STEPS)?;
    let told = format!(in alloc; "start {start}, begun {:?}, logs {logs:?}", run.begun)?;
    same(rt, &end, &End::Found, &told);
    holds(rt, stands, &told);
    Ok(())
}

/// A run from this start, whose logs tell its scripts and have an order.
fn ordered_run(
    rt: &(impl Abort + AllocGlobal + Threads + Wait + Sync),
    start: u32,
) -> Result<Run, Fail>
    requires { start ≤ most_start }
{
    let (groups, spine) = SIZES[start as usize % SIZES.len()];
    let heap = Heap::make(groups, spine, 2, 32).ok_or("the limits")?;
    let run = run_from(rt, rt.alloc(), heap, start)?;
    holds(rt, run.tells_all(), &start);
    has_order(rt, rt.alloc(), heap, &run, start)?;
    Ok(run)
}

#[test]
fn a_hundred_runs_have_orders(rt: HostRuntime) -> Result<(), Fail> {
    let mut seen = Seen {
        full: 0,
        spine_full: 0,
        waits: 0,
        cycles: 0,
        shared: 0,
    };
    for start in 0..MOST_RUNS {
        if start >= RUNS && seen.is_ample() {
            break;
        }
        let run = ordered_run(&rt, start)?;
        for log in run.closed.logs() {
            seen.note_all(log);
        }
    }
    let told = format!(in rt.alloc(); "{seen:?}")?;
    holds(&rt, seen.is_ample(), &told);
    Ok(())
}
