ghost use Rattle.std.specs.Prelude.{◌≡◌, ◌≤◌, All, length};
ghost use Rattle.heap_model.specs.Heap.{IsHeap};
ghost use Rattle.heap_runs.specs.SeatWork.{IsOfScript};
ghost use Rattle.script_text.specs.Made.{most_start};

use super::scripts::{MOST_COMMANDS, scripts_from};
use super::together::Together;
use crate::tests::opened::opened;
use heap_model::{Command, Entry, Heap, Memory};
use heap_runs::run_seats;
use heap_table::Closed;
use slack_pace::Steady;
use std::alloc::Global;
use std::sync::Wait;
use std::thread::Threads;

/// A run that has come to its end.
#[derive(Drop)]
pub(super) struct Run {
    pub closed: Closed,
    /// The seats whose commands were begun, in the order in which they were.
    pub begun: Vec<u8>,
    scripts: Vec<Vec<Command>>,
}

impl Run {
    /// Whether each seat has told all commands of its script, in their order.
    pub fn tells_all(&self) -> bool {
        for (number, script) in self.scripts.iter().enumerate() {
            let Some(log) = self.closed.logs().get(number) else {
                return false;
            };
            if !answers(log.as_slice(), script.as_slice()) {
                return false;
            }
        }
        true
    }
}

/// Whether the replies of the log are to these commands, and then to a leave.
fn answers(log: &[Entry], script: &[Command]) -> bool {
    let mut rest = script.iter();
    for entry in log {
        match *entry {
            Entry::Said {
                command: Command::Leave,
                ..
            } => return rest.next().is_none(),
            Entry::Said { command, .. } if rest.next() != Some(&command) => return false,
            _ => {}
        }
    }
    false
}

/// The table that the seats have closed with their scripts.
fn closed_by<R: Threads + Wait + Sync>(
    rt: &R,
    alloc: Global,
    heap: Heap,
    scripts: &[Vec<Command>],
    patience: u32,
    gate: &Together,
) -> Result<Closed, Memory>
    requires heap { IsHeap heap }
    requires patience { 1 ≤ patience }
    requires seated { length scripts.now ≡ heap.seats }
    requires short { All (λ script. length script.items ≤ 20) scripts.now }
    requires each { All (λ script. All IsOfScript script.items) scripts.now }
{
    let pace = Box::new(alloc, Steady)?;
    let (seats, collector) = opened(alloc, heap)?;
    let ran = run_seats(rt, alloc, seats, collector, scripts, pace, patience, gate)?;
    Ok(ran.closed)
}

/// Runs the scripts from this start on a shared table of the heap.
pub(super) fn run_from<R: Threads + Wait + Sync>(
    rt: &R,
    alloc: Global,
    heap: Heap,
    start: u32,
) -> Result<Run, Memory>
    requires heap { IsHeap heap }
    requires start { start ≤ most_start }
{
    let scripts = scripts_from(alloc, start, heap.seats)?;
    let gate = Together::new(alloc, start % 2 == 1, 1 + start % 4, MOST_COMMANDS)?;
    let closed = closed_by(rt, alloc, heap, scripts.as_slice(), 1 + start % 50, &gate)?;
    let begun = gate.order(alloc)?;
    Ok(Run {
        closed,
        begun,
        scripts,
    })
}
