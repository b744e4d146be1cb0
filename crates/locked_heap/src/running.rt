ghost use Rattle.std.specs.Prelude.{◌≡◌, ◌≤◌, length, map, All, IfOk};
ghost use Rattle.core_machine.specs.machine.Opening.{IsOpening};
ghost use Rattle.locked_heap.specs.Given.{IsGiven, IsSeatScript};
ghost use Rattle.locked_heap.specs.Ran.{IsRun};

use crate::handed::Handed;
use crate::locked::Locked;
use crate::ran::LockedRan;
use crate::working::work_all;
use core_machine::Machine;
use heap_model::{Command, Gate, Memory};
use slack_pace::Pace;
use std::alloc::Global;
use std::marker::Brand;
use std::sync::{Mutex, Wait};
use std::thread::Threads;

/// A machine that has just been made, and how often a collect on it finds another seat behind before it answers that it waits.
#[derive(Drop)]
struct PatientMachine {
    machine: Machine,
    patience: u32,
}

/// A run on what was given, which its name tells.
fn run_named<N: Handed + Send + Sync, G: Gate, R: Threads + Wait + Sync>(
    rt: &R,
    alloc: Global,
    on: PatientMachine,
    scripts: &[Vec<Command>],
    pace: Box<dyn Pace>,
    gate: &G,
) -> Result<LockedRan, Memory>
    requires given { IsGiven N.given }
    requires heap { on.machine.heap ≡ N.given.heap }
    requires opening { on.machine.state ≡ N.given.opening }
    requires scripts { map (λ script. script.items) scripts.now ≡ N.given.scripts }
    requires patience { on.patience ≡ N.given.patience }
    ensures { IfOk result (IsRun N.given) }
{
    let PatientMachine { machine, patience } = on;
    let held = Mutex::new(Locked::<N>::new(alloc, machine, patience)?);
    work_all(rt, alloc, &held, scripts, pace, gate)?;
    held.into_inner().finish(rt, alloc, scripts)
}

/// Runs the scripts on the machine, which has just been made: each seat's on a thread of its own, and the collector's slack turns, which the pace asks for, on one more.
/// A seat passes the gate before each command. A collect answers that it waits once it has found another seat behind `patience` times. The only error is want of memory.
pub fn run_locked<G: Gate, R: Threads + Wait + Sync>(
    rt: &R,
    alloc: Global,
    machine: Machine,
    scripts: &[Vec<Command>],
    pace: Box<dyn Pace>,
    patience: u32,
    gate: &G,
) -> Result<LockedRan, Memory>
    requires opening { IsOpening machine.heap machine.state }
    requires seated { length scripts.now ≡ machine.heap.seats }
    requires scripts { All (λ script. IsSeatScript script.items) scripts.now }
    requires patience { 1 ≤ patience }
    ensures { IfOk result (IsRun (record {
      heap = machine.heap;
      opening = machine.state;
      scripts = map (λ script. script.items) scripts.now;
      patience = patience;
    })) }
{
    // What is true of every machine is known from here on.
    let _ = machine.heap();
    let on = PatientMachine { machine, patience };
    run_named::<Brand, G, R>(rt, alloc, on, scripts, pace, gate)
}
