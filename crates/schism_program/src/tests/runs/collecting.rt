//! Runs in which a seat collects more than once, and how often seats found another one behind.

ghost use Rattle.std.specs.Prelude.{◌≡◌, ◌≤◌, length, All};
ghost use Rattle.heap_model.specs.Heap.{IsHeap};
ghost use Rattle.locked_heap.specs.Given.{IsSeatScript};

use super::super::comparing::holds;
use super::gates::OneAfterTheOther;
use super::{RUNS, tells_a_row};
use crate::running::scripts_of;
use crate::serving::script_of;
use core_machine::Machine;
use heap_model::{Command, Gate, Heap, Memory, OpenGate};
use locked_heap::run_locked;
use script_text::Form;
use slack_pace::Steady;
use std::alloc::Global;
use std::sync::Wait;
use std::test::Fail;
use std::thread::Threads;

/// The lines by which two collects may be answered: the second sees the end of a cycle that began after the first was answered, and behind it at most the begin of one.
const ANSWERS: [&[&str]; 4] = [
    &["\n0 collect = cycle 0\n", "\n0 collect = cycle 1\n"],
    &["\n0 collect = cycle 0\n", "\n0 collect = cycle 2\n"],
    &["\n0 collect = cycle 1\n", "\n0 collect = cycle 2\n"],
    &["\n0 collect = cycle 1\n", "\n0 collect = cycle 3\n"],
];

#[test]
fn collects_twice(rt: HostRuntime) -> Result<(), Fail> {
    let script = "schism 1; heap 1 0 1; 0 new 1 2; 0 collect; 0 nil 1; 0 collect";
    for line in RUNS {
        tells_a_row(&rt, rt.alloc(), line, script, &OpenGate, &ANSWERS)?;
    }
    Ok(())
}

/// How often each seat found another one behind in a run of the script.
fn waits_of<G: Gate>(
    rt: &(impl Threads + Wait + Sync),
    alloc: Global,
    text: &[u8],
    patience: u32,
    gate: &G,
) -> Result<Vec<u64>, Fail>
    requires { 1 ≤ patience }
{
    let script = script_of(alloc, text, Form::Run)?;
    let scripts = scripts_of(alloc, &script)?;
    Ok(waits_in(rt, alloc, script.heap, scripts.as_slice(), patience, gate)?)
}

/// How often each seat found another one behind in a run of these scripts.
fn waits_in<G: Gate>(
    rt: &(impl Threads + Wait + Sync),
    alloc: Global,
    heap: Heap,
    scripts: &[Vec<Command>],
    patience: u32,
    gate: &G,
) -> Result<Vec<u64>, Memory>
    requires heap { IsHeap heap }
    requires patience { 1 ≤ patience }
    requires seated { length scripts.now ≡ heap.seats }
    requires scripts { All (λ script. IsSeatScript script.items) scripts.now }
{
    let pace = Box::new(alloc, Steady)?;
    let machine = Machine::make(alloc, heap)?;
    match run_locked(rt, alloc, machine, scripts, pace, patience, gate) {
        Ok(ran) => Ok(ran.waits),
        Err(fault) => Err(fault),
    }
}

// Seat 1 does nothing until the collect of seat 0 is answered, which is so at the find that its patience asks for.
#[test]
fn waits_as_often_as_asked(rt: HostRuntime) -> Result<(), Fail> {
    let script = b"schism 1\nheap 1 0 2\n0 collect\n0 poll\n1 nil 1\n";
    for patience in [1, 3, 7] {
        let gate = OneAfterTheOther::new();
        let waits = waits_of(&rt, rt.alloc(), script, patience, &gate)?;
        let wanted: [u64; 2] = [u64::from(patience), 0];
        holds(&rt, waits.as_slice() == wanted.as_slice(), &patience);
    }
    Ok(())
}
