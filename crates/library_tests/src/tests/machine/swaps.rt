//! Compare and swap: what seats are answered, and the steps with the barrier on.

use super::calls::{begin, call, is_answered, machine_of, step, turn};
use super::texts::step_text;
use crate::tests::comparing::{holds, same};
use crate::tests::swaps::answers;
use core_machine::Machine;
use heap_model::Command::{self, Cas, Get, New, Poll, Set};
use heap_model::Reply::Phase;
use std::process::Abort;
use std::test::Fail;

#[test]
fn answers_as_due(rt: HostRuntime) -> Result<(), Fail> {
    let mut machine = machine_of(rt.alloc(), 1, 0, 2)?;
    for (seat, command, reply) in answers() {
        is_answered(&rt, &mut machine, seat, command, reply, seat)?;
    }
    Ok(())
}

/// With the barrier on the object that is expected is marked, and then the one that is put in. The records are the fragments 11 and 12.
const STEPS: &[&str] = &[
    "walk 0 found c000002000000001",
    "shade 11 found 1fffffff",
    "shade 12 found 8001fffffff",
    "compare 0.2 8000000b04000001 8000000c04000002 found 8000000b04000001",
];

/// What the seat has done before.
const BEFORE: [Command; 4] = [
    New { d: 1, fields: 1 },
    New { d: 2, fields: 1 },
    Set { r: 0, i: 0, v: 1 },
    Get { d: 1, r: 0, i: 0 },
];

/// The seat has done that, the first phase has come, and the cas is begun.
fn begins_the_cas(rt: &(impl Abort + AllocGlobal), machine: &mut Machine) -> Result<(), Fail> {
    for command in BEFORE {
        call(machine, 0, &command)?;
    }
    turn(machine)?;
    turn(machine)?;
    let at = "the first phase";
    same(rt, &call(machine, 0, &Poll)?, &Phase(1), &at);
    let cas = Cas {
        r: 0,
        i: 0,
        a: 1,
        v: 2,
    };
    holds(rt, begin(machine, 0, &cas)?, &at);
    Ok(())
}

/// The seat's due step, with what it found, is this one.
fn steps(rt: &(impl Abort + AllocGlobal), machine: &mut Machine, wanted: &str) -> Result<(), Fail> {
    let (step, found) = step(machine, 0)?;
    let text = step_text(rt.alloc(), &step, found)?;
    same(rt, &text.as_str(), &wanted, &wanted);
    Ok(())
}

#[test]
fn shades_what_is_expected(rt: HostRuntime) -> Result<(), Fail> {
    let mut machine = machine_of(rt.alloc(), 1, 0, 1)?;
    begins_the_cas(&rt, &mut machine)?;
    for wanted in STEPS {
        steps(&rt, &mut machine, wanted)?;
    }
    Ok(())
}
