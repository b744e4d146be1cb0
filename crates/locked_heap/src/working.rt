ghost use Rattle.std.specs.Prelude.{◌≡◌, ◌<◌, ◌^◌, true, length, IfOk};
ghost use Rattle.locked_heap.specs.Given.{AreScripts, script_of};
ghost use Rattle.locked_heap.specs.Progress.{HaveAllLeft};

use crate::handed::Handed;
use crate::locked::Locked;
use crate::progress::Progress;
use heap_model::{Command, Gate, Memory};
use heap_record::{SlackWork, work_slack};
use slack_pace::Pace;
use std::alloc::Global;
use std::sync::{Mutex, Wait};
use std::thread::{Threads, join, map_indices, yield_now};

/// Goes on with the seat's script until its command `n` is answered, and takes the lock anew for each part of it.
fn make_command<N: Handed, R: Wait>(
    rt: &R,
    held: &Mutex<Locked<N>>,
    seat: u8,
    script: &[Command],
    n: usize,
) -> Result<(), Memory>
    requires within { seat < N.given.heap.seats }
    requires script { script.now ≡ script_of N.given seat }
{
    for _ in rt.forever() {
        let progress = held.lock(rt).go_on(seat, script)?;
        if n < progress.position {
            return Ok(());
        }
        yield_now();
    }
    unreachable!()
}

/// Makes each command of the seat's script once it has passed the gate, lets the seat leave, and tells how far it has come then.
fn work<N: Handed, G: Gate, R: Wait>(
    rt: &R,
    held: &Mutex<Locked<N>>,
    seat: u8,
    script: &[Command],
    gate: &G,
) -> Result<Progress, Memory>
    requires within { seat < N.given.heap.seats }
    requires script { script.now ≡ script_of N.given seat }
    requires few { length script.now < 2 ^ 32 }
    ensures { IfOk result (λ progress. progress.gone ≡ true) }
{
    for n in 0..script.len() {
        gate.pass(seat, n as u32);
        make_command(rt, held, seat, script, n)?;
    }
    for _ in rt.forever() {
        let progress = held.lock(rt).go_on(seat, script)?;
        if progress.gone {
            return Ok(progress);
        }
    }
    unreachable!()
}

/// Makes the scripts in a thread for each seat, tells when all of these have returned, and how far each seat has come then.
fn work_seats<N: Handed + Send + Sync, G: Gate, R: Threads + Wait + Sync>(
    rt: &R,
    alloc: Global,
    held: &Mutex<Locked<N>>,
    scripts: &[Vec<Command>],
    gate: &G,
) -> Result<Vec<Progress>, Memory>
    requires { AreScripts N.given scripts.now }
    ensures { IfOk result (λ came. HaveAllLeft N.given.heap.seats came.items) }
{
    let done = map_indices(
        rt,
        alloc,
        scripts.len(),
        &|seat: usize| -> Result<Progress, Memory>
            requires within { seat < length scripts.now }
            requires scripts { AreScripts N.given scripts.now }
            ensures { IfOk result (λ progress. progress.gone ≡ true) }
        { work(rt, held, seat as u8, scripts[seat].as_slice(), gate) },
    );
    held.lock(rt).end();
    let mut came = Vec::new(alloc);
    for progress in done? {
        came.push(progress?)?;
    }
    Ok(came)
}

/// Works on the scripts in a thread for each seat, while one more makes the collector's slack turns, and tells how far each seat has come then.
pub fn work_all<N: Handed + Send + Sync, G: Gate, R: Threads + Wait + Sync>(
    rt: &R,
    alloc: Global,
    held: &Mutex<Locked<N>>,
    scripts: &[Vec<Command>],
    mut pace: Box<dyn Pace>,
    gate: &G,
) -> Result<Vec<Progress>, Memory>
    requires { AreScripts N.given scripts.now }
    ensures { IfOk result (λ came. HaveAllLeft N.given.heap.seats came.items) }
{
    let (slack, seats) = join(
        rt,
        move || work_slack(rt, held, &mut pace),
        || -> Result<Vec<Progress>, Memory>
            requires { AreScripts N.given scripts.now }
            ensures { IfOk result (λ came. HaveAllLeft N.given.heap.seats came.items) }
        { work_seats(rt, alloc, held, scripts, gate) },
    );
    slack?;
    seats
}
