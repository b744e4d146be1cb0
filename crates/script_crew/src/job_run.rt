ghost use Rattle.std.specs.Prelude.{◌≡◌, ◌≤◌, length, IfOk, OnOk};
ghost use Rattle.heap_runs.specs.SeatWork.{GoesOn, IsOfTable, MayWork};
ghost use Rattle.script_crew.specs.Jobs.{script_of_run};
ghost use Rattle.script_crew.specs.Runs.{clears, with_polls, IsRunOf};

use crate::job::{Job, JobRun};
use heap_model::limits::LAST_REGISTER;
use heap_model::{Command, Gate, Memory};
use heap_runs::{Held, HeldName, make_command};
use mutator_seat::Seat;
use std::sync::{Mutex, Wait};

/// How often a collect may find another seat behind. No job has a collect.
const PATIENCE: u32 = 1;

/// Where the seat's log ends. More than 32 bits can tell are as many as memory can't hold.
fn log_end(seat: &Seat) -> Result<u32, Memory>
    ensures { IfOk result (λ end. end ≡ length seat.now.seat.mine) }
{
    match u32::try_from(seat.log().len()) {
        Ok(end) => Ok(end),
        Err(_) => Err(Memory),
    }
}

/// Sets each register but the board's to nil.
fn clear_registers<N: HeldName, R: Wait>(
    rt: &R,
    held: &Mutex<Held<N>>,
    seat: &mut Seat,
) -> Result<(), Memory>
    requires table { IsOfTable N.table N.heap seat.old }
    requires may { MayWork seat.old clears }
    ensures { OnOk result (GoesOn 1 seat.old seat.new clears) }
{
    for d in 1..LAST_REGISTER + 1 {
        make_command(rt, held, seat, &Command::Nil { d }, PATIENCE)?;
    }
    Ok(())
}

/// Makes the commands, each once the seat has passed the gate with no lock held, and polls after each. `begun` counts the commands that the seat has begun, whatever job they are of.
fn make_commands<N: HeldName, G: Gate, R: Wait>(
    rt: &R,
    held: &Mutex<Held<N>>,
    seat: &mut Seat,
    commands: &[Command],
    gate: &G,
    begun: &mut u32,
) -> Result<(), Memory>
    requires table { IsOfTable N.table N.heap seat.old }
    requires may { MayWork seat.old (with_polls commands.now) }
    ensures { OnOk result (GoesOn 1 seat.old seat.new (with_polls commands.now)) }
{
    let number = seat.number();
    for command in commands {
        gate.pass(number, *begun);
        *begun = begun.wrapping_add(1);
        make_command(rt, held, seat, command, PATIENCE)?;
        make_command(rt, held, seat, &Command::Poll, PATIENCE)?;
    }
    Ok(())
}

/// Runs the job on the seat, whose registers are cleared first, and tells where the job's commands stand in its log.
pub fn run_job<N: HeldName, G: Gate, R: Wait>(
    rt: &R,
    held: &Mutex<Held<N>>,
    seat: &mut Seat,
    job: &Job,
    gate: &G,
    begun: &mut u32,
) -> Result<JobRun, Memory>
    requires table { IsOfTable N.table N.heap seat.old }
    requires may { MayWork seat.old (script_of_run job.now) }
    ensures seat { OnOk result (GoesOn 1 seat.old seat.new (script_of_run job.now)) }
    ensures ran { IfOk result (IsRunOf job.now seat.new) }
    ensures begins { IfOk result (λ run. length seat.old.seat.mine ≤ run.from) }
{
    clear_registers(rt, held, seat)?;
    let from = log_end(seat)?;
    make_commands(rt, held, seat, job.commands.as_slice(), gate, begun)?;
    let to = log_end(seat)?;
    Ok(JobRun {
        job: job.number,
        seat: seat.number(),
        from,
        to,
    })
}
