ghost use Rattle.std.specs.Prelude.{◌≡◌, ◌≢◌, ◌+◌, ◌<◌, ◌≤◌, [], ◌∷◌, length, drop, IfOk, OnOk};
ghost use Rattle.heap_model.specs.declared.command.Command.TheVariants.{Collect};
ghost use Rattle.heap_record.specs.Recorded.{claimed_by};
ghost use Rattle.heap_runs.specs.SeatWork.{IsOfTable, MayWork, MayMakeNext, GoesOn, HasWorked};

use crate::role::{Held, HeldName};
use crate::seat_collect::collect_call;
use heap_model::{Command, Gate, Memory, SeatCalls, seat_laws};
use heap_record::claimed;
use mutator_seat::Seat;
use std::sync::{Mutex, Wait};

/// Makes a whole call of the seat, once there is room for it, and tells how many fragments it has claimed.
fn make_call(seat: &mut Seat, command: &Command, patience: u32) -> Result<u64, Memory>
    requires may { MayMakeNext seat.old command.now }
    requires once { command.now ≢ Collect }
    ensures called { IfOk result (λ claimed. GoesOn patience seat.old seat.new (command.now ∷ [])) }
    ensures claims { IfOk result (λ claimed. claimed ≡ claimed_by (drop (length seat.old.seat.mine) seat.new.seat.mine)) }
{
    seat_laws();
    seat.room(2 * command.need() as usize + 4)?;
    let before = seat.log().len();
    seat.call(command);
    let (_, told) = seat.log().split_at(before);
    Ok(claimed(told))
}

/// Makes the next command of the seat's script. It takes the lock for the turns of a collect, and to tell what another command has claimed, if it has claimed something.
pub fn make_command<N: HeldName, R: Wait>(
    rt: &R,
    held: &Mutex<Held<N>>,
    seat: &mut Seat,
    command: &Command,
    patience: u32,
) -> Result<(), Memory>
    requires table { IsOfTable N.table N.heap seat.old }
    requires may { MayMakeNext seat.old command.now }
    requires patience { 1 ≤ patience }
    ensures { OnOk result (GoesOn patience seat.old seat.new (command.now ∷ [])) }
{
    if let Command::Collect = *command {
        collect_call(rt, seat, held, patience)?;
        return Ok(());
    }
    let claimed = make_call(seat, command, patience)?;
    if claimed > 0 {
        held.lock(rt).owe(claimed);
    }
    Ok(())
}

/// Makes each command of the script, once the seat has passed the gate with no lock held, and then lets the seat leave.
fn make_all<N: HeldName, G: Gate, R: Wait>(
    rt: &R,
    held: &Mutex<Held<N>>,
    seat: &mut Seat,
    script: &[Command],
    patience: u32,
    gate: &G,
) -> Result<(), Memory>
    requires table { IsOfTable N.table N.heap seat.old }
    requires may { MayWork seat.old script.now }
    requires patience { 1 ≤ patience }
    ensures { OnOk result (HasWorked patience seat.old script.now seat.new) }
{
    let number = seat.number();
    for n in 0..script.len() {
        gate.pass(number, n as u32);
        make_command(rt, held, seat, &script[n], patience)?;
    }
    seat.room(4)?;
    seat.call(&Command::Leave);
    Ok(())
}

/// Works on the seat's script, lets the seat leave, and tells under the lock that this worker has ended, also where memory is wanting.
pub fn work<N: HeldName, G: Gate, R: Wait>(
    rt: &R,
    held: &Mutex<Held<N>>,
    mut seat: Seat,
    script: &[Command],
    patience: u32,
    gate: &G,
) -> Result<Seat, Memory>
    requires table { IsOfTable N.table N.heap seat }
    requires may { MayWork seat script.now }
    requires patience { 1 ≤ patience }
    ensures { IfOk result (HasWorked patience seat script.now) }
{
    let done = make_all(rt, held, &mut seat, script, patience, gate);
    held.lock(rt).end_one();
    done?;
    Ok(seat)
}
