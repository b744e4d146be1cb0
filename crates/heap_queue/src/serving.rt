ghost use Rattle.std.specs.Prelude.{◌≡◌, ◌+◌, ◌*◌, ◌<◌, ◌≤◌, false, [], ◌∷◌, ◌++◌, length, All, IfOk, OnOk};
ghost use Rattle.heap_queue.specs.Calls.{Call};
ghost use Rattle.heap_queue.specs.Grows.{HasLeft, Spends};
ghost use Rattle.heap_queue.specs.Places.{Rests};
ghost use Rattle.heap_queue.specs.Serving.{IsQueueCommand, AnswersBy, ServesBy, ServesScript, HasLeftFor, GoesOnBy, HasBegun, HasFound, HasCome};

use crate::finding::find_queue;
use crate::putting::put;
use crate::queue_command::QueueCommand;
use crate::taking::take;
use heap_model::{Gate, Memory, SeatCalls};
use std::sync::Wait;

/// The register whose number is put.
pub(crate) const PUT_REGISTER: u8 = 10;

/// The register into which is taken.
const TAKE_REGISTER: u8 = 9;

/// Puts the number once a register is set to it, or takes.
fn answer<S: SeatCalls>(seat: &mut S, command: &QueueCommand)
    requires in_range { IsQueueCommand command.now }
    requires ready { HasLeft 1 3 18 (S.state seat.old) }
    ensures answered { (call : Call) × GoesOnBy 1 (AnswersBy (S.state seat.old).number command.now call) (S.state seat.old) (S.state seat.new) }
    ensures room { (S.state seat.old).spare ≤ (S.state seat.new).spare + 16 }
{
    match *command {
        QueueCommand::Put(n) => {
            seat.num(PUT_REGISTER, n);
            put(seat, PUT_REGISTER);
        }
        QueueCommand::Take => {
            take(seat, TAKE_REGISTER);
        }
    }
}

/// Makes one command of a script, once there is room for it, and polls then.
fn serve<S: SeatCalls>(seat: &mut S, command: &QueueCommand) -> Result<(), Memory>
    requires in_range { IsQueueCommand command.now }
    requires may { HasLeftFor 1 (S.state seat.old) }
    ensures { OnOk result ((call : Call) × GoesOnBy 1 (ServesBy (S.state seat.old).number command.now call) (S.state seat.old) (S.state seat.new)) }
{
    seat.room(20)?;
    answer(seat, command);
    seat.poll();
    Ok(())
}

/// Makes each command of the script, once the seat of this number has passed the gate.
fn serve_each<S: SeatCalls, G: Gate>(
    seat: &mut S,
    number: u8,
    script: &[QueueCommand],
    gate: &G,
) -> Result<(), Memory>
    requires in_range { All IsQueueCommand script.now }
    requires may { HasLeftFor (length script.now) (S.state seat.old) }
    ensures { OnOk result (GoesOnBy (length script.now) (ServesScript (S.state seat.old).number script.now) (S.state seat.old) (S.state seat.new)) }
{
    for n in 0..script.len() {
        gate.pass(number, n as u32);
        serve(seat, &script[n])?;
    }
    Ok(())
}

/// Finds the queue, which the first seat has made.
fn begin<S: SeatCalls, R: Wait>(rt: &R, seat: &mut S, number: u8) -> Result<(), Memory>
    requires number { (S.state seat.old).number ≡ number }
    requires may { HasLeftFor 0 (S.state seat.old) }
    requires begun { HasBegun number (S.state seat.old).mine }
    ensures { OnOk result (GoesOnBy 0 (λ added. HasFound number ((S.state seat.old).mine ++ added)) (S.state seat.old) (S.state seat.new)) }
{
    if number == 0 {
        return Ok(());
    }
    find_queue(rt, seat)
}

/// Works on the script of the seat: finds the queue, and then makes each command.
pub fn serve_script<S: SeatCalls, G: Gate, R: Wait>(
    rt: &R,
    seat: &mut S,
    number: u8,
    script: &[QueueCommand],
    gate: &G,
) -> Result<(), Memory>
    requires number { (S.state seat.old).number ≡ number }
    requires in_range { All IsQueueCommand script.now }
    requires may { HasLeftFor (length script.now) (S.state seat.old) }
    requires begun { HasBegun number (S.state seat.old).mine }
    ensures { OnOk result (GoesOnBy (length script.now) (λ added. HasCome number script.now ((S.state seat.old).mine ++ added)) (S.state seat.old) (S.state seat.new)) }
{
    begin(rt, seat, number)?;
    serve_each(seat, number, script, gate)
}
