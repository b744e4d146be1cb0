ghost use Rattle.std.specs.Prelude.{◌≡◌, ◌+◌, false, IfOk, OnOk};
ghost use Rattle.heap_queue.specs.Places.{Rests};
ghost use Rattle.heap_queue.specs.Serving.{HasLeftFor, GoesOnBy, HasBegun, HasFound, HasLooked, looked_place};

use heap_model::{Memory, SeatCalls, Value};
use std::sync::Wait;
use std::thread::yield_now;

/// Polls, and then looks whether field 1 of the board holds a node of the queue.
fn look_for_queue<S: SeatCalls>(seat: &mut S) -> Result<bool, Memory>
    requires may { HasLeftFor 0 (S.state seat.old) }
    ensures { IfOk result (λ found. GoesOnBy 0 (HasLooked (looked_place found)) (S.state seat.old) (S.state seat.new)) }
{
    seat.room(6)?;
    seat.poll();
    match seat.get(14, 0, 1) {
        Ok((Value::Object(_), _)) => Ok(true),
        Ok((Value::Nil, _)) => Ok(false),
        Ok((Value::Number(_), _)) => Ok(false),
        Err(_) => Ok(false),
    }
}

/// Looks for the queue until it is there. The seat polls each time, so that no cycle waits for it meanwhile.
pub fn find_queue<S: SeatCalls, R: Wait>(rt: &R, seat: &mut S) -> Result<(), Memory>
    requires may { HasLeftFor 0 (S.state seat.old) }
    ensures { OnOk result (GoesOnBy 0 (HasLooked Rests) (S.state seat.old) (S.state seat.new)) }
{
    for _ in rt.forever() {
        if look_for_queue(seat)? {
            return Ok(());
        }
        yield_now();
    }
    unreachable!()
}
