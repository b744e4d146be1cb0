ghost use Rattle.std.specs.Prelude.{All, IfOk, OnOk};
ghost use Rattle.heap_runs.specs.CollectCall.{IsPresent};
ghost use Rattle.script_crew.specs.Leaving.{HasLeft, HaveLeft};

use heap_model::{Command, Memory, SeatCalls};
use mutator_seat::Seat;
use std::alloc::Global;

/// Lets the seat leave, once it has room for it.
fn leave(seat: &mut Seat) -> Result<(), Memory>
    requires { IsPresent seat.old }
    ensures { OnOk result (HasLeft seat.old seat.new) }
{
    seat.room(4)?;
    seat.call(&Command::Leave);
    Ok(())
}

/// Lets each seat leave, in their order.
pub fn leave_all(alloc: Global, seats: Vec<Seat>) -> Result<Vec<Seat>, Memory>
    requires { All IsPresent seats.items }
    ensures { IfOk result (λ gone. HaveLeft seats.items gone.items) }
{
    let mut gone = Vec::new(alloc);
    for mut seat in seats {
        leave(&mut seat)?;
        gone.push(seat)?;
    }
    Ok(gone)
}
