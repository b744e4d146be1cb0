ghost use Rattle.std.specs.Prelude.{All, IfOk, OnOk};
ghost use Rattle.heap_runs.specs.CollectCall.{IsPresent};
ghost use Rattle.heap_queue.specs.Leaving.{Leaves, EachLeaves};

use heap_model::{Memory, SeatCalls};
use mutator_seat::Seat;
use std::alloc::Global;

/// Lets the seat leave, once it has room for it.
pub(crate) fn leave(seat: &mut Seat) -> Result<(), Memory>
    requires { IsPresent seat.old }
    ensures { OnOk result (Leaves seat.old seat.new) }
{
    seat.room(4)?;
    seat.leave();
    Ok(())
}

/// Lets each seat leave, in their order.
pub(crate) fn leave_all(alloc: Global, seats: Vec<Seat>) -> Result<Vec<Seat>, Memory>
    requires { All IsPresent seats.items }
    ensures { IfOk result (λ gone. EachLeaves seats.items gone.items) }
{
    let mut gone = Vec::new(alloc);
    for mut seat in seats {
        leave(&mut seat)?;
        gone.push(seat)?;
    }
    Ok(gone)
}
