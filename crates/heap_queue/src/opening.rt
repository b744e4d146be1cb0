ghost use Rattle.std.specs.Prelude.{◌≡◌, ◌≤◌, [], map, All, IfOk};
ghost use Rattle.std.specs.List.{range_with_len};
ghost use Rattle.heap_runs.specs.CollectCall.{IsPresent};
ghost use Rattle.heap_queue.specs.Opening.{HasOpened, OpensFirst};
ghost use Rattle.heap_queue.specs.Running.{IsUntouched};

use crate::making::make_queue;
use crate::table_seat::TableSeat;
use heap_model::{Full, Memory, SeatCalls};
use heap_runs::HeldName;
use mutator_seat::Seat;

/// Makes the queue on the first seat, once it has room for it, and tells the refusal of its first node, if that was refused.
fn open_first<N: HeldName>(first: &mut TableSeat<N>) -> Result<Option<Full>, Memory>
    requires number { first.old.number ≡ 0 }
    requires present { IsPresent first.old }
    requires silent { first.old.seat.mine ≡ [] }
    requires board { 2 ≤ first.old.heap.board }
    ensures { IfOk result (HasOpened first.new) }
{
    first.room(16)?;
    match make_queue(first) {
        Ok(_) => Ok(None),
        Err(full) => Ok(Some(full)),
    }
}

/// Makes the queue on the first of all seats of the table, and tells the refusal of its first node, if that was refused.
pub(crate) fn open<N: HeldName>(seats: &mut Vec<Seat>) -> Result<Option<Full>, Memory>
    requires some { 1 ≤ N.heap.seats }
    requires board { 2 ≤ N.heap.board }
    requires numbered { map (λ seat. seat.number) seats.old.items ≡ range_with_len 0 N.heap.seats }
    requires untouched { All (IsUntouched N.table N.heap) seats.old.items }
    ensures { IfOk result (OpensFirst N.table N.heap seats.old.items seats.new.items) }
{
    let mut first = TableSeat::<N>::new(seats.remove(0));
    let refused = open_first(&mut first)?;
    seats.insert(0, first.into_seat())?;
    Ok(refused)
}
