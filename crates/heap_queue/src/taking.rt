ghost use Rattle.heap_queue.specs.Calls.{take_call};
ghost use Rattle.heap_queue.specs.Grows.{HasLeft, MayCall, Completes, Spends};
ghost use Rattle.heap_queue.specs.Places.{Rests, TakeSame, IsFree};

use crate::replies::TakeReply;
use heap_model::{SeatCalls, Swapped, Value};

/// Takes the front of the queue into register `d`. The registers 11 to 14 are used up.
pub fn take<S: SeatCalls>(seat: &mut S, d: u8) -> TakeReply
    requires register { IsFree d }
    requires ready { MayCall (S.state seat.old) }
    ensures called { Completes Rests (S.state seat.old) (S.state seat.new) (take_call d result) }
    ensures spends { Spends 0 1 14 (S.state seat.old) (S.state seat.new) }
{
    let Ok(_) = seat.get(14, 0, 0) else {
        return TakeReply::NoQueue;
    };
    let Ok(_) = seat.get(13, 0, 1) else {
        return TakeReply::NoQueue;
    };
    match seat.get(12, 14, 1) {
        Err(_) => TakeReply::NoQueue,
        Ok((Value::Nil, _)) => TakeReply::Empty,
        Ok((Value::Object(_), stamp)) => take_front(seat, d, stamp),
        Ok((Value::Number(_), stamp)) => take_front(seat, d, stamp),
    }
}

/// Takes the node behind the first, where that isn't the last as well; else helps to move field 1 of the board on.
fn take_front<S: SeatCalls>(seat: &mut S, d: u8, seen: u32) -> TakeReply
    requires register { IsFree d }
    requires ready { HasLeft 0 1 10 (S.state seat.old) }
    ensures called { Completes (TakeSame seen) (S.state seat.old) (S.state seat.new) (take_call d result) }
    ensures spends { Spends 0 1 8 (S.state seat.old) (S.state seat.new) }
{
    if seat.same(14, 13) {
        let _ = seat.cas(0, 1, 13, 12);
        return TakeReply::Again { stamp: seen };
    }
    let Ok(_) = seat.get(11, 12, 0) else {
        return TakeReply::NoQueue;
    };
    match seat.cas(0, 0, 14, 12) {
        Err(_) => TakeReply::NoQueue,
        Ok(Swapped::Now(stamp)) => TakeReply::Again { stamp },
        Ok(Swapped::Was(_)) => {
            seat.copy(d, 11);
            TakeReply::Took
        }
    }
}
