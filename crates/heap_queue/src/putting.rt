ghost use Rattle.heap_queue.specs.Calls.{put_call};
ghost use Rattle.heap_queue.specs.Grows.{HasLeft, MayCall, Completes, Spends};
ghost use Rattle.heap_queue.specs.Places.{Rests, PutLinks, IsFree};

use crate::replies::PutReply;
use heap_model::{SeatCalls, Swapped, Value};

/// Puts the value of register `v` behind the others. The registers 13 to 15 are used up.
pub fn put<S: SeatCalls>(seat: &mut S, v: u8) -> PutReply
    requires register { IsFree v }
    requires ready { MayCall (S.state seat.old) }
    ensures called { Completes Rests (S.state seat.old) (S.state seat.new) (put_call v result) }
    ensures spends { Spends 1 3 14 (S.state seat.old) (S.state seat.new) }
{
    if let Err(full) = seat.new_record(15, 2) {
        return PutReply::Full {
            need: full.need,
            found: full.found,
        };
    }
    let Ok(_) = seat.set(15, 0, v) else {
        return PutReply::NoQueue;
    };
    let Ok(_) = seat.get(14, 0, 1) else {
        return PutReply::NoQueue;
    };
    match seat.get(13, 14, 1) {
        Err(_) => PutReply::NoQueue,
        Ok((Value::Object(_), stamp)) => {
            let _ = seat.cas(0, 1, 14, 13);
            PutReply::Again { stamp }
        }
        Ok((Value::Nil, _)) => link(seat, v),
        Ok((Value::Number(_), _)) => link(seat, v),
    }
}

/// Links the put's node behind the last one, and moves field 1 of the board on to it.
fn link<S: SeatCalls>(seat: &mut S, v: u8) -> PutReply
    requires ready { HasLeft 0 2 6 (S.state seat.old) }
    ensures called { Completes (PutLinks v) (S.state seat.old) (S.state seat.new) (put_call v result) }
    ensures spends { Spends 0 2 4 (S.state seat.old) (S.state seat.new) }
{
    match seat.cas(14, 1, 13, 15) {
        Err(_) => PutReply::NoQueue,
        Ok(Swapped::Now(stamp)) => PutReply::Again { stamp },
        Ok(Swapped::Was(_)) => {
            let _ = seat.cas(0, 1, 14, 15);
            PutReply::Ok
        }
    }
}
