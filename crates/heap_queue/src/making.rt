ghost use Rattle.std.specs.Prelude.{◌≡◌, ◌≤◌, IfOk, IfErr};
ghost use Rattle.heap_model.specs.Board.{board_fields};
ghost use Rattle.heap_model.specs.Needs.{record_fragments};
ghost use Rattle.heap_model.specs.calls.SeatReplies.{next_id, LacksFragments};
ghost use Rattle.heap_queue.specs.Calls.{make_call};
ghost use Rattle.heap_queue.specs.Grows.{MayCall, Completes, MakesAtOnce, Spends};
ghost use Rattle.heap_queue.specs.Places.{MakesNode};

use heap_model::{Full, Id, SeatCalls};

/// Makes an empty queue, whose first node the fields 0 and 1 of the board then hold, and answers that node's id.
pub fn make_queue<S: SeatCalls>(seat: &mut S) -> Result<Id, Full>
    requires ready { MayCall (S.state seat.old) }
    requires board { 2 ≤ board_fields (S.state seat.old).heap }
    ensures called { Completes MakesNode (S.state seat.old) (S.state seat.new) (make_call result) }
    ensures made { IfOk result (λ id. id ≡ next_id (S.state seat.old)) }
    ensures at_once { IfOk result (λ id. MakesAtOnce (S.state seat.old) (S.state seat.new)) }
    ensures full { IfErr result (λ full. LacksFragments (S.state seat.old) (S.state seat.new) (record_fragments 2) full.need full.found) }
    ensures spends { Spends 1 3 14 (S.state seat.old) (S.state seat.new) }
{
    let id = seat.new_record(15, 2)?;
    let _ = seat.set(0, 0, 15);
    let _ = seat.set(0, 1, 15);
    Ok(id)
}
