ghost use Rattle.std.specs.Prelude.{◌≡◌, ◌<◌, length};
ghost use Rattle.heap_model.specs.Command.{IsCommand};
ghost use Rattle.heap_model.specs.graph.Objects.{register_value};
ghost use Rattle.heap_queue.specs.Effects.{effects};
ghost use Rattle.heap_queue.specs.Stages.{place_of, IsNamed, IsOfPut, IsOfTake, IsOutside};
ghost use Rattle.heap_queue.specs.Telling.{effects_told, told_by};

use crate::replies::{PutReply, TakeReply};
use crate::serving::PUT_REGISTER;
use crate::stage::Stage;
use crate::told::Told;
use heap_model::{Command, Graph, Reply, Value};

/// The register in which a take has the value at the front.
const FRONT_REGISTER: u8 = 11;

/// What a reply tells of a seat that is outside of puts and takes.
fn told_outside(
    graph: &Graph,
    seat: u8,
    stage: Stage,
    command: Command,
    reply: Reply,
) -> Option<Told>
    requires seat { seat < length graph.now.seats }
    requires outside { IsOutside stage }
    ensures told { result ≡ told_by (register_value graph.now seat) (place_of stage) command reply }
    ensures effects { effects_told result ≡ effects (register_value graph.now seat) (place_of stage) reply }
{
    match (stage, command, reply) {
        (Stage::Rests, Command::New { .. }, Reply::Full { need, found }) => Some(Told::Put {
            value: graph.value(seat, PUT_REGISTER),
            reply: PutReply::Full { need, found },
        }),
        (Stage::Rests, Command::Get { i: 0, .. }, Reply::NoObject | Reply::NoField) => {
            Some(Told::Take {
                reply: TakeReply::NoQueue,
            })
        }
        _ => None,
    }
}

/// What a reply tells of a seat that puts.
fn told_put(graph: &Graph, seat: u8, stage: Stage, command: Command, reply: Reply) -> Option<Told>
    requires seat { seat < length graph.now.seats }
    requires puts { IsOfPut stage }
    requires named { IsNamed stage }
    requires in_range { IsCommand command }
    ensures told { result ≡ told_by (register_value graph.now seat) (place_of stage) command reply }
    ensures effects { effects_told result ≡ effects (register_value graph.now seat) (place_of stage) reply }
{
    let (v, put) = match (stage, command, reply) {
        (Stage::PutLinks(v), _, Reply::Was(_)) => (v, PutReply::Ok),
        (Stage::PutLinks(v), _, Reply::Now(stamp)) => (v, PutReply::Again { stamp }),
        (Stage::PutHelps { v, stamp }, _, _) => (v, PutReply::Again { stamp }),
        (Stage::PutValue, Command::Set { v, .. }, Reply::NoObject | Reply::NoField) => {
            (v, PutReply::NoQueue)
        }
        (
            Stage::PutLast(v) | Stage::PutNext(v) | Stage::PutLinks(v),
            _,
            Reply::NoObject | Reply::NoField,
        ) => (v, PutReply::NoQueue),
        _ => return None,
    };
    let value = graph.value(seat, v);
    Some(Told::Put { value, reply: put })
}

/// What a reply tells of a seat that takes.
fn told_take(graph: &Graph, seat: u8, stage: Stage, command: Command, reply: Reply) -> Option<Told>
    requires seat { seat < length graph.now.seats }
    requires takes { IsOfTake stage }
    ensures told { result ≡ told_by (register_value graph.now seat) (place_of stage) command reply }
    ensures effects { effects_told result ≡ effects (register_value graph.now seat) (place_of stage) reply }
{
    let take = match (stage, reply) {
        (Stage::TakeUnlinks, Reply::Was(_)) => {
            let value = graph.value(seat, FRONT_REGISTER);
            return Some(Told::Took { value });
        }
        (Stage::TakeUnlinks, Reply::Now(stamp)) => TakeReply::Again { stamp },
        (Stage::TakeHelps(stamp), _) => TakeReply::Again { stamp },
        (
            Stage::TakeNext,
            Reply::Got {
                value: Value::Nil,
                ..
            },
        ) => TakeReply::Empty,
        (
            Stage::TakeLast | Stage::TakeNext | Stage::TakeValue | Stage::TakeUnlinks,
            Reply::NoObject | Reply::NoField,
        ) => TakeReply::NoQueue,
        _ => return None,
    };
    Some(Told::Take { reply: take })
}

/// What a reply tells.
pub(crate) fn told(
    graph: &Graph,
    seat: u8,
    stage: Stage,
    command: Command,
    reply: Reply,
) -> Option<Told>
    requires seat { seat < length graph.now.seats }
    requires named { IsNamed stage }
    requires in_range { IsCommand command }
    ensures told { result ≡ told_by (register_value graph.now seat) (place_of stage) command reply }
    ensures effects { effects_told result ≡ effects (register_value graph.now seat) (place_of stage) reply }
{
    match stage {
        Stage::PutValue
        | Stage::PutLast(_)
        | Stage::PutNext(_)
        | Stage::PutHelps { .. }
        | Stage::PutLinks(_)
        | Stage::PutSwings(_) => told_put(graph, seat, stage, command, reply),
        Stage::TakeLast
        | Stage::TakeNext
        | Stage::TakeSame(_)
        | Stage::TakeHelps(_)
        | Stage::TakeValue
        | Stage::TakeUnlinks
        | Stage::TakeCopies => told_take(graph, seat, stage, command, reply),
        _ => told_outside(graph, seat, stage, command, reply),
    }
}
