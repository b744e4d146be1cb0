ghost use Rattle.std.specs.Prelude.{◌≡◌};
ghost use Rattle.heap_model.specs.Command.{IsCommand};
ghost use Rattle.heap_queue.specs.Places.{after};
ghost use Rattle.heap_queue.specs.Stages.{place_of, IsNamed, IsOutside, IsOfPut, IsOfTake};

use heap_model::{Command, Reply, Value};

/// Where a seat stands in its puts and takes, named by its next call of the heap.
#[derive(Clone, Copy, Debug, PartialEq, Eq)]
pub(crate) enum Stage {
    MakesNode,
    SetsFirst,
    SetsLast,
    Waits,
    Rests,
    Gone,
    PutValue,
    PutLast(u8),
    PutNext(u8),
    PutHelps { v: u8, stamp: u32 },
    PutLinks(u8),
    PutSwings(u8),
    TakeLast,
    TakeNext,
    TakeSame(u32),
    TakeHelps(u32),
    TakeValue,
    TakeUnlinks,
    TakeCopies,
}

/// Where a seat stands that makes the queue, waits for it or rests, after a reply.
fn after_rest(stage: Stage, command: Command, reply: Reply) -> Stage
    requires outside { IsOutside stage }
    ensures place { place_of result ≡ after (place_of stage) command reply }
    ensures named { IsNamed result }
{
    match (stage, command, reply) {
        (Stage::MakesNode, _, Reply::Made(_)) => Stage::SetsFirst,
        (Stage::MakesNode, _, _) => Stage::Gone,
        (Stage::SetsFirst, _, _) => Stage::SetsLast,
        (Stage::Waits, Command::Leave, _) => Stage::Gone,
        (
            Stage::Waits,
            Command::Get { .. },
            Reply::Got {
                value: Value::Object(_),
                ..
            },
        ) => Stage::Rests,
        (Stage::Waits, _, _) => Stage::Waits,
        (Stage::Rests, Command::Leave, _) => Stage::Gone,
        (Stage::Rests, Command::New { .. }, Reply::Made(_)) => Stage::PutValue,
        (Stage::Rests, Command::Get { i: 0, .. }, Reply::Got { .. }) => Stage::TakeLast,
        (Stage::Gone, _, _) => Stage::Gone,
        _ => Stage::Rests,
    }
}

/// Where a seat stands that takes, after a reply.
fn after_take(stage: Stage, command: Command, reply: Reply) -> Stage
    requires takes { IsOfTake stage }
    ensures place { place_of result ≡ after (place_of stage) command reply }
    ensures named { IsNamed result }
{
    match (stage, reply) {
        (Stage::TakeLast, Reply::Got { .. }) => Stage::TakeNext,
        (
            Stage::TakeNext,
            Reply::Got {
                value: Value::Nil,
                ..
            },
        ) => Stage::Rests,
        (Stage::TakeNext, Reply::Got { stamp, .. }) => Stage::TakeSame(stamp),
        (Stage::TakeSame(stamp), Reply::Yes) => Stage::TakeHelps(stamp),
        (Stage::TakeSame(_), Reply::No) => Stage::TakeValue,
        (Stage::TakeValue, Reply::Got { .. }) => Stage::TakeUnlinks,
        (Stage::TakeUnlinks, Reply::Was(_)) => Stage::TakeCopies,
        _ => Stage::Rests,
    }
}

/// Where a seat stands that puts, after a reply.
fn after_put(stage: Stage, command: Command, reply: Reply) -> Stage
    requires puts { IsOfPut stage }
    requires named { IsNamed stage }
    requires in_range { IsCommand command }
    ensures place { place_of result ≡ after (place_of stage) command reply }
    ensures named { IsNamed result }
{
    match (stage, command, reply) {
        (Stage::PutValue, Command::Set { v, .. }, Reply::Was(_)) => Stage::PutLast(v),
        (Stage::PutLast(v), _, Reply::Got { .. }) => Stage::PutNext(v),
        (
            Stage::PutNext(v),
            _,
            Reply::Got {
                value: Value::Object(_),
                stamp,
            },
        ) => Stage::PutHelps { v, stamp },
        (Stage::PutNext(v), _, Reply::Got { .. }) => Stage::PutLinks(v),
        (Stage::PutLinks(v), _, Reply::Was(_)) => Stage::PutSwings(v),
        _ => Stage::Rests,
    }
}

impl Stage {
    /// Where the seat stands after a command and its reply.
    pub(crate) fn after(self, command: Command, reply: Reply) -> Stage
        requires named { IsNamed self }
        requires in_range { IsCommand command }
        ensures place { place_of result ≡ after (place_of self) command reply }
        ensures named { IsNamed result }
    {
        match self {
            Stage::PutValue
            | Stage::PutLast(_)
            | Stage::PutNext(_)
            | Stage::PutHelps { .. }
            | Stage::PutLinks(_)
            | Stage::PutSwings(_) => after_put(self, command, reply),
            Stage::TakeLast
            | Stage::TakeNext
            | Stage::TakeSame(_)
            | Stage::TakeHelps(_)
            | Stage::TakeValue
            | Stage::TakeUnlinks
            | Stage::TakeCopies => after_take(self, command, reply),
            _ => after_rest(self, command, reply),
        }
    }
}
