ghost use Rattle.std.specs.Prelude.{◌≡◌};
ghost use Rattle.heap_model.specs.declared.reply.Reply.TheVariants.{Phase};
ghost use Rattle.heap_model.specs.calls.SeatReplies.{record_reply, array_reply, get_reply, set_reply, cas_reply, same_reply, len_reply};
ghost use Rattle.mutator_seat.specs.Replies.{TellsPhase, AnswersRecord, AnswersArray, AnswersGet, AnswersSet, AnswersCas, AnswersSame, AnswersLen};

use heap_model::{Full, Id, NoObject, PlaceRefusal, Reply, SpaceRefusal, Swapped, Value};

/// The phase that a poll's reply tells.
pub(crate) fn phase_of(reply: Reply) -> u64
    requires { TellsPhase reply }
    ensures { Phase result ≡ reply }
{
    match reply {
        Reply::Phase(phase) => phase,
        _ => unreachable!(),
    }
}

/// What the reply to `new` answers.
pub(crate) fn record_of(reply: Reply) -> Result<Id, Full>
    requires { AnswersRecord reply }
    ensures { record_reply result ≡ reply }
{
    match reply {
        Reply::Made(id) => Ok(id),
        Reply::Full { need, found } => Err(Full { need, found }),
        _ => unreachable!(),
    }
}

/// What the reply to `array` answers.
pub(crate) fn array_of(reply: Reply) -> Result<Id, SpaceRefusal>
    requires { AnswersArray reply }
    ensures { array_reply result ≡ reply }
{
    match reply {
        Reply::Made(id) => Ok(id),
        Reply::Full { need, found } => Err(SpaceRefusal::Full { need, found }),
        Reply::SpineFull { need, used } => Err(SpaceRefusal::SpineFull { need, used }),
        _ => unreachable!(),
    }
}

/// What the reply to `get` answers.
pub(crate) fn cell_of(reply: Reply) -> Result<(Value, u32), PlaceRefusal>
    requires { AnswersGet reply }
    ensures { get_reply result ≡ reply }
{
    match reply {
        Reply::Got { value, stamp } => Ok((value, stamp)),
        Reply::NoObject => Err(PlaceRefusal::NoObject),
        Reply::NoField => Err(PlaceRefusal::NoField),
        _ => unreachable!(),
    }
}

/// What the reply to `set` answers.
pub(crate) fn stamp_of(reply: Reply) -> Result<u32, PlaceRefusal>
    requires { AnswersSet reply }
    ensures { set_reply result ≡ reply }
{
    match reply {
        Reply::Was(stamp) => Ok(stamp),
        Reply::NoObject => Err(PlaceRefusal::NoObject),
        Reply::NoField => Err(PlaceRefusal::NoField),
        _ => unreachable!(),
    }
}

/// What the reply to `cas` answers.
pub(crate) fn swapped_of(reply: Reply) -> Result<Swapped, PlaceRefusal>
    requires { AnswersCas reply }
    ensures { cas_reply result ≡ reply }
{
    match reply {
        Reply::Was(stamp) => Ok(Swapped::Was(stamp)),
        Reply::Now(stamp) => Ok(Swapped::Now(stamp)),
        Reply::NoObject => Err(PlaceRefusal::NoObject),
        Reply::NoField => Err(PlaceRefusal::NoField),
        _ => unreachable!(),
    }
}

/// What the reply to `same` answers.
pub(crate) fn equal_of(reply: Reply) -> bool
    requires { AnswersSame reply }
    ensures { same_reply result ≡ reply }
{
    matches!(reply, Reply::Yes)
}

/// What the reply to `len` answers.
pub(crate) fn length_of(reply: Reply) -> Result<u16, NoObject>
    requires { AnswersLen reply }
    ensures { len_reply result ≡ reply }
{
    match reply {
        Reply::Length(length) => Ok(length),
        Reply::NoObject => Err(NoObject),
        _ => unreachable!(),
    }
}
