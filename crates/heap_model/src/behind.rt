ghost use Rattle.std.specs.Prelude.{◌≡◌, Some};
ghost use Rattle.heap_model.specs.Behind.{behind_of, as_reply, as_turn_reply, as_turn, as_collect_reply, behind_in_reply, behind_in_turn_reply, behind_in_turn, ended_or_behind};

use crate::calls::collect::CollectReply;
use crate::calls::collector_calls::Turn;
use crate::reply::{Reply, TurnReply};

/// A seat whose last answer was found to be below the phase. Each answer that a seat is waited for carries these three numbers.
#[derive(Clone, Copy, Debug, PartialEq, Eq)]
pub struct Behind {
    pub seat: u8,
    pub answered: u64,
    pub phase: u64,
}

impl From<Behind> for Reply {
    ghost from_gives = { λ behind reply. reply ≡ as_reply behind };

    fn from(behind: Behind) -> Reply {
        Reply::Waits {
            seat: behind.seat,
            answered: behind.answered,
            phase: behind.phase,
        }
    }
}

impl From<Behind> for TurnReply {
    ghost from_gives = { λ behind reply. reply ≡ as_turn_reply behind };

    fn from(behind: Behind) -> TurnReply {
        TurnReply::Waits {
            seat: behind.seat,
            answered: behind.answered,
            phase: behind.phase,
        }
    }
}

impl From<Behind> for CollectReply {
    ghost from_gives = { λ behind reply. reply ≡ as_collect_reply behind };

    fn from(behind: Behind) -> CollectReply {
        CollectReply::Waits {
            seat: behind.seat,
            answered: behind.answered,
            phase: behind.phase,
        }
    }
}

impl From<Behind> for Turn {
    ghost from_gives = { λ behind turn. turn ≡ as_turn behind };

    fn from(behind: Behind) -> Turn {
        Turn::Waits {
            seat: behind.seat,
            answered: behind.answered,
            phase: behind.phase,
        }
    }
}

/// The seat that an answer with these numbers tells of.
fn told(seat: u8, answered: u64, phase: u64) -> Option<Behind>
    ensures { result ≡ Some (behind_of seat answered phase) }
{
    Some(Behind {
        seat,
        answered,
        phase,
    })
}

impl Reply {
    /// The seat that is waited for, where the reply tells one.
    pub fn behind(&self) -> Option<Behind>
        ensures { result ≡ behind_in_reply self.now }
    {
        match *self {
            Reply::Waits {
                seat,
                answered,
                phase,
            } => told(seat, answered, phase),
            _ => None,
        }
    }
}

impl TurnReply {
    /// The seat that is waited for, where the reply tells one.
    pub fn behind(&self) -> Option<Behind>
        ensures { result ≡ behind_in_turn_reply self.now }
    {
        match *self {
            TurnReply::Waits {
                seat,
                answered,
                phase,
            } => told(seat, answered, phase),
            TurnReply::Done | TurnReply::Cycle(_) => None,
        }
    }
}

impl Turn {
    /// The seat that is waited for, where the turn waits.
    pub fn behind(&self) -> Option<Behind>
        ensures { result ≡ behind_in_turn self.now }
    {
        match *self {
            Turn::Waits {
                seat,
                answered,
                phase,
            } => told(seat, answered, phase),
            Turn::Stepped | Turn::Ended { .. } => None,
        }
    }
}

impl CollectReply {
    /// The cycle that has ended, or the seat that is waited for.
    pub fn ended(&self) -> Result<u64, Behind>
        ensures { result ≡ ended_or_behind self.now }
    {
        match *self {
            CollectReply::Cycle(cycle) => Ok(cycle),
            CollectReply::Waits {
                seat,
                answered,
                phase,
            } => Err(Behind {
                seat,
                answered,
                phase,
            }),
        }
    }
}
