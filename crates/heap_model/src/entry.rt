ghost use Rattle.std.specs.Prelude.{◌≡◌};

use crate::command::{Command, TurnCommand};
use crate::id::Id;
use crate::reply::{Reply, TurnReply};

/// One entry of a history: a reply of a seat, fragments that it takes or gives back, a phase that it answers,
/// or what the collector did.
#[derive(Clone, Copy, Debug, PartialEq, Eq)]
pub enum Entry {
    Said {
        seat: u8,
        command: Command,
        reply: Reply,
    },
    Takes {
        seat: u8,
        count: u32,
    },
    GivesBack {
        seat: u8,
        count: u32,
    },
    Answers {
        seat: u8,
        phase: u64,
    },
    Advance(u64),
    Frees(u32),
    Returns(u32),
    Swings(Id),
    Ends {
        cycle: u64,
        kept: u64,
    },
    Turned {
        command: TurnCommand,
        reply: TurnReply,
    },
}

impl Entry {
    ghost use Rattle.heap_model.specs.account.Noting.{seat_of};

    /// The seat whose entry it is; none where it is the collector's.
    pub fn seat(&self) -> Option<u8>
        ensures { result ≡ seat_of self.now }
    {
        match *self {
            Entry::Said { seat, .. }
            | Entry::Takes { seat, .. }
            | Entry::GivesBack { seat, .. }
            | Entry::Answers { seat, .. } => Some(seat),
            _ => None,
        }
    }
}
