ghost use Rattle.std.specs.Prelude.{◌≡◌};

use crate::preamble::Preamble;
use crate::sequence::Sequence;
use heap_model::{Command, Heap, TurnCommand};

/// What a script is for: a play on one thread, or a run of many.
#[derive(Clone, Copy, Debug, PartialEq, Eq)]
pub enum Form {
    Play,
    Run,
}

/// A line of a script: a seat's command, or one for the collector.
#[derive(Clone, Copy, Debug, PartialEq, Eq)]
pub enum Line {
    Seat { seat: u8, command: Command },
    Turns { command: TurnCommand },
}

/// A script: its version, which is 1 or 2, the heap that it asks for, and its further lines.
#[derive(Debug, Drop)]
pub struct Script {
    pub version: u8,
    pub heap: Heap,
    pub lines: Sequence<Line>,
}

impl Script {
    ghost use Rattle.script_text.specs.Words.{preamble_of};

    /// What its first two lines tell.
    pub fn preamble(&self) -> Preamble
        ensures { result ≡ preamble_of self.now }
    {
        Preamble {
            version: self.version,
            heap: self.heap,
        }
    }
}
