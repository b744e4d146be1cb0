ghost use Rattle.std.specs.Prelude.{◌≡◌};
ghost use Rattle.script_text.specs.declared.cause.ScriptFault.TheVariants as faults;

use heap_model::Memory;
use thiserror::Error;

/// What is wrong with a line.
#[derive(Clone, Copy, Debug, PartialEq, Eq)]
pub enum Cause {
    NoHeader,
    BadHeap,
    NoSeat,
    NoCommand,
    BadNumber,
    OutOfRange,
    TooManyWords,
    TooManyLines,
    BadEntry,
    NoEnd,
    HistoryLines,
    /// A history of a run where one of a play is wanted.
    NotPlay,
}

/// A line of a text, counted from 1, and what is wrong with it.
#[derive(Clone, Copy, Debug, PartialEq, Eq)]
pub struct LineFault {
    pub line: u32,
    pub cause: Cause,
}

impl Cause {
    /// The fault of the line of this number.
    pub fn at(self, line: u32) -> LineFault
        ensures { result ≡ record { line = line; cause = self } }
    {
        LineFault { line, cause: self }
    }
}

/// Why a text was not read.
#[derive(Clone, Copy, Debug, PartialEq, Eq, Error)]
pub enum ScriptFault {
    #[error("{0:?}")]
    Line(LineFault),
    #[error("out of memory")]
    Memory,
}

impl From<LineFault> for ScriptFault {
    ghost from_gives = { λ fault e. e ≡ faults.Line fault };

    fn from(fault: LineFault) -> ScriptFault {
        ScriptFault::Line(fault)
    }
}

impl From<Memory> for ScriptFault {
    ghost from_gives = { λ _ e. e ≡ faults.Memory };

    fn from(_e: Memory) -> ScriptFault {
        ScriptFault::Memory
    }
}
