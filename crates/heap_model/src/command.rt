ghost use Rattle.std.specs.Prelude.{◌≡◌, ◌<◌, ◌^◌, ◌↔◌, IsTrue};
ghost use Rattle.heap_model.specs.Command.{IsTarget, IsRegister, IsCommand};
ghost use Rattle.heap_model.specs.Needs.{record_fragments, need_of, spine_need_of};

use crate::limits::{LAST_INDEX, LAST_REGISTER, MOST_CELLS, MOST_FIELDS, NUMBER_LIMIT};

/// What a seat asks of the heap. `d` is the register that the answer goes to, `r`, `v`, `a` and `b` are registers
/// that are read, and `i` is the index of a field or a cell. A `Cas` sets the cell exactly where it has the value
/// and the stamp that `a` was read with.
#[derive(Clone, Copy, Debug, PartialEq, Eq)]
pub enum Command {
    New { d: u8, fields: u16 },
    Array { d: u8, cells: u16 },
    Get { d: u8, r: u8, i: u32 },
    Set { r: u8, i: u32, v: u8 },
    Cas { r: u8, i: u32, a: u8, v: u8 },
    Num { d: u8, n: u32 },
    Nil { d: u8 },
    Copy { d: u8, r: u8 },
    Same { a: u8, b: u8 },
    Len { r: u8 },
    Poll,
    Collect,
    Leave,
}

impl Command {
    /// Whether each number of the command is in its range.
    #[inline(always)]
    pub fn is_in_range(&self) -> bool
        ensures { IsTrue result ↔ IsCommand self.now }
    {
        match *self {
            Command::New { d, fields } => is_target(d) && 1 <= fields && fields <= MOST_FIELDS,
            Command::Array { d, cells } => is_target(d) && 1 <= cells && cells <= MOST_CELLS,
            Command::Get { d, r, i } => is_target(d) && is_register(r) && i <= LAST_INDEX,
            Command::Set { r, i, v } => is_register(r) && i <= LAST_INDEX && is_register(v),
            Command::Cas { r, i, a, v } => {
                is_register(r) && i <= LAST_INDEX && is_register(a) && is_register(v)
            }
            Command::Num { d, n } => is_target(d) && n < NUMBER_LIMIT,
            Command::Nil { d } => is_target(d),
            Command::Copy { d, r } => is_target(d) && is_register(r),
            Command::Same { a, b } => is_register(a) && is_register(b),
            Command::Len { r } => is_register(r),
            Command::Poll | Command::Collect | Command::Leave => true,
        }
    }

    /// The fragments that the command asks for.
    pub fn need(&self) -> u32
        ensures { result ≡ need_of self.now }
    {
        match *self {
            Command::New { fields, .. } => record_fragments(fields),
            Command::Array { cells, .. } => 1 + (cells as u32 + 3) / 4,
            _ => 0,
        }
    }

    /// The spine words that the command asks for.
    pub fn spine_need(&self) -> u32
        ensures { result ≡ spine_need_of self.now }
    {
        match *self {
            Command::Array { cells, .. } => (cells as u32 + 3) / 4,
            _ => 0,
        }
    }
}

/// The fragments of a record.
pub(crate) fn record_fragments(fields: u16) -> u32
    ensures { result ≡ record_fragments fields }
{
    1 + (fields.saturating_sub(2) as u32 + 2) / 3
}

/// Whether a command may write this register.
#[inline(always)]
fn is_target(d: u8) -> bool
    ensures { IsTrue result ↔ IsTarget d }
{
    1 <= d && is_register(d)
}

/// Whether a seat has this register.
#[inline(always)]
fn is_register(r: u8) -> bool
    ensures { IsTrue result ↔ IsRegister r }
{
    r <= LAST_REGISTER
}

/// What a script asks of the collector: a number of turns, or turns until a cycle ends.
#[derive(Clone, Copy, Debug, PartialEq, Eq)]
pub enum TurnCommand {
    Turns(u32),
    Cycle,
}
