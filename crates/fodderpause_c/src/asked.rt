ghost use Rattle.std.specs.Prelude.{◌≡◌, ◌^◌, ◌≤◌, MatchOption};
ghost use Rattle.heap_model.specs.Command.{IsCommand};
ghost use Rattle.fodderpause_c.specs.Asked.{asked_command};

use heap_model::Command;

/// What C asks of a seat, by numbers that may be too large for a command.
#[derive(Clone, Copy)]
pub enum Asked {
    New { d: u32, fields: u32 },
    Array { d: u32, cells: u32 },
    Get { d: u32, r: u32, i: u32 },
    Set { r: u32, i: u32, v: u32 },
    Cas { r: u32, i: u32, a: u32, v: u32 },
    Num { d: u32, n: u64 },
    Nil { d: u32 },
    Copy { d: u32, r: u32 },
    Same { a: u32, b: u32 },
    Len { r: u32 },
    Poll,
    Leave,
}

/// The number in the bits that a register has.
#[inline(always)]
fn register(n: u32) -> Option<u8>
    ensures { MatchOption result (2 ^ 8 ≤ n) (λ register. register ≡ n) }
{
    u8::try_from(n).ok()
}

impl Asked {
    /// The command, where each number has room in it.
    #[inline(always)]
    pub fn command(&self) -> Option<Command>
        ensures { MatchOption result (¬ IsCommand (asked_command self.now)) (λ command. command ≡ asked_command self.now) }
    {
        let command = match *self {
            Asked::New { d, fields } => Command::New {
                d: register(d)?,
                fields: u16::try_from(fields).ok()?,
            },
            Asked::Array { d, cells } => Command::Array {
                d: register(d)?,
                cells: u16::try_from(cells).ok()?,
            },
            Asked::Get { d, r, i } => Command::Get {
                d: register(d)?,
                r: register(r)?,
                i,
            },
            Asked::Set { r, i, v } => Command::Set {
                r: register(r)?,
                i,
                v: register(v)?,
            },
            Asked::Cas { r, i, a, v } => Command::Cas {
                r: register(r)?,
                i,
                a: register(a)?,
                v: register(v)?,
            },
            Asked::Num { d, n } => Command::Num {
                d: register(d)?,
                n: u32::try_from(n).ok()?,
            },
            Asked::Nil { d } => Command::Nil { d: register(d)? },
            Asked::Copy { d, r } => Command::Copy {
                d: register(d)?,
                r: register(r)?,
            },
            Asked::Same { a, b } => Command::Same {
                a: register(a)?,
                b: register(b)?,
            },
            Asked::Len { r } => Command::Len { r: register(r)? },
            Asked::Poll => Command::Poll,
            Asked::Leave => Command::Leave,
        };
        Some(command)
    }
}
