ghost use Rattle.std.specs.Prelude.{◌≡◌, ◌≤◌, length, All, IsTrue, IfOk};
ghost use Rattle.heap_model.specs.Command.{IsWithin};
ghost use Rattle.heap_model.specs.Limits.{most_seats};
ghost use Rattle.heap_runs.specs.SeatWork.{IsOfScript};
ghost use Rattle.script_text.specs.Made.{most_start};

use heap_model::{Command, Memory};
use script_text::{Line, make_script};
use std::alloc::Global;

/// The most commands of a seat's script.
pub(super) const MOST_COMMANDS: usize = 20;

/// As many lines as two seats' scripts have.
const LINES: u32 = 40;

/// One of three registers that are written.
fn target(d: u8) -> u8 {
    1 + d % 3
}

/// One of these, or the one that holds the board.
fn register(r: u8) -> u8 {
    r % 4
}

/// The command on few registers and fields, so that these hold objects, and are shared.
/// Of those on numbers and registers alone half become commands on the board's fields, a length, or a collect.
fn on_few(command: Command) -> Command {
    match command {
        Command::New { d, fields } => Command::New {
            d: target(d),
            fields: 1 + fields % 8,
        },
        Command::Array { d, cells } => Command::Array {
            d: target(d),
            cells: 1 + cells % 12,
        },
        Command::Get { d, r, i } => Command::Get {
            d: target(d),
            r: register(r),
            i: i % 3,
        },
        Command::Set { r, i, v } => Command::Set {
            r: register(r),
            i: i % 3,
            v: register(v),
        },
        Command::Nil { d } => Command::Nil { d: target(d) },
        Command::Num { d, n } if n % 2 == 1 => Command::Num { d: target(d), n },
        other => on_board(other),
    }
}

/// A number or a comparison that has become a command on a field of the board, or a collect; a copy that has become a length.
fn on_board(command: Command) -> Command {
    match command {
        Command::Num { n, .. } => Command::Set {
            r: 0,
            i: n % 3,
            v: 1,
        },
        Command::Same { a, b } if a % 2 == 0 => Command::Get {
            d: target(b),
            r: 0,
            i: 0,
        },
        Command::Same { a, .. } if a % 4 == 1 => Command::Collect,
        Command::Copy { r, .. } if r % 2 == 1 => Command::Len { r: register(r) },
        other => other,
    }
}

/// Whether a seat's script may have the command.
fn may_be_in_script(command: &Command) -> bool
    ensures { IsTrue result → IsOfScript command.now }
{
    command.is_in_range() && !matches!(*command, Command::Leave)
}

/// The script of the seat, of its lines among these.
fn script_of_seat(alloc: Global, lines: &[Line], number: u8) -> Result<Vec<Command>, Memory>
    ensures short { IfOk result (λ script. length script.items ≤ 20) }
    ensures each { IfOk result (λ script. All IsOfScript script.items) }
{
    let mut script = Vec::new(alloc);
    for line in lines {
        let Line::Seat { seat, command } = *line else {
            continue;
        };
        let command = on_few(command);
        let room = script.len() < MOST_COMMANDS;
        if seat == number && room && may_be_in_script(&command) {
            script.push(command)?;
        }
    }
    Ok(script)
}

/// The scripts of the seats that come from this start, in the order of their numbers.
pub(super) fn scripts_from(
    alloc: Global,
    start: u32,
    seats: u8,
) -> Result<Vec<Vec<Command>>, Memory>
    requires start { start ≤ most_start }
    requires seats { IsWithin 1 most_seats seats }
    ensures seated { IfOk result (λ scripts. length scripts.items ≡ seats) }
    ensures short { IfOk result (λ scripts. All (λ script. length script.items ≤ 20) scripts.items) }
    ensures each { IfOk result (λ scripts. All (λ script. All IsOfScript script.items) scripts.items) }
{
    let made = make_script(alloc, start, seats, LINES)?;
    let mut scripts = Vec::new(alloc);
    for number in 0..seats {
        let script = script_of_seat(alloc, made.lines.as_slice(), number)?;
        scripts.push(script)?;
    }
    Ok(scripts)
}
