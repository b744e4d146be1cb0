ghost use Rattle.std.specs.Prelude.{◌≡◌, ◌+◌, ◌≤◌, ◌%◌, IfOk};
ghost use Rattle.heap_model.specs.Command.{IsTarget, IsRegister, IsIndex, IsWithin};
ghost use Rattle.heap_model.specs.Limits.{most_seats};
ghost use Rattle.script_text.specs.declared.script.Form.TheVariants.{Play, Run};
ghost use Rattle.script_text.specs.declared.script.Line.TheVariants as lines;
ghost use Rattle.script_text.specs.Commands.{version_commands};
ghost use Rattle.script_text.specs.Generator.{draw, next_state, state_after_draws};
ghost use Rattle.script_text.specs.Grammar.{IsScripted};
ghost use Rattle.script_text.specs.Made.{drawn_command, drawn_index, drawn_register, drawn_target, draws_of, made_command, made_script, most_made_lines, most_start};
ghost use Rattle.script_text.specs.Writing.{IsOfForm};

use crate::generator::Generator;
use crate::preamble::USUAL_BOARD;
use crate::script::{Line, Script};
use crate::sequence::Sequence;
use heap_model::limits::{LAST_REGISTER, REGISTER_COUNT};
use heap_model::{Command, Heap, Memory};
use std::alloc::Global;

/// The greatest number that a made script can start from.
pub const MOST_START: u32 = 2_147_483_647;

/// The most lines of a made script, its first two aside.
pub const MOST_MADE_LINES: u32 = 32_768;

/// A register that is written.
fn target(generator: &mut Generator) -> u8
    ensures state { generator.new ≡ next_state generator.old }
    ensures drawn { result ≡ drawn_target (draw 1 generator.old) }
{
    (1 + generator.draw() % u32::from(LAST_REGISTER)) as u8
}

/// A register that is read.
fn register(generator: &mut Generator) -> u8
    ensures state { generator.new ≡ next_state generator.old }
    ensures drawn { result ≡ drawn_register (draw 1 generator.old) }
{
    (generator.draw() % REGISTER_COUNT as u32) as u8
}

/// The index of a field or a cell.
fn index(generator: &mut Generator) -> u32
    ensures state { generator.new ≡ next_state generator.old }
    ensures drawn { result ≡ drawn_index (draw 1 generator.old) }
{
    generator.draw() % 8
}

/// A number of fields or cells, 1 at least.
fn size(generator: &mut Generator, most: u16) -> u16
    requires { 1 ≤ most }
    ensures state { generator.new ≡ next_state generator.old }
    ensures drawn { result ≡ 1 + draw 1 generator.old % most }
    ensures fits { result ≤ most }
{
    1 + (generator.draw() % u32::from(most)) as u16
}

/// The command that the next draw picks, with its operands by the draws after it.
fn command(generator: &mut Generator) -> Command
    ensures drawn { result ≡ drawn_command generator.old }
    ensures state { generator.new ≡ state_after_draws (draws_of result) generator.old }
    ensures range { IsScripted (version_commands 1) result }
{
    match generator.draw() % 8 {
        0 => {
            let d = target(generator);
            let fields = size(generator, 12);
            Command::New { d, fields }
        }
        1 => {
            let d = target(generator);
            let cells = size(generator, 32);
            Command::Array { d, cells }
        }
        2 => {
            let d = target(generator);
            let r = register(generator);
            let i = index(generator);
            Command::Get { d, r, i }
        }
        3 => {
            let r = register(generator);
            let i = index(generator);
            let v = register(generator);
            Command::Set { r, i, v }
        }
        4 => {
            let d = target(generator);
            let n = generator.draw();
            Command::Num { d, n }
        }
        5 => Command::Nil {
            d: target(generator),
        },
        6 => {
            let d = target(generator);
            let r = register(generator);
            Command::Copy { d, r }
        }
        _ => {
            let a = register(generator);
            let b = register(generator);
            Command::Same { a, b }
        }
    }
}

/// The line of this number, counted from 0.
fn line(generator: &mut Generator, seats: u8, number: u32) -> Line
    requires { 1 ≤ seats }
    ensures made { result ≡ lines.Seat (number % seats) (made_command seats number generator.old) }
    ensures state { generator.new ≡ state_after_draws (draws_of (made_command seats number generator.old)) generator.old }
    ensures range { IsScripted (version_commands 1) (made_command seats number generator.old) }
{
    let seats = u32::from(seats);
    let seat = (number % seats) as u8;
    if number / seats % 4 == 3 {
        return Line::Seat {
            seat,
            command: Command::Poll,
        };
    }
    Line::Seat {
        seat,
        command: command(generator),
    }
}

/// A script of so many lines, the same each time from the same start.
pub fn make_script(alloc: Global, start: u32, seats: u8, lines: u32) -> Result<Script, Memory>
    requires start { start ≤ most_start }
    requires seats { IsWithin 1 most_seats seats }
    requires lines { lines ≤ most_made_lines }
    ensures made { IfOk result (λ script. script ≡ made_script start seats lines) }
    // A play may take it, and so may a run.
    ensures play { IfOk result (IsOfForm Play) }
    ensures run { IfOk result (IsOfForm Run) }
{
    let mut generator = Generator::new(start);
    let mut made = Sequence::new(alloc);
    for number in 0..lines {
        made.push(line(&mut generator, seats, number))?;
    }
    let heap = Heap {
        groups: 64,
        spine: 256,
        seats,
        board: USUAL_BOARD,
    };
    Ok(Script {
        version: 1,
        heap,
        lines: made,
    })
}
