//! Scripts that are read, written and made.

ghost use Rattle.std.specs.Prelude.{IfOk};
ghost use Rattle.script_text.specs.declared.script.Form.TheVariants.{Play};
ghost use Rattle.script_text.specs.Writing.{IsOfForm};

use super::comparing::same;
use heap_model::{Command, Heap, TurnCommand};
use script_text::{
    Form, Line, MOST_MADE_LINES, MOST_START, Script, ScriptFault, make_script, read_script,
    write_script,
};
use std::alloc::Global;
use std::test::Fail;

mod faults;
mod migrated;

const SCRIPT: &[u8] = b"schism 1\nheap 4 8 2\n\
    0 new 15 47\n1 array 1 4096\n0 get 1 15 4096\n1 set 0 7 15\n0 num 2 1073741823\n0 nil 1\n\
    0 copy 3 0\n1 same 15 0\n0 len 15\n0 poll\n1 collect\nc turns 1000000\nc cycle\n";

fn seat(seat: u8, command: Command) -> Line {
    Line::Seat { seat, command }
}

fn script_lines() -> [Line; 13] {
    [
        seat(0, Command::New { d: 15, fields: 47 }),
        seat(1, Command::Array { d: 1, cells: 4096 }),
        seat(
            0,
            Command::Get {
                d: 1,
                r: 15,
                i: 4096,
            },
        ),
        seat(1, Command::Set { r: 0, i: 7, v: 15 }),
        seat(
            0,
            Command::Num {
                d: 2,
                n: 1_073_741_823,
            },
        ),
        seat(0, Command::Nil { d: 1 }),
        seat(0, Command::Copy { d: 3, r: 0 }),
        seat(1, Command::Same { a: 15, b: 0 }),
        seat(0, Command::Len { r: 15 }),
        seat(0, Command::Poll),
        seat(1, Command::Collect),
        Line::Turns {
            command: TurnCommand::Turns(1_000_000),
        },
        Line::Turns {
            command: TurnCommand::Cycle,
        },
    ]
}

#[test]
fn each_command(rt: HostRuntime) -> Result<(), Fail> {
    // The last line feed may be missing.
    for text in [SCRIPT, &SCRIPT[..SCRIPT.len() - 1]] {
        let script = read_script(rt.alloc(), text, Form::Play)?;
        let heap = Heap {
            groups: 4,
            spine: 8,
            seats: 2,
            board: 32,
        };
        same(&rt, &script.heap, &heap, &text.len());
        let wanted = script_lines();
        same(
            &rt,
            &script.lines.as_slice(),
            &wanted.as_slice(),
            &text.len(),
        );
    }
    Ok(())
}

const SECOND_SCRIPT: &[u8] = b"schism 2\nheap 4 8 2 47\n0 cas 0 4096 15 1\n1 collect\n";

#[test]
fn second_version(rt: HostRuntime) -> Result<(), Fail> {
    let script = read_script(rt.alloc(), SECOND_SCRIPT, Form::Run)?;
    same(&rt, &script.version, &2, &"the version");
    same(&rt, &script.heap.board, &47, &"the board");
    let swap = Command::Cas {
        r: 0,
        i: 4096,
        a: 15,
        v: 1,
    };
    let wanted = [seat(0, swap), seat(1, Command::Collect)];
    same(&rt, &script.lines.as_slice(), &wanted.as_slice(), &"lines");
    Ok(())
}

/// The script that the text is, which is one of a play.
fn script_of(alloc: Global, text: &[u8]) -> Result<Script, ScriptFault>
    ensures { IfOk result (IsOfForm Play) }
{
    read_script(alloc, text, Form::Play)
}

#[test]
fn written(rt: HostRuntime) -> Result<(), Fail> {
    let run = b"schism 1\nheap 4096 16384 16\n15 poll\n0 collect\n".as_slice();
    for text in [SCRIPT, run, SECOND_SCRIPT] {
        let script = script_of(rt.alloc(), text)?;
        let written = write_script(rt.alloc(), &script)?;
        same(&rt, &written.as_slice(), &text, &text.len());
    }
    Ok(())
}

// What another program makes of these numbers.
const MADE_ALONE: &[u8] =
    b"schism 1\nheap 64 256 1\n0 copy 14 1\n0 set 11 3 2\n0 set 4 6 13\n0 poll\n";

const MADE_OF_THREE: &[u8] = b"schism 1\nheap 64 256 3\n\
    0 num 12 10868\n1 get 12 5 2\n2 copy 6 1\n0 nil 14\n1 copy 15 13\n2 get 11 6 6\n\
    0 num 13 18467\n1 same 10 13\n2 new 5 10\n0 poll\n1 poll\n2 poll\n0 get 6 5 6\n1 get 6 4 3\n";

const MADE_OF_TWO: &[u8] = b"schism 1\nheap 64 256 2\n\
    0 array 15 7\n1 copy 14 2\n0 new 9 5\n1 copy 9 9\n0 set 0 5 14\n";

const MADE_EMPTY: &[u8] = b"schism 1\nheap 64 256 16\n";

#[test]
fn made(rt: HostRuntime) -> Result<(), Fail> {
    let alloc = rt.alloc();
    let alone = write_script(alloc, &make_script(alloc, 1, 1, 4)?)?;
    same(&rt, &alone.as_slice(), &MADE_ALONE, &"a lone seat");
    let of_three = write_script(alloc, &make_script(alloc, 7, 3, 14)?)?;
    same(&rt, &of_three.as_slice(), &MADE_OF_THREE, &"three seats");
    let of_two = write_script(alloc, &make_script(alloc, MOST_START, 2, 5)?)?;
    same(&rt, &of_two.as_slice(), &MADE_OF_TWO, &"two seats");
    let empty = write_script(alloc, &make_script(alloc, 0, 16, 0)?)?;
    same(&rt, &empty.as_slice(), &MADE_EMPTY, &"no line");
    let most = make_script(alloc, 5, 1, MOST_MADE_LINES)?;
    same(
        &rt,
        &most.lines.as_slice().len(),
        &32_768,
        &"the most lines",
    );
    Ok(())
}
