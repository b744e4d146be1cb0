//! One table in one thread: its seats and its collector play worked scripts, and call by call and turn by turn their logs get what the heap over the machine tells.

ghost use Rattle.heap_model.specs.Heap.{IsHeap};

mod table;

use super::comparing::holds;
use super::{played, script_of};
use heap_model::phase_plan::{CYCLE_PHASES, REST};
use heap_model::{CollectorCalls, Command, Entry, Memory};
use script_text::Script;
use std::alloc::Global;
use std::process::Abort;
use std::test::Fail;
use table::OneTable;

/// Worked scripts: an empty one; refusals with a reserve and without one; scattered fragments; fields, lengths and registers at their ends; arrays, their
/// budget and its return; a cell that is read across a copy of its spine; two seats of which one is behind; the barriers; objects that lead to one another; the board as a root.
const SCRIPTS: &[&str] = &[
    "heap 1 0 1\n",
    "heap 1 0 1\n0 new 1 2\n",
    "heap 1 0 1\n0 new 1 2\n0 new 2 47\n0 len 1\n",
    "heap 1 0 1\n0 new 1 2\n0 new 2 47\n0 nil 1\n0 collect\n",
    "heap 1 0 1\n0 new 1 2\n0 new 2 2\n0 new 3 2\n0 new 4 2\n0 new 5 2\n0 nil 2\n0 nil 4\n0 collect\n0 new 6 5\n",
    "heap 4 0 1\n0 new 1 47\n0 num 2 9\n0 set 1 46 2\n0 get 3 1 46\n0 set 1 47 2\n",
    "heap 1 0 1\n0 get 1 0 32\n0 get 1 5 0\n0 len 0\n0 len 5\n0 copy 2 0\n0 same 0 2\n0 same 0 3\n0 poll\n",
    "heap 1 0 1\n0 num 1 1073741823\n",
    "heap 2 4 1\n0 array 1 16\n0 array 2 1\n",
    "heap 4 8 1\n0 array 1 8\n0 array 2 8\n0 array 3 8\n0 array 4 8\n0 nil 1\n0 nil 3\n0 collect\n0 array 5 16\n",
    "heap 2 0 1\n0 array 1 4\n",
    "heap 2 4 1\n0 array 1 4\n0 num 2 7\n0 set 1 3 2\nc cycle\n0 poll\nc cycle\n0 poll\nc cycle\n0 poll\nc cycle\n0 get 3 1 3\n0 poll\nc cycle\n0 get 3 1 3\n",
    "heap 1 0 2\n0 collect\n1 poll\n0 collect\n",
    "heap 2 0 1\n0 new 1 2\n0 new 2 2\n0 new 3 2\n0 set 2 0 3\n0 nil 3\nc cycle\n0 poll\nc cycle\n0 poll\nc cycle\n0 poll\nc turns 81\n0 get 4 2 0\n0 set 1 0 4\n0 nil 5\n0 set 2 0 5\n0 nil 4\n0 collect\n0 get 6 1 0\n",
    "heap 1 0 1\n0 new 1 2\n0 new 2 2\n0 set 1 0 2\n0 set 2 0 1\n0 nil 1\n0 nil 2\n0 collect\n",
    "heap 1 8 1\n0 new 1 47\n0 array 1 20\n",
    "heap 66 1024 1\n0 array 1 4096\n0 num 2 1\n0 set 1 4095 2\n",
    "heap 1 0 1\n0 new 1 1\n0 set 0 31 1\n0 nil 1\n0 collect\n0 get 2 0 31\n",
];

/// Worked scripts of version 2: compare and swap on a board of two fields, with its replies, and while the barrier is on; boards that leave room, and one that leaves none; two seats that swap
/// one field; and a record that hangs on the last field of a board.
const SECOND_SCRIPTS: &[&str] = &[
    "heap 1 0 1 2\n0 num 1 7\n0 cas 0 1 5 1\n0 cas 0 1 5 1\n0 get 2 0 1\n0 num 3 8\n0 cas 0 1 2 3\n0 cas 0 2 5 1\n0 cas 9 0 5 1\n",
    "heap 2 0 1 1\n0 new 1 2\n0 new 2 2\n0 set 0 0 1\n0 get 3 0 0\nc cycle\n0 poll\nc cycle\n0 cas 0 0 3 2\n0 nil 1\n0 nil 2\n0 nil 3\n0 collect\n0 get 4 0 0\n",
    "heap 1 0 1 47\n0 len 0\n0 new 1 1\n0 set 0 46 0\n0 get 1 0 46\n",
    "heap 1 0 2 3\n0 num 1 5\n1 num 1 6\n0 cas 0 2 9 1\n1 cas 0 2 9 1\n1 get 2 0 2\n1 cas 0 2 2 1\n0 cas 0 2 9 1\n",
    "heap 1 4 1 46\n0 array 1 1\n0 set 0 45 0\n0 collect\n0 get 2 0 45\n",
];

/// The parties of one table play the script, the seats' leaves, and a last whole cycle.
fn play_all(table: &mut OneTable, script: &Script) -> Result<(), Memory> {
    for line in script.lines.as_slice() {
        table.play(line)?;
    }
    for seat in 0..script.heap.seats {
        table.call(seat, &Command::Leave)?;
    }
    if table.collector.phase() % CYCLE_PHASES != REST {
        table.cycle()?;
    }
    table.cycle()
}

/// What they tell of that.
fn told_by_one_table(alloc: Global, script: &Script) -> Result<Vec<Entry>, Memory>
    requires { IsHeap script.now.heap }
{
    let mut table = OneTable::opening(alloc, script.heap)?;
    play_all(&mut table, script)?;
    Ok(table.told)
}

/// Whether these are the entries of the heap, in their order, what was answered to lines for the collector aside.
fn are_those_of(told: &[Entry], entries: &[Entry]) -> bool {
    let mut rest = told.iter();
    for entry in entries {
        if !matches!(entry, Entry::Turned { .. }) && rest.next() != Some(entry) {
            return false;
        }
    }
    rest.next().is_none()
}

/// Whether the parties of one table tell of the script what the heap over the machine tells.
fn tell_the_same(alloc: Global, text: &str) -> Result<bool, Fail> {
    let script = script_of(alloc, text)?;
    let told = told_by_one_table(alloc, &script)?;
    let history = played(alloc, &script, None)?;
    Ok(are_those_of(told.as_slice(), history.entries.as_slice()))
}

/// Whether they do so of the script of this version that these lines are.
fn tell_lines_the_same(alloc: Global, version: &str, lines: &str) -> Result<bool, Fail> {
    let text = format!(in alloc; "schism {version}\n{lines}")?;
    tell_the_same(alloc, &text)
}

/// They do so of each of the scripts of this version.
fn all_tell_the_same(
    rt: &impl Abort,
    alloc: Global,
    version: &str,
    scripts: &[&str],
) -> Result<(), Fail> {
    for lines in scripts {
        holds(rt, tell_lines_the_same(alloc, version, lines)?, lines);
    }
    Ok(())
}

#[test]
fn one_table_tells_what_the_machine_tells(rt: HostRuntime) -> Result<(), Fail> {
    all_tell_the_same(&rt, rt.alloc(), "1", SCRIPTS)?;
    all_tell_the_same(&rt, rt.alloc(), "2", SECOND_SCRIPTS)
}
