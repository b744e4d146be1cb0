//! Plays whose seats collect where a command that allocates is refused for want of space.

ghost use Rattle.script_text.specs.declared.script.Form.TheVariants.{Play};
ghost use Rattle.script_text.specs.Writing.{IsOfForm};
ghost use Rattle.heap_model.specs.Heap.{IsHeap};
ghost use Rattle.std.specs.Prelude.{◌≡◌, IfOk};
ghost use Rattle.std.specs.List.{AllByRecursion};
ghost use Rattle.reply_text.specs.Written.{HasText};
ghost use Rattle.script_text.specs.Preamble.{usual_board};

use super::comparing::same;
use super::script_of;
use heap_model::Memory;
use heap_runs::{MachineHeap, play_pressed};
use reply_text::{History, render_history};
use script_text::Script;
use std::alloc::Global;
use std::test::Fail;

/// Scripts, and what their plays tell.
const PLAYS: &[(&str, &str)] = &[SCATTERED, TOO_LARGE, NO_WORDS, BESIDE_A_SILENT_SEAT];

// Five records of a fragment each are all that there is beside the board. Two of them are dropped, so a collect makes room for one of two fragments.
const SCATTERED: (&str, &str) = (
    "schism 1\nheap 1 0 1\n0 new 1 2\n0 new 2 2\n0 new 3 2\n0 new 4 2\n0 new 5 2\n0 nil 2\n0 nil 4\n0 new 6 5\n",
    "history 1 play\nheap 1 0 1\n0 takes 5\n0 new 1 2 = 0.0\n0 new 2 2 = 0.1\n0 new 3 2 = 0.2\n0 new 4 2 = 0.3\n0 new 5 2 = 0.4\n0 nil 2 = ok\n0 nil 4 = ok\n0 new 6 5 = full need 2 found 0\nc phase 1\n0 answers 1\nc phase 2\n0 answers 2\nc phase 3\n0 answers 3\nc phase 4\n0 answers 4\nc phase 5\n0 answers 5\nc frees 2\nc phase 6\n0 answers 6\nc ends 0 kept 14\n0 collect = cycle 0\n0 takes 2\n0 new 6 5 = 0.5\nspace used 16 of 16 spine 0 of 0\n0 leave = ok\nc phase 8\nc phase 9\nc phase 10\nc phase 11\nc phase 12\nc frees 16\nc phase 13\nc ends 1 kept 0\nend used 0\n",
);

// A record of sixteen fragments is too large beside the board's eleven, also behind a collect.
const TOO_LARGE: (&str, &str) = (
    "schism 1\nheap 1 0 1\n0 new 1 47\n",
    "history 1 play\nheap 1 0 1\n0 takes 5\n0 gives back 5\n0 new 1 47 = full need 16 found 5\nc phase 1\n0 answers 1\nc phase 2\n0 answers 2\nc phase 3\n0 answers 3\nc phase 4\n0 answers 4\nc phase 5\n0 answers 5\nc phase 6\n0 answers 6\nc ends 0 kept 11\n0 collect = cycle 0\n0 takes 5\n0 gives back 5\n0 new 1 47 = full need 16 found 5\nspace used 11 of 16 spine 0 of 0\n0 leave = ok\nc phase 8\nc phase 9\nc phase 10\nc phase 11\nc phase 12\nc frees 11\nc phase 13\nc ends 1 kept 0\nend used 0\n",
);

// An array of 16 cells takes the four spine words and is kept, so the one word of the next stays refused. The record between them isn't refused.
const NO_WORDS: (&str, &str) = (
    "schism 1\nheap 2 4 1\n0 array 1 16\n0 new 3 2\n0 array 2 1\n",
    "history 1 play\nheap 2 4 1\n0 takes 5\n0 array 1 16 = 0.0\n0 takes 16\n0 new 3 2 = 0.1\n0 array 2 1 = spine need 1 used 4\nc phase 1\n0 answers 1\nc phase 2\n0 answers 2\nc phase 3\n0 answers 3\nc phase 4\n0 answers 4\nc swings 0.0\nc phase 5\n0 answers 5\nc phase 6\n0 answers 6\nc ends 0 kept 32\n0 collect = cycle 0\n0 array 2 1 = spine need 1 used 4\nspace used 32 of 32 spine 4 of 4\n0 gives back 15\n0 leave = ok\nc phase 8\nc phase 9\nc phase 10\nc phase 11\nc phase 12\nc frees 16\nc returns 4\nc frees 1\nc phase 13\nc ends 1 kept 0\nend used 0\n",
);

// The other seat doesn't answer, so the collect waits for it, and no cycle ends before the command is made again.
const BESIDE_A_SILENT_SEAT: (&str, &str) = (
    "schism 1\nheap 1 0 2\n0 new 1 47\n",
    "history 1 play\nheap 1 0 2\n0 takes 5\n0 gives back 5\n0 new 1 47 = full need 16 found 5\nc phase 1\n0 answers 1\n0 collect = waits 1 answered 0 phase 1\n0 takes 5\n0 gives back 5\n0 new 1 47 = full need 16 found 5\nspace used 11 of 16 spine 0 of 0\n0 leave = ok\n1 leave = ok\nc phase 2\nc phase 3\nc phase 4\nc phase 5\nc frees 11\nc phase 6\nc ends 0 kept 0\nc phase 8\nc phase 9\nc phase 10\nc phase 11\nc phase 12\nc phase 13\nc ends 1 kept 0\nend used 0\n",
);

/// The history of the script's play on the machine, whose seats collect where they are refused.
fn played(alloc: Global, script: &Script) -> Result<History, Memory>
    requires heap { IsHeap script.now.heap }
    requires form { IsOfForm Play script.now }
    ensures spelled { IfOk result (λ history. AllByRecursion (HasText history.version) history.entries) }
    ensures board { IfOk result (λ history. history.version ≡ 1 → history.heap.board ≡ usual_board) }
{
    let whole = MachineHeap::make(alloc, script.heap)?;
    play_pressed(whole, script.heap, script, None)
}

/// What the play of the script tells, whose seats collect where they are refused.
fn told(alloc: Global, text: &str) -> Result<Vec<u8>, Fail> {
    let script = script_of(alloc, text)?;
    let history = played(alloc, &script)?;
    Ok(render_history(alloc, &history)?)
}

#[test]
fn seats_collect_where_they_are_refused(rt: HostRuntime) -> Result<(), Fail> {
    for (text, wanted) in PLAYS {
        let told = told(rt.alloc(), text)?;
        same(&rt, &told.as_slice(), &wanted.as_bytes(), text);
    }
    Ok(())
}
