//! Histories that are read and written.

use reply_text::read_history;
use script_text::{LineFault, ScriptFault};
use std::alloc::Global;

mod cuts;
mod faults;
mod lines;
mod migrated;
mod wholes;

const RESERVE: &[u8] = b"history 1 play\nheap 1 0 1\n\
    0 takes 5\n0 new 1 2 = 0.0\n0 new 2 47 = full need 16 found 4\n0 nil 1 = ok\n\
    c phase 1\n0 answers 1\nc phase 2\n0 answers 2\nc phase 3\n0 answers 3\nc phase 4\n0 answers 4\n\
    c phase 5\n0 answers 5\nc frees 1\nc phase 6\n0 answers 6\nc ends 0 kept 15\n0 collect = cycle 0\n\
    space used 15 of 16 spine 0 of 0\n\
    0 gives back 4\n0 leave = ok\n\
    c phase 8\nc phase 9\nc phase 10\nc phase 11\nc phase 12\nc frees 11\nc phase 13\nc ends 1 kept 0\n\
    end used 0\n";

fn fault_of(alloc: Global, text: &[u8]) -> Option<LineFault> {
    match read_history(alloc, text) {
        Err(ScriptFault::Line(fault)) => Some(fault),
        _ => None,
    }
}
