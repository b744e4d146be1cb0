//! Texts of queues, and what is told of histories of queues.

use super::comparing::same;
use heap_model::Heap;
use heap_queue::{QueueCommand, QueueLine, read_queue};
use std::process::Abort;
use std::test::Fail;

mod faults;
mod telling;

const QUEUE: &[u8] = b"queue 1\nheap 4 8 3 2\n2 put 0\n0 take\n0 put 1073741823\n2 take\n";

/// The heap of the text.
const HEAP: Heap = Heap {
    groups: 4,
    spine: 8,
    seats: 3,
    board: 2,
};

/// The lines of the text.
const LINES: [QueueLine; 4] = [
    QueueLine {
        seat: 2,
        command: QueueCommand::Put(0),
    },
    QueueLine {
        seat: 0,
        command: QueueCommand::Take,
    },
    QueueLine {
        seat: 0,
        command: QueueCommand::Put(1_073_741_823),
    },
    QueueLine {
        seat: 2,
        command: QueueCommand::Take,
    },
];

/// The text is one of the heap and the lines.
fn is_read(rt: &(impl Abort + AllocGlobal), text: &[u8]) -> Result<(), Fail> {
    let script = read_queue(rt.alloc(), text)?;
    same(rt, &script.heap, &HEAP, &text.len());
    same(rt, &script.lines.as_slice(), &LINES.as_slice(), &text.len());
    Ok(())
}

#[test]
fn each_command(rt: HostRuntime) -> Result<(), Fail> {
    // The last line feed may be missing.
    for text in [QUEUE, &QUEUE[..QUEUE.len() - 1]] {
        is_read(&rt, text)?;
    }
    Ok(())
}
