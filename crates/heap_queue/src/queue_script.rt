ghost use Rattle.std.specs.Prelude.{◌≡◌, None, IfOk, OnOk, IfErr};
ghost use Rattle.script_text.specs.Reading.{FailsBy, GivesOnly};
ghost use Rattle.heap_queue.specs.QueueText.{IsQueueText, first_queue_fault};

use crate::queue_grammar::QueueGrammar;
use crate::queue_line::QueueLine;
use heap_model::Heap;
use script_text::{ScriptFault, Sequence, read_text};
use std::alloc::Global;

/// What a queue's text tells: the heap that it asks for, and what its seats do.
#[derive(Debug, Drop)]
pub struct QueueScript {
    pub heap: Heap,
    pub lines: Sequence<QueueLine>,
}

fn read(alloc: Global, text: &[u8]) -> Result<QueueScript, ScriptFault>
    ensures found { IfOk result (IsQueueText text.now) }
    ensures none { OnOk result (first_queue_fault text.now ≡ None) }
    ensures fault { IfErr result (FailsBy (first_queue_fault text.now)) }
{
    let (preamble, lines) = read_text(alloc, text, &QueueGrammar)?;
    Ok(QueueScript {
        heap: preamble.heap,
        lines,
    })
}

/// What the text tells, if it is a queue's.
pub fn read_queue(alloc: Global, text: &[u8]) -> Result<QueueScript, ScriptFault>
    ensures found { IfOk result (IsQueueText text.now) }
    ensures none { OnOk result (first_queue_fault text.now ≡ None) }
    ensures fault { IfErr result (FailsBy (first_queue_fault text.now)) }
    // It tells that alone, and a text with a fault is none of a queue.
    ensures only { GivesOnly (IsQueueText text.now) result }
{
    read(alloc, text)
}
