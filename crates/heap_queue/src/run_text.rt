ghost use Rattle.std.specs.Prelude.{◌≤◌, List, IfOk};
ghost use Rattle.heap_model.specs.Heap.{IsHeap};
ghost use Rattle.heap_queue.specs.declared.queue_command.QueueCommand.{QueueCommand as AQueueCommand};
ghost use Rattle.heap_queue.specs.RunText.{HasRunQueue, IsRunOn, TellsQueue};

use crate::queue_run::QueueRan;
use crate::rendering::render_queue;
use crate::teller::tell_calls;
use heap_model::{Heap, Memory};
use log_merge::merge;
use std::alloc::Global;

/// The text that tells each put and take of a queue's run, in the order in which they did what they did.
pub fn tell_queue(alloc: Global, heap: Heap, ran: &QueueRan) -> Result<Vec<u8>, Memory>
    requires heap { IsHeap heap }
    requires board { 2 ≤ heap.board }
    requires ran { IsRunOn heap ran.now }
    ensures { (scripts : List (List AQueueCommand)) → HasRunQueue heap scripts ran.now →
        IfOk result (λ text. TellsQueue heap scripts ran.now.closed text.items) }
{
    let history = merge(alloc, ran.closed.logs(), heap)?;
    let calls = tell_calls(alloc, heap, history.as_slice())?;
    render_queue(alloc, heap, calls.as_slice())
}
