ghost use Rattle.std.specs.Prelude.{◌≡◌, [], ◌++◌, Some, IfOk, OnOk, IfErr};
ghost use Rattle.script_text.specs.LineFaults.{command_fault};
ghost use Rattle.script_text.specs.Operands.{operands_fault};
ghost use Rattle.heap_queue.specs.Serving.{IsQueueCommand};
ghost use Rattle.heap_queue.specs.QueueText.{IsQueueLine, queue_commands, queue_command_words, queue_header, queue_judge, queue_words};

use crate::queue_command::QueueCommand;
use crate::queue_line::QueueLine;
use heap_model::Heap;
use heap_model::limits::NUMBER_LIMIT;
use script_text::{Cause, Grammar, Parts, Preamble, operand_within, read_below};

/// The command that the next words are; no fault is looked for after them.
fn read_queue_command(words: &mut Parts<'_>) -> Result<QueueCommand, Cause>
    ensures found { IfOk result (λ command. words.old ≡ queue_command_words command ++ words.new) }
    ensures range { IfOk result IsQueueCommand }
    ensures rest { OnOk result
        (command_fault queue_commands words.old ≡ operands_fault [] words.new) }
    ensures fault { IfErr result (λ cause. command_fault queue_commands words.old ≡ Some cause) }
{
    let Some(word) = words.next() else {
        return Err(Cause::NoCommand);
    };
    if word == b"take".as_slice() {
        return Ok(QueueCommand::Take);
    }
    if word != b"put".as_slice() {
        return Err(Cause::NoCommand);
    }
    let number = operand_within(words, 0, NUMBER_LIMIT - 1)?;
    Ok(QueueCommand::Put(number))
}

/// The grammar of a queue's texts: seats that put numbers and take.
pub struct QueueGrammar;

impl Grammar for QueueGrammar {
    type Line = QueueLine;

    ghost judge = { λ _. queue_judge };

    ghost header = { λ _. queue_header };

    ghost line_words = { λ _. queue_words };

    ghost may_follow = { λ _. IsQueueLine };

    fn version_of(&self, first: &[u8]) -> Option<u8> {
        if first == b"queue 1".as_slice() {
            Some(2)
        } else {
            None
        }
    }

    fn takes(&self, heap: &Heap) -> bool {
        heap.board >= 2
    }

    fn read_front(&self, words: &mut Parts<'_>, preamble: &Preamble) -> Result<QueueLine, Cause> {
        let Some(word) = words.next() else {
            return Err(Cause::NoSeat);
        };
        let Some(seat) = read_below(word, preamble.heap.seats.into()) else {
            return Err(Cause::NoSeat);
        };
        let command = read_queue_command(words)?;
        let seat = seat as u8;
        Ok(QueueLine { seat, command })
    }
}
