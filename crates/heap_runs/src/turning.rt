ghost use Rattle.std.specs.Prelude.{IfOk};
ghost use Rattle.heap_runs.specs.Turning.{ServesTurns, ServesCycle, ServesCommand};

use crate::play_heap::PlayHeap;
use heap_model::{Memory, Turn, TurnCommand, TurnReply};

/// Makes so many turns, or those up to the first that waits, and answers what they came to. An end of a cycle is a turn as others.
fn make_turns<H: PlayHeap>(whole: &mut H, count: u32) -> Result<TurnReply, Memory>
    ensures { IfOk result (ServesTurns (H.state whole.old) (H.state whole.new) count) }
{
    for _ in 0..count {
        if let Some(behind) = whole.turn()?.behind() {
            return Ok(TurnReply::from(behind));
        }
    }
    Ok(TurnReply::Done)
}

/// Makes turns up to the first that ends a cycle or waits, and answers which of these it was.
pub fn end_cycle<H: PlayHeap>(whole: &mut H) -> Result<TurnReply, Memory>
    ensures { IfOk result (ServesCycle (H.state whole.old) (H.state whole.new)) }
{
    loop {
        let turn = whole.turn()?;
        if let Some(behind) = turn.behind() {
            return Ok(TurnReply::from(behind));
        }
        if let Turn::Ended { cycle, .. } = turn {
            return Ok(TurnReply::Cycle(cycle));
        }
    }
}

/// Makes the turns that a line of a script asks of the collector, and answers what they came to. They stop at the first that waits.
/// After want of memory the heap is only dropped.
pub fn turn_line<H: PlayHeap>(whole: &mut H, command: &TurnCommand) -> Result<TurnReply, Memory>
    ensures { IfOk result (ServesCommand (H.state whole.old) (H.state whole.new) command.now) }
{
    match *command {
        TurnCommand::Turns(count) => make_turns(whole, count),
        TurnCommand::Cycle => end_cycle(whole),
    }
}
