ghost use Rattle.std.specs.Prelude.{◌≡◌, All, IfOk, map};
ghost use Rattle.heap_queue.specs.Running.{IsQueueScript};
ghost use Rattle.heap_queue.specs.SeatScripts.{IsOfQueue, commands_of, seat_scripts};

use crate::queue_command::QueueCommand;
use crate::queue_line::QueueLine;
use crate::queue_script::QueueScript;
use heap_model::Memory;
use std::alloc::Global;

/// The commands of the seat's lines, in their order.
fn commands_of(alloc: Global, lines: &[QueueLine], seat: u8) -> Result<Vec<QueueCommand>, Memory>
    ensures { IfOk result (λ commands. commands.items ≡ commands_of seat lines.now) }
{
    let mut commands = Vec::new(alloc);
    for line in lines {
        if line.seat == seat {
            commands.push(line.command)?;
        }
    }
    Ok(commands)
}

/// The script of each seat, in the order of their numbers: it has the commands of the seat's lines, in their order.
pub fn scripts_of(alloc: Global, script: &QueueScript) -> Result<Vec<Vec<QueueCommand>>, Memory>
    requires { IsOfQueue script.now }
    ensures told { IfOk result (λ scripts. map (λ s. s.items) scripts.items ≡ seat_scripts script.now) }
    ensures fit { IfOk result (λ scripts. All IsQueueScript (map (λ s. s.items) scripts.items)) }
{
    let mut scripts = Vec::new(alloc);
    for seat in 0..script.heap.seats {
        scripts.push(commands_of(alloc, script.lines.as_slice(), seat)?)?;
    }
    Ok(scripts)
}
