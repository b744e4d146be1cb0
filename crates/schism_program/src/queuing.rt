ghost use Rattle.std.specs.Prelude.{◌≡◌, ◌*◌, ◌<◌, ℕ, Err, IfErr, IfOk};
ghost use Rattle.heap_model.specs.Limits.{group_fragments};
ghost use Rattle.heap_model.specs.Needs.{record_fragments};
ghost use Rattle.script_text.specs.declared.cause.LineFault.{LineFault as ALineFault};
ghost use Rattle.heap_queue.specs.QueueText.{IsQueueText};
ghost use Rattle.heap_queue.specs.RunText.{HasRunQueue};
ghost use Rattle.heap_queue.specs.Running.{IsFaultOf};
ghost use Rattle.heap_queue.specs.SeatScripts.{IsOfQueue, seat_scripts};
ghost use Rattle.schism_program.specs.Queuing.{FailsAsQueue, RunsQueue, RunsScript};

use crate::fault::WorkFault;
use crate::made::Made;
use collector_turns::Collector;
use core_machine::Log;
use heap_model::{Gate, Memory};
use heap_queue::{
    QueueFault, QueueRan, QueueScript, read_queue, render_full, run_queue, scripts_of, tell_queue,
};
use heap_runs::seats_of;
use heap_table::HeapTable;
use slack_pace::Pace;
use std::alloc::Global;
use std::sync::Wait;
use std::thread::Threads;

/// What the input tells as a queue's text.
fn queue_of(alloc: Global, input: &[u8]) -> Result<QueueScript, WorkFault>
    ensures ok { IfOk result (IsQueueText input.now) }
    ensures of_queue { IfOk result IsOfQueue }
    ensures refused { (fault : ALineFault) → result ≡ Err (WorkFault.Refused fault) →
        FailsAsQueue input.now fault.line fault.cause }
    ensures legal { (line : ℕ) → result ≡ Err (WorkFault.NotLegal line) → ⊥ }
{
    let script = read_queue(alloc, input)?;
    Ok(script)
}

/// Opens a table and lets its seats serve their scripts.
fn ran_script<G: Gate, R: Threads + Wait + Sync>(
    rt: &R,
    alloc: Global,
    script: &QueueScript,
    pace: Box<dyn Pace>,
    gate: &G,
) -> Result<QueueRan, QueueFault>
    requires { IsOfQueue script.now }
    ensures ran { IfOk result (HasRunQueue script.now.heap (seat_scripts script.now)) }
    ensures room { IfOk result (λ _. record_fragments script.now.heap.board < group_fragments * script.now.heap.groups) }
    ensures fault { IfErr result (IsFaultOf script.now.heap) }
{
    let scripts = scripts_of(alloc, script)?;
    let (holders, collector) = HeapTable::make::<Log, Log>(alloc, script.heap)?;
    let seats = seats_of(alloc, holders)?;
    run_queue(
        rt,
        alloc,
        seats,
        Collector::make(collector),
        scripts.as_slice(),
        pace,
        gate,
    )
}

/// What the puts and takes of the script come to. Where the heap has no room for a queue, the text says so and no table is left.
fn run_script<G: Gate, R: Threads + Wait + Sync>(
    rt: &R,
    alloc: Global,
    script: &QueueScript,
    pace: Box<dyn Pace>,
    gate: &G,
) -> Result<Made, Memory>
    requires { IsOfQueue script.now }
    ensures { IfOk result (λ made. RunsScript script.now made.text.items made.closed) }
{
    match ran_script(rt, alloc, script, pace, gate) {
        Ok(ran) => {
            let text = tell_queue(alloc, script.heap, &ran)?;
            let QueueRan { closed } = ran;
            Ok(Made {
                text,
                closed: Some(closed),
            })
        }
        Err(QueueFault::Full { .. }) => {
            let text = render_full(alloc, script.heap)?;
            Ok(Made { text, closed: None })
        }
        Err(QueueFault::Memory) => Err(Memory),
    }
}

/// Runs the puts and takes of the queue's text that the input is, and tells what each came to.
pub fn run_queue_text<G: Gate, R: Threads + Wait + Sync>(
    rt: &R,
    alloc: Global,
    input: &[u8],
    pace: Box<dyn Pace>,
    gate: &G,
) -> Result<Made, WorkFault>
    ensures ok { IfOk result (λ made. RunsQueue input.now made.text.items made.closed) }
    ensures refused { (fault : ALineFault) → result ≡ Err (WorkFault.Refused fault) →
        FailsAsQueue input.now fault.line fault.cause }
    ensures legal { (line : ℕ) → result ≡ Err (WorkFault.NotLegal line) → ⊥ }
{
    let script = queue_of(alloc, input)?;
    let made = run_script(rt, alloc, &script, pace, gate)?;
    Ok(made)
}
