ghost use Rattle.std.specs.Prelude.{◌≡◌, ◌≤◌, ℕ, Err, IfOk, map, true};
ghost use Rattle.std.specs.List.{range_with_len};
ghost use Rattle.script_text.specs.declared.cause.LineFault.{LineFault as ALineFault};
ghost use Rattle.script_text.specs.declared.script.Form.TheVariants.{Run};
ghost use Rattle.schism_program.specs.Running.{seat_commands, run_history, Runs};
ghost use Rattle.schism_program.specs.Serving.{FailsAsScript};

use crate::fault::WorkFault;
use crate::serving::script_of;
use core_machine::Machine;
use heap_model::{Command, Gate, Memory};
use locked_heap::{LockedRan, run_locked};
use reply_text::{History, render_history};
use script_text::{Form, Line, Preamble, Script, Sequence};
use slack_pace::Pace;
use std::alloc::Global;
use std::sync::Wait;
use std::thread::Threads;

/// The commands of the seat's lines, in their order.
fn seat_commands(alloc: Global, lines: &[Line], seat: u8) -> Result<Vec<Command>, Memory>
    ensures { IfOk result (λ commands. commands.items ≡ seat_commands seat lines.now) }
{
    let mut commands = Vec::new(alloc);
    for line in lines {
        if let Line::Seat {
            seat: other,
            command,
        } = *line
        {
            if other == seat {
                commands.push(command)?;
            }
        }
    }
    Ok(commands)
}

/// The script of each seat, in the order of their numbers.
pub fn scripts_of(alloc: Global, script: &Script) -> Result<Vec<Vec<Command>>, Memory>
    ensures { IfOk result (λ scripts. map (λ s. s.items) scripts.items ≡ map (λ number. seat_commands number script.now.lines) (range_with_len 0 script.now.heap.seats)) }
{
    let mut scripts = Vec::new(alloc);
    for seat in 0..script.heap.seats {
        scripts.push(seat_commands(alloc, script.lines.as_slice(), seat)?)?;
    }
    Ok(scripts)
}

/// The history that a run came to, of a script that begins so.
fn history_of(front: Preamble, ran: LockedRan) -> History
    ensures { result ≡ run_history front ran }
{
    History {
        version: front.version,
        form: Form::Run,
        heap: front.heap,
        entries: Sequence::from_vec(ran.history),
        mark: None,
        end_used: ran.end_used,
    }
}

/// The text that tells a run of the script that the input is: each seat on a thread of its own, on a heap behind one lock.
pub fn run_text<G: Gate, R: Threads + Wait + Sync>(
    rt: &R,
    alloc: Global,
    input: &[u8],
    pace: Box<dyn Pace>,
    patience: u32,
    gate: &G,
) -> Result<Vec<u8>, WorkFault>
    requires { 1 ≤ patience }
    ensures ok { IfOk result (λ text. Runs true input.now text.items) }
    ensures refused { (fault : ALineFault) → result ≡ Err (WorkFault.Refused fault) →
        FailsAsScript Run input.now fault.line fault.cause }
    ensures legal { (line : ℕ) → result ≡ Err (WorkFault.NotLegal line) → ⊥ }
{
    let script = script_of(alloc, input, Form::Run)?;
    let scripts = scripts_of(alloc, &script)?;
    let machine = Machine::make(alloc, script.heap)?;
    let ran = run_locked(rt, alloc, machine, scripts.as_slice(), pace, patience, gate)?;
    let history = history_of(script.preamble(), ran);
    let text = render_history(alloc, &history)?;
    Ok(text)
}
