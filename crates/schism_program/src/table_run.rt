ghost use Rattle.std.specs.Prelude.{◌≡◌, ◌≤◌, ℕ, Err, IfOk};
ghost use Rattle.script_text.specs.declared.cause.LineFault.{LineFault as ALineFault};
ghost use Rattle.script_text.specs.declared.script.Form.TheVariants.{Run};
ghost use Rattle.script_text.specs.Writing.{IsOfForm};
ghost use Rattle.schism_program.specs.Running.{merged_history, RunsOnTable, TellsTable};
ghost use Rattle.schism_program.specs.Serving.{FailsAsScript};

use crate::fault::WorkFault;
use crate::running::scripts_of;
use crate::serving::script_of;
use collector_turns::Collector;
use core_machine::Log;
use heap_model::{Entry, Gate, Memory};
use heap_runs::{Ran, run_seats, seats_of};
use heap_table::{Closed, HeapTable};
use log_merge::merge;
use reply_text::{History, render_history};
use script_text::{Form, Preamble, Script, Sequence};
use slack_pace::Pace;
use std::alloc::Global;
use std::sync::Wait;
use std::thread::Threads;

/// A run on a shared table: the text that tells it, and the table as it was closed.
#[derive(Drop)]
pub struct TableRun {
    pub text: Vec<u8>,
    pub closed: Closed,
}

/// The history that tells a run of these entries, at whose end nothing is in use, of a script that begins so.
pub fn history_of(front: Preamble, entries: Vec<Entry>) -> History
    ensures { result ≡ merged_history front entries.items }
{
    History {
        version: front.version,
        form: Form::Run,
        heap: front.heap,
        entries: Sequence::from_vec(entries),
        mark: None,
        end_used: 0,
    }
}

/// The history that tells a run on a shared table, and the table as it was closed.
#[derive(Drop)]
pub struct ToldRun {
    pub history: History,
    pub closed: Closed,
}

/// Runs the script on a shared table, each seat on a thread of its own and with no lock round a word of the heap.
pub fn told_run<G: Gate, R: Threads + Wait + Sync>(
    rt: &R,
    alloc: Global,
    script: &Script,
    pace: Box<dyn Pace>,
    patience: u32,
    gate: &G,
) -> Result<ToldRun, Memory>
    requires form { IsOfForm Run script.now }
    requires patience { 1 ≤ patience }
    ensures { IfOk result (λ told. TellsTable script.now told.history told.closed) }
{
    let scripts = scripts_of(alloc, script)?;
    let (holders, collector) = HeapTable::make::<Log, Log>(alloc, script.heap)?;
    let seats = seats_of(alloc, holders)?;
    let collector = Collector::make(collector);
    let Ran { closed, .. } = run_seats(
        rt,
        alloc,
        seats,
        collector,
        scripts.as_slice(),
        pace,
        patience,
        gate,
    )?;
    let entries = merge(alloc, closed.logs(), script.heap)?;
    let history = history_of(script.preamble(), entries);
    Ok(ToldRun { history, closed })
}

/// Runs the script that the input is on a shared table, and tells the run.
pub fn run_on_table<G: Gate, R: Threads + Wait + Sync>(
    rt: &R,
    alloc: Global,
    input: &[u8],
    pace: Box<dyn Pace>,
    patience: u32,
    gate: &G,
) -> Result<TableRun, WorkFault>
    requires { 1 ≤ patience }
    ensures ok { IfOk result (λ run. RunsOnTable input.now run.text.items run.closed) }
    ensures refused { (fault : ALineFault) → result ≡ Err (WorkFault.Refused fault) →
        FailsAsScript Run input.now fault.line fault.cause }
    ensures legal { (line : ℕ) → result ≡ Err (WorkFault.NotLegal line) → ⊥ }
{
    let script = script_of(alloc, input, Form::Run)?;
    let told = told_run(rt, alloc, &script, pace, patience, gate)?;
    let text = render_history(alloc, &told.history)?;
    let ToldRun { closed, .. } = told;
    Ok(TableRun { text, closed })
}
